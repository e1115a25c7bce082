//! Reading a file that comes in pieces.

ghost use Rattle.std.specs.Prelude.{◌≡◌, ◌≢◌, ◌≤◌, ◌<◌, ◌+◌, ◌^◌, ◌⊎◌, ◌++◌, ◌∷◌, ℕ, List, [], Some, None, true, false, IfErr, IfOk, IfSome, OnOk, length, take, Ok, Err};
ghost use Rattle.capture_file.specs.Meanings.{Record, frame_record};
ghost use Rattle.capture_file.specs.Files.{IsCutShort, IsNone, IsWhole, Stops};
ghost use Rattle.capture_file.specs.Reading.{Gathers, HasRead, IsReady, IsWithinKept, given_in, keeps, wanted_count};
ghost use Rattle.capture_file.specs.Inner.Frames.{HasFrame};
ghost use Rattle.capture_file.specs.Inner.State.{ReadsUnit, Lies, IsInUnits, KeepsUnits, goal_of};

use crate::meaning::{Given, Interface, Meaning, meaning_of};
use crate::units::{Extent, Format, TAIL, extent_of, head_len};
use crate::{FaultKind, FileFault};
use std::alloc::Global;

/// A file, as far as it was read. What is kept is at most a unit, of at most 262,168 bytes, and the interfaces of a
/// section, of which there are at most 1,024.
#[derive(Drop)]
pub struct Reading {
    pub(crate) format: Format,
    pub(crate) interfaces: Vec<Interface>,
    /// The offset of the unit.
    pub(crate) offset: u64,
    /// How many bytes of the unit were read.
    pub(crate) seen: usize,
    /// How long the unit is, once its head was read.
    pub(crate) extent: Option<Extent>,
    /// What is kept of the unit; after its end, until the next one begins.
    pub(crate) kept: Vec<u8>,
}

/// How many bytes of a piece were taken, and the frame that is whole with them.
#[derive(Clone, Copy, Debug)]
pub struct Step {
    pub taken: usize,
    pub given: Option<Given>,
}

impl Reading {
    /// Returns a reader that has read nothing yet. It takes no memory.
    pub fn new(alloc: Global) -> Self
        ensures { HasRead result [] [] }
    {
        Reading {
            format: Format::Start,
            interfaces: Vec::new(alloc),
            offset: 0,
            seen: 0,
            extent: None,
            kept: Vec::new(alloc),
        }
    }

    /// Returns how far the bytes go that are taken next, and whether they are kept.
    fn goal(&self) -> (usize, bool)
        ensures { result ≡ goal_of self.now.format self.now.extent self.now.seen }
    {
        match self.extent {
            None => (head_len(self.format), true),
            Some(extent) if extent.whole => (extent.long, true),
            Some(extent) if self.seen < extent.long.saturating_sub(TAIL) => {
                (extent.long.saturating_sub(TAIL), false)
            }
            Some(extent) => (extent.long, true),
        }
    }

    /// Drops what is kept of the unit before.
    fn begin(&mut self)
        ensures lies { Lies self.old self.new }
        ensures seen { self.new.seen ≡ self.old.seen }
        ensures kept { (rest : List ℕ) → Gathers self.old rest
            → self.new.kept.items ≡ keeps self.old.extent rest }
    {
        if self.seen == 0 {
            self.kept.clear();
        }
    }

    /// Takes bytes, which may be kept.
    fn keep(&mut self, part: &[u8], is_kept: bool) -> Result<(), FaultKind>
        requires { self.old.seen + length part.now < 2 ^ 64 }
        ensures lies { OnOk result (Lies self.old self.new) }
        ensures seen { OnOk result (self.new.seen ≡ self.old.seen + length part.now) }
        ensures kept { OnOk result (is_kept ≡ true
            → self.new.kept.items ≡ self.old.kept.items ++ part.now) }
        ensures passed { OnOk result (is_kept ≡ false
            → self.new.kept.items ≡ self.old.kept.items) }
        ensures memory { IfErr result (λ kind. kind ≡ FaultKind.NoMemory) }
    {
        if is_kept && self.kept.extend_from_slice(part).is_err() {
            return Err(FaultKind::NoMemory);
        }
        self.seen += part.len();
        Ok(())
    }

    /// Takes bytes of the unit.
    fn gather(&mut self, piece: &[u8]) -> Result<usize, FaultKind>
        requires { (rest : List ℕ) × Gathers self.old rest
            × (length rest < wanted_count self.old.format self.old.extent) }
        ensures within { IfOk result (λ count. count ≤ length piece.now) }
        ensures some { IfOk result (λ count. 0 < length piece.now → 0 < count) }
        ensures stays { OnOk result (KeepsUnits self.old self.new) }
        ensures gathers { IfOk result (λ count. (rest : List ℕ) → Gathers self.old rest
            → length rest < wanted_count self.old.format self.old.extent
            → Gathers self.new (rest ++ take count piece.now)) }
        ensures memory { IfErr result (λ kind. kind ≡ FaultKind.NoMemory) }
    {
        self.begin();
        let (goal, is_kept) = self.goal();
        let count = piece.len().min(goal - self.seen);
        match self.keep(&piece[..count], is_kept) {
            Ok(()) => Ok(count),
            Err(kind) => Err(kind),
        }
    }

    /// Reads the head of the unit, once it is there.
    fn measure(&mut self) -> Result<(), FaultKind>
        requires { (rest : List ℕ) × Gathers self.old rest }
        ensures stays { KeepsUnits self.old self.new }
        ensures gathers { OnOk result ((rest : List ℕ) → Gathers self.old rest
            → Gathers self.new rest) }
        ensures short { OnOk result (self.new.extent ≡ None
            → (rest : List ℕ) → Gathers self.old rest
            → length rest < wanted_count self.new.format self.new.extent) }
        ensures fault { IfErr result (λ kind. (rest : List ℕ) → Gathers self.old rest
            → IsNone self.old.format self.old.interfaces.items rest kind) }
    {
        if self.extent.is_none() && self.seen == head_len(self.format) {
            match extent_of(self.format, &self.kept) {
                Ok(extent) => self.extent = Some(extent),
                Err(kind) => return Err(kind),
            }
        }
        Ok(())
    }

    /// Applies what a whole unit says, and begins the next unit.
    fn apply(&mut self, meaning: Meaning) -> Result<Option<Given>, FaultKind>
        requires { HasFrame self.old.kept.items meaning }
        ensures goes { IfOk result (ReadsUnit self.old self.new meaning) }
        ensures within { IfOk result (λ given. IfSome given (IsWithinKept self.new.kept.items)) }
        ensures memory { IfErr result (λ kind. kind ≡ FaultKind.NoMemory) }
    {
        self.offset = self.offset.saturating_add(self.seen as u64);
        self.seen = 0;
        self.extent = None;
        match meaning {
            Meaning::Begins(format) => {
                self.format = format;
                self.interfaces.clear();
                Ok(None)
            }
            Meaning::Describes(interface) => {
                if self.interfaces.push(interface).is_err() {
                    return Err(FaultKind::NoMemory);
                }
                Ok(None)
            }
            Meaning::Gives(given) => Ok(Some(given)),
            Meaning::Nothing => Ok(None),
        }
    }

    /// Applies what the unit says, once it is whole.
    fn end(&mut self) -> Result<Option<Given>, FaultKind>
        requires stands { (bytes rest : List ℕ) × (records : List Record)
            × IsInUnits self.old bytes records rest }
        requires measured { self.old.extent ≡ None → (rest : List ℕ) → Gathers self.old rest
            → length rest < wanted_count self.old.format self.old.extent }
        ensures read { IfOk result (λ given. (bytes rest : List ℕ) (records : List Record)
            → IsInUnits self.old bytes records rest
            → HasRead self.new bytes (records ++ given_in self.new.kept.items given)) }
        ensures within { IfOk result (λ given. IfSome given (IsWithinKept self.new.kept.items)) }
        ensures fault { IfErr result (λ kind. (kind ≡ FaultKind.NoMemory)
            ⊎ ((rest : List ℕ) → Gathers self.old rest
            → IsNone self.old.format self.old.interfaces.items rest kind)) }
    {
        let Some(extent) = self.extent else {
            return Ok(None);
        };
        if self.seen < extent.long {
            return Ok(None);
        }
        match meaning_of(self.format, &self.interfaces, &self.kept) {
            Ok(meaning) => self.apply(meaning),
            Err(kind) => Err(kind),
        }
    }

    fn take_some(&mut self, piece: &[u8]) -> Result<Step, FaultKind>
        requires { IsReady self.old }
        ensures within { IfOk result (λ step. step.taken ≤ length piece.now) }
        ensures some { IfOk result (λ step. 0 < length piece.now → 0 < step.taken) }
        ensures frame { IfOk result
            (λ step. IfSome step.given (IsWithinKept self.new.kept.items)) }
        ensures read { IfOk result (λ step. (bytes : List ℕ) (records : List Record)
            → HasRead self.old bytes records
            → HasRead self.new (bytes ++ take step.taken piece.now)
            (records ++ given_in self.new.kept.items step.given)) }
        ensures fault { IfErr result (λ kind. (kind ≡ FaultKind.NoMemory)
            ⊎ ((bytes : List ℕ) (records : List Record) → HasRead self.old bytes records
            → Stops (bytes ++ piece.now) records kind self.old.offset)) }
    {
        let taken = match self.gather(piece) {
            Ok(taken) => taken,
            Err(kind) => return Err(kind),
        };
        match self.measure() {
            Ok(()) => {}
            Err(kind) => return Err(kind),
        }
        match self.end() {
            Ok(given) => Ok(Step { taken, given }),
            Err(kind) => Err(kind),
        }
    }

    /// Takes bytes of a piece, at least one of them if there are any, but none after the end of the unit that is read.
    /// The frame that is whole with them, if there is one, is what [`Reading::frame`] returns until more is taken.
    ///
    /// Faults: the file is at fault, whatever follows; or memory was refused. Nothing can be taken after a fault.
    pub fn take(&mut self, piece: &[u8]) -> Result<Step, FileFault>
        requires { IsReady self.old }
        ensures within { IfOk result (λ step. step.taken ≤ length piece.now) }
        ensures some { IfOk result (λ step. 0 < length piece.now → 0 < step.taken) }
        ensures frame { IfOk result
            (λ step. IfSome step.given (IsWithinKept self.new.kept.items)) }
        ensures read { IfOk result (λ step. (bytes : List ℕ) (records : List Record)
            → HasRead self.old bytes records
            → HasRead self.new (bytes ++ take step.taken piece.now)
            (records ++ given_in self.new.kept.items step.given)) }
        ensures fault { IfErr result (λ fault. (fault.kind ≡ FaultKind.NoMemory)
            ⊎ ((bytes : List ℕ) (records : List Record) → HasRead self.old bytes records
            → Stops (bytes ++ piece.now) records fault.kind fault.at)) }
        ensures at { IfErr result (λ fault. fault.at ≡ self.old.offset) }
    {
        let at = self.offset;
        match self.take_some(piece) {
            Ok(step) => Ok(step),
            Err(kind) => Err(FileFault { kind, at }),
        }
    }

    /// Returns the bytes of the frame that is whole with the last bytes that were taken.
    pub fn frame(&self, given: Given) -> &[u8]
        requires { IsWithinKept self.now.kept.items given }
        ensures { result.now ≡ (frame_record self.now.kept.items given).bytes }
    {
        let (_, after) = self.kept.split_at(given.from);
        let (frame, _) = after.split_at(given.count);
        frame
    }

    /// Returns the offset of the unit that is read.
    pub fn offset(&self) -> u64
        ensures { result ≡ self.now.offset }
    {
        self.offset
    }

    /// Returns whether no unit was read yet.
    fn is_new(&self) -> bool
        ensures new { result ≡ true → self.now.format ≡ Format.Start }
        ensures begun { result ≡ false → self.now.format ≢ Format.Start }
    {
        match self.format {
            Format::Start => true,
            Format::Pcap(_, _) | Format::Section(_) => false,
        }
    }

    /// Checks that the file may end here: `CutShort`, with the offset of the unit that isn't whole, or 0 of an empty
    /// file.
    pub fn finish(&self) -> Result<(), FileFault>
        ensures whole { OnOk result ((bytes : List ℕ) (records : List Record)
            → HasRead self.now bytes records → IsWhole bytes records) }
        ensures cut { IfErr result (λ fault. (fault.kind ≡ FaultKind.CutShort)
            × ((bytes : List ℕ) (records : List Record) → HasRead self.now bytes records
            → IsCutShort bytes records fault.at)) }
    {
        let fault = FileFault {
            kind: FaultKind::CutShort,
            at: self.offset,
        };
        if self.seen > 0 {
            return Err(fault);
        }
        if self.is_new() {
            return Err(fault);
        }
        Ok(())
    }
}
