//! A stream: a position in a file, and the operations of a user on it.
ghost use Rattle.std.specs.Prelude.{◌≡◌, ◌≤◌, ◌+◌, false, length, Some, Ok, Err, IfErr, IfOk, IsTrue, if◌then◌else◌};
ghost use Rattle.rec_file.specs.declared.refusals.Refusal.TheVariants.{NoCurrent, RecordExists};
ghost use Rattle.rec_file.specs.Files.{highest_of};
ghost use Rattle.rec_file.specs.Shapes.{max_number, allows_length, is_seq};
ghost use Rattle.std.specs.FinMap as map;
ghost use Rattle.rec_file.specs.Limits.{max_record_number, max_record};
ghost use Rattle.rec_file.specs.Acts.{act, Acts, IsOutcome, is_free_number, is_no_memory, get_record, put_record, update_record, delete_record};

use crate::files::RecordFile;
use crate::picks::{Pick, Rights};
use crate::refusals::Refusal;
use crate::shapes::MAX_NUMBER;
use std::marker::Model;

/// A user's position in a file, and what the user may do (in the manner of RMS): the number from which the next get
/// searches, from 1 to one above [`MAX_NUMBER`], and perhaps a current record.
///
/// An operation returns the number of its record, or the first of its refusals whose condition holds. Each operation
/// leaves no current record, refused or not, save a get that finds one, and save out of memory, which comes last and
/// changes nothing.
#[derive(Clone, Copy)]
pub struct Stream {
    rights: Rights,
    next: u32,
    current: Option<u32>,
}

impl Model for Stream {
    ghost use Rattle.std.specs.Prelude.{◌≤◌, ◌+◌};
    ghost use Rattle.rec_file.specs.Limits.{max_record_number};
    ghost use Rattle.rec_file.specs.Acts.{StreamVal};

    ghost Value = { StreamVal };

    ghost view = { λ s. record { rights = s.rights; next = s.next; current = s.current } };

    ghost invariant = { λ s. (1 ≤ s.next) × (s.next ≤ max_record_number + 1) };

    ghost inverse = { λ v. record { rights = v.rights; next = v.next; current = v.current } };
}

impl Stream {
    /// Returns a stream at number 1, with no current record.
    pub fn new(rights: Rights) -> Stream
        ensures { result ≡ record { rights = rights; next = 1; current = None } }
    {
        Stream {
            rights,
            next: 1,
            current: None,
        }
    }

    /// Returns what its user may do.
    pub fn rights(&self) -> Rights
        ensures { result ≡ self.now.rights }
    {
        self.rights
    }

    /// Returns the number from which the next get searches: 1 to one above [`MAX_NUMBER`].
    pub fn next(&self) -> u32
        ensures same { result ≡ self.now.next }
        ensures above { 1 ≤ result }
        ensures within { result ≤ max_record_number + 1 }
    {
        self.next
    }

    /// Makes the next get search from n on, with no current record.
    pub fn seek(&mut self, n: u32)
        requires above { 1 ≤ n }
        requires within { n ≤ max_record_number + 1 }
        ensures { self.new ≡ record self.old { next = n; current = None } }
    {
        *self = Stream {
            next: n,
            current: None,
            ..*self
        };
    }

    /// Makes the next get search from 1 on, with no current record.
    pub fn rewind(&mut self)
        ensures { self.new ≡ record self.old { next = 1; current = None } }
    {
        self.seek(1);
    }

    /// Forgets the current record, and changes nothing else.
    pub fn forget(&mut self)
        ensures { self.new ≡ record self.old { current = None } }
    {
        let current = None;
        *self = Stream { current, ..*self };
    }

    /// Finds a record. It becomes the current one, and the next get searches after it; a refused get doesn't change
    /// where the next one searches. It takes no memory.
    ///
    /// Refusals in order: NotPermitted; by `Next` EndOfFile; by `Key` BadAccessMode in a sequential file,
    /// NumberOutOfRange, RecordNotFound; by `Rfa` NumberOutOfRange, RecordNotFound.
    pub fn get<F: RecordFile>(&mut self, file: &F, pick: Pick) -> Result<u32, Refusal>
        ensures reply { result ≡ (act (get_record pick) (F.value file.now) self.old).reply }
        ensures stream { self.new ≡ (act (get_record pick) (F.value file.now) self.old).stream }
        ensures no_memory_wanted { is_no_memory result ≡ false }
    {
        let (number, _body) = self.read(file, pick)?;
        Ok(number)
    }

    /// Gets a record as [`Stream::get`] does, and returns it too, after its number. It takes no memory. Its refusals
    /// are those of [`Stream::get`].
    pub fn read<'a, F: RecordFile>(
        &mut self,
        file: &'a F,
        pick: Pick,
    ) -> Result<(u32, &'a [u8]), Refusal>
        ensures refused { IfErr result (λ refusal.
            (act (get_record pick) (F.value file.now) self.old).reply ≡ Err refusal) }
        ensures reply { IfOk result (λ r.
            (act (get_record pick) (F.value file.now) self.old).reply ≡ Ok r.0) }
        ensures same { IfOk result
            (λ r. map.get (F.value file.now).records r.0 ≡ Some r.1.now) }
        ensures short { IfOk result (λ r. length r.1.now ≤ max_record) }
        ensures stream { self.new ≡ (act (get_record pick) (F.value file.now) self.old).stream }
        ensures no_memory_wanted { IfErr result (λ refusal. is_no_memory (Err refusal) ≡ false) }
    {
        match self.found(file, pick) {
            Ok((number, body)) => {
                self.seek(number + 1);
                self.current = Some(number);
                Ok((number, body))
            }
            Err(refusal) => {
                self.current = None;
                Err(refusal)
            }
        }
    }

    /// Returns the record that a get finds, after its number.
    fn found<'a, F: RecordFile>(&self, file: &'a F, pick: Pick) -> Result<(u32, &'a [u8]), Refusal>
        ensures refused { IfErr result (λ refusal.
            (act (get_record pick) (F.value file.now) self.now).reply ≡ Err refusal) }
        ensures reply { IfOk result (λ r.
            (act (get_record pick) (F.value file.now) self.now).reply ≡ Ok r.0) }
        ensures same { IfOk result
            (λ r. map.get (F.value file.now).records r.0 ≡ Some r.1.now) }
        ensures within { IfOk result (λ r. r.0 ≤ max_record_number) }
        ensures short { IfOk result (λ r. length r.1.now ≤ max_record) }
        ensures no_memory_wanted { IfErr result (λ refusal. is_no_memory (Err refusal) ≡ false) }
    {
        if !self.rights.get {
            return Err(Refusal::NotPermitted);
        }
        match pick {
            Pick::Next => match file.record_from(self.next) {
                Some((number, body)) => Ok((number, body)),
                None => Err(Refusal::EndOfFile),
            },
            Pick::Key(_) if file.shape().is_sequential() => Err(Refusal::BadAccessMode),
            Pick::Key(number) | Pick::Rfa(number) => {
                if number == 0 || number > file.shape().limit() {
                    return Err(Refusal::NumberOutOfRange);
                }
                match file.lookup(number) {
                    Some(body) => Ok((number, body)),
                    None => Err(Refusal::RecordNotFound),
                }
            }
        }
    }

    /// Stores a new record: under the key; without one at the end of a sequential file, and in a relative file at
    /// the stream's next, which moves after it.
    ///
    /// Refusals in order: NotPermitted, BadAccessMode (a key in a sequential file), BadLength, NumberOutOfRange,
    /// RecordExists, NoMemory.
    pub fn put<F: RecordFile>(
        &mut self,
        file: &mut F,
        key: Option<u32>,
        body: &[u8],
    ) -> Result<u32, Refusal>
        ensures { Acts (put_record key body.now) (F.value file.old) self.old
            (F.value file.new) self.new result }
    {
        let number = match self.put_number(file, key, body) {
            Ok(number) => number,
            Err(refusal) => {
                self.current = None;
                return Err(refusal);
            }
        };
        let moves = key.is_none() && !file.shape().is_sequential();
        match file.insert_if_free(number, body) {
            Ok(true) => {
                let next = if moves { number + 1 } else { self.next };
                self.seek(next);
                Ok(number)
            }
            Ok(false) => {
                self.current = None;
                Err(Refusal::RecordExists)
            }
            Err(_) => Err(Refusal::NoMemory),
        }
    }

    /// Returns the number that a put gives, where it is free.
    fn put_number<F: RecordFile>(
        &self,
        file: &F,
        key: Option<u32>,
        body: &[u8],
    ) -> Result<u32, Refusal>
        ensures refused { IfErr result (λ refusal.
            (act (put_record key body.now) (F.value file.now) self.now).reply ≡ Err refusal) }
        ensures reply { IfOk result (λ n.
            (act (put_record key body.now) (F.value file.now) self.now).reply
            ≡ (if is_free_number (F.value file.now) n then Ok n else Err RecordExists)) }
        ensures above { IfOk result (λ n. 1 ≤ n) }
        ensures within { IfOk result (λ n. n ≤ max_number (F.value file.now).shape) }
        ensures next { IfOk result (λ n. IsTrue (is_seq (F.value file.now).shape.org)
            → n ≡ highest_of (F.value file.now).records + 1) }
        ensures length { IfOk result
            (λ _. IsTrue (allows_length (F.value file.now).shape (length body.now))) }
    {
        if !self.rights.put {
            return Err(Refusal::NotPermitted);
        }
        let shape = file.shape();
        if key.is_some() && shape.is_sequential() {
            return Err(Refusal::BadAccessMode);
        }
        if !shape.allows(body.len()) {
            return Err(Refusal::BadLength);
        }
        let number = match key {
            Some(number) => number,
            None if shape.is_sequential() => file.highest() + 1,
            None => self.next,
        };
        if number == 0 || number > shape.limit() {
            return Err(Refusal::NumberOutOfRange);
        }
        Ok(number)
    }

    /// Replaces the current record, in a sequential file by one of the same length.
    ///
    /// Refusals in order: NotPermitted, NoCurrent, BadLength, NoMemory.
    pub fn update<F: RecordFile>(&mut self, file: &mut F, body: &[u8]) -> Result<u32, Refusal>
        ensures { Acts (update_record body.now) (F.value file.old) self.old
            (F.value file.new) self.new result }
    {
        let number = match self.updated_number(file, body) {
            Ok(number) => number,
            Err(refusal) => {
                self.current = None;
                return Err(refusal);
            }
        };
        match file.replace_if_occupied(number, body) {
            Ok(true) => {
                self.forget();
                Ok(number)
            }
            Ok(false) => {
                self.current = None;
                Err(Refusal::NoCurrent)
            }
            Err(_) => Err(Refusal::NoMemory),
        }
    }

    /// Returns the number that an update is about, where it is occupied.
    fn updated_number<F: RecordFile>(&self, file: &F, body: &[u8]) -> Result<u32, Refusal>
        ensures refused { IfErr result (λ refusal.
            (act (update_record body.now) (F.value file.now) self.now).reply ≡ Err refusal) }
        ensures reply { IfOk result (λ n.
            (act (update_record body.now) (F.value file.now) self.now).reply
            ≡ (if is_free_number (F.value file.now) n then Err NoCurrent else Ok n)) }
        ensures length { IfOk result
            (λ _. IsTrue (allows_length (F.value file.now).shape (length body.now))) }
    {
        if !self.rights.upd {
            return Err(Refusal::NotPermitted);
        }
        let Some(number) = self.current else {
            return Err(Refusal::NoCurrent);
        };
        let shape = file.shape();
        let allowed = shape.allows(body.len());
        if allowed && !shape.is_sequential() {
            return Ok(number);
        }
        let Some(record) = file.lookup(number) else {
            return Err(Refusal::NoCurrent);
        };
        if allowed && body.len() == record.len() {
            Ok(number)
        } else {
            Err(Refusal::BadLength)
        }
    }

    /// Removes the current record of a relative file. It takes no memory.
    ///
    /// Refusals in order: NotPermitted, DeleteNotAllowed (a sequential file), NoCurrent.
    pub fn delete<F: RecordFile>(&mut self, file: &mut F) -> Result<u32, Refusal>
        ensures outcome { IsOutcome (act delete_record (F.value file.old) self.old)
            (F.value file.new) self.new result }
        ensures no_memory_wanted { is_no_memory result ≡ false }
    {
        let current = self.current.take();
        if !self.rights.del {
            return Err(Refusal::NotPermitted);
        }
        if file.shape().is_sequential() {
            return Err(Refusal::DeleteNotAllowed);
        }
        let Some(number) = current else {
            return Err(Refusal::NoCurrent);
        };
        if !file.remove_if_occupied(number) {
            return Err(Refusal::NoCurrent);
        }
        Ok(number)
    }
}
