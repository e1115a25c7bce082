//! Files that the end is given, for one link after another.

ghost use Rattle.std.specs.Prelude.{◌≡◌, List, ◌∷◌, ◌++◌, [], ℕ, length, IsTrue, IfErr, OnOk, OnErr, true, false};
ghost use Rattle.rec_file.specs.Shapes.{is_shape};
ghost use Rattle.rec_file.specs.AnyFiles.{any_value};
ghost use Rattle.dap_accessed.specs.Asked.{plainly};
ghost use Rattle.dap_accessed.specs.Standing.{Files};
ghost use Rattle.dap_accessed.specs.Present.{StandsAfter};
ghost use Rattle.dap_accessed.specs.Adding.{IsFresh, IsLate, MayAdd, AddRefused, with_new_file, MayAddRecord, RecordRefused, with_record, leaves_gap};
ghost use Rattle.dap_accessed.specs.Storing.{Stores};
ghost use Rattle.dap_msg.specs.declared.items.Item.{Item as TheItem};

use crate::accessed::Accessed;
use crate::asked::Asked;
use crate::fault::AddFault;
use crate::phase::Phase;
use dap_msg::MIN_BUFFER;
use rec_file::{AnyFile, OneWalk, RecordFile, Refusal, Rights, Shape};

impl Accessed {
    /// Begins another link, over the same files: the end waits for a peer's Config again, an open file is closed, and a
    /// PUT or an UPDATE that waits for its record is dropped.
    pub fn renew(&mut self)
        ensures own { self.new.own ≡ self.old.own }
        ensures setup { self.new.setup ≡ self.old.setup }
        ensures stands { StandsAfter self.old.files [] self.new }
    {
        self.session.renew();
    }

    /// Begins another link as [`Accessed::renew`] does; an Access on it may ask for these rights at most.
    pub fn renew_for(&mut self, most: Rights)
        ensures own { self.new.own ≡ self.old.own }
        ensures setup { self.new.setup ≡ record self.old.setup { most = most } }
        ensures stands { StandsAfter self.old.files [] self.new }
    {
        self.session.renew_for(most);
    }

    /// Adds a file without records after the others, before the peer's Config was served. Its shape is one that
    /// [`Shape::check`] gives.
    ///
    /// Refusals in order: Busy; FileExists, where there is one of its name, as the end compares names, or with versions
    /// where the number asked for is taken, none is left, or the name asks for none; NoMemory. Each leaves the end
    /// unchanged.
    pub fn add(&mut self, name: &[u8], shape: Shape) -> Result<(), AddFault>
        requires { IsTrue (is_shape shape) }
        ensures may { OnOk result (MayAdd self.old name.now) }
        ensures files { OnOk result
            (self.new.files ≡ with_new_file self.old.setup.names name.now (plainly shape)
            self.old.files) }
        ensures stands { OnOk result ((first : Files) (items : List TheItem)
            → StandsAfter first items self.old → StandsAfter self.new.files items self.new) }
        ensures own { self.new.own ≡ self.old.own }
        ensures setup { self.new.setup ≡ self.old.setup }
        ensures refused { IfErr result (λ f. AddRefused self.old name.now f) }
        ensures unchanged { OnErr result (self.new ≡ self.old) }
    {
        if !self.is_fresh() {
            return Err(AddFault::Busy);
        }
        let Some(number) = self.files.number_given(self.session.setup.names, name) else {
            return Err(AddFault::FileExists);
        };
        let asked = Asked::plainly(shape);
        let names = self.session.setup.names;
        self.files
            .make(self.session.alloc, names, name, number, asked)?;
        Ok(())
    }

    /// Adds a record to the newest file, under its number, before the peer's Config was served. In a sequential file
    /// the number is the next one.
    ///
    /// Refusals in order: Busy, NoFile; as of a PUT with this number BadLength, NumberOutOfRange, RecordExists;
    /// NoMemory. Each leaves the end unchanged.
    pub fn add_record(&mut self, number: u32, body: &[u8]) -> Result<(), AddFault>
        ensures may { OnOk result (MayAddRecord self.old number body.now) }
        ensures files { OnOk result (self.new.files ≡ with_record number body.now self.old.files) }
        ensures stands { OnOk result ((first : Files) (items : List TheItem)
            → StandsAfter first items self.old → StandsAfter self.new.files items self.new) }
        ensures own { self.new.own ≡ self.old.own }
        ensures setup { self.new.setup ≡ self.old.setup }
        ensures refused { IfErr result (λ f. RecordRefused self.old number body.now f) }
        ensures unchanged { OnErr result (self.new ≡ self.old) }
    {
        if !self.is_fresh() {
            return Err(AddFault::Busy);
        }
        let count = self.files.count();
        if count == 0 {
            return Err(AddFault::NoFile);
        }
        self.files.add_record(count - 1, number, body)
    }

    /// Returns whether the end waits for the peer's Config.
    fn is_fresh(&self) -> bool
        ensures yes { result ≡ true → IsFresh self.now }
        ensures no { result ≡ false → IsLate self.now }
    {
        match self.session.phase {
            Phase::Fresh => true,
            _ => false,
        }
    }
}

/// Stores a record under its number. In a sequential file each number up to the highest has a record.
pub(crate) fn add_record(file: &mut AnyFile, number: u32, body: &[u8]) -> Result<(), AddFault>
    ensures { Stores number body.now (any_value file.old) (any_value file.new) result }
{
    let shape = file.shape();
    if !shape.allows(body.len()) {
        return Err(AddFault::Record(Refusal::BadLength));
    }
    if number == 0 || number > shape.limit() || leaves_gap(file, number) {
        return Err(AddFault::Record(Refusal::NumberOutOfRange));
    }
    if shape.is_sequential() && number <= file.highest() {
        return Err(AddFault::Record(Refusal::RecordExists));
    }
    match file.insert_if_free(number, body)? {
        true => Ok(()),
        false => Err(AddFault::Record(Refusal::RecordExists)),
    }
}

/// Returns whether a record would leave a gap before it in a sequential file.
fn leaves_gap(file: &AnyFile, number: u32) -> bool
    ensures { result ≡ leaves_gap (any_value file.now) number }
{
    file.shape().is_sequential() && number > file.highest() + 1
}
