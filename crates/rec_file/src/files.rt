//! What a record file is: a shape, what is kept besides, and a finite map from numbers to records.
ghost use Rattle.std.specs.Prelude.{◌≡◌, ◌≤◌, ◌+◌, [], ◌∷◌, length, Some, None, false, is_none, is_some, IsTrue, IsSome, IfSome, IfNone, IfOk, OnOk, OnErr, MatchBool};
ghost use Rattle.std.specs.Option.{option_copied};
ghost use Rattle.std.specs.FinMap as map;
ghost use Rattle.rec_file.specs.Shapes.{max_number, allows_length, is_seq};
ghost use Rattle.rec_file.specs.Limits.{max_record_number, max_record};
ghost use Rattle.rec_file.specs.Files.{FileVal, IsFile, lowest_from, highest_of, records_from, file_with_record, file_without_record, may_place, may_replace, may_remove};

use crate::shapes::Shape;
use std::alloc::AllocError;

/// The calls of a file that find the record of a number and act on it in one walk, so that a caller needn't look for
/// it before. [`Stream`]s are made of these calls; whoever uses a file itself needs none of them, and finds those of
/// [`RecordFile`] simpler.
///
/// `insert_if_free` and `replace_if_occupied` alone take memory; where it is refused, nothing has changed.
///
/// [`Stream`]: crate::Stream
pub trait OneWalk {
    /// The shape, what is kept besides, and the records.
    ghost value: { Self → FileVal };

    /// Returns the lowest occupied number from this one on and its record, or None where there is none.
    fn record_from(&self, number: u32) -> Option<(u32, &[u8])>
        ensures none { IfNone result (lowest_from (value self.now).records number ≡ None) }
        ensures lowest { IfSome result
            (λ r. lowest_from (value self.now).records number ≡ Some r.0) }
        ensures same { IfSome result
            (λ r. map.get (value self.now).records r.0 ≡ Some r.1.now) }
        ensures within { IfSome result (λ r. r.0 ≤ max_record_number) }
        ensures short { IfSome result (λ r. length r.1.now ≤ max_record) };

    /// Stores a record under a number, in a sequential file under the next one, and returns whether the number was
    /// free. Where it wasn't, nothing has changed. An error is out of memory: the number is free, and nothing has
    /// changed.
    fn insert_if_free(&mut self, number: u32, body: &[u8]) -> Result<bool, AllocError>
        requires above { 1 ≤ number }
        requires within { number ≤ max_number (value self.old).shape }
        requires next { IsTrue (is_seq (value self.old).shape.org)
            → number ≡ highest_of (value self.old).records + 1 }
        requires length { IsTrue (allows_length (value self.old).shape (length body.now)) }
        ensures free { IfOk result
            (λ free. free ≡ is_none (map.get (value self.old).records number)) }
        ensures ok { IfOk result (λ free. MatchBool free
            (value self.new ≡ file_with_record (value self.old) number body.now)
            (value self.new ≡ value self.old)) }
        ensures err { OnErr result (value self.new ≡ value self.old) }
        ensures wanted { OnErr result (map.get (value self.old).records number ≡ None) };

    /// Stores another record under a number, and returns whether it was occupied. Where it wasn't, nothing has
    /// changed. An error is out of memory: the number is occupied, and nothing has changed.
    fn replace_if_occupied(&mut self, number: u32, body: &[u8]) -> Result<bool, AllocError>
        requires length { IsTrue (allows_length (value self.old).shape (length body.now)) }
        ensures occupied { IfOk result
            (λ had. had ≡ is_some (map.get (value self.old).records number)) }
        ensures ok { IfOk result (λ had. MatchBool had
            (value self.new ≡ file_with_record (value self.old) number body.now)
            (value self.new ≡ value self.old)) }
        ensures err { OnErr result (value self.new ≡ value self.old) }
        ensures wanted { OnErr result (IsSome (map.get (value self.old).records number)) };

    /// Removes the record of a number of a relative file, and returns whether it was occupied. Where it wasn't,
    /// nothing has changed.
    fn remove_if_occupied(&mut self, number: u32) -> bool
        requires relative { is_seq (value self.old).shape.org ≡ false }
        ensures occupied { result ≡ is_some (map.get (value self.old).records number) }
        ensures ok { MatchBool result
            (value self.new ≡ file_without_record (value self.old) number)
            (value self.new ≡ value self.old) };
}

/// A file of numbered records, however it is kept, in the manner of RMS: its value is a shape, what is kept of the
/// Attributes that made it, and a finite map from numbers to records. Each call reads or changes that map alone.
///
/// `place` and `replace` alone take memory; where it is refused, nothing has changed.
pub trait RecordFile: OneWalk {
    /// Returns the shape, which is one that [`Shape::check`] gives. Numbers are 1 to the limit, in a sequential file
    /// exactly 1 to the highest, and each record has a length that the shape allows.
    fn shape(&self) -> Shape
        ensures same { result ≡ (Self.value self.now).shape }
        ensures valid { IsFile (Self.value self.now) };

    /// Returns the record of a number, or None where the number is free.
    fn lookup(&self, number: u32) -> Option<&[u8]>
        ensures same { option_copied result ≡ map.get (Self.value self.now).records number }
        ensures short { IfSome result (λ body. length body.now ≤ max_record) };

    /// Returns the lowest occupied number from this one on, or None where there is none.
    fn first_from(&self, number: u32) -> Option<u32>
        ensures lowest { result ≡ lowest_from (Self.value self.now).records number }
        ensures within { IfSome result (λ n. n ≤ max_record_number) }
    {
        let (first, _body) = self.record_from(number)?;
        Some(first)
    }

    /// Returns the highest occupied number, or 0 where the file is empty.
    fn highest(&self) -> u32
        ensures same { result ≡ highest_of (Self.value self.now).records }
        ensures within { result ≤ max_record_number };

    /// Stores a record under a free number within the limit, in a sequential file under the next one, of a length that
    /// the shape allows. Elsewhere nothing changes. An error is out of memory: nothing has changed.
    fn place(&mut self, number: u32, body: &[u8]) -> Result<(), AllocError>
        ensures ok { OnOk result (MatchBool
            (may_place (Self.value self.old) number (length body.now))
            (Self.value self.new ≡ file_with_record (Self.value self.old) number body.now)
            (Self.value self.new ≡ Self.value self.old)) }
        ensures err { OnErr result (Self.value self.new ≡ Self.value self.old) }
        ensures wanted { OnErr result
            (IsTrue (may_place (Self.value self.old) number (length body.now))) }
    {
        let shape = self.shape();
        let is_next = !shape.is_sequential() || number == self.highest() + 1;
        if number >= 1 && number <= shape.limit() && is_next && shape.allows(body.len()) {
            let _free = self.insert_if_free(number, body)?;
        }
        Ok(())
    }

    /// Stores another record under an occupied number, of a length that the shape allows. Elsewhere nothing changes.
    /// An error is out of memory: nothing has changed.
    fn replace(&mut self, number: u32, body: &[u8]) -> Result<(), AllocError>
        ensures ok { OnOk result (MatchBool
            (may_replace (Self.value self.old) number (length body.now))
            (Self.value self.new ≡ file_with_record (Self.value self.old) number body.now)
            (Self.value self.new ≡ Self.value self.old)) }
        ensures err { OnErr result (Self.value self.new ≡ Self.value self.old) }
        ensures wanted { OnErr result
            (IsTrue (may_replace (Self.value self.old) number (length body.now))) }
    {
        if self.shape().allows(body.len()) {
            let _occupied = self.replace_if_occupied(number, body)?;
        }
        Ok(())
    }

    /// Removes the record of an occupied number of a relative file. Elsewhere nothing changes.
    fn remove(&mut self, number: u32)
        ensures { MatchBool (may_remove (Self.value self.old) number)
            (Self.value self.new ≡ file_without_record (Self.value self.old) number)
            (Self.value self.new ≡ Self.value self.old) }
    {
        if !self.shape().is_sequential() {
            let _occupied = self.remove_if_occupied(number);
        }
    }
}

/// Returns the lowest occupied number from this one on and its record: one step through the records of a file in
/// order. None where there is no such record.
pub fn first_record<F: RecordFile>(file: &F, number: u32) -> Option<(u32, &[u8])>
    ensures none { IfNone result (records_from (F.value file.now).records number ≡ []) }
    ensures some { IfSome result (λ r. records_from (F.value file.now).records number
        ≡ (r.0, r.1.now) ∷ records_from (F.value file.now).records (r.0 + 1)) }
    ensures within { IfSome result (λ r. r.0 ≤ max_record_number) }
    ensures short { IfSome result (λ r. length r.1.now ≤ max_record) }
{
    let (first, body) = file.record_from(number)?;
    Some((first, body))
}
