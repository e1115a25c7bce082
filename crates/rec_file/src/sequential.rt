//! Sequential files: a list of records.
ghost use Rattle.std.specs.Prelude.{◌≡◌, IsTrue};
ghost use Rattle.rec_file.specs.Shapes.{is_shape, is_seq};
ghost use Rattle.rec_file.specs.Files.{empty_file};
ghost use Rattle.rec_file.specs.Looks.{plain_look, IsLook};

use crate::files::{OneWalk, RecordFile};
use crate::look::Look;
use crate::shapes::Shape;
use std::alloc::{AllocError, Global};
use std::marker::Model;

/// A sequential file (in the manner of RMS): a list of records, of which the first has number
/// 1, and so on.
#[derive(Drop)]
pub struct SeqFile {
    shape: Shape,
    look: Look,
    records: Vec<Vec<u8>>,
}

impl Model for SeqFile {
    ghost use Rattle.std.specs.Prelude.{◌≡◌, List, ℕ, map, true};
    ghost use Rattle.rec_file.specs.Shapes.{is_seq};
    ghost use Rattle.rec_file.specs.Inner.Numbered.{sequential_file};
    ghost use Rattle.rec_file.specs.Files.{FileVal, IsFile};
    ghost use Rattle.rec_file.specs.Stored.{file_code};

    ghost Value = { FileVal };

    ghost coded = { file_code };

    ghost view = { λ a. sequential_file a.shape a.look (map (λ v. v.items) a.records.items) };

    ghost invariant = { λ a. IsFile (sequential_file a.shape a.look (map (λ v. v.items) a.records.items))
        × (is_seq a.shape.org ≡ true) };
}

impl SeqFile {
    /// Returns an empty file of a sequential shape that [`Shape::check`] gives. Nothing is kept of Attributes. It takes no
    /// memory.
    #[tactic(auto, using(crate::proofs::Looking::a_plain_look))]
    pub fn new(alloc: Global, shape: Shape) -> SeqFile
        requires valid { IsTrue (is_shape shape) }
        requires sequential { IsTrue (is_seq shape.org) }
        ensures { result ≡ empty_file shape plain_look }
    {
        SeqFile::with_look(alloc, shape, Look::plain())
    }

    /// Returns an empty file as [`SeqFile::new`] does, with what is kept of the Attributes that make it.
    pub(crate) fn with_look(alloc: Global, shape: Shape, look: Look) -> SeqFile
        requires valid { IsTrue (is_shape shape) }
        requires sequential { IsTrue (is_seq shape.org) }
        requires look { IsLook shape look }
        ensures { result ≡ empty_file shape look }
    {
        SeqFile {
            shape,
            look,
            records: Vec::new(alloc),
        }
    }

    /// Returns what is kept of the Attributes that made the file.
    pub(crate) fn look(&self) -> Look
        ensures { result ≡ self.now.look }
    {
        self.look
    }
}

impl OneWalk for SeqFile {
    ghost value = { λ f. f };

    fn record_from(&self, number: u32) -> Option<(u32, &[u8])> {
        let records = &self.records;
        let first = number.max(1);
        let record = records.get(first as usize - 1)?;
        Some((first, record.as_slice()))
    }

    fn insert_if_free(&mut self, _number: u32, body: &[u8]) -> Result<bool, AllocError> {
        let record = Vec::from_slice(*self.records.allocator(), body)?;
        self.records.push(record)?;
        Ok(true)
    }

    fn replace_if_occupied(&mut self, number: u32, body: &[u8]) -> Result<bool, AllocError> {
        if number == 0 || number as usize > self.records.len() {
            return Ok(false);
        }
        let record = Vec::from_slice(*self.records.allocator(), body)?;
        self.records[number as usize - 1] = record;
        Ok(true)
    }

    /// Is never called: no file is sequential and relative.
    fn remove_if_occupied(&mut self, _number: u32) -> bool {
        let _ = &self.shape;
        unreachable!()
    }
}

impl RecordFile for SeqFile {
    fn shape(&self) -> Shape {
        self.shape
    }

    fn lookup(&self, number: u32) -> Option<&[u8]> {
        let records = &self.records;
        let record = records.get((number as usize).checked_sub(1)?)?;
        Some(record.as_slice())
    }

    fn highest(&self) -> u32 {
        self.records.len() as u32
    }
}
