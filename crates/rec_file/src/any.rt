//! Files of either organization.
ghost use Rattle.std.specs.Prelude.{◌≡◌, IsTrue};
ghost use Rattle.rec_file.specs.Shapes.{is_shape};
ghost use Rattle.rec_file.specs.AnyFiles.{any_value};
ghost use Rattle.rec_file.specs.Files.{empty_file};
ghost use Rattle.rec_file.specs.Looks.{plain_look, IsLook};

use crate::files::{OneWalk, RecordFile};
use crate::look::Look;
use crate::relative::RelFile;
use crate::sequential::SeqFile;
use crate::shapes::{Org, Shape};
use std::alloc::{AllocError, Global};

/// A file of either organization (in the manner of RMS).
#[derive(Drop)]
pub enum AnyFile {
    /// A sequential file.
    Seq(SeqFile),
    /// A relative file.
    Rel(RelFile),
}

impl AnyFile {
    /// Returns an empty file of the shape's organization, the shape being one that [`Shape::check`] gives. Nothing is
    /// kept of Attributes. It takes no memory.
    #[tactic(auto, using(crate::proofs::Looking::a_plain_look))]
    pub fn new(alloc: Global, shape: Shape) -> AnyFile
        requires { IsTrue (is_shape shape) }
        ensures { any_value result ≡ empty_file shape plain_look }
    {
        AnyFile::with_look(alloc, shape, Look::plain())
    }

    /// Returns an empty file as [`AnyFile::new`] does, with what is kept of the Attributes that make it.
    pub fn with_look(alloc: Global, shape: Shape, look: Look) -> AnyFile
        requires valid { IsTrue (is_shape shape) }
        requires look { IsLook shape look }
        ensures { any_value result ≡ empty_file shape look }
    {
        match shape.org {
            Org::Seq => AnyFile::Seq(SeqFile::with_look(alloc, shape, look)),
            Org::Rel => AnyFile::Rel(RelFile::with_look(alloc, shape, look)),
        }
    }

    /// Returns what is kept of the Attributes that made the file.
    pub fn look(&self) -> Look
        ensures { result ≡ (any_value self.now).look }
    {
        match self {
            AnyFile::Seq(file) => file.look(),
            AnyFile::Rel(file) => file.look(),
        }
    }
}

impl OneWalk for AnyFile {
    ghost value = { any_value };

    fn record_from(&self, number: u32) -> Option<(u32, &[u8])> {
        match self {
            AnyFile::Seq(file) => file.record_from(number),
            AnyFile::Rel(file) => file.record_from(number),
        }
    }

    fn insert_if_free(&mut self, number: u32, body: &[u8]) -> Result<bool, AllocError> {
        match self {
            AnyFile::Seq(file) => file.insert_if_free(number, body),
            AnyFile::Rel(file) => file.insert_if_free(number, body),
        }
    }

    fn replace_if_occupied(&mut self, number: u32, body: &[u8]) -> Result<bool, AllocError> {
        match self {
            AnyFile::Seq(file) => file.replace_if_occupied(number, body),
            AnyFile::Rel(file) => file.replace_if_occupied(number, body),
        }
    }

    fn remove_if_occupied(&mut self, number: u32) -> bool {
        match self {
            AnyFile::Seq(file) => file.remove_if_occupied(number),
            AnyFile::Rel(file) => file.remove_if_occupied(number),
        }
    }
}

impl RecordFile for AnyFile {
    fn shape(&self) -> Shape {
        match self {
            AnyFile::Seq(file) => file.shape(),
            AnyFile::Rel(file) => file.shape(),
        }
    }

    fn lookup(&self, number: u32) -> Option<&[u8]> {
        match self {
            AnyFile::Seq(file) => file.lookup(number),
            AnyFile::Rel(file) => file.lookup(number),
        }
    }

    fn highest(&self) -> u32 {
        match self {
            AnyFile::Seq(file) => file.highest(),
            AnyFile::Rel(file) => file.highest(),
        }
    }
}
