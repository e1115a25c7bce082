//! A reader that keeps the first bytes that came.

ghost use Rattle.std.specs.Prelude.{◌≡◌, ◌++◌, [], IfOk, take};
ghost use Rattle.std.specs.Io.{ReadsAtMost};
ghost use Rattle.std.specs.Io.KnownBytes.{ReadConsumes};

use arrayvec::ArrayVec;
use std::io;
use std::io::Read;

/// How many of the first bytes are kept: they tell a file of captured frames.
const FRONT_LEN: usize = 4;

/// A reader that keeps the first four bytes which come through it, however few come at a time.
#[derive(Drop)]
pub(crate) struct Fronted<R> {
    reader: R,
    front: ArrayVec<u8, FRONT_LEN>,
}

impl<R: Read> Fronted<R> {
    /// Creates a reader through which nothing came yet.
    pub(crate) fn new(reader: R) -> Self
        ensures reader { result.reader ≡ reader }
        ensures front { result.front.items ≡ [] }
    {
        Fronted {
            reader,
            front: ArrayVec::new(),
        }
    }

    /// Returns the first bytes that came, at most four.
    pub(crate) fn front(&self) -> &[u8]
        ensures { result.now ≡ self.now.front.items }
    {
        self.front.as_slice()
    }

    /// Keeps what is among the first bytes.
    #[tactic(auto, using(crate::proofs::FrontLemmas::kept))]
    fn keep(&mut self, came: &[u8])
        ensures reader { self.new.reader ≡ self.old.reader }
        ensures front { self.new.front.items ≡ take 4 (self.old.front.items ++ came.now) }
    {
        let count = self.front.remaining_capacity().min(came.len());
        let Ok(()) = self.front.try_extend_from_slice(&came[..count]) else {
            unreachable!()
        };
    }
}

impl<R: Read> Read for Fronted<R> {
    ghost remaining = { λ f. R.remaining f.reader };

    fn read(&mut self, buffer: &mut [u8]) -> io::Result<usize>
        ensures bound { ReadsAtMost result buffer.new }
        ensures bytes { ReadConsumes (R.remaining self.old.reader) (R.remaining self.new.reader)
            result buffer.new }
        ensures front { IfOk result (λ count. self.new.front.items
            ≡ take 4 (self.old.front.items ++ take count buffer.new)) }
    {
        match self.reader.read(buffer) {
            Ok(count) => {
                self.keep(&buffer[..count]);
                Ok(count)
            }
            Err(error) => Err(error),
        }
    }
}
