//! Reading one line.

ghost use Rattle.std.specs.Prelude.{◌≡◌, ◌≢◌, ◌≤◌, ◌<◌, ◌-◌, ◌++◌, [], ℕ, List, All, length, take, true, false, Ok, IfOk, OnOk, OnErr, IfSome, OnSome};
ghost use Rattle.std.specs.Io.{StopsAt, IsEmptyOrEndsWith};
ghost use Rattle.std.specs.Io.KnownBytes.{Consumes, IsAtEnd, Keeps};
ghost use Rattle.linewise.specs.Talks.{ReadsPart};
ghost use Rattle.linewise.specs.Inner.Kept.{HoldsLine, HoldsMore, HasReadLine, Passes};

use memchr::memchr;
use std::alloc::Global;
use std::io::{BufRead, Error, ErrorKind, Result};

/// The maximum of a line in bytes, without its end.
pub const MAX_LINE: usize = 16_777_216;

/// A carriage return and a line feed.
const END: usize = 2;

/// Room that a line has from the start, so that a short one takes no memory.
const ROOM: usize = 4_096;

/// What is kept of a line.
#[derive(Clone, Copy, PartialEq, Eq)]
pub(crate) enum Kept {
    All,
    /// It is longer than a line may be.
    TooLong,
    /// Out of memory.
    NoMemory,
}

/// A line, as far as it was read.
#[derive(Drop)]
pub(crate) struct Line {
    pub(crate) bytes: Vec<u8>,
    pub(crate) kept: Kept,
}

impl Line {
    /// Returns a line of which nothing was read yet.
    pub(crate) fn new(alloc: Global) -> Line
        ensures { HoldsLine result [] }
    {
        let mut bytes = Vec::new(alloc);
        // Where it is refused, the line may ask again.
        let _ = bytes.reserve(ROOM);
        Line {
            bytes,
            kept: Kept::All,
        }
    }

    /// Begins the next line, of which nothing was read yet.
    fn begin(&mut self)
        ensures { HoldsLine self.new [] }
    {
        self.bytes.clear();
        self.kept = Kept::All;
    }

    /// Returns whether nothing was read, so that there is no line.
    pub(crate) fn is_over(&self) -> bool
        ensures over { result ≡ true → (read : List ℕ) → HoldsLine self.now read → read ≡ [] }
        ensures more { result ≡ false → (read : List ℕ) → HoldsLine self.now read
            → 0 < length read }
    {
        self.kept == Kept::All && self.bytes.is_empty()
    }

    /// Keeps more of the line.
    fn keep(&mut self, more: &[u8])
        ensures { HoldsMore self.old self.new more.now }
    {
        if self.kept != Kept::All || more.is_empty() {
            return;
        }
        if self.bytes.len() + more.len() > MAX_LINE + END {
            self.kept = Kept::TooLong;
            return;
        }
        if self.bytes.extend_from_slice(more).is_err() {
            self.kept = Kept::NoMemory;
        }
    }
}

/// Returns how many bytes there are up to and with the first line feed, or in all where there is none.
fn len_through(bytes: &[u8]) -> usize
    ensures bound { result ≤ length bytes.now }
    ensures some { 0 < length bytes.now → 0 < result }
    ensures before { All (λ byte. byte ≢ 10) (take (result - 1) bytes.now) }
{
    match memchr(b'\n', bytes) {
        Some(index) => index + 1,
        None => bytes.len(),
    }
}

/// Takes what the reader shows, no further than the first line feed, and returns whether the line ends there.
fn take_some<R: BufRead>(reader: &mut R, line: &mut Line) -> Result<bool>
    ensures failed { OnErr result (Keeps (R.remaining reader.old) (R.remaining reader.new)) }
    ensures some { IfOk result (Passes (R.remaining reader.old) (R.remaining reader.new)
        line.old line.new) }
{
    let shown = match reader.fill_buf() {
        Ok(shown) => shown,
        Err(error) => return Err(error),
    };
    let end = len_through(shown);
    line.keep(&shown[..end]);
    let is_done = end == 0 || shown[end - 1] == b'\n';
    reader.consume(end);
    Ok(is_done)
}

/// Reads a line, of which there may be nothing left. Where the reader fails, at most a part of it was read.
pub(crate) fn read_line<R: BufRead>(reader: &mut R, line: &mut Line) -> Result<()>
    ensures whole { OnOk result
        (HasReadLine (R.remaining reader.old) (R.remaining reader.new) line.new) }
    ensures failed { OnErr result
        (ReadsPart (R.remaining reader.old) (R.remaining reader.new)) }
{
    line.begin();
    for _ in 0..u64::MAX {
        if take_some(reader, line)? {
            return Ok(());
        }
    }
    Err(Error::from(ErrorKind::Other))
}
