//! Standard output whose reader may go away, as that of `| head -1` does.

ghost use Rattle.std.specs.Prelude.{◌≡◌, true, false};

use std::cell::Cell;
use std::io;
use std::io::{Error, ErrorKind, Write};

/// The exit status where the reader of standard output went away: the one that a shell shows of a program that
/// SIGPIPE, signal 13, ended.
pub const CLOSED_PIPE: u8 = 128 + 13;

/// Standard output, which notes where its reader went away.
#[derive(Drop)]
pub struct Output<'a, W> {
    writer: W,
    is_closed: &'a Cell<bool>,
}

impl<'a, W: Write> Output<'a, W> {
    /// Creates the writer, with a cell that is to say whether its reader went away.
    pub fn new(writer: W, is_closed: &'a Cell<bool>) -> Self
        ensures { result.writer ≡ writer }
    {
        Output { writer, is_closed }
    }

    /// Notes an error that says so.
    fn note(&self, error: Error) -> Error {
        if error.kind() == ErrorKind::BrokenPipe {
            self.is_closed.set(true);
        }
        error
    }
}

impl<W: Write> Write for Output<'_, W> {
    ghost contents = { λ o. W.contents o.writer };

    fn write(&mut self, bytes: &[u8]) -> io::Result<usize> {
        match self.writer.write(bytes) {
            Ok(count) => Ok(count),
            Err(error) => Err(self.note(error)),
        }
    }

    fn flush(&mut self) -> io::Result<()> {
        match self.writer.flush() {
            Ok(()) => Ok(()),
            Err(error) => Err(self.note(error)),
        }
    }
}

/// Standard error, which is silent once the reader of standard output went away.
#[derive(Drop)]
pub struct ErrorOutput<'a, E> {
    writer: E,
    is_closed: &'a Cell<bool>,
}

impl<'a, E: Write> ErrorOutput<'a, E> {
    /// Creates the writer, with a cell that says whether the reader of standard output went away.
    pub fn new(writer: E, is_closed: &'a Cell<bool>) -> Self
        ensures { result.writer ≡ writer }
    {
        ErrorOutput { writer, is_closed }
    }
}

impl<E: Write> Write for ErrorOutput<'_, E> {
    ghost contents = { λ o. E.contents o.writer };

    fn write(&mut self, bytes: &[u8]) -> io::Result<usize> {
        if self.is_closed.get() {
            return Err(Error::from(ErrorKind::BrokenPipe));
        }
        self.writer.write(bytes)
    }

    fn flush(&mut self) -> io::Result<()> {
        self.writer.flush()
    }
}

/// Returns the exit status of a program that would end with this one.
pub fn exit_status(status: u8, is_closed: bool) -> u8
    ensures open { is_closed ≡ false → result ≡ status }
    ensures closed { is_closed ≡ true → result ≡ 141 }
{
    if is_closed { CLOSED_PIPE } else { status }
}
