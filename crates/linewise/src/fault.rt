//! How a run over an input ends.
ghost use Rattle.std.specs.Prelude.{◌≡◌, Err, IfErr, OnOk};
ghost use Rattle.std.specs.Io.KnownBytes.{Keeps};
ghost use Rattle.linewise.specs.Gives.{TellsFault, status_of};
ghost use Rattle.linewise.specs.Output.{WritesFront};

use crate::output::write_text;
use std::alloc::AllocError;
use std::error::Error;
use std::fmt;
use std::io::Write;

/// A run that came to its end.
#[derive(Clone, Copy, PartialEq, Eq)]
pub enum Outcome {
    /// All was done.
    Good,
    /// It stopped before the end of what its input says, as a schedule does at an event without a step.
    Stopped,
}

/// Why a run wrote nothing, or not all.
#[derive(Clone, Copy, Debug, PartialEq, Eq)]
pub enum CaptureFault {
    /// The line of this number, from 1, has no meaning.
    BadLine(usize),
    /// The input, a packet or a message is longer than its limit.
    TooLarge,
    /// The reader failed.
    ReadFailed,
    /// The writer failed, or took nothing.
    WriteFailed,
    /// Out of memory.
    NoMemory,
}

impl CaptureFault {
    /// Returns what is printed of it, but for what it holds.
    fn text(self) -> &'static str {
        match self {
            CaptureFault::BadLine(_) => "bad line",
            CaptureFault::TooLarge => "too large",
            CaptureFault::ReadFailed => "read failed",
            CaptureFault::WriteFailed => "write failed",
            CaptureFault::NoMemory => "no memory",
        }
    }
}

impl fmt::Display for CaptureFault {
    fn fmt<W: fmt::Write>(&self, f: &mut fmt::Formatter<W>) -> fmt::Result {
        match self {
            CaptureFault::BadLine(line) => write!(f, "{} {line}", self.text()),
            _ => f.write_str(self.text()),
        }
    }
}

impl Error for CaptureFault {}

impl From<AllocError> for CaptureFault {
    ghost use Rattle.linewise.specs.declared.fault.CaptureFault.TheVariants.{NoMemory};

    ghost from_gives = { λ _ fault. fault ≡ NoMemory };

    fn from(_error: AllocError) -> CaptureFault {
        CaptureFault::NoMemory
    }
}

/// Reports a fault in this line. A failure of the error writer changes nothing.
fn tell_line<E: Write>(line: &str, error_writer: &mut E)
    ensures { WritesFront (E.contents error_writer.old) (E.contents error_writer.new) line.now }
{
    let _ = write_text(line.as_bytes(), error_writer);
}

/// Reports a fault in its line, and returns the exit status. A failure of the error writer changes nothing.
pub fn tell_fault<E: Write>(fault: CaptureFault, error_writer: &mut E) -> u8
    ensures status { result ≡ status_of (Err fault) }
    ensures told { TellsFault fault
        (E.contents error_writer.old) (E.contents error_writer.new) }
{
    match fault {
        CaptureFault::ReadFailed => tell_line("read failed\n", error_writer),
        CaptureFault::WriteFailed => tell_line("write failed\n", error_writer),
        CaptureFault::NoMemory => tell_line("no memory\n", error_writer),
        CaptureFault::BadLine(_) | CaptureFault::TooLarge => {
            let _ = writeln!(error_writer, "{fault}");
            return 1;
        }
    }
    3
}

/// Returns the exit status of an outcome, whose fault is reported in one line. Where there is none, nothing is reported.
pub fn finish<E: Write>(outcome: Result<Outcome, CaptureFault>, error_writer: &mut E) -> u8
    ensures status { result ≡ status_of outcome }
    ensures quiet { OnOk outcome
        (Keeps (E.contents error_writer.old) (E.contents error_writer.new)) }
    ensures told { IfErr outcome (λ fault. TellsFault fault
        (E.contents error_writer.old) (E.contents error_writer.new)) }
{
    match outcome {
        Ok(Outcome::Good) => 0,
        Ok(Outcome::Stopped) => 1,
        Err(fault) => tell_fault(fault, error_writer),
    }
}
