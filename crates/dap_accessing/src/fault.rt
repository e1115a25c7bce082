//! Why a request or an answer is refused.

use crate::report::Report;
use std::error::Error;
use std::fmt;

/// Why a request isn't asked, in the order in which it is looked at. Each leaves the end unchanged.
#[derive(Clone, Copy, Drop, Debug, PartialEq, Eq)]
pub enum AskFault {
    /// An answer was out of sequence, so the end has failed.
    Failed,
    /// A report is still due.
    Busy,
    /// The request isn't asked in this phase.
    WrongPhase,
    /// A message has no spelling, or is longer than the peer takes.
    TooLarge,
    /// Memory ran out.
    NoMemory,
}

impl AskFault {
    /// Returns what is printed of it.
    fn text(self) -> &'static str {
        match self {
            AskFault::Failed => "an answer was out of sequence, so the end has failed",
            AskFault::Busy => "a report is still due",
            AskFault::WrongPhase => "the request isn't asked in this phase",
            AskFault::TooLarge => "a message has no spelling, or is longer than the peer takes",
            AskFault::NoMemory => "memory ran out",
        }
    }
}

impl fmt::Display for AskFault {
    fn fmt<W: fmt::Write>(&self, f: &mut fmt::Formatter<W>) -> fmt::Result {
        f.write_str(self.text())
    }
}

impl Error for AskFault {}

/// Why an answer isn't read.
#[derive(Clone, Copy, Drop, Debug, PartialEq, Eq)]
pub enum ReadFault {
    /// An earlier answer was out of sequence, so the end has failed.
    Failed,
    /// The answer is out of sequence. Afterwards every call answers `Failed`.
    Unexpected,
    /// Memory ran out. Nothing has changed, and the same call may be made again.
    NoMemory,
}

impl ReadFault {
    /// Returns what is printed of it.
    fn text(self) -> &'static str {
        match self {
            ReadFault::Failed => "an earlier answer was out of sequence, so the end has failed",
            ReadFault::Unexpected => "the answer is out of sequence",
            ReadFault::NoMemory => "memory ran out",
        }
    }
}

impl fmt::Display for ReadFault {
    fn fmt<W: fmt::Write>(&self, f: &mut fmt::Formatter<W>) -> fmt::Result {
        f.write_str(self.text())
    }
}

impl Error for ReadFault {}

/// An answer that was read.
#[derive(Drop, PartialEq)]
pub struct ReadStep {
    /// What it completes, if it is the last answer to its request.
    pub report: Option<Report>,
    /// The offset at which the next message begins, the NSP message's length where none does.
    pub next: usize,
}
