//! Why an end does not do what was asked of it.

use dap_accessing::ReadFault;
use nsp_link::{Got, LinkFault};
use std::fmt;
use thiserror::Error;

/// Why an end didn't do all that there was to do. What was done before that stays done, and the same call
/// goes on.
#[derive(Clone, Copy, Drop, Debug, PartialEq, Eq)]
pub enum EndFault {
    /// The link took no message, or no packet was written.
    Link(LinkFault),
    /// An answer that came wasn't read.
    Read(ReadFault),
}

impl EndFault {
    /// Returns what is printed of it, but for what it holds.
    fn text(self) -> &'static str {
        match self {
            EndFault::Link(_) => "no more was sent",
            EndFault::Read(_) => "an answer wasn't read",
        }
    }
}

impl fmt::Display for EndFault {
    fn fmt<W: fmt::Write>(&self, f: &mut fmt::Formatter<W>) -> fmt::Result {
        match self {
            EndFault::Link(fault) => write!(f, "{}: {fault}", self.text()),
            EndFault::Read(fault) => write!(f, "{}: {fault}", self.text()),
        }
    }
}

impl std::error::Error for EndFault {}

/// What became of a packet that wasn't answered in full.
#[derive(Clone, Copy, Drop, Debug, PartialEq, Eq, Error)]
pub enum TakeFault {
    /// The link refused it, and nothing of it was taken.
    #[error("the packet was refused: {0}")]
    Refused(LinkFault),
    /// The link took it in so, and then not all was done; a call that goes on does what is left.
    #[error("the packet was taken in, and then not all was done: {1}")]
    Unfinished(Got, EndFault),
}
