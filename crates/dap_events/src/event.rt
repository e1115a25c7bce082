//! What happens in a world, and what comes of it.

use dap_accessing::{AskFault, Request};
use nsp_link::Got;
use std::alloc::{AllocError, AllocFailed};
use std::error::Error;
use std::fmt;

/// The two ends.
#[derive(Clone, Copy, Drop, PartialEq, Eq)]
pub enum End {
    /// The one that asks.
    A,
    /// The one that holds the files.
    B,
}

/// What happens in a world.
#[derive(Drop, PartialEq)]
pub enum Event {
    /// The client A asks a request; its messages wait.
    Ask(Request),
    /// The messages that wait at an end are passed to its link.
    Post(End),
    /// An end writes its next segment.
    Emit(End),
    /// An end retransmits a segment: the one at this index, from 0, of those that aren't acknowledged.
    Resend(End, usize),
    /// An end writes an acknowledgement.
    Ack(End),
    /// An end receives the packet at this index, from 0, of those that the other end wrote.
    Deliver(End, usize),
    /// B serves its next DAP message; the answers wait.
    Serve,
    /// A reads its next answer.
    Read,
}

/// What came of an event.
#[derive(Clone, Copy, Drop, Debug, PartialEq, Eq)]
pub enum Step {
    /// This number of NSP messages was added to those that wait.
    Asked(usize),
    /// This number of NSP messages was passed to the link.
    Posted(usize),
    /// The packet is at this index of the wire, from 0.
    Packet(usize),
    /// What became of the packet.
    Delivered(Got),
    /// This number of NSP messages answers.
    Served(usize),
    /// An answer was read, and no report came of it.
    Nothing,
    /// An answer was read, and the last report is new.
    Reported,
}

/// Why an event has no step, or a call none. A refused event leaves the world unchanged.
#[derive(Clone, Copy, Drop, Debug, PartialEq, Eq)]
pub enum WorldFault {
    /// The other end wrote no packet at this index.
    NoSuchPacket,
    /// The segment or the acknowledgement is more than 2,047 numbers old.
    Stale,
    /// Nothing waits, or may be written, served or read.
    NothingToDo,
    /// The request isn't asked.
    Ask(AskFault),
    /// Memory ran out.
    NoMemory,
    /// A direction would have more than 2^40 segments.
    Exhausted,
    /// A number of the setup isn't in its range.
    BadSetup,
}

impl WorldFault {
    /// Returns what is printed of it, but for what it holds.
    fn text(self) -> &'static str {
        match self {
            WorldFault::NoSuchPacket => "the other end wrote no packet of this index",
            WorldFault::Stale =>
                "the segment or the acknowledgement is more than 2,047 numbers old",
            WorldFault::NothingToDo => "nothing waits, or may be written, served or read",
            WorldFault::Ask(_) => "the request isn't asked",
            WorldFault::NoMemory => "memory ran out",
            WorldFault::Exhausted => "a direction would have more than 2^40 segments",
            WorldFault::BadSetup => "a number of the setup is out of its range",
        }
    }
}

impl fmt::Display for WorldFault {
    fn fmt<W: fmt::Write>(&self, f: &mut fmt::Formatter<W>) -> fmt::Result {
        match self {
            WorldFault::Ask(fault) => write!(f, "{}: {fault}", self.text()),
            _ => f.write_str(self.text()),
        }
    }
}

impl Error for WorldFault {}

impl From<AllocError> for WorldFault {
    ghost use Rattle.std.specs.Prelude.{◌≡◌};
    ghost use Rattle.dap_events.specs.declared.event.WorldFault.TheVariants.{NoMemory};

    ghost from_gives = { λ _ e. e ≡ NoMemory };

    fn from(_e: AllocError) -> WorldFault {
        WorldFault::NoMemory
    }
}

impl<T: Drop> From<AllocFailed<T>> for WorldFault {
    ghost use Rattle.std.specs.Prelude.{◌≡◌};
    ghost use Rattle.dap_events.specs.declared.event.WorldFault.TheVariants.{NoMemory};

    ghost from_gives = { λ _ e. e ≡ NoMemory };

    fn from(_e: AllocFailed<T>) -> WorldFault {
        WorldFault::NoMemory
    }
}
