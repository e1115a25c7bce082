//! Why a call is refused.

ghost use Rattle.std.specs.Prelude.{◌≡◌};
ghost use Rattle.dap_accessed.specs.declared.fault.AddFault.TheVariants as fault;

use dap_msg::MsgFault;
use rec_file::Refusal;
use std::alloc::{AllocError, AllocFailed};
use std::fmt;
use thiserror::Error;

/// Memory was refused. Nothing has changed, and the same call may be made again.
#[derive(Clone, Copy, Debug, PartialEq, Eq, Error)]
#[error("memory ran out")]
pub struct NoMemory;

impl From<AllocError> for NoMemory {
    fn from(_e: AllocError) -> NoMemory {
        NoMemory
    }
}

impl<T: Drop> From<AllocFailed<T>> for NoMemory {
    fn from(_e: AllocFailed<T>) -> NoMemory {
        NoMemory
    }
}

// An answer is written of a message that fits, so nothing else can be wrong.
impl From<MsgFault> for NoMemory {
    fn from(_e: MsgFault) -> NoMemory {
        NoMemory
    }
}

/// Why a file or a record isn't added, in the order in which it is looked at. Nothing has changed.
#[derive(Clone, Copy, Debug, PartialEq, Eq)]
pub enum AddFault {
    /// The peer's Config was served.
    Busy,
    /// A file has the name.
    FileExists,
    /// There is no file that could take a record.
    NoFile,
    /// The newest file doesn't take the record.
    Record(Refusal),
    /// Memory was refused. The same call may be made again.
    NoMemory,
}

impl AddFault {
    /// Returns what is printed of it, but for what it holds.
    fn text(self) -> &'static str {
        match self {
            AddFault::Busy => "the peer's Config was served",
            AddFault::FileExists => "a file has the name",
            AddFault::NoFile => "there is no file that could take a record",
            AddFault::Record(_) => "the newest file doesn't take the record",
            AddFault::NoMemory => "memory ran out",
        }
    }
}

impl fmt::Display for AddFault {
    fn fmt<W: fmt::Write>(&self, f: &mut fmt::Formatter<W>) -> fmt::Result {
        match self {
            AddFault::Record(refusal) => write!(f, "{}: {refusal}", self.text()),
            _ => f.write_str(self.text()),
        }
    }
}

impl std::error::Error for AddFault {}

impl From<AllocError> for AddFault {
    ghost from_gives = { λ _ e. e ≡ fault.NoMemory };

    fn from(_e: AllocError) -> AddFault {
        AddFault::NoMemory
    }
}

impl From<NoMemory> for AddFault {
    ghost from_gives = { λ _ e. e ≡ fault.NoMemory };

    fn from(_e: NoMemory) -> AddFault {
        AddFault::NoMemory
    }
}
