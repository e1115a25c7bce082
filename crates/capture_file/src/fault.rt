//! Why a capture file can't be read on.

use thiserror::Error;

/// What is wrong.
#[derive(Clone, Copy, Debug, PartialEq, Eq, Error)]
pub enum FaultKind {
    /// The file is neither pcap nor pcapng.
    #[error("unknown")]
    UnknownMagic,
    /// A section of a pcapng file doesn't tell its byte order.
    #[error("byte-order")]
    UnknownOrder,
    /// The frames of a pcap file aren't those of Ethernet.
    #[error("link-type")]
    OtherLink,
    /// A block has a length that it can't have.
    #[error("length")]
    BadLength,
    /// A frame, or a block that has to be kept, is longer than `MAX_UNIT`.
    #[error("too-long")]
    TooLong,
    /// A section has more than `MAX_INTERFACES` interfaces.
    #[error("interfaces")]
    TooManyInterfaces,
    /// The file is cut short, or empty.
    #[error("cut-short")]
    CutShort,
    /// Out of memory.
    #[error("no-memory")]
    NoMemory,
}

/// A fault, and the offset of the unit in which it is: the file's header, a record or a block.
#[derive(Clone, Copy, Debug, PartialEq, Eq, Error)]
#[error("bad {kind} at={at}")]
pub struct FileFault {
    pub kind: FaultKind,
    pub at: u64,
}
