//! What is asked.

use crate::bytes::{Octets, OctetsList};

/// Which record a Get asks for (DAP 5.6.0, Control message, RAC).
#[derive(Clone, Copy, Drop, Debug, PartialEq, Eq)]
pub enum By {
    /// The next one.
    Next,
    /// That of a record number.
    Key(u32),
    /// That of a record file address, which is the record's number.
    Rfa(u32),
}

/// How a Fetch that stopped goes on (DAP 5.6.0, Continue Transfer message).
#[derive(Clone, Copy, Drop, Debug, PartialEq, Eq)]
pub enum How {
    /// With the record at which it stopped.
    Again,
    /// With the record after it.
    Skip,
    /// Not at all.
    Abort,
}

/// What is asked of the server, with names and bodies of type `B` and lists of records of type `L`. It is exported as
/// `RequestOf`; where it owns its bytes it is [`crate::Request`].
#[derive(Drop, Debug, PartialEq)]
pub enum Request<B = Octets, L = OctetsList> {
    /// The first request: each end sends its buffer size.
    Hello,
    /// A new file of a name, with ORG, RFM, MRS in bytes, MRN and FAC (DAP 5.6.0, Attributes and
    /// Access messages).
    Create {
        name: B,
        org: u8,
        rfm: u8,
        mrs: u16,
        mrn: u32,
        fac: u32,
    },
    /// An existing file of a name, with FAC.
    OpenFile {
        name: B,
        fac: u32,
    },
    /// A stream to the file.
    Connect,
    /// One record.
    Get(By),
    /// A new record: under a number; without one at the end of a sequential file, and in a relative one under
    /// the stream's next number.
    Put {
        key: Option<u32>,
        body: B,
    },
    /// Another body for the current record.
    Update {
        body: B,
    },
    /// The current record is removed.
    Delete,
    /// The next record is the first again.
    Rewind,
    /// All records from the next one on.
    Fetch,
    /// New records, each as by a Put without a number; the stream ends with them.
    Store(L),
    /// After a Fetch that stopped.
    Continue(How),
    /// The file is closed.
    Close,
    /// The file is closed, and removed where this access created it.
    Purge,
}
