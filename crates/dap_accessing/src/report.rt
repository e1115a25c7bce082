//! What is reported.

use crate::bytes::{Numbered, Octets};

/// How a batch of records ended.
#[derive(Clone, Copy, Drop, PartialEq, Eq)]
pub enum Ending {
    /// At the end of the file.
    Complete,
    /// Before a record that is too long for this end's buffer.
    Stopped,
    /// By a Status with this code and reason (0: none).
    Refused(u16, u8),
}

/// What was answered to a request.
#[derive(Drop, PartialEq)]
pub enum Report {
    /// To Hello: the peer's buffer size in bytes, 0 for no limit.
    Ready(u16),
    /// To Create and OpenFile: the file's ORG, RFM, MRS in bytes and MRN.
    Opened {
        org: u8,
        rfm: u8,
        mrs: u16,
        mrn: u32,
    },
    /// To Connect.
    Connected,
    /// To Get: the record and its number.
    Found {
        number: u64,
        body: Octets,
    },
    /// To Put, Update, Delete and Rewind: the record's number, 0 for Rewind.
    Done(u64),
    /// To Get: there is no further record.
    EndOfFile,
    /// To any request but Fetch, Continue and Store, which end otherwise: a Status that is no success, with its
    /// code and reason (0: none). A Get at the end of the file has EndOfFile instead.
    Refused(u16, u8),
    /// To Fetch and Continue.
    Batch {
        bodies: Numbered,
        ending: Ending,
    },
    /// To Store: the first refusal, as its code, its reason and which record it was, from 1.
    Stored(Option<(u16, u8, u64)>),
    /// To Close and Purge.
    Closed,
}
