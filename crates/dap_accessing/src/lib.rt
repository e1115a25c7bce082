//! A DAP client: the messages of requests, and what the answers report. They follow DAP 5.6.0, message sequences,
//! where a client is the accessing process. Which answers a request takes is a choice of this crate.
#![tactic(auto)]

mod accessing;
mod asking;
mod bytes;
mod copying;
mod fault;
mod pending;
mod phase;
mod report;
mod request;

pub use accessing::{Accessing, identity_is_told_by_hello, reports_grow, standing_is_one};
pub use asking::Prepared;
pub use bytes::{Numbered, Octets, OctetsList, ToBytes, ToRecords};
pub use fault::{AskFault, ReadFault, ReadStep};
pub use report::{Ending, Report};
pub use request::{By, How, Request as RequestOf};

/// What is asked of the server: the [`RequestOf`] whose names and bodies are [`Octets`].
pub type Request = request::Request<Octets, OctetsList>;
