//! Files of captured frames, pcap and pcapng, that are read in pieces of any size.
#![tactic(auto)]

mod fault;
mod kinds;
mod laws;
mod meaning;
mod numbers;
mod reading;
mod units;

pub use fault::{FaultKind, FileFault};
pub use kinds::{FileKind, file_kind, may_become_file};
pub use laws::{files_have_one_reading, written_files_are_read};
pub use meaning::{Given, Interface, MAX_INTERFACES, Time};
pub use reading::{Reading, Step};
pub use units::{Extent, Format, MAX_UNIT, Order};
