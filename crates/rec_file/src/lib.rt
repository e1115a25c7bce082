//! Record files in memory, and streams over them, in the manner of RMS.
//!
//! A [`RecordFile`] has a [`Shape`] and records under numbers: [`SeqFile`] is a list of records, [`RelFile`] has
//! pages of 64 cells, [`AnyFile`] is either. A [`Look`] is kept with each of these, and no operation changes it. A
//! [`Stream`] is a user's position in a file: it gets, puts, updates and deletes records, and each refusal is the first
//! one of the operation whose condition holds.
#![tactic(auto)]

mod any;
mod files;
mod look;
mod pages;
mod picks;
mod refusals;
mod relative;
mod sequential;
mod shapes;
mod slots;
mod sorted;
mod streams;

pub use any::AnyFile;
pub use files::{OneWalk, RecordFile, first_record};
pub use look::Look;
pub use picks::{Pick, Rights};
pub use refusals::{Refusal, key_number};
pub use relative::RelFile;
pub use sequential::SeqFile;
pub use shapes::{Format, MAX_NUMBER, MAX_RECORD, Org, Shape};
pub use streams::Stream;
