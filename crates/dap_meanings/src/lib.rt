//! What the lines of a listing say in words: functions, systems, formats, status codes, names and records.
#![tactic(auto)]

mod faults;
mod meanings;
mod quoted;
mod tables;
mod words;

pub use faults::push_packet_fault;
pub use meanings::add_item_words;
pub use quoted::are_printable;
pub use tables::{Entry, find, word_of};
pub use words::{Word, add_words};
