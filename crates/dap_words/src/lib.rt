//! The arguments of the program `dapnsp`: which command they name, and what help says.
#![tactic(auto)]

mod choice;

pub use choice::{Choice, read_words};
