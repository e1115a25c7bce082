//! The command line of the program `dapnsp`: it runs the command, and returns the exit status.
#![tactic(auto)]

mod front;
mod run;
mod telling;

pub use run::{run_program, run_words};
