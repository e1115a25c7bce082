//! The command line of the program `dapcap`: its words, the form of an input, how it is listed, and the exit status.
#![tactic(auto)]

mod form;
mod help;
mod laws;
mod listing;
mod opening;
mod program;
mod running;
mod taker;
mod telling;
mod words;

pub use form::Form;
pub use laws::{inputs_have_one_text, lines_of_a_file_are_listed_as_the_file};
pub use opening::{Opens, Unopened};
pub use program::run_words;
pub use telling::{FileEnd, LinesEnd};
pub use words::{Mistake, Options, Task, What, Wish, read_words};
