//! Texts in and out of a program: lines, inputs that have a limit, what is written, what is reported of wrong arguments
//! and bad lines, and the exit status; and a program that answers lines, each before it reads the next.
#![tactic(auto)]

mod fault;
mod input;
mod lines;
mod output;
mod pipe;
mod reading;
mod refusing;
mod talking;

pub use fault::{CaptureFault, Outcome, finish, tell_fault};
pub use input::{CHUNK, MAX_INPUT, read_input};
pub use lines::{is_skipped, next_line};
pub use output::write_text;
pub use pipe::{CLOSED_PIPE, ErrorOutput, Output, exit_status};
pub use reading::MAX_LINE;
pub use refusing::refuse;
pub use talking::{Answer, Answers, Became, talk};
