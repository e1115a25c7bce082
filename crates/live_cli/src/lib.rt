//! The command line of the program `daplive`: its options, what it answers, and the exit status.
#![tactic(auto)]

mod laws;
mod running;
mod words;

pub use laws::{ends_say_by_default_what_is_true, inputs_have_one_text};
pub use running::{run_options, run_words};
pub use words::{Options, Role};
