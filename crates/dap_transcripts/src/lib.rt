//! Laws of the lines of both live ends: every transcript is a run of a serving node or of a client, whatever anybody sends.
#![tactic(auto)]

mod programs;
mod transcripts;

pub use programs::{asked_transcripts_are_runs, program_lines_lead};
pub use transcripts::transcripts_are_served;
