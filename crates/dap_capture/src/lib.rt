//! Schedules, which play events over a world; and the listings of `dap_listing`, passed on.
#![tactic(auto)]

mod commands;
mod laws;
mod play;
mod steps;

pub use commands::schedule;
pub use dap_listing::{messages, show};
pub use laws::schedules_have_one_text;
pub use linewise::{CaptureFault, Outcome};
