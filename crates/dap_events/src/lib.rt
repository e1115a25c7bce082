//! The events of a client, a server and the network between them, what comes of each, and the sizes of both ends.
#![tactic(auto)]

mod event;
mod setup;

pub use event::{End, Event, Step, WorldFault};
pub use setup::WorldSetup;
