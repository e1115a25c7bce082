//! One end of an open NSP link: messages are cut into segments, and segments are received in order.
#![tactic(auto)]

mod cutting;
mod fault;
mod incoming;
mod laws;
mod link;
mod piece;
mod receiving;
mod ring;
mod sending;

pub use fault::LinkFault;
pub use laws::{
    distances_separate, held_by_number, messages_only_grow, receiving_is_determined,
    whole_messages_are_taken, whole_messages_wait,
};
pub use link::{Got, LinkEnd, LinkSetup, MAX_AGE, MAX_LIMIT, MAX_SEGMENT, MAX_WINDOW, is_setup};
