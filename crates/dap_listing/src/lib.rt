//! Captures of NSP packets and messages, and their listings.
#![tactic(auto)]

mod captures;
mod commands;
mod field;
mod laws;
mod lines;
mod listing;
mod message;
mod packet;

pub use captures::{MAX_PACKET, arrow, line_packet, push_heading};
pub use commands::{messages, show};
pub use laws::listings_are_one;
pub use lines::Direction;
pub use listing::{Listed, check_lines};
pub use message::push_messages;
pub use packet::push_seen;
