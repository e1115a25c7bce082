//! The one lister of captures: of packets that come one after the other it appends the listing, in which the segments
//! of each NSP message are reassembled.
#![tactic(auto)]

mod ending;
mod initiate;
mod kept;
mod laws;
mod lister;
mod rest;
mod room;
mod segments;
mod streams;
mod text;

pub use laws::{
    bare_segments_are_shown, kept_streams_are_bounded, listed_messages_can_go,
    listed_messages_stay, packets_have_one_listing, taken_packets_are_listed, whole_messages_stay,
};
pub use lister::{Chosen, Lister, write_rest};
