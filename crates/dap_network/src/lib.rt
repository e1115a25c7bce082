//! The laws of a serving node of several links, the peer of each, and the network between them. The exchange follows
//! DAP 5.6.0, message sequences, over the data segments of NSP 4.0.0.
#![tactic(auto)]

mod any_peers;
mod expected;
mod laws;

pub use any_peers::{
    a_clean_stretch_ends, a_regular_peer_is_taken_in, any_peers_are_served, calls_are_what_happens,
    files_stay_sound, links_are_bounded,
};
pub use expected::no_answer_is_unexpected_on_any_link;
pub use laws::{
    many_links_keep_the_headline, node_calls_are_events, one_link_is_as_before,
    peer_calls_are_events, strangers_are_taken,
};
