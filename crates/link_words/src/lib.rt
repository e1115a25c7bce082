//! What packets say in words: those that set up and close links (NSP 4.0.0, control messages; Session Control 1.0.0, connect data).
#![tactic(auto)]

mod packet;
mod set_up;
mod tables;

pub use packet::add_packet_words;
