//! A law over the definitions of links and of listings: what a link cuts is listed whole.
#![tactic(auto)]

mod laws;

pub use laws::cut_messages_are_listed;
