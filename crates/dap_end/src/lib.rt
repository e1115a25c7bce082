//! A client or a server with its link, whatever the peer is: it takes packets and gives packets. The exchange
//! follows DAP 5.6.0, message sequences, over the data segments of NSP 4.0.0.
#![tactic(auto)]

mod addresses;
mod asking;
mod end;
mod fault;
mod laws;
mod node;
mod port;
mod role;
mod serving;
mod turns;

pub use asking::{AskingEnd, Heard};
pub use end::End;
pub use fault::{EndFault, TakeFault};
pub use laws::{
    a_peer_is_heard_in_order, a_peer_is_served_in_order, answers_are_bounded,
    asking_calls_are_runs, asking_ends_stand, asking_is_determined, calls_are_runs, ends_are_one,
    every_run_is_served, every_run_is_told, no_answer_is_unexpected, packets_are_determined,
    peers_are_taken_in, posting_is_determined, runs_of_two_ends, serving_ends_stand,
    serving_is_determined, taken_records_count, taking_is_determined, two_ends_keep_the_headline,
};
pub use node::ServingNode;
pub use role::Role;
pub use serving::ServingEnd;
