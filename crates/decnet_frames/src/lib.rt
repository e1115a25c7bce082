//! The NSP packets of a capture: those in the frames of a capture file, and those of lines of hex.
#![tactic(auto)]

mod addresses;
mod hex_lines;
mod laws;
mod lines;
mod nodes;
mod origins;
mod packet;
mod run;
mod taking;
mod tally;
mod text;
mod ways;

pub use addresses::{Nodes, push_nodes, push_pair};
pub use hex_lines::{HexLines, Nothing};
pub use laws::{comments_are_read, made_frames_are_read, written_lines_are_read};
pub use lines::list_lines;
pub use nodes::read_node;
pub use origins::{Origin, origin_of};
pub use packet::{Carried, Passed, read_frame};
pub use run::{FramesFault, list_frames};
pub use taking::{Found, Takes};
pub use tally::Counts;
pub use ways::{Between, Ends};
