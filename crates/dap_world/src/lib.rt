//! A simulator of a client, a server and the network between them, as events; and the laws of their exchange (DAP
//! 5.6.0, message sequences).
#![tactic(auto)]

mod calls;
mod ends;
mod finishing;
mod laws;
mod settling;
mod setup;
mod side;
mod splitting;
mod world;

pub use dap_accessed::FileTable;
pub use dap_accessing::{AskFault, By, Ending, How, Numbered, Octets, OctetsList, Report, Request};
pub use dap_events::{End, Event, Step, WorldFault, WorldSetup};
pub use laws::{
    each_request_has_one_report, events_are_decided, every_run_keeps_the_headline,
    numbers_stay_apart,
};
pub use nsp_link::{Got, LinkEnd, LinkFault, LinkSetup};
pub use nsp_seg::SegFault;
pub use rec_file::{AnyFile, Format, Org, RecordFile, RelFile, SeqFile, Shape};
pub use side::Wired;
pub use world::World;
