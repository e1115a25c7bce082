//! Several links before one table of files: their messages are served one after another, and a file that a link may
//! change is locked for the others.
#![tactic(auto)]

mod fault;
mod laws;
mod locks;
mod noted;
mod server;
mod shared;

pub use fault::RemoveFault;
pub use laws::{
    a_drop_leaves_what_is_open, a_link_keeps_its_rights, a_locked_file_has_a_holder,
    an_open_file_stays, answers_grow_on, one_link_is_as_before, writers_are_alone,
};
pub use locks::FILE_LOCKED;
pub use noted::NotedFiles;
pub use server::Serving;
pub use shared::SharedFiles;
