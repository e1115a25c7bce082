//! A DAP server: it has the files, and serves one message after another. It follows DAP 5.6.0, message sequences,
//! where a server is the accessed process. The answers to messages that are out of sequence are a choice of this
//! crate.
#![tactic(auto)]

mod accessed;
mod adding;
mod answers;
mod asked;
mod fault;
mod laws;
mod naming;
mod opened;
mod phase;
mod refusing;
mod served;
mod session;
mod setup;
mod step;
mod table;
mod transfer;
mod verbs;

pub use accessed::Accessed;
pub use answers::given_limit;
pub use asked::{Asked, MAX_FORMAT, kept_attributes, look_of};
pub use fault::{AddFault, NoMemory};
pub use laws::{
    answers_are_sendable, answers_fit, answers_grow, attributes_ask_for_their_file,
    given_files_are_sound, identity_is_told_alone, names_stay_apart, stays_sound,
};
pub use phase::OpenFile;
pub use refusing::reason_number;
pub use served::Served;
pub use session::Session;
pub use setup::{ALL_RIGHTS, Names, ServerSetup, rights_of_fac};
pub use table::FileTable;
