//! DAP messages as bytes, both ways. Their formats are those of DAP 5.6.0, message formats.
//!
//! [`decode`] returns the [`Message`] that bytes begin with, or the first fault; [`encode`] appends the one
//! canonical spelling of a message; what was written is read as the same message, whatever follows it. A crate
//! whose contracts speak of messages holds them as a [`MessageValue`]: [`item_at`] goes through those of an NSP
//! message, [`encode_value`] writes one, and [`append_blocked`] puts several into one NSP message.
#![tactic(auto)]

mod blocking;
mod both_ends;
mod bytes;
pub mod codes;
mod dap_message;
mod decoding;
mod encoding;
mod fault;
mod field;
mod file_access;
mod fitting;
mod formats;
mod header;
mod items;
mod kind;
mod laws;
mod menu;
mod message;
mod reading;
mod status;

pub use blocking::{append_blocked, append_counted, append_message, blocks_in_steps};
pub use both_ends::{MAX_MESSAGE, MIN_BUFFER, is_too_small, limit_of, names_the_limits, number_of};
pub use bytes::Bytes;
pub use dap_message::{Message, decode, encode, fits};
pub use encoding::{encode_value, encoded_len};
pub use fault::{FaultKind, MsgFault};
pub use file_access::FileAccess;
pub use fitting::fits_value;
pub use items::{Item, item_at};
pub use laws::{
    has_items, lists_messages, measures_file_data, one_item_stands, reads_back, writes_canon,
};
pub use message::{
    AccessFields, Attributes, Completion, Configuration, ControlFields, Message as MessageValue,
    StatusFields,
};
pub use status::{StatusCode, status_for};
