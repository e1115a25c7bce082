//! Words, numbers and bytes as text, written and read.
#![tactic(auto)]

mod bytes;
mod decode;
mod encode;
mod text;
mod words;

pub use bytes::is_hex_text;
pub use decode::decode_hex;
pub use text::{push_decimal, push_hex, push_image, push_number, push_str, push_word};
pub use words::{Words, find_byte, is, read_number, read_short};
