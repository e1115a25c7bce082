//! What session control says in an NSP connect initiate, as bytes, both ways: who asks for a link, whom, with which access
//! control, and the user's data. The format is that of Session Control 1.0.0, connect data, from memory: nobody has
//! looked it up.
//!
//! [`decode_session`] reads a [`Session`], and [`encode_session`] writes one.
#![tactic(auto)]

mod decode;
mod encode;
mod laws;
mod session;

pub use decode::decode_session;
pub use encode::encode_session;
pub use laws::session_is_exact;
pub use session::{Access, EndName, GroupedName, NamedEnd, Session, SessionFault};
