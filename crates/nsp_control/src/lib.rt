//! NSP packets that set up and close links, as bytes, both ways: connect initiate, connect confirm, disconnect initiate,
//! disconnect confirm and connect acknowledgement. Their formats are those of NSP 4.0.0, control messages, from memory:
//! nobody has looked them up.
//!
//! [`decode_control`] reads a [`Control`], and [`encode_control`] writes one.
#![tactic(auto)]

mod decode;
mod encode;
mod laws;
mod packet;

pub use decode::decode_control;
pub use encode::encode_control;
pub use laws::control_is_exact;
pub use packet::{
    ClosedFields, ConfirmFields, ConnectFields, Control, ControlFault, DisconnectFields,
};
