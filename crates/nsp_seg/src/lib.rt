//! NSP packets as bytes, both ways: data segments, data acknowledgements, and their 12-bit numbers. Their formats
//! are those of NSP 4.0.0, data segment message and data acknowledgement message.
//!
//! [`decode_packet`] reads a [`Packet`], and [`encode_packet`] writes one. A crate whose contracts speak of packets
//! holds them as a [`PacketValue`], which [`decode_value`] reads and [`encode_value`] writes.
#![tactic(auto)]

mod decode;
mod encode;
mod laws;
mod nsp_packet;
mod packet;
mod seq12;

pub use decode::decode_value;
pub use encode::encode_value;
pub use laws::{packets_are_exact, residues_separate};
pub use nsp_packet::{Packet, decode_packet, encode_packet};
pub use packet::{
    AckField, AckFields, FlagKind, Packet as PacketValue, Payload, SegFault, SegmentFields,
    flag_kind,
};
pub use seq12::{MODULUS, Seq12};
