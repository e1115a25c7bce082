//! What packets say (NSP 4.0.0).

ghost use Rattle.std.specs.Prelude.{◌≡◌};
ghost use Rattle.nsp_seg.specs.declared.packet.SegFault.TheVariants.{NoMemory};
ghost use Rattle.nsp_seg.specs.Flags.{flag_kind_of};

use crate::seq12::Seq12;
use std::alloc::AllocError;
use std::marker::Model;
use thiserror::Error;

/// The first byte of a data acknowledgement (NSP 4.0.0, MSGFLG).
pub(crate) const DATA_ACK: u8 = 0x04;
/// In the first byte of a data segment: it is the first of its message, and the last.
pub(crate) const FIRST: u8 = 0x20;

pub(crate) const LAST: u8 = 0x40;
/// From this number on a two-byte number is an acknowledgement field, since its bit 15 is set.
pub(crate) const ACK_FIELD: u16 = 0x8000;
/// The higher byte of such a number is at least this.
pub(crate) const ACK_FIELD_HIGH: u8 = 0x80;
/// What QUAL counts in an acknowledgement field; the bits below it are the number.
pub(crate) const QUAL_UNIT: u16 = 0x1000;

/// An acknowledgement field (NSP 4.0.0, data acknowledgement message).
#[derive(Clone, Copy, PartialEq, Eq)]
pub struct AckField {
    /// QUAL, 0 to 7: 0 acknowledges segments of this subchannel, 1 refuses them, 2 and 3 are of the other
    /// subchannel.
    pub qual: u8,
    /// The number of the last segment that it acknowledges or refuses.
    pub number: Seq12,
}

/// The payload of a segment, which contracts see as a list of numbers.
#[derive(Drop)]
pub struct Payload<'a>(pub &'a [u8]);

impl<'a> Model for Payload<'a> {
    ghost use Rattle.std.specs.Prelude.{List, ℕ};

    ghost Value = { List ℕ };

    ghost view = { λ p. p.0.now };
}

impl<'a> PartialEq for Payload<'a> {
    ghost use Rattle.std.specs.Prelude.{nat_eq};
    ghost use Rattle.std.specs.Cmp.Lexicographic.{pointwise};
    ghost use Rattle.std.specs.Cmp.Rules.{comparing};
    ghost use Rattle.std.proofs.Common.{rules};

    ghost eq = { pointwise nat_eq };

    ghost laws = { Prim.search (comparing, rules) };

    fn eq(&self, other: &Payload<'a>) -> bool {
        self.0 == other.0
    }
}

/// The fields of a data segment, as in [`crate::Packet::Segment`] (NSP 4.0.0, data segment message).
#[derive(Drop, PartialEq)]
pub struct SegmentFields<'a> {
    pub first: bool,
    pub last: bool,
    pub dst: u16,
    pub src: u16,
    pub ack1: Option<AckField>,
    pub ack2: Option<AckField>,
    pub number: Seq12,
    pub payload: Payload<'a>,
}

/// The fields of a data acknowledgement, as in [`crate::Packet::DataAck`] (NSP 4.0.0, data acknowledgement message).
#[derive(Clone, Copy, PartialEq, Eq)]
pub struct AckFields {
    pub dst: u16,
    pub src: u16,
    pub ack1: AckField,
    pub ack2: Option<AckField>,
}

/// A packet as a value, exported as `PacketValue`, for crates whose contracts speak of packets: definitions and proofs
/// are of this type, and two packets with the same bytes are one value, wherever these lie. A program that only reads
/// and writes packets uses [`crate::Packet`].
#[derive(Drop, PartialEq)]
pub enum Packet<'a> {
    Segment(SegmentFields<'a>),
    DataAck(AckFields),
}

/// Why bytes are no packet; an offset counts bytes from their start.
#[derive(Clone, Copy, Debug, PartialEq, Eq, Error)]
pub enum SegFault {
    /// The field that begins at this offset is missing, or not whole.
    #[error("the field at byte {0} is missing or not whole")]
    Truncated(usize),
    /// What is from this offset on may not follow an acknowledgement.
    #[error("the bytes from byte {0} on may not follow an acknowledgement")]
    Trailing(usize),
    /// This first byte is neither that of a data segment nor that of a data acknowledgement.
    #[error("the first byte {0:#04x} is neither that of a data segment nor of a data acknowledgement")]
    NotHere(u8),
    /// The number at this offset has the wrong highest bit: it is set where a segment's number has to be, or clear
    /// where an acknowledgement field has to.
    #[error("the number at byte {0} has the wrong highest bit")]
    BadNumber(usize),
    /// A writer is out of memory.
    #[error("memory ran out")]
    NoMemory,
}

impl From<AllocError> for SegFault {
    ghost from_gives = { λ _ e. e ≡ NoMemory };

    fn from(_e: AllocError) -> SegFault {
        SegFault::NoMemory
    }
}

/// What a packet's first byte says that it is (NSP 4.0.0, message formats).
#[derive(Clone, Copy, PartialEq, Eq)]
pub enum FlagKind {
    /// Data segment.
    Segment,
    /// Data acknowledgement.
    DataAck,
    /// Link service.
    LinkService,
    /// Interrupt.
    Interrupt,
    /// Other-data acknowledgement.
    OtherAck,
    /// Connect acknowledgement.
    ConnectAck,
    /// Setting up a link, taking it down, and doing nothing.
    Control,
    /// None of these.
    Unknown,
}

/// Returns what a packet with this first byte is (NSP 4.0.0, message formats).
pub fn flag_kind(flag: u8) -> FlagKind
    ensures { result ≡ flag_kind_of flag }
{
    match flag {
        0x00 | 0x20 | 0x40 | 0x60 => FlagKind::Segment,
        DATA_ACK => FlagKind::DataAck,
        0x10 => FlagKind::LinkService,
        0x30 => FlagKind::Interrupt,
        0x14 => FlagKind::OtherAck,
        0x24 => FlagKind::ConnectAck,
        0x08 | 0x18 | 0x28 | 0x38 | 0x48 | 0x58 | 0x68 | 0x78 => FlagKind::Control,
        _ => FlagKind::Unknown,
    }
}
