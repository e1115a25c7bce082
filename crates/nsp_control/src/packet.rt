//! What packets that set up and close links say (NSP 4.0.0, control messages; from memory).

ghost use Rattle.std.specs.Prelude.{◌≡◌};
ghost use Rattle.nsp_control.specs.declared.packet.ControlFault.TheVariants.{NoMemory};

use nsp_seg::Payload;
use std::alloc::AllocError;
use thiserror::Error;

/// The first byte of a connect initiate (NSP 4.0.0, MSGFLG), and below those of the other packets.
pub(crate) const CONNECT: u8 = 0x18;

/// A connect initiate that was sent before.
pub(crate) const CONNECT_AGAIN: u8 = 0x68;

pub(crate) const CONFIRM: u8 = 0x28;

pub(crate) const DISCONNECT: u8 = 0x38;

pub(crate) const DISCONNECT_CONFIRM: u8 = 0x48;

pub(crate) const CONNECT_ACK: u8 = 0x24;

/// A connect initiate: a node asks for a link. The address that it goes to, DSTADDR, isn't known yet, and is 0 (NSP
/// 4.0.0, connect initiate message).
#[derive(Drop, PartialEq)]
pub struct ConnectFields<'a> {
    /// Whether it was sent before.
    pub again: bool,
    /// SRCADDR, the link address from which it comes, which isn't 0.
    pub src: u16,
    /// SERVICES: the flow control that its sender wants is in bits 2 and 3.
    pub services: u8,
    /// INFO: the version of NSP is in bits 0 and 1.
    pub info: u8,
    /// SEGSIZE: the most bytes of a segment that its sender takes.
    pub seg_size: u16,
    /// What session control says: who asks, and for what.
    pub body: Payload<'a>,
}

/// A connect confirm: the link is accepted (NSP 4.0.0, connect confirm message).
#[derive(Drop, PartialEq)]
pub struct ConfirmFields<'a> {
    /// DSTADDR, the link address to which it goes, which isn't 0.
    pub dst: u16,
    /// SRCADDR, the link address from which it comes, which isn't 0.
    pub src: u16,
    /// SERVICES, as in a connect initiate.
    pub services: u8,
    /// INFO, as in a connect initiate.
    pub info: u8,
    /// SEGSIZE: the most bytes of a segment that its sender takes.
    pub seg_size: u16,
    /// The data of whoever accepts, which isn't looked at.
    pub body: Payload<'a>,
}

/// A disconnect initiate: the link is refused or closed (NSP 4.0.0, disconnect initiate message).
#[derive(Drop, PartialEq)]
pub struct DisconnectFields<'a> {
    /// DSTADDR, the link address to which it goes.
    pub dst: u16,
    /// SRCADDR, the link address from which it comes.
    pub src: u16,
    /// REASON: why the link is refused or closed.
    pub reason: u16,
    /// The data of whoever closes, which isn't looked at.
    pub body: Payload<'a>,
}

/// A disconnect confirm: the link is closed, isn't there, or can't be had, by its reason (NSP 4.0.0, disconnect confirm
/// message).
#[derive(Clone, Copy, PartialEq, Eq)]
pub struct ClosedFields {
    /// DSTADDR, the link address to which it goes.
    pub dst: u16,
    /// SRCADDR, the link address from which it comes.
    pub src: u16,
    /// REASON: 1 no resources, 41 no such link, 42 the link is closed.
    pub reason: u16,
}

/// A packet that sets up or closes a link. Two packets with the same bytes are one value, wherever these lie.
#[derive(Drop, PartialEq)]
pub enum Control<'a> {
    /// A connect initiate.
    Connect(ConnectFields<'a>),
    /// A connect confirm.
    Confirm(ConfirmFields<'a>),
    /// A disconnect initiate.
    Disconnect(DisconnectFields<'a>),
    /// A disconnect confirm.
    DisconnectConfirm(ClosedFields),
    /// A connect acknowledgement, with DSTADDR, the link address to which it goes (NSP 4.0.0, connect acknowledgement
    /// message).
    ConnectAck(u16),
}

/// Why bytes are no such packet; an offset counts bytes from their start.
#[derive(Clone, Copy, Debug, PartialEq, Eq, Error)]
pub enum ControlFault {
    /// The field that begins at this offset is missing, or not whole.
    #[error("the field at byte {0} is missing or not whole")]
    Truncated(usize),
    /// Nothing may follow what is before this offset: it is a whole disconnect confirm or connect acknowledgement.
    #[error("no bytes may follow from byte {0} on")]
    Trailing(usize),
    /// This first byte is that of no packet that sets up or closes a link.
    #[error("the first byte {0:#04x} is that of no packet that sets up or closes a link")]
    NotHere(u8),
    /// The address at this offset is 0 where it may not be, or isn't where it has to be.
    #[error("the address at byte {0} can't be")]
    BadAddress(usize),
    /// A writer is out of memory.
    #[error("memory ran out")]
    NoMemory,
}

impl From<AllocError> for ControlFault {
    ghost from_gives = { λ _ e. e ≡ NoMemory };

    fn from(_e: AllocError) -> ControlFault {
        ControlFault::NoMemory
    }
}
