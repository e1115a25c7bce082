//! Messages as values, for crates whose contracts speak of messages.

ghost use Rattle.std.specs.Prelude.{◌≡◌};
ghost use Rattle.dap_msg.specs.Formats.{type_number};

use crate::bytes::Bytes;
use crate::codes::{
    TYPE_ACCESS, TYPE_ACKNOWLEDGE, TYPE_ATTRIBUTES, TYPE_COMPLETE, TYPE_CONFIGURATION,
    TYPE_CONTINUE, TYPE_CONTROL, TYPE_DATA, TYPE_STATUS,
};

/// The fields of a Configuration message, as in [`crate::Message::Config`] (DAP 5.6.0, Configuration message).
#[derive(Clone, Copy, PartialEq, Eq)]
pub struct Configuration {
    pub bufsiz: u16,
    pub ostype: u8,
    pub filesys: u8,
    pub vernum: u8,
    pub econum: u8,
    pub usrnum: u8,
    pub softver: u8,
    pub usrsoft: u8,
    pub syscap: u128,
}

/// The fields of an Attributes message, as in [`crate::Message::Attrib`] (DAP 5.6.0, Attributes message).
#[derive(Drop, PartialEq)]
pub struct Attributes<'a> {
    pub datatype: Option<u16>,
    pub org: Option<u8>,
    pub rfm: Option<u8>,
    pub rat: Option<u32>,
    pub bls: Option<u16>,
    pub mrs: Option<u16>,
    pub alq: Option<Bytes<'a>>,
    pub bks: Option<u8>,
    pub fsz: Option<u8>,
    pub mrn: Option<Bytes<'a>>,
    pub runsys: Option<Bytes<'a>>,
    pub deq: Option<u16>,
    pub fop: Option<u64>,
    pub bsz: Option<u8>,
    pub dev: Option<u64>,
    pub sdc: Option<u64>,
    pub lrl: Option<u16>,
    pub hbk: Option<Bytes<'a>>,
    pub ebk: Option<Bytes<'a>>,
    pub ffb: Option<u16>,
    pub sbn: Option<Bytes<'a>>,
}

/// The fields of an Access message, as in [`crate::Message::Access`] (DAP 5.6.0, Access message).
#[derive(Drop, PartialEq)]
pub struct AccessFields<'a> {
    pub func: u8,
    pub opt: u64,
    pub name: Bytes<'a>,
    pub fac: u32,
    pub shr: u32,
    pub display: u32,
    pub password: Bytes<'a>,
}

/// The fields of a Control message, as in [`crate::Message::Control`] (DAP 5.6.0, Control message).
#[derive(Drop, PartialEq)]
pub struct ControlFields<'a> {
    pub func: u8,
    pub rac: Option<u8>,
    pub key: Option<Bytes<'a>>,
    pub krf: Option<u8>,
    pub rop: Option<u64>,
    pub hsh: Option<Bytes<'a>>,
    pub display: Option<u32>,
}

/// The fields of an Access Complete message, as in [`crate::Message::Accomp`] (DAP 5.6.0, Access Complete message).
#[derive(Clone, Copy, PartialEq, Eq)]
pub struct Completion {
    pub func: u8,
    pub fop: u64,
    pub check: Option<u16>,
}

/// The fields of a Status message, as in [`crate::Message::Status`] (DAP 5.6.0, Status message).
#[derive(Drop, PartialEq)]
pub struct StatusFields<'a> {
    pub code: u16,
    pub rfa: Bytes<'a>,
    pub recnum: Bytes<'a>,
    pub stv: Bytes<'a>,
}

/// A DAP message as a value, exported as `MessageValue`, for crates whose contracts speak of messages: definitions and
/// proofs are of this type, and two messages with the same fields are one value, wherever their bytes lie. A program
/// that only reads and writes messages uses [`crate::Message`].
#[derive(Drop, PartialEq)]
pub enum Message<'a> {
    Config(Configuration),
    Attrib(Attributes<'a>),
    Access(AccessFields<'a>),
    Control(ControlFields<'a>),
    Contran {
        func: u8,
    },
    Ack,
    Accomp(Completion),
    Filedata {
        recnum: Bytes<'a>,
        payload: Bytes<'a>,
    },
    Status(StatusFields<'a>),
    Other {
        number: u8,
        body: Bytes<'a>,
    },
}

impl<'a> Message<'a> {
    /// Returns the type of the message as its header says it, 1 to 16 where the message fits (DAP 5.6.0, message
    /// format).
    pub fn number(&self) -> u8
        ensures { result ≡ type_number self.now }
    {
        match self {
            Message::Config(_) => TYPE_CONFIGURATION,
            Message::Attrib(_) => TYPE_ATTRIBUTES,
            Message::Access(_) => TYPE_ACCESS,
            Message::Control(_) => TYPE_CONTROL,
            Message::Contran { .. } => TYPE_CONTINUE,
            Message::Ack => TYPE_ACKNOWLEDGE,
            Message::Accomp(_) => TYPE_COMPLETE,
            Message::Filedata { .. } => TYPE_DATA,
            Message::Status(_) => TYPE_STATUS,
            Message::Other { number, .. } => *number,
        }
    }
}
