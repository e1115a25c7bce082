//! DAP messages with named fields, as a program makes, matches, reads and writes them.

ghost use Rattle.std.specs.Prelude.{◌≡◌, ◌≢◌, ℕ, ◌≤◌, ◌↔◌, length, option_copied, Result, IfErr, IfOk, IsTrue};
ghost use Rattle.dap_msg.specs.declared.fault.MsgFault.{MsgFault as TheFault};
ghost use Rattle.dap_msg.specs.declared.fault.FaultKind.TheVariants.{NoMemory};
ghost use Rattle.dap_msg.specs.Message.{Message as MessageValue};
ghost use Rattle.dap_msg.specs.Decoding.{IsDecoded, IsSpelled};
ghost use Rattle.dap_msg.specs.Canon.{Fits, canon};
ghost use Rattle.dap_msg.specs.Values.{message_value, message_answer_value};
ghost use Rattle.dap_msg.specs.Written.{Appends, no_memory};

use crate::bytes::Bytes;
use crate::decoding::decode_value;
use crate::encoding::encode_value;
use crate::fault::MsgFault;
use crate::fitting::fits_value;
use crate::message::{
    AccessFields, Attributes, Completion, Configuration, ControlFields, Message as MessageValue,
    StatusFields,
};

/// A DAP message (DAP 5.6.0, message formats), for programs that read or write messages: its fields have that
/// document's names, and its images and bytes are slices of the input. It is copied freely.
///
/// Contracts say its value, the [`MessageValue`] with the same fields, in which bytes are lists of numbers.
#[derive(Clone, Copy, PartialEq, Eq)]
pub enum Message<'a> {
    /// Type 1, Configuration.
    Config {
        /// BUFSIZ, the sender's buffer size in bytes; 0 sets no limit.
        bufsiz: u16,
        /// The sender's system.
        ostype: u8,
        filesys: u8,
        /// The version of the protocol.
        vernum: u8,
        econum: u8,
        usrnum: u8,
        /// The version of the sender's software.
        softver: u8,
        usrsoft: u8,
        /// SYSCAP, the sender's capabilities. Below 2^84.
        syscap: u128,
    },
    /// Type 2, Attributes. Each field is there exactly where its bit of ATTMENU is set. Images that stand for a number
    /// have the lowest byte first.
    Attrib {
        /// DATATYPE: bit 0 ASCII, bit 1 image. An extensible field of at most 2 bytes, so below 2^14.
        datatype: Option<u16>,
        /// ORG, the file's organization: 0 sequential, 16 relative, 32 indexed.
        org: Option<u8>,
        /// RFM, the record format: 0 undefined, 1 fixed, 2 variable, 3 variable with fixed control, 4 stream.
        rfm: Option<u8>,
        /// RAT, the record attributes: bit 0 FTN, 1 CR, 2 PRN, 3 BLK. Below 2^21.
        rat: Option<u32>,
        /// BLS, the block size in bytes.
        bls: Option<u16>,
        /// MRS, the maximum record size in bytes.
        mrs: Option<u16>,
        /// ALQ, the allocation in blocks; at most 5 bytes.
        alq: Option<&'a [u8]>,
        /// BKS, the bucket size in blocks.
        bks: Option<u8>,
        /// FSZ, the size of the fixed control in bytes.
        fsz: Option<u8>,
        /// MRN, the maximum record number; at most 5 bytes.
        mrn: Option<&'a [u8]>,
        /// RUNSYS, the run-time system's name; at most 40 bytes.
        runsys: Option<&'a [u8]>,
        /// DEQ, the default extension in blocks.
        deq: Option<u16>,
        /// FOP, the options of file access. Below 2^42.
        fop: Option<u64>,
        /// BSZ, the size of a byte in bits.
        bsz: Option<u8>,
        /// DEV, the device's characteristics. Below 2^42.
        dev: Option<u64>,
        /// SDC, the spooling device's characteristics. Below 2^42.
        sdc: Option<u64>,
        /// LRL, the longest record's length in bytes.
        lrl: Option<u16>,
        /// HBK, the highest block that is allocated; at most 5 bytes.
        hbk: Option<&'a [u8]>,
        /// EBK, the block of the end of file; at most 5 bytes.
        ebk: Option<&'a [u8]>,
        /// FFB, the first free byte in that block.
        ffb: Option<u16>,
        /// SBN, the starting block; at most 5 bytes.
        sbn: Option<&'a [u8]>,
    },
    /// Type 3, Access.
    Access {
        /// ACCFUNC: 1 open or 2 create a file.
        func: u8,
        /// ACCOPT. Below 2^35.
        opt: u64,
        /// FILESPEC, at most 255 bytes.
        name: &'a [u8],
        /// FAC, the operations that are asked for, as the bits of [`crate::FileAccess`]. Below 2^21.
        fac: u32,
        /// SHR. Below 2^21.
        shr: u32,
        /// DISPLAY. Below 2^28.
        display: u32,
        /// At most 40 bytes.
        password: &'a [u8],
    },
    /// Type 4, Control. The fields after the first are there exactly where their bit of CTLMENU is set.
    Control {
        /// CTLFUNC: 1 GET, 2 CONNECT, 3 UPDATE, 4 PUT, 5 DELETE, 6 REWIND.
        func: u8,
        /// RAC, the record access: 0 sequential record, 1 keyed, 2 by record file address, 3 sequential file transfer.
        rac: Option<u8>,
        /// KEY, the key or the record file address; at most 255 bytes.
        key: Option<&'a [u8]>,
        /// KRF, the key of reference.
        krf: Option<u8>,
        /// ROP, the record processing options. Below 2^42.
        rop: Option<u64>,
        /// HSH, the hash code; at most 5 bytes.
        hsh: Option<&'a [u8]>,
        /// DISPLAY, the attributes messages that are asked for. Below 2^28.
        display: Option<u32>,
    },
    /// Type 5, Continue Transfer.
    Contran {
        /// CONFUNC: 1 try again, 2 skip, 3 abort, 4 resume.
        func: u8,
    },
    /// Type 6, Acknowledge.
    Ack,
    /// Type 7, Access Complete.
    Accomp {
        /// CMPFUNC: 1 close, 2 response, 3 purge, 4 end of stream, 5 skip.
        func: u8,
        /// FOP. Below 2^42.
        fop: u64,
        /// The file's checksum.
        check: Option<u16>,
    },
    /// Type 8, Data: a record.
    Filedata {
        /// The record's number, at most 8 bytes, the lowest first.
        recnum: &'a [u8],
        /// The record's bytes.
        payload: &'a [u8],
    },
    /// Type 9, Status.
    Status {
        /// MACCODE and MICCODE, as [`crate::StatusCode`] separates them.
        code: u16,
        /// The record file address, at most 8 bytes, the lowest first.
        rfa: &'a [u8],
        /// The record's number, at most 8 bytes, the lowest first.
        recnum: &'a [u8],
        /// The secondary status, at most 8 bytes, the lowest first.
        stv: &'a [u8],
    },
    /// A type that this crate reads no further.
    Other {
        /// The type, 10 to 16.
        number: u8,
        /// The whole operand.
        body: &'a [u8],
    },
}

/// Returns the bytes of an image as a value, where the image is there.
fn image_value<'a>(image: Option<&'a [u8]>) -> Option<Bytes<'a>>
    ensures { result ≡ option_copied image.entry }
{
    image.map(|image| Bytes(image))
}

/// Returns the image that has this value, where it is there.
fn image_of<'a>(value: Option<Bytes<'a>>) -> Option<&'a [u8]>
    ensures { option_copied result ≡ value.entry }
{
    value.map(|value| value.0)
}

/// Makes one form of a message of the other by `$convert`. The messages here have a struct of fields as their
/// value, of which each name is alike in both forms: in the first list are numbers, in the second images that may
/// be missing, in the third bytes.
macro_rules! by_names {
    ($convert:ident, $message:expr) => {
        $convert!($message;
            Config Configuration [bufsiz ostype filesys vernum econum usrnum softver usrsoft syscap] [] [];
            Attrib Attributes [datatype org rfm rat bls mrs bks fsz deq fop bsz dev sdc lrl ffb]
                [alq mrn runsys hbk ebk sbn] [];
            Access AccessFields [func opt fac shr display] [] [name password];
            Control ControlFields [func rac krf rop display] [key hsh] [];
            Accomp Completion [func fop check] [] [];
            Status StatusFields [code] [] [rfa recnum stv];
        )
    };
}

/// The value of a message.
macro_rules! value_by_names {
    ($message:expr; $($kind:ident $fields:ident [$($number:ident)*] [$($image:ident)*] [$($bytes:ident)*];)*) => {
        match $message {
            $(Message::$kind { $($number,)* $($image,)* $($bytes,)* } => MessageValue::$kind($fields {
                $($number,)*
                $($image: image_value($image),)*
                $($bytes: Bytes($bytes),)*
            }),)*
            Message::Contran { func } => MessageValue::Contran { func },
            Message::Ack => MessageValue::Ack,
            Message::Filedata { recnum, payload } => MessageValue::Filedata {
                recnum: Bytes(recnum),
                payload: Bytes(payload),
            },
            Message::Other { number, body } => MessageValue::Other {
                number,
                body: Bytes(body),
            },
        }
    };
}

/// The message of a value.
macro_rules! message_by_names {
    ($value:expr; $($kind:ident $fields:ident [$($number:ident)*] [$($image:ident)*] [$($bytes:ident)*];)*) => {
        match $value {
            $(MessageValue::$kind(fields) => Message::$kind {
                $($number: fields.$number,)*
                $($image: image_of(fields.$image),)*
                $($bytes: fields.$bytes.0,)*
            },)*
            MessageValue::Contran { func } => Message::Contran { func },
            MessageValue::Ack => Message::Ack,
            MessageValue::Filedata { recnum, payload } => Message::Filedata {
                recnum: recnum.0,
                payload: payload.0,
            },
            MessageValue::Other { number, body } => Message::Other {
                number,
                body: body.0,
            },
        }
    };
}

impl<'a> Message<'a> {
    /// Returns the value of the message. Made into a message again it has the same fields.
    pub fn to_value(&self) -> MessageValue<'a>
        ensures { result ≡ message_value self.now }
    {
        by_names!(value_by_names, *self)
    }

    /// Returns the message that has this value.
    pub fn from_value(value: MessageValue<'a>) -> Message<'a>
        ensures { message_value result ≡ value.entry }
    {
        by_names!(message_by_names, value)
    }
}

/// Returns the message that the input begins with, and the number of its bytes (DAP 5.6.0, message format).
///
/// A message with LENGTH ends where that says, and further bytes may follow it; one without takes all the bytes.
/// The refusal names the first field in reading order that is at fault, with its offset in bytes from the input's
/// start. It is never out of memory, since none is taken. A value that its field holds but that the document gives
/// no meaning, as a CTLFUNC of 99, is no fault.
///
/// The clauses after `only` follow from `exact`, and spare each caller the proof.
#[inline(always)]
pub fn decode(input: &[u8]) -> Result<(Message<'_>, usize), MsgFault>
    ensures exact { IsDecoded input.now (message_answer_value result) }
    ensures only { (other : Result (MessageValue × ℕ) TheFault) → IsDecoded input.now other
        → other ≡ message_answer_value result }
    ensures no_memory { IfErr result (λ f. f.kind ≢ NoMemory) }
    ensures some { IfOk result (λ x. 2 ≤ x.1) }
    ensures within { IfErr result (λ f. f.offset ≤ length input.now) }
    ensures fields { IfOk result (λ x. IsSpelled (message_value x.0)) }
{
    match decode_value(input) {
        Ok((value, len)) => Ok((Message::from_value(value), len)),
        Err(fault) => Err(fault),
    }
}

/// Returns whether the message has a spelling, the condition of [`encode`]: every value fits its field, the number of
/// an `Other` is 10 to 16, and the operand has at most 65,535 bytes (the fields are those of DAP 5.6.0, message
/// formats).
pub fn fits(message: &Message<'_>) -> bool
    ensures { IsTrue result ↔ Fits (message_value message.now) }
{
    fits_value(&message.to_value())
}

/// Appends the canonical spelling of a message: LENGTH always, LEN256 exactly where the operand has 256 bytes or
/// more, all fields, numbers in their shortest spelling, nothing after the last field (the formats are those of DAP
/// 5.6.0).
///
/// The message must fit, as [`fits`] says. The only refusal is `FaultKind::NoMemory`, with type and offset 0, which
/// comes only where `out` lacked the room and leaves it unchanged. Room is reserved once, and none is given back.
pub fn encode(message: &Message<'_>, out: &mut Vec<u8>) -> Result<(), MsgFault>
    requires { Fits (message_value message.now) }
    ensures { Appends no_memory (canon (message_value message.now)) out.old out.new result }
{
    encode_value(&message.to_value(), out)
}
