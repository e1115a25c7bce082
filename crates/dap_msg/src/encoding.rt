//! Messages as bytes.

ghost use Rattle.std.specs.Prelude.{ℕ, ◌≡◌, ◌≤◌, ◌<◌, ◌+◌, ◌^◌, ◌++◌, length, is_some, map, vec_len, vec_capacity};
ghost use Rattle.dap_fields.specs.Writing.{shortest};
ghost use Rattle.dap_msg.specs.Message.{Accomp, Attrib, Control};
ghost use Rattle.dap_msg.specs.Formats.{header_bytes};
ghost use Rattle.dap_msg.specs.Canon.{canon, Fits};
ghost use Rattle.dap_msg.specs.Canon.{operand_bytes, option_bytes, bits_of};
ghost use Rattle.dap_msg.specs.Written.{Appends, no_memory};
ghost use Rattle.dap_msg.specs.Inner.Fields.{bytes_of_field, fields_bytes, message_bytes, is_there, CanWrite, CanWriteAll};
ghost use Rattle.dap_msg.specs.Fitting.{FieldsFit, FitsOption, KeepsLimits};

use crate::fault::MsgFault;
use crate::header::HeaderFlags;
use crate::kind::Kind;
use crate::menu::{self, Optional};
use crate::message::{Attributes, Completion, ControlFields, Message};
use dap_fields::{write_ex, write_image, write_u8, write_u16};

/// A field to write.
#[derive(Clone, Copy)]
pub(crate) enum Field<'a> {
    /// A field of a menu that is not there.
    Absent,
    Byte(u8),
    Word(u16),
    Extensible(u128),
    Image(&'a [u8]),
    /// The bytes of an operand after its other fields.
    Rest(&'a [u8]),
}

/// Appends the field, for which there is room.
fn put(field: Field, out: &mut Vec<u8>)
    requires fits { CanWrite field }
    requires room { vec_len out.old + length (bytes_of_field field) ≤ vec_capacity out.old }
    ensures items { out.new.items ≡ out.old.items ++ bytes_of_field field.entry }
    ensures capacity { vec_capacity out.old ≤ vec_capacity out.new }
{
    let _written = match field {
        Field::Absent => Ok(()),
        Field::Byte(value) => write_u8(value, out),
        Field::Word(value) => write_u16(value, out),
        Field::Extensible(value) => write_ex(value, out),
        Field::Image(image) => write_image(image, out),
        Field::Rest(bytes) => {
            put_rest(bytes, out);
            Ok(())
        }
    };
}

/// Appends the fields, for which there is room.
#[inline(always)]
fn put_all(fields: &[Field], out: &mut Vec<u8>)
    requires fit { CanWriteAll fields.now }
    requires room { vec_len out.old + length (fields_bytes fields.now) ≤ vec_capacity out.old }
    ensures items { out.new.items ≡ out.old.items ++ fields_bytes fields.now }
    ensures capacity { vec_capacity out.old ≤ vec_capacity out.new }
{
    for field in fields {
        put(*field, out);
    }
}

/// Returns how many bytes the shortest spelling of an extensible number has.
fn extensible_len(value: u128) -> usize
    requires { value < 2 ^ 84 }
    ensures exact { result ≡ length (shortest value) }
    ensures small { result ≤ 12 }
{
    let mut len = 1;
    let mut rest = value;
    while rest >= 128 {
        rest /= 128;
        len += 1;
    }
    len
}

/// Returns how many bytes a field has, 0 where it is absent.
fn field_len(field: Field) -> usize
    requires { CanWrite field }
    ensures { result ≡ length (bytes_of_field field.entry) }
{
    match field {
        Field::Absent => 0,
        Field::Byte(_) => 1,
        Field::Word(_) => 2,
        Field::Extensible(value) => extensible_len(value),
        Field::Image(image) => image.len() + 1,
        Field::Rest(bytes) => bytes.len(),
    }
}

/// Returns how many bytes all the fields have.
fn fields_len(fields: &[Field]) -> usize
    requires fit { CanWriteAll fields.now }
    requires small { length (fields_bytes fields.now) < 2 ^ 16 }
    ensures { result ≡ length (fields_bytes fields.now) }
{
    match fields {
        [] => 0,
        [field, rest @ ..] => field_len(*field) + fields_len(rest),
    }
}

/// FLAGS where LENGTH follows, and where LEN256 follows too.
const WITH_LENGTH: u8 = HeaderFlags::LENGTH.0;

const WITH_BOTH_LENGTHS: u8 = HeaderFlags::LENGTH.0 | HeaderFlags::HIGH_LENGTH.0;

/// Appends a header, for which there is room.
fn put_header(number: u8, len: usize, out: &mut Vec<u8>)
    requires small { len < 2 ^ 16 }
    requires room { vec_len out.old + length (header_bytes number len) ≤ vec_capacity out.old }
    ensures items { out.new.items ≡ out.old.items ++ header_bytes number len }
    ensures capacity { vec_capacity out.old ≤ vec_capacity out.new }
{
    let [low, high] = (len as u16).to_le_bytes();
    if len < 256 {
        put_rest(&[number, WITH_LENGTH, low], out);
    } else {
        put_rest(&[number, WITH_BOTH_LENGTHS, low, high], out);
    }
}

/// Appends the bytes, for which there is room.
fn put_rest(bytes: &[u8], out: &mut Vec<u8>)
    requires { vec_len out.old + length bytes.now ≤ vec_capacity out.old }
    ensures items { out.new.items ≡ out.old.items ++ bytes.now }
    ensures capacity { vec_capacity out.old ≤ vec_capacity out.new }
{
    let _ = out.extend_from_slice(bytes);
}

/// Returns how many bytes a message has whose operand has `len`.
fn message_len(len: usize) -> usize
    requires { len < 2 ^ 16 }
    ensures { (number : ℕ) → result ≡ length (header_bytes number len) + len }
{
    if len < 256 { len + 3 } else { len + 4 }
}

/// Returns how many bytes the operand of a message has that has `len`.
fn operand_of(len: usize) -> usize
    requires { 3 ≤ len }
    ensures { (number operand : ℕ) → len ≡ length (header_bytes number operand) + operand
        → result ≡ operand }
{
    if len < 259 { len - 3 } else { len - 4 }
}

/// Appends a message of these fields, which has `len` bytes. Where there is no memory nothing is changed.
#[inline(always)]
fn write_message(
    fields: &[Field],
    number: u8,
    len: usize,
    out: &mut Vec<u8>,
) -> Result<(), MsgFault>
    requires fit { CanWriteAll fields.now }
    requires small { length (fields_bytes fields.now) < 2 ^ 16 }
    requires counted { len ≡ length (message_bytes number fields.now) }
    ensures { Appends no_memory (message_bytes number fields.now) out.old out.new result }
{
    out.reserve(len)?;
    put_header(number, operand_of(len), out);
    put_all(fields, out);
    Ok(())
}

/// Returns the field of a menu.
#[inline(always)]
fn option_field<'a, T, K: Kind<'a, T>>(field: Optional<K>, value: &Option<T>) -> Field<'a>
    requires known { K.is_known field.1 }
    requires fits { FitsOption (K.kind field.1) (K.seen_option field.1 value.now) }
    ensures bytes { bytes_of_field result
        ≡ option_bytes (K.kind field.1) (K.seen_option field.1 value.now) }
    ensures can { CanWrite result }
    ensures there { is_there result ≡ is_some (K.seen_option field.1 value.now) }
{
    match value {
        Some(value) => field.1.field(value),
        None => Field::Absent,
    }
}

/// Returns whether the field is there.
fn is_there(field: Field) -> bool
    ensures { result ≡ is_there field.entry }
{
    !matches!(field, Field::Absent)
}

/// Returns the menu of fields of which these are there, the first at bit 0.
#[inline(always)]
fn menu_bits(fields: &[Field]) -> u64
    requires { length fields.now ≤ 63 }
    ensures exact { result ≡ bits_of (map is_there fields.now) }
    ensures small { result < 2 ^ length fields.now }
{
    let mut bits = 0;
    let mut at = fields.len();
    'fields: while at > 0 {
        at -= 1;
        bits = u64::from(is_there(fields[at])) + 2 * bits;
    }
    bits
}

/// Returns the field of their menu.
#[inline(always)]
fn menu_field<'a>(fields: &[Field]) -> Field<'a>
    requires { length fields.now ≤ 63 }
    ensures bytes { bytes_of_field result ≡ shortest (bits_of (map is_there fields.now)) }
    ensures can { CanWrite result }
{
    Field::Extensible(u128::from(menu_bits(fields)))
}

/// Returns the fields of an Access Complete, in order.
fn completion_fields<'a>(here: Completion) -> [Field<'a>; 3]
    requires { FieldsFit (Accomp here) }
    ensures bytes { fields_bytes result ≡ operand_bytes (Accomp here) }
    ensures can { CanWriteAll result }
{
    [
        Field::Byte(here.func),
        Field::Extensible(u128::from(here.fop)),
        match here.check {
            Some(check) => Field::Word(check),
            None => Field::Absent,
        },
    ]
}

/// Returns the fields of a Control, in order, with their menu.
#[inline(always)]
fn control_fields<'a>(here: &ControlFields<'a>) -> [Field<'a>; 8]
    requires { FieldsFit (Control here.now) }
    ensures bytes { fields_bytes result ≡ operand_bytes (Control here.now) }
    ensures can { CanWriteAll result }
{
    let mut fields = [
        Field::Byte(here.func),
        Field::Absent,
        option_field(menu::RAC, &here.rac),
        option_field(menu::KEY, &here.key),
        option_field(menu::KRF, &here.krf),
        option_field(menu::ROP, &here.rop),
        option_field(menu::HSH, &here.hsh),
        option_field(menu::DISPLAY, &here.display),
    ];
    fields[1] = menu_field(&fields[2..]);
    fields
}

/// Returns the fields of an Attributes message, in order, after their menu.
fn attributes_fields<'a>(here: &Attributes<'a>) -> [Field<'a>; 22]
    requires { FieldsFit (Attrib here.now) }
    ensures bytes { fields_bytes result ≡ operand_bytes (Attrib here.now) }
    ensures can { CanWriteAll result }
{
    let mut fields = [
        Field::Absent,
        option_field(menu::DATATYPE, &here.datatype),
        option_field(menu::ORG, &here.org),
        option_field(menu::RFM, &here.rfm),
        option_field(menu::RAT, &here.rat),
        option_field(menu::BLS, &here.bls),
        option_field(menu::MRS, &here.mrs),
        option_field(menu::ALQ, &here.alq),
        option_field(menu::BKS, &here.bks),
        option_field(menu::FSZ, &here.fsz),
        option_field(menu::MRN, &here.mrn),
        option_field(menu::RUNSYS, &here.runsys),
        option_field(menu::DEQ, &here.deq),
        option_field(menu::FOP, &here.fop),
        option_field(menu::BSZ, &here.bsz),
        option_field(menu::DEV, &here.dev),
        option_field(menu::SDC, &here.sdc),
        option_field(menu::LRL, &here.lrl),
        option_field(menu::HBK, &here.hbk),
        option_field(menu::EBK, &here.ebk),
        option_field(menu::FFB, &here.ffb),
        option_field(menu::SBN, &here.sbn),
    ];
    fields[0] = menu_field(&fields[1..]);
    fields
}

/// Makes something of the fields of the message's operand, which are in order.
macro_rules! with_fields {
    ($message:expr, $make:ident $(, $more:expr)*) => {
        match $message {
            Message::Config(here) => {
                let fields = &[
                    Field::Word(here.bufsiz),
                    Field::Byte(here.ostype),
                    Field::Byte(here.filesys),
                    Field::Byte(here.vernum),
                    Field::Byte(here.econum),
                    Field::Byte(here.usrnum),
                    Field::Byte(here.softver),
                    Field::Byte(here.usrsoft),
                    Field::Extensible(here.syscap),
                ];
                $make(fields $(, $more)*)
            }
            Message::Attrib(here) => $make(&attributes_fields(here) $(, $more)*),
            Message::Access(here) => {
                let fields = &[
                    Field::Byte(here.func),
                    Field::Extensible(u128::from(here.opt)),
                    Field::Image(here.name.0),
                    Field::Extensible(u128::from(here.fac)),
                    Field::Extensible(u128::from(here.shr)),
                    Field::Extensible(u128::from(here.display)),
                    Field::Image(here.password.0),
                ];
                $make(fields $(, $more)*)
            }
            Message::Control(here) => $make(&control_fields(here) $(, $more)*),
            Message::Contran { func } => $make(&[Field::Byte(*func)] $(, $more)*),
            Message::Ack => $make(&[] $(, $more)*),
            Message::Accomp(here) => $make(&completion_fields(*here) $(, $more)*),
            Message::Filedata { recnum, payload } => {
                $make(&[Field::Image(recnum.0), Field::Rest(payload.0)] $(, $more)*)
            }
            Message::Status(here) => {
                let fields = &[
                    Field::Word(here.code),
                    Field::Image(here.rfa.0),
                    Field::Image(here.recnum.0),
                    Field::Image(here.stv.0),
                ];
                $make(fields $(, $more)*)
            }
            Message::Other { body, .. } => $make(&[Field::Rest(body.0)] $(, $more)*),
        }
    };
}

/// Appends a message as [`encode_counted`] does.
#[tactic(auto, unfolding(crate::specs::Canon::canon))]
#[inline(always)]
fn encode_here(message: &Message<'_>, len: usize, out: &mut Vec<u8>) -> Result<(), MsgFault>
    requires fits { KeepsLimits message.now }
    requires counted { len ≡ length (canon message.now) }
    ensures { Appends no_memory (canon message.now) out.old out.new result }
{
    with_fields!(message, write_message, message.number(), len, out)
}

/// Appends a message as [`encode_here`] does, in a separate call. A call clears the room for the fields of all
/// messages that it may meet: so those with the most fields are written apart.
#[inline(never)]
fn encode_apart(message: &Message<'_>, len: usize, out: &mut Vec<u8>) -> Result<(), MsgFault>
    requires fits { KeepsLimits message.now }
    requires counted { len ≡ length (canon message.now) }
    ensures { Appends no_memory (canon message.now) out.old out.new result }
{
    encode_here(message, len, out)
}

/// Appends a message of `len` bytes, as [`encode_value`] does. They aren't counted again.
pub(crate) fn encode_counted(
    message: &Message<'_>,
    len: usize,
    out: &mut Vec<u8>,
) -> Result<(), MsgFault>
    requires fits { Fits message.now }
    requires counted { len ≡ length (canon message.now) }
    ensures { Appends no_memory (canon message.now) out.old out.new result }
{
    match message {
        Message::Config(_) | Message::Attrib(_) | Message::Access(_) => {
            encode_apart(message, len, out)
        }
        _ => encode_here(message, len, out),
    }
}

/// Appends the canonical spelling of the message that has this value, for crates that hold messages as values; as
/// [`crate::encode`] does, which see.
pub fn encode_value(message: &Message<'_>, out: &mut Vec<u8>) -> Result<(), MsgFault>
    requires { Fits message.now }
    ensures { Appends no_memory (canon message.now) out.old out.new result }
{
    encode_counted(message, encoded_len(message), out)
}

/// Returns how many bytes the operand has.
fn operand_len(message: &Message<'_>) -> usize
    requires { KeepsLimits message.now }
    ensures { result ≡ length (operand_bytes message.now) }
{
    with_fields!(message, fields_len)
}

/// Returns the number of bytes that [`encode_value`] appends for a message that fits (DAP 5.6.0, message formats).
pub fn encoded_len(message: &Message<'_>) -> usize
    requires { Fits message.now }
    ensures { result ≡ length (canon message.now) }
{
    message_len(operand_len(message))
}
