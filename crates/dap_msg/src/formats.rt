//! The operands of the messages.

ghost use Rattle.std.specs.Prelude.{◌≡◌};
ghost use Rattle.dap_msg.specs.Formats.{access_format, acknowledge_format, attributes_format, completion_format, configuration_format, continuation_format, control_format, file_data_format, other_format, status_format};
ghost use Rattle.dap_msg.specs.Inner.Attributes.{later_attributes};
ghost use Rattle.dap_msg.specs.Inner.Reading.{as_unread, value_at};

use crate::bytes::Bytes;
use crate::fault::Fault;
use crate::kind::{Byte, Word};
use crate::message::{
    AccessFields, Attributes, Completion, Configuration, ControlFields, Message, StatusFields,
};
use crate::reading::Cursor;
use crate::{field, menu};

/// Reads the Acknowledge, whatever its operand is.
#[tactic(auto, unfolding(crate::specs::Formats::acknowledge_format))]
#[inline(always)]
pub(crate) fn read_acknowledge(cursor: Cursor<'_>) -> Result<Message<'_>, Fault>
    ensures { result ≡ value_at acknowledge_format (as_unread cursor.entry) }
{
    let _ignored = cursor;
    Ok(Message::Ack)
}

/// Reads the Status that the operand spells; RFA, RECNUM and STV may be absent.
#[tactic(auto, unfolding(crate::specs::Formats::status_format))]
#[inline(always)]
pub(crate) fn read_status(mut cursor: Cursor<'_>) -> Result<Message<'_>, Fault>
    ensures { result ≡ value_at status_format (as_unread cursor.entry) }
{
    let code = cursor.read(Word)?;
    let rfa = cursor.or_else(field::RFA, Bytes(&[]))?;
    let recnum = cursor.or_else(field::RECNUM, Bytes(&[]))?;
    let stv = cursor.or_else(field::STV, Bytes(&[]))?;
    Ok(Message::Status(StatusFields {
        code,
        rfa,
        recnum,
        stv,
    }))
}

/// Reads the Control that the operand spells.
#[tactic(auto, unfolding(crate::specs::Formats::control_format))]
#[inline(always)]
pub(crate) fn read_control(mut cursor: Cursor<'_>) -> Result<Message<'_>, Fault>
    ensures { result ≡ value_at control_format (as_unread cursor.entry) }
{
    let func = cursor.read(Byte)?;
    let bits = cursor.menu_of(menu::CTLMENU)?;
    let rac = cursor.option_of(bits, menu::RAC)?;
    let key = cursor.option_of(bits, menu::KEY)?;
    let krf = cursor.option_of(bits, menu::KRF)?;
    let rop = cursor.option_of(bits, menu::ROP)?;
    let hsh = cursor.option_of(bits, menu::HSH)?;
    let display = cursor.option_of(bits, menu::DISPLAY)?;
    Ok(Message::Control(ControlFields {
        func,
        rac,
        key,
        krf,
        rop,
        hsh,
        display,
    }))
}

/// Reads the Attributes that the operand spells.
#[tactic(auto, unfolding(crate::specs::Formats::attributes_format, crate::specs::Inner::Attributes::later_attributes))]
#[inline(always)]
pub(crate) fn read_attributes(mut cursor: Cursor<'_>) -> Result<Message<'_>, Fault>
    ensures { result ≡ value_at attributes_format (as_unread cursor.entry) }
{
    let bits = cursor.menu_of(menu::ATTMENU)?;
    let datatype = cursor.option_of(bits, menu::DATATYPE)?;
    let org = cursor.option_of(bits, menu::ORG)?;
    let rfm = cursor.option_of(bits, menu::RFM)?;
    let rat = cursor.option_of(bits, menu::RAT)?;
    let bls = cursor.option_of(bits, menu::BLS)?;
    let mrs = cursor.option_of(bits, menu::MRS)?;
    let alq = cursor.option_of(bits, menu::ALQ)?;
    let bks = cursor.option_of(bits, menu::BKS)?;
    let fsz = cursor.option_of(bits, menu::FSZ)?;
    let mrn = cursor.option_of(bits, menu::MRN)?;
    let first = Attributes {
        datatype,
        org,
        rfm,
        rat,
        bls,
        mrs,
        alq,
        bks,
        fsz,
        mrn,
        ..Attributes::none()
    };
    read_later_attributes(bits, first, cursor)
}

/// Reads the later attributes, from the runtime system on, after these.
#[tactic(auto, unfolding(crate::specs::Inner::Attributes::later_attributes))]
#[inline(always)]
fn read_later_attributes<'a>(
    bits: u64,
    first: Attributes<'a>,
    mut cursor: Cursor<'a>,
) -> Result<Message<'a>, Fault>
    ensures { result ≡ value_at (later_attributes bits first.entry) (as_unread cursor.entry) }
{
    let runsys = cursor.option_of(bits, menu::RUNSYS)?;
    let deq = cursor.option_of(bits, menu::DEQ)?;
    let fop = cursor.option_of(bits, menu::FOP)?;
    let bsz = cursor.option_of(bits, menu::BSZ)?;
    let dev = cursor.option_of(bits, menu::DEV)?;
    let sdc = cursor.option_of(bits, menu::SDC)?;
    let lrl = cursor.option_of(bits, menu::LRL)?;
    let hbk = cursor.option_of(bits, menu::HBK)?;
    let ebk = cursor.option_of(bits, menu::EBK)?;
    let ffb = cursor.option_of(bits, menu::FFB)?;
    let sbn = cursor.option_of(bits, menu::SBN)?;
    Ok(Message::Attrib(Attributes {
        runsys,
        deq,
        fop,
        bsz,
        dev,
        sdc,
        lrl,
        hbk,
        ebk,
        ffb,
        sbn,
        ..first
    }))
}

/// Reads the Config that the operand spells.
#[tactic(auto, unfolding(crate::specs::Formats::configuration_format))]
#[inline(always)]
pub(crate) fn read_configuration(mut cursor: Cursor<'_>) -> Result<Message<'_>, Fault>
    ensures { result ≡ value_at configuration_format (as_unread cursor.entry) }
{
    let bufsiz = cursor.read(Word)?;
    let ostype = cursor.read(Byte)?;
    let filesys = cursor.read(Byte)?;
    let vernum = cursor.read(Byte)?;
    let econum = cursor.read(Byte)?;
    let usrnum = cursor.read(Byte)?;
    let softver = cursor.read(Byte)?;
    let usrsoft = cursor.read(Byte)?;
    let syscap = cursor.read(field::SYSCAP)?;
    Ok(Message::Config(Configuration {
        bufsiz,
        ostype,
        filesys,
        vernum,
        econum,
        usrnum,
        softver,
        usrsoft,
        syscap,
    }))
}

/// Reads the Access that the operand spells; the fields after FILESPEC may be absent.
#[tactic(auto, unfolding(crate::specs::Formats::access_format))]
#[inline(always)]
pub(crate) fn read_access(mut cursor: Cursor<'_>) -> Result<Message<'_>, Fault>
    ensures { result ≡ value_at access_format (as_unread cursor.entry) }
{
    let func = cursor.read(Byte)?;
    let opt = cursor.read(field::ACCOPT)?;
    let name = cursor.read(field::FILESPEC)?;
    let fac = cursor.or_else(field::FAC, 0)?;
    let shr = cursor.or_else(field::SHR, 0)?;
    let display = cursor.or_else(field::DISPLAY, 0)?;
    let password = cursor.or_else(field::PASSWORD, Bytes(&[]))?;
    Ok(Message::Access(AccessFields {
        func,
        opt,
        name,
        fac,
        shr,
        display,
        password,
    }))
}

/// Reads the Continue Transfer that the operand spells.
#[tactic(auto, unfolding(crate::specs::Formats::continuation_format))]
#[inline(always)]
pub(crate) fn read_continuation(mut cursor: Cursor<'_>) -> Result<Message<'_>, Fault>
    ensures { result ≡ value_at continuation_format (as_unread cursor.entry) }
{
    let func = cursor.read(Byte)?;
    Ok(Message::Contran { func })
}

/// Reads the Access Complete that the operand spells; FOP and the checksum may be absent.
#[tactic(auto, unfolding(crate::specs::Formats::completion_format))]
#[inline(always)]
pub(crate) fn read_completion(mut cursor: Cursor<'_>) -> Result<Message<'_>, Fault>
    ensures { result ≡ value_at completion_format (as_unread cursor.entry) }
{
    let func = cursor.read(Byte)?;
    let fop = cursor.or_else(field::FOP, 0)?;
    let check = cursor.unless_end(Word)?;
    Ok(Message::Accomp(Completion { func, fop, check }))
}

/// Reads the Filedata that the operand spells: all that is after RECNUM is its payload.
#[tactic(auto, unfolding(crate::specs::Formats::file_data_format))]
#[inline(always)]
pub(crate) fn read_file_data(mut cursor: Cursor<'_>) -> Result<Message<'_>, Fault>
    ensures { result ≡ value_at file_data_format (as_unread cursor.entry) }
{
    let recnum = cursor.read(field::RECNUM)?;
    Ok(Message::Filedata {
        recnum,
        payload: Bytes(cursor.rest),
    })
}

/// Reads the message of another type, with its operand as it is.
#[tactic(auto, unfolding(crate::specs::Formats::other_format))]
#[inline(always)]
pub(crate) fn read_other(number: u8, cursor: Cursor<'_>) -> Result<Message<'_>, Fault>
    ensures { result ≡ value_at (other_format number) (as_unread cursor.entry) }
{
    Ok(Message::Other {
        number,
        body: Bytes(cursor.rest),
    })
}
