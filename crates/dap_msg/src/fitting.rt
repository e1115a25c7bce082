//! Whether a message has a spelling.

ghost use Rattle.std.specs.Prelude.{◌<◌, ◌^◌, ◌↔◌, length, IsTrue};
ghost use Rattle.dap_msg.specs.Message.{Accomp, Attrib, Config, Control};
ghost use Rattle.dap_msg.specs.Canon.{Fits};
ghost use Rattle.dap_msg.specs.Canon.{operand_bytes};
ghost use Rattle.dap_msg.specs.Fitting.{FieldsFit, FitsOption};

use crate::codes::{MAX_TYPE, TYPE_STATUS};
use crate::field;
use crate::kind::{Byte, Kind, Word};
use crate::menu::{self, Optional};
use crate::message::{Attributes, Completion, Configuration, ControlFields, Message};

/// Returns whether a field of a menu fits, where it is there.
fn option_fits<'a, T, K: Kind<'a, T>>(field: Optional<K>, value: &Option<T>) -> bool
    ensures { IsTrue result ↔ FitsOption (K.kind field.1) (K.seen_option field.1 value.now) }
{
    match value {
        Some(value) => field.1.fits(value),
        None => true,
    }
}

/// Returns whether each value of a Configuration fits its field.
fn configuration_fits(here: Configuration) -> bool
    ensures { IsTrue result ↔ FieldsFit (Config here) }
{
    field::SYSCAP.fits(&here.syscap)
}

/// Returns whether each value of an Access Complete fits its field.
fn completion_fits(here: Completion) -> bool
    ensures { IsTrue result ↔ FieldsFit (Accomp here) }
{
    field::FOP.fits(&here.fop)
}

/// Returns whether each value of an Attributes message fits its field.
fn attributes_fit(here: &Attributes<'_>) -> bool
    ensures { IsTrue result ↔ FieldsFit (Attrib here.now) }
{
    option_fits(menu::DATATYPE, &here.datatype)
        && option_fits(menu::ORG, &here.org)
        && option_fits(menu::RFM, &here.rfm)
        && option_fits(menu::RAT, &here.rat)
        && option_fits(menu::BLS, &here.bls)
        && option_fits(menu::MRS, &here.mrs)
        && option_fits(menu::ALQ, &here.alq)
        && option_fits(menu::BKS, &here.bks)
        && option_fits(menu::FSZ, &here.fsz)
        && option_fits(menu::MRN, &here.mrn)
        && option_fits(menu::RUNSYS, &here.runsys)
        && option_fits(menu::DEQ, &here.deq)
        && option_fits(menu::FOP, &here.fop)
        && option_fits(menu::BSZ, &here.bsz)
        && option_fits(menu::DEV, &here.dev)
        && option_fits(menu::SDC, &here.sdc)
        && option_fits(menu::LRL, &here.lrl)
        && option_fits(menu::HBK, &here.hbk)
        && option_fits(menu::EBK, &here.ebk)
        && option_fits(menu::FFB, &here.ffb)
        && option_fits(menu::SBN, &here.sbn)
}

/// Returns whether each value of a Control fits its field.
fn control_fits(here: &ControlFields<'_>) -> bool
    ensures { IsTrue result ↔ FieldsFit (Control here.now) }
{
    Byte.fits(&here.func)
        && option_fits(menu::RAC, &here.rac)
        && option_fits(menu::KEY, &here.key)
        && option_fits(menu::KRF, &here.krf)
        && option_fits(menu::ROP, &here.rop)
        && option_fits(menu::HSH, &here.hsh)
        && option_fits(menu::DISPLAY, &here.display)
}

/// Returns whether each value fits its field.
fn fields_fit(message: &Message<'_>) -> bool
    ensures { IsTrue result ↔ FieldsFit message.now }
{
    match message {
        Message::Config(here) => configuration_fits(*here),
        Message::Attrib(here) => attributes_fit(here),
        Message::Access(here) => {
            Byte.fits(&here.func)
                && field::ACCOPT.fits(&here.opt)
                && field::FILESPEC.fits(&here.name)
                && field::FAC.fits(&here.fac)
                && field::SHR.fits(&here.shr)
                && field::DISPLAY.fits(&here.display)
                && field::PASSWORD.fits(&here.password)
        }
        Message::Control(here) => control_fits(here),
        Message::Contran { func } => Byte.fits(func),
        Message::Ack => true,
        Message::Accomp(here) => completion_fits(*here),
        Message::Filedata { recnum, .. } => field::RECNUM.fits(recnum),
        Message::Status(here) => {
            Word.fits(&here.code)
                && field::RFA.fits(&here.rfa)
                && field::RECNUM.fits(&here.recnum)
                && field::STV.fits(&here.stv)
        }
        Message::Other { number, .. } => *number > TYPE_STATUS && *number <= MAX_TYPE,
    }
}

/// The maximum of an operand in bytes: what LENGTH and LEN256 can express.
const MAX_OPERAND: usize = 65535;

/// Returns whether the operand of a message whose values fit has a length that LENGTH and LEN256 can express.
fn operand_fits(message: &Message<'_>) -> bool
    requires { FieldsFit message.now }
    ensures { IsTrue result ↔ (length (operand_bytes message.now) < 2 ^ 16) }
{
    match message {
        Message::Filedata { recnum, payload } => payload.0.len() < MAX_OPERAND - recnum.0.len(),
        Message::Other { body, .. } => body.0.len() <= MAX_OPERAND,
        _ => true,
    }
}

/// Returns whether the message that has this value has a spelling, for crates that hold messages as values; as
/// [`crate::fits`] says, which see.
pub fn fits_value(message: &Message<'_>) -> bool
    ensures { IsTrue result ↔ Fits message.now }
{
    fields_fit(message) && operand_fits(message)
}
