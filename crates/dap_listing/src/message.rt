//! The lines of DAP messages.

ghost use Rattle.std.specs.Prelude.{◌≡◌, ◌≤◌, ◌/◌, ◌++◌, ℕ, List, OnOk, codes, length, true};
ghost use Rattle.std.specs.Option.{option_map_or};
ghost use Rattle.std.specs.Fmt.{decimal};
ghost use Rattle.dap_msg.specs.declared.items.Item.TheVariants.{Malformed};
ghost use Rattle.dap_msg.specs.declared.message.Message.TheVariants.{Access, Attrib, Config, Control, Filedata, Other, Status};
ghost use Rattle.texts.specs.Adding.{Adds, StillBegins};
ghost use Rattle.texts.specs.Adding.{AddsSome, StillBegins};
ghost use Rattle.dap_listing.specs.Messages.{IsMessagesText, item_line, item_line_in, kind_text, message_line, version_text, wanted_text};

use crate::field::{attributes_fields, control_fields, push_fields};
use dap_meanings::add_item_words;
use dap_msg::{
    AccessFields, Attributes, Configuration, ControlFields, FaultKind, Item, MessageValue,
    MsgFault, StatusFields, item_at,
};
use std::alloc::AllocError;
use texts::{push_decimal, push_image, push_number, push_str, push_word};

/// Appends the check of a completed file, if there is one.
#[tactic(auto, unfolding(texts::specs::Adding::StillBegins))]
fn push_check(text: &mut Vec<u8>, check: Option<u16>) -> Result<(), AllocError>
    ensures added { OnOk result (Adds text.old text.new (option_map_or decimal check (codes "-"))) }
    ensures kept { StillBegins text.old text.new }
{
    match check {
        None => push_str(text, "-"),
        Some(check) => push_decimal(text, check),
    }
}

/// Appends the versions of a system's DAP and of its software.
#[tactic(auto, using(crate::proofs::MessageLemmas::begins_further))]
fn push_version(
    text: &mut Vec<u8>,
    vernum: u8,
    econum: u8,
    usrnum: u8,
    softver: u8,
    usrsoft: u8,
) -> Result<(), AllocError>
    ensures added { OnOk result (Adds text.old text.new
        (version_text vernum econum usrnum softver usrsoft)) }
    ensures kept { StillBegins text.old text.new }
{
    push_decimal(text, vernum)?;
    push_number(text, ".", econum)?;
    push_number(text, ".", usrnum)?;
    push_number(text, ".", softver)?;
    push_number(text, ".", usrsoft)
}

/// Appends what an Access asks for: FAC, SHR and DISPLAY.
#[tactic(auto, unfolding(texts::specs::Adding::StillBegins))]
fn push_wanted(text: &mut Vec<u8>, fac: u32, shr: u32, display: u32) -> Result<(), AllocError>
    ensures added { OnOk result (Adds text.old text.new (wanted_text fac shr display)) }
    ensures kept { StillBegins text.old text.new }
{
    push_number(text, "fac=", fac)?;
    push_number(text, " shr=", shr)?;
    push_number(text, " display=", display)
}

/// Appends the line of a message.
#[tactic(auto, using(crate::proofs::MessageLemmas::begins_further))]
#[inline(always)]
fn push_message(text: &mut Vec<u8>, message: &MessageValue<'_>) -> Result<(), AllocError>
    ensures added { OnOk result (Adds text.old text.new (message_line message.now)) }
    ensures kept { StillBegins text.old text.new }
{
    match message {
        MessageValue::Config(config) => push_config(text, *config),
        MessageValue::Attrib(attributes) => push_attributes(text, attributes),
        MessageValue::Control(control) => push_control(text, control),
        MessageValue::Contran { func } => {
            push_number(text, "  continue func=", *func)?;
            push_str(text, "\n")
        }
        MessageValue::Ack => push_str(text, "  ack\n"),
        MessageValue::Accomp(complete) => {
            push_number(text, "  complete func=", complete.func)?;
            push_number(text, " fop=", complete.fop)?;
            push_str(text, " check=")?;
            push_check(text, complete.check)?;
            push_str(text, "\n")
        }
        MessageValue::Access(access) => push_access(text, access),
        MessageValue::Filedata { recnum, payload } => push_data(text, recnum.0, payload.0),
        MessageValue::Status(status) => push_status(text, status),
        MessageValue::Other { number, body } => push_other(text, *number, body.0),
    }
}

/// Appends the line of a Configuration message.
#[tactic(auto, using(crate::proofs::MessageLemmas::begins_further))]
#[inline(always)]
fn push_config(text: &mut Vec<u8>, config: Configuration) -> Result<(), AllocError>
    ensures added { OnOk result (Adds text.old text.new (message_line (Config config))) }
    ensures kept { StillBegins text.old text.new }
{
    push_number(text, "  config bufsiz=", config.bufsiz)?;
    push_number(text, " ostype=", config.ostype)?;
    push_number(text, " filesys=", config.filesys)?;
    push_str(text, " version=")?;
    push_version(
        text,
        config.vernum,
        config.econum,
        config.usrnum,
        config.softver,
        config.usrsoft,
    )?;
    push_number(text, " syscap=", config.syscap)?;
    push_str(text, "\n")
}

/// Appends the line of an Access message.
#[tactic(auto, unfolding(texts::specs::Adding::StillBegins))]
#[inline(always)]
fn push_access(text: &mut Vec<u8>, access: &AccessFields<'_>) -> Result<(), AllocError>
    ensures added { OnOk result (Adds text.old text.new (message_line (Access access.now))) }
    ensures kept { StillBegins text.old text.new }
{
    let name = &access.name;
    let password = &access.password;
    push_number(text, "  access func=", access.func)?;
    push_number(text, " opt=", access.opt)?;
    push_image(text, " name=", name.0)?;
    push_str(text, " ")?;
    push_wanted(text, access.fac, access.shr, access.display)?;
    push_number(text, " password=", password.0.len())?;
    push_str(text, "\n")
}

/// Appends the line of an Attributes message.
#[tactic(auto, unfolding(texts::specs::Adding::StillBegins))]
#[inline(never)]
fn push_attributes(text: &mut Vec<u8>, attributes: &Attributes<'_>) -> Result<(), AllocError>
    ensures added { OnOk result (Adds text.old text.new
        (message_line (Attrib attributes.now))) }
    ensures kept { StillBegins text.old text.new }
{
    push_str(text, "  attributes")?;
    push_fields(text, &attributes_fields(attributes))
}

/// Appends the line of a Control message.
#[tactic(auto, using(crate::proofs::MessageLemmas::begins_further))]
#[inline(never)]
fn push_control(text: &mut Vec<u8>, control: &ControlFields<'_>) -> Result<(), AllocError>
    ensures added { OnOk result (Adds text.old text.new
        (message_line (Control control.now))) }
    ensures kept { StillBegins text.old text.new }
{
    push_number(text, "  control func=", control.func)?;
    push_fields(text, &control_fields(control))
}

/// Appends the line of a Data message.
#[tactic(auto, unfolding(texts::specs::Adding::StillBegins))]
fn push_data(text: &mut Vec<u8>, recnum: &[u8], bytes: &[u8]) -> Result<(), AllocError>
    ensures added { OnOk result (Adds text.old text.new
        (message_line (Filedata recnum.now bytes.now))) }
    ensures kept { StillBegins text.old text.new }
{
    push_image(text, "  data recnum=", recnum)?;
    push_image(text, " body=", bytes)?;
    push_str(text, "\n")
}

/// Appends the line of a Status message.
#[tactic(auto, using(crate::proofs::MessageLemmas::begins_further))]
fn push_status(text: &mut Vec<u8>, status: &StatusFields<'_>) -> Result<(), AllocError>
    ensures added { OnOk result (Adds text.old text.new (message_line (Status status.now))) }
    ensures kept { StillBegins text.old text.new }
{
    push_word(text, "  status ", status.code)?;
    push_image(text, " rfa=", status.rfa.0)?;
    push_image(text, " recnum=", status.recnum.0)?;
    push_image(text, " stv=", status.stv.0)?;
    push_str(text, "\n")
}

/// Appends the line of a message of another type.
#[tactic(auto, unfolding(texts::specs::Adding::StillBegins))]
fn push_other(text: &mut Vec<u8>, number: u8, body: &[u8]) -> Result<(), AllocError>
    ensures added { OnOk result (Adds text.old text.new (message_line (Other number body.now))) }
    ensures kept { StillBegins text.old text.new }
{
    push_number(text, "  other type=", number)?;
    push_image(text, " body=", body)?;
    push_str(text, "\n")
}

/// Returns the word of a listing for what is wrong with a message.
fn kind_word(kind: FaultKind) -> &'static str
    ensures { result.now ≡ kind_text kind }
{
    match kind {
        FaultKind::Truncated => "truncated",
        FaultKind::TooLong => "too-long",
        FaultKind::BadFlags => "flags",
        FaultKind::BadStream => "stream",
        FaultKind::UnknownType => "type",
        FaultKind::BadMenu => "menu",
        FaultKind::NoMemory => "memory",
    }
}

/// Appends the line of a fault.
#[tactic(auto, using(crate::proofs::MessageLemmas::begins_further))]
fn push_fault(text: &mut Vec<u8>, fault: MsgFault) -> Result<(), AllocError>
    ensures added { OnOk result (Adds text.old text.new (item_line (Malformed fault))) }
    ensures kept { StillBegins text.old text.new }
{
    push_str(text, "  bad ")?;
    push_str(text, kind_word(fault.kind))?;
    push_number(text, " type=", fault.message_type)?;
    push_number(text, " at=", fault.offset)?;
    push_str(text, "\n")
}

/// Appends the line of an item of an NSP message.
#[tactic(auto, unfolding(texts::specs::Adding::StillBegins))]
#[inline(always)]
fn push_item(text: &mut Vec<u8>, item: &Item<'_>) -> Result<(), AllocError>
    ensures added { OnOk result (Adds text.old text.new (item_line item.now)) }
    ensures kept { StillBegins text.old text.new }
{
    match item {
        Item::Whole(message) => push_message(text, message),
        Item::Malformed(fault) => push_fault(text, *fault),
    }
}

/// Appends the line of an item, with its words if they are wanted.
#[tactic(auto, unfolding(texts::specs::Adding::StillBegins))]
#[inline(always)]
fn push_item_line(text: &mut Vec<u8>, item: &Item<'_>, in_words: bool) -> Result<(), AllocError>
    ensures added { OnOk result (Adds text.old text.new (item_line_in in_words item.now)) }
    ensures kept { StillBegins text.old text.new }
{
    push_item(text, item)?;
    if in_words {
        return add_item_words(text, item);
    }
    Ok(())
}

/// Appends the lines of an NSP message, with their words if these are wanted. Fails only if memory is refused.
#[tactic(auto, unfolding(texts::specs::Adding::StillBegins))]
pub fn push_messages(
    text: &mut Vec<u8>,
    nsp_message: &[u8],
    in_words: bool,
) -> Result<(), AllocError>
    ensures added { OnOk result
        (AddsSome text.old text.new (IsMessagesText in_words nsp_message.now)) }
    ensures kept { StillBegins text.old text.new }
{
    let mut at = 0;
    'items: loop {
        let (item, next) = item_at(nsp_message, at);
        push_item_line(text, &item, in_words)?;
        if next == nsp_message.len() {
            return Ok(());
        }
        at = next;
    }
}
