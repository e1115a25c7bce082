//! The words of packets and messages.

ghost use Rattle.std.specs.Prelude.{◌≡◌, ◌<◌, ◌++◌, [], ◌∷◌, length, OnOk};
ghost use Rattle.std.specs.List.{flat_map};
ghost use Rattle.std.specs.Option.{option_map_or};
ghost use Rattle.dap_msg.specs.declared.message.Message.TheVariants.{Access, Attrib, Control, Filedata, Status};
ghost use Rattle.dap_meanings.specs.Meanings.{if_there, item_words, message_words, first_words, reason_words, refusal_words, record_words, status_words, with_words, KeepsButEnd};
ghost use Rattle.dap_meanings.specs.Tables.{word_in, formats, organizations, record_accesses};
ghost use Rattle.dap_meanings.specs.Words.{word_list};

use crate::quoted::quoted;
use crate::tables;
use crate::words::{Word, add_words, rights_word};
use dap_msg::codes::{ACCESS_REFUSED, RECORD_REFUSED};
use dap_msg::{
    AccessFields, Attributes, Bytes, ControlFields, Item, MessageValue, StatusCode, StatusFields,
    number_of,
};
use std::alloc::AllocError;

/// The maximum of a number's image in bytes.
const NUMBER: usize = 8;

/// Returns what the number of a record says.
fn record_word(image: &[u8]) -> Word<'static>
    ensures { word_list result ≡ record_words image.now }
{
    if image.is_empty() || image.len() > NUMBER {
        return Word::Nothing;
    }
    Word::Record(number_of(image))
}

/// Returns what a KEY says.
fn key_word(key: &Option<Bytes<'_>>) -> Word<'static>
    ensures { word_list result ≡ if_there record_words key.now }
{
    match key {
        Some(image) => record_word(image.0),
        None => Word::Nothing,
    }
}

/// Returns what ORG says.
fn organization_word(org: Option<u8>) -> Word<'static>
    ensures { word_list result ≡ if_there (word_in organizations) org }
{
    match org {
        Some(org) => tables::organization(org),
        None => Word::Nothing,
    }
}

/// Returns what RFM says.
fn format_word(rfm: Option<u8>) -> Word<'static>
    ensures { word_list result ≡ if_there (word_in formats) rfm }
{
    match rfm {
        Some(rfm) => tables::format(rfm),
        None => Word::Nothing,
    }
}

/// Returns what RAC says.
fn access_word(rac: Option<u8>) -> Word<'static>
    ensures { word_list result ≡ if_there (word_in record_accesses) rac }
{
    match rac {
        Some(rac) => tables::record_access(rac),
        None => Word::Nothing,
    }
}

/// Returns what a reason says, which is one byte.
fn reason_word(stv: &[u8]) -> Word<'static>
    ensures { word_list result ≡ reason_words stv.now }
{
    match stv {
        [reason] => tables::reason(*reason),
        _ => Word::Nothing,
    }
}

/// Returns what the first says, or else the other.
fn first_of(first: Word<'static>, other: Word<'static>) -> Word<'static>
    ensures { word_list result ≡ first_words (word_list first.entry) (word_list other.entry) }
{
    match first {
        Word::Nothing => other,
        _ => first,
    }
}

/// Returns what the reason of a status says, if it is that of a refusal.
fn refusal_word(code: u16, stv: &[u8]) -> Word<'static>
    ensures { word_list result ≡ refusal_words code stv.now }
{
    if code == ACCESS_REFUSED || code == RECORD_REFUSED {
        reason_word(stv)
    } else {
        Word::Nothing
    }
}

/// Returns what a status says: its code, or the reason of a refusal, or else MACCODE.
fn status_word(code: u16, stv: &[u8]) -> Word<'static>
    ensures { word_list result ≡ status_words code stv.now }
{
    let whole = tables::status_code(code);
    let refusal = refusal_word(code, stv);
    let kind = tables::status_kind(u16::from(StatusCode(code).major()));
    first_of(whole, first_of(refusal, kind))
}

/// Returns the words of Attributes.
fn attributes_words(attributes: &Attributes<'_>) -> [Word<'static>; 2]
    ensures { flat_map word_list result ≡ message_words (Attrib attributes.now) }
{
    let org = organization_word(attributes.org);
    let rfm = format_word(attributes.rfm);
    [org, rfm]
}

/// Returns the words of an Access.
fn access_words<'a>(access: &AccessFields<'a>) -> [Word<'a>; 3]
    ensures { flat_map word_list result ≡ message_words (Access access.now) }
{
    let func = tables::access_function(access.func);
    let name = quoted(access.name.0);
    let rights = rights_word(access.fac);
    [func, name, rights]
}

/// Returns the words of a Control.
fn control_words(control: &ControlFields<'_>) -> [Word<'static>; 3]
    ensures { flat_map word_list result ≡ message_words (Control control.now) }
{
    let func = tables::control_function(control.func);
    let rac = access_word(control.rac);
    let key = key_word(&control.key);
    [func, rac, key]
}

/// Returns the words of a Data message.
fn data_words<'a>(recnum: &[u8], payload: &'a [u8]) -> [Word<'a>; 2]
    ensures { flat_map word_list result ≡ message_words (Filedata recnum.now payload.now) }
{
    let number = record_word(recnum);
    let record = quoted(payload);
    [number, record]
}

/// Returns the words of a Status.
fn status_words_of(status: &StatusFields<'_>) -> [Word<'static>; 2]
    ensures { flat_map word_list result ≡ message_words (Status status.now) }
{
    let code = status_word(status.code, status.stv.0);
    let number = record_word(status.recnum.0);
    [code, number]
}

/// Puts the words of a message before the end of the last line of a text.
fn add_message_words(text: &mut Vec<u8>, message: &MessageValue<'_>) -> Result<(), AllocError>
    requires { 0 < length text.old.items }
    ensures words { OnOk result
        (text.new.items ≡ with_words (message_words message.now) text.old.items) }
    ensures kept { KeepsButEnd text.old text.new }
{
    match message {
        MessageValue::Config(config) => add_words(text, &[tables::system(config.ostype)]),
        MessageValue::Attrib(attributes) => add_words(text, &attributes_words(attributes)),
        MessageValue::Access(access) => add_words(text, &access_words(access)),
        MessageValue::Control(control) => add_words(text, &control_words(control)),
        MessageValue::Contran { func } => add_words(text, &[tables::continue_function(*func)]),
        MessageValue::Ack => add_words(text, &[]),
        MessageValue::Accomp(complete) => {
            add_words(text, &[tables::complete_function(complete.func)])
        }
        MessageValue::Filedata { recnum, payload } => {
            add_words(text, &data_words(recnum.0, payload.0))
        }
        MessageValue::Status(status) => add_words(text, &status_words_of(status)),
        MessageValue::Other { number, .. } => add_words(text, &[tables::other_type(*number)]),
    }
}

/// Puts the words of an item before the end of the last line of a text. Fails only if memory is refused: then all but
/// that end still stands, with a part of the words or none.
pub fn add_item_words(text: &mut Vec<u8>, item: &Item<'_>) -> Result<(), AllocError>
    requires { 0 < length text.old.items }
    ensures words { OnOk result
        (text.new.items ≡ with_words (item_words item.now) text.old.items) }
    ensures kept { KeepsButEnd text.old text.new }
{
    match item {
        Item::Whole(message) => add_message_words(text, message),
        Item::Malformed(_) => add_words(text, &[]),
    }
}
