//! What the numbers of a listing mean.

ghost use Rattle.std.specs.Prelude.{◌≡◌, ◌<◌, [], length, map, option_copied};
ghost use Rattle.std.specs.Option.{option_map_or};
ghost use Rattle.dap_meanings.specs.Tables as tables;
ghost use Rattle.dap_meanings.specs.Tables.{word_in};
ghost use Rattle.dap_meanings.specs.Meanings.{if_there};
ghost use Rattle.dap_meanings.specs.Words.{entry_of, named, word_list};

use crate::words::Word;
use dap_msg::codes;

/// A number, and what it says.
#[derive(Clone, Copy)]
pub struct Entry {
    pub number: u16,
    pub word: &'static str,
}

/// OSTYPE (DAP 5.6.0, Configuration message). All but 7 are from memory.
const SYSTEMS: [Entry; 10] = [
    Entry {
        number: 1,
        word: "RT-11",
    },
    Entry {
        number: 2,
        word: "RSTS/E",
    },
    Entry {
        number: 3,
        word: "RSX-11S",
    },
    Entry {
        number: 4,
        word: "RSX-11M",
    },
    Entry {
        number: 6,
        word: "IAS",
    },
    Entry {
        number: 7,
        word: "VAX/VMS",
    },
    Entry {
        number: 8,
        word: "TOPS-20",
    },
    Entry {
        number: 9,
        word: "TOPS-10",
    },
    Entry {
        number: 12,
        word: "RSX-11M-PLUS",
    },
    Entry {
        number: 18,
        word: "Ultrix-32",
    },
];

/// ORG (DAP 5.6.0, Attributes message).
const ORGANIZATIONS: [Entry; 3] = [
    Entry {
        number: 0,
        word: "sequential",
    },
    Entry {
        number: 16,
        word: "relative",
    },
    Entry {
        number: 32,
        word: "indexed",
    },
];

/// RFM (DAP 5.6.0, Attributes message).
const FORMATS: [Entry; 5] = [
    Entry {
        number: 0,
        word: "undefined",
    },
    Entry {
        number: 1,
        word: "fixed",
    },
    Entry {
        number: 2,
        word: "variable",
    },
    Entry {
        number: 3,
        word: "VFC",
    },
    Entry {
        number: 4,
        word: "stream",
    },
];

/// ACCFUNC (DAP 5.6.0, Access message).
const ACCESS_FUNCTIONS: [Entry; 2] = [
    Entry {
        number: 1,
        word: "open",
    },
    Entry {
        number: 2,
        word: "create",
    },
];

/// CTLFUNC (DAP 5.6.0, Control message).
const CONTROL_FUNCTIONS: [Entry; 6] = [
    Entry {
        number: 1,
        word: "get",
    },
    Entry {
        number: 2,
        word: "connect",
    },
    Entry {
        number: 3,
        word: "update",
    },
    Entry {
        number: 4,
        word: "put",
    },
    Entry {
        number: 5,
        word: "delete",
    },
    Entry {
        number: 6,
        word: "rewind",
    },
];

/// RAC (DAP 5.6.0, Control message).
const RECORD_ACCESSES: [Entry; 4] = [
    Entry {
        number: 0,
        word: "sequential",
    },
    Entry {
        number: 1,
        word: "by number",
    },
    Entry {
        number: 2,
        word: "by RFA",
    },
    Entry {
        number: 3,
        word: "whole file",
    },
];

/// CONFUNC (DAP 5.6.0, Continue Transfer message).
const CONTINUE_FUNCTIONS: [Entry; 4] = [
    Entry {
        number: 1,
        word: "try again",
    },
    Entry {
        number: 2,
        word: "skip",
    },
    Entry {
        number: 3,
        word: "abort",
    },
    Entry {
        number: 4,
        word: "resume",
    },
];

/// CMPFUNC (DAP 5.6.0, Access Complete message).
const COMPLETE_FUNCTIONS: [Entry; 5] = [
    Entry {
        number: 1,
        word: "close",
    },
    Entry {
        number: 2,
        word: "response",
    },
    Entry {
        number: 3,
        word: "purge",
    },
    Entry {
        number: 4,
        word: "end of stream",
    },
    Entry {
        number: 5,
        word: "skip",
    },
];

/// The types of the messages that aren't decoded (DAP 5.6.0, message formats).
const OTHER_TYPES: [Entry; 7] = [
    Entry {
        number: 10,
        word: "key definition",
    },
    Entry {
        number: 11,
        word: "allocation",
    },
    Entry {
        number: 12,
        word: "summary",
    },
    Entry {
        number: 13,
        word: "date and time",
    },
    Entry {
        number: 14,
        word: "protection",
    },
    Entry {
        number: 15,
        word: "name",
    },
    Entry {
        number: 16,
        word: "access control list",
    },
];

/// STSCODE (DAP 5.6.0, Status message), where MACCODE and MICCODE together have a word. All but `5027` and `4032` are from
/// memory.
const STATUS_CODES: [Entry; 16] = [
    Entry {
        number: codes::END_OF_FILE,
        word: "end of file",
    },
    Entry {
        number: codes::FILE_NOT_FOUND,
        word: "file not found",
    },
    Entry {
        number: 0x4030,
        word: "file locked",
    },
    Entry {
        number: codes::RMS_FILE_EXISTS,
        word: "file exists",
    },
    Entry {
        number: codes::RMS_ACCESS_NOT_PERMITTED,
        word: "not permitted",
    },
    Entry {
        number: codes::RMS_BAD_ATTRIBUTES,
        word: "bad attributes",
    },
    Entry {
        number: codes::RMS_NOT_PERMITTED,
        word: "not permitted",
    },
    Entry {
        number: codes::RMS_NO_CURRENT,
        word: "no current record",
    },
    Entry {
        number: codes::RMS_RECORD_NOT_FOUND,
        word: "record not found",
    },
    Entry {
        number: codes::RMS_RECORD_EXISTS,
        word: "record exists",
    },
    Entry {
        number: codes::RMS_NUMBER_OUT_OF_RANGE,
        word: "number out of range",
    },
    Entry {
        number: codes::RMS_BAD_LENGTH,
        word: "bad length",
    },
    Entry {
        number: codes::RMS_BAD_ACCESS_MODE,
        word: "bad access mode",
    },
    Entry {
        number: codes::RMS_DELETE_NOT_ALLOWED,
        word: "delete not allowed",
    },
    Entry {
        number: codes::RMS_TOO_LARGE_FOR_BUFFER,
        word: "too large for buffer",
    },
    Entry {
        number: codes::RMS_BAD_KEY,
        word: "bad key",
    },
];

/// The reason in STV of a refused Access or operation on a record.
const REASONS: [Entry; 12] = [
    Entry {
        number: 1,
        word: "file exists",
    },
    Entry {
        number: 2,
        word: "not permitted",
    },
    Entry {
        number: 3,
        word: "no current record",
    },
    Entry {
        number: 4,
        word: "record not found",
    },
    Entry {
        number: 5,
        word: "record exists",
    },
    Entry {
        number: 6,
        word: "number out of range",
    },
    Entry {
        number: 7,
        word: "bad length",
    },
    Entry {
        number: 8,
        word: "bad access mode",
    },
    Entry {
        number: 9,
        word: "delete not allowed",
    },
    Entry {
        number: 10,
        word: "too large for buffer",
    },
    Entry {
        number: 11,
        word: "bad attributes",
    },
    Entry {
        number: 12,
        word: "bad key",
    },
];

/// MACCODE (DAP 5.6.0, Status message).
const STATUS_KINDS: [Entry; 10] = [
    Entry {
        number: 0,
        word: "pending",
    },
    Entry {
        number: 1,
        word: "success",
    },
    Entry {
        number: 2,
        word: "unsupported",
    },
    Entry {
        number: 4,
        word: "error on opening",
    },
    Entry {
        number: 5,
        word: "transfer error",
    },
    Entry {
        number: 6,
        word: "transfer warning",
    },
    Entry {
        number: 7,
        word: "termination error",
    },
    Entry {
        number: 8,
        word: "format",
    },
    Entry {
        number: 9,
        word: "invalid",
    },
    Entry {
        number: 10,
        word: "out of synchronization",
    },
];

/// Returns the word of a number, if the table has one.
pub fn find(table: &[Entry], number: u16) -> Option<&'static str>
    ensures { if_there named result ≡ word_in (map entry_of table.now) number }
{
    for entry in table {
        if entry.number == number {
            return Some(entry.word);
        }
    }
    None
}

/// Returns what a number says, if the table has a word of it.
pub fn word_of(table: &[Entry], number: u16) -> Word<'static>
    ensures { word_list result ≡ word_in (map entry_of table.now) number }
{
    match find(table, number) {
        Some(word) => Word::Named(word),
        None => Word::Nothing,
    }
}

/// Returns the word of OSTYPE.
pub(crate) fn system(ostype: u8) -> Word<'static>
    ensures { word_list result ≡ word_in tables.systems ostype }
{
    word_of(&SYSTEMS, u16::from(ostype))
}

/// Returns the word of ORG.
pub(crate) fn organization(org: u8) -> Word<'static>
    ensures { word_list result ≡ word_in tables.organizations org }
{
    word_of(&ORGANIZATIONS, u16::from(org))
}

/// Returns the word of RFM.
pub(crate) fn format(rfm: u8) -> Word<'static>
    ensures { word_list result ≡ word_in tables.formats rfm }
{
    word_of(&FORMATS, u16::from(rfm))
}

/// Returns the word of ACCFUNC.
pub(crate) fn access_function(func: u8) -> Word<'static>
    ensures { word_list result ≡ word_in tables.access_functions func }
{
    word_of(&ACCESS_FUNCTIONS, u16::from(func))
}

/// Returns the word of CTLFUNC.
pub(crate) fn control_function(func: u8) -> Word<'static>
    ensures { word_list result ≡ word_in tables.control_functions func }
{
    word_of(&CONTROL_FUNCTIONS, u16::from(func))
}

/// Returns the word of RAC.
pub(crate) fn record_access(rac: u8) -> Word<'static>
    ensures { word_list result ≡ word_in tables.record_accesses rac }
{
    word_of(&RECORD_ACCESSES, u16::from(rac))
}

/// Returns the word of CONFUNC.
pub(crate) fn continue_function(func: u8) -> Word<'static>
    ensures { word_list result ≡ word_in tables.continue_functions func }
{
    word_of(&CONTINUE_FUNCTIONS, u16::from(func))
}

/// Returns the word of CMPFUNC.
pub(crate) fn complete_function(func: u8) -> Word<'static>
    ensures { word_list result ≡ word_in tables.complete_functions func }
{
    word_of(&COMPLETE_FUNCTIONS, u16::from(func))
}

/// Returns the word of a message's type.
pub(crate) fn other_type(number: u8) -> Word<'static>
    ensures { word_list result ≡ word_in tables.other_types number }
{
    word_of(&OTHER_TYPES, u16::from(number))
}

/// Returns the word of a reason.
pub(crate) fn reason(stv: u8) -> Word<'static>
    ensures { word_list result ≡ word_in tables.reason_table stv }
{
    word_of(&REASONS, u16::from(stv))
}

/// Returns the word of STSCODE as a whole.
pub(crate) fn status_code(code: u16) -> Word<'static>
    ensures { word_list result ≡ word_in tables.status_codes code }
{
    word_of(&STATUS_CODES, code)
}

/// Returns the word of MACCODE.
pub(crate) fn status_kind(maccode: u16) -> Word<'static>
    ensures { word_list result ≡ word_in tables.status_kinds maccode }
{
    word_of(&STATUS_KINDS, maccode)
}
