//! What the numbers of packets that set up and close links mean.

ghost use Rattle.std.specs.Prelude.{◌≡◌};
ghost use Rattle.dap_meanings.specs.Meanings.{if_there};
ghost use Rattle.dap_meanings.specs.Tables.{word_in};
ghost use Rattle.dap_meanings.specs.Words.{named, word_list};
ghost use Rattle.link_words.specs.Tables as tables;

use dap_meanings::{Entry, Word, find, word_of};

/// MSGFLG (NSP 4.0.0, message formats): the packets that set up a link and take it down.
const CONTROL_PACKETS: [Entry; 6] = [
    Entry {
        number: 0x08,
        word: "no operation",
    },
    Entry {
        number: 0x18,
        word: "connect initiate",
    },
    Entry {
        number: 0x28,
        word: "connect confirm",
    },
    Entry {
        number: 0x38,
        word: "disconnect initiate",
    },
    Entry {
        number: 0x48,
        word: "disconnect confirm",
    },
    Entry {
        number: 0x68,
        word: "connect initiate again",
    },
];

/// Objects that have names (Session Control 1.0.0, from memory).
const OBJECTS: [Entry; 6] = [
    Entry {
        number: 17,
        word: "FAL",
    },
    Entry {
        number: 19,
        word: "NML",
    },
    Entry {
        number: 25,
        word: "MIRROR",
    },
    Entry {
        number: 27,
        word: "MAIL",
    },
    Entry {
        number: 29,
        word: "PHONE",
    },
    Entry {
        number: 42,
        word: "CTERM",
    },
];

/// Why a link is refused or closed (NSP 4.0.0, disconnect initiate and disconnect confirm messages; from memory).
const DISCONNECT_REASONS: [Entry; 21] = [
    Entry {
        number: 0,
        word: "no error",
    },
    Entry {
        number: 1,
        word: "no resources",
    },
    Entry {
        number: 2,
        word: "unknown node",
    },
    Entry {
        number: 3,
        word: "the node is shutting down",
    },
    Entry {
        number: 4,
        word: "unknown object",
    },
    Entry {
        number: 5,
        word: "a name that is no object's",
    },
    Entry {
        number: 6,
        word: "busy",
    },
    Entry {
        number: 7,
        word: "unspecified error",
    },
    Entry {
        number: 8,
        word: "aborted by management",
    },
    Entry {
        number: 9,
        word: "aborted",
    },
    Entry {
        number: 10,
        word: "a name that is no node's",
    },
    Entry {
        number: 11,
        word: "the local node is shut down",
    },
    Entry {
        number: 32,
        word: "the node has no room for another link",
    },
    Entry {
        number: 33,
        word: "the object has no room for another link",
    },
    Entry {
        number: 34,
        word: "the user or the password was rejected",
    },
    Entry {
        number: 36,
        word: "the account was rejected",
    },
    Entry {
        number: 38,
        word: "the object didn't answer",
    },
    Entry {
        number: 39,
        word: "the node can't be reached",
    },
    Entry {
        number: 41,
        word: "no such link",
    },
    Entry {
        number: 42,
        word: "disconnect complete",
    },
    Entry {
        number: 43,
        word: "a field of the connect message is too long",
    },
];

/// Returns the word of a packet's first byte.
pub(crate) fn control_packet(flag: u8) -> Word<'static>
    ensures { word_list result ≡ word_in tables.control_packets flag }
{
    word_of(&CONTROL_PACKETS, u16::from(flag))
}

/// Returns the name of an object.
pub(crate) fn object(number: u8) -> Option<&'static str>
    ensures { if_there named result ≡ word_in tables.objects number }
{
    find(&OBJECTS, u16::from(number))
}

/// Returns why a link is refused or closed.
pub(crate) fn disconnect_reason(reason: u16) -> Word<'static>
    ensures { word_list result ≡ word_in tables.disconnect_reasons reason }
{
    word_of(&DISCONNECT_REASONS, reason)
}
