//! What both ends say of limits and numbers, and the messages that both of them write.

ghost use Rattle.std.specs.Prelude.{◌≡◌, ◌≤◌, ◌<◌, ◌^◌, length};
ghost use Rattle.dap_msg.specs.BothEnds as both;

use crate::message::{Attributes, Completion, Configuration, Message};

/// The maximum length of a message that any end takes, in bytes.
pub const MAX_MESSAGE: u16 = 65535;

/// The minimum of BUFSIZ, in bytes, except 0, which sets no limit.
pub const MIN_BUFFER: u16 = 64;

/// OSTYPE and FILESYS of an end of which nothing else is asked.
const PLAIN_OSTYPE: u8 = 7;

const PLAIN_FILESYS: u8 = 3;

/// OSTYPE and FILESYS of a system whose files are read and written by record (from memory).
const RECORD_OSTYPE: u8 = 18;

const RECORD_FILESYS: u8 = 13;

/// The version of the protocol, as each end sends it in its Configuration.
const VERNUM: u8 = 5;

const ECONUM: u8 = 6;

/// What both ends can do, as bits of SYSCAP (DAP 5.6.0, Configuration message; the table of bits is from memory):
/// sequential and relative files (1, 2), sequential transfer (5), access by record number (6) and by record file
/// address (10), switching the access (12), append (13), blocking up to a response and without limit (18, 19), two
/// bytes of LENGTH (20), sequential record access (33).
const ABILITIES: u128 = 1 << 1
    | 1 << 2
    | 1 << 5
    | 1 << 6
    | 1 << 10
    | 1 << 12
    | 1 << 13
    | 1 << 18
    | 1 << 19
    | 1 << 20
    | 1 << 33;

/// States that the limits are those that the definitions name.
pub fn names_the_limits()
    ensures greatest { MAX_MESSAGE ≡ both.max_nsp_message }
    ensures least { MIN_BUFFER ≡ both.min_buffer }
{}

/// Returns whether a BUFSIZ, in bytes, is too small for the exchange: 1 to 63.
pub fn is_too_small(bufsiz: u16) -> bool
    ensures { result ≡ both.is_too_small bufsiz }
{
    bufsiz > 0 && bufsiz < MIN_BUFFER
}

/// Returns the maximum length, in bytes, of a message that an end with this BUFSIZ takes: [`MAX_MESSAGE`] where that
/// is 0 (DAP 5.6.0, Configuration message).
pub fn limit_of(bufsiz: u16) -> u16
    ensures { result ≡ both.message_limit bufsiz }
{
    if bufsiz == 0 { MAX_MESSAGE } else { bufsiz }
}

/// Returns the number that an image of at most 8 bytes encodes, the lowest byte first; 0 where it is empty (DAP 5.6.0,
/// message format notation, an image field).
pub fn number_of(image: &[u8]) -> u64
    requires { length image.now ≤ 8 }
    ensures exact { result ≡ both.number_of image.now }
    ensures small { result < 256 ^ length image.now }
{
    dap_fields::number_of(image)
}

impl Configuration {
    /// Returns what an end says of itself where nothing else is asked for, with its BUFSIZ in bytes: OSTYPE 7, FILESYS
    /// 3, DAP version 5.6, no SYSCAP (DAP 5.6.0, Configuration message).
    pub fn plain(bufsiz: u16) -> Configuration
        ensures { result ≡ both.plain_identity bufsiz }
    {
        Configuration {
            bufsiz,
            ostype: PLAIN_OSTYPE,
            filesys: PLAIN_FILESYS,
            vernum: VERNUM,
            econum: ECONUM,
            usrnum: 0,
            softver: 0,
            usrsoft: 0,
            syscap: 0,
        }
    }

    /// Returns what is true of both ends, with a BUFSIZ in bytes: OSTYPE 18, FILESYS 13, DAP version 5.6, and SYSCAP
    /// with what they can do (DAP 5.6.0, Configuration message; the bits are from memory).
    pub fn truthful(bufsiz: u16) -> Configuration
        ensures { result ≡ both.true_identity bufsiz }
    {
        Configuration {
            ostype: RECORD_OSTYPE,
            filesys: RECORD_FILESYS,
            syscap: ABILITIES,
            ..Configuration::plain(bufsiz)
        }
    }
}

impl<'a> Attributes<'a> {
    /// Returns Attributes with no field (DAP 5.6.0, Attributes message).
    pub fn none() -> Attributes<'a>
        ensures { result ≡ both.no_attributes }
    {
        Attributes {
            datatype: None,
            org: None,
            rfm: None,
            rat: None,
            bls: None,
            mrs: None,
            alq: None,
            bks: None,
            fsz: None,
            mrn: None,
            runsys: None,
            deq: None,
            fop: None,
            bsz: None,
            dev: None,
            sdc: None,
            lrl: None,
            hbk: None,
            ebk: None,
            ffb: None,
            sbn: None,
        }
    }
}

impl<'a> Message<'a> {
    /// Returns the Config that each end sends, with its BUFSIZ in bytes (DAP 5.6.0, Configuration message).
    pub fn config_of(bufsiz: u16) -> Message<'a>
        ensures { result ≡ both.config_of bufsiz }
    {
        Message::Config(Configuration::plain(bufsiz))
    }

    /// Returns an Access Complete with this CMPFUNC and nothing else (DAP 5.6.0, Access Complete message).
    pub fn complete_with(func: u8) -> Message<'a>
        ensures { result ≡ both.complete_with func }
    {
        Message::Accomp(Completion {
            func,
            fop: 0,
            check: None,
        })
    }
}
