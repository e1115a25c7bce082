//! The answers to operations that change a file, and to refusals.

ghost use Rattle.std.specs.Prelude.{◌≡◌, []};
ghost use Rattle.dap_msg.specs.BothEnds.{four_bytes};
ghost use Rattle.dap_accessed.specs.Replies.{reason_of, record_status, refusal_status};
ghost use Rattle.dap_accessed.specs.Inner.Written.{IsShortReply, reply_message};

use crate::answers::Answer;
use dap_msg::codes::{
    END_OF_FILE, REASON_BAD_ACCESS_MODE, REASON_BAD_KEY, REASON_BAD_LENGTH,
    REASON_DELETE_NOT_ALLOWED, REASON_NO_CURRENT, REASON_NOT_PERMITTED, REASON_NUMBER_OUT_OF_RANGE,
    REASON_RECORD_EXISTS, REASON_RECORD_NOT_FOUND, RECORD_REFUSED,
};
use rec_file::Refusal;

/// Returns the one byte of STV for the reason of a refusal of an operation on a record, 0 where it has none.
pub fn reason_number(refusal: Refusal) -> u8
    ensures { result ≡ reason_of refusal }
{
    match refusal {
        Refusal::NotPermitted => REASON_NOT_PERMITTED,
        Refusal::NoCurrent => REASON_NO_CURRENT,
        Refusal::RecordNotFound => REASON_RECORD_NOT_FOUND,
        Refusal::RecordExists => REASON_RECORD_EXISTS,
        Refusal::NumberOutOfRange => REASON_NUMBER_OUT_OF_RANGE,
        Refusal::BadLength => REASON_BAD_LENGTH,
        Refusal::BadAccessMode => REASON_BAD_ACCESS_MODE,
        Refusal::DeleteNotAllowed => REASON_DELETE_NOT_ALLOWED,
        Refusal::BadKey => REASON_BAD_KEY,
        Refusal::EndOfFile | Refusal::NoMemory => 0,
    }
}

/// Returns the Status of a refusal.
pub(crate) fn refused<'a>(refusal: Refusal) -> Answer<'a>
    ensures message { reply_message result ≡ refusal_status refusal [] }
    ensures short { IsShortReply result }
{
    match refusal {
        Refusal::EndOfFile => Answer::Status(END_OF_FILE),
        _ => Answer::Reason {
            code: RECORD_REFUSED,
            reason: [reason_number(refusal)],
        },
    }
}

/// Returns the Status of the refusal of a Filedata of a Store.
pub(crate) fn store_refused<'a>(refusal: Refusal, ordinal: u32) -> Answer<'a>
    ensures message { reply_message result ≡ refusal_status refusal (four_bytes ordinal) }
    ensures short { IsShortReply result }
{
    match refusal {
        Refusal::EndOfFile => Answer::Status(END_OF_FILE),
        _ => Answer::StoreRefusal {
            code: RECORD_REFUSED,
            reason: [reason_number(refusal)],
            ordinal: ordinal.to_le_bytes(),
        },
    }
}

/// Returns the Status of a PUT, an UPDATE or a DELETE.
pub(crate) fn settled<'a>(reply: Result<u32, Refusal>) -> Answer<'a>
    ensures message { reply_message result ≡ record_status reply }
    ensures short { IsShortReply result }
{
    match reply {
        Ok(number) => Answer::Done(number.to_le_bytes()),
        Err(refusal) => refused(refusal),
    }
}
