//! What is in an NSP message.

ghost use Rattle.std.specs.Prelude.{◌≡◌, ◌<◌, ℕ, ◌≤◌, length};
ghost use Rattle.dap_msg.specs.Items.{Item as TheItem, ItemAt, Whole};
ghost use Rattle.dap_msg.specs.Message.{Message as Meaning};
ghost use Rattle.dap_msg.specs.Decoding.{IsSpelled};

use crate::decoding::decode_value;
use crate::fault::MsgFault;
use crate::message::Message;

/// What is at an offset of an NSP message.
#[derive(Drop, PartialEq)]
pub enum Item<'a> {
    /// A message.
    Whole(Message<'a>),
    /// The remaining bytes of the NSP message, of which no message can be read, with their first fault. The fault's
    /// offset is counted in bytes from the start of the NSP message, and [`crate::status_for`] gives the code of the
    /// Status that answers it.
    Malformed(MsgFault),
}

/// Returns the item that begins at an offset of an NSP message, and the offset where the next one begins, which is the
/// NSP message's length where none follows. The offset is at most the length; before the end the next offset is always
/// greater.
#[inline(always)]
pub fn item_at(nsp_message: &[u8], at: usize) -> (Item<'_>, usize)
    requires { at ≤ length nsp_message.now }
    ensures exact { ItemAt nsp_message.now at result.0 result.1 }
    ensures only { (item : TheItem) (next : ℕ) → ItemAt nsp_message.now at item next
        → (item ≡ result.0) × (next ≡ result.1) }
    ensures within { result.1 ≤ length nsp_message.now }
    ensures further { at < length nsp_message.now → at < result.1 }
    ensures fields { (m : Meaning) → result.0 ≡ Whole m → IsSpelled m }
{
    let (_before, rest) = nsp_message.split_at(at);
    match decode_value(rest) {
        Ok((message, len)) => (Item::Whole(message), at + len),
        Err(fault) => (
            Item::Malformed(MsgFault {
                kind: fault.kind,
                message_type: fault.message_type,
                offset: at + fault.offset,
            }),
            nsp_message.len(),
        ),
    }
}
