//! What a link sends again, and what it waits for.

ghost use Rattle.std.specs.Prelude.{◌≡◌, [], OnOk, IfOk};
ghost use Rattle.dap_msg.specs.Blocked.{bodies};
ghost use Rattle.nsp_link.specs.Sending.{may_queue as may_queue_on};
ghost use Rattle.dap_live.specs.Sending.{SaysAck, has_message as has_message_on, is_left as is_left_of, waits_of};
ghost use Rattle.dap_live.specs.Inner.Again.{AddsAgain, AddsOneAgain};

use crate::answers::{push_link_refusal, push_packet};
use linewise::Became;
use nsp_link::{LinkEnd, LinkFault};
use std::alloc::AllocError;

/// Returns whether an NSP message that came is left.
pub(crate) fn has_message(link: &LinkEnd) -> bool
    ensures { result ≡ has_message_on link.now }
{
    link.peek_message().is_some()
}

/// Returns whether the link takes these NSP messages, memory aside.
fn may_queue(link: &LinkEnd, messages: &[Vec<u8>]) -> bool
    ensures { result ≡ may_queue_on link.now (bodies messages.now) }
{
    match link.check_messages(messages) {
        Ok(()) => true,
        Err(_) => false,
    }
}

/// Returns whether something is left that an end would do by itself, with these NSP messages that wait.
pub(crate) fn is_left(link: &LinkEnd, outbox: &[Vec<u8>], more: bool) -> bool
    ensures { result ≡ is_left_of link.now (bodies outbox.now) more }
{
    may_queue(link, outbox) && (!outbox.is_empty() || more || link.may_send())
}

/// Returns how many packets would be sent again, and one more where something is left.
pub(crate) fn waits(link: &LinkEnd, left: bool) -> usize
    ensures { result ≡ waits_of link.now left }
{
    if link.has_failed() {
        return 0;
    }
    link.unacked() + usize::from(left)
}

/// Appends the line of a segment that isn't acknowledged.
fn push_one_again(link: &LinkEnd, index: usize, text: &mut Vec<u8>) -> Result<(), AllocError>
    ensures { OnOk result (AddsOneAgain link.now index text.old text.new) }
{
    match link.resend(index) {
        Ok(packet) => push_packet(text, &packet),
        Err(_) => Err(AllocError),
    }
}

/// Appends the lines of all segments that aren't acknowledged, of a link that runs.
pub(crate) fn push_again(link: &LinkEnd, text: &mut Vec<u8>) -> Result<(), AllocError>
    ensures { OnOk result (AddsAgain link.now text.old text.new) }
{
    for index in 0..link.unacked() {
        push_one_again(link, index, text)?;
    }
    Ok(())
}

/// Acknowledges all segments that were taken.
pub(crate) fn say_ack(link: &LinkEnd, text: &mut Vec<u8>) -> Result<Became, AllocError>
    requires { text.old.items ≡ [] }
    ensures { IfOk result (λ became. (became ≡ Became.Done) × SaysAck link.now text.new.items) }
{
    if link.has_failed() {
        return push_link_refusal(text, LinkFault::Failed);
    }
    match link.ack_packet() {
        Ok(packet) => push_packet(text, &packet)?,
        Err(_) => return Err(AllocError),
    }
    Ok(Became::Done)
}
