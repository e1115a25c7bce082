//! What a schedule prints of its events.

ghost use Rattle.std.specs.Prelude.{◌≡◌, ◌<◌, OnOk, length, option_copied};
ghost use Rattle.dap_events.specs.declared.event.Event.TheVariants as event;
ghost use Rattle.dap_world.specs.Machine.{reports_by_a, end_of};
ghost use Rattle.dap_world.specs.Naming.{NamedIsThere};
ghost use Rattle.dap_world.specs.Runs.{writing_end};
ghost use Rattle.texts.specs.Adding.{Adds};
ghost use Rattle.texts.specs.Adding.{AddsSome};
ghost use Rattle.dap_orders.specs.Orders.{event_of_order};
ghost use Rattle.dap_capture.specs.Inner.Playing.{AddsStep, IsPacketAt};
ghost use Rattle.dap_capture.specs.Played.{IsPacketWritten, IsStepText, end_text, refusal_line, refusal_text};

use dap_orders::Order;
use dap_text::{ask_word, got_word, push_report};
use dap_world::{End, Step, World, WorldFault};
use std::alloc::AllocError;
use texts::{push_decimal, push_hex, push_number, push_str};

/// Returns the word for an end.
fn end_word(end: End) -> &'static str
    ensures { result.now ≡ end_text end }
{
    match end {
        End::A => "a",
        End::B => "b",
    }
}

/// Returns the word for a refusal; out of memory has none.
pub(crate) fn refusal_word(fault: WorldFault) -> Option<&'static str>
    ensures { option_copied result ≡ refusal_text fault }
{
    match fault {
        WorldFault::NoSuchPacket => Some("no-such-packet"),
        WorldFault::Stale => Some("stale"),
        WorldFault::NothingToDo => Some("nothing-to-do"),
        WorldFault::Ask(fault) => ask_word(fault),
        WorldFault::Exhausted => Some("exhausted"),
        WorldFault::NoMemory | WorldFault::BadSetup => None,
    }
}

/// Returns the end that writes a packet in the event of this order.
fn writing_end<'a>(order: &Order<'a>) -> Option<End>
    ensures { result ≡ writing_end (event_of_order order.now) }
{
    match order {
        Order::Emit(end) | Order::Resend(end, _) | Order::Ack(end) => Some(*end),
        _ => None,
    }
}

/// Returns the packet at an index of an end's wire.
fn packet_at(world: &World, end: End, index: usize) -> &[u8]
    requires { index < length (end_of world.now end).wire }
    ensures { IsPacketAt world.now end index result.now }
{
    let wire = world.wire(end);
    wire[index].packet.as_slice()
}

/// Appends the packet at an index of an end's wire.
fn push_packet(text: &mut Vec<u8>, world: &World, end: End, index: usize) -> Result<(), AllocError>
    requires { index < length (end_of world.now end).wire }
    ensures { OnOk result (AddsSome text.old text.new (IsPacketWritten world.now end index)) }
{
    push_str(text, "packet ")?;
    push_str(text, end_word(end))?;
    push_number(text, " ", index)?;
    push_str(text, " ")?;
    push_hex(text, packet_at(world, end, index))
}

/// Appends the newest report.
fn push_newest(text: &mut Vec<u8>, world: &World) -> Result<(), AllocError>
    requires { 0 < length (reports_by_a world.now) }
    ensures { OnOk result (AddsSome text.old text.new
        (IsStepText world.now event.Read Step.Reported)) }
{
    let Some(newest) = world.reports().last() else {
        unreachable!()
    };
    push_str(text, "report ")?;
    push_report(text, newest)
}

/// Appends what a step says.
fn push_step<'a>(
    text: &mut Vec<u8>,
    world: &World,
    order: &Order<'a>,
    step: Step,
) -> Result<(), AllocError>
    requires { NamedIsThere (event_of_order order.now) step world.now }
    ensures { OnOk result (AddsSome text.old text.new
        (IsStepText world.now (event_of_order order.now) step)) }
{
    match step {
        Step::Asked(count) => push_number(text, "asked ", count),
        Step::Posted(count) => push_number(text, "posted ", count),
        Step::Packet(index) => {
            let Some(end) = writing_end(order) else {
                unreachable!()
            };
            push_packet(text, world, end, index)
        }
        Step::Delivered(got) => push_str(text, got_word(got)),
        Step::Served(count) => push_number(text, "served ", count),
        Step::Nothing => push_str(text, "read"),
        Step::Reported => push_newest(text, world),
    }
}

/// Appends the line of an event that came to a step.
pub(crate) fn push_event<'a>(
    text: &mut Vec<u8>,
    number: usize,
    world: &World,
    order: &Order<'a>,
    step: Step,
) -> Result<(), AllocError>
    requires { NamedIsThere (event_of_order order.now) step world.now }
    ensures { OnOk result
        (AddsStep number world.now (event_of_order order.now) step text.old text.new) }
{
    push_decimal(text, number)?;
    push_str(text, " ")?;
    push_step(text, world, order, step)?;
    push_str(text, "\n")
}

/// Appends the line of an event that was refused.
pub(crate) fn push_refusal(text: &mut Vec<u8>, number: usize, word: &str) -> Result<(), AllocError>
    ensures { OnOk result (Adds text.old text.new (refusal_line number word.now)) }
{
    push_decimal(text, number)?;
    push_str(text, " refused ")?;
    push_str(text, word)?;
    push_str(text, "\n")
}
