//! What the ends wrote, and what is stale of it.

ghost use Rattle.std.specs.Prelude.{◌≡◌, ◌≢◌, ◌<◌, ◌≤◌, ◌+◌, ◌-◌, ◌++◌, ◌||◌, ◌∷◌, [], length, vec_len, vec_capacity, Some, Ok, IfOk, IfErr, OnOk, OnErr, IsErrOf, slice_get, false, true, IsTrue};
ghost use Rattle.dap_msg.specs.Blocked.{bodies};
ghost use Rattle.nsp_link.specs.Limits.{max_segments};
ghost use Rattle.nsp_link.specs.Link.{may_send, IsSpelling};
ghost use Rattle.nsp_link.specs.Sending.{WritesSent, may_queue, ack_packet_of};
ghost use Rattle.nsp_link.specs.declared.fault.LinkFault.TheVariants.{NoSuchSegment};
ghost use Rattle.nsp_link.specs.declared.fault.LinkFault.TheVariants as link_fault;
ghost use Rattle.dap_world.specs.Machine.{is_old};
ghost use Rattle.dap_world.specs.Inner.Sides.{AreWithinLimit, EmitFault, PostFault, ResendFault, WroteWired};
ghost use Rattle.dap_world.specs.Inner.Ways.{NotDue, is_old_segment, is_old_wired};
ghost use Rattle.dap_events.specs.declared.event.WorldFault.TheVariants.{NoMemory};
ghost use Rattle.dap_events.specs.declared.event.Step.TheVariants as step;

use dap_events::{Step, WorldFault};
use nsp_link::{LinkEnd, LinkFault, MAX_AGE};

/// A packet that an end wrote.
#[derive(Drop, PartialEq)]
pub struct Wired {
    /// Its bytes.
    pub packet: Vec<u8>,
    /// The number of its segment, from 1, if it has one.
    pub segment: Option<u64>,
    /// How many segments of the other end it acknowledges.
    pub acks: u64,
}

/// Puts a packet on the wire, which has the room.
pub(crate) fn put(wire: &mut Vec<Wired>, packet: Vec<u8>, segment: Option<u64>, acks: u64) -> Step
    requires { vec_len wire.old < vec_capacity wire.old }
    ensures index { result ≡ step.Packet (length wire.old.items) }
    ensures wire { wire.new.items ≡ wire.old.items ++ record {
      packet = packet;
      segment = segment;
      acks = acks;
    } ∷ [] }
{
    let index = wire.len();
    wire.push_reserved(Wired {
        packet,
        segment,
        acks,
    });
    Step::Packet(index)
}

/// Returns the number of the next segment, and makes room for it on the wire.
pub(crate) fn next_number(link: &LinkEnd, wire: &mut Vec<Wired>) -> Result<u64, WorldFault>
    ensures ok { IfOk result (λ k. IsTrue (may_send link.now) × (k ≡ link.now.sent + 1)) }
    ensures room { OnOk result (vec_len wire.new < vec_capacity wire.new) }
    ensures same { wire.new.items ≡ wire.old.items }
    ensures err { IfErr result (EmitFault link.now) }
{
    if !link.may_send() {
        return Err(WorldFault::NothingToDo);
    }
    wire.reserve(1)?;
    Ok(link.sent_count() + 1)
}

/// Puts a segment on the wire that was written again.
pub(crate) fn again(
    link: &LinkEnd,
    wire: &mut Vec<Wired>,
    index: usize,
    packet: Result<Vec<u8>, LinkFault>,
) -> Result<Step, WorldFault>
    requires wrote { IfOk packet
        (λ v. WritesSent link.now (Some (link.now.acked + 1 + index)) v.items) }
    requires missing { link.now.sent - link.now.acked ≤ index → IsErrOf packet NoSuchSegment }
    requires memory { index < link.now.sent - link.now.acked
        → IfErr packet (λ f. f ≡ link_fault.NoMemory) }
    ensures ok { IfOk result (λ answer. (index < link.now.sent - link.now.acked)
        × WroteWired link.now wire.old.items wire.new.items (Some (link.now.acked + 1 + index))
        answer) }
    ensures err { IfErr result (λ f. (wire.new.items ≡ wire.old.items)
        × ResendFault link.now index f) }
{
    let packet = match packet {
        Ok(packet) => packet,
        Err(LinkFault::NoSuchSegment) => return Err(WorldFault::NothingToDo),
        Err(_) => return Err(WorldFault::NoMemory),
    };
    let segment = Some(link.acked_count() + 1 + index as u64);
    wire.reserve(1)?;
    Ok(put(wire, packet, segment, link.received_count()))
}

/// Puts an acknowledgement on the wire that was written.
pub(crate) fn acknowledge(
    link: &LinkEnd,
    wire: &mut Vec<Wired>,
    packet: Result<Vec<u8>, LinkFault>,
) -> Result<Step, WorldFault>
    requires { IfOk packet (λ v. IsSpelling (ack_packet_of link.now) v.items) }
    ensures ok { IfOk result
        (λ answer. WroteWired link.now wire.old.items wire.new.items None answer) }
    ensures err { IfErr result (λ f. (wire.new.items ≡ wire.old.items) × (f ≡ NoMemory)) }
{
    let Ok(packet) = packet else {
        return Err(WorldFault::NoMemory);
    };
    wire.reserve(1)?;
    Ok(put(wire, packet, None, link.received_count()))
}

/// Returns whether a count is more than 2,047 below another.
fn is_stale(number: u64, now: u64) -> bool
    ensures { result ≡ is_old number now }
{
    now > MAX_AGE && number < now - MAX_AGE
}

/// Returns whether the segment of a packet, where it has one, is more than 2,047 numbers old.
fn is_stale_segment(segment: Option<u64>, taken: u64) -> bool
    requires { taken ≤ max_segments }
    ensures { result ≡ is_old_segment taken segment }
{
    match segment {
        None => false,
        Some(number) => is_stale(number, taken + 1),
    }
}

/// Returns whether the segment or the acknowledgement is more than 2,047 numbers old.
fn is_stale_wired(wired: &Wired, taken: u64, acked: u64) -> bool
    requires { taken ≤ max_segments }
    ensures { result ≡ (is_old_segment taken wired.now.segment || is_old wired.now.acks acked) }
{
    let stale_segment = is_stale_segment(wired.segment, taken);
    let stale_ack = is_stale(wired.acks, acked);
    stale_segment || stale_ack
}

/// Returns the packet at an index of the wire, which isn't stale at the link to which it goes.
pub(crate) fn due<'a>(link: &LinkEnd, wire: &'a [Wired], j: usize) -> Result<&'a Wired, WorldFault>
    ensures ok { IfOk result (λ w. (slice_get wire.now j ≡ Some w.now)
        × (is_old_wired link.now w.now ≡ false)) }
    ensures err { IfErr result (NotDue link.now wire.now j) }
{
    match wire.get(j) {
        None => Err(WorldFault::NoSuchPacket),
        Some(wired) => {
            if is_stale_wired(wired, link.received_count(), link.acked_count()) {
                return Err(WorldFault::Stale);
            }
            Ok(wired)
        }
    }
}

/// Checks whether what waits may be passed on.
pub(crate) fn may_post(link: &LinkEnd, waiting: &[Vec<u8>]) -> Result<(), WorldFault>
    requires running { link.now.failed ≡ false }
    requires short { AreWithinLimit link.now.setup.max_message (bodies waiting.now) }
    ensures some { OnOk result (0 < length waiting.now) }
    ensures may { OnOk result (IsTrue (may_queue link.now (bodies waiting.now))) }
    ensures err { IfErr result (λ f. (f ≢ NoMemory)
        × PostFault link.now (bodies waiting.now) f) }
{
    if waiting.is_empty() {
        return Err(WorldFault::NothingToDo);
    }
    match link.check_messages(waiting) {
        Ok(()) => Ok(()),
        Err(_) => Err(WorldFault::Exhausted),
    }
}
