//! What a port and whatever serves do: items that came are served, answers are passed on, and packets are written.

ghost use Rattle.std.specs.Prelude.{◌≡◌, ◌<◌, [], Ok, Err, false, length, ℕ, IfOk, IsOk, OnOk, OnErr, MatchOption};
ghost use Rattle.dap_msg.specs.Blocked.{bodies};
ghost use Rattle.dap_msg.specs.Items.{ItemAt};
ghost use Rattle.dap_msg.specs.declared.items.Item.{Item as TheItem};
ghost use Rattle.dap_end.specs.By.{MayServeAt, PortRests, ServedBy, end_with, serves_by};
ghost use Rattle.dap_end.specs.Going.{oldest_message};
ghost use Rattle.dap_end.specs.Turns.{WritesReplies, DidAll, TakesPacket, WentOn};
ghost use Rattle.dap_end.specs.declared.fault.EndFault.TheVariants as end_fault;
ghost use Rattle.std.specs.Result.{result_map_both};
ghost use Rattle.dap_end.specs.Inner.Answered.{ended_by};
ghost use Rattle.dap_end.specs.Inner.Kept.{IsPort};
ghost use Rattle.dap_end.specs.Inner.Turned.{Turned};

use crate::fault::{EndFault, TakeFault};
use crate::port::{Port, is_end};
use dap_accessed::NoMemory;
use dap_msg::item_at;
use dap_shared::Serving;
use nsp_link::{Got, LinkFault};

/// Serves the next DAP message of the oldest NSP message that came.
pub(crate) fn serve_next<S: Serving>(
    port: &mut Port,
    server: &mut S,
    link: usize,
) -> Result<Option<usize>, NoMemory>
    requires kept { IsPort port.old }
    requires link { S.has_link server.old link }
    ensures ok { IfOk result (λ o. MatchOption o
        ((port.new ≡ port.old) × (server.new ≡ server.old) × (MayServeAt port.old → ⊥))
        (λ n. ServedBy (S.serves link) (end_with port.old server.old)
        (end_with port.new server.new) n)) }
    ensures kept { IsPort port.new }
    ensures link { S.has_link server.new link }
    ensures err { OnErr result ((port.new ≡ port.old) × (server.new ≡ server.old)
        × MayServeAt port.old) }
    ensures unrefused { (item : TheItem) (next : ℕ)
        → ItemAt (oldest_message port.old.link.coming.inbox) port.old.offset item next
        → S.is_silent link server.old item → IsOk result }
{
    if !port.outbox.is_empty() {
        return Ok(None);
    }
    let offset = port.offset;
    let message = match port.link.peek_message() {
        None => return Ok(None),
        Some(message) => message,
    };
    let (item, next) = item_at(message, offset);
    let at_end = is_end(message, next);
    let Ok(served) = server.serve(link, item, next) else {
        return Err(NoMemory);
    };
    let answered = served.answers.len();
    port.outbox = served.answers;
    port.advance(at_end, next);
    Ok(Some(answered))
}

/// Passes on what waits, and serves the next item that came, unless as many bytes wait as this. Returns whether it
/// served one.
fn turn<S: Serving>(
    port: &mut Port,
    server: &mut S,
    link: usize,
    most_waiting: u64,
) -> Result<bool, LinkFault>
    requires kept { IsPort port.old }
    requires link { S.has_link server.old link }
    ensures turned { Turned (S.serves link) most_waiting (end_with port.old server.old)
        (end_with port.new server.new) result }
    ensures kept { IsPort port.new }
    ensures link { S.has_link server.new link }
{
    port.post()?;
    if port.waiting_bytes() >= most_waiting {
        return Ok(false);
    }
    match serve_next(port, server, link) {
        Ok(served) => Ok(served.is_some()),
        Err(_) => Err(LinkFault::NoMemory),
    }
}

/// Serves what came while fewer bytes wait than this, and passes each group of answers to the link.
pub(crate) fn serve_all<S: Serving>(
    port: &mut Port,
    server: &mut S,
    link: usize,
    most_waiting: u64,
) -> Result<(), LinkFault>
    requires kept { IsPort port.old }
    requires link { S.has_link server.old link }
    ensures did { DidAll (serves_by (S.serves link) most_waiting) (end_with port.old server.old)
        (end_with port.new server.new) (ended_by result) }
    ensures rests { OnOk result (PortRests most_waiting port.new) }
    ensures idle { OnOk result (port.new.outbox ≡ []) }
    ensures works { OnOk result (port.new.link.failed ≡ false) }
    ensures kept { IsPort port.new }
    ensures link { S.has_link server.new link }
{
    while turn(port, server, link, most_waiting)? {}
    Ok(())
}

/// Serves as `serve_all` does, and then writes all segments that were never sent, as far as the window allows.
pub(crate) fn go_on<S: Serving>(
    port: &mut Port,
    server: &mut S,
    link: usize,
    most_waiting: u64,
    out: &mut Vec<Vec<u8>>,
) -> Result<(), LinkFault>
    requires kept { IsPort port.old }
    requires link { S.has_link server.old link }
    ensures went { WentOn (serves_by (S.serves link) most_waiting) (end_with port.old server.old)
        (end_with port.new server.new) (bodies out.old.items) (bodies out.new.items)
        (result_map_both (λ done. done) end_fault.Link result) }
    ensures rests { OnOk result (PortRests most_waiting port.new) }
    ensures idle { OnOk result (port.new.outbox ≡ []) }
    ensures kept { IsPort port.new }
    ensures link { S.has_link server.new link }
{
    serve_all(port, server, link, most_waiting)?;
    port.emit_all(out)
}

/// Serves and writes as `go_on` does, and then writes what answers a packet that was received.
pub(crate) fn answer<S: Serving>(
    port: &mut Port,
    server: &mut S,
    link: usize,
    got: Got,
    most_waiting: u64,
    out: &mut Vec<Vec<u8>>,
) -> Result<(), LinkFault>
    requires kept { IsPort port.old }
    requires link { S.has_link server.old link }
    ensures answered { WritesReplies (serves_by (S.serves link) most_waiting)
        (end_with port.old server.old) (end_with port.new server.new) got (bodies out.old.items)
        (bodies out.new.items) (ended_by result) }
    ensures kept { IsPort port.new }
    ensures link { S.has_link server.new link }
{
    serve_all(port, server, link, most_waiting)?;
    port.answer(got, out)
}

/// Receives a packet, does what it allows, and writes what answers it.
pub(crate) fn take<S: Serving>(
    port: &mut Port,
    server: &mut S,
    link: usize,
    packet: &[u8],
    most_waiting: u64,
    out: &mut Vec<Vec<u8>>,
) -> Result<Got, TakeFault>
    requires kept { IsPort port.old }
    requires link { S.has_link server.old link }
    ensures takes { TakesPacket (serves_by (S.serves link) most_waiting)
        (end_with port.old server.old)
        (end_with port.new server.new) packet.now (bodies out.old.items) (bodies out.new.items)
        result }
    ensures kept { IsPort port.new }
    ensures link { S.has_link server.new link }
{
    match port.receive(packet) {
        Ok(got) => match answer(port, server, link, got, most_waiting, out) {
            Ok(()) => Ok(got),
            Err(fault) => Err(TakeFault::Unfinished(got, EndFault::Link(fault))),
        },
        Err(fault) => Err(TakeFault::Refused(fault)),
    }
}
