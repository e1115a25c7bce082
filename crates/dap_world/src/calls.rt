//! What an event is to the end that it is at: one call of it.

ghost use Rattle.std.specs.Prelude.{◌≡◌, ◌<◌, ◌≤◌, ◌+◌, ◌++◌, ◌∷◌, [], length, IfOk, IfErr, Some, OnOk, OnErr, vec_len, vec_capacity, false, IsTrue};
ghost use Rattle.dap_msg.specs.Blocked.{bodies};
ghost use Rattle.nsp_link.specs.Limits.{max_segments};
ghost use Rattle.nsp_link.specs.Link.{may_send};
ghost use Rattle.nsp_link.specs.Sending.{may_queue};
ghost use Rattle.dap_accessing.specs.Calls.{IsAdmittedBy};
ghost use Rattle.dap_accessing.specs.Prepared.{IsPrepared};
ghost use Rattle.dap_end.specs.Moved.{with_link};
ghost use Rattle.dap_end.specs.Moved.{sent_more};
ghost use Rattle.dap_end.specs.Ports.{HandsOver};
ghost use Rattle.dap_end.specs.Histories.{Still};
ghost use Rattle.dap_world.specs.Inner.Sides.{AreWithinLimit, AskFaultOf, AskedSo, EmitFault, KeptSo, PostFault, PostedSo, WroteWired};
ghost use Rattle.dap_world.specs.Inner.Splitting.{SentAll};
ghost use Rattle.dap_world.specs.Inner.Ways.{Delivery, delivered_as};
ghost use Rattle.dap_events.specs.declared.event.WorldFault.TheVariants.{NoMemory};

use crate::side::{Wired, acknowledge, again, due, may_post, next_number, put};
use crate::splitting::split_all;
use crate::world::World;
use dap_accessing::{Prepared, Report, Request};
use dap_end::{AskingEnd, End as EndOf, Role, ServingEnd};
use dap_events::{End, Event, Step, WorldFault};
use nsp_link::{Got, LinkFault};
use std::alloc::Global;

impl World {
    ghost use Rattle.dap_world.specs.Runs.{ComesTo};

    /// Asks a copy of a request.
    pub(crate) fn ask_copy(&mut self, request: &Request) -> Result<Step, WorldFault>
        ensures { ComesTo self.old (Event.Ask request.now) result self.new }
    {
        copy_and_ask(self.alloc, &mut self.asking, &mut self.requests, request)
    }

    /// Asks a request that the ledger gets.
    pub(crate) fn ask_owned(&mut self, request: Request) -> Result<Step, WorldFault>
        ensures { ComesTo self.old (Event.Ask request) result self.new }
    {
        ask_next(&mut self.asking, &mut self.requests, request)
    }

    /// Serves the next message.
    pub(crate) fn serve(&mut self) -> Result<Step, WorldFault>
        ensures { ComesTo self.old Event.Serve result self.new }
    {
        match self.serving.serve() {
            Ok(Some(count)) => {
                self.served += 1;
                Ok(Step::Served(count))
            }
            Ok(None) => Err(WorldFault::NothingToDo),
            Err(_) => Err(WorldFault::NoMemory),
        }
    }

    /// Reads the next answer.
    pub(crate) fn read(&mut self) -> Result<Step, WorldFault>
        ensures { ComesTo self.old Event.Read result self.new }
    {
        if !self.asking.may_read() {
            return Err(WorldFault::NothingToDo);
        }
        match self.reports.reserve(1) {
            Ok(()) => match self.asking.read_next() {
                Ok(report) => {
                    self.read += 1;
                    Ok(keep(&mut self.reports, report))
                }
                Err(_) => Err(WorldFault::NoMemory),
            },
            Err(_) => Err(WorldFault::NoMemory),
        }
    }

    /// Passes on what waits.
    pub(crate) fn post(&mut self, end: End) -> Result<Step, WorldFault>
        ensures { ComesTo self.old (Event.Post end) result self.new }
    {
        match end {
            End::A => post_a(
                self.alloc,
                &mut self.asking,
                &mut self.posted_a,
                &mut self.sent,
            ),
            End::B => post_b(&mut self.serving, &mut self.posted_b),
        }
    }

    /// Writes the next segment.
    pub(crate) fn emit(&mut self, end: End) -> Result<Step, WorldFault>
        ensures { ComesTo self.old (Event.Emit end) result self.new }
    {
        match end {
            End::A => emit_next(&mut self.asking, &mut self.wire_a),
            End::B => emit_next(&mut self.serving, &mut self.wire_b),
        }
    }

    /// Writes a segment again.
    pub(crate) fn resend(&mut self, end: End, index: usize) -> Result<Step, WorldFault>
        ensures { ComesTo self.old (Event.Resend end index) result self.new }
    {
        match end {
            End::A => {
                let packet = self.asking.resend(index);
                again(self.asking.link(), &mut self.wire_a, index, packet)
            }
            End::B => {
                let packet = self.serving.resend(index);
                again(self.serving.link(), &mut self.wire_b, index, packet)
            }
        }
    }

    /// Writes an acknowledgement.
    pub(crate) fn ack(&mut self, end: End) -> Result<Step, WorldFault>
        ensures { ComesTo self.old (Event.Ack end) result self.new }
    {
        match end {
            End::A => {
                let packet = self.asking.ack();
                acknowledge(self.asking.link(), &mut self.wire_a, packet)
            }
            End::B => {
                let packet = self.serving.ack();
                acknowledge(self.serving.link(), &mut self.wire_b, packet)
            }
        }
    }

    /// Delivers a packet of the other end to an end.
    pub(crate) fn deliver(&mut self, end: End, j: usize) -> Result<Step, WorldFault>
        ensures { ComesTo self.old (Event.Deliver end j) result self.new }
    {
        match end {
            End::A => deliver_to(&mut self.asking, &self.wire_b, j),
            End::B => deliver_to(&mut self.serving, &self.wire_a, j),
        }
    }
}

/// Asks a copy of a request of A.
fn copy_and_ask(
    alloc: Global,
    end: &mut AskingEnd,
    requests: &mut Vec<Request>,
    request: &Request,
) -> Result<Step, WorldFault>
    ensures ok { IfOk result (λ answer. AskedSo request.now end.old end.new answer) }
    ensures told { OnOk result (requests.new.items ≡ requests.old.items ++ request.now ∷ []) }
    ensures err { IfErr result (λ f. (end.new ≡ end.old)
        × (requests.new.items ≡ requests.old.items) × AskFaultOf request.now end.old.present f) }
{
    let prepared = prepare(end, request)?;
    let copy = request.copy(alloc)?;
    requests.reserve(1)?;
    let step = ask_prepared(end, request, prepared)?;
    requests.push_reserved(copy);
    Ok(step)
}

/// Asks a request of A.
fn ask_next(
    end: &mut AskingEnd,
    requests: &mut Vec<Request>,
    request: Request,
) -> Result<Step, WorldFault>
    ensures ok { IfOk result (λ answer. AskedSo request end.old end.new answer) }
    ensures told { OnOk result (requests.new.items ≡ requests.old.items ++ request ∷ []) }
    ensures err { IfErr result (λ f. (end.new ≡ end.old)
        × (requests.new.items ≡ requests.old.items) × AskFaultOf request end.old.present f) }
{
    let prepared = prepare(end, &request)?;
    requests.reserve(1)?;
    let step = ask_prepared(end, &request, prepared)?;
    requests.push_reserved(request);
    Ok(step)
}

/// Prepares what is needed of a request that A may ask.
fn prepare(end: &AskingEnd, request: &Request) -> Result<Prepared, WorldFault>
    ensures ok { IfOk result (IsPrepared end.now.present request.now) }
    ensures admissible { OnOk result (IsAdmittedBy end.now.present request.now) }
    ensures err { IfErr result (AskFaultOf request.now end.now.present) }
{
    match end.prepare(request) {
        Ok(prepared) => Ok(prepared),
        Err(fault) => Err(WorldFault::Ask(fault)),
    }
}

/// Asks a request that was looked at, and fails only if memory is refused.
fn ask_prepared(
    end: &mut AskingEnd,
    request: &Request,
    prepared: Prepared,
) -> Result<Step, WorldFault>
    requires { IsPrepared end.old.present request.now prepared }
    ensures ok { IfOk result (λ answer. AskedSo request.now end.old end.new answer) }
    ensures err { IfErr result (λ f. (end.new ≡ end.old) × (f ≡ NoMemory)) }
{
    match end.ask_prepared(request, prepared) {
        Ok(count) => Ok(Step::Asked(count)),
        Err(_) => Err(WorldFault::NoMemory),
    }
}

/// Adds the report that was read, if there is one, for which there is room.
fn keep(reports: &mut Vec<Report>, report: Option<Report>) -> Step
    requires { vec_len reports.old < vec_capacity reports.old }
    ensures { KeptSo report reports.old.items reports.new.items result }
{
    match report {
        Some(report) => {
            reports.push_reserved(report);
            Step::Reported
        }
        None => Step::Nothing,
    }
}

/// Lets an end write its next segment.
fn emit_next<R: Role>(end: &mut EndOf<R>, wire: &mut Vec<Wired>) -> Result<Step, WorldFault>
    requires { end.old.port.link.failed ≡ false }
    ensures rest { end.new ≡ record end.old { port = end.new.port } }
    ensures ok { IfOk result (λ answer. IsTrue (may_send end.old.port.link)
        × WroteWired end.old.port.link wire.old.items wire.new.items
        (Some (end.old.port.link.sent + 1)) answer) }
    ensures sent { OnOk result (end.new.port ≡ sent_more end.old.port 1) }
    ensures err { IfErr result (λ f. (end.new.port ≡ end.old.port)
        × (wire.new.items ≡ wire.old.items) × EmitFault end.old.port.link f) }
    ensures still { Still R.fits end.old end.new }
{
    let number = next_number(end.link(), wire)?;
    let acks = end.link().received_count();
    match end.write_next() {
        Ok(packet) => Ok(put(wire, packet, Some(number), acks)),
        Err(_) => Err(WorldFault::NoMemory),
    }
}

/// Lets an end receive the packet at index j of the other end's wire.
fn deliver_to<R: Role>(end: &mut EndOf<R>, wire: &[Wired], j: usize) -> Result<Step, WorldFault>
    ensures rest { end.new ≡ record end.old { port = with_link end.old.port end.new.port.link } }
    ensures comes { Delivery end.old.port.link end.new.port.link wire.now j result }
    ensures still { Still R.fits end.old end.new }
{
    match due(end.link(), wire, j) {
        Ok(wired) => delivered(end.receive(&wired.packet)),
        Err(fault) => Err(fault),
    }
}

/// Returns what a delivery comes to: what the link got, or out of memory.
fn delivered(got: Result<Got, LinkFault>) -> Result<Step, WorldFault>
    ensures { result ≡ delivered_as got }
{
    match got {
        Ok(got) => Ok(Step::Delivered(got)),
        Err(_) => Err(WorldFault::NoMemory),
    }
}

/// Lets A pass on what waits; the DAP messages in it are sent.
fn post_a(
    alloc: Global,
    end: &mut AskingEnd,
    posted: &mut usize,
    sent: &mut Vec<Vec<u8>>,
) -> Result<Step, WorldFault>
    requires running { end.old.port.link.failed ≡ false }
    requires short { AreWithinLimit end.old.port.link.setup.max_message end.old.port.outbox }
    requires few { posted.old ≤ max_segments }
    ensures ok { IfOk result (λ answer. PostedSo end.old.port.outbox posted.old posted.new answer) }
    ensures handed { OnOk result (HandsOver end.old end.new (length end.old.port.outbox)) }
    ensures sent { OnOk result (SentAll end.old.port.outbox (bodies sent.old.items)
        (bodies sent.new.items)) }
    ensures same { OnErr result ((end.new ≡ end.old) × (posted.new ≡ posted.old)
        × (bodies sent.new.items ≡ bodies sent.old.items)) }
    ensures err { IfErr result (PostFault end.old.port.link end.old.port.outbox) }
{
    may_post(end.link(), end.waiting())?;
    pass_on(alloc, end, posted, sent)
}

/// Lets A pass on what waits, which its link takes. All memory is taken before anything changes.
fn pass_on(
    alloc: Global,
    end: &mut AskingEnd,
    posted: &mut usize,
    sent: &mut Vec<Vec<u8>>,
) -> Result<Step, WorldFault>
    requires some { 0 < length end.old.port.outbox }
    requires may { IsTrue (may_queue end.old.port.link end.old.port.outbox) }
    requires few { posted.old ≤ max_segments }
    ensures ok { IfOk result (λ answer. PostedSo end.old.port.outbox posted.old posted.new answer) }
    ensures handed { OnOk result (HandsOver end.old end.new (length end.old.port.outbox)) }
    ensures sent { OnOk result (SentAll end.old.port.outbox (bodies sent.old.items)
        (bodies sent.new.items)) }
    ensures same { OnErr result ((end.new ≡ end.old) × (posted.new ≡ posted.old)
        × (bodies sent.new.items ≡ bodies sent.old.items)) }
    ensures err { IfErr result (λ f. f ≡ NoMemory) }
{
    let mut more = split_all(alloc, end.waiting())?;
    sent.reserve(more.len())?;
    match end.post_checked() {
        Ok(count) => {
            *posted += count;
            sent.append(&mut more).unwrap();
            Ok(Step::Posted(count))
        }
        Err(_) => Err(WorldFault::NoMemory),
    }
}

/// Lets B pass on what waits.
fn post_b(end: &mut ServingEnd, posted: &mut usize) -> Result<Step, WorldFault>
    requires running { end.old.port.link.failed ≡ false }
    requires short { AreWithinLimit end.old.port.link.setup.max_message end.old.port.outbox }
    requires few { posted.old ≤ max_segments }
    ensures ok { IfOk result (λ answer. PostedSo end.old.port.outbox posted.old posted.new answer) }
    ensures handed { OnOk result (HandsOver end.old end.new (length end.old.port.outbox)) }
    ensures same { OnErr result ((end.new ≡ end.old) × (posted.new ≡ posted.old)) }
    ensures err { IfErr result (PostFault end.old.port.link end.old.port.outbox) }
{
    may_post(end.link(), end.waiting())?;
    match end.post_checked() {
        Ok(count) => {
            *posted += count;
            Ok(Step::Posted(count))
        }
        Err(_) => Err(WorldFault::NoMemory),
    }
}
