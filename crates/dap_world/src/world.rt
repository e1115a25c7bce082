//! Both ends and the network. The line `let _ = &self.read` lets a proof see what is true of every world.

use crate::side::Wired;
use dap_accessed::FileTable;
use dap_accessing::{Report, Request};
use dap_end::{AskingEnd, ServingEnd};
use dap_events::{End, Event, Step, WorldFault};
use nsp_link::LinkEnd;
use std::alloc::Global;
use std::marker::Model;

/// Both ends and the network.
#[derive(Drop)]
pub struct World {
    pub(crate) alloc: Global,
    pub(crate) asking: AskingEnd,
    pub(crate) serving: ServingEnd,
    /// The packets that each end wrote, and how many NSP messages it passed to its link.
    pub(crate) wire_a: Vec<Wired>,
    pub(crate) wire_b: Vec<Wired>,
    pub(crate) posted_a: usize,
    pub(crate) posted_b: usize,
    pub(crate) requests: Vec<Request>,
    /// The DAP messages that A passed to its link, and how many of them B served.
    pub(crate) sent: Vec<Vec<u8>>,
    pub(crate) served: usize,
    pub(crate) reports: Vec<Report>,
    /// The answers that A read.
    pub(crate) read: u64,
}

impl Model for World {
    ghost use Rattle.dap_world.specs.Machine.{State};

    ghost Value = { State };

    ghost use Rattle.dap_world.specs.Inner.WorldView.{world_view, IsSoundWorld};

    ghost view = { world_view };

    ghost invariant = { IsSoundWorld };
}

impl World {
    ghost use Rattle.std.specs.Prelude.{◌≡◌, ◌-◌, ◌++◌, OnOk, IfErr, Some, map, max, slice_get, true, false};
    ghost use Rattle.dap_msg.specs.Blocked.{all_joined, bodies};
    ghost use Rattle.dap_msg.specs.Canon.{canon};
    ghost use Rattle.dap_world.specs.Machine.{MayEmit, files_of, reports_by_a, end_of, other_end, sent_by, served_by_b};
    ghost use Rattle.dap_world.specs.Runs.{Runs, StopsAt, ComesTo};
    ghost use Rattle.dap_world.specs.Inner.Worlds.{IsWorld};
    ghost use Rattle.dap_world.specs.Links.{came_to, coming_to, left_link};
    ghost use Rattle.dap_world.specs.Wires.{IsOnWire, end_address, sending_of};
    ghost use Rattle.std.specs.List.{AllByRecursion};
    ghost use Rattle.std.specs.Map.{keys_of};
    ghost use Rattle.nsp_link.specs.Link.{Sends};
    ghost use Rattle.dap_world.specs.Headline.{HeadlineOf};

    /// Lets one event happen, which changes nothing where it is refused.
    fn happen(&mut self, event: &Event) -> Result<Step, WorldFault>
        ensures { ComesTo self.old event.now result self.new }
    {
        match event {
            Event::Ask(request) => self.ask_copy(request),
            Event::Post(end) => self.post(*end),
            Event::Emit(end) => self.emit(*end),
            Event::Resend(end, index) => self.resend(*end, *index),
            Event::Ack(end) => self.ack(*end),
            Event::Deliver(end, j) => self.deliver(*end, *j),
            Event::Serve => self.serve(),
            Event::Read => self.read(),
        }
    }

    /// Applies one event: a step of the machine, or refused as there, or if memory is refused. A refusal changes
    /// nothing.
    pub fn apply(&mut self, event: &Event) -> Result<Step, WorldFault>
        ensures went { ComesTo self.old event.now result self.new }
        ensures headline { HeadlineOf self.new }
    {
        let result = self.happen(event);
        let _ = &self.read;
        result
    }

    /// Asks a request, as its event does, but makes no copy of it: it goes into the ledger. Refused as there; a
    /// refusal changes nothing, and drops the request.
    pub fn ask(&mut self, request: Request) -> Result<Step, WorldFault>
        ensures went { ComesTo self.old (Event.Ask request) result self.new }
        ensures headline { HeadlineOf self.new }
    {
        let result = self.ask_owned(request);
        let _ = &self.read;
        result
    }

    /// Returns whether an end has a segment that it may write.
    pub(crate) fn may_emit(&self, end: End) -> bool
        ensures yes { result ≡ true → MayEmit self.now end }
        ensures no { result ≡ false → MayEmit self.now end → ⊥ }
    {
        match end {
            End::A => self.asking.link().may_send(),
            End::B => self.serving.link().may_send(),
        }
    }

    /// Shows what is true of every world.
    pub(crate) fn sound(&self)
        ensures { IsWorld self.now }
    {
        let _ = &self.read;
    }

    /// Applies one event, after which the same is true.
    pub(crate) fn step(&mut self, event: &Event) -> Result<Step, WorldFault>
        ensures went { ComesTo self.old event.now result self.new }
        ensures world { IsWorld self.new }
    {
        let result = self.happen(event);
        let _ = &self.read;
        result
    }

    /// Lets the events happen, up to the first that is refused. Returns its index, and why it is refused.
    fn go(&mut self, events: &[Event]) -> Result<(), (usize, WorldFault)>
        ensures all { OnOk result (Runs self.old events.now self.new) }
        ensures stopped { IfErr result (λ stop. StopsAt events.now self.old self.new stop) }
    {
        for (i, event) in events.iter().enumerate() {
            match self.happen(event) {
                Ok(_) => {}
                Err(fault) => return Err((i, fault)),
            }
        }
        Ok(())
    }

    /// Applies the events, up to the first that is refused. Returns its index, and why it is refused.
    pub fn run(&mut self, events: &[Event]) -> Result<(), (usize, WorldFault)>
        ensures all { OnOk result (Runs self.old events.now self.new) }
        ensures stopped { IfErr result (λ stop. StopsAt events.now self.old self.new stop) }
        ensures headline { HeadlineOf self.new }
    {
        let result = self.go(events);
        let _ = &self.read;
        result
    }

    /// Returns the requests that were asked.
    pub fn requests(&self) -> &[Request]
        ensures { result.now ≡ self.now.requests }
    {
        &self.requests
    }

    /// Returns the DAP messages that were passed to A's link, in order.
    pub fn sent(&self) -> &[Vec<u8>]
        ensures { bodies result.now ≡ map canon (sent_by self.now.a) }
    {
        &self.sent
    }

    /// Returns the DAP messages that B served: a prefix of those that were passed to A's link.
    pub fn taken(&self) -> &[Vec<u8>]
        ensures { bodies result.now ≡ map canon (served_by_b self.now) }
    {
        &self.sent[..self.served]
    }

    /// Returns how many answers A read.
    pub fn read_count(&self) -> u64
        ensures { result ≡ self.now.read }
    {
        self.read
    }

    /// Returns the reports of A.
    pub fn reports(&self) -> &[Report]
        ensures told { result.now ≡ reports_by_a self.now }
        ensures headline { HeadlineOf self.now }
    {
        &self.reports
    }

    /// Returns the files that B holds.
    pub fn files(&self) -> &FileTable
        ensures files { result.now ≡ files_of self.now }
        ensures headline { HeadlineOf self.now }
    {
        self.serving.files()
    }

    /// Returns the packets that an end wrote.
    pub fn wire(&self, end: End) -> &[Wired]
        ensures sendings { map sending_of result.now ≡ (end_of self.now end).wire }
        ensures packets { AllByRecursion
            (λ w. IsOnWire self.now end (sending_of w) w.packet.items) result.now }
    {
        match end {
            End::A => &self.wire_a,
            End::B => &self.wire_b,
        }
    }

    /// Returns the link of an end.
    pub fn link(&self, end: End) -> &LinkEnd
        ensures way { (result.now.setup.local ≡ end_address end)
            × (result.now.setup.remote ≡ end_address (other_end end)) }
        ensures size { result.now.setup.seg_size ≡ self.now.seg_size }
        ensures window { result.now.setup.window ≡ self.now.window }
        ensures limit { result.now.setup.max_message ≡ max self.now.own_a self.now.own_b }
        ensures sent { result.now.sent ≡ (end_of self.now end).sent }
        ensures acked { result.now.acked ≡ (end_of self.now end).acked }
        ensures queued { Sends result.now (all_joined (end_of self.now end).handed) }
        ensures received { result.now.coming.received ≡ (end_of self.now end).taken }
        ensures partial { result.now.coming.partial ≡ (came_to self.now end).partial }
        ensures inbox { left_link self.now end ++ result.now.coming.inbox
            ≡ (came_to self.now end).inbox }
        ensures held { keys_of result.now.held ≡ (end_of self.now end).held }
        ensures early { AllByRecursion
            (λ h. slice_get (coming_to self.now end) (h.0 - 1) ≡ Some h.1) result.now.held }
        ensures running { result.now.failed ≡ false }
    {
        match end {
            End::A => self.asking.link(),
            End::B => self.serving.link(),
        }
    }
}
