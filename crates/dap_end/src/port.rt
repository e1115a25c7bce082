//! One end of a link, with the NSP messages that wait to be passed to it, and the offset in the oldest one that came.

ghost use Rattle.std.specs.Prelude.{◌≡◌, ◌≢◌, ◌+◌, ◌-◌, ◌<◌, ◌≤◌, ◌∷◌, ◌++◌, [], ℕ, List, Ok, Some, None, length, false, true, IfOk, IfErr, IfSome, OnOk, OnErr, IsErrOf, slice_get, IsTrue};
ghost use Rattle.nsp_link.specs.Limits.{max_limit};
ghost use Rattle.nsp_link.specs.Link.{IsSetup, SetupFault, IsLink, may_send, waiting_bytes, with_inbox};
ghost use Rattle.nsp_link.specs.Sending.{NextFault, may_queue, SendAllFault};
ghost use Rattle.nsp_link.specs.declared.fault.LinkFault.TheVariants.{Failed, MessageTooLong, NoMemory};
ghost use Rattle.std.specs.Prelude.{◌==◌};
ghost use Rattle.dap_fields.specs.Spelling.{AreBytes};
ghost use Rattle.dap_msg.specs.Blocked.{bodies};
ghost use Rattle.dap_end.specs.Writing.{AcknowledgesIf, WroteMore, Extends, WroteAnswer, WrotePart, wants_ack};
ghost use Rattle.dap_end.specs.Moved.{sent_more};
ghost use Rattle.nsp_link.specs.Receiving.{Receives};
ghost use Rattle.dap_end.specs.Ports.{new_port, gone_on, HasCome};
ghost use Rattle.dap_end.specs.Moved.{with_link, with_outbox_sent};
ghost use Rattle.dap_end.specs.Inner.Kept.{IsPort};

use nsp_link::{Got, LinkEnd, LinkFault, LinkSetup};
use std::alloc::Global;
use std::marker::Model;

#[derive(Drop)]
pub(crate) struct Port {
    pub(crate) link: LinkEnd,
    /// The NSP messages that wait.
    pub(crate) outbox: Vec<Vec<u8>>,
    /// Where the next DAP message begins in the oldest NSP message that came.
    pub(crate) offset: usize,
}

impl Model for Port {
    ghost use Rattle.dap_end.specs.Ports.{PortValue};

    ghost Value = { PortValue };

    ghost use Rattle.dap_end.specs.Inner.PortView.{port_view};

    ghost view = { port_view };
}

impl Port {
    /// Creates a port with a new link of these limits, where nothing waits.
    pub(crate) fn new(alloc: Global, setup: LinkSetup) -> Result<Port, LinkFault>
        ensures ok { IfOk result (λ p. IsSetup setup × (p ≡ new_port setup)) }
        ensures err { IfErr result (SetupFault setup) }
    {
        let link = LinkEnd::new(alloc, setup)?;
        Ok(Port {
            link,
            outbox: Vec::new(alloc),
            offset: 0,
        })
    }

    /// Receives a packet.
    pub(crate) fn receive(&mut self, packet: &[u8]) -> Result<Got, LinkFault>
        ensures rest { self.new ≡ with_link self.old self.new.link }
        ensures receives { Receives self.old.link self.new.link packet.now result }
        ensures kept { IsPort self.old → IsPort self.new }
    {
        let received = self.link.receive_bounded(packet);
        // This line is only for the prover: the contract of `unacked` says what is true of the link.
        let _ = self.link.unacked();
        received
    }

    /// Returns whether a segment came, and was taken or is held.
    pub(crate) fn has_come(&self) -> bool
        ensures yes { result ≡ true → HasCome self.now }
        ensures no { result ≡ false → HasCome self.now → ⊥ }
    {
        self.link.received_count() > 0 || self.link.held_count() > 0
    }

    /// Returns how many bytes wait at the link.
    pub(crate) fn waiting_bytes(&self) -> u64
        ensures value { result ≡ waiting_bytes self.now.link }
        ensures valid { IsLink self.now.link }
    {
        self.link.waiting_bytes()
    }

    /// Moves the offset past the next DAP message of the oldest NSP message, which leaves the link where that was its
    /// last.
    pub(crate) fn advance(&mut self, last: bool, next: usize)
        ensures going { last ≡ false → self.new ≡ record self.old { offset = next } }
        ensures ends { last ≡ true → (bytes : List ℕ) (later : List (List ℕ))
            → self.old.link.coming.inbox ≡ bytes ∷ later
            → self.new ≡ record self.old {
              link = with_inbox self.old.link later;
              offset = 0;
            } }
    {
        if last {
            let _message = self.link.take_message();
            self.offset = 0;
        } else {
            self.offset = next;
        }
    }

    /// Writes the packet of the next segment that was never sent, if the window allows it.
    pub(crate) fn emit(&mut self) -> Result<Option<Vec<u8>>, LinkFault>
        ensures nothing { result ≡ Ok None
            → (self.new ≡ self.old) × (may_send self.old.link ≡ false) }
        ensures wrote { IfOk result
            (λ o. IfSome o (λ v. WroteMore self.old self.new (v.items ∷ []))) }
        ensures sent { (n : ℕ) × (self.new ≡ sent_more self.old n) }
        ensures err { IfErr result (λ f. (self.new ≡ self.old) × NextFault self.old.link f) }
        ensures failed { IsTrue self.old.link.failed → IsErrOf result Failed }
        ensures kept { IsPort self.old → IsPort self.new }
    {
        self.link.next_packet()
    }

    /// Writes the packet of the next segment, of a link that runs and lets it be sent.
    pub(crate) fn write_next(&mut self) -> Result<Vec<u8>, LinkFault>
        requires works { self.old.link.failed ≡ false }
        requires may { IsTrue (may_send self.old.link) }
        ensures wrote { IfOk result (λ v. WroteMore self.old self.new (v.items ∷ [])) }
        ensures sent { (n : ℕ) × (self.new ≡ sent_more self.old n) }
        ensures err { IfErr result (λ f. (self.new ≡ self.old) × (f ≡ NoMemory)) }
        ensures kept { IsPort self.old → IsPort self.new }
    {
        self.link.write_next()
    }

    /// Returns whether no segment that was never sent may be written.
    fn is_full(&self) -> bool
        ensures link { IsLink self.now.link }
        ensures yes { result ≡ true → may_send self.now.link ≡ false }
        ensures no { result ≡ false → IsTrue (may_send self.now.link) }
    {
        // This line is only for the prover: the contract of `unacked` says what is true of the link.
        let _ = self.link.unacked();
        !self.link.may_send()
    }

    /// Writes all segments that were never sent, as far as the window allows.
    pub(crate) fn emit_all(&mut self, out: &mut Vec<Vec<u8>>) -> Result<(), LinkFault>
        requires kept { IsPort self.old }
        requires works { self.old.link.failed ≡ false }
        ensures wrote { Extends (bodies out.old.items) (bodies out.new.items)
            (WroteMore self.old self.new) }
        ensures all { OnOk result (may_send self.new.link ≡ false) }
        ensures err { IfErr result (λ f. (f ≡ NoMemory) × IsTrue (may_send self.new.link)) }
        ensures kept { IsPort self.new }
    {
        'segments: loop {
            if self.is_full() {
                return Ok(());
            }
            let Ok(()) = out.reserve(1) else {
                return Err(LinkFault::NoMemory);
            };
            match self.write_next() {
                Ok(packet) => out.push_reserved(packet),
                Err(_) => return Err(LinkFault::NoMemory),
            }
        }
    }

    /// Writes all segments, or where none is and one came, one acknowledgement.
    pub(crate) fn answer(&mut self, got: Got, out: &mut Vec<Vec<u8>>) -> Result<(), LinkFault>
        requires kept { IsPort self.old }
        requires works { self.old.link.failed ≡ false }
        ensures ok { OnOk result (Extends (bodies out.old.items) (bodies out.new.items)
            (WroteAnswer self.old self.new got)) }
        ensures err { IfErr result (λ f. (f ≡ NoMemory) × Extends (bodies out.old.items)
            (bodies out.new.items) (WrotePart self.old self.new got)) }
        ensures kept { IsPort self.new }
    {
        let before = out.len();
        self.emit_all(out)?;
        self.acknowledge(got, out.len() - before, out)
    }

    /// Writes one acknowledgement, where a segment came and none was written.
    fn acknowledge(&self, got: Got, written: usize, out: &mut Vec<Vec<u8>>) -> Result<(), LinkFault>
        requires { self.now.link.failed ≡ false }
        ensures ok { OnOk result (AcknowledgesIf self.now (wants_ack got written)
            (bodies out.old.items) (bodies out.new.items)) }
        ensures wants { OnErr result (wants_ack got written ≡ true) }
        ensures memory { IfErr result (λ f. f ≡ NoMemory) }
        ensures unchanged { OnErr result (bodies out.new.items ≡ bodies out.old.items) }
    {
        if !wants_ack(got, written) {
            return Ok(());
        }
        let Ok(()) = out.reserve(1) else {
            return Err(LinkFault::NoMemory);
        };
        match self.link.ack_packet() {
            Ok(packet) => {
                out.push_reserved(packet);
                Ok(())
            }
            Err(_) => Err(LinkFault::NoMemory),
        }
    }

    /// Passes on all that waits.
    pub(crate) fn post(&mut self) -> Result<usize, LinkFault>
        requires { IsPort self.old }
        ensures ok { IfOk result (λ n. (self.new ≡ with_outbox_sent self.old)
            × (n ≡ length self.old.outbox)) }
        ensures may { OnOk result (IsTrue (may_queue self.old.link self.old.outbox)) }
        ensures kept { IsPort self.new }
        ensures err { IfErr result (λ f. (self.new ≡ self.old)
            × SendAllFault self.old.link self.old.outbox f) }
        ensures short { self.old.link.setup.max_message ≡ max_limit
            → IfErr result (λ f. f ≢ MessageTooLong) }
    {
        self.link.check_messages(&self.outbox)?;
        self.post_checked()
    }

    /// Passes on all that waits, which the link takes.
    pub(crate) fn post_checked(&mut self) -> Result<usize, LinkFault>
        requires kept { IsPort self.old }
        requires may { IsTrue (may_queue self.old.link self.old.outbox) }
        ensures ok { IfOk result (λ n. (self.new ≡ with_outbox_sent self.old)
            × (n ≡ length self.old.outbox)) }
        ensures may { OnOk result (IsTrue (may_queue self.old.link self.old.outbox)) }
        ensures kept { IsPort self.new }
        ensures err { IfErr result (λ f. (self.new ≡ self.old) × (f ≡ NoMemory)) }
        ensures some { OnErr result (self.old.outbox ≢ []) }
    {
        let count = self.outbox.len();
        match self.link.send_checked(&self.outbox) {
            Ok(()) => {
                self.outbox.clear();
                Ok(count)
            }
            Err(_) => Err(LinkFault::NoMemory),
        }
    }
}

/// Returns whether an offset in an NSP message is its end.
pub(crate) fn is_end(message: &[u8], offset: usize) -> bool
    ensures end { result ≡ (offset == length message.now) }
    ensures bytes { AreBytes message.now }
{
    offset == message.len()
}

/// Returns whether one acknowledgement is written.
fn wants_ack(got: Got, written: usize) -> bool
    ensures { result ≡ wants_ack got written }
{
    match got {
        Got::AckOnly => false,
        _ => written == 0,
    }
}
