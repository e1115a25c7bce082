//! The end of a link: a server or a client, and its port.

ghost use Rattle.std.specs.Prelude.{◌≡◌, ◌≢◌, ◌≤◌, ◌<◌, ◌+◌, ◌-◌, [], ◌∷◌, Ok, Some, None, false, IfOk, IfErr, IfSome, OnErr, IsErrOf, IsTrue};
ghost use Rattle.dap_msg.specs.Blocked.{bodies};
ghost use Rattle.nsp_link.specs.Limits.{max_limit};
ghost use Rattle.nsp_link.specs.Link.{may_send, IsSpelling};
ghost use Rattle.nsp_link.specs.Receiving.{Receives};
ghost use Rattle.nsp_link.specs.Sending.{NextFault, may_queue, SendAllFault, WritesSent, ack_packet_of};
ghost use Rattle.nsp_link.specs.declared.fault.LinkFault.TheVariants.{Failed, NoSuchSegment, MessageTooLong};
ghost use Rattle.nsp_link.specs.declared.fault.LinkFault.TheVariants as fault;
ghost use Rattle.dap_end.specs.Ports.{HandsOver};
ghost use Rattle.dap_end.specs.Writing.{WroteMore};

use crate::port::Port;
use crate::role::Role;
use nsp_link::{Got, LinkEnd, LinkFault};
use std::marker::Model;

/// The end of a link, which serves or asks.
#[derive(Drop)]
pub struct End<R: Role> {
    pub(crate) port: Port,
    pub(crate) role: R,
}

impl<R: Role> Model for End<R> {
    ghost use Rattle.dap_end.specs.Ports.{EndValue};
    ghost use Rattle.dap_end.specs.Inner.Stored.{end_code};
    ghost use Rattle.dap_end.specs.By.{end_with};
    ghost use Rattle.dap_end.specs.Inner.Kept.{IsSoundEnd};

    ghost Value = { EndValue R };

    ghost coded = { end_code R.code };

    ghost view = { λ s. end_with s.port s.role };

    ghost invariant = { λ s. IsSoundEnd R.is_left s.port s.role };
}

impl<R: Role> End<R> {
    /// Receives a packet, as [`nsp_link::LinkEnd::receive_bounded`] does; nothing is processed by that.
    pub fn receive(&mut self, packet: &[u8]) -> Result<Got, LinkFault>
        ensures rest { self.new ≡ record self.old {
          port = record self.old.port { link = self.new.port.link };
        } }
        ensures receives { Receives self.old.port.link self.new.port.link packet.now result }
        ensures still { (history : R.History) → R.fits history self.old → R.fits history self.new }
    {
        self.port.receive(packet)
    }

    /// Passes all that waits to the link, and returns how many NSP messages these are. Refused, with nothing changed:
    /// `Failed`; `MessageTooLong`, above the setup's `max_message`, which never comes where that is 65,535;
    /// `Exhausted`, where this end would have had more than 2^40 segments; `NoMemory`.
    pub fn post(&mut self) -> Result<usize, LinkFault>
        ensures ok { IfOk result (λ n. HandsOver self.old self.new n) }
        ensures err { IfErr result (λ f. (self.new ≡ self.old)
            × SendAllFault self.old.port.link self.old.port.outbox f) }
        ensures short { self.old.port.link.setup.max_message ≡ max_limit
            → IfErr result (λ f. f ≢ MessageTooLong) }
    {
        self.port.post()
    }

    /// Passes all that waits to the link, as `post` does, where the link takes it, as
    /// [`nsp_link::LinkEnd::check_messages`] says: it isn't looked at again. Fails only if memory is refused, with
    /// nothing changed.
    pub fn post_checked(&mut self) -> Result<usize, LinkFault>
        requires { IsTrue (may_queue self.old.port.link self.old.port.outbox) }
        ensures ok { IfOk result (λ n. HandsOver self.old self.new n) }
        ensures err { IfErr result (λ f. (self.new ≡ self.old) × (f ≡ fault.NoMemory)) }
    {
        self.port.post_checked()
    }

    /// Returns the packet of the next segment that was never sent, or none where none waits or the window is full, as
    /// [`nsp_link::LinkEnd::next_packet`] writes it (NSP 4.0.0, data segment message).
    pub fn emit(&mut self) -> Result<Option<Vec<u8>>, LinkFault>
        ensures rest { self.new ≡ record self.old { port = self.new.port } }
        ensures nothing { result ≡ Ok None
            → (self.new ≡ self.old) × (may_send self.old.port.link ≡ false) }
        ensures wrote { IfOk result
            (λ o. IfSome o (λ v. WroteMore self.old.port self.new.port (v.items ∷ []))) }
        ensures err { IfErr result (λ f. (self.new ≡ self.old) × NextFault self.old.port.link f) }
        ensures failed { IsTrue self.old.port.link.failed → IsErrOf result Failed }
        ensures still { (history : R.History) → R.fits history self.old → R.fits history self.new }
    {
        self.port.emit()
    }

    /// Writes the packet that `emit` writes, where the link hasn't failed and [`nsp_link::LinkEnd::may_send`] says that
    /// it has one to send: neither is looked at again. Fails only if memory is refused, with nothing changed.
    pub fn write_next(&mut self) -> Result<Vec<u8>, LinkFault>
        requires works { self.old.port.link.failed ≡ false }
        requires may { IsTrue (may_send self.old.port.link) }
        ensures rest { self.new ≡ record self.old { port = self.new.port } }
        ensures wrote { IfOk result (λ v. WroteMore self.old.port self.new.port (v.items ∷ [])) }
        ensures err { IfErr result (λ f. (self.new ≡ self.old) × (f ≡ fault.NoMemory)) }
        ensures still { (history : R.History) → R.fits history self.old → R.fits history self.new }
    {
        self.port.write_next()
    }

    /// Writes the packet of a segment that was sent and isn't acknowledged, again: the oldest is at index 0, as
    /// [`nsp_link::LinkEnd::resend`] writes it (NSP 4.0.0, data segment message).
    pub fn resend(&self, index: usize) -> Result<Vec<u8>, LinkFault>
        ensures wrote { IfOk result (λ v. WritesSent self.now.port.link
            (Some (self.now.port.link.acked + 1 + index)) v.items) }
        ensures failed { IsTrue self.now.port.link.failed → IsErrOf result Failed }
        ensures missing { self.now.port.link.failed ≡ false
            → self.now.port.link.sent - self.now.port.link.acked ≤ index
            → IsErrOf result NoSuchSegment }
        ensures memory { self.now.port.link.failed ≡ false
            → index < self.now.port.link.sent - self.now.port.link.acked
            → IfErr result (λ f. f ≡ fault.NoMemory) }
    {
        self.port.link.resend(index)
    }

    /// Writes a packet that only acknowledges all segments that were taken, as [`nsp_link::LinkEnd::ack_packet`] writes
    /// it (NSP 4.0.0, data acknowledgement message).
    pub fn ack(&self) -> Result<Vec<u8>, LinkFault>
        ensures wrote { IfOk result (λ v. IsSpelling (ack_packet_of self.now.port.link) v.items) }
        ensures failed { IsTrue self.now.port.link.failed → IsErrOf result Failed }
        ensures memory { self.now.port.link.failed ≡ false
            → IfErr result (λ f. f ≡ fault.NoMemory) }
    {
        self.port.link.ack_packet()
    }

    /// Returns the link, with its counts.
    pub fn link(&self) -> &LinkEnd
        ensures { result.now ≡ self.now.port.link }
    {
        &self.port.link
    }

    /// Returns the NSP messages that wait to be passed to the link, the oldest first.
    pub fn waiting(&self) -> &[Vec<u8>]
        ensures { bodies result.now ≡ self.now.port.outbox }
    {
        &self.port.outbox
    }
}
