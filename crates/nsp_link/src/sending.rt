//! Sending: messages queued as segments, and the packets that an end writes.

ghost use Rattle.std.specs.Prelude.{◌≡◌, ◌≢◌, ◌+◌, ◌-◌, ◌<◌, ◌≤◌, [], ◌∷◌, length, map, Ok, Some, None, IfOk, IfErr, IfSome, OnOk, IsOk, IsTrue, IsErrOf, ℕ, List, false, true};
ghost use Rattle.nsp_seg.specs.Packets.{IsWritable};
ghost use Rattle.nsp_link.specs.declared.fault.LinkFault.TheVariants.{Failed, NoMemory, NoSuchSegment};
ghost use Rattle.nsp_link.specs.Cutting.{cut, cut_message};
ghost use Rattle.nsp_link.specs.Limits.{max_segments};
ghost use Rattle.nsp_link.specs.Link.{SendsStill, SendsMore, StandsStill, may_send, Writes, IsSpelling, acknowledging};
ghost use Rattle.nsp_link.specs.Sending.{WritesQueued, WritesSent, WritesNext, NextFault, ack_packet_of, queued_link, SendAllFault, may_queue};

use crate::cutting::{check_all, queue_all, queue_message, segment_count, total_len};
use crate::fault::LinkFault;
use crate::incoming::MAX_SEGMENTS;
use crate::link::LinkEnd;
use nsp_seg::{AckField, AckFields, PacketValue, Payload, SegmentFields, Seq12, encode_value};

impl LinkEnd {
    /// Queues the segments of a message: one for each `seg_size` bytes or part of that, and one of no bytes
    /// for an empty message (NSP 4.0.0, data segment message). Refused, with nothing changed: `Failed`;
    /// `MessageTooLong`, above `max_message`; `Exhausted`, where this end would have had more than 2^40
    /// segments; `NoMemory`.
    #[tactic(auto, using(crate::proofs::Counts::one_message))]
    pub fn send(&mut self, message: &[u8]) -> Result<(), LinkFault>
        ensures ok { OnOk result
            (self.new ≡ queued_link self.old (cut_message self.old.setup.seg_size message.now)) }
        ensures fits { OnOk result (IsTrue (may_queue self.old (message.now ∷ []))) }
        ensures stands { StandsStill self.old self.new }
        ensures sends { OnOk result (SendsMore self.old self.new (message.now ∷ [])) }
        ensures err { IfErr result
            (λ e. SendAllFault self.old (message.now ∷ []) e × (self.new ≡ self.old)) }
    {
        if self.failed {
            return Err(LinkFault::Failed);
        }
        if message.len() > self.setup.max_message {
            return Err(LinkFault::MessageTooLong);
        }
        let size = self.setup.seg_size;
        let count = segment_count(size, message.len());
        if self.room() < count as u64 {
            return Err(LinkFault::Exhausted);
        }
        let before = self.queue.len();
        match queue_message(self.alloc, &mut self.queue, size, count, message) {
            Ok(()) => {
                self.waiting += message.len() as u64;
                Ok(())
            }
            Err(_) => {
                self.queue.truncate(before);
                Err(LinkFault::NoMemory)
            }
        }
    }

    /// Queues the segments of all messages, or of none (NSP 4.0.0, data segment message; all or none is a choice of
    /// this implementation). Refused as `send` is, where any message is too long or all their segments are too many;
    /// an empty list is queued without memory.
    pub fn send_all(&mut self, messages: &[Vec<u8>]) -> Result<(), LinkFault>
        ensures ok { OnOk result (self.new
            ≡ queued_link self.old
            (cut self.old.setup.seg_size (map (λ v. v.items) messages.now))) }
        ensures fits { OnOk result (IsTrue (may_queue self.old (map (λ v. v.items) messages.now))) }
        ensures stands { StandsStill self.old self.new }
        ensures sends { OnOk result
            (SendsMore self.old self.new (map (λ v. v.items) messages.now)) }
        ensures err { IfErr result (λ e. SendAllFault self.old (map (λ v. v.items) messages.now) e
            × (self.new ≡ self.old)) }
        ensures empty { self.old.failed ≡ false → messages.now ≡ []
            → IsOk result × (self.new ≡ self.old) }
    {
        self.check_messages(messages)?;
        self.send_checked(messages)
    }

    /// Queues messages that `check_messages` lets through, as `send_all` does: they aren't looked at again. Fails
    /// only if memory is refused, with nothing changed.
    pub fn send_checked(&mut self, messages: &[Vec<u8>]) -> Result<(), LinkFault>
        requires { IsTrue (may_queue self.old (map (λ v. v.items) messages.now)) }
        ensures ok { OnOk result (self.new
            ≡ queued_link self.old
            (cut self.old.setup.seg_size (map (λ v. v.items) messages.now))) }
        ensures stands { StandsStill self.old self.new }
        ensures sends { OnOk result
            (SendsMore self.old self.new (map (λ v. v.items) messages.now)) }
        ensures err { IfErr result (λ e. (e ≡ NoMemory) × (self.new ≡ self.old)) }
        ensures empty { messages.now ≡ [] → IsOk result × (self.new ≡ self.old) }
    {
        let before = self.queue.len();
        match queue_all(self.alloc, &mut self.queue, self.setup.seg_size, messages) {
            Ok(()) => {
                self.waiting += total_len(messages);
                Ok(())
            }
            Err(_) => {
                self.queue.truncate(before);
                Err(LinkFault::NoMemory)
            }
        }
    }

    /// Checks that `send_all` would take the messages, memory aside; refused as there. It takes no memory.
    #[tactic(auto, using(crate::proofs::Allowed::queueing))]
    pub fn check_messages(&self, messages: &[Vec<u8>]) -> Result<(), LinkFault>
        ensures ok { OnOk result (IsTrue (may_queue self.now (map (λ v. v.items) messages.now))) }
        ensures empty { self.now.failed ≡ false → messages.now ≡ [] → IsOk result }
        ensures err { IfErr result
            (λ e. (e ≢ NoMemory) × SendAllFault self.now (map (λ v. v.items) messages.now) e) }
    {
        if self.failed {
            return Err(LinkFault::Failed);
        }
        let setup = &self.setup;
        check_all(setup.seg_size, setup.max_message, self.room(), messages)
    }

    /// Returns how many segments may still be queued.
    fn room(&self) -> u64
        ensures { self.now.acked + length self.now.queue + result ≡ max_segments }
    {
        MAX_SEGMENTS - self.acked - (self.queue.len() as u64)
    }

    /// Returns whether a segment that was never sent waits and the window has room, so that `next_packet` writes one,
    /// unless the end has failed.
    pub fn may_send(&self) -> bool
        ensures { result ≡ may_send self.now }
    {
        let index = self.unacked();
        index < self.queue.len() && index < self.setup.window
    }

    /// Returns the bytes of the packet of the segment at this index of the queue.
    fn segment_at(&self, index: usize) -> Result<Vec<u8>, LinkFault>
        requires { index < length self.now.queue }
        ensures ok { IfOk result
            (λ v. WritesQueued self.now index (self.now.acked + 1 + index) v.items) }
        ensures carries { IfOk result
            (λ v. WritesSent self.now (Some (self.now.acked + 1 + index)) v.items) }
        ensures err { IfErr result (λ e. e ≡ NoMemory) }
    {
        let segment = &self.queue[index];
        let packet = PacketValue::Segment(SegmentFields {
            first: segment.first,
            last: segment.last,
            dst: self.setup.remote,
            src: self.setup.local,
            ack1: Some(self.acknowledgement()),
            ack2: None,
            number: Seq12::of(self.acked + 1 + index as u64),
            payload: Payload(&segment.payload),
        });
        self.written(&packet)
    }

    /// Returns the acknowledgement field of every packet.
    fn acknowledgement(&self) -> AckField
        ensures { result ≡ acknowledging self.now.coming.received }
    {
        AckField {
            qual: 0,
            number: Seq12::of(self.incoming.received),
        }
    }

    /// Returns the bytes of the packet.
    fn written(&self, packet: &PacketValue<'_>) -> Result<Vec<u8>, LinkFault>
        requires { IsWritable packet.now }
        ensures ok { IfOk result (λ v. IsSpelling packet.now v.items) }
        ensures err { IfErr result (λ e. e ≡ NoMemory) }
    {
        let mut out = Vec::new(self.alloc);
        encode_value(packet, &mut out).map_err(|_| LinkFault::NoMemory)?;
        Ok(out)
    }

    /// Returns the packet of the next segment that was never sent, or None where none waits or the window is full (NSP
    /// 4.0.0, data segment message). It acknowledges all segments that were taken. Refused, with nothing changed:
    /// `Failed`; `NoMemory`, where there is one to send.
    pub fn next_packet(&mut self) -> Result<Option<Vec<u8>>, LinkFault>
        ensures nothing { result ≡ Ok None → (self.new ≡ self.old) × (may_send self.old ≡ false) }
        ensures segment { IfOk result (λ o. IfSome o
            (λ v. WritesNext self.old self.new v.items)) }
        ensures carries { IfOk result (λ o. IfSome o
            (λ v. WritesSent self.old (Some (self.old.sent + 1)) v.items)) }
        ensures sends { SendsStill self.old self.new }
        ensures stands { StandsStill self.old self.new }
        ensures err { IfErr result (λ e. (self.new ≡ self.old) × NextFault self.old e) }
        ensures failed { IsTrue self.old.failed → IsErrOf result Failed }
    {
        if self.failed {
            return Err(LinkFault::Failed);
        }
        if !self.may_send() {
            return Ok(None);
        }
        let packet = self.write_next()?;
        Ok(Some(packet))
    }

    /// Returns the packet of the next segment, as `next_packet` writes it, where the end hasn't failed and `may_send`
    /// says that it may be sent: neither is checked again. Fails only if memory is refused, with nothing changed.
    pub fn write_next(&mut self) -> Result<Vec<u8>, LinkFault>
        requires works { self.old.failed ≡ false }
        requires may { IsTrue (may_send self.old) }
        ensures segment { IfOk result (λ v. WritesNext self.old self.new v.items) }
        ensures carries { IfOk result
            (λ v. WritesSent self.old (Some (self.old.sent + 1)) v.items) }
        ensures sends { SendsStill self.old self.new }
        ensures stands { StandsStill self.old self.new }
        ensures err { IfErr result (λ e. (self.new ≡ self.old) × (e ≡ NoMemory)) }
    {
        let packet = self.segment_at(self.unacked())?;
        self.sent += 1;
        Ok(packet)
    }

    /// Retransmits a segment that was sent and isn't acknowledged: returns its packet. The oldest is at index 0 (NSP
    /// 4.0.0, data segment message). Refused: `Failed`; `NoSuchSegment`, from `unacked()` on; `NoMemory`.
    pub fn resend(&self, index: usize) -> Result<Vec<u8>, LinkFault>
        ensures segment { IfOk result (λ v. (index < self.now.sent - self.now.acked)
            × WritesQueued self.now index (self.now.acked + 1 + index) v.items) }
        ensures carries { IfOk result
            (λ v. WritesSent self.now (Some (self.now.acked + 1 + index)) v.items) }
        ensures failed { IsTrue self.now.failed → IsErrOf result Failed }
        ensures missing { self.now.failed ≡ false → self.now.sent - self.now.acked ≤ index
            → IsErrOf result NoSuchSegment }
        ensures memory { self.now.failed ≡ false → index < self.now.sent - self.now.acked
            → IfErr result (λ e. e ≡ NoMemory) }
    {
        if self.failed {
            return Err(LinkFault::Failed);
        }
        if index >= self.unacked() {
            return Err(LinkFault::NoSuchSegment);
        }
        self.segment_at(index)
    }

    /// Returns a packet that only acknowledges all segments that were taken, and none that is held (NSP 4.0.0, data
    /// acknowledgement message). Refused: `Failed`; `NoMemory`.
    pub fn ack_packet(&self) -> Result<Vec<u8>, LinkFault>
        ensures ack { IfOk result (λ v. IsSpelling (ack_packet_of self.now) v.items) }
        ensures carries { IfOk result (λ v. (messages : List (List ℕ))
            → Writes self.now messages None self.now.coming.received v.items) }
        ensures failed { IsTrue self.now.failed → IsErrOf result Failed }
        ensures memory { self.now.failed ≡ false → IfErr result (λ e. e ≡ NoMemory) }
    {
        if self.failed {
            return Err(LinkFault::Failed);
        }
        let packet = PacketValue::DataAck(AckFields {
            dst: self.setup.remote,
            src: self.setup.local,
            ack1: self.acknowledgement(),
            ack2: None,
        });
        self.written(&packet)
    }
}
