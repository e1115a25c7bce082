//! Receiving: packets, the segments that they carry, and what they acknowledge.

ghost use Rattle.std.specs.Prelude.{◌≡◌, ◌+◌, ◌<◌, ◌≤◌, ◌++◌, [], ◌∷◌, length, drop, take, Ok, Err, Some, None, IfOk, IfErr, OnOk, OnErr, IsTrue, MatchOption, MatchResult, ℕ, List, false};
ghost use Rattle.nsp_seg.specs.declared.packet.SegFault.{SegFault};
ghost use Rattle.nsp_seg.specs.declared.packet.Packet.{Packet};
ghost use Rattle.nsp_seg.specs.declared.packet.Packet.TheVariants.{Segment as ASegment};
ghost use Rattle.nsp_seg.specs.Packets.{Spells, HasFault};
ghost use Rattle.nsp_link.specs.declared.fault.LinkFault.TheVariants.{BadSequence, Failed, NoMemory, WrongLink, Malformed};
ghost use Rattle.nsp_link.specs.declared.link.Got.TheVariants.{Accepted};
ghost use Rattle.nsp_link.specs.Coming.{AllFitInOrder, RefusesAll};
ghost use Rattle.nsp_link.specs.Cutting.{bytes_in, part_after};
ghost use Rattle.nsp_link.specs.Link.{Stands, SendsStill, HandsOut, KeepsEarly, got_of, first_ack, plain_ack, with_acked};
ghost use Rattle.nsp_link.specs.Receiving.{newly_acked, run, segment_number, taking_in, ends_link, is_oversize, end_after_refusal, NotTaken, ReceivesPacket, ReceivedBytes, ReceivedDue, UnrefusedDue, LetsGo, ReceivesBounded, BoundedBytes};
ghost use Rattle.nsp_link.specs.Inner.Pieces.{lent_piece, piece_values};

use crate::fault::LinkFault;
use crate::incoming::take_run;
use crate::link::{Got, LinkEnd};
use crate::piece::{Piece, Segment};
use crate::ring::{advance, fill, is_free};
use nsp_seg::{AckField, PacketValue, SegmentFields, Seq12, decode_value};
use std::collections::VecDeque;

/// A number that is this far ahead of another, or farther, is an earlier one: half of the 4,096 numbers (NSP 4.0.0,
/// segment numbers).
const HALF_ROUND: u16 = 2048;

impl LinkEnd {
    /// Removes the oldest whole message and returns it.
    pub fn take_message(&mut self) -> Option<Vec<u8>>
        ensures value { MatchOption result ((self.old.coming.inbox ≡ []) × (self.new ≡ self.old))
            (λ m. HandsOut self.old self.new m.items) }
        ensures stands { (size : ℕ) (messages given : List (List ℕ))
            → Stands self.old size messages given
            → MatchOption result (Stands self.new size messages given)
            (λ m. Stands self.new size messages (given ++ m.items ∷ [])) }
        ensures sends { SendsStill self.old self.new }
    {
        self.incoming.inbox.pop_front()
    }

    /// Takes a packet from the other end (NSP 4.0.0, data segment message and data acknowledgement message). Its first
    /// acknowledgement field with qualifier 0 counts and no other; a number that is 2,048 or more ahead of the last
    /// one acknowledged, modulo 4,096, is an earlier one, and acknowledges nothing. An early segment is held where its
    /// distance from the next one is below the window, the first copy of it; the segment that closes the gap is taken
    /// with all that follow it without a hole, or none of them is.
    ///
    /// Refused, in this order: `Failed`; `Malformed`; `WrongLink`, where it isn't from the other end to this one;
    /// `BadSequence`, where it acknowledges what wasn't sent; of the next segment, or of the first at fault of those
    /// that follow it, `BadSequence`, where a first mark is elsewhere than at the start of a message, or
    /// `MessageTooLong`, above `max_message`; `Exhausted`, where all of these would be more than 2^40 segments;
    /// `NoMemory`. After `BadSequence` and `MessageTooLong` nothing of the packet was taken and every later call that
    /// can refuse returns `Failed`; every other refusal changes nothing.
    pub fn receive(&mut self, packet: &[u8]) -> Result<Got, LinkFault>
        ensures failed { IsTrue self.old.failed → (result ≡ Err Failed) × (self.new ≡ self.old) }
        // Any packet, by the numbers that it shows.
        ensures any { self.old.failed ≡ false → (p : Packet) → Spells p packet.now
            → ReceivesPacket self.old p result self.new }
        // All bytes: they are malformed, which changes nothing, or they are a packet.
        ensures whole { self.old.failed ≡ false
            → ReceivedBytes self.old self.new packet.now result }
        // Bytes at fault are malformed with that fault, and these alone; this changes nothing.
        ensures fault_found { self.old.failed ≡ false → (f : SegFault) → HasFault f packet.now
            → (result ≡ Err (Malformed f)) × (self.new ≡ self.old) }
        ensures malformed { (f : SegFault) → result ≡ Err (Malformed f)
            → HasFault f packet.now × (self.new ≡ self.old) }
        // The messages sent stay those that were sent.
        ensures sends { SendsStill self.old self.new }
        // A packet that is due, by the counts for which its numbers stand.
        ensures due { ReceivedDue self.old self.new packet.now result }
        // One that only acknowledges, or whose segment was taken before, is never refused.
        ensures unrefused { UnrefusedDue self.old packet.now result }
    {
        if self.failed {
            return Err(LinkFault::Failed);
        }
        match decode_value(packet) {
            Ok(packet) => self.receive_packet(&packet),
            Err(fault) => Err(LinkFault::Malformed(fault)),
        }
    }

    /// Receives as [`LinkEnd::receive`] does, save that an early segment with more than `max_message` bytes isn't
    /// held: it is answered as early, and of its packet the acknowledgement alone is taken. No message that this end
    /// takes has such a segment, and a peer can't fill the window with them.
    pub fn receive_bounded(&mut self, packet: &[u8]) -> Result<Got, LinkFault>
        ensures failed { IsTrue self.old.failed → (result ≡ Err Failed) × (self.new ≡ self.old) }
        // Any packet, by the numbers that it shows, and its length.
        ensures any { self.old.failed ≡ false → (p : Packet) → Spells p packet.now
            → ReceivesBounded self.old p result self.new }
        // All bytes: they are malformed, which changes nothing, or they are a packet.
        ensures whole { self.old.failed ≡ false
            → BoundedBytes self.old self.new packet.now result }
        // Bytes at fault are malformed with that fault, and these alone; this changes nothing.
        ensures fault_found { self.old.failed ≡ false → (f : SegFault) → HasFault f packet.now
            → (result ≡ Err (Malformed f)) × (self.new ≡ self.old) }
        ensures malformed { (f : SegFault) → result ≡ Err (Malformed f)
            → HasFault f packet.now × (self.new ≡ self.old) }
        // The messages sent stay those that were sent.
        ensures sends { SendsStill self.old self.new }
        // A packet that is due, by the counts for which its numbers stand.
        ensures due { ReceivedDue self.old self.new packet.now result }
        // One that only acknowledges, or whose segment was taken before, is never refused.
        ensures unrefused { UnrefusedDue self.old packet.now result }
    {
        if self.failed {
            return Err(LinkFault::Failed);
        }
        match decode_value(packet) {
            Ok(packet) => self.receive_fitting(&packet),
            Err(fault) => Err(LinkFault::Malformed(fault)),
        }
    }

    /// Takes in a packet that was read, and holds no segment that is longer than a message may be.
    fn receive_fitting(&mut self, packet: &PacketValue<'_>) -> Result<Got, LinkFault>
        ensures { ReceivesBounded self.old packet.now result self.new }
    {
        match packet {
            PacketValue::Segment(segment) if self.is_oversize(segment) => self.let_go(segment),
            _ => self.receive_packet(packet),
        }
    }

    /// Returns whether a segment is early, and longer than a message may be.
    fn is_oversize(&self, segment: &SegmentFields<'_>) -> bool
        ensures { result ≡ is_oversize self.now (ASegment segment.now) }
    {
        let ahead = segment
            .number
            .ahead_of(Seq12::of(self.incoming.received + 1));
        0 < ahead && ahead < HALF_ROUND && segment.payload.0.len() > self.setup.max_message
    }

    /// Takes the acknowledgement of an early segment alone. A fault of it ends the link.
    fn let_go(&mut self, segment: &SegmentFields<'_>) -> Result<Got, LinkFault>
        ensures { LetsGo self.old (ASegment segment.now) result self.new }
    {
        self.check_address(segment.dst, segment.src)?;
        match self.believe(segment.ack1, segment.ack2) {
            Ok(count) => {
                self.forget(count);
                Ok(Got::Early)
            }
            Err(fault) => {
                self.failed = true;
                Err(fault)
            }
        }
    }

    /// Takes in a packet that was read. A fault which shows that the two ends have lost each other ends the link.
    fn receive_packet(&mut self, packet: &PacketValue<'_>) -> Result<Got, LinkFault>
        ensures { ReceivesPacket self.old packet.now result self.new }
    {
        let result = self.take_packet(packet);
        if let Err(fault) = result
            && ends_link(fault)
        {
            self.failed = true;
        }
        result
    }

    /// Takes in a packet that was read; where it is refused, nothing changes.
    fn take_packet(&mut self, packet: &PacketValue<'_>) -> Result<Got, LinkFault>
        ensures ok { IfOk result (λ got. ReceivesPacket self.old packet.now (Ok got) self.new) }
        ensures err { IfErr result
            (λ e. ReceivesPacket self.old packet.now (Err e) (end_after_refusal e self.old)) }
        ensures unchanged { OnErr result (self.new ≡ self.old) }
    {
        match packet {
            PacketValue::DataAck(ack) => {
                self.check_address(ack.dst, ack.src)?;
                let count = self.believe(Some(ack.ack1), ack.ack2)?;
                self.forget(count);
                Ok(Got::AckOnly)
            }
            PacketValue::Segment(segment) => {
                self.check_address(segment.dst, segment.src)?;
                let count = self.believe(segment.ack1, segment.ack2)?;
                let piece = Piece {
                    first: segment.first,
                    last: segment.last,
                    payload: segment.payload.0,
                };
                let got = self.take_segment(segment.number, &piece)?;
                self.forget(count);
                Ok(got)
            }
        }
    }

    /// Checks that a packet is from the other end to this one.
    fn check_address(&self, dst: u16, src: u16) -> Result<(), LinkFault>
        ensures { MatchResult result
            (λ _. (src ≡ self.now.setup.remote) × (dst ≡ self.now.setup.local))
            (λ e. (e ≡ WrongLink)
            × ((src ≡ self.now.setup.remote) × (dst ≡ self.now.setup.local) → ⊥)) }
    {
        if src == self.setup.remote && dst == self.setup.local {
            Ok(())
        } else {
            Err(LinkFault::WrongLink)
        }
    }

    /// Returns how many segments the first plain field acknowledges anew.
    fn believe(&self, ack1: Option<AckField>, ack2: Option<AckField>) -> Result<usize, LinkFault>
        ensures ok { IfOk result
            (λ count. newly_acked self.now (first_ack ack1 ack2) ≡ Some count) }
        ensures sent { IfOk result (λ count. self.now.acked + count ≤ self.now.sent) }
        ensures err { IfErr result
            (λ e. (e ≡ BadSequence) × (newly_acked self.now (first_ack ack1 ack2) ≡ None)) }
    {
        let unacked = self.unacked();
        let Some(number) = plain_number(ack1).or(plain_number(ack2)) else {
            return Ok(0);
        };
        let ahead = usize::from(number.ahead_of(Seq12::of(self.acked)));
        if ahead >= usize::from(HALF_ROUND) {
            Ok(0)
        } else if ahead > unacked {
            Err(LinkFault::BadSequence)
        } else {
            Ok(ahead)
        }
    }

    /// Drops the oldest segments, which are acknowledged.
    fn forget(&mut self, count: usize)
        requires { self.old.acked + count ≤ self.old.sent }
        ensures { self.new ≡ with_acked self.old count }
    {
        let (part, waiting) = drop_front(&mut self.queue, self.part, self.waiting, count);
        self.part = part;
        self.waiting = waiting;
        self.acked += count as u64;
    }

    /// Takes in a segment from the other end; where it is refused, nothing changes.
    fn take_segment(&mut self, number: Seq12, piece: &Piece<&[u8]>) -> Result<Got, LinkFault>
        ensures got { IfOk result
            (λ got. got ≡ got_of self.old.coming.received (Some (segment_number self.old number))) }
        ensures fit { IfOk result (λ got. got ≡ Accepted
            → AllFitInOrder self.old.setup.max_message self.old.coming
            (run self.old (lent_piece piece.now))) }
        ensures taken { OnOk result (self.new
            ≡ taking_in self.old (segment_number self.old number) (lent_piece piece.now)) }
        ensures err { IfErr result (λ e. (self.new ≡ self.old)
            × NotTaken self.old (segment_number self.old number) (lent_piece piece.now) e) }
    {
        let ahead = number.ahead_of(Seq12::of(self.incoming.received + 1));
        if ahead == 0 {
            self.take_next(piece)?;
            Ok(Got::Accepted)
        } else if ahead < HALF_ROUND {
            self.keep(usize::from(ahead), piece)?;
            Ok(Got::Early)
        } else {
            Ok(Got::Repeat)
        }
    }

    /// Takes in the next segment and all that follow it, or none of them.
    fn take_next(&mut self, piece: &Piece<&[u8]>) -> Result<(), LinkFault>
        ensures ok { OnOk result (AllFitInOrder self.old.setup.max_message self.old.coming
            (run self.old (lent_piece piece.now))) }
        ensures taken { OnOk result
            (self.new ≡ taking_in self.old (self.old.coming.received + 1) (lent_piece piece.now)) }
        ensures err { IfErr result (λ e. RefusesAll self.old.setup.max_message self.old.coming
            (run self.old (lent_piece piece.now)) e × (self.new ≡ self.old)) }
    {
        let limit = self.setup.max_message;
        let count = take_run(self.alloc, limit, &mut self.incoming, piece, &self.held)?;
        advance(&mut self.held, count);
        self.early -= count - 1;
        Ok(())
    }

    /// Keeps an early segment, this many numbers after the next one, unless it is beyond the window or kept already.
    fn keep(&mut self, index: usize, piece: &Piece<&[u8]>) -> Result<(), LinkFault>
        requires { 0 < index }
        ensures ok { OnOk result (self.new
            ≡ taking_in self.old (self.old.coming.received + 1 + index) (lent_piece piece.now)) }
        ensures err { IfErr result (λ e. (e ≡ NoMemory)
            × KeepsEarly self.old (self.old.coming.received + 1 + index) × (self.new ≡ self.old)) }
    {
        if is_free(&self.held, index) {
            let payload = Vec::from_slice(self.alloc, piece.payload)?;
            let held = Piece {
                payload,
                first: piece.first,
                last: piece.last,
            };
            fill(&mut self.held, index, held);
            self.early += 1;
        }
        Ok(())
    }
}

/// Returns whether the fault says that the two ends have lost each other.
fn ends_link(fault: LinkFault) -> bool
    ensures { result ≡ ends_link fault }
{
    matches!(fault, LinkFault::BadSequence | LinkFault::MessageTooLong)
}

/// Drops this many segments from the start of the queue. Returns how many bytes of the message to which the next one
/// belongs are dropped, and how many bytes wait then; `part` and `waiting` are these counts before.
fn drop_front(queue: &mut VecDeque<Segment>, part: u64, waiting: u64, count: usize) -> (u64, u64)
    requires few { count ≤ length queue.old.items }
    requires counted { waiting ≡ part + bytes_in (piece_values queue.old.items) }
    ensures queue { queue.new.items ≡ drop count queue.old.items }
    ensures part { result.0 ≡ part_after part (take count (piece_values queue.old.items)) }
    ensures counted { result.1 ≡ result.0 + bytes_in (piece_values queue.new.items) }
    ensures fewer { result.1 ≤ waiting }
{
    let mut part = part;
    let mut waiting = waiting;
    for _ in 0..count {
        let Some(segment) = queue.pop_front() else {
            break;
        };
        part += segment.payload.len() as u64;
        if segment.last {
            waiting -= part;
            part = 0;
        }
    }
    (part, waiting)
}

/// Returns the number of a field that acknowledges segments of this subchannel.
fn plain_number(ack: Option<AckField>) -> Option<Seq12>
    ensures { result ≡ plain_ack ack }
{
    match ack {
        Some(field) if field.qual == 0 => Some(field.number),
        _ => None,
    }
}
