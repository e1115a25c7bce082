//! The packets of captured frames, given to a taker, and how many there are.

ghost use Rattle.std.specs.Prelude.{◌≡◌, ◌-◌, ◌+◌, [], OnErr, OnOk};
ghost use Rattle.capture_file.specs.Files.{bounded_count};
ghost use Rattle.decnet_frames.specs.Found.{found_seen};
ghost use Rattle.decnet_frames.specs.Founds.{found_as, record_founds, record_pairs};
ghost use Rattle.decnet_frames.specs.Frames.{carried_of};
ghost use Rattle.decnet_frames.specs.Ways.{nodes_of as the_nodes, pairs_after, way_in};
ghost use Rattle.decnet_frames.specs.Inner.Progress.{AddsText, AddsTexts, taken_with};

use crate::addresses::Nodes;
use crate::packet::{Carried, read_frame};
use crate::taking::{Found, Takes};
use crate::text::push_frame;
use crate::ways::{Between, Ways};
use capture_file::Time;
use std::alloc::{AllocError, Global};

/// How many packets were taken, and how many frames or packets passed over.
#[derive(Clone, Copy, Debug, PartialEq, Eq)]
pub struct Counts {
    pub taken: u64,
    pub passed: u64,
}

/// The frames that were read: which of their packets are taken, how many frames there were, and how many packets were
/// taken.
#[derive(Drop)]
pub(crate) struct Tally {
    pub(crate) ways: Ways,
    pub(crate) count: u64,
    pub(crate) taken: u64,
    /// Room for `frame N TIME`.
    pub(crate) label: Vec<u8>,
    /// Room for the text of a packet.
    pub(crate) room: Vec<u8>,
}

/// Gives a packet to a taker, and appends its text; where memory is refused nothing is appended. The room is for it.
fn give<T: Takes>(
    taker: &mut T,
    found: &Found<'_>,
    room: &mut Vec<u8>,
    text: &mut Vec<u8>,
) -> Result<(), AllocError>
    ensures given { OnOk result
        (AddsText T.taken taker.old (found_seen found.now) taker.new text.old text.new) }
    ensures kept { OnErr result (text.new.items ≡ text.old.items) }
{
    room.clear();
    taker.take(room, found)?;
    text.extend_from_slice(room)
}

/// Returns the nodes of a packet.
fn nodes_of(carried: &Carried<'_>) -> Nodes
    ensures { result ≡ the_nodes (carried_of carried.now) }
{
    Nodes {
        source: carried.source,
        destination: carried.destination,
    }
}

impl Tally {
    /// Returns what is kept before the first frame. It takes no memory.
    pub(crate) fn new(alloc: Global, between: Between) -> Self
        ensures between { result.ways.between ≡ between }
        ensures pairs { result.ways.pairs.known.keys ≡ [] }
        ensures count { result.count ≡ 0 }
        ensures taken { result.taken ≡ 0 }
    {
        Tally {
            ways: Ways::new(alloc, between),
            count: 0,
            taken: 0,
            label: Vec::new(alloc),
            room: Vec::new(alloc),
        }
    }

    /// Returns how many packets were taken, and how many frames passed over.
    pub(crate) fn counts(&self) -> Counts
        ensures taken { result.taken ≡ self.now.taken }
        ensures passed { result.passed ≡ self.now.count - self.now.taken }
    {
        Counts {
            taken: self.taken,
            passed: self.count.saturating_sub(self.taken),
        }
    }

    /// Gives a packet to a taker, if it is one that is taken, and appends its text.
    fn give_packet<T: Takes>(
        &mut self,
        taker: &mut T,
        time: Option<Time>,
        carried: &Carried<'_>,
        text: &mut Vec<u8>,
    ) -> Result<(), AllocError>
        ensures given { OnOk result (AddsTexts T.taken taker.old
            (found_as (way_in self.old.ways.between self.old.ways.pairs.known.keys
            (the_nodes (carried_of carried.now))) self.old.count time (carried_of carried.now))
            taker.new text.old text.new) }
        ensures between { self.new.ways.between ≡ self.old.ways.between }
        ensures pairs { OnOk result (self.new.ways.pairs.known.keys
            ≡ pairs_after self.old.ways.between self.old.ways.pairs.known.keys
            (the_nodes (carried_of carried.now))) }
        ensures count { self.new.count ≡ self.old.count }
        ensures taken { OnOk result (self.new.taken ≡ taken_with self.old.taken
            (found_as (way_in self.old.ways.between self.old.ways.pairs.known.keys
            (the_nodes (carried_of carried.now))) self.old.count time (carried_of carried.now))) }
        ensures kept { OnErr result (text.new.items ≡ text.old.items) }
    {
        let nodes = nodes_of(carried);
        let Some(way) = self.ways.way(nodes)? else {
            return Ok(());
        };
        self.label.clear();
        push_frame(&mut self.label, self.count, time)?;
        let found = Found {
            way,
            frame: &self.label,
            nodes: Some(nodes),
            packet: carried.packet,
        };
        give(taker, &found, &mut self.room, text)?;
        self.taken = self.taken.saturating_add(1);
        Ok(())
    }

    /// Counts the next frame, gives its packet to a taker, if it has one that is taken, and appends its text. Where
    /// memory is refused nothing is appended.
    pub(crate) fn give_frame<T: Takes>(
        &mut self,
        taker: &mut T,
        time: Option<Time>,
        is_ethernet: bool,
        frame: &[u8],
        text: &mut Vec<u8>,
    ) -> Result<(), AllocError>
        ensures given { OnOk result (AddsTexts T.taken taker.old
            (record_founds self.old.ways.between self.old.ways.pairs.known.keys
            (bounded_count (self.old.count + 1))
            (record { time = time; is_ethernet = is_ethernet; bytes = frame.now }))
            taker.new text.old text.new) }
        ensures between { self.new.ways.between ≡ self.old.ways.between }
        ensures pairs { OnOk result (self.new.ways.pairs.known.keys
            ≡ record_pairs self.old.ways.between self.old.ways.pairs.known.keys
            (record { time = time; is_ethernet = is_ethernet; bytes = frame.now })) }
        ensures count { OnOk result (self.new.count ≡ bounded_count (self.old.count + 1)) }
        ensures taken { OnOk result (self.new.taken ≡ taken_with self.old.taken
            (record_founds self.old.ways.between self.old.ways.pairs.known.keys
            (bounded_count (self.old.count + 1))
            (record { time = time; is_ethernet = is_ethernet; bytes = frame.now }))) }
        ensures kept { OnErr result (text.new.items ≡ text.old.items) }
    {
        self.count = self.count.saturating_add(1);
        if !is_ethernet {
            return Ok(());
        }
        match read_frame(frame) {
            Ok(carried) => self.give_packet(taker, time, &carried, text),
            Err(_) => Ok(()),
        }
    }
}
