//! Which packets of a capture file are taken, and their signs.

ghost use Rattle.std.specs.Prelude.{◌≡◌, [], IfOk, OnOk, is_some};
ghost use Rattle.decnet_frames.specs.Ways.{ends_from as the_sender_first, ends_to as the_receiver_first, pairs_after, pairs_with, way_among, way_in, way_of as the_way};

use crate::addresses::Nodes;
use dap_listing::Direction;
use indexmap::IndexSet;
use std::alloc::{AllocError, Global};

/// Two nodes: each an area in the upper six bits, and a number in it.
#[derive(Clone, Copy, Debug, PartialEq, Eq, Hash)]
pub struct Ends {
    pub first: u16,
    pub other: u16,
}

/// Between which nodes packets are taken.
#[derive(Clone, Copy, Debug, PartialEq, Eq)]
pub enum Between {
    /// Between any two. Of lines also those whose nodes aren't known.
    All,
    /// Between these two, either way: of a file `>` from the first one.
    Two(Ends),
}

/// The maximum of the pairs of nodes that are kept.
const MAX_PAIRS: usize = 65_536;

/// Returns the ends of a packet, its sender first.
fn ends_from(nodes: Nodes) -> Ends
    ensures { result ≡ the_sender_first nodes }
{
    Ends {
        first: nodes.source,
        other: nodes.destination,
    }
}

/// Returns the ends of a packet, its receiver first.
fn ends_to(nodes: Nodes) -> Ends
    ensures { result ≡ the_receiver_first nodes }
{
    Ends {
        first: nodes.destination,
        other: nodes.source,
    }
}

/// Returns the sign of a packet between two nodes; None of the packets of others.
fn way_of(ends: Ends, nodes: Nodes) -> Option<Direction>
    ensures { result ≡ the_way ends nodes }
{
    if nodes.source == ends.first && nodes.destination == ends.other {
        return Some(Direction::Right);
    }
    if nodes.source == ends.other && nodes.destination == ends.first {
        return Some(Direction::Left);
    }
    None
}

/// Returns whether a packet of these nodes goes between two, either way.
pub(crate) fn is_between(ends: Ends, nodes: Nodes) -> bool
    ensures { result ≡ is_some (the_way ends nodes) }
{
    way_of(ends, nodes).is_some()
}

/// What is kept of the pairs of nodes: each with the sender of its first packet first.
#[derive(Drop)]
pub(crate) struct Pairs {
    pub(crate) known: IndexSet<Ends>,
}

impl Pairs {
    /// Returns no pairs. It takes no memory.
    fn new(alloc: Global) -> Self
        ensures { result.known.keys ≡ [] }
    {
        Pairs {
            known: IndexSet::new(alloc),
        }
    }

    /// Returns the sign of a packet, whose pair is kept if there is room.
    fn way(&mut self, nodes: Nodes) -> Result<Direction, AllocError>
        ensures pairs { OnOk result (self.new.known.keys ≡ pairs_with self.old.known.keys nodes) }
        ensures way { IfOk result
            (λ way. way ≡ way_among (pairs_with self.old.known.keys nodes) nodes) }
    {
        let sent = ends_from(nodes);
        if self.known.contains(&sent) {
            return Ok(Direction::Right);
        }
        if self.known.contains(&ends_to(nodes)) {
            return Ok(Direction::Left);
        }
        if self.known.len() < MAX_PAIRS {
            self.known.insert(sent)?;
            return Ok(Direction::Right);
        }
        if nodes.source < nodes.destination {
            return Ok(Direction::Right);
        }
        Ok(Direction::Left)
    }
}

/// Which packets of a file are taken, and the pairs of nodes so far.
#[derive(Drop)]
pub(crate) struct Ways {
    pub(crate) between: Between,
    pub(crate) pairs: Pairs,
}

impl Ways {
    /// Returns what is kept before the first packet. It takes no memory.
    pub(crate) fn new(alloc: Global, between: Between) -> Self
        ensures between { result.between ≡ between }
        ensures pairs { result.pairs.known.keys ≡ [] }
    {
        Ways {
            between,
            pairs: Pairs::new(alloc),
        }
    }

    /// Returns the sign of a packet that is taken, or None of one that isn't.
    pub(crate) fn way(&mut self, nodes: Nodes) -> Result<Option<Direction>, AllocError>
        ensures between { self.new.between ≡ self.old.between }
        ensures pairs { OnOk result (self.new.pairs.known.keys
            ≡ pairs_after self.old.between self.old.pairs.known.keys nodes) }
        ensures way { IfOk result
            (λ way. way ≡ way_in self.old.between self.old.pairs.known.keys nodes) }
    {
        match self.between {
            Between::All => Ok(Some(self.pairs.way(nodes)?)),
            Between::Two(ends) => Ok(way_of(ends, nodes)),
        }
    }
}
