//! Connect initiates, which end the streams of their addresses.

ghost use Rattle.std.specs.Prelude.{◌≡◌, false};
ghost use Rattle.std.specs.Option.{option_map_or};
ghost use Rattle.decnet_frames.specs.Found.{found_seen};
ghost use Rattle.dap_follow.specs.Ends.{initiator as the_initiator, is_ended_by, opposite as the_opposite, turned as the_turned};
ghost use Rattle.dap_follow.specs.Keeping.Streams.{ends_stream};

use crate::streams::Stream;
use dap_listing::Direction;
use decnet_frames::{Found, Nodes};

/// The other way.
fn opposite(way: Direction) -> Direction
    ensures { result ≡ the_opposite way }
{
    match way {
        Direction::Right => Direction::Left,
        Direction::Left => Direction::Right,
    }
}

/// The same nodes, each in the other's place.
fn turned(nodes: Option<Nodes>) -> Option<Nodes>
    ensures { result ≡ the_turned nodes }
{
    let nodes = nodes?;
    Some(Nodes {
        source: nodes.destination,
        destination: nodes.source,
    })
}

/// Returns the address from which a packet asks for a link, if it does.
fn initiator(packet: &[u8]) -> Option<u16>
    ensures { result ≡ the_initiator packet.now }
{
    match packet {
        [0x18 | 0x68, _, _, low, high, ..] => Some(u16::from(*low) + 256 * u16::from(*high)),
        _ => None,
    }
}

/// A connect initiate: the way that it went, the nodes that it went between, and the address that it came from.
#[derive(Clone, Copy)]
pub(crate) struct Initiate {
    pub(crate) way: Direction,
    pub(crate) nodes: Option<Nodes>,
    pub(crate) address: u16,
}

impl Initiate {
    /// Returns a packet as a connect initiate, if it is one.
    pub(crate) fn of(found: &Found<'_>) -> Option<Self>
        ensures { (stream : _) → option_map_or (λ one. ends_stream one stream) result false
            ≡ is_ended_by (found_seen found.now) stream }
    {
        let address = initiator(found.packet)?;
        Some(Initiate {
            way: found.way,
            nodes: found.nodes,
            address,
        })
    }

    /// Returns whether it ends a stream.
    pub(crate) fn ends(&self, stream: &Stream) -> bool
        ensures { result ≡ ends_stream self.now stream.now }
    {
        if stream.way == self.way {
            stream.nodes == self.nodes && stream.src == self.address
        } else {
            stream.nodes == turned(self.nodes) && stream.dst == self.address
        }
    }
}
