//! Addresses of nodes, read.

ghost use Rattle.std.specs.Prelude.{◌≡◌, ◌≤◌, ◌<◌, ◌+◌, ◌^◌, IfSome, drop, length, take};
ghost use Rattle.texts.specs.Words.{decimal_of};
ghost use Rattle.decnet_frames.specs.Nodes.{address_by as the_address, node_address_of, node_of};

use texts::{find_byte, read_number};

/// The maximum of an area, and of a number in one (DECnet Phase IV, routing layer 2.0.0).
const MAX_AREA: u32 = 63;

const MAX_NUMBER: u32 = 1023;

/// Returns a node by its area and its number in it.
fn address_by(area: Option<u32>, number: Option<u32>) -> Option<u16>
    requires area { IfSome area (λ n. n ≤ 63) }
    requires number { IfSome number (λ n. n ≤ 1023) }
    ensures { result ≡ the_address area number }
{
    match (area, number) {
        (Some(area), Some(number)) => Some((area * 1024 + number) as u16),
        _ => None,
    }
}

/// Returns the node of an address whose point is at this offset.
fn address_at(text: &[u8], point: usize) -> Option<u16>
    requires { point < length text.now }
    ensures { result ≡ the_address (decimal_of 63 (take point text.now))
        (decimal_of 1023 (drop (point + 1) text.now)) }
{
    let (area, _) = text.split_at(point);
    let (_, number) = text.split_at(point + 1);
    address_by(read_number(area, MAX_AREA), read_number(number, MAX_NUMBER))
}

/// Returns the node of an address: its area, up to 63, and its number in it, up to 1,023, both decimal.
pub(crate) fn read_address(text: &[u8]) -> Option<u16>
    ensures { result ≡ node_address_of text.now }
{
    match find_byte(b'.', text) {
        Some(point) => address_at(text, point),
        None => None,
    }
}

/// Returns the node of an address as 1.10: its area, 1 to 63, and its number in it, 1 to 1,023, both decimal.
pub fn read_node(text: &[u8]) -> Option<u16>
    ensures { result ≡ node_of text.now }
{
    match read_address(text) {
        Some(node) if node / 1024 > 0 && node % 1024 > 0 => Some(node),
        _ => None,
    }
}
