//! Numbers of two, four and eight bytes.

ghost use Rattle.std.specs.Prelude.{◌≡◌, ◌≤◌, ◌+◌, length};
ghost use Rattle.capture_file.specs.Numbers.{u16_at as the_u16, u32_at as the_u32, u64_at as the_u64};

use crate::units::Order;
use byteorder::{BigEndian, ByteOrder, LittleEndian};

/// Returns the number of four bytes at an offset.
#[tactic(auto, unfolding(crate::specs::Numbers::u32_at))]
pub(crate) fn u32_at(order: Order, bytes: &[u8], at: usize) -> u32
    requires { at + 4 ≤ length bytes.now }
    ensures { result ≡ the_u32 order at bytes.now }
{
    let front = &bytes[at..];
    match order {
        Order::Big => BigEndian::read_u32(front),
        Order::Little => LittleEndian::read_u32(front),
    }
}

/// Returns the number of two bytes at an offset.
#[tactic(auto, unfolding(crate::specs::Numbers::u16_at))]
pub(crate) fn u16_at(order: Order, bytes: &[u8], at: usize) -> u16
    requires { at + 2 ≤ length bytes.now }
    ensures { result ≡ the_u16 order at bytes.now }
{
    let front = &bytes[at..];
    match order {
        Order::Big => BigEndian::read_u16(front),
        Order::Little => LittleEndian::read_u16(front),
    }
}

/// Returns the number of eight bytes at an offset.
#[tactic(auto, unfolding(crate::specs::Numbers::u64_at))]
pub(crate) fn u64_at(order: Order, bytes: &[u8], at: usize) -> u64
    requires { at + 8 ≤ length bytes.now }
    ensures { result ≡ the_u64 order at bytes.now }
{
    let front = &bytes[at..];
    match order {
        Order::Big => BigEndian::read_u64(front),
        Order::Little => LittleEndian::read_u64(front),
    }
}
