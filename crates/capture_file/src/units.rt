//! The units of a file, and how long they are.

ghost use Rattle.std.specs.Prelude.{◌≡◌, ◌≤◌, ◌+◌, Ok, IfOk, length, true, false};
ghost use Rattle.capture_file.specs.Units.{block_extent as the_block_extent, extent_of as the_extent, head_len as the_head_len, is_section as the_section, byte_order_of as the_order, pcap_of as the_pcap, section_extent as the_section_extent};

use crate::FaultKind;
use crate::numbers::u32_at;

/// Which byte of a number comes first.
#[derive(Clone, Copy, Debug, PartialEq, Eq)]
pub enum Order {
    /// The highest.
    Big,
    /// The lowest.
    Little,
}

/// What a file is known to be before one of its units.
#[derive(Clone, Copy, Debug, PartialEq, Eq)]
pub enum Format {
    /// Nothing was read yet.
    Start,
    /// A pcap file, whose times have this many digits of a second.
    Pcap(Order, u8),
    /// A section of a pcapng file.
    Section(Order),
}

/// How long a unit is, and whether all of it is kept, or only its head and the last four bytes.
#[derive(Clone, Copy, Debug, PartialEq, Eq)]
pub struct Extent {
    pub long: usize,
    pub whole: bool,
}

/// The maximum of a record or of a block that is kept, in bytes. tcpdump takes no more of a frame.
pub const MAX_UNIT: usize = 262_144;

/// The length of a block, which is at its end again (pcapng, 3.1).
pub(crate) const TAIL: usize = 4;

/// The head of a block, and what begins a file.
pub(crate) const HEAD: usize = 12;

/// The head of a packet's record (pcap, 5).
pub(crate) const RECORD: usize = 16;

/// The header of a file (pcap, 4).
pub(crate) const FILE_HEADER: usize = 24;

pub(crate) const SECTION: u32 = 0x0A0D_0D0A;

const ORDER: u32 = 0x1A2B_3C4D;

pub(crate) const INTERFACE: u32 = 1;

pub(crate) const SIMPLE: u32 = 3;

pub(crate) const ENHANCED: u32 = 6;

pub(crate) const MICROSECONDS: u32 = 0xA1B2_C3D4;

pub(crate) const NANOSECONDS: u32 = 0xA1B2_3C4D;

pub(crate) const MICROSECONDS_TURNED: u32 = 0xD4C3_B2A1;

pub(crate) const NANOSECONDS_TURNED: u32 = 0x4D3C_B2A1;

/// Returns how many bytes tell how long a unit is.
pub(crate) fn head_len(format: Format) -> usize
    ensures value { result ≡ the_head_len format }
    ensures least { 12 ≤ result }
    ensures most { result ≤ 16 }
{
    match format {
        Format::Pcap(_, _) => RECORD,
        Format::Start | Format::Section(_) => HEAD,
    }
}

/// Returns whether the head is that of a section.
pub(crate) fn is_section(head: &[u8]) -> bool
    requires { 4 ≤ length head.now }
    ensures { result ≡ the_section head.now }
{
    u32_at(Order::Big, head, 0) == SECTION
}

/// Returns the byte order of a section.
pub(crate) fn order_of(head: &[u8]) -> Option<Order>
    requires { 12 ≤ length head.now }
    ensures { result ≡ the_order head.now }
{
    if u32_at(Order::Big, head, 8) == ORDER {
        return Some(Order::Big);
    }
    if u32_at(Order::Little, head, 8) == ORDER {
        return Some(Order::Little);
    }
    None
}

/// Returns what a pcap file's first four bytes say.
pub(crate) fn pcap_of(head: &[u8]) -> Option<Format>
    requires { 4 ≤ length head.now }
    ensures { result ≡ the_pcap head.now }
{
    let magic = u32_at(Order::Big, head, 0);
    if magic == MICROSECONDS {
        return Some(Format::Pcap(Order::Big, 6));
    }
    if magic == NANOSECONDS {
        return Some(Format::Pcap(Order::Big, 9));
    }
    if magic == MICROSECONDS_TURNED {
        return Some(Format::Pcap(Order::Little, 6));
    }
    if magic == NANOSECONDS_TURNED {
        return Some(Format::Pcap(Order::Little, 9));
    }
    None
}

/// Returns the extent of a block of a kind.
fn block_extent(least: usize, kind: u32, total: u32) -> Result<Extent, FaultKind>
    ensures value { result ≡ the_block_extent least kind total }
    ensures long { IfOk result (λ extent. least ≤ extent.long) }
    ensures passed { IfOk result (λ extent. extent.whole ≡ false → 16 ≤ extent.long) }
{
    let long = total as usize;
    if long < least || long % 4 != 0 {
        return Err(FaultKind::BadLength);
    }
    if kind != INTERFACE && kind != SIMPLE && kind != ENHANCED {
        return Ok(Extent {
            long,
            whole: long < HEAD + TAIL,
        });
    }
    if long > MAX_UNIT {
        return Err(FaultKind::TooLong);
    }
    Ok(Extent { long, whole: true })
}

/// Returns the extent of the header of a section.
fn section_extent(head: &[u8]) -> Result<Extent, FaultKind>
    requires { 12 ≤ length head.now }
    ensures value { result ≡ the_section_extent head.now }
    ensures long { IfOk result (λ extent. 28 ≤ extent.long) }
{
    match order_of(head) {
        None => Err(FaultKind::UnknownOrder),
        Some(order) => block_extent(28, SECTION, u32_at(order, head, 4)),
    }
}

/// Returns the extent of a unit, by its head.
pub(crate) fn extent_of(format: Format, head: &[u8]) -> Result<Extent, FaultKind>
    requires { length head.now ≡ the_head_len format }
    ensures value { result ≡ the_extent format head.now }
    ensures long { IfOk result (λ extent. the_head_len format ≤ extent.long) }
    ensures passed { IfOk result
        (λ extent. extent.whole ≡ false → (the_head_len format ≡ 12) × (16 ≤ extent.long)) }
{
    match format {
        Format::Pcap(order, _) => {
            let count = u32_at(order, head, 8) as usize;
            if count > MAX_UNIT {
                return Err(FaultKind::TooLong);
            }
            Ok(Extent {
                long: RECORD + count,
                whole: true,
            })
        }
        Format::Start => {
            if is_section(head) {
                return section_extent(head);
            }
            if pcap_of(head).is_none() {
                return Err(FaultKind::UnknownMagic);
            }
            Ok(Extent {
                long: FILE_HEADER,
                whole: true,
            })
        }
        Format::Section(order) => {
            if is_section(head) {
                return section_extent(head);
            }
            block_extent(12, u32_at(order, head, 0), u32_at(order, head, 4))
        }
    }
}
