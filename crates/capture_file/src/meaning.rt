//! What a unit says.

ghost use Rattle.std.specs.Prelude.{◌≡◌, ◌≤◌, ◌+◌, IfOk, length, option_map};
ghost use Rattle.capture_file.specs.Meanings.{block_meaning as the_block, ends_well as the_end, enhanced_meaning as the_enhanced, file_meaning as the_file, captured_count as the_captured, interface_meaning as the_interface, kind_meaning as the_kind, meaning_of as the_meaning, offset_of as the_offset, record_meaning as the_record, resolution_of as the_resolution, section_meaning as the_section_meaning, simple_meaning as the_simple, value_from};
ghost use Rattle.capture_file.specs.Numbers.{u32_at as the_u32};
ghost use Rattle.capture_file.specs.Inner.Frames.{HasFrame};

use crate::FaultKind;
use crate::numbers::{u16_at, u32_at, u64_at};
use crate::units::{
    ENHANCED, FILE_HEADER, Format, INTERFACE, Order, RECORD, SIMPLE, TAIL, is_section, order_of,
    pcap_of,
};

/// When a frame was captured. A second has 10 to the power of the resolution parts, or, where the resolution is above
/// 127, 2 to that of what it is above 128 (`if_tsresol` of pcapng). The offset is in seconds, as two's complement
/// (`if_tsoffset`). The sum of both counts from the beginning of 1970.
#[derive(Clone, Copy, Debug, PartialEq, Eq)]
pub struct Time {
    pub parts: u64,
    pub resolution: u8,
    pub offset: u64,
}

/// An interface of a section.
#[derive(Clone, Copy, Debug, PartialEq, Eq)]
pub struct Interface {
    pub is_ethernet: bool,
    /// The maximum of a captured frame in bytes; 0 sets no limit.
    pub limit: u32,
    pub resolution: u8,
    pub offset: u64,
}

/// A captured frame: its time, if the file has one; whether it is one of Ethernet; and where its bytes are in what is
/// kept of its unit.
#[derive(Clone, Copy, Debug, PartialEq, Eq)]
pub struct Given {
    pub time: Option<Time>,
    pub is_ethernet: bool,
    pub from: usize,
    pub count: usize,
}

/// What a unit says.
#[derive(Clone, Copy, Debug, PartialEq, Eq)]
pub enum Meaning {
    /// A file or a section begins.
    Begins(Format),
    Describes(Interface),
    Gives(Given),
    Nothing,
}

/// The link type of Ethernet.
const ETHERNET: u16 = 1;

/// The maximum number of interfaces of a section.
pub const MAX_INTERFACES: usize = 1024;

/// The resolution of times that an interface has without an option.
const MICROSECONDS: u8 = 6;

/// The option with the resolution of times (`if_tsresol`).
const RESOLUTION: u16 = 9;

/// The option with seconds that are added to times (`if_tsoffset`).
const OFFSET: u16 = 14;

/// The last option.
const NO_MORE: u16 = 0;

/// The code and the length of an option.
const OPTION_HEAD: usize = 4;

/// Returns the value of the first option of a code.
#[tactic(auto, using(crate::proofs::OptionLemmas::one_option))]
fn option_value(order: Order, code: u16, options: &[u8]) -> Option<&[u8]>
    ensures { option_map (λ value. value.now) result
        ≡ value_from (length options.now) order code options.now }
{
    let mut left = options.len();
    let mut rest = options;
    while left > 0 {
        if rest.len() < OPTION_HEAD {
            return None;
        }
        let found = u16_at(order, rest, 0);
        if found == NO_MORE {
            return None;
        }
        let count = u16_at(order, rest, 2) as usize;
        let (_, value) = rest.split_at(OPTION_HEAD);
        if found == code {
            let (value, _) = value.split_at(count.min(value.len()));
            return Some(value);
        }
        let padded = (count + 3) / 4 * 4;
        let (_, after) = value.split_at(padded.min(value.len()));
        rest = after;
        left -= 1;
    }
    None
}

/// Returns the resolution of an interface's times, by its options.
fn resolution_of(order: Order, options: &[u8]) -> u8
    ensures { result ≡ the_resolution order options.now }
{
    match option_value(order, RESOLUTION, options) {
        Some([resolution, ..]) => *resolution,
        _ => MICROSECONDS,
    }
}

/// Returns the seconds that are added to an interface's times, by its options.
fn offset_of(order: Order, options: &[u8]) -> u64
    ensures { result ≡ the_offset order options.now }
{
    match option_value(order, OFFSET, options) {
        Some(value) if value.len() == 8 => u64_at(order, value, 0),
        _ => 0,
    }
}

/// Returns what the header of a pcap file says.
fn file_meaning(kept: &[u8]) -> Result<Meaning, FaultKind>
    requires { 12 ≤ length kept.now }
    ensures value { result ≡ the_file kept.now }
    ensures within { IfOk result (HasFrame kept.now) }
{
    if kept.len() < FILE_HEADER {
        return Err(FaultKind::BadLength);
    }
    let Some(format) = pcap_of(kept) else {
        return Err(FaultKind::UnknownMagic);
    };
    let order = match format {
        Format::Pcap(order, _) => order,
        Format::Start | Format::Section(_) => return Err(FaultKind::UnknownMagic),
    };
    if u32_at(order, kept, 20) % 65_536 != u32::from(ETHERNET) {
        return Err(FaultKind::OtherLink);
    }
    Ok(Meaning::Begins(format))
}

/// Returns what a record of a pcap file says.
fn record_meaning(order: Order, digits: u8, kept: &[u8]) -> Result<Meaning, FaultKind>
    ensures value { result ≡ the_record order digits kept.now }
    ensures within { IfOk result (HasFrame kept.now) }
{
    if kept.len() < RECORD {
        return Err(FaultKind::BadLength);
    }
    let seconds = u64::from(u32_at(order, kept, 0));
    let parts = u64::from(u32_at(order, kept, 4));
    let second = if digits == 9 {
        1_000_000_000
    } else {
        1_000_000
    };
    Ok(Meaning::Gives(Given {
        time: Some(Time {
            parts: seconds * second + parts,
            resolution: digits,
            offset: 0,
        }),
        is_ethernet: true,
        from: RECORD,
        count: kept.len() - RECORD,
    }))
}

/// Returns whether the length at a block's end is the one in its head.
fn ends_well(order: Order, kept: &[u8]) -> bool
    requires { 12 ≤ length kept.now }
    ensures { result ≡ the_end order kept.now }
{
    u32_at(order, kept, kept.len() - TAIL) == u32_at(order, kept, 4)
}

/// Returns what the header of a section says.
fn section_meaning(kept: &[u8]) -> Result<Meaning, FaultKind>
    requires { 12 ≤ length kept.now }
    ensures value { result ≡ the_section_meaning kept.now }
    ensures within { IfOk result (HasFrame kept.now) }
{
    match order_of(kept) {
        None => Err(FaultKind::UnknownOrder),
        Some(order) => {
            if !ends_well(order, kept) {
                return Err(FaultKind::BadLength);
            }
            Ok(Meaning::Begins(Format::Section(order)))
        }
    }
}

/// Returns what the description of an interface says.
fn interface_meaning(order: Order, count: usize, kept: &[u8]) -> Result<Meaning, FaultKind>
    requires { 12 ≤ length kept.now }
    ensures value { result ≡ the_interface order count kept.now }
    ensures within { IfOk result (HasFrame kept.now) }
{
    if kept.len() < 20 {
        return Err(FaultKind::BadLength);
    }
    if count >= MAX_INTERFACES {
        return Err(FaultKind::TooManyInterfaces);
    }
    let options = &kept[16..kept.len() - TAIL];
    Ok(Meaning::Describes(Interface {
        is_ethernet: u16_at(order, kept, 8) == ETHERNET,
        limit: u32_at(order, kept, 12),
        resolution: resolution_of(order, options),
        offset: offset_of(order, options),
    }))
}

/// Returns what a packet's block says.
fn enhanced_meaning(
    order: Order,
    interfaces: &[Interface],
    kept: &[u8],
) -> Result<Meaning, FaultKind>
    requires { 12 ≤ length kept.now }
    ensures value { result ≡ the_enhanced order interfaces.now kept.now }
    ensures within { IfOk result (HasFrame kept.now) }
{
    if kept.len() < 32 {
        return Err(FaultKind::BadLength);
    }
    let count = u32_at(order, kept, 20) as usize;
    if kept.len() < 32 + count {
        return Err(FaultKind::BadLength);
    }
    let high = u64::from(u32_at(order, kept, 12));
    let low = u64::from(u32_at(order, kept, 16));
    let index = u32_at(order, kept, 8) as usize;
    if index >= interfaces.len() {
        return Ok(Meaning::Gives(Given {
            time: None,
            is_ethernet: false,
            from: 28,
            count,
        }));
    }
    let interface = interfaces[index];
    Ok(Meaning::Gives(Given {
        time: Some(Time {
            parts: high * 4_294_967_296 + low,
            resolution: interface.resolution,
            offset: interface.offset,
        }),
        is_ethernet: interface.is_ethernet,
        from: 28,
        count,
    }))
}

/// Returns how many bytes of a frame of the first interface were captured.
fn captured_count(interfaces: &[Interface], count: u32) -> u32
    ensures { result ≡ the_captured interfaces.now count }
{
    match interfaces {
        [first, ..] if first.limit != 0 => count.min(first.limit),
        _ => count,
    }
}

/// Returns what the block of a simple packet says, which is one of the first interface.
fn simple_meaning(order: Order, interfaces: &[Interface], kept: &[u8]) -> Result<Meaning, FaultKind>
    requires { 12 ≤ length kept.now }
    ensures value { result ≡ the_simple order interfaces.now kept.now }
    ensures within { IfOk result (HasFrame kept.now) }
{
    if kept.len() < 16 {
        return Err(FaultKind::BadLength);
    }
    let captured = captured_count(interfaces, u32_at(order, kept, 8));
    Ok(Meaning::Gives(Given {
        time: None,
        is_ethernet: match interfaces {
            [first, ..] => first.is_ethernet,
            [] => false,
        },
        from: 12,
        count: (captured as usize).min(kept.len() - 16),
    }))
}

/// Returns what a block of a kind says.
fn kind_meaning(order: Order, interfaces: &[Interface], kept: &[u8]) -> Result<Meaning, FaultKind>
    requires { 12 ≤ length kept.now }
    ensures value { result ≡ the_kind order interfaces.now kept.now (the_u32 order 0 kept.now) }
    ensures within { IfOk result (HasFrame kept.now) }
{
    match u32_at(order, kept, 0) {
        INTERFACE => interface_meaning(order, interfaces.len(), kept),
        SIMPLE => simple_meaning(order, interfaces, kept),
        ENHANCED => enhanced_meaning(order, interfaces, kept),
        _ => Ok(Meaning::Nothing),
    }
}

/// Returns what a block says that begins no section.
fn block_meaning(order: Order, interfaces: &[Interface], kept: &[u8]) -> Result<Meaning, FaultKind>
    requires { 12 ≤ length kept.now }
    ensures value { result ≡ the_block order interfaces.now kept.now }
    ensures within { IfOk result (HasFrame kept.now) }
{
    if !ends_well(order, kept) {
        return Err(FaultKind::BadLength);
    }
    kind_meaning(order, interfaces, kept)
}

/// Returns what a unit says, by what is kept of it.
pub(crate) fn meaning_of(
    format: Format,
    interfaces: &[Interface],
    kept: &[u8],
) -> Result<Meaning, FaultKind>
    requires { 12 ≤ length kept.now }
    ensures value { result ≡ the_meaning format interfaces.now kept.now }
    ensures within { IfOk result (HasFrame kept.now) }
{
    match format {
        Format::Pcap(order, digits) => record_meaning(order, digits, kept),
        Format::Start => {
            if is_section(kept) {
                return section_meaning(kept);
            }
            file_meaning(kept)
        }
        Format::Section(order) => {
            if is_section(kept) {
                return section_meaning(kept);
            }
            block_meaning(order, interfaces, kept)
        }
    }
}
