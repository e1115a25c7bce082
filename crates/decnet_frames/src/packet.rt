//! The NSP packet in a frame.

ghost use Rattle.std.specs.Prelude.{◌≡◌, ◌≤◌, ◌+◌, length};
ghost use Rattle.decnet_frames.specs.Frames.{carried_of, bytes_by_length, data_of, fitting, is_node as the_node, is_tag as the_tag, long_of, routing_message, nsp_packet_of, packet_by_flags, short_of, payload_by_type, packet_after_padding as the_unpadded, bytes_after_tags as the_untagged};
ghost use Rattle.decnet_frames.specs.Frames.{FindsAs};

use byteorder::{ByteOrder, LittleEndian};
use dap_listing::MAX_PACKET;

/// An NSP packet, and the nodes that sent and receive it.
#[derive(Clone, Copy, Debug, PartialEq)]
pub struct Carried<'a> {
    pub source: u16,
    pub destination: u16,
    pub packet: &'a [u8],
}

/// Why a frame has no NSP packet that is listed.
#[derive(Clone, Copy, Debug, PartialEq, Eq)]
pub enum Passed {
    /// It isn't one of DECnet.
    OtherFrame,
    /// It is shorter than it says, or than a header.
    CutShort,
    /// It has a routing message, as hello, and no data.
    OtherMessage,
    /// The packet has more than `MAX_PACKET` bytes.
    TooLong,
    /// The packet is one of a node to itself.
    ToItself,
}

/// The two station addresses before a frame's type.
const STATIONS: usize = 12;

/// The bit of a first byte that begins padding, and the other bits of which count it (DECnet routing layer 2.0.0).
const PADDING: u8 = 0x80;

/// The lower three bits of the flags of data with a long header, and of data with a short one.
const LONG: u8 = 6;

const SHORT: u8 = 2;

/// The bytes of a long header and of a short one.
const LONG_HEADER: usize = 21;

const SHORT_HEADER: usize = 6;

/// Returns whether the type is that of a tag.
fn is_tag(high: u8, low: u8) -> bool
    ensures { result ≡ the_tag high low }
{
    matches!((high, low), (0x81, 0x00) | (0x88, 0xA8) | (0x91, 0x00))
}

/// Returns the type of a frame and what follows it, after the tags.
fn untagged(bytes: &[u8]) -> &[u8]
    ensures { result.now ≡ the_untagged bytes.now }
{
    let mut rest = bytes;
    while let [high, low, _, _, behind @ ..] = rest {
        if !is_tag(*high, *low) {
            return rest;
        }
        rest = behind;
    }
    rest
}

/// Returns as many bytes as the first two say, the lowest of which is first.
fn take_counted(bytes: &[u8]) -> Result<&[u8], Passed>
    ensures { FindsAs (λ x. x.now) result (bytes_by_length bytes.now) }
{
    if bytes.len() < 2 {
        return Err(Passed::CutShort);
    }
    let (count, rest) = bytes.split_at(2);
    let count = LittleEndian::read_u16(count) as usize;
    if count == 0 || rest.len() < count {
        return Err(Passed::CutShort);
    }
    let (front, _) = rest.split_at(count);
    Ok(front)
}

/// Returns the routing message after a type.
fn after_type(bytes: &[u8]) -> Result<&[u8], Passed>
    ensures { FindsAs (λ x. x.now) result (payload_by_type bytes.now) }
{
    let [high, low, rest @ ..] = bytes else {
        return Err(Passed::OtherFrame);
    };
    if *high != 0x60 || *low != 0x03 {
        return Err(Passed::OtherFrame);
    }
    take_counted(rest)
}

/// Returns the routing message of a frame.
fn message(frame: &[u8]) -> Result<&[u8], Passed>
    ensures { FindsAs (λ x. x.now) result (routing_message frame.now) }
{
    if frame.len() < STATIONS {
        return Err(Passed::OtherFrame);
    }
    let (_, tagged) = frame.split_at(STATIONS);
    after_type(untagged(tagged))
}

/// Returns a message without the padding before it, whose first byte has bit 7 and the count.
fn unpadded(message: &[u8]) -> Result<&[u8], Passed>
    ensures { FindsAs (λ x. x.now) result (the_unpadded message.now) }
{
    let Some(first) = message.first() else {
        return Err(Passed::CutShort);
    };
    if *first < PADDING {
        return Ok(message);
    }
    let count = (*first - PADDING) as usize;
    if message.len() <= count {
        return Err(Passed::CutShort);
    }
    let (_, rest) = message.split_at(count);
    Ok(rest)
}

/// Returns whether the six bytes at an offset are the address of a node's station, which begins with AA-00-04-00.
fn is_node(message: &[u8], at: usize) -> bool
    requires { at + 4 ≤ length message.now }
    ensures { result ≡ the_node at message.now }
{
    message[at] == 0xAA && message[at + 1] == 0 && message[at + 2] == 4 && message[at + 3] == 0
}

/// Returns what is after a long header.
fn long(message: &[u8]) -> Result<Carried<'_>, Passed>
    ensures { FindsAs carried_of result (long_of message.now) }
{
    if message.len() <= LONG_HEADER {
        return Err(Passed::CutShort);
    }
    if !is_node(message, 3) || !is_node(message, 11) {
        return Err(Passed::OtherMessage);
    }
    Ok(Carried {
        source: LittleEndian::read_u16(&message[15..]),
        destination: LittleEndian::read_u16(&message[7..]),
        packet: &message[LONG_HEADER..],
    })
}

/// Returns what is after a short header.
fn short(message: &[u8]) -> Result<Carried<'_>, Passed>
    ensures { FindsAs carried_of result (short_of message.now) }
{
    if message.len() <= SHORT_HEADER {
        return Err(Passed::CutShort);
    }
    Ok(Carried {
        source: LittleEndian::read_u16(&message[3..]),
        destination: LittleEndian::read_u16(&message[1..]),
        packet: &message[SHORT_HEADER..],
    })
}

/// Returns what is after the routing header.
fn routed_message(message: &[u8]) -> Result<Carried<'_>, Passed>
    ensures { FindsAs carried_of result (packet_by_flags message.now) }
{
    let Some(flags) = message.first() else {
        return Err(Passed::CutShort);
    };
    if *flags >= PADDING {
        return Err(Passed::OtherMessage);
    }
    match *flags % 8 {
        LONG => long(message),
        SHORT => short(message),
        _ => Err(Passed::OtherMessage),
    }
}

/// Returns a packet, if it is one that a line may have, between two nodes.
fn fit<'a>(carried: Carried<'a>) -> Result<Carried<'a>, Passed>
    ensures { FindsAs carried_of result (fitting (carried_of carried.entry)) }
{
    if carried.packet.len() > MAX_PACKET {
        return Err(Passed::TooLong);
    }
    if carried.source == carried.destination {
        return Err(Passed::ToItself);
    }
    Ok(carried)
}

/// Returns the data in a frame: what is after the padding and the routing header.
fn read_data(frame: &[u8]) -> Result<Carried<'_>, Passed>
    ensures { FindsAs carried_of result (data_of frame.now) }
{
    let padded = match message(frame) {
        Ok(padded) => padded,
        Err(passed) => return Err(passed),
    };
    match unpadded(padded) {
        Ok(message) => routed_message(message),
        Err(passed) => Err(passed),
    }
}

/// Returns the NSP packet in an Ethernet frame (DECnet Phase IV, routing layer 2.0.0), of at most `MAX_PACKET` bytes
/// and between two nodes; or why there is none. It takes no memory.
pub fn read_frame(frame: &[u8]) -> Result<Carried<'_>, Passed>
    ensures { FindsAs carried_of result (nsp_packet_of frame.now) }
{
    match read_data(frame) {
        Ok(carried) => fit(carried),
        Err(passed) => Err(passed),
    }
}
