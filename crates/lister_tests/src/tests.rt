//! The rows.

use dap_follow::{Chosen, Lister, write_rest};
use dap_listing::Direction;
use decnet_frames::{Found, Nodes, Takes};
use std::test::Fail;

/// A packet of a row: its way, its frame, its nodes and its bytes.
type Packet = (Direction, &'static [u8], Option<Nodes>, &'static [u8]);

const RIGHT: Direction = Direction::Right;

const LEFT: Direction = Direction::Left;

/// Messages joined, without words.
const BARE: Chosen = Chosen {
    in_words: false,
    is_joined: true,
};

/// Messages joined, with words.
const FULL: Chosen = Chosen {
    in_words: true,
    is_joined: true,
};

/// Single segments, with words.
const SEGMENTS: Chosen = Chosen {
    in_words: true,
    is_joined: false,
};

/// A connect initiate from address 0101, and one from 0202.
const OPEN: &[u8] = b"\x18\x00\x00\x01\x01\x01\x25\x00";

const OPEN_BACK: &[u8] = b"\x68\x00\x00\x02\x02\x01\x25\x00";

/// Segments 1 and 3 of 0101 to 0202: each the message `ack`.
const ACK_1: &[u8] = b"\x60\x02\x02\x01\x01\x01\x00\x06\x00";

const ACK_3: &[u8] = b"\x60\x02\x02\x01\x01\x03\x00\x06\x00";

/// A segment of no bytes, with the number 2,048 and an acknowledgement.
const EMPTY: &[u8] = b"\x20\x02\x02\x01\x01\x03\x80\x00\x08";

/// A message in three segments.
const FIRST: &[u8] = b"\x20\x02\x02\x01\x01\x01\x00\x01\x00\x01\x02\x0a";

const MIDDLE: &[u8] = b"\x00\x02\x02\x01\x01\x02\x00\x00\x04\x07\x03\x05";

const LAST: &[u8] = b"\x40\x02\x02\x01\x01\x03\x00\x00\x00\x00\x00\x00";

/// Nodes 1.1 to 1.2, back, and 1.3 to 1.2.
const THERE: Option<Nodes> = Some(Nodes {
    source: 1025,
    destination: 1026,
});

const BACK: Option<Nodes> = Some(Nodes {
    source: 1026,
    destination: 1025,
});

const OTHER: Option<Nodes> = Some(Nodes {
    source: 1027,
    destination: 1026,
});

/// Returns what a lister makes of packets, with what is left at the end.
fn list(rt: HostRuntime, chosen: Chosen, packets: &[Packet]) -> Result<Vec<u8>, Fail> {
    let mut lister = Lister::new(rt.alloc(), chosen);
    let mut all = Vec::new(rt.alloc());
    for (way, frame, nodes, packet) in packets {
        let mut text = Vec::new(rt.alloc());
        let found = Found {
            way: *way,
            frame: *frame,
            nodes: *nodes,
            packet: *packet,
        };
        lister.take(&mut text, &found)?;
        all.extend_from_slice(&text)?;
    }
    match write_rest(rt.alloc(), &lister, &mut all) {
        Ok(()) => Ok(all),
        Err(_) => Err(Fail::from(std::alloc::AllocError)),
    }
}

#[test]
fn a_link_opened_again_has_its_own_messages(rt: HostRuntime) -> Result<(), Fail> {
    let packets = [
        (RIGHT, b"".as_slice(), None, ACK_1),
        (RIGHT, b"", None, ACK_3),
        (RIGHT, b"", None, b"\x38\x02\x02\x01\x01\x00\x00"),
        (RIGHT, b"", None, OPEN),
        (RIGHT, b"", None, ACK_1),
    ];
    let text = list(rt, BARE, &packets)?;
    let wanted = "\
1 > segment only dst=0202 src=0101 seg=1 acks=- len=2
  message seg=1..1 len=2
  ack
2 > segment only dst=0202 src=0101 seg=3 acks=- len=2
  message seg=3..3 len=2
  ack
3 > not-here control
gap > dst=0202 src=0101 seg=2..2
4 > not-here control
5 > segment only dst=0202 src=0101 seg=1 acks=- len=2
  message seg=1..1 len=2
  ack
";
    assert_eq!(&rt; text.as_slice(), wanted.as_bytes());
    Ok(())
}

#[test]
fn nodes_part_streams(rt: HostRuntime) -> Result<(), Fail> {
    let packets = [
        (RIGHT, b"frame 1 1.000000".as_slice(), THERE, OPEN),
        (RIGHT, b"frame 2 2.000000", THERE, ACK_1),
        (RIGHT, b"frame 3 -", OTHER, ACK_1),
        (RIGHT, b"frame 4 4.000000", OTHER, EMPTY),
        (RIGHT, b"frame 5 5.000000", THERE, ACK_3),
        (LEFT, b"frame 6 6.000000", BACK, OPEN_BACK),
    ];
    let text = list(rt, FULL, &packets)?;
    let wanted = "\
1 > 1.1 -> 1.2 not-here control ; frame 1 1.000000, connect initiate
2 > 1.1 -> 1.2 segment only dst=0202 src=0101 seg=1 acks=- len=2 ; frame 2 2.000000
  message seg=1..1 len=2
  ack
3 > 1.3 -> 1.2 segment only dst=0202 src=0101 seg=1 acks=- len=2 ; frame 3 -
  message seg=1..1 len=2
  ack
4 > 1.3 -> 1.2 segment first dst=0202 src=0101 seg=2048 acks=0:3 len=0 ; frame 4 4.000000
5 > 1.1 -> 1.2 segment only dst=0202 src=0101 seg=3 acks=- len=2 ; frame 5 5.000000
  message seg=3..3 len=2
  ack
gap > 1.1 -> 1.2 dst=0202 src=0101 seg=2..2
6 < 1.2 -> 1.1 not-here control ; frame 6 6.000000, connect initiate again
gap > 1.3 -> 1.2 dst=0202 src=0101 seg=2..2047
part > 1.3 -> 1.2 dst=0202 src=0101 seg=2048..2048 len=0
";
    assert_eq!(&rt; text.as_slice(), wanted.as_bytes());
    Ok(())
}

#[test]
fn a_message_is_under_its_last_segment(rt: HostRuntime) -> Result<(), Fail> {
    let packets = [
        (RIGHT, b"".as_slice(), None, FIRST),
        (RIGHT, b"", None, LAST),
        (RIGHT, b"", None, MIDDLE),
        (RIGHT, b"", None, FIRST),
    ];
    let text = list(rt, FULL, &packets)?;
    let wanted = "\
1 > segment first dst=0202 src=0101 seg=1 acks=- len=5
2 > segment last dst=0202 src=0101 seg=3 acks=- len=5
3 > segment middle dst=0202 src=0101 seg=2 acks=- len=5
  message seg=1..3 len=15
  config bufsiz=513 ostype=10 filesys=0 version=4.7.3.5.0 syscap=0
4 > segment first dst=0202 src=0101 seg=1 acks=- len=5
";
    assert_eq!(&rt; text.as_slice(), wanted.as_bytes());
    Ok(())
}

#[test]
fn single_segments_have_their_messages(rt: HostRuntime) -> Result<(), Fail> {
    let packets = [
        (RIGHT, b"".as_slice(), None, ACK_1),
        (RIGHT, b"", THERE, FIRST),
        (RIGHT, b"frame 9 -", THERE, ACK_1),
    ];
    let text = list(rt, SEGMENTS, &packets)?;
    let wanted = "\
1 > segment only dst=0202 src=0101 seg=1 acks=- len=2
  ack
2 > 1.1 -> 1.2 segment first dst=0202 src=0101 seg=1 acks=- len=5
3 > 1.1 -> 1.2 segment only dst=0202 src=0101 seg=1 acks=- len=2 ; frame 9 -
  ack
";
    assert_eq!(&rt; text.as_slice(), wanted.as_bytes());
    Ok(())
}
