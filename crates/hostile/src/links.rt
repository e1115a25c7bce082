//! Two ends of a link.

use crate::growing::{Growing, Trouble, at, put};
use crate::reading::look_at_link;
use crate::text::Text;
use nsp_link::{Got, LinkEnd, LinkFault, LinkSetup};
use std::alloc::Global;

/// Which end.
#[derive(Clone, Copy)]
enum End {
    A,
    B,
}

use End::{A, B};

/// What is done to an end. Each packet that is written is kept, in order from 0.
#[derive(Clone, Copy)]
enum Act {
    Send(&'static [u8]),
    SendAll(&'static [&'static [u8]]),
    Next,
    Resend(usize),
    Acknowledge,
    Receive(usize),
}

/// Three messages in seven segments, which come late, twice and in another order; and one back.
const ACTS: &[(End, Act)] = &[
    (A, Act::Send(b"first")),
    (A, Act::SendAll(&[b"second", b"", b"third"])),
    (B, Act::Send(b"answers")),
    (A, Act::Next),
    (A, Act::Next),
    (A, Act::Next),
    (A, Act::Next),
    (B, Act::Next),
    (B, Act::Receive(2)),
    (B, Act::Receive(1)),
    (B, Act::Receive(3)),
    (B, Act::Receive(0)),
    (B, Act::Receive(2)),
    (B, Act::Acknowledge),
    (A, Act::Receive(5)),
    (A, Act::Receive(4)),
    (A, Act::Next),
    (A, Act::Next),
    (A, Act::Resend(1)),
    (B, Act::Receive(8)),
    (A, Act::Resend(0)),
    (B, Act::Receive(9)),
    (A, Act::Next),
    (B, Act::Receive(10)),
    (B, Act::Next),
    (A, Act::Receive(11)),
];

/// Both ends.
#[derive(Drop)]
struct Pair {
    a: LinkEnd,
    b: LinkEnd,
}

/// Returns the limits of an end with these addresses.
fn setup(local: u16, remote: u16) -> LinkSetup {
    LinkSetup {
        local,
        remote,
        seg_size: 4,
        window: 4,
        max_message: 64,
    }
}

/// Makes both ends.
fn new_pair(alloc: Global) -> Result<Pair, LinkFault> {
    let a = LinkEnd::new(alloc, setup(0x0101, 0x0202))?;
    let b = LinkEnd::new(alloc, setup(0x0202, 0x0101))?;
    Ok(Pair { a, b })
}

/// Keeps a packet that an end wrote, for which there is room.
pub fn keep(
    packets: &mut Vec<Vec<u8>>,
    written: Result<Vec<u8>, LinkFault>,
) -> Result<(), Trouble> {
    Ok(packets.push(written?)?)
}

/// Keeps the next packet of an end, which has one.
pub fn keep_next(
    packets: &mut Vec<Vec<u8>>,
    written: Result<Option<Vec<u8>>, LinkFault>,
) -> Result<(), Trouble> {
    match written? {
        Some(packet) => keep(packets, Ok(packet)),
        None => Err(Trouble::Wrong),
    }
}

/// Returns the packet at an index, or no bytes where there is none.
pub fn packet_of(packets: &[Vec<u8>], index: usize) -> &[u8] {
    match packets.get(index) {
        Some(packet) => packet,
        None => &[],
    }
}

/// Notes what became of a packet.
fn note_got(got: &mut Text, received: Result<Got, LinkFault>) -> Result<(), Trouble> {
    got.show(&received?);
    Ok(())
}

/// Copies the messages.
fn copies(alloc: Global, list: &[&[u8]]) -> Result<Vec<Vec<u8>>, Trouble> {
    let mut all = Vec::new(alloc);
    for message in list {
        all.push(Vec::from_slice(alloc, message)?)?;
    }
    Ok(all)
}

/// Queues all messages, or none.
fn send_all(alloc: Global, end: &mut LinkEnd, list: &[&[u8]]) -> Result<(), Trouble> {
    let all = copies(alloc, list)?;
    Ok(end.send_all(&all)?)
}

/// Does one act of an end.
fn perform(
    alloc: Global,
    end: &mut LinkEnd,
    act: Act,
    packets: &mut Vec<Vec<u8>>,
    got: &mut Text,
) -> Result<(), Trouble> {
    match act {
        Act::Send(message) => Ok(end.send(message)?),
        Act::SendAll(list) => send_all(alloc, end, list),
        Act::Next => keep_next(packets, end.next_packet()),
        Act::Resend(index) => keep(packets, end.resend(index)),
        Act::Acknowledge => keep(packets, end.ack_packet()),
        Act::Receive(index) => note_got(got, end.receive(packet_of(packets, index))),
    }
}

/// The ends, and what they wrote and answered.
#[derive(Drop)]
pub struct Links {
    alloc: Global,
    pair: Option<Pair>,
    packets: Vec<Vec<u8>>,
    got: Text,
}

impl Links {
    pub fn new(alloc: Global) -> Links {
        Links {
            alloc,
            pair: None,
            packets: Vec::new(alloc),
            got: Text::new(alloc),
        }
    }

    /// Makes the ends, and room for what they give.
    fn begin(&mut self) -> Result<(), Trouble> {
        self.packets.reserve(ACTS.len())?;
        self.got.reserve()?;
        put(&mut self.pair, new_pair(self.alloc)?);
        Ok(())
    }
}

impl Growing for Links {
    fn call(&mut self, index: usize) -> Result<(), Trouble> {
        let Some(pair) = &mut self.pair else {
            return self.begin();
        };
        let (end, act) = at(ACTS, index.saturating_sub(1))?;
        let end = match end {
            End::A => &mut pair.a,
            End::B => &mut pair.b,
        };
        perform(self.alloc, end, act, &mut self.packets, &mut self.got)
    }

    fn look(&self, seen: &mut Text) {
        if let Some(pair) = &self.pair {
            look_at_link(&pair.a, seen);
            look_at_link(&pair.b, seen);
        }
        seen.note_all("packet", &self.packets);
        seen.put(self.got.as_slice());
    }
}
