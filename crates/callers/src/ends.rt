//! `dap_end`: both ends, each with its link, and a line that loses the first packet.

use crate::trouble::{Lines, Trouble};
use dap_accessing::Request;
use dap_end::{AskingEnd, ServingEnd};
use nsp_link::{LinkSetup, MAX_LIMIT};
use std::alloc::Global;

/// The server goes on while fewer bytes wait than this: 1 MiB.
const MAX_WAITING: u64 = 1 << 20;

/// Returns the limits of the link of an end with these addresses.
fn setup(local: u16, remote: u16) -> LinkSetup {
    LinkSetup {
        local,
        remote,
        seg_size: 512,
        window: 8,
        max_message: MAX_LIMIT,
    }
}

/// Asks a request; the packets are lost, and the oldest is written again.
fn ask(alloc: Global, end: &mut AskingEnd, request: &Request) -> Result<Vec<u8>, Trouble> {
    let (mut lost, mut reports) = (Vec::new(alloc), Vec::new(alloc));
    end.ask(request)?;
    end.go_on(&mut lost, &mut reports)?;
    Ok(end.resend(0)?)
}

/// Gives a packet to the server, and returns the packets that answer it.
fn serve(
    alloc: Global,
    end: &mut ServingEnd,
    packet: &[u8],
    out: &mut Lines,
) -> Result<Vec<Vec<u8>>, Trouble> {
    let mut back = Vec::new(alloc);
    let got = end.take(packet, MAX_WAITING, &mut back)?;
    let waits = end.link().unacked();
    out.line(format_args!("ends: serving: {got:?}, {waits} unacknowledged"));
    Ok(back)
}

/// Gives a packet to the client, and returns the packets that answer it.
fn read(
    alloc: Global,
    end: &mut AskingEnd,
    packet: &[u8],
    out: &mut Lines,
) -> Result<Vec<Vec<u8>>, Trouble> {
    let (mut back, mut reports) = (Vec::new(alloc), Vec::new(alloc));
    let got = end.take(packet, &mut back, &mut reports)?;
    out.line(format_args!("ends: asking: {got:?}, {} reports", reports.len()));
    Ok(back)
}

/// Lets an answer come, which is acknowledged.
fn acknowledge(
    alloc: Global,
    asking: &mut AskingEnd,
    serving: &mut ServingEnd,
    answer: &[u8],
    out: &mut Lines,
) -> Result<(), Trouble> {
    let packets = read(alloc, asking, answer, out)?;
    for packet in &packets {
        serve(alloc, serving, packet, out)?;
    }
    Ok(())
}

/// Lets both ends do what a request takes.
fn exchange(
    alloc: Global,
    asking: &mut AskingEnd,
    serving: &mut ServingEnd,
    out: &mut Lines,
) -> Result<(), Trouble> {
    let asked = ask(alloc, asking, &Request::Hello)?;
    let answers = serve(alloc, serving, &asked, out)?;
    for answer in &answers {
        acknowledge(alloc, asking, serving, answer, out)?;
    }
    Ok(())
}

/// Asks a request: its packet is lost and written again; the answer comes, and is acknowledged.
pub fn call(alloc: Global, out: &mut Lines) -> Result<(), Trouble> {
    let mut asking = AskingEnd::new(alloc, 1024, setup(0x0101, 0x0202))?;
    let mut serving = ServingEnd::new(alloc, 1024, setup(0x0202, 0x0101))?;
    exchange(alloc, &mut asking, &mut serving, out)
}
