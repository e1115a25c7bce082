//! The client and the server, each with its link, over a line between them.

use crate::growing::{Growing, Trouble, at, put};
use crate::links::{keep, keep_next, packet_of};
use crate::reading::{look_at_files, look_at_link, look_at_reports};
use crate::requests::request;
use crate::text::Text;
use dap_accessed::AddFault;
use dap_accessing::{ReadFault, Report};
use dap_end::{AskingEnd, EndFault, Heard, ServingEnd, TakeFault};
use nsp_link::{LinkFault, LinkSetup, MAX_LIMIT};
use rec_file::{Refusal, Shape};
use std::alloc::Global;

/// The buffer of each end.
const BUFFER: u16 = 1024;

/// The server goes on while fewer bytes wait than this.
const MAX_WAITING: u64 = 1 << 20;

/// What an end does with its link. Each packet that it writes is kept, in order from 0.
#[derive(Clone, Copy)]
enum Deed {
    Takes(usize),
    Receives(usize),
    GoesOn,
    Posts,
    Emits,
    Resends(usize),
    Acknowledges,
    Renews,
}

use Deed::*;

/// What is done.
#[derive(Clone, Copy)]
enum Act {
    /// The server is given a relative file, and a record of it.
    Add(&'static [u8]),
    AddRecord(u32, &'static [u8]),
    Ask(&'static str),
    Read,
    Serve,
    Asking(Deed),
    Serving(Deed),
}

use Act::*;

/// A file is opened and fetched call by call, packets come late, twice and in another order; then both links are
/// renewed.
const ACTS: &[Act] = &[
    Add(b"F"),
    AddRecord(3, b"three"),
    AddRecord(1, b"one"),
    Ask("hello"),
    Asking(GoesOn),
    Serving(Takes(0)),
    Serving(Takes(1)),
    Asking(Takes(1)),
    Asking(Takes(2)),
    Serving(Takes(3)),
    Ask("open 46 15"),
    Asking(Posts),
    Asking(Emits),
    Asking(Emits),
    Serving(Receives(5)),
    Serving(Receives(4)),
    Serve,
    Serve,
    Serving(Posts),
    Serving(Emits),
    Serving(Emits),
    Serving(Emits),
    Serving(Resends(1)),
    Asking(Receives(6)),
    Asking(Receives(3)),
    Asking(Receives(5)),
    Read,
    Read,
    Asking(Acknowledges),
    Serving(Receives(6)),
    Ask("connect"),
    Asking(GoesOn),
    Asking(Resends(0)),
    Serving(Takes(8)),
    Serving(Takes(7)),
    Serving(Acknowledges),
    Asking(Takes(7)),
    Ask("get"),
    Asking(GoesOn),
    Serving(Receives(10)),
    Serving(GoesOn),
    Asking(Takes(10)),
    Asking(Takes(11)),
    Serving(Renews),
    Asking(Renews),
    Ask("hello"),
    Asking(GoesOn),
    Serving(Takes(13)),
    Serving(Takes(14)),
    Asking(Takes(13)),
    Asking(Takes(14)),
];

/// The limits of the links of both ends.
const ASKING: LinkSetup = LinkSetup {
    local: 0x0101,
    remote: 0x0202,
    seg_size: 8,
    window: 8,
    max_message: MAX_LIMIT,
};

const SERVING: LinkSetup = LinkSetup {
    local: ASKING.remote,
    remote: ASKING.local,
    ..ASKING
};

/// Returns what is left to do where memory was wanted after a part of the way.
fn stopped(is_memory: bool) -> Trouble {
    if is_memory {
        Trouble::Stopped
    } else {
        Trouble::Wrong
    }
}

impl From<EndFault> for Trouble {
    fn from(fault: EndFault) -> Trouble {
        stopped(matches!(
            fault,
            EndFault::Link(LinkFault::NoMemory) | EndFault::Read(ReadFault::NoMemory)
        ))
    }
}

impl From<TakeFault> for Trouble {
    fn from(fault: TakeFault) -> Trouble {
        match fault {
            TakeFault::Refused(fault) => Trouble::from(fault),
            TakeFault::Unfinished(_, fault) => Trouble::from(fault),
        }
    }
}

impl From<AddFault> for Trouble {
    fn from(fault: AddFault) -> Trouble {
        match fault {
            AddFault::NoMemory | AddFault::Record(Refusal::NoMemory) => Trouble::Wants,
            _ => Trouble::Wrong,
        }
    }
}

/// Both ends.
#[derive(Drop)]
struct Pair {
    asking: AskingEnd,
    serving: ServingEnd,
}

/// Makes both ends.
fn new_pair(alloc: Global) -> Result<Pair, LinkFault> {
    let asking = AskingEnd::new(alloc, BUFFER, ASKING)?;
    let serving = ServingEnd::new(alloc, BUFFER, SERVING)?;
    Ok(Pair { asking, serving })
}

/// Adds an empty file of this name.
fn add(end: &mut ServingEnd, name: &[u8]) -> Result<(), Trouble> {
    match Shape::check(16, 2, 0, 3) {
        Some(shape) => Ok(end.add(name, shape)?),
        None => Err(Trouble::Wrong),
    }
}

/// Asks the request of these words.
fn ask(alloc: Global, end: &mut AskingEnd, words: &str) -> Result<(), Trouble> {
    let request = request(alloc, words)?;
    end.ask(&request)?;
    Ok(())
}

/// Reads what came, and keeps its report where there is one.
fn read(end: &mut AskingEnd, reports: &mut Vec<Report>) -> Result<(), Trouble> {
    reports.reserve(1)?;
    match end.read()? {
        Heard::Report(report) => Ok(reports.push(report)?),
        Heard::Part => Ok(()),
        Heard::Nothing => Err(Trouble::Wrong),
    }
}

/// Serves one message, which is there.
fn serve(end: &mut ServingEnd) -> Result<(), Trouble> {
    match end.serve()? {
        Some(_) => Ok(()),
        None => Err(Trouble::Wrong),
    }
}

/// Lets the client receive a packet.
fn asking_takes(
    end: &mut AskingEnd,
    packet: &[u8],
    out: &mut Vec<Vec<u8>>,
    reports: &mut Vec<Report>,
) -> Result<(), Trouble> {
    end.take(packet, out, reports)?;
    Ok(())
}

/// Lets the server receive a packet.
fn serving_takes(
    end: &mut ServingEnd,
    packet: &[u8],
    out: &mut Vec<Vec<u8>>,
) -> Result<(), Trouble> {
    end.take(packet, MAX_WAITING, out)?;
    Ok(())
}

/// Lets the server go on.
fn serving_goes_on(end: &mut ServingEnd, out: &mut Vec<Vec<u8>>) -> Result<(), Trouble> {
    match end.go_on(MAX_WAITING, out) {
        Ok(()) => Ok(()),
        Err(fault) => Err(stopped(fault == LinkFault::NoMemory)),
    }
}

/// Makes room for a packet, and lets the client write it.
fn asking_writes(end: &mut AskingEnd, deed: Deed, out: &mut Vec<Vec<u8>>) -> Result<(), Trouble> {
    out.reserve(1)?;
    match deed {
        Emits => keep_next(out, end.emit()),
        Resends(index) => keep(out, end.resend(index)),
        _ => keep(out, end.ack()),
    }
}

/// Makes room for a packet, and lets the server write it.
fn serving_writes(end: &mut ServingEnd, deed: Deed, out: &mut Vec<Vec<u8>>) -> Result<(), Trouble> {
    out.reserve(1)?;
    match deed {
        Emits => keep_next(out, end.emit()),
        Resends(index) => keep(out, end.resend(index)),
        _ => keep(out, end.ack()),
    }
}

/// Returns what a call on a link came to, apart from its number.
fn linked<T: Copy>(done: Result<T, LinkFault>) -> Result<(), Trouble> {
    match done {
        Ok(_) => Ok(()),
        Err(fault) => Err(Trouble::from(fault)),
    }
}

/// Both ends, what they wrote, and what was reported.
#[derive(Drop)]
pub struct Peers {
    alloc: Global,
    pair: Option<Pair>,
    by_asking: Vec<Vec<u8>>,
    by_serving: Vec<Vec<u8>>,
    reports: Vec<Report>,
}

impl Peers {
    pub fn new(alloc: Global) -> Peers {
        Peers {
            alloc,
            pair: None,
            by_asking: Vec::new(alloc),
            by_serving: Vec::new(alloc),
            reports: Vec::new(alloc),
        }
    }

    /// Lets the client do something with its link.
    fn asking_does(&mut self, deed: Deed) -> Result<(), Trouble> {
        let Some(Pair { asking: end, .. }) = &mut self.pair else {
            return Err(Trouble::Wrong);
        };
        let (from, out) = (&self.by_serving, &mut self.by_asking);
        match deed {
            Takes(index) => asking_takes(end, packet_of(from, index), out, &mut self.reports),
            Receives(index) => linked(end.receive(packet_of(from, index))),
            GoesOn => Ok(end.go_on(out, &mut self.reports)?),
            Posts => linked(end.post()),
            Renews => linked(end.renew(self.alloc, ASKING)),
            _ => asking_writes(end, deed, out),
        }
    }

    /// Lets the server do something with its link.
    fn serving_does(&mut self, deed: Deed) -> Result<(), Trouble> {
        let Some(Pair { serving: end, .. }) = &mut self.pair else {
            return Err(Trouble::Wrong);
        };
        let (from, out) = (&self.by_asking, &mut self.by_serving);
        match deed {
            Takes(index) => serving_takes(end, packet_of(from, index), out),
            Receives(index) => linked(end.receive(packet_of(from, index))),
            GoesOn => serving_goes_on(end, out),
            Posts => linked(end.post()),
            Renews => linked(end.renew(self.alloc, SERVING)),
            _ => serving_writes(end, deed, out),
        }
    }

    /// Makes both ends.
    fn begin(&mut self) -> Result<(), Trouble> {
        put(&mut self.pair, new_pair(self.alloc)?);
        Ok(())
    }

    /// Does one act.
    fn perform(&mut self, act: Act) -> Result<(), Trouble> {
        let Some(pair) = &mut self.pair else {
            return self.begin();
        };
        match act {
            Add(name) => add(&mut pair.serving, name),
            AddRecord(number, body) => Ok(pair.serving.add_record(number, body)?),
            Ask(words) => ask(self.alloc, &mut pair.asking, words),
            Read => read(&mut pair.asking, &mut self.reports),
            Serve => serve(&mut pair.serving),
            Asking(deed) => self.asking_does(deed),
            Serving(deed) => self.serving_does(deed),
        }
    }
}

impl Growing for Peers {
    fn call(&mut self, index: usize) -> Result<(), Trouble> {
        self.perform(at(ACTS, index.saturating_sub(1))?)
    }

    fn look(&self, seen: &mut Text) {
        if let Some(pair) = &self.pair {
            look_at_link(pair.asking.link(), seen);
            look_at_link(pair.serving.link(), seen);
            look_at_files(pair.serving.files(), seen);
        }
        seen.note_all("asking", &self.by_asking);
        seen.note_all("serving", &self.by_serving);
        look_at_reports(&self.reports, seen);
    }
}
