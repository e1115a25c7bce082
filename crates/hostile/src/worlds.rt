//! Both ends over both links, event by event.

use crate::growing::{Growing, Trouble, put, when};
use crate::reading::{look_at_files, look_at_link, look_at_reports};
use crate::requests::request;
use crate::text::Text;
use End::{A, B};
use dap_world::{End, Event, Request, Step, World, WorldFault, WorldSetup};
use std::alloc::Global;

/// What happens.
#[derive(Clone, Copy, Drop)]
pub enum Act {
    Ask(&'static str),
    /// A request is asked by itself, and not as an event.
    Give(&'static str),
    Post(End),
    Emit(End),
    Resend(End, usize),
    Acknowledge(End),
    /// The end gets the packet that the other wrote last.
    Take(End),
    Serve,
    Read,
    Settle(End),
    Finish,
}

/// What happens, part by part.
pub type Script = &'static [&'static [Act]];

/// What A asked is brought to B.
const SEND: &[Act] = &[Act::Post(A), Act::Emit(A), Act::Take(B)];

/// What B answered is brought to A.
const ANSWER: &[Act] = &[Act::Post(B), Act::Emit(B), Act::Take(A)];

const SERVE: &[Act] = &[Act::Serve];

const READ: &[Act] = &[Act::Read];

const FINISH: &[Act] = &[Act::Finish];

const HELLO: &[Act] = &[Act::Ask("hello")];

const CREATE: &[Act] = &[Act::Ask("create 46 0 2 0 0 3")];

const CONNECT: &[Act] = &[Act::Ask("connect")];

const PUT_TEN: &[Act] = &[Act::Give("put 61616161616161616161")];

/// A record of 200 bytes.
const LONG: &str =
    "put 6262626262626262626262626262626262626262626262626262626262626262626262626262626262626262626262626262626262626262626262626262626262626262626262626262626262626262626262626262626262626262626262626262626262626262626262626262626262626262626262626262626262626262626262626262626262626262626262626262626262626262626262626262626262626262626262626262626262626262626262626262626262626262626262626262626262626262";

const PUT_LONG: &[Act] = &[Act::Give(LONG)];

/// Acknowledged before it is served; its answer is lost, written again, and comes twice.
const PUT_LOST: &[Act] = &[
    Act::Ask("put 41"),
    Act::Post(A),
    Act::Emit(A),
    Act::Take(B),
    Act::Acknowledge(B),
    Act::Take(A),
    Act::Serve,
    Act::Serve,
    Act::Post(B),
    Act::Emit(B),
    Act::Resend(B, 0),
    Act::Take(A),
    Act::Take(A),
    Act::Read,
];

/// A put whose answer is lost, written again, and comes twice.
pub const LOST: Script = &[
    HELLO, SEND, SERVE, ANSWER, READ, CREATE, SEND, SERVE, SERVE, ANSWER, READ, READ, CONNECT,
    SEND, SERVE, ANSWER, READ, PUT_LOST,
];

/// A transfer that stops at a record which is longer than A takes, and goes on after it.
pub const STOPPING: Script = &[
    HELLO,
    SEND,
    SERVE,
    ANSWER,
    READ,
    CREATE,
    SEND,
    SERVE,
    SERVE,
    ANSWER,
    READ,
    READ,
    CONNECT,
    SEND,
    SERVE,
    ANSWER,
    READ,
    PUT_TEN,
    SEND,
    SERVE,
    SERVE,
    ANSWER,
    READ,
    PUT_LONG,
    SEND,
    SERVE,
    SERVE,
    ANSWER,
    READ,
    PUT_TEN,
    SEND,
    SERVE,
    SERVE,
    ANSWER,
    READ,
    &[Act::Ask("fetch")],
    SEND,
    SERVE,
    ANSWER,
    READ,
    READ,
    &[Act::Ask("continue again")],
    SEND,
    SERVE,
    ANSWER,
    READ,
    &[Act::Ask("continue skip")],
    SEND,
    SERVE,
    ANSWER,
    READ,
    READ,
];

/// All that was sent is lost: it is sent again, and everything finished.
pub const SETTLING: Script = &[
    HELLO,
    &[
        Act::Post(A),
        Act::Emit(A),
        Act::Emit(A),
        Act::Emit(A),
        Act::Emit(A),
        Act::Settle(A),
    ],
    FINISH,
    CREATE,
    FINISH,
    CONNECT,
    &[Act::Post(A), Act::Emit(A)],
    FINISH,
    PUT_TEN,
    &[Act::Post(A), Act::Emit(A), Act::Settle(B)],
    FINISH,
    &[Act::Ask("close")],
    FINISH,
];

/// Returns the act at this index of a script.
fn act_at(script: Script, index: usize) -> Option<Act> {
    let mut rest = index;
    for part in script {
        if let Some(act) = part.get(rest) {
            return Some(*act);
        }
        rest -= part.len();
    }
    None
}

/// A world, and what came of the events.
#[derive(Drop)]
pub struct Playing {
    alloc: Global,
    setup: WorldSetup,
    world: Option<World>,
    script: Script,
    shows_wires: bool,
    steps: Text,
}

impl Playing {
    /// Creates the subject. What is settled after a refusal is written once more, so there the wires are not shown.
    pub fn new(alloc: Global, setup: WorldSetup, script: Script, shows_wires: bool) -> Playing {
        Playing {
            alloc,
            setup,
            world: None,
            script,
            shows_wires,
            steps: Text::new(alloc),
        }
    }

    /// Makes the world, and room for the steps.
    fn begin(&mut self) -> Result<(), Trouble> {
        self.steps.reserve()?;
        put(&mut self.world, World::new(self.alloc, self.setup)?);
        Ok(())
    }
}

/// Returns what a run came to: one that memory stopped goes on from the last event that happened.
fn ran(ran: Result<usize, WorldFault>) -> Result<(), Trouble> {
    match ran {
        Ok(_count) => Ok(()),
        Err(WorldFault::NoMemory) => Err(Trouble::Stopped),
        Err(_) => Err(Trouble::Wrong),
    }
}

/// Notes what came of an event.
fn note_step(steps: &mut Text, step: Result<Step, WorldFault>) -> Result<(), Trouble> {
    steps.show(&step?);
    Ok(())
}

/// Asks the request of these words, as an event.
fn ask(alloc: Global, world: &mut World, words: &str, steps: &mut Text) -> Result<(), Trouble> {
    let event = Event::Ask(request(alloc, words)?);
    note_step(steps, world.apply(&event))
}

/// Asks the request of these words by itself.
fn give(alloc: Global, world: &mut World, words: &str, steps: &mut Text) -> Result<(), Trouble> {
    let request = request(alloc, words)?;
    note_step(steps, world.ask(request))
}

/// Returns the index of the last packet that an end wrote.
fn last(world: &World, end: End) -> usize {
    world.wire(end).len().saturating_sub(1)
}

/// Returns the event of an act.
fn event(world: &World, act: Act) -> Event {
    match act {
        Act::Post(end) => Event::Post(end),
        Act::Emit(end) => Event::Emit(end),
        Act::Resend(end, index) => Event::Resend(end, index),
        Act::Acknowledge(end) => Event::Ack(end),
        Act::Take(A) => Event::Deliver(A, last(world, B)),
        Act::Take(B) => Event::Deliver(B, last(world, A)),
        Act::Serve => Event::Serve,
        _ => Event::Read,
    }
}

/// Does one act, and notes what came of it, where it is one event.
fn perform(alloc: Global, world: &mut World, act: Act, steps: &mut Text) -> Result<(), Trouble> {
    match act {
        Act::Settle(end) => ran(world.settle(end)),
        Act::Finish => ran(world.finish()),
        Act::Give(words) => give(alloc, world, words, steps),
        Act::Ask(words) => ask(alloc, world, words, steps),
        _ => {
            let event = event(world, act);
            note_step(steps, world.apply(&event))
        }
    }
}

/// Appends what the readers of a world answer.
fn look_at_world(world: &World, seen: &mut Text) {
    for request in world.requests() {
        seen.put(b"\n");
        seen.show(request);
    }
    seen.note("read", world.read_count());
    seen.note_all("sent", world.sent());
    seen.note_all("taken", world.taken());
    look_at_reports(world.reports(), seen);
    look_at_files(world.files(), seen);
}

/// Appends what the readers of an end of a world answer.
fn look_at_side(world: &World, end: End, seen: &mut Text) {
    look_at_link(world.link(end), seen);
    for wired in world.wire(end) {
        seen.note_bytes("packet", &wired.packet);
        seen.note("segment", wired.segment.unwrap_or(0));
        seen.note("acks", wired.acks);
    }
}

impl Growing for Playing {
    fn call(&mut self, index: usize) -> Result<(), Trouble> {
        let Some(world) = &mut self.world else {
            return self.begin();
        };
        match act_at(self.script, index.saturating_sub(1)) {
            Some(act) => perform(self.alloc, world, act, &mut self.steps),
            None => Err(Trouble::Over),
        }
    }

    fn look(&self, seen: &mut Text) {
        let Some(world) = &self.world else {
            return;
        };
        look_at_world(world, seen);
        if self.shows_wires {
            seen.put(self.steps.as_slice());
            look_at_side(world, A, seen);
            look_at_side(world, B, seen);
        }
    }
}

/// Requests that are brought to their reports in a new world.
#[derive(Drop)]
pub struct Directing {
    alloc: Global,
    setup: WorldSetup,
    world: Option<World>,
}

impl Directing {
    pub fn new(alloc: Global, setup: WorldSetup) -> Directing {
        Directing {
            alloc,
            setup,
            world: None,
        }
    }
}

const DIRECTED: &[&str] = &[
    "hello",
    "create 46 16 2 0 3 7",
    "connect",
    "put key 3 7468726565",
    "close",
    "create 46 16 2 0 3 7",
    "open 46 15",
    "purge",
];

/// Returns the requests of the world that is directed.
fn requests(alloc: Global) -> Result<Vec<Request>, Trouble> {
    let mut all = Vec::with_capacity(alloc, DIRECTED.len())?;
    for words in DIRECTED {
        all.push(request(alloc, words)?)?;
    }
    Ok(all)
}

/// Directs a world, which is new.
fn direct(alloc: Global, world: &mut World) -> Result<(), Trouble> {
    let list = requests(alloc)?;
    if !world.is_fresh() {
        return Err(Trouble::Wrong);
    }
    match world.direct(&list) {
        Ok(()) => Ok(()),
        Err((_place, fault)) => Err(Trouble::from(fault)),
    }
}

/// Directs a new world.
fn directed(alloc: Global, setup: WorldSetup) -> Result<World, Trouble> {
    let mut world = World::new(alloc, setup)?;
    let done = direct(alloc, &mut world);
    when(done, world)
}

impl Growing for Directing {
    fn call(&mut self, index: usize) -> Result<(), Trouble> {
        if index > 0 {
            return Err(Trouble::Over);
        }
        put(&mut self.world, directed(self.alloc, self.setup)?);
        Ok(())
    }

    fn look(&self, seen: &mut Text) {
        if let Some(world) = &self.world {
            look_at_world(world, seen);
        }
    }
}
