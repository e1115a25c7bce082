//! The suite `worlds`: both ends, both links and the network between them.

use crate::call::Call;
use crate::out::Out;
use crate::playing::Suite;
use dap_text::got_word;
use dap_world::{End, Event, RecordFile, Request, Step, World, WorldFault, WorldSetup};

/// A world, and requests that wait to be asked over a clean network.
#[derive(Drop)]
pub struct Worlds {
    pub world: Option<World>,
    pub list: Vec<Request>,
}

/// Reads one of the ends: `a`, which asks, or `b`, which serves.
fn end(call: &mut Call) -> End {
    if call.either("a", "b") {
        End::A
    } else {
        End::B
    }
}

/// Reads the event of an end that a call says, as in a schedule.
fn event_of_end(call: &mut Call) -> Option<Event> {
    let end = end(call);
    if call.is("post") {
        Some(Event::Post(end))
    } else if call.is("emit") {
        Some(Event::Emit(end))
    } else if call.is("ack") {
        Some(Event::Ack(end))
    } else if call.is("resend") {
        Some(Event::Resend(end, call.size()))
    } else if call.is("deliver") {
        Some(Event::Deliver(end, call.size()))
    } else {
        None
    }
}

/// Reads the event that a call says, as in a schedule.
fn event(call: &mut Call) -> Option<Event> {
    if call.is("ask") {
        match call.request() {
            Some(request) => Some(Event::Ask(request)),
            None => None,
        }
    } else if call.is("serve") {
        Some(Event::Serve)
    } else if call.is("read") {
        Some(Event::Read)
    } else {
        event_of_end(call)
    }
}

/// Appends the newest packet of an end.
fn put_newest(world: &World, end: End, out: &mut Out) {
    match world.wire(end).last() {
        Some(wired) => out.bytes(&wired.packet),
        None => out.none(),
    }
}

/// Appends a report by its index.
fn put_told(world: &World, at: usize, out: &mut Out) {
    match world.reports().get(at) {
        Some(report) => out.report(report),
        None => out.none(),
    }
}

/// Appends the newest report.
fn put_newest_report(world: &World, out: &mut Out) {
    put_told(world, world.reports().len().saturating_sub(1), out);
}

/// Returns the end that writes a packet in an event.
fn writing_end(event: &Event) -> End {
    match event {
        Event::Emit(end) | Event::Resend(end, _) | Event::Ack(end) => *end,
        _ => End::A,
    }
}

/// Appends what a step says.
fn put_step(world: &World, writer: End, step: Step, out: &mut Out) {
    match step {
        Step::Asked(count) => out.number("asked ", count),
        Step::Posted(count) => out.number("posted ", count),
        Step::Packet(index) => {
            out.number("packet ", index);
            out.put(" ");
            put_newest(world, writer, out);
        }
        Step::Delivered(got) => out.put(got_word(got)),
        Step::Served(count) => out.number("served ", count),
        Step::Nothing => out.put("read"),
        Step::Reported => {
            out.put("report ");
            put_newest_report(world, out);
        }
    }
}

/// Lets an event happen, and appends what it comes to.
fn happen(world: &mut World, event: &Event, out: &mut Out) {
    match world.apply(event) {
        Ok(step) => put_step(world, writing_end(event), step, out),
        Err(fault) => out.fault(&fault),
    }
}

/// Lets the event happen that a call says.
fn happen_so(world: &mut World, call: &mut Call, out: &mut Out) {
    match event(call) {
        Some(event) => happen(world, &event, out),
        None => call.refuse(),
    }
}

/// Emits the next segment of one end, and delivers it to the other.
fn carry(world: &mut World, from: End, to: End) -> Result<(), WorldFault> {
    let index = world.wire(from).len();
    world.apply(&Event::Emit(from))?;
    world.apply(&Event::Deliver(to, index))?;
    Ok(())
}

/// Lets an event happen as often as it can. Returns how often.
fn happen_all(world: &mut World, event: &Event) -> u32 {
    for count in 0..u32::MAX {
        if world.apply(event).is_err() {
            return count;
        }
    }
    u32::MAX
}

/// Asks a request over a clean network, of one segment each way. Returns how many messages were served and read.
fn turn(world: &mut World, request: Request) -> Result<(u32, u32), WorldFault> {
    world.ask(request)?;
    world.apply(&Event::Post(End::A))?;
    carry(world, End::A, End::B)?;
    let served = happen_all(world, &Event::Serve);
    world.apply(&Event::Post(End::B))?;
    carry(world, End::B, End::A)?;
    Ok((served, happen_all(world, &Event::Read)))
}

/// Appends what a turn came to: the packet of A, how many messages of it were served, the packet of B, how many of it
/// were read, and the report.
fn put_turn(world: &World, served: u32, read: u32, out: &mut Out) {
    put_newest(world, End::A, out);
    out.number(" served ", served);
    out.put(" ");
    put_newest(world, End::B, out);
    out.number(" read ", read);
    out.put(" report ");
    put_newest_report(world, out);
}

/// Asks a request over a clean network.
fn take_turn(world: &mut World, request: Request, out: &mut Out) {
    match turn(world, request) {
        Ok((served, read)) => put_turn(world, served, read, out),
        Err(fault) => out.fault(&fault),
    }
}

/// Writes this many segments of A, which come to B, with an acknowledgement after each window.
fn bring(world: &mut World, segments: usize, window: usize) -> Result<(), WorldFault> {
    for sent in 0..segments {
        carry(world, End::A, End::B)?;
        if window > 0 && sent % window == window - 1 {
            let index = world.wire(End::B).len();
            world.apply(&Event::Ack(End::B))?;
            world.apply(&Event::Deliver(End::A, index))?;
        }
    }
    Ok(())
}

/// Writes this many segments of A.
fn emit(world: &mut World, segments: usize) -> Result<(), WorldFault> {
    for _ in 0..segments {
        world.apply(&Event::Emit(End::A))?;
    }
    Ok(())
}

/// Appends requests that were asked, messages sent by A, served by B and read by A; reports; segments of A that aren't
/// acknowledged, and those that B took; packets of both.
fn put_sizes(world: &World, out: &mut Out) {
    out.number("asked ", world.requests().len());
    out.number(" sent ", world.sent().len());
    out.number(" served ", world.taken().len());
    out.number(" read ", world.read_count());
    out.number(" reports ", world.reports().len());
    out.number(" unacked ", world.link(End::A).unacked());
    out.number(" took ", world.link(End::B).received_count());
    out.number(" packets ", world.wire(End::A).len());
    out.number(" ", world.wire(End::B).len());
}

/// Appends the record of the first file under a number.
fn put_record(world: &World, number: u32, out: &mut Out) {
    if world.files().count() == 0 {
        return out.none();
    }
    out.some_bytes(world.files().file(0).lookup(number));
}

/// Does a call that appends the state of a world.
fn look(world: &mut World, call: &mut Call, out: &mut Out) {
    if call.is("report") {
        put_told(world, call.size().saturating_sub(1), out);
    } else if call.is("newest") {
        put_newest_report(world, out);
    } else if call.is("files") {
        out.table(world.files());
    } else if call.is("record") {
        put_record(world, call.long(), out);
    } else if call.is("sizes") {
        put_sizes(world, out);
    } else if call.is("fresh") {
        out.yes(world.is_fresh());
    } else if call.is("acknowledgement") {
        out.packet(world.link(end(call)).ack_packet());
    } else {
        happen_so(world, call, out);
    }
}

/// Does a call of a world: many events at once, or another.
fn act(world: &mut World, call: &mut Call, out: &mut Out) {
    if call.is("turn") {
        if let Some(request) = call.request() {
            take_turn(world, request, out);
        }
    } else if call.is("settle") {
        out.number_or(world.settle(end(call)));
    } else if call.is("finish") {
        out.number_or(world.finish());
    } else if call.is("emits") {
        out.done(emit(world, call.size()));
    } else if call.is("bring") {
        let segments = call.size();
        out.done(bring(world, segments, call.size()));
    } else {
        look(world, call, out);
    }
}

/// Asks requests over a clean network, of a fresh world.
fn direct(world: &mut World, list: &[Request], call: &mut Call, out: &mut Out) {
    if !world.is_fresh() {
        return call.refuse();
    }
    match world.direct(list) {
        Ok(()) => out.put("done"),
        Err((at, fault)) => {
            out.number("at ", at);
            out.put(" ");
            out.fault(&fault);
        }
    }
}

/// Makes a new world: `SEG WINDOW BUFA BUFB`.
fn make(call: &mut Call, out: &mut Out) -> Option<World> {
    let setup = WorldSetup {
        seg_size: call.size(),
        window: call.size(),
        bufsiz_a: call.short(),
        bufsiz_b: call.short(),
    };
    match World::new(call.alloc(), setup) {
        Ok(world) => {
            out.put("made");
            Some(world)
        }
        Err(fault) => {
            out.fault(&fault);
            None
        }
    }
}

impl Worlds {
    /// Adds a request to those that wait.
    fn add(&mut self, call: &mut Call, out: &mut Out) {
        if let Some(request) = call.request() {
            if self.list.push(request).is_err() {
                call.refuse();
            }
        }
        out.number("", self.list.len());
    }

    /// Does a call of the world that is there.
    fn act(&mut self, call: &mut Call, out: &mut Out) {
        match &mut self.world {
            Some(world) if call.is("direct") => direct(world, &self.list, call, out),
            Some(world) => act(world, call, out),
            None => call.refuse(),
        }
    }
}

impl Suite for Worlds {
    fn begin(&mut self) {
        self.world = None;
        self.list.clear();
    }

    fn call(&mut self, call: &mut Call, out: &mut Out) {
        if call.is("new") {
            self.list.clear();
            self.world = make(call, out);
        } else if call.is("list") {
            self.add(call, out);
        } else {
            self.act(call, out);
        }
    }
}
