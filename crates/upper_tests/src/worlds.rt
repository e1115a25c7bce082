//! Schedules drawn by lot, and what they come to once all is finished: the same as without a loss. Schedules that are
//! written out are the sessions of `crates/sessions/data/worlds.txt`.

ghost use Rattle.std.specs.Prelude.{◌<◌};

use dap_text::{push_report, read_request};
use dap_world::{
    AnyFile, End, Event, FileTable, RecordFile, Report, Request, World, WorldFault, WorldSetup,
};
use std::alloc::Global;
use std::test::Fail;
use texts::Words;

/// A request in the words of a schedule, and what is printed of its report.
type Told = (&'static str, &'static str);

/// Small segments over a small window, so that messages have several and the window is often full.
const SETUP: WorldSetup = WorldSetup {
    seg_size: 9,
    window: 4,
    bufsiz_a: 64,
    bufsiz_b: 256,
};

/// The requests in order, with their reports.
const TURNS: &[Told] = &[
    ("hello", "ready 256"),
    ("create 46 16 2 0 9 15", "opened 16 2 0 9"),
    ("connect", "connected"),
    ("put key 3 7468697264207265636f7264", "done 3"),
    ("put key 3 7468697264207265636f7264", "refused 5000 5"),
    ("put key 7 736576656e7468", "done 7"),
    ("get", "found 3 7468697264207265636f7264"),
    ("update 616e6f74686572", "done 3"),
    ("rewind", "done 0"),
    (
        "fetch",
        "batch 2 complete 3:616e6f74686572 7:736576656e7468",
    ),
    ("close", "closed"),
];

/// How many schedules there are; each has fewer than `MAX_EVENTS` events.
const SCHEDULES: u32 = 200;

const MAX_EVENTS: usize = 5000;

/// Returns the request that words say.
fn request(alloc: Global, words: &str) -> Result<Request, WorldFault> {
    match read_request(Words::of(words.as_bytes())) {
        Some(asked) => Ok(asked.to_request(alloc)?),
        None => Err(WorldFault::BadSetup),
    }
}

/// Returns the requests of turns.
fn requests(alloc: Global, turns: &[Told]) -> Result<Vec<Request>, WorldFault> {
    let mut requests = Vec::new(alloc);
    for (words, _report) in turns {
        requests.push(request(alloc, words)?)?;
    }
    Ok(requests)
}

/// Returns whether the report is printed so.
fn is_told(alloc: Global, report: &Report, words: &str) -> Result<bool, WorldFault> {
    let mut text = Vec::new(alloc);
    push_report(&mut text, report)?;
    Ok(text.as_slice() == words.as_bytes())
}

/// Returns whether the reports are those of the turns.
fn are_told(alloc: Global, reports: &[Report], turns: &[Told]) -> Result<bool, WorldFault> {
    for (report, (_request, words)) in reports.iter().zip(turns) {
        if !is_told(alloc, report, words)? {
            return Ok(false);
        }
    }
    Ok(reports.len() == turns.len())
}

/// Draws a number below the bound.
fn draw(seed: &mut u32, bound: usize) -> usize
    requires { 0 < bound }
    ensures { result < bound }
{
    *seed = seed.wrapping_mul(1_664_525).wrapping_add(1_013_904_223);
    (*seed >> 8) as usize % bound
}

/// Draws one of the ends.
fn draw_end(seed: &mut u32) -> End {
    if draw(seed, 2) == 0 { End::A } else { End::B }
}

fn other(end: End) -> End {
    match end {
        End::A => End::B,
        End::B => End::A,
    }
}

/// Draws the index of one of the last packets of a wire that has this many.
fn draw_packet(written: usize, seed: &mut u32) -> usize {
    written.saturating_sub(draw(seed, 6).saturating_add(1))
}

/// Draws an event, whether it has a step or not.
fn draw_event(world: &World, seed: &mut u32) -> Event {
    let end = draw_end(seed);
    match draw(seed, 10) {
        0 => Event::Post(end),
        1 | 2 => Event::Emit(end),
        3 => Event::Resend(end, draw(seed, 4)),
        4 => Event::Ack(end),
        5..=7 => Event::Deliver(end, draw_packet(world.wire(other(end)).len(), seed)),
        8 => Event::Serve,
        _ => Event::Read,
    }
}

/// Asks the request at this index. Returns whether it is asked.
fn asks(alloc: Global, world: &mut World, index: usize) -> bool {
    match TURNS.get(index) {
        Some((words, _report)) => match request(alloc, words) {
            Ok(request) => world.ask(request).is_ok(),
            Err(_) => false,
        },
        None => false,
    }
}

/// Plays events drawn by lot, and asks the next request where none is due. Returns how many were asked.
fn play_drawn(alloc: Global, world: &mut World, seed: &mut u32) -> usize {
    let mut asked: usize = 0;
    for _ in 0..draw(seed, MAX_EVENTS) {
        if asks(alloc, world, asked) {
            asked = asked.saturating_add(1);
        }
        let what = draw_event(world, seed);
        let _ = world.apply(&what);
    }
    asked
}

/// Returns whether two files have the same records.
fn is_same(one: &AnyFile, other: &AnyFile) -> bool {
    for number in 1..10 {
        if one.lookup(number) != other.lookup(number) {
            return false;
        }
    }
    one.highest() == other.highest()
}

/// Returns whether two tables have the same files.
fn are_same(one: &FileTable, other: &FileTable) -> bool {
    if one.count() != other.count() {
        return false;
    }
    for at in 0..one.count() {
        if one.name(at) != other.name(at) || !is_same(one.file(at), other.file(at)) {
            return false;
        }
    }
    true
}

/// Returns what these turns over a clean network leave.
fn clean(alloc: Global, turns: &[Told]) -> Result<World, WorldFault> {
    let mut world = World::new(alloc, SETUP)?;
    let list = requests(alloc, turns)?;
    match world.direct(&list) {
        Ok(()) => Ok(world),
        Err((_, fault)) => Err(fault),
    }
}

/// Finishes a world. Returns whether it is what this many requests over a clean network come to.
fn comes_clean(alloc: Global, world: &mut World, asked: usize) -> Result<bool, WorldFault> {
    let _events = world.finish()?;
    let turns = TURNS.get(..asked).unwrap_or(TURNS);
    let other = clean(alloc, turns)?;
    Ok(
        world.finish()? == 0
            && are_told(alloc, world.reports(), turns)?
            && are_told(alloc, other.reports(), turns)?
            && are_same(world.files(), other.files()),
    )
}

/// Plays a schedule that is drawn by lot. Returns how many requests were asked, if it comes to what it should.
fn play_schedule(alloc: Global, schedule: u32) -> Result<Option<usize>, WorldFault> {
    let mut seed = schedule.wrapping_mul(7919).wrapping_add(1);
    let mut world = World::new(alloc, SETUP)?;
    let asked = play_drawn(alloc, &mut world, &mut seed);
    if comes_clean(alloc, &mut world, asked)? {
        Ok(Some(asked))
    } else {
        Ok(None)
    }
}

#[test]
fn whatever_was_lost(rt: HostRuntime) -> Result<(), Fail> {
    let mut most = 0;
    for schedule in 0..SCHEDULES {
        let asked = play_schedule(rt.alloc(), schedule)?;
        assert!(rt; asked.is_some(), "schedule {schedule}");
        most = asked.unwrap_or(0).max(most);
    }
    assert!(rt; most == TURNS.len());
    Ok(())
}

/// What a run of a new world comes to, whether the world is fresh then, and how many requests were asked, messages
/// sent, and messages read.
type Run = (Result<(), (usize, WorldFault)>, (bool, usize, usize, u64));

/// Returns the run of these events.
fn run(alloc: Global, events: &[Event]) -> Result<Run, WorldFault> {
    let mut world = World::new(alloc, SETUP)?;
    let came = world.run(events);
    let counts = (
        world.is_fresh(),
        world.requests().len(),
        world.sent().len(),
        world.read_count(),
    );
    Ok((came, counts))
}

/// A run stops at an event that is refused: in the last it is the third.
#[test]
fn runs_that_stop(rt: HostRuntime) -> Result<(), Fail> {
    let nothing = WorldFault::NothingToDo;
    let events = [
        Event::Ask(Request::Hello),
        Event::Post(End::A),
        Event::Emit(End::B),
        Event::Serve,
    ];
    assert!(rt; run(rt.alloc(), &[])? == (Ok(()), (true, 0, 0, 0)));
    let first = run(rt.alloc(), &[Event::Serve])?;
    assert!(rt; first == (Err((0, nothing)), (true, 0, 0, 0)));
    assert!(rt; run(rt.alloc(), &events)? == (Err((2, nothing)), (false, 1, 1, 0)));
    Ok(())
}
