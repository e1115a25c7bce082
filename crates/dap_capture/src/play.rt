//! Playing a schedule.

ghost use Rattle.std.specs.Prelude.{◌≡◌, ◌≤◌, ◌+◌, IfErr, IfOk, length};
ghost use Rattle.std.specs.List.{filter_map};
ghost use Rattle.dap_world.specs.Runs.{ComesTo};
ghost use Rattle.dap_orders.specs.Orders.{event_of_order};
ghost use Rattle.dap_orders.specs.Schedules.{event_fault, numbered_lines, schedule_faults};
ghost use Rattle.dap_capture.specs.Inner.Checking.{GivesFirstFaultOrNoMemory, GivesFirstFaultThenNoMemory};
ghost use Rattle.dap_capture.specs.Inner.Playing.{PlaysOne};
ghost use Rattle.dap_capture.specs.Played.{PlaysSchedule, Plays};
ghost use Rattle.dap_capture.specs.Inner.Playing.{events_of};

use crate::steps::{push_event, push_refusal, refusal_word};
use dap_orders::{MeaningfulLines, Order, check_orders, check_schedule, read_order, read_setup};
use dap_text::push_files;
use dap_world::{Event, Step, World, WorldFault};
use linewise::{CaptureFault, MAX_INPUT, Outcome};
use std::alloc::Global;

/// Lets the event happen; a request is given away.
fn happen(world: &mut World, event: Event) -> Result<Step, WorldFault>
    ensures { ComesTo world.old event result world.new }
{
    match event {
        Event::Ask(request) => world.ask(request),
        other => world.apply(&other),
    }
}

/// Plays the event that a line says and appends its line. It is stopped where the event is refused.
fn play_order<'a>(
    alloc: Global,
    text: &mut Vec<u8>,
    number: usize,
    world: &mut World,
    order: &Order<'a>,
) -> Result<Outcome, CaptureFault>
    ensures plays { IfOk result (PlaysOne number (event_of_order order.now) world.old world.new
        text.old.items text.new.items) }
    ensures fault { IfErr result (λ fault. fault ≡ CaptureFault.NoMemory) }
{
    let event = order.to_event(alloc)?;
    match happen(world, event) {
        Ok(step) => {
            push_event(text, number, world, order, step)?;
            Ok(Outcome::Good)
        }
        Err(fault) => {
            let Some(word) = refusal_word(fault) else {
                return Err(CaptureFault::NoMemory);
            };
            push_refusal(text, number, word)?;
            Ok(Outcome::Stopped)
        }
    }
}

/// Plays the events of lines, up to the first that is refused, and answers what they came to and
/// the files at the end.
fn play_events<'a>(
    alloc: Global,
    world: &mut World,
    mut lines: MeaningfulLines<'a>,
) -> Result<(Outcome, Vec<u8>), CaptureFault>
    requires short { length lines ≤ MAX_INPUT + 1 }
    ensures played { IfOk result
        (λ played. Plays world.old 1 (events_of lines.entry) played.0 played.1.items) }
    ensures faults { GivesFirstFaultOrNoMemory result (filter_map event_fault lines.entry) }
{
    let mut text = Vec::new(alloc);
    let mut number = 1;
    while let Some((at, line)) = lines.next() {
        let Some(order) = read_order(line) else {
            return Err(CaptureFault::BadLine(at));
        };
        match play_order(alloc, &mut text, number, world, &order)? {
            Outcome::Good => number += 1,
            Outcome::Stopped => {
                check_orders(lines)?;
                push_files(&mut text, world.files())?;
                return Ok((Outcome::Stopped, text));
            }
        }
    }
    push_files(&mut text, world.files())?;
    Ok((Outcome::Good, text))
}

/// Plays a schedule, or returns its first bad line; where memory is refused before that line, it isn't looked for.
fn play_lines(alloc: Global, input: &[u8]) -> Result<(Outcome, Vec<u8>), CaptureFault>
    requires small { length input.now ≤ MAX_INPUT }
    ensures played { IfOk result
        (λ played. PlaysSchedule (numbered_lines input.now) played.0 played.1.items) }
    ensures faults { GivesFirstFaultOrNoMemory result (schedule_faults (numbered_lines input.now)) }
{
    let mut lines = MeaningfulLines::of(input);
    let Some((at, first)) = lines.next() else {
        return Ok((Outcome::Good, Vec::new(alloc)));
    };
    let Some(setup) = read_setup(first) else {
        return Err(CaptureFault::BadLine(at));
    };
    match World::new(alloc, setup) {
        Ok(mut world) => play_events(alloc, &mut world, lines),
        Err(WorldFault::BadSetup) => {
            check_orders(lines)?;
            let mut refusal = Vec::new(alloc);
            push_refusal(&mut refusal, 0, "bad-setup")?;
            Ok((Outcome::Stopped, refusal))
        }
        Err(_) => Err(CaptureFault::NoMemory),
    }
}

/// Plays a schedule. A bad line is reported also where memory was refused before it.
pub(crate) fn play(alloc: Global, input: &[u8]) -> Result<(Outcome, Vec<u8>), CaptureFault>
    requires small { length input.now ≤ MAX_INPUT }
    ensures played { IfOk result
        (λ played. PlaysSchedule (numbered_lines input.now) played.0 played.1.items) }
    ensures faults { GivesFirstFaultThenNoMemory result (schedule_faults (numbered_lines input.now)) }
{
    match play_lines(alloc, input) {
        Err(CaptureFault::NoMemory) => {
            check_schedule(input)?;
            Err(CaptureFault::NoMemory)
        }
        played => played,
    }
}
