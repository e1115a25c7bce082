//! What is wrong with the lines of a schedule.

ghost use Rattle.std.specs.Prelude.{◌≤◌, IfErr, length};
ghost use Rattle.std.specs.List.{filter_map};
ghost use Rattle.linewise.specs.Firsts.{IsOfLine};
ghost use Rattle.dap_orders.specs.Schedules.{GivesFirstFault, event_fault, numbered_lines, schedule_faults};

use crate::meaningful::MeaningfulLines;
use crate::orders::{read_order, read_setup};
use linewise::{CaptureFault, MAX_INPUT};

/// Checks that the lines are events; otherwise the first line that is none is at fault (`BadLine`).
pub fn check_orders<'a>(mut lines: MeaningfulLines<'a>) -> Result<(), CaptureFault>
    ensures faults { GivesFirstFault result (filter_map event_fault lines.entry) }
    ensures of_line { IfErr result IsOfLine }
{
    while let Some((number, line)) = lines.next() {
        if read_order(line).is_none() {
            return Err(CaptureFault::BadLine(number));
        }
    }
    Ok(())
}

/// Checks that the first line that isn't skipped is a setup, and the others are events; otherwise the first line that
/// is not is at fault (`BadLine`).
pub fn check_schedule(input: &[u8]) -> Result<(), CaptureFault>
    requires { length input.now ≤ MAX_INPUT }
    ensures faults { GivesFirstFault result (schedule_faults (numbered_lines input.now)) }
    ensures of_line { IfErr result IsOfLine }
{
    let mut lines = MeaningfulLines::of(input);
    let Some((first, setup)) = lines.next() else {
        return Ok(());
    };
    if read_setup(setup).is_none() {
        return Err(CaptureFault::BadLine(first));
    }
    check_orders(lines)
}
