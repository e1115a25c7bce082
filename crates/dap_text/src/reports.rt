//! How reports are printed.

ghost use Rattle.std.specs.Prelude.{◌≡◌, ◌++◌, IfOk, OnOk};
ghost use Rattle.std.specs.List.{flat_map};
ghost use Rattle.texts.specs.Adding.{Adds, StillBegins};
ghost use Rattle.dap_text.specs.Inner.Reports.{batch_text, codes_text};
ghost use Rattle.dap_text.specs.Reports.{ending_text, numbered_text, refused_text, report_text};
ghost use Rattle.dap_accessing.specs.declared.report.Report.TheVariants as report;

use crate::tables::push_sizes;
use dap_accessing::{Ending, Octets, Report};
use std::alloc::AllocError;
use texts::{push_image, push_number, push_str, push_word};

/// Appends the code of a Status, and its reason.
#[tactic(auto, unfolding(texts::specs::Adding::StillBegins))]
fn push_refused(text: &mut Vec<u8>, code: u16, reason: u8) -> Result<(), AllocError>
    ensures added { OnOk result (Adds text.old text.new (refused_text code reason)) }
    ensures kept { StillBegins text.old text.new }
{
    push_word(text, "refused ", code)?;
    push_number(text, " ", reason)
}

/// Appends how a batch ended.
#[tactic(auto, unfolding(texts::specs::Adding::StillBegins))]
fn push_ending(text: &mut Vec<u8>, ending: Ending) -> Result<(), AllocError>
    ensures added { OnOk result (Adds text.old text.new (ending_text ending)) }
    ensures kept { StillBegins text.old text.new }
{
    match ending {
        Ending::Complete => push_str(text, "complete"),
        Ending::Stopped => push_str(text, "stopped"),
        Ending::Refused(code, reason) => push_refused(text, code, reason),
    }
}

/// Appends the records of a batch.
#[tactic(auto, unfolding(texts::specs::Adding::StillBegins))]
fn push_records(text: &mut Vec<u8>, records: &[(u64, Octets)]) -> Result<(), AllocError>
    ensures added { OnOk result (Adds text.old text.new (flat_map numbered_text records.now)) }
    ensures kept { StillBegins text.old text.new }
{
    for record in records {
        push_number(text, " ", record.0)?;
        push_image(text, ":", &record.1.0)?;
    }
    Ok(())
}

/// Appends what a Store came to.
#[tactic(auto, unfolding(texts::specs::Adding::StillBegins))]
fn push_stored(text: &mut Vec<u8>, kept: Option<(u16, u8, u64)>) -> Result<(), AllocError>
    ensures added { OnOk result (Adds text.old text.new (report_text (report.Stored kept))) }
    ensures kept { StillBegins text.old text.new }
{
    match kept {
        None => push_str(text, "stored"),
        Some((code, reason, ordinal)) => {
            push_str(text, "stored ")?;
            push_refused(text, code, reason)?;
            push_number(text, " ", ordinal)
        }
    }
}

/// Appends that a file was opened, with its codes ORG and RFM.
#[tactic(auto, unfolding(texts::specs::Adding::StillBegins))]
fn push_opened(text: &mut Vec<u8>, org: u8, rfm: u8) -> Result<(), AllocError>
    ensures added { OnOk result (Adds text.old text.new (codes_text org rfm)) }
    ensures kept { StillBegins text.old text.new }
{
    push_number(text, "opened ", org)?;
    push_number(text, " ", rfm)
}

/// Appends how many records a batch has, and how it ended.
#[tactic(auto, unfolding(texts::specs::Adding::StillBegins))]
fn push_batch(text: &mut Vec<u8>, count: usize, ending: Ending) -> Result<(), AllocError>
    ensures added { OnOk result (Adds text.old text.new (batch_text count ending)) }
    ensures kept { StillBegins text.old text.new }
{
    push_number(text, "batch ", count)?;
    push_str(text, " ")?;
    push_ending(text, ending)
}

/// Appends a report.
#[tactic(auto, unfolding(texts::specs::Adding::StillBegins))]
pub fn push_report(text: &mut Vec<u8>, report: &Report) -> Result<(), AllocError>
    ensures added { OnOk result (Adds text.old text.new (report_text report.now)) }
    ensures kept { StillBegins text.old text.new }
{
    match report {
        Report::Ready(bufsiz) => push_number(text, "ready ", *bufsiz),
        Report::Opened { org, rfm, mrs, mrn } => {
            push_opened(text, *org, *rfm)?;
            push_sizes(text, *mrs, *mrn)
        }
        Report::Connected => push_str(text, "connected"),
        Report::Found { number, body } => {
            push_number(text, "found ", *number)?;
            push_image(text, " ", &body.0)
        }
        Report::Done(number) => push_number(text, "done ", *number),
        Report::EndOfFile => push_str(text, "end-of-file"),
        Report::Refused(code, reason) => push_refused(text, *code, *reason),
        Report::Batch { bodies, ending } => {
            push_batch(text, bodies.0.len(), *ending)?;
            push_records(text, &bodies.0)
        }
        Report::Stored(kept) => push_stored(text, *kept),
        Report::Closed => push_str(text, "closed"),
    }
}
