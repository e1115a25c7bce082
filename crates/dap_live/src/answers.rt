//! How answers are printed.

ghost use Rattle.std.specs.Prelude.{◌≡◌, ◌++◌, [], ◌∷◌, codes, drop, OnOk, IfOk};
ghost use Rattle.std.specs.List.{concat, flat_map};
ghost use Rattle.dap_msg.specs.Blocked.{bodies};
ghost use Rattle.dap_end.specs.declared.fault.EndFault.TheVariants as end_fault;
ghost use Rattle.nsp_link.specs.declared.fault.LinkFault.TheVariants as fault;
ghost use Rattle.texts.specs.Adding.{Adds};
ghost use Rattle.dap_text.specs.Answers.{got_text};
ghost use Rattle.dap_text.specs.Reports.{ending_text};
ghost use Rattle.texts.specs.Text.{line_feed};
ghost use Rattle.dap_live.specs.Texts.{add_refusal, ask_refusal, done_said, end_refusal, link_refusal, locked_text, packet_text, packets_text, refused_with, remove_refusal, report_line, reports_text, status_line, taken_said};
ghost use Rattle.dap_live.specs.Each.{batch_line, each_text, records_text, told_text};
ghost use Rattle.texts.specs.Text.{word_text};
ghost use Rattle.dap_live.specs.Inner.Saying.{AddsSaid};

use crate::asking::Asking;
use dap_accessed::{AddFault, reason_number};
use dap_accessing::{AskFault, Ending, Octets, ReadFault, Report};
use dap_end::{EndFault, TakeFault};
use dap_meanings::push_packet_fault;
use dap_msg::codes::{ACCESS_REFUSED, FILE_NOT_FOUND, REASON_FILE_EXISTS, RECORD_REFUSED};
use dap_shared::RemoveFault;
use dap_text::{ask_word, got_word, push_report};
use linewise::Became;
use nsp_link::{Got, LinkFault};
use nsp_seg::SegFault;
use std::alloc::AllocError;
use texts::{push_hex, push_image, push_number, push_str, push_word};

/// Appends the line of a packet to send.
pub(crate) fn push_packet(text: &mut Vec<u8>, packet: &[u8]) -> Result<(), AllocError>
    ensures { OnOk result (Adds text.old text.new (packet_text packet.now)) }
{
    push_str(text, "< ")?;
    push_hex(text, packet)?;
    push_str(text, "\n")
}

/// Appends the lines of packets to send.
fn push_packets(text: &mut Vec<u8>, packets: &Vec<Vec<u8>>) -> Result<(), AllocError>
    ensures { OnOk result (Adds text.old text.new (packets_text (bodies packets.now.items))) }
{
    for packet in packets.iter() {
        push_packet(text, packet)?;
    }
    Ok(())
}

/// Appends the line of a report.
fn push_report_line(text: &mut Vec<u8>, report: &Report) -> Result<(), AllocError>
    ensures { OnOk result (Adds text.old text.new (report_line report.now)) }
{
    push_str(text, "report ")?;
    push_report(text, report)?;
    push_str(text, "\n")
}

/// Appends the lines of reports.
fn push_reports(text: &mut Vec<u8>, reports: &Vec<Report>) -> Result<(), AllocError>
    ensures { OnOk result (Adds text.old text.new (reports_text reports.now.items)) }
{
    for report in reports.iter() {
        push_report_line(text, report)?;
    }
    Ok(())
}

/// Appends the lines of records that are reported one by one.
fn push_records(text: &mut Vec<u8>, records: &[(u64, Octets)]) -> Result<(), AllocError>
    ensures { OnOk result (Adds text.old text.new (records_text records.now)) }
{
    for record in records {
        push_number(text, "report record ", record.0)?;
        push_image(text, " ", &record.1.0)?;
        push_str(text, "\n")?;
    }
    Ok(())
}

/// Appends how a batch ended, and the end of its line.
fn push_ending(text: &mut Vec<u8>, ending: Ending) -> Result<(), AllocError>
    ensures { OnOk result (Adds text.old text.new (ending_text ending ++ line_feed)) }
{
    match ending {
        Ending::Complete => push_str(text, "complete\n"),
        Ending::Stopped => push_str(text, "stopped\n"),
        Ending::Refused(code, reason) => push_status(text, code, reason),
    }
}

/// Returns the records that are left after this many.
fn untold(records: &[(u64, Octets)], told: usize) -> &[(u64, Octets)]
    ensures { result.now ≡ drop told records.now }
{
    if told < records.len() {
        &records[told..]
    } else {
        &[]
    }
}

/// Appends the line of a batch of this many records, each of which was reported by itself.
fn push_batch_line(text: &mut Vec<u8>, count: usize, ending: Ending) -> Result<(), AllocError>
    ensures { OnOk result (Adds text.old text.new (batch_line count ending)) }
{
    push_number(text, "report batch ", count)?;
    push_str(text, " ")?;
    push_ending(text, ending)
}

/// Appends the lines of a report where each record is reported by itself, and this many of a batch were.
fn push_each(text: &mut Vec<u8>, told: usize, report: &Report) -> Result<(), AllocError>
    ensures { OnOk result (Adds text.old text.new (each_text told report.now)) }
{
    match report {
        Report::Batch { bodies, ending } => {
            push_records(text, untold(&bodies.0, told))?;
            push_batch_line(text, bodies.0.len(), *ending)
        }
        _ => push_report_line(text, report),
    }
}

/// Appends the lines of reports where each record is reported by itself.
fn push_eaches(text: &mut Vec<u8>, told: usize, reports: &Vec<Report>) -> Result<(), AllocError>
    ensures { OnOk result (Adds text.old text.new (flat_map (each_text told) reports.now.items)) }
{
    for report in reports.iter() {
        push_each(text, told, report)?;
    }
    Ok(())
}

/// Appends the lines of what waits to be reported: the reports, and records of a batch under way where each is reported
/// by itself.
pub(crate) fn push_told(text: &mut Vec<u8>, asking: &Asking) -> Result<(), AllocError>
    ensures { OnOk result (Adds text.old text.new (told_text asking.now)) }
{
    if asking.is_each {
        push_eaches(text, asking.told, &asking.reports)?;
        push_records(text, untold(asking.end.records(), asking.told))
    } else {
        push_reports(text, &asking.reports)
    }
}

/// Appends the line of what became of a packet.
fn push_got(text: &mut Vec<u8>, got: Got) -> Result<(), AllocError>
    ensures { OnOk result (Adds text.old text.new (got_text got ++ line_feed)) }
{
    push_str(text, got_word(got))?;
    push_str(text, "\n")
}

/// Appends the line of a refusal by its word.
pub(crate) fn push_refused(text: &mut Vec<u8>, word: &str) -> Result<(), AllocError>
    ensures { OnOk result (Adds text.old text.new (refused_with word.now).0) }
{
    push_str(text, "refused ")?;
    push_str(text, word)?;
    push_str(text, "\n")
}

/// Says that something is refused, by its word.
fn refuse(text: &mut Vec<u8>, word: &str) -> Result<Became, AllocError>
    ensures { IfOk result (AddsSaid text.old text.new (refused_with word.now)) }
{
    push_refused(text, word)?;
    Ok(Became::Done)
}

/// Says that bytes are no packet.
fn refuse_malformed(text: &mut Vec<u8>, why: SegFault) -> Result<Became, AllocError>
    ensures { IfOk result (AddsSaid text.old text.new (link_refusal (fault.Malformed why))) }
{
    push_str(text, "refused ")?;
    push_packet_fault(text, why)?;
    Ok(Became::Done)
}

/// Says what a link refuses.
pub(crate) fn push_link_refusal(text: &mut Vec<u8>, fault: LinkFault) -> Result<Became, AllocError>
    ensures { IfOk result (AddsSaid text.old text.new (link_refusal fault)) }
{
    match fault {
        LinkFault::NoMemory => Ok(Became::NoMemory),
        LinkFault::Malformed(why) => refuse_malformed(text, why),
        LinkFault::BadSetup => refuse(text, "bad-setup"),
        LinkFault::WrongLink => refuse(text, "wrong-link"),
        LinkFault::BadSequence => refuse(text, "bad-sequence"),
        LinkFault::MessageTooLong => refuse(text, "message-too-long"),
        LinkFault::Failed => refuse(text, "failed"),
        LinkFault::Exhausted => refuse(text, "exhausted"),
        LinkFault::NoSuchSegment => refuse(text, "nothing-to-do"),
    }
}

/// Says why an answer isn't read.
fn push_read_refusal(text: &mut Vec<u8>, fault: ReadFault) -> Result<Became, AllocError>
    ensures { IfOk result (AddsSaid text.old text.new (end_refusal (end_fault.Read fault))) }
{
    match fault {
        ReadFault::NoMemory => Ok(Became::NoMemory),
        ReadFault::Failed => refuse(text, "ask-failed"),
        ReadFault::Unexpected => refuse(text, "unexpected-answer"),
    }
}

/// Says why an end didn't do all that there was to do.
fn push_end_refusal(text: &mut Vec<u8>, fault: EndFault) -> Result<Became, AllocError>
    ensures { IfOk result (AddsSaid text.old text.new (end_refusal fault)) }
{
    match fault {
        EndFault::Link(fault) => push_link_refusal(text, fault),
        EndFault::Read(fault) => push_read_refusal(text, fault),
    }
}

/// Says what was done: what waits to be reported, the packets, and why not all was done.
pub(crate) fn push_done(
    text: &mut Vec<u8>,
    asking: &Asking,
    packets: &Vec<Vec<u8>>,
    done: Result<(), EndFault>,
) -> Result<Became, AllocError>
    ensures { IfOk result (AddsSaid text.old text.new
        (done_said (told_text asking.now) (bodies packets.now.items) done)) }
{
    push_told(text, asking)?;
    push_packets(text, packets)?;
    match done {
        Ok(()) => Ok(Became::Done),
        Err(fault) => push_end_refusal(text, fault),
    }
}

/// Says why a request isn't asked.
pub(crate) fn push_ask_refusal(text: &mut Vec<u8>, fault: AskFault) -> Result<Became, AllocError>
    ensures { IfOk result (AddsSaid text.old text.new (ask_refusal fault)) }
{
    match ask_word(fault) {
        None => Ok(Became::NoMemory),
        Some(word) => refuse(text, word),
    }
}

/// Appends the line of a refusal by a code and a reason.
pub(crate) fn push_status(text: &mut Vec<u8>, code: u16, reason: u8) -> Result<(), AllocError>
    ensures { OnOk result (Adds text.old text.new (status_line code reason)) }
{
    push_word(text, "refused ", code)?;
    push_number(text, " ", reason)?;
    push_str(text, "\n")
}

/// Says that nothing is added, by a code and a reason.
fn refuse_by(text: &mut Vec<u8>, code: u16, reason: u8) -> Result<Became, AllocError>
    ensures { IfOk result (AddsSaid text.old text.new (status_line code reason, Became.Done)) }
{
    push_status(text, code, reason)?;
    Ok(Became::Done)
}

/// Says why a file or a record isn't added.
pub(crate) fn push_add_refusal(text: &mut Vec<u8>, fault: AddFault) -> Result<Became, AllocError>
    ensures { IfOk result (AddsSaid text.old text.new (add_refusal fault)) }
{
    match fault {
        AddFault::NoMemory => Ok(Became::NoMemory),
        AddFault::Busy => refuse(text, "busy"),
        AddFault::FileExists => refuse_by(text, ACCESS_REFUSED, REASON_FILE_EXISTS),
        AddFault::NoFile => refuse_by(text, FILE_NOT_FOUND, 0),
        AddFault::Record(why) => refuse_by(text, RECORD_REFUSED, reason_number(why)),
    }
}

/// Says why a file isn't removed.
pub(crate) fn push_remove_refusal(
    text: &mut Vec<u8>,
    fault: RemoveFault,
) -> Result<Became, AllocError>
    ensures { IfOk result (AddsSaid text.old text.new (remove_refusal fault)) }
{
    match fault {
        RemoveFault::NoFile => refuse_by(text, FILE_NOT_FOUND, 0),
        RemoveFault::Busy => refuse(text, "busy"),
    }
}

/// Writes the answer to a packet.
pub(crate) fn push_taken(
    text: &mut Vec<u8>,
    taken: Result<Got, TakeFault>,
    asking: &Asking,
    packets: &Vec<Vec<u8>>,
) -> Result<Became, AllocError>
    ensures { IfOk result (AddsSaid text.old text.new
        (taken_said taken (told_text asking.now) (bodies packets.now.items))) }
{
    match taken {
        Ok(got) => {
            push_got(text, got)?;
            push_done(text, asking, packets, Ok(()))
        }
        Err(TakeFault::Refused(fault)) => push_link_refusal(text, fault),
        Err(TakeFault::Unfinished(got, fault)) => {
            push_got(text, got)?;
            push_done(text, asking, packets, Err(fault))
        }
    }
}

/// Appends the line of a link that locks an Access out.
fn push_locked_line(text: &mut Vec<u8>, local: u16) -> Result<(), AllocError>
    ensures { OnOk result (Adds text.old text.new
        (concat (codes "locked " ∷ word_text local ∷ line_feed ∷ []))) }
{
    push_word(text, "locked ", local)?;
    push_str(text, "\n")
}

/// Appends the lines of the links that lock Accesses out.
fn push_locked(text: &mut Vec<u8>, locked: &[u16]) -> Result<(), AllocError>
    ensures { OnOk result (Adds text.old text.new (locked_text locked.now)) }
{
    for local in locked.iter() {
        push_locked_line(text, *local)?;
    }
    Ok(())
}

/// Says what was served on a link of several: who locked Accesses out, the packets, and why not all was done.
pub(crate) fn push_served(
    text: &mut Vec<u8>,
    locked: &[u16],
    packets: &Vec<Vec<u8>>,
    done: Result<(), EndFault>,
) -> Result<Became, AllocError>
    ensures { IfOk result (AddsSaid text.old text.new
        (done_said (locked_text locked.now) (bodies packets.now.items) done)) }
{
    push_locked(text, locked)?;
    push_packets(text, packets)?;
    match done {
        Ok(()) => Ok(Became::Done),
        Err(fault) => push_end_refusal(text, fault),
    }
}

/// Writes the answer to a packet on a link of several.
pub(crate) fn push_node_taken(
    text: &mut Vec<u8>,
    taken: Result<Got, TakeFault>,
    locked: &[u16],
    packets: &Vec<Vec<u8>>,
) -> Result<Became, AllocError>
    ensures { IfOk result (AddsSaid text.old text.new
        (taken_said taken (locked_text locked.now) (bodies packets.now.items))) }
{
    match taken {
        Ok(got) => {
            push_got(text, got)?;
            push_served(text, locked, packets, Ok(()))
        }
        Err(TakeFault::Refused(fault)) => push_link_refusal(text, fault),
        Err(TakeFault::Unfinished(got, fault)) => {
            push_got(text, got)?;
            push_served(text, locked, packets, Err(fault))
        }
    }
}
