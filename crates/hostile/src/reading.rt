//! What the readers of files, reports and ends answer.

use crate::text::Text;
use dap_accessed::FileTable;
use dap_accessing::{Ending, Octets, Report};
use nsp_link::LinkEnd;
use rec_file::{RecordFile, first_record};
use std::fmt::Debug;

/// Appends the shape of a file.
fn look_at_shape<F: RecordFile>(file: &F, seen: &mut Text) {
    let shape = file.shape();
    seen.put(b"\n");
    seen.show(&shape.org);
    seen.show(&shape.format);
    seen.note("mrs", u64::from(shape.mrs));
    seen.note("mrn", u64::from(shape.mrn));
}

/// Appends a record.
fn look_at_record(number: u64, body: &[u8], seen: &mut Text) {
    seen.note("record", number);
    seen.note_bytes("body", body);
}

/// Appends the shape and the records of a file.
pub fn look_at_file<F: RecordFile>(file: &F, seen: &mut Text) {
    look_at_shape(file, seen);
    seen.note("highest", u64::from(file.highest()));
    let mut from = 1;
    for _ in 0..u32::MAX {
        let Some((number, body)) = first_record(file, from) else {
            break;
        };
        look_at_record(u64::from(number), body, seen);
        from = number + 1;
    }
}

/// Appends all files.
pub fn look_at_files(files: &FileTable, seen: &mut Text) {
    for at in 0..files.count() {
        seen.note_bytes("file", files.name(at));
        look_at_file(files.file(at), seen);
    }
}

/// Appends how a batch ended.
fn look_at_ending(ending: Ending, seen: &mut Text) {
    match ending {
        Ending::Complete => seen.put(b" complete"),
        Ending::Stopped => seen.put(b" stopped"),
        Ending::Refused(code, reason) => {
            seen.put(b" refused");
            seen.show(&code);
            seen.show(&reason);
        }
    }
}

/// Appends a batch.
fn look_at_batch(bodies: &[(u64, Octets)], ending: Ending, seen: &mut Text) {
    seen.put(b"\n batch");
    for (number, body) in bodies {
        look_at_record(*number, &body.0, seen);
    }
    look_at_ending(ending, seen);
}

/// Appends what is known of a file that was opened.
fn look_at_opened(org: u8, rfm: u8, mrs: u16, mrn: u32, seen: &mut Text) {
    seen.put(b"\n opened");
    seen.show(&org);
    seen.show(&rfm);
    seen.show(&mrs);
    seen.show(&mrn);
}

/// Appends a line with a word, and what is after it.
fn look_at<T: Debug>(word: &[u8], value: &T, seen: &mut Text) {
    seen.put(b"\n ");
    seen.put(word);
    seen.show(value);
}

/// Appends a report.
pub fn look_at_report(report: &Report, seen: &mut Text) {
    match report {
        Report::Ready(bufsiz) => look_at(b"ready", bufsiz, seen),
        Report::Opened { org, rfm, mrs, mrn } => look_at_opened(*org, *rfm, *mrs, *mrn, seen),
        Report::Connected => seen.put(b"\n connected"),
        Report::Found { number, body } => {
            look_at(b"found", number, seen);
            seen.note_bytes("body", &body.0);
        }
        Report::Done(number) => look_at(b"done", number, seen),
        Report::EndOfFile => seen.put(b"\n end-of-file"),
        Report::Refused(code, reason) => {
            look_at(b"refused", code, seen);
            seen.show(reason);
        }
        Report::Batch { bodies, ending } => look_at_batch(&bodies.0, *ending, seen),
        Report::Stored(refusal) => look_at(b"stored", refusal, seen),
        Report::Closed => seen.put(b"\n closed"),
    }
}

/// Appends all reports.
pub fn look_at_reports(reports: &[Report], seen: &mut Text) {
    for report in reports {
        look_at_report(report, seen);
    }
}

/// Appends an end of a link.
pub fn look_at_link(link: &LinkEnd, seen: &mut Text) {
    seen.note("sent", link.sent_count());
    seen.note("unacknowledged", link.unacked() as u64);
    seen.note("taken", link.received_count());
    seen.note("held", link.held_count() as u64);
    seen.note("partial", link.partial_len() as u64);
    if link.may_send() {
        seen.put(b" may-send");
    }
    if let Some(message) = link.peek_message() {
        seen.note_bytes("message", message);
    }
}
