//! What each fault of the libraries prints.

use crate::trouble::Lines;
use capture_file as file;
use capture_file::FileFault;
use dap_accessed::{AddFault, NoMemory};
use dap_accessing::{AskFault, ReadFault};
use dap_end::{EndFault, TakeFault};
use dap_fields::FieldFault;
use dap_msg::{FaultKind, MsgFault};
use dap_world::WorldFault;
use decnet_frames::{Counts, FramesFault};
use linewise::CaptureFault;
use nsp_control::ControlFault;
use nsp_link::{Got, LinkFault};
use nsp_seg::SegFault;
use nsp_session::SessionFault;
use rec_file::Refusal;
use std::error::Error;

const OF_FIELDS: &[FieldFault] = &[
    FieldFault::Truncated,
    FieldFault::TooLong,
    FieldFault::NoMemory,
];

const KINDS: &[FaultKind] = &[
    FaultKind::Truncated,
    FaultKind::TooLong,
    FaultKind::BadFlags,
    FaultKind::BadStream,
    FaultKind::UnknownType,
    FaultKind::BadMenu,
    FaultKind::NoMemory,
];

const OF_MESSAGES: &[MsgFault] = &[MsgFault {
    kind: FaultKind::BadMenu,
    message_type: 4,
    offset: 7,
}];

const OF_PACKETS: &[SegFault] = &[
    SegFault::Truncated(3),
    SegFault::Trailing(9),
    SegFault::NotHere(8),
    SegFault::BadNumber(5),
    SegFault::NoMemory,
];

const OF_CONTROL: &[ControlFault] = &[
    ControlFault::Truncated(7),
    ControlFault::Trailing(3),
    ControlFault::NotHere(16),
    ControlFault::BadAddress(1),
    ControlFault::NoMemory,
];

const OF_SESSIONS: &[SessionFault] = &[
    SessionFault::Truncated(0),
    SessionFault::BadForm(5),
    SessionFault::TooLong(18),
];

const OF_LINKS: &[LinkFault] = &[
    LinkFault::BadSetup,
    LinkFault::Malformed(SegFault::Truncated(0)),
    LinkFault::WrongLink,
    LinkFault::BadSequence,
    LinkFault::MessageTooLong,
    LinkFault::Failed,
    LinkFault::Exhausted,
    LinkFault::NoSuchSegment,
    LinkFault::NoMemory,
];

const OF_STREAMS: &[Refusal] = &[
    Refusal::NotPermitted,
    Refusal::NoCurrent,
    Refusal::RecordNotFound,
    Refusal::RecordExists,
    Refusal::NumberOutOfRange,
    Refusal::BadLength,
    Refusal::BadAccessMode,
    Refusal::DeleteNotAllowed,
    Refusal::BadKey,
    Refusal::EndOfFile,
    Refusal::NoMemory,
];

const OF_REQUESTS: &[AskFault] = &[
    AskFault::Failed,
    AskFault::Busy,
    AskFault::WrongPhase,
    AskFault::TooLarge,
    AskFault::NoMemory,
];

const OF_ANSWERS: &[ReadFault] = &[
    ReadFault::Failed,
    ReadFault::Unexpected,
    ReadFault::NoMemory,
];

const OF_SERVING: &[NoMemory] = &[NoMemory];

const OF_ADDING: &[AddFault] = &[
    AddFault::Busy,
    AddFault::FileExists,
    AddFault::NoFile,
    AddFault::Record(Refusal::BadLength),
    AddFault::NoMemory,
];

const OF_ENDS: &[EndFault] = &[
    EndFault::Link(LinkFault::Exhausted),
    EndFault::Read(ReadFault::Unexpected),
];

const OF_TAKING: &[TakeFault] = &[
    TakeFault::Refused(LinkFault::Malformed(SegFault::BadNumber(5))),
    TakeFault::Unfinished(Got::Accepted, EndFault::Link(LinkFault::NoMemory)),
];

const OF_WORLDS: &[WorldFault] = &[
    WorldFault::NoSuchPacket,
    WorldFault::Stale,
    WorldFault::NothingToDo,
    WorldFault::Ask(AskFault::Busy),
    WorldFault::NoMemory,
    WorldFault::Exhausted,
    WorldFault::BadSetup,
];

const FILE_KINDS: &[file::FaultKind] = &[
    file::FaultKind::UnknownMagic,
    file::FaultKind::UnknownOrder,
    file::FaultKind::OtherLink,
    file::FaultKind::BadLength,
    file::FaultKind::TooLong,
    file::FaultKind::TooManyInterfaces,
    file::FaultKind::CutShort,
    file::FaultKind::NoMemory,
];

const OF_FILES: &[FileFault] = &[FileFault {
    kind: file::FaultKind::BadLength,
    at: 1024,
}];

const OF_FRAMES: &[FramesFault] = &[
    FramesFault::File(
        FileFault {
            kind: file::FaultKind::CutShort,
            at: 0,
        },
        Counts {
            taken: 0,
            passed: 0,
        },
    ),
    FramesFault::ReadFailed,
    FramesFault::WriteFailed,
    FramesFault::NoMemory,
];

const OF_RUNS: &[CaptureFault] = &[
    CaptureFault::BadLine(7),
    CaptureFault::TooLarge,
    CaptureFault::ReadFailed,
    CaptureFault::WriteFailed,
    CaptureFault::NoMemory,
];

/// Prints faults of one type, each in a line.
fn print<E: Error>(of: &str, faults: &[E], out: &mut Lines) {
    for fault in faults {
        out.line(format_args!("faults: {of}: {fault}"));
    }
}

/// Prints the faults of the libraries, from the lowest on.
pub fn call(out: &mut Lines) {
    print("field", OF_FIELDS, out);
    print("kind", KINDS, out);
    print("message", OF_MESSAGES, out);
    print("packet", OF_PACKETS, out);
    print("control", OF_CONTROL, out);
    print("session", OF_SESSIONS, out);
    print("link", OF_LINKS, out);
    print("stream", OF_STREAMS, out);
    print("request", OF_REQUESTS, out);
    print("answer", OF_ANSWERS, out);
    print("serving", OF_SERVING, out);
    print("adding", OF_ADDING, out);
    print("end", OF_ENDS, out);
    print("taking", OF_TAKING, out);
    print("world", OF_WORLDS, out);
    print("run", OF_RUNS, out);
    print("file kind", FILE_KINDS, out);
    print("file", OF_FILES, out);
    print("frames", OF_FRAMES, out);
}
