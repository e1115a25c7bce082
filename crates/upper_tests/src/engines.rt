//! The three engines, with an input and a text for each.
use dap_capture::schedule;
use dap_listing::{messages, show};
use linewise::{CaptureFault, Outcome};
use std::alloc::Global;
use std::io::{Read, Write};
use std::process::Abort;

/// Which of the engines.
#[derive(Clone, Copy, Debug, PartialEq, Eq)]
pub(crate) enum Engine {
    Show,
    Msg,
    Run,
}

pub(crate) const CAPTURE: &[u8] = b"> 600201040305800100060200\n< 0402010403ff8f\n> 1002010403\n";

pub(crate) const LISTING: &[u8] =
    b"1 > segment only dst=0102 src=0304 seg=1 acks=0:5 len=3\n  ack\n2 < ack dst=0102 src=0304 acks=0:4095\n3 > not-here link-service\n";

const MESSAGES: &[u8] = b"> 040203010100060200";

const MESSAGES_LISTING: &[u8] = b"1 > message len=9\n  control func=1 rac=0\n  ack\n";

/// Both ends greet each other.
pub(crate) const GREETING: &[u8] =
    b"setup 512 8 1024 1024\nask hello\npost a\nemit a\ndeliver b 0\nserve\npost b\nemit b\ndeliver a 0\nread\n";

pub(crate) const GREETING_PLAYED: &[u8] =
    b"1 asked 1\n2 posted 1\n3 packet a 0 60020201010080010001020a00040703050600000000\n4 accepted\n5 served 1\n6 posted 1\n7 packet b 0 60010102020180010001020a00040703050600000000\n8 accepted\n9 report ready 1024\n";

/// Each engine with an input that is good, and the text of it.
pub(crate) const ENGINES: [(Engine, &[u8], &[u8]); 3] = [
    (Engine::Show, CAPTURE, LISTING),
    (Engine::Msg, MESSAGES, MESSAGES_LISTING),
    (Engine::Run, GREETING, GREETING_PLAYED),
];

/// Runs an engine.
pub(crate) fn run<R: Read, W: Write>(
    alloc: Global,
    engine: Engine,
    reader: &mut R,
    writer: &mut W,
) -> Result<Outcome, CaptureFault> {
    match engine {
        Engine::Show => show(alloc, reader, writer),
        Engine::Msg => messages(alloc, reader, writer),
        Engine::Run => schedule(alloc, reader, writer),
    }
}

/// Runs an engine over an input, and wants what it answers and what it writes.
pub(crate) fn gives(
    rt: &impl Abort,
    alloc: Global,
    engine: Engine,
    input: &[u8],
    want: Result<Outcome, CaptureFault>,
    text: &[u8],
) {
    let mut reader = input;
    let mut writer = Vec::new(alloc);
    let outcome = run(alloc, engine, &mut reader, &mut writer);
    assert!(rt; outcome == want);
    assert!(rt; writer.as_slice() == text, "of {input:?}: {writer:?}");
}
