//! Rows of schedules.
use crate::engines::{Engine, GREETING, GREETING_PLAYED, gives, run};
use dap_text::push_report;
use dap_world::{Ending, Numbered, Octets, Report};
use linewise::{CaptureFault, Outcome};
use std::alloc::{AllocError, Global};
use std::process::Abort;
use std::test::Fail;

/// Schedules, each with how it ends and what is printed.
const PLAYED: &[(&[u8], Outcome, &[u8])] = &[
    (b"", Outcome::Good, b""),
    (b"# nothing\r\n\n", Outcome::Good, b""),
    (b"# a\nsetup 512 8 1024 1024\n", Outcome::Good, b""),
    (b"setup 0000000001 2047 64 65535\r\n", Outcome::Good, b""),
    (
        b"setup 0 8 1024 1024",
        Outcome::Stopped,
        b"0 refused bad-setup\n",
    ),
    (
        b"setup 1401 8 1024 1024",
        Outcome::Stopped,
        b"0 refused bad-setup\n",
    ),
    (
        b"setup 512 2048 1024 1024",
        Outcome::Stopped,
        b"0 refused bad-setup\n",
    ),
    (
        b"setup 512 2048 1024 1024\nserve",
        Outcome::Stopped,
        b"0 refused bad-setup\n",
    ),
    (
        b"setup 512 4294967295 1024 1024",
        Outcome::Stopped,
        b"0 refused bad-setup\n",
    ),
    (
        b"setup 512 8 1024 63",
        Outcome::Stopped,
        b"0 refused bad-setup\n",
    ),
    (
        b"setup 512 8 1024 1024\ndeliver b 0",
        Outcome::Stopped,
        b"1 refused no-such-packet\n",
    ),
    (
        b"setup 512 8 1024 1024\ndeliver b 0\nserve",
        Outcome::Stopped,
        b"1 refused no-such-packet\n",
    ),
    (
        b"setup 512 8 1024 1024\npost a",
        Outcome::Stopped,
        b"1 refused nothing-to-do\n",
    ),
    (
        b"setup 512 8 1024 1024\nask get key 1",
        Outcome::Stopped,
        b"1 refused ask-phase\n",
    ),
    (
        b"setup 512 8 1024 1024\nask hello\n\n# again\nask hello",
        Outcome::Stopped,
        b"1 asked 1\n2 refused ask-busy\n",
    ),
    (
        b"setup 512 8 1024 64\nask hello\npost a\nemit a\ndeliver b 0\nserve\npost b\nemit b\ndeliver a 0\nread\nask open 414141414141414141414141414141414141414141414141414141414141414141414141414141414141414141414141414141414141414141414141 2\nserve\n",
        Outcome::Stopped,
        b"1 asked 1\n2 posted 1\n3 packet a 0 60020201010080010001020a00040703050600000000\n4 accepted\n5 served 1\n6 posted 1\n7 packet b 0 60010102020180010001020a40000703050600000000\n8 accepted\n9 report ready 64\n10 refused ask-too-large\n",
    ),
];

/// What may follow the greeting, likewise.
const AFTER_GREETING: &[(&[u8], Outcome, &[u8])] = &[(
    b"ask create 46 16 2 0 3 7\npost a\nemit a\ndeliver b 1\nserve\nserve\n",
    Outcome::Good,
    b"10 asked 1\n11 posted 1\n12 packet a 1 60020201010180020002020ba6041002000004030000000302080200014607000000\n13 accepted\n14 served 0\n15 served 1\nfile 46 rel variable 0 3\n",
)];

/// Schedules with a bad line, and its number.
const BAD: &[(&[u8], usize)] = &[
    (b"serve", 1),
    (b"# a\n\nsetup 512 8 1024\n", 3),
    (b"setup 512 8 1024 1024 1024", 1),
    (b"setup 512 8 1024 65536", 1),
    (b"setup 512 4294967296 1024 1024", 1),
    (b"setup 00000000512 8 1024 1024", 1),
    (b"setup -512 8 1024 1024", 1),
    (b"setup 512 8 1024 1024 ", 1),
    (b" setup 512 8 1024 1024", 1),
    (b"setup  512 8 1024 1024", 1),
    (b"Setup 512 8 1024 1024", 1),
    (b"setup 512 8 1024 1024\nsetup 512 8 1024 1024", 2),
    (b"setup 0 8 1024 1024\nserve\nask fly", 3),
    (b"setup 512 8 1024 1024\nread\n\nask fly\nread x", 4),
    (b"setup 512 8 1024 1024\n \nread", 2),
    (b"setup 512 8 1024 1024\nread\r", 2),
    (b"setup 512 8 1024 1024\nread\r\r\n", 2),
    (b"setup 512 8 1024 1024\nread # all", 2),
    (b"setup 512 8 1024 1024\n\xff", 2),
];

/// Lines that say an event.
const EVENTS: &[&[u8]] = &[
    b"ask hello",
    b"ask create 46 16 2 0 3 7",
    b"ask create - 255 255 65535 4294967295 15",
    b"ask open 46 0",
    b"ask connect",
    b"ask get",
    b"ask get key 3",
    b"ask get rfa 0000000003",
    b"ask put 41",
    b"ask put -",
    b"ask put key 3 aAfF",
    b"ask update 41",
    b"ask delete",
    b"ask rewind",
    b"ask fetch",
    b"ask store",
    b"ask store -",
    b"ask store 41 - 4242",
    b"ask continue again",
    b"ask continue skip",
    b"ask continue abort",
    b"ask close",
    b"ask purge",
    b"post a",
    b"emit b",
    b"resend a 0",
    b"ack b",
    b"deliver a 4294967295",
    b"serve",
    b"read",
];

/// Lines that say none.
const NO_EVENTS: &[&[u8]] = &[
    b"ask",
    b"ask ",
    b"ask Hello",
    b"ask hello hello",
    b"ask create 46 256 2 0 3 7",
    b"ask create 46 16 256 0 3 7",
    b"ask create 46 16 2 65536 3 7",
    b"ask create 46 16 2 0 4294967296 7",
    b"ask create 46 16 2 0 3 16",
    b"ask create 46 16 2 0 3",
    b"ask create 46 16 2 0 3 7 1",
    b"ask open 46 16",
    b"ask open 46",
    b"ask get 3",
    b"ask get key",
    b"ask get key 00000000003",
    b"ask get key 4294967296",
    b"ask get rfa 1 1",
    b"ask get next",
    b"ask put",
    b"ask put 4",
    b"ask put 4g",
    b"ask put 41 42",
    b"ask put key 3",
    b"ask put key 3 41 42",
    b"ask update",
    b"ask store 41  42",
    b"ask store ",
    b"ask store -41",
    b"ask continue",
    b"ask continue resume",
    b"post",
    b"post c",
    b"post A",
    b"post a b",
    b"emit",
    b"resend a",
    b"resend 0 a",
    b"ack a 0",
    b"deliver a",
    b"deliver a +1",
    b"deliver a -1",
    b"deliver a 1 1",
    b"deliver a 0x1",
    b"serve b",
    b"read a",
    b" serve",
    b"serve ",
    b"setup 512 8 1024 1024",
];

#[test]
fn plays_schedules(rt: HostRuntime) -> Result<(), Fail> {
    let alloc = rt.alloc();
    for (lines, outcome, text) in PLAYED {
        gives(&rt, alloc, Engine::Run, lines, Ok(*outcome), text);
    }
    for (lines, outcome, text) in AFTER_GREETING {
        let all = joined(alloc, GREETING, lines)?;
        let played = joined(alloc, GREETING_PLAYED, text)?;
        gives(&rt, alloc, Engine::Run, &all, Ok(*outcome), &played);
    }
    Ok(())
}

/// Returns bytes, and others after them.
fn joined(alloc: Global, front: &[u8], back: &[u8]) -> Result<Vec<u8>, AllocError> {
    let mut all = Vec::from_slice(alloc, front)?;
    all.extend_from_slice(back)?;
    Ok(all)
}

#[test]
fn tells_bad_lines(rt: HostRuntime) {
    for (lines, number) in BAD {
        let bad = Err(CaptureFault::BadLine(*number));
        gives(&rt, rt.alloc(), Engine::Run, lines, bad, b"");
    }
}

/// Returns what a schedule of a setup and this line comes to.
fn after_setup(alloc: Global, line: &[u8]) -> Result<Result<Outcome, CaptureFault>, AllocError> {
    let lines = joined(alloc, b"setup 512 8 1024 1024\n", line)?;
    let mut reader = lines.as_slice();
    Ok(run(alloc, Engine::Run, &mut reader, &mut Vec::new(alloc)))
}

#[test]
fn reads_events(rt: HostRuntime) -> Result<(), Fail> {
    for line in EVENTS {
        assert!(&rt; after_setup(rt.alloc(), line)?.is_ok());
    }
    for line in NO_EVENTS {
        assert!(&rt; after_setup(rt.alloc(), line)? == Err(CaptureFault::BadLine(2)));
    }
    Ok(())
}

/// Prints a report, and wants the text.
fn reports(rt: &impl Abort, alloc: Global, report: &Report, want: &str) {
    let mut text = Vec::new(alloc);
    let is_printed = push_report(&mut text, report).is_ok();
    assert!(rt; is_printed && text.as_slice() == want.as_bytes(), "{want}");
}

/// Returns two records, the second one empty.
fn records(alloc: Global) -> Result<Numbered, AllocError> {
    let mut bodies = Vec::new(alloc);
    bodies.push((1, Octets(Vec::from_slice(alloc, b"A")?)))?;
    bodies.push((2, Octets(Vec::new(alloc))))?;
    Ok(Numbered(bodies))
}

#[test]
fn prints_reports(rt: HostRuntime) {
    let alloc = rt.alloc();
    reports(&rt, alloc, &Report::Ready(1024), "ready 1024");
    reports(&rt, alloc, &Report::Refused(0x5000, 3), "refused 5000 3");
    reports(&rt, alloc, &Report::Stored(None), "stored");
    let stored = Report::Stored(Some((0x5000, 7, 2)));
    reports(&rt, alloc, &stored, "stored refused 5000 7 2");
    prints_a_batch(&rt, alloc);
}

fn prints_a_batch(rt: &impl Abort, alloc: Global) {
    let Ok(bodies) = records(alloc) else {
        panic!(rt; "memory")
    };
    let batch = Report::Batch {
        bodies,
        ending: Ending::Stopped,
    };
    reports(rt, alloc, &batch, "batch 2 stopped 1:41 2:-");
}
