//! Devices that fail.

use crate::captures::{WIRE, WIRE_NG};
use crate::rows::{ALL_LINES, WIRE_TEXT};
use crate::source::{Pieces, Shelf, run, whole};
use cap_cli::run_words;
use std::alloc::Global;
use std::io;
use std::io::{ErrorKind, Write};
use std::test::Fail;

/// A writer that takes at most `step` bytes a call, and fails at its call `fail_at`, from 0, flushes among them.
#[derive(Drop)]
struct Failing {
    held: Vec<u8>,
    step: usize,
    calls: usize,
    fail_at: usize,
    has_failed: bool,
}

impl Failing {
    /// Counts a call.
    fn count(&mut self) -> io::Result<()> {
        if self.calls == self.fail_at {
            self.has_failed = true;
            return Err(io::Error::from(ErrorKind::Other));
        }
        self.calls = self.calls.saturating_add(1);
        Ok(())
    }
}

impl Write for Failing {
    fn write(&mut self, bytes: &[u8]) -> io::Result<usize> {
        self.count()?;
        let count = bytes.len().min(self.step);
        self.held.extend_from_slice(&bytes[..count])?;
        Ok(count)
    }

    fn flush(&mut self) -> io::Result<()> {
        self.count()
    }
}

/// Runs the program over devices, with a writer that fails at this call; returns the status, whether no call failed,
/// and what the writer holds.
fn run_failing(
    alloc: Global,
    words: &[&str],
    input: &[u8],
    step: usize,
    fail_at: usize,
    told: &mut Vec<u8>,
) -> Result<(u8, bool, Vec<u8>), Fail> {
    let mut list = Vec::new(alloc);
    list.push(String::from_str(alloc, "dapcap")?)?;
    for word in words {
        list.push(String::from_str(alloc, word)?)?;
    }
    let mut shelf = Shelf {
        alloc,
        standard: whole(input, 50),
        file: whole(input, 50),
        opened: 0,
    };
    let mut writer = Failing {
        held: Vec::new(alloc),
        step,
        calls: 0,
        fail_at,
        has_failed: false,
    };
    let status = run_words(alloc, &list, &mut shelf, &mut writer, told);
    Ok((status, !writer.has_failed, writer.held))
}

/// Words, and what they write of examples/wire.pcap.
const WRITTEN: &[(&[&str], &[u8])] = &[
    (&["--between", "1.1", "1.2"], WIRE_TEXT),
    (&["--strict"], WIRE_TEXT),
    (&["--lines"], ALL_LINES),
    (&["--strict", "--lines"], ALL_LINES),
];

#[test]
fn a_writer_that_fails_has_a_front(rt: HostRuntime) -> Result<(), Fail> {
    for (words, text) in WRITTEN {
        for fail_at in 0..10_000 {
            let mut told = Vec::new(rt.alloc());
            let (status, is_done, held) = run_failing(
                rt.alloc(),
                words,
                WIRE,
                40,
                fail_at,
                &mut told,
            )?;
            assert!(&rt; text.starts_with(&held));
            if is_done {
                assert!(&rt; status == 0 && held.as_slice() == *text);
                break;
            }
            assert_eq!(rt; told.as_slice(), b"write failed\n".as_slice());
            assert!(&rt; status == 3);
        }
    }
    Ok(())
}

#[test]
fn an_error_writer_that_fails_changes_nothing(rt: HostRuntime) -> Result<(), Fail> {
    for (words, status) in [(["here.pcap"].as_slice(), 0), (["--word"].as_slice(), 2)] {
        let mut list = Vec::new(rt.alloc());
        list.push(String::from_str(rt.alloc(), "dapcap")?)?;
        for word in words {
            list.push(String::from_str(rt.alloc(), word)?)?;
        }
        let mut shelf = Shelf {
            alloc: rt.alloc(),
            standard: whole(WIRE, 50),
            file: whole(WIRE, 50),
            opened: 0,
        };
        let mut writer = Vec::new(rt.alloc());
        let mut broken = Failing {
            held: Vec::new(rt.alloc()),
            step: 5,
            calls: 0,
            fail_at: 1,
            has_failed: false,
        };
        let came = run_words(rt.alloc(), &list, &mut shelf, &mut writer, &mut broken);
        assert!(&rt; came == status && broken.held.len() == 5);
    }
    Ok(())
}

/// Words and inputs.
const READ: &[(&[&str], &[u8])] = &[
    (&[], WIRE),
    (&[], WIRE_NG),
    (&[], b"> 6002\n> 6002\n"),
    (&[], b"\n\n\n"),
    (&["--strict"], WIRE),
    (&["--strict"], WIRE_NG),
    (&["--strict"], b"> 6002\n> 6002\n"),
    (&["--strict"], b"\n\n\n"),
    (&["--lines"], WIRE),
    (&["--lines"], WIRE_NG),
    (&["--lines"], b"> 6002\n> 6002\n"),
    (&["--lines"], b"\n\n\n"),
];

#[test]
fn a_reader_that_fails_is_told(rt: HostRuntime) -> Result<(), Fail> {
    for (words, input) in READ {
        let calls = input.len() / 5 + 1;
        for fail_at in 0..calls {
            let pieces = Pieces {
                bytes: input,
                step: 5,
                calls: 0,
                fail_at,
            };
            let came = run(rt.alloc(), words, pieces)?;
            assert_eq!(rt; came.told.as_slice(), b"read failed\n".as_slice());
            assert!(&rt; came.status == 3);
        }
    }
    Ok(())
}
