//! Exit statuses and texts, and devices that fail.

use dap_cli::{run_program, run_words};
use std::alloc::Global;
use std::io;
use std::io::{ErrorKind, Read, Write};
use std::process::Abort;
use std::test::Fail;

/// What a run left: its exit status, what it wrote, and what it printed as errors.
#[derive(Drop)]
struct Left {
    status: u8,
    written: Vec<u8>,
    told: Vec<u8>,
}

/// Returns the program's name, and words after it.
fn words_of(alloc: Global, words: &[&str]) -> Result<Vec<String>, Fail> {
    let mut list = Vec::new(alloc);
    list.push(String::from_str(alloc, "dapnsp")?)?;
    for word in words {
        list.push(String::from_str(alloc, word)?)?;
    }
    Ok(list)
}

/// Runs the program on words and devices. Returns its exit status, and what it printed as errors.
fn run_over<R: Read, W: Write>(
    alloc: Global,
    words: &[&str],
    reader: &mut R,
    writer: &mut W,
) -> Result<(u8, Vec<u8>), Fail> {
    let list = words_of(alloc, words)?;
    let mut told = Vec::new(alloc);
    let status = run_words(alloc, &list, reader, writer, &mut told);
    Ok((status, told))
}

/// Runs the program on words and an input.
fn run(alloc: Global, words: &[&str], input: &[u8]) -> Result<Left, Fail> {
    let mut reader = input;
    let mut written = Vec::new(alloc);
    let (status, told) = run_over(alloc, words, &mut reader, &mut written)?;
    Ok(Left {
        status,
        written,
        told,
    })
}

/// Returns whether a run left this status, wrote this, and printed this as errors.
fn leaves(left: &Left, status: u8, written: &[u8], told: &[u8]) -> bool {
    left.status == status && left.written.as_slice() == written && left.told.as_slice() == told
}

/// A command, an input, and what is written, where all is good.
const LISTED: &[(&str, &[u8], &[u8])] = &[
    (
        "show",
        b"> 600201040305800100060200\n",
        b"1 > segment only dst=0102 src=0304 seg=1 acks=0:5 len=3\n  ack\n",
    ),
    ("show", b"", b""),
    ("msg", b"> 0600\n", b"1 > message len=2\n  ack\n"),
];

#[test]
fn lists_what_is_captured(rt: HostRuntime) -> Result<(), Fail> {
    for (command, input, text) in LISTED {
        let left = run(rt.alloc(), &[*command], input)?;
        assert!(&rt; leaves(&left, 0, text, b""));
    }
    Ok(())
}

/// Wants a status, nothing written and a line of error output.
fn fails(rt: &impl Abort, left: &Left, status: u8, line: &str) {
    assert!(rt; leaves(left, status, b"", line.as_bytes()));
}

#[test]
fn tells_faults_of_the_input(rt: HostRuntime) -> Result<(), Fail> {
    let bad = run(rt.alloc(), &["show"], b"> 6")?;
    fails(&rt, &bad, 1, "bad line 1\n");
    let mut line = Vec::new(rt.alloc());
    line.extend_from_slice(b"> ")?;
    for _index in 0..4097 {
        line.extend_from_slice(b"00")?;
    }
    let long = run(rt.alloc(), &["show"], &line)?;
    fails(&rt, &long, 1, "too large\n");
    Ok(())
}

#[test]
fn refuses_other_words(rt: HostRuntime) -> Result<(), Fail> {
    let rows: [&[&str]; 8] = [
        &[],
        &["list"],
        &["messages"],
        &["help"],
        &["Show"],
        &["show", "show"],
        &["--verbose", "show"],
        &["show", "-x"],
    ];
    for words in rows {
        let left = run(rt.alloc(), words, b"> 6002\n")?;
        assert!(rt; left.status == 2 && left.written.is_empty() && !left.told.is_empty());
    }
    Ok(())
}

#[test]
fn helps(rt: HostRuntime) -> Result<(), Fail> {
    let rows: [&[&str]; 5] = [
        &["--help"],
        &["-h"],
        &["show", "--help"],
        &["msg", "-h"],
        &["run", "--help"],
    ];
    for words in rows {
        let left = run(rt.alloc(), words, b"> 6\n")?;
        assert!(rt; left.status == 0 && !left.written.is_empty() && left.told.is_empty());
    }
    Ok(())
}

#[test]
fn runs_a_schedule(rt: HostRuntime) -> Result<(), Fail> {
    let left = run(rt.alloc(), &["run"], b"serve\n")?;
    fails(&rt, &left, 1, "bad line 1\n");
    Ok(())
}

/// Runs the program on a command and a reader, and prints what helps.
fn run_helping<R: Read>(alloc: Global, command: &str, reader: &mut R) -> Result<Left, Fail> {
    let list = words_of(alloc, &[command])?;
    let mut written = Vec::new(alloc);
    let mut told = Vec::new(alloc);
    let status = run_program(alloc, &list, reader, &mut written, &mut told);
    Ok(Left {
        status,
        written,
        told,
    })
}

/// What a pcap file comes to.
const PCAP: &[u8] = b"bad line 1\ndapnsp: line 1: a pcap file; dapcap lists it, and dapcap --lines \
turns it into lines for dapnsp show\n";

/// What a pcapng file comes to: the first byte is a line feed, so its second line is the first that says something.
const PCAPNG: &[u8] =
    b"bad line 2\ndapnsp: line 1: a pcapng file; dapcap lists it, and dapcap --lines \
turns it into lines for dapnsp show\n";

/// How files of captured frames begin, and what is printed of them.
const FILES: &[(&[u8], &[u8])] = &[
    (b"\xa1\xb2\xc3\xd4\x00\x02\x00\x04", PCAP),
    (b"\xd4\xc3\xb2\xa1\x02\x00\x04\x00", PCAP),
    (b"\xa1\xb2\x3c\x4d\x00\x02\x00\x04", PCAP),
    (b"\x4d\x3c\xb2\xa1\x02\x00\x04\x00", PCAP),
    (b"\x0a\x0d\x0d\x0a\x1c\x00\x00\x00", PCAPNG),
    (b"\x0a\x0d\x0d\x0a", PCAPNG),
];

#[test]
fn names_files_of_captured_frames(rt: HostRuntime) -> Result<(), Fail> {
    for command in ["show", "msg", "run"] {
        for (input, told) in FILES {
            let mut reader = *input;
            let left = run_helping(rt.alloc(), command, &mut reader)?;
            assert!(&rt; leaves(&left, 1, b"", told));
        }
    }
    Ok(())
}

/// Words, inputs that are no file of captured frames, and what is printed of them: too short, one byte else, one before
/// them.
const OTHERS: &[(&str, &[u8], &[u8])] = &[
    (
        "show",
        b"> 6",
        b"bad line 1\ndapnsp: line 1: not a line of a capture; see dapnsp show --help\n",
    ),
    (
        "show",
        b"\xa1\xb2\xc3",
        b"bad line 1\ndapnsp: line 1: not a line of a capture; see dapnsp show --help\n",
    ),
    (
        "msg",
        b"\xa1\xb2\xc3\xd5",
        b"bad line 1\ndapnsp: line 1: not a line of a capture; see dapnsp msg --help\n",
    ),
    (
        "run",
        b"#\n\xd4\xc3\xb2\xa1",
        b"bad line 2\ndapnsp: line 2: not a line of a schedule; see dapnsp run --help\n",
    ),
    (
        "show",
        b"> 6002\n\x0a\x0d\x0d\x0a",
        b"bad line 3\ndapnsp: line 3: not a line of a capture; see dapnsp show --help\n",
    ),
];

#[test]
fn names_no_file_in_other_inputs(rt: HostRuntime) -> Result<(), Fail> {
    for (command, input, told) in OTHERS {
        let mut reader = *input;
        let left = run_helping(rt.alloc(), command, &mut reader)?;
        assert!(&rt; leaves(&left, 1, b"", told));
    }
    Ok(())
}

/// A reader that gives one byte at a time.
#[derive(Drop)]
struct Slow {
    bytes: &'static [u8],
}

impl Read for Slow {
    fn read(&mut self, buffer: &mut [u8]) -> io::Result<usize> {
        let count = buffer.len().min(1);
        self.bytes.read(&mut buffer[..count])
    }
}

#[test]
fn names_files_that_come_byte_by_byte(rt: HostRuntime) -> Result<(), Fail> {
    for (input, lines) in FILES {
        let mut reader = Slow { bytes: *input };
        let left = run_helping(rt.alloc(), "show", &mut reader)?;
        assert!(&rt; leaves(&left, 1, b"", lines));
    }
    Ok(())
}

#[test]
fn names_a_file_that_is_too_large(rt: HostRuntime) -> Result<(), Fail> {
    let mut input = Vec::from_slice(rt.alloc(), b"\xa1\xb2\xc3\xd4")?;
    input.resize(16_777_217, 0)?;
    let mut reader = input.as_slice();
    let left = run_helping(rt.alloc(), "show", &mut reader)?;
    let (_, help) = PCAP.split_at(b"bad line 1\n".len());
    let first = b"too large\n".as_slice();
    assert!(rt; left.status == 1 && left.written.is_empty());
    assert!(rt; left.told.starts_with(first) && &left.told[first.len()..] == help);
    Ok(())
}

#[test]
fn tells_of_no_file_where_a_read_fails(rt: HostRuntime) -> Result<(), Fail> {
    for command in ["show", "msg", "run"] {
        for bytes in [b"".as_slice(), b"\xa1\xb2\xc3\xd4".as_slice()] {
            let mut reader = bytes.chain(breaking(rt.alloc(), ErrorKind::Other, 0));
            let left = run_helping(rt.alloc(), command, &mut reader)?;
            assert!(&rt; leaves(&left, 3, b"", b"read failed\n"));
        }
    }
    Ok(())
}

/// Schedules that stop, and what is written of them.
const STOPPED: &[(&[u8], &[u8])] = &[
    (b"setup 0 8 1024 1024", b"0 refused bad-setup\n"),
    (b"setup 512 2048 1024 1024", b"0 refused bad-setup\n"),
    (
        b"setup 512 8 1024 1024\ndeliver b 0",
        b"1 refused no-such-packet\n",
    ),
];

#[test]
fn ends_with_1_where_a_schedule_stops(rt: HostRuntime) -> Result<(), Fail> {
    for (lines, text) in STOPPED {
        let left = run(rt.alloc(), &["run"], lines)?;
        assert!(&rt; leaves(&left, 1, text, b""));
    }
    Ok(())
}

/// A device of which a read fails, a write after this many that took at most 5 bytes each, and a flush, with an error
/// of this kind.
#[derive(Drop)]
struct Broken {
    kind: ErrorKind,
    writes: usize,
    held: Vec<u8>,
}

fn breaking(alloc: Global, kind: ErrorKind, writes: usize) -> Broken {
    Broken {
        kind,
        writes,
        held: Vec::new(alloc),
    }
}

impl Read for Broken {
    fn read(&mut self, _buffer: &mut [u8]) -> io::Result<usize> {
        Err(io::Error::from(self.kind))
    }
}

impl Write for Broken {
    fn write(&mut self, bytes: &[u8]) -> io::Result<usize> {
        if self.writes == 0 {
            return Err(io::Error::from(self.kind));
        }
        self.writes -= 1;
        let count = bytes.len().min(5);
        self.held.extend_from_slice(&bytes[..count])?;
        Ok(count)
    }

    fn flush(&mut self) -> io::Result<()> {
        Err(io::Error::from(self.kind))
    }
}

/// Some kinds of errors. Each is reported as the others are, at once.
const KINDS: &[ErrorKind] = &[
    ErrorKind::Other,
    ErrorKind::BrokenPipe,
    ErrorKind::Interrupted,
    ErrorKind::OutOfMemory,
];

#[test]
fn tells_readers_that_fail(rt: HostRuntime) -> Result<(), Fail> {
    for kind in KINDS {
        let mut reader = breaking(rt.alloc(), *kind, 0);
        let mut written = Vec::new(rt.alloc());
        let (status, told) = run_over(rt.alloc(), &["show"], &mut reader, &mut written)?;
        let told_so = status == 3 && told.as_slice() == b"read failed\n".as_slice();
        assert!(&rt; told_so && written.is_empty());
    }
    Ok(())
}

/// A packet of each kind.
const CAPTURE: &[u8] = b"> 600201040305800100060200\n< 0402010403ff8f\n> 1002010403\n";

/// Words, an input, the writes before one that fails, and what is written by then. After 200 writes all is written, and
/// the flush fails.
const WRITING: &[(&str, &[u8], usize, &[u8])] = &[
    ("show", CAPTURE, 0, b""),
    ("show", CAPTURE, 2, b"1 > segmen"),
    ("show", b"> 6002\n", 200, b"1 > bad truncated at=1\n"),
    ("show", b"", 0, b""),
    ("msg", b"> 0600\n", 0, b""),
    ("msg", b"> 0600\n", 200, b"1 > message len=2\n  ack\n"),
    ("run", b"setup 0 8 1024 1024\n", 0, b""),
    (
        "run",
        b"setup 0 8 1024 1024\n",
        200,
        b"0 refused bad-setup\n",
    ),
    ("run", b"", 0, b""),
    ("--help", b"", 0, b""),
    ("--help", b"", 2, b"Lists DECn"),
];

#[test]
fn tells_writers_that_fail(rt: HostRuntime) -> Result<(), Fail> {
    for kind in KINDS {
        for (word, input, writes, front) in WRITING {
            let mut reader = *input;
            let mut writer = breaking(rt.alloc(), *kind, *writes);
            let (status, told) = run_over(rt.alloc(), &[*word], &mut reader, &mut writer)?;
            let told_so = status == 3 && told.as_slice() == b"write failed\n".as_slice();
            assert!(&rt; told_so && writer.held.as_slice() == *front);
        }
    }
    Ok(())
}

#[test]
fn goes_on_where_nothing_can_be_told(rt: HostRuntime) -> Result<(), Fail> {
    let words = words_of(rt.alloc(), &["show"])?;
    let mut reader = b"> 6\n".as_slice();
    let mut written = Vec::new(rt.alloc());
    let mut deaf = breaking(rt.alloc(), ErrorKind::BrokenPipe, 0);
    let status = run_words(rt.alloc(), &words, &mut reader, &mut written, &mut deaf);
    assert!(rt; status == 1 && written.is_empty());
    Ok(())
}
