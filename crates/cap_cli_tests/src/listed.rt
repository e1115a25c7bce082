//! The rows, in pieces of each size; files as lines, and lines out of files; fronts of inputs.

use crate::captures::{SHORT, THREE, WIRE, WIRE_NG};
use crate::rows::{CUT, OTHER_ROWS, ROWS, Row, SET_UP_ROWS};
use crate::source::{run, whole, without_help};
use std::alloc::Global;
use std::test::Fail;

/// How many bytes come at a time.
const STEPS: [usize; 5] = [1, 2, 3, 7, 100_000];

/// Returns whether a row holds for this input, of which this many bytes come at a time.
fn holds(alloc: Global, row: &Row<'_>, input: &[u8], step: usize) -> Result<bool, Fail> {
    let came = run(alloc, row.0, whole(input, step))?;
    let (faults, helps) = without_help(alloc, &came.told)?;
    let is_told = faults.as_slice() == row.4 && helps == usize::from(row.5);
    Ok(came.status == row.2 && came.written.as_slice() == row.3 && is_told)
}

#[test]
fn each_row_holds(rt: HostRuntime) -> Result<(), Fail> {
    for rows in [ROWS, OTHER_ROWS, SET_UP_ROWS] {
        for row in rows {
            for step in STEPS {
                assert!(rt; holds(rt.alloc(), row, row.1, step)?);
            }
        }
    }
    Ok(())
}

#[test]
fn a_file_that_is_cut_short_is_listed_so_far(rt: HostRuntime) -> Result<(), Fail> {
    assert!(rt; holds(rt.alloc(), &CUT, &THREE[..200], 9)?);
    let came = run(rt.alloc(), &["--strict"], whole(&THREE[..200], 9))?;
    let (faults, _) = without_help(rt.alloc(), &came.told)?;
    assert_eq!(rt; faults.as_slice(), b"bad cut-short at=176\n".as_slice());
    assert!(rt; came.status == 1 && came.written.is_empty());
    Ok(())
}

/// Options of a listing.
const OPTIONS: [&[&str]; 4] = [&[], &["--bare"], &["--segments"], &["--bare", "--segments"]];

#[test]
fn lines_of_a_file_are_listed_as_the_file(rt: HostRuntime) -> Result<(), Fail> {
    for file in [WIRE, WIRE_NG, THREE, SHORT] {
        let lines = run(rt.alloc(), &["--lines"], whole(file, 100))?;
        let again = run(rt.alloc(), &["--lines"], whole(&lines.written, 100))?;
        assert!(rt; lines.status == 0 && again.written == lines.written);
        for words in OPTIONS {
            let of_file = run(rt.alloc(), words, whole(file, 100))?;
            let of_lines = run(rt.alloc(), words, whole(&lines.written, 100))?;
            assert!(rt; of_file.status == 0 && of_lines.written == of_file.written);
        }
    }
    Ok(())
}

/// Returns whether this front of an input has a front of the whole text, and with `--strict` all of its own or none.
fn has_front(alloc: Global, word: &str, front: &[u8], all: &[u8]) -> Result<bool, Fail> {
    let cut = run(alloc, &[word], whole(front, 100))?;
    let strict = run(alloc, &[word, "--strict"], whole(front, 100))?;
    let is_strict = strict.written.is_empty() || strict.written == cut.written;
    Ok(all.starts_with(&cut.written) && cut.status <= 1 && is_strict && strict.status == cut.status)
}

#[test]
fn each_front_of_a_file_has_a_front_of_its_text(rt: HostRuntime) -> Result<(), Fail> {
    for (file, word) in [
        (&THREE[..200], "--lines"),
        (&THREE[..200], "--bare"),
        (&WIRE_NG[..220], "--segments"),
    ] {
        let all = run(rt.alloc(), &[word], whole(file, 100))?;
        for len in 0..file.len() {
            assert!(rt; has_front(rt.alloc(), word, &file[..len], &all.written)?);
        }
    }
    Ok(())
}

#[test]
fn each_front_of_lines_has_a_front_of_them(rt: HostRuntime) -> Result<(), Fail> {
    let lines = b"# frame 2 1.000000 1.1 -> 1.2\n> 6002\nwaits 1\n< 600101\n".as_slice();
    for len in 0..lines.len() {
        let cut = run(rt.alloc(), &["--lines"], whole(&lines[..len], 100))?;
        let strict = run(
            rt.alloc(),
            &["--lines", "--strict"],
            whole(&lines[..len], 100),
        )?;
        assert!(&rt; cut.status <= 1 && strict.status == cut.status);
        assert!(&rt; strict.status == 0 || strict.written.is_empty());
    }
    Ok(())
}

/// Appends a line with a packet to this receiver.
fn push_packet(text: &mut Vec<u8>, alloc: Global, receiver: usize) -> Result<(), Fail> {
    let (low, high) = (receiver % 256, receiver / 256 % 256);
    let line = format!(in alloc; "> 60{low:02x}{high:02x}010101000600\n")?;
    text.extend_from_slice(line.as_bytes())?;
    Ok(())
}

/// Returns whether the last packet has its message, where these are the receivers before it and the first one again.
fn has_message(alloc: Global, receivers: usize) -> Result<bool, Fail> {
    let mut text = Vec::new(alloc);
    for receiver in 1..=receivers {
        push_packet(&mut text, alloc, receiver)?;
    }
    push_packet(&mut text, alloc, 1)?;
    let came = run(alloc, &["--bare"], whole(&text, 100_000))?;
    Ok(came.written.ends_with(b"len=2\n  ack\n"))
}

#[test]
fn there_is_room_for_1024_streams(rt: HostRuntime) -> Result<(), Fail> {
    assert!(rt; !has_message(rt.alloc(), 1_024)?);
    assert!(rt; has_message(rt.alloc(), 1_025)?);
    Ok(())
}
