//! The rows, and devices that fail.

use crate::rows::{CAPTURE_ROWS, Row};
use live_cli::run_words;
use std::alloc::Global;
use std::io;
use std::io::{BufRead, ErrorKind, Read};
use std::test::Fail;

/// Returns the program's name, and words after it.
fn words_of(alloc: Global, words: &[&str]) -> Result<Vec<String>, Fail> {
    let mut list = Vec::new(alloc);
    list.push(String::from_str(alloc, "daplive")?)?;
    for word in words {
        list.push(String::from_str(alloc, word)?)?;
    }
    Ok(list)
}

/// Returns whether a row comes to what it says.
fn holds(alloc: Global, row: &Row) -> Result<bool, Fail> {
    let words = words_of(alloc, row.0)?;
    let mut reader = row.1;
    let mut written = Vec::new(alloc);
    let mut told = Vec::new(alloc);
    let status = run_words(alloc, &words, &mut reader, &mut written, &mut told);
    Ok(status == row.2 && written.as_slice() == row.3 && told.as_slice() == row.4)
}

#[test]
fn captures_are_another_programs(rt: HostRuntime) -> Result<(), Fail> {
    for row in CAPTURE_ROWS {
        assert!(rt; holds(rt.alloc(), row)?);
    }
    Ok(())
}

/// A device that fails at the first read.
#[derive(Drop)]
struct Broken;

impl Read for Broken {
    fn read(&mut self, _buffer: &mut [u8]) -> io::Result<usize> {
        Err(io::Error::from(ErrorKind::Other))
    }
}

impl BufRead for Broken {
    fn fill_buf(&mut self) -> io::Result<&[u8]> {
        Err(io::Error::from(ErrorKind::Other))
    }

    fn consume(&mut self, _amount: usize) {}
}

#[test]
fn a_read_that_fails_is_told_alone(rt: HostRuntime) -> Result<(), Fail> {
    for word in ["serve", "ask"] {
        let words = words_of(rt.alloc(), &[word])?;
        let mut written = Vec::new(rt.alloc());
        let mut told = Vec::new(rt.alloc());
        let status = run_words(rt.alloc(), &words, &mut Broken, &mut written, &mut told);
        let told_so = told.as_slice() == b"read failed\n".as_slice();
        assert!(&rt; status == 3 && written.is_empty() && told_so);
    }
    Ok(())
}
