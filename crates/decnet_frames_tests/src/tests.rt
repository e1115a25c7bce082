//! The rows, in pieces of each size, and devices that fail.

use crate::rows::{ROWS, Row};
use capture_file::FileFault;
use decnet_frames::{
    Between, Counts, Ends, FramesFault, HexLines, Nothing, list_frames, list_lines, read_node,
};
use std::alloc::Global;
use std::io;
use std::io::{ErrorKind, Read};
use std::test::Fail;

/// A reader that gives this many bytes at a time, and fails after the last.
#[derive(Drop)]
struct Pieces<'a> {
    left: &'a [u8],
    most: usize,
    fails: bool,
}

impl Read for Pieces<'_> {
    fn read(&mut self, buffer: &mut [u8]) -> io::Result<usize> {
        if self.fails && self.left.is_empty() {
            return Err(io::Error::from(ErrorKind::Other));
        }
        let count = self.most.min(buffer.len()).min(self.left.len());
        let (now, later) = self.left.split_at(count);
        buffer[..count].copy_from_slice(now);
        self.left = later;
        Ok(count)
    }
}

/// Returns what a row says that comes of its file.
fn outcome(row: &Row) -> Result<Counts, FramesFault> {
    match row.4 {
        Ok((taken, passed)) => Ok(Counts { taken, passed }),
        Err((kind, at, taken, passed)) => {
            Err(FramesFault::File(FileFault { kind, at }, Counts { taken, passed }))
        }
    }
}

/// Returns between which nodes a row takes packets.
fn between(row: &Row) -> Between {
    match row.1 {
        Some((first, other)) => Between::Two(Ends { first, other }),
        None => Between::All,
    }
}

/// Returns whether a row holds where this many bytes come at a time.
fn holds(alloc: Global, row: &Row, most: usize) -> bool {
    let mut reader = Pieces {
        left: row.2,
        most,
        fails: false,
    };
    let mut written = Vec::new(alloc);
    let result = list_frames(
        alloc,
        between(row),
        &mut HexLines,
        &mut reader,
        &mut written,
    );
    result == outcome(row) && written.as_slice() == row.3
}

#[test]
fn each_row_holds(rt: HostRuntime) -> Result<(), Fail> {
    for row in ROWS {
        for most in [1, 2, 3, 7, 64, 65_536] {
            let name = row.0;
            assert!(rt; holds(rt.alloc(), row, most), "{name}");
        }
    }
    Ok(())
}

#[test]
fn a_read_that_fails_leaves_the_lines_before(rt: HostRuntime) -> Result<(), Fail> {
    for row in ROWS {
        if row.4.is_ok() {
            let mut reader = Pieces {
                left: row.2,
                most: 100,
                fails: true,
            };
            let mut written = Vec::new(rt.alloc());
            let result = list_frames(
                rt.alloc(),
                between(row),
                &mut HexLines,
                &mut reader,
                &mut written,
            );
            assert!(rt; result == Err(FramesFault::ReadFailed));
            assert!(rt; written.as_slice() == row.3);
        }
    }
    Ok(())
}

/// An input of lines: between which nodes packets are taken, what is written of them and told, whether a line is bad,
/// and how many packets are taken and passed over.
type Lines = (
    Between,
    &'static [u8],
    &'static [u8],
    &'static [u8],
    (bool, u64, u64),
);

const TWO: Between = Between::Two(Ends {
    first: 1026,
    other: 1025,
});

const LINES: &[Lines] = &[
    (Between::All, b"", b"", b"", (false, 0, 0)),
    // The comment directly before, in each of its forms.
    (
        Between::All,
        b"# frame 1 - 0.0 -> 63.1023\n> 04\r\n<  05\n# frame 007 1.5 1.1 -> 1.2\r\n< 0A0b",
        b"# frame 1 - 0.0 -> 63.1023\n> 04\n# frame 007 1.5 1.1 -> 1.2\n< 0a0b\n",
        b"bad line 3\n",
        (true, 2, 0),
    ),
    // Not directly before, or no such comment.
    (
        Between::All,
        b"# frame 1 - 1.1 -> 1.2\n\n> 01\n# frame 1 - 1.1 -> 1.2\nwaits 1\n> 02\n# frame 1 - 1.1 -> 1.2\n> 03\n\
> 04\n# frame 1 - 1.1 -> 64.2\n> 05\n# frame 1 - 1.1 -> 1.1024\n> 06\n# frame 1 . 1.1 -> 1.2\n> 07\n\
#  frame 1 - 1.1 -> 1.2\n> 08\n# frame 1 - 1.1 -> 1.2 \n> 09\n# frame 1 1. 1.1 -> 1.2\n> 0a\n\
# frame  - 1.1 -> 1.2\n> 0b\n# frame 123456789012345678901 - 1.1 -> 1.2\n> 0c\n",
        b"> 01\n> 02\n# frame 1 - 1.1 -> 1.2\n> 03\n> 04\n> 05\n> 06\n> 07\n> 08\n> 09\n> 0a\n> 0b\n> 0c\n",
        b"bad line 5\n",
        (true, 12, 0),
    ),
    // Between two nodes: the sign is the line's own.
    (
        TWO,
        b"> 01\n# frame 1 - 1.1 -> 1.2\n> 02\n# frame 2 - 1.2 -> 1.1\n> 03\n# frame 3 - 1.1 -> 1.3\n> 04\n",
        b"# frame 1 - 1.1 -> 1.2\n> 02\n# frame 2 - 1.2 -> 1.1\n> 03\n",
        b"",
        (false, 2, 2),
    ),
];

/// Returns whether lines come to what is said of them.
fn listed(alloc: Global, row: &Lines) -> bool {
    let mut reader = row.1;
    let mut written = Vec::new(alloc);
    let mut told = Vec::new(alloc);
    let result = list_lines(
        alloc,
        row.0,
        &mut HexLines,
        &mut reader,
        &mut written,
        &mut told,
    );
    let (bad, taken, passed) = row.4;
    result == Ok((bad, Counts { taken, passed }))
        && written.as_slice() == row.2
        && told.as_slice() == row.3
}

#[test]
fn lines_are_listed(rt: HostRuntime) -> Result<(), Fail> {
    for row in LINES {
        assert!(rt; listed(rt.alloc(), row));
    }
    Ok(())
}

#[test]
fn nothing_is_written_of_files_that_are_checked(rt: HostRuntime) -> Result<(), Fail> {
    for row in ROWS {
        let mut reader = row.2;
        let mut written = Vec::new(rt.alloc());
        let result = list_frames(
            rt.alloc(),
            between(row),
            &mut Nothing,
            &mut reader,
            &mut written,
        );
        assert!(rt; result == outcome(row));
        assert!(rt; written.is_empty());
    }
    Ok(())
}

#[test]
fn nodes_are_read(rt: HostRuntime) -> Result<(), Fail> {
    assert!(rt; read_node(b"1.1") == Some(1025));
    assert!(rt; read_node(b"63.1023") == Some(65_535));
    assert!(rt; read_node(b"01.0010") == Some(1034));
    for text in [
        "", ".", "1", "1.", ".1", "0.1", "1.0", "64.1", "1.1024", "1.1.1", "a.1", "1 .1",
    ] {
        assert!(rt; read_node(text.as_bytes()).is_none());
    }
    Ok(())
}
