//! Words: mistakes of each kind in each place, and what help says.

use crate::source::{run, whole};
use std::test::Fail;

/// Words, and the line that is told of them.
type Wrong<'a> = (&'a [&'a str], &'a [u8]);

const MISTAKES: &[Wrong<'static>] = &[
    (&["--word"], b"dapcap: --word: no such word\n"),
    (&["-x"], b"dapcap: -x: no such word\n"),
    (&["-h"], b"dapcap: -h: no such word\n"),
    (&["-V"], b"dapcap: -V: no such word\n"),
    (&["--"], b"dapcap: --: no such word\n"),
    (&["--bare=yes"], b"dapcap: --bare=yes: no such word\n"),
    (&["here.pcap", "--word"], b"dapcap: --word: no such word\n"),
    (
        &["--word", "--bare", "--bare"],
        b"dapcap: --word: no such word\n",
    ),
    (
        &["--bare", "--bare", "--word"],
        b"dapcap: --bare: given twice\n",
    ),
    (
        &["--segments", "--bare", "--segments"],
        b"dapcap: --segments: given twice\n",
    ),
    (
        &["--strict", "--strict"],
        b"dapcap: --strict: given twice\n",
    ),
    (&["--lines", "--lines"], b"dapcap: --lines: given twice\n"),
    (
        &["here.pcap", "none.pcap"],
        b"dapcap: none.pcap: given twice\n",
    ),
    (&["-", "-"], b"dapcap: -: given twice\n"),
    (
        &["--lines", "--bare"],
        b"dapcap: --bare: not with --lines\n",
    ),
    (
        &["--bare", "--lines"],
        b"dapcap: --bare: not with --lines\n",
    ),
    (
        &["--lines", "--segments"],
        b"dapcap: --segments: not with --lines\n",
    ),
    (
        &["--segments", "--strict", "--lines"],
        b"dapcap: --segments: not with --lines\n",
    ),
    (
        &["--segments", "--bare", "--lines"],
        b"dapcap: --segments: not with --lines\n",
    ),
    (
        &["--between"],
        b"dapcap: --between: two nodes, as 1.1 1.2\n",
    ),
    (
        &["--between", "1.1"],
        b"dapcap: --between: two nodes, as 1.1 1.2\n",
    ),
    (
        &["--between", "1.1", "1.1"],
        b"dapcap: --between: two nodes, as 1.1 1.2\n",
    ),
    (
        &["--between", "1.1", "01.01"],
        b"dapcap: --between: two nodes, as 1.1 1.2\n",
    ),
    (
        &["--between", "0.1", "1.2"],
        b"dapcap: --between: two nodes, as 1.1 1.2\n",
    ),
    (
        &["--between", "1.1", "1.0"],
        b"dapcap: --between: two nodes, as 1.1 1.2\n",
    ),
    (
        &["--between", "64.1", "1.2"],
        b"dapcap: --between: two nodes, as 1.1 1.2\n",
    ),
    (
        &["--between", "1.1", "1.1024"],
        b"dapcap: --between: two nodes, as 1.1 1.2\n",
    ),
    (
        &["--between", "here.pcap"],
        b"dapcap: --between: two nodes, as 1.1 1.2\n",
    ),
    (
        &["--between", "--bare", "1.1"],
        b"dapcap: --between: two nodes, as 1.1 1.2\n",
    ),
    (
        &["--between", "1.1", "1.2", "--between", "1.1", "1.2"],
        b"dapcap: --between: given twice\n",
    ),
    (&["--help", "--help"], b"dapcap: --help: no such word\n"),
    (&["--bare", "--help"], b"dapcap: --help: no such word\n"),
    (
        &["--version", "here.pcap"],
        b"dapcap: --version: no such word\n",
    ),
    (&["--one\nline\x7f"], b"dapcap: --one?line?: no such word\n"),
];

#[test]
fn the_first_mistake_is_told(rt: HostRuntime) -> Result<(), Fail> {
    for (words, told) in MISTAKES {
        let came = run(rt.alloc(), words, whole(b"> 6002\n", 9))?;
        assert_eq!(rt; came.told.as_slice(), *told);
        assert!(rt; came.status == 2 && came.written.is_empty() && came.opened == 0);
    }
    Ok(())
}

/// Words that are right, of an empty input.
const RIGHT: &[&[&str]] = &[
    &[],
    &["-"],
    &["--bare"],
    &["--segments"],
    &["--strict"],
    &["--lines"],
    &["--strict", "--lines", "-"],
    &["--between", "1.1", "63.1023"],
    &[
        "here.pcap",
        "--between",
        "1.1",
        "1.2",
        "--bare",
        "--strict",
        "--segments",
    ],
    &[
        "--lines",
        "--between",
        "1.2",
        "1.1",
        "--strict",
        "here.pcap",
    ],
];

#[test]
fn each_option_may_stand_anywhere(rt: HostRuntime) -> Result<(), Fail> {
    for words in RIGHT {
        let came = run(rt.alloc(), words, whole(b"", 9))?;
        assert_eq!(rt; came.told.as_slice(), b"taken 0 passed 0\n".as_slice());
        assert!(rt; came.status == 0 && came.written.is_empty() && came.opened == 1);
    }
    Ok(())
}

/// Names of inputs that can't be opened, and the line that is told of them.
const UNOPENED: &[Wrong<'static>] = &[
    (&["none.pcap"], b"dapcap: none.pcap: not found\n"),
    (&[""], b"dapcap: : not found\n"),
    (&["./-x", "--strict"], b"dapcap: ./-x: not found\n"),
    (&["--bare", "folder"], b"dapcap: folder: is a folder\n"),
    (&["locked", "--lines"], b"dapcap: locked: not permitted\n"),
];

#[test]
fn what_cannot_be_opened_is_told(rt: HostRuntime) -> Result<(), Fail> {
    for (words, told) in UNOPENED {
        let came = run(rt.alloc(), words, whole(b"", 9))?;
        assert_eq!(rt; came.told.as_slice(), *told);
        assert!(rt; came.status == 3 && came.written.is_empty());
    }
    Ok(())
}

#[test]
fn help_has_each_option(rt: HostRuntime) -> Result<(), Fail> {
    let came = run(rt.alloc(), &["--help"], whole(b"", 9))?;
    assert!(rt; came.status == 0 && came.told.is_empty() && came.opened == 0);
    let options = [
        "--bare",
        "--segments",
        "--strict",
        "--lines",
        "--between",
        "--help",
        "--version",
        "FILE",
    ];
    for option in options {
        let len = option.len();
        let named = came
            .written
            .windows(len)
            .any(|some| some == option.as_bytes());
        assert!(&rt; named);
    }
    let came = run(rt.alloc(), &["--version"], whole(b"", 9))?;
    assert!(rt; came.status == 0 && came.told.is_empty() && came.opened == 0);
    assert!(&rt; came.written.starts_with(b"dapcap ") && came.written.ends_with(b"\n"));
    Ok(())
}
