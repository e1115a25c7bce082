//! Words, and what they come to.

/// The words, the input, the exit status, what is written, and what is printed as errors.
pub(crate) type Row = (
    &'static [&'static str],
    &'static [u8],
    u8,
    &'static [u8],
    &'static [u8],
);

/// What is told of the words of captures.
const FOLLOW: &[u8] = b"daplive: follow: dapcap lists captures; see dapcap --help\n";

const WATCH: &[u8] = b"daplive: watch: dapcap lists captures; see dapcap --help\n";

const FRAMES: &[u8] = b"daplive: frames: dapcap lists captures; see dapcap --help\n";

/// Words of captures, with and without others after them.
pub(crate) const CAPTURE_ROWS: &[Row] = &[
    (&["follow"], b"> 60\n", 2, b"", FOLLOW),
    (&["follow", "--words"], b"> 60\n", 2, b"", FOLLOW),
    (&["follow", "--help"], b"", 2, b"", FOLLOW),
    (&["watch"], b"", 2, b"", WATCH),
    (&["watch", "--words"], b"", 2, b"", WATCH),
    (&["frames"], b"\xa1\xb2\xc3\xd4", 2, b"", FRAMES),
    (&["frames", "1.1", "1.2"], b"", 2, b"", FRAMES),
];
