//! Inputs, and what they come to.

use crate::captures::{LINK_113, SHORT, THREE, WIRE, WIRE_NG};

/// Words, the input, the exit status, what is written, and what is told but for lines that help; whether there is one
/// that helps.
pub(crate) type Row<'a> = (&'a [&'a str], &'a [u8], u8, &'a [u8], &'a [u8], bool);

/// The lines of examples/wire.pcap.
pub(crate) const WIRE_TEXT: &[u8] =
    b"1 > 1.1 -> 1.2 segment only dst=0202 src=0101 seg=1 acks=0:0 len=13 ; frame 2 1.000000\n\
\x20 message seg=1..1 len=13\n\
\x20 config bufsiz=1024 ostype=7 filesys=3 version=5.6.0.0.0 syscap=0 ; VAX/VMS\n\
2 < 1.2 -> 1.1 segment only dst=0101 src=0202 seg=1 acks=0:1 len=13 ; frame 3 2.000000\n\
\x20 message seg=1..1 len=13\n\
\x20 config bufsiz=1024 ostype=7 filesys=3 version=5.6.0.0.0 syscap=0 ; VAX/VMS\n\
3 > 1.1 -> 1.2 segment only dst=0202 src=0101 seg=5 acks=0:4 len=18 ; frame 4 3.000000\n\
\x20 message seg=5..5 len=18\n\
\x20 control func=4 rac=1 key=03000000 ; put, by number, record 3\n\
\x20 data recnum=- body=414243 ; \"ABC\"\n\
4 < 1.2 -> 1.1 ack dst=0101 src=0202 acks=0:5 ; frame 5 4.000000\n\
5 < 1.2 -> 1.1 segment only dst=0101 src=0202 seg=5 acks=0:5 len=16 ; frame 6 5.000000\n\
\x20 message seg=5..5 len=16\n\
\x20 status 1000 rfa=03000000 recnum=03000000 stv=- ; success, record 3\n\
gap > 1.1 -> 1.2 dst=0202 src=0101 seg=2..4\n\
gap < 1.2 -> 1.1 dst=0101 src=0202 seg=2..4\n";

/// The lines of examples/wire.pcapng: some frames have no time.
const NG_TEXT: &[u8] =
    b"1 > 1.1 -> 1.2 segment only dst=0202 src=0101 seg=1 acks=0:0 len=13 ; frame 2 0.000001\n\
\x20 message seg=1..1 len=13\n\
\x20 config bufsiz=1024 ostype=7 filesys=3 version=5.6.0.0.0 syscap=0 ; VAX/VMS\n\
2 < 1.2 -> 1.1 segment only dst=0101 src=0202 seg=1 acks=0:1 len=13 ; frame 3 -\n\
\x20 message seg=1..1 len=13\n\
\x20 config bufsiz=1024 ostype=7 filesys=3 version=5.6.0.0.0 syscap=0 ; VAX/VMS\n\
3 > 1.1 -> 1.2 segment only dst=0202 src=0101 seg=5 acks=0:4 len=18 ; frame 4 0.000003\n\
\x20 message seg=5..5 len=18\n\
\x20 control func=4 rac=1 key=03000000 ; put, by number, record 3\n\
\x20 data recnum=- body=414243 ; \"ABC\"\n\
4 < 1.2 -> 1.1 ack dst=0101 src=0202 acks=0:5 ; frame 5 -\n\
5 < 1.2 -> 1.1 segment only dst=0101 src=0202 seg=5 acks=0:5 len=16 ; frame 6 0.000005\n\
\x20 message seg=5..5 len=16\n\
\x20 status 1000 rfa=03000000 recnum=03000000 stv=- ; success, record 3\n\
gap > 1.1 -> 1.2 dst=0202 src=0101 seg=2..4\n\
gap < 1.2 -> 1.1 dst=0101 src=0202 seg=2..4\n";

/// The lines of three nodes.
const THREE_TEXT: &[u8] = b"1 > 1.1 -> 1.2 not-here control ; frame 1 1.000000, connect initiate\n\
2 > 1.1 -> 1.2 segment only dst=0202 src=0101 seg=1 acks=0:0 len=13 ; frame 2 2.000000\n\
\x20 message seg=1..1 len=13\n\
\x20 config bufsiz=1024 ostype=7 filesys=3 version=5.6.0.0.0 syscap=0 ; VAX/VMS\n\
3 > 1.3 -> 1.2 segment only dst=0202 src=0101 seg=1 acks=0:0 len=13 ; frame 3 3.000000\n\
\x20 message seg=1..1 len=13\n\
\x20 config bufsiz=1024 ostype=7 filesys=3 version=5.6.0.0.0 syscap=0 ; VAX/VMS\n\
4 < 1.2 -> 1.3 ack dst=0101 src=0202 acks=0:1 ; frame 4 4.000000\n\
5 < 1.2 -> 1.1 segment only dst=0101 src=0202 seg=1 acks=0:1 len=13 ; frame 5 5.000000\n\
\x20 message seg=1..1 len=13\n\
\x20 config bufsiz=1024 ostype=7 filesys=3 version=5.6.0.0.0 syscap=0 ; VAX/VMS\n\
6 > 1.3 -> 1.2 segment first dst=0202 src=0101 seg=2048 acks=0:3 len=0 ; frame 6 6.000000\n\
gap > 1.3 -> 1.2 dst=0202 src=0101 seg=2..2047\n\
part > 1.3 -> 1.2 dst=0202 src=0101 seg=2048..2048 len=0\n";

/// Those between two of them.
const TWO_TEXT: &[u8] =
    b"1 < 1.3 -> 1.2 segment only dst=0202 src=0101 seg=1 acks=0:0 len=13 ; frame 3 3.000000\n\
\x20 message seg=1..1 len=13\n\
\x20 config bufsiz=1024 ostype=7 filesys=3 version=5.6.0.0.0 syscap=0 ; VAX/VMS\n\
2 > 1.2 -> 1.3 ack dst=0101 src=0202 acks=0:1 ; frame 4 4.000000\n\
3 < 1.3 -> 1.2 segment first dst=0202 src=0101 seg=2048 acks=0:3 len=0 ; frame 6 6.000000\n\
gap < 1.3 -> 1.2 dst=0202 src=0101 seg=2..2047\n\
part < 1.3 -> 1.2 dst=0202 src=0101 seg=2048..2048 len=0\n";

/// The lines of the first two of three nodes' frames.
const CUT_TEXT: &[u8] = b"1 > 1.1 -> 1.2 not-here control ; frame 1 1.000000, connect initiate\n\
2 > 1.1 -> 1.2 segment only dst=0202 src=0101 seg=1 acks=0:0 len=13 ; frame 2 2.000000\n\
\x20 message seg=1..1 len=13\n\
\x20 config bufsiz=1024 ostype=7 filesys=3 version=5.6.0.0.0 syscap=0 ; VAX/VMS\n";

/// Packets of a link that is opened again with its addresses.
const AGAIN_TEXT: &[u8] = b"1 > segment only dst=0202 src=0101 seg=1 acks=- len=2\n\
\x20 message seg=1..1 len=2\n\
\x20 ack\n\
2 > segment only dst=0202 src=0101 seg=3 acks=- len=2\n\
\x20 message seg=3..3 len=2\n\
\x20 ack\n\
3 > not-here control\n\
gap > dst=0202 src=0101 seg=2..2\n\
4 > not-here control\n\
5 > segment only dst=0202 src=0101 seg=1 acks=- len=2\n\
\x20 message seg=1..1 len=2\n\
\x20 ack\n";

/// Packets of a link that is opened again by the other end.
const BACK_TEXT: &[u8] = b"1 > segment only dst=0202 src=0101 seg=1 acks=- len=2\n\
\x20 message seg=1..1 len=2\n\
\x20 ack\n\
2 < not-here control\n\
3 > segment only dst=0202 src=0101 seg=1 acks=- len=2\n\
\x20 message seg=1..1 len=2\n\
\x20 ack\n";

/// And of one that isn't: the connect initiate is of another link.
const STAYS_TEXT: &[u8] = b"1 > segment only dst=0202 src=0101 seg=1 acks=- len=2\n\
\x20 message seg=1..1 len=2\n\
\x20 ack\n\
2 < not-here control\n\
3 > segment only dst=0202 src=0101 seg=1 acks=- len=2\n";

/// Packets that set up a link, refuse it or close it: an object by its number, by its name, and unknown; a user with a
/// password; names and a user that aren't printable; connect data, a connect initiate and a disconnect confirm that can't
/// be read; reasons that are known, and one that isn't.
const SET_UPS: &[u8] = b"> 18000001010102000200110100074441504c49564500\n\
> 6800000101010200020011010005534d4954480105534d4954480653454352455403414343\n\
> 1800000101010200020100045441534b020001000200045553455200\n\
> 18000001010102000200c801050200ff0100015800\n\
> 1800000101010200020013010501ff010200410000\n\
> 1800000101010200020019002a02024142\n\
> 1800000101010200020011\n\
> 1801000101010200020011001100\n\
> 28010102020102000200\n\
> 3802020101220000\n\
> 38020201012c0100\n\
> 48010102022a00\n\
> 48010102022a0000\n\
> 08\n\
> 240101\n";

/// What they say.
const SET_UP_TEXT: &[u8] = b"1 > not-here control ; connect initiate, to FAL, from \"DAPLIVE\"\n\
2 > not-here control ; connect initiate again, to FAL, from \"SMITH\", user \"SMITH\"\n\
3 > not-here control ; connect initiate, to \"TASK\", from \"USER\"\n\
4 > not-here control ; connect initiate, to object 200, from object 5\n\
5 > not-here control ; connect initiate, to NML, from object 5\n\
6 > not-here control ; connect initiate, to MIRROR, from CTERM\n\
7 > not-here control ; connect initiate\n\
8 > not-here control ; connect initiate\n\
9 > not-here control ; connect confirm\n\
10 > not-here control ; disconnect initiate, reason 34, the user or the password was rejected\n\
11 > not-here control ; disconnect initiate, reason 300\n\
12 > not-here control ; disconnect confirm, reason 42, disconnect complete\n\
13 > not-here control ; disconnect confirm\n\
14 > not-here control ; no operation\n\
15 > not-here connect-ack\n";

/// And without words.
const BARE_SET_UPS: &[u8] = b"1 > not-here control\n\
2 > not-here control\n\
3 > not-here control\n\
4 > not-here control\n\
5 > not-here control\n\
6 > not-here control\n\
7 > not-here control\n\
8 > not-here control\n\
9 > not-here control\n\
10 > not-here control\n\
11 > not-here control\n\
12 > not-here control\n\
13 > not-here control\n\
14 > not-here control\n\
15 > not-here connect-ack\n";

/// A message's first segment with its nodes, its last without them, and its last with them.
const SOME_NODES: &[u8] =
    b"# frame 1 - 1.1 -> 1.2\n> 20020201010100010001020a\n> 4002020101020000040703050600000000\n\
# frame 3 - 1.1 -> 1.2\n> 4002020101020000040703050600000000\n";

const SOME_TEXT: &[u8] = b"1 > 1.1 -> 1.2 segment first dst=0202 src=0101 seg=1 acks=- len=5\n\
2 > segment last dst=0202 src=0101 seg=2 acks=- len=10\n\
3 > 1.1 -> 1.2 segment last dst=0202 src=0101 seg=2 acks=- len=10\n\
\x20 message seg=1..2 len=15\n\
\x20 config bufsiz=513 ostype=10 filesys=0 version=4.7.3.5.6 syscap=0\n\
part > dst=0202 src=0101 seg=2..2 len=10\n";

/// Lines before a packet: some tell of it, and others are none that do.
const TOLD: &[u8] = b"# frame 7 1.5 0.1 -> 63.1023\n> 6003\n# frame 8 - 64.1 -> 1.2\n> 6003\n\
# frame 9 - 1.1 -> 1.1024\n> 6003\n# frame 10 - 1.1 -> 1.2 \n> 6003\n# frame 11 - 1.1 -> 1.2\n\n> 6003\n\
# frame 12 - 1.1 -> 1.2\r\n> 6003\r\n# frame x - 1.1 -> 1.2\n> 6003\n# frame 13 1. 1.1 -> 1.2\n> 6003\n\
# frame 14 - 1.1 -> 1.2\n> 6\n> 6003\n";

const TOLD_TEXT: &[u8] = b"1 > 0.1 -> 63.1023 bad truncated at=1 ; frame 7 1.5\n\
2 > bad truncated at=1\n\
3 > bad truncated at=1\n\
4 > bad truncated at=1\n\
5 > bad truncated at=1\n\
6 > 1.1 -> 1.2 bad truncated at=1 ; frame 12 -\n\
7 > bad truncated at=1\n\
8 > bad truncated at=1\n\
9 > bad truncated at=1\n";

/// Lines of which one is bad.
pub(crate) const BAD: &[u8] = b"# c\n> 600202010101000600\nwaits 1\n> 6003\n";

/// All packets of examples/wire.pcap, some of which came after short headers.
pub(crate) const ALL_LINES: &[u8] = b"# frame 2 1.000000 1.1 -> 1.2\n\
> 60020201010080010001020a00040703050600000000\n\
# frame 3 2.000000 1.2 -> 1.1\n\
< 60010102020180010001020a00040703050600000000\n\
# frame 4 3.000000 1.1 -> 1.2\n\
> 600202010104800500040208040301040300000008020400414243\n\
# frame 5 4.000000 1.2 -> 1.1\n\
< 04010102020580\n\
# frame 6 5.000000 1.2 -> 1.1\n\
< 60010102020580050009020d00100403000000040300000000\n";

/// A packet as a file has it, as lines.
const WIRE_LINES: &[u8] = b"# frame 2 1.000000 1.1 -> 1.2\n\
> 60020201010080010001020a00040703050600000000\n\
# frame 3 2.000000 1.2 -> 1.1\n\
< 60010102020180010001020a00040703050600000000\n";

pub(crate) const ROWS: &[Row<'static>] = &[
    (
        &["here.pcap"],
        WIRE,
        0,
        WIRE_TEXT,
        b"taken 5 passed 2\n",
        false,
    ),
    (
        &["--strict"],
        WIRE,
        0,
        WIRE_TEXT,
        b"taken 5 passed 2\n",
        false,
    ),
    (&[], THREE, 0, THREE_TEXT, b"taken 6 passed 0\n", false),
    (
        &["--between", "1.2", "1.3"],
        THREE,
        0,
        TWO_TEXT,
        b"taken 3 passed 3\n",
        false,
    ),
    (
        &["--between", "1.1", "1.4"],
        THREE,
        0,
        b"",
        b"taken 0 passed 6\n",
        false,
    ),
    // A link that is opened again, by either connect initiate.
    (
        &["--bare"],
        b"> 600202010101000600\n> 600202010103000600\n> 38020201010000\n> 1800000101012500\n\
> 600202010101000600\n",
        0,
        AGAIN_TEXT,
        b"",
        false,
    ),
    (
        &["--bare"],
        b"> 600202010101000600\n> 600202010103000600\n> 38020201010000\n> 6800000101012500\n\
> 600202010101000600\n",
        0,
        AGAIN_TEXT,
        b"",
        false,
    ),
    // One that the other end opens again, and one that it doesn't.
    (
        &["--bare"],
        b"> 600202010101000600\n< 1800000202012500\n> 600202010101000600\n",
        0,
        BACK_TEXT,
        b"",
        false,
    ),
    (
        &["--bare"],
        b"> 600202010101000600\n< 1800000101012500\n> 600202010101000600\n",
        0,
        STAYS_TEXT,
        b"",
        false,
    ),
    // Segments of which some have nodes.
    (&["--bare"], SOME_NODES, 0, SOME_TEXT, b"", false),
    // A bad line.
    (
        &[],
        BAD,
        1,
        b"1 > segment only dst=0202 src=0101 seg=1 acks=- len=2\n\
\x20 message seg=1..1 len=2\n\
\x20 ack\n\
2 > bad truncated at=1\n",
        b"bad line 3\n",
        true,
    ),
    (&["--strict"], BAD, 1, b"", b"bad line 3\n", true),
    // Two of them.
    (
        &[],
        b"# c\n> 6\n#\nwaits 1\n",
        1,
        b"",
        b"bad line 2\nbad line 4\ntaken 0 passed 0\n",
        true,
    ),
    (
        &["--strict"],
        b"# c\n> 6\n#\nwaits 1\n",
        1,
        b"",
        b"bad line 2\n",
        true,
    ),
    // A message in three segments, the middle one last.
    (
        &[],
        b"> 20020201010100010001020a\n> 400202010103000600000000\n> 000202010102000004070305\n",
        0,
        b"1 > segment first dst=0202 src=0101 seg=1 acks=- len=5\n\
2 > segment last dst=0202 src=0101 seg=3 acks=- len=5\n\
3 > segment middle dst=0202 src=0101 seg=2 acks=- len=5\n\
\x20 message seg=1..3 len=15\n\
\x20 config bufsiz=513 ostype=10 filesys=0 version=4.7.3.5.6 syscap=0\n",
        b"",
        false,
    ),
    // Faults of a file.
    (
        &[],
        LINK_113,
        1,
        b"",
        b"bad link-type at=0\ntaken 0 passed 0\n",
        true,
    ),
    (
        &["--strict"],
        LINK_113,
        1,
        b"",
        b"bad link-type at=0\n",
        true,
    ),
    (
        &[],
        b"\x1f\x8b\x08\x00",
        1,
        b"",
        b"bad unknown at=0\n",
        true,
    ),
    (
        &["--strict"],
        b"\x1f\x8b\x08\x00",
        1,
        b"",
        b"bad unknown at=0\n",
        true,
    ),
    (&[], b"\x1f", 1, b"", b"bad unknown at=0\n", true),
    (&[], b"waits 1\n", 1, b"", b"bad unknown at=0\n", true),
    (&[], b"\xa1\xb2\xc3", 1, b"", b"bad unknown at=0\n", true),
    (
        &[],
        b"\xa1\xb2\xc3\xd4",
        1,
        b"",
        b"bad cut-short at=0\ntaken 0 passed 0\n",
        true,
    ),
    (
        &[],
        b"\xa1\xb2\xc3\xd5",
        1,
        b"",
        b"bad unknown at=0\n",
        true,
    ),
    (
        &[],
        b"\n\r\r\n",
        1,
        b"",
        b"bad cut-short at=0\ntaken 0 passed 0\n",
        true,
    ),
    // Lines by their first bytes.
    (&[], b"", 0, b"", b"taken 0 passed 0\n", false),
    (&["--strict"], b"", 0, b"", b"taken 0 passed 0\n", false),
    (&[], b"\n", 0, b"", b"taken 0 passed 0\n", false),
    (&[], b"\n\r\n", 0, b"", b"taken 0 passed 0\n", false),
    (
        &[],
        b"\r\n> 6002\n",
        0,
        b"1 > bad truncated at=1\n",
        b"",
        false,
    ),
    (
        &[],
        b"\n\n> 6002",
        0,
        b"1 > bad truncated at=1\n",
        b"",
        false,
    ),
    (&[], b"< 6002\n", 0, b"1 < bad truncated at=1\n", b"", false),
    // Packets without nodes aren't between any.
    (
        &["--between", "1.1", "1.2"],
        b"> 6002\n",
        0,
        b"",
        b"taken 0 passed 1\n",
        false,
    ),
    (
        &["--between", "1.1", "1.2", "--bare"],
        b"# frame 7 - 1.2 -> 1.1\n< 6002\n# frame 8 - 1.3 -> 1.1\n> 6002\n",
        0,
        b"1 < 1.2 -> 1.1 bad truncated at=1\n",
        b"",
        false,
    ),
    // Which lines tell of a packet.
    (&[], TOLD, 1, TOLD_TEXT, b"bad line 19\n", true),
    (
        &["--between", "63.1023", "1.2"],
        b"# frame 7 1.5 1.2 -> 63.1023\n> 6003\n# frame 8 1.5 63.1023 -> 1.2\n> 6003\n",
        0,
        b"1 > 1.2 -> 63.1023 bad truncated at=1 ; frame 7 1.5\n\
2 > 63.1023 -> 1.2 bad truncated at=1 ; frame 8 1.5\n",
        b"",
        false,
    ),
    // A short header.
    (
        &[],
        SHORT,
        0,
        b"1 > 0.5 -> 63.6 ack dst=0102 src=0301 acks=0:4095 ; frame 1 0.500000\n",
        b"taken 1 passed 0\n",
        false,
    ),
    (
        &["--lines"],
        SHORT,
        0,
        b"# frame 1 0.500000 0.5 -> 63.6\n> 0402010103ff8f\n",
        b"taken 1 passed 0\n",
        false,
    ),
    // Segments as they are.
    (
        &["--bare", "--segments"],
        b"> 20020201010100010001020a\n> 600202010101000600\n",
        0,
        b"1 > segment first dst=0202 src=0101 seg=1 acks=- len=5\n\
2 > segment only dst=0202 src=0101 seg=1 acks=- len=2\n\
\x20 ack\n",
        b"",
        false,
    ),
    // Lines out of lines.
    (&["--lines"], WIRE_LINES, 0, WIRE_LINES, b"", false),
    (&["--lines"], b"# c\n> 60AB\n", 0, b"> 60ab\n", b"", false),
    (&["--lines", "--strict"], BAD, 1, b"", b"bad line 3\n", true),
];

/// The same of a pcapng file, and lines out of a file and between two nodes.
pub(crate) const OTHER_ROWS: &[Row<'static>] = &[
    (&[], WIRE_NG, 0, NG_TEXT, b"taken 5 passed 2\n", false),
    (
        &["--strict", "--between", "1.2", "1.4"],
        WIRE_NG,
        0,
        b"",
        b"taken 0 passed 7\n",
        false,
    ),
    (
        &["--lines"],
        WIRE,
        0,
        ALL_LINES,
        b"taken 5 passed 2\n",
        false,
    ),
    (
        &["--lines", "--between", "1.2", "1.1"],
        ALL_LINES,
        0,
        ALL_LINES,
        b"",
        false,
    ),
    (
        &["--lines", "--between", "1.2", "1.3"],
        ALL_LINES,
        0,
        b"",
        b"taken 0 passed 5\n",
        false,
    ),
];

/// What packets of set-up say.
pub(crate) const SET_UP_ROWS: &[Row<'static>] = &[
    (&[], SET_UPS, 0, SET_UP_TEXT, b"", false),
    (&["--bare"], SET_UPS, 0, BARE_SET_UPS, b"", false),
];

/// What a front of 200 bytes of three nodes' frames comes to.
pub(crate) const CUT: Row<'static> = (
    &[],
    THREE,
    1,
    CUT_TEXT,
    b"bad cut-short at=176\ntaken 2 passed 0\n",
    true,
);
