//! Packets and messages of worked exchanges, each in its canonical spelling.

/// A segment with a whole message, acknowledgements, and segments in the middle and at the end of one.
pub const PACKETS: &[&[u8]] = &[
    &[0x60, 2, 1, 4, 3, 5, 0x80, 1, 0, 6, 2, 0],
    &[4, 2, 1, 4, 3, 0xff, 0x8f],
    &[4, 2, 1, 4, 3, 5, 0x80],
    &[0, 2, 1, 4, 3, 5, 0x80, 2, 0, 6, 2, 0],
    &[0x40, 2, 1, 4, 3, 5, 0x80, 2, 0, 6, 2, 0],
];

/// The Config of an end with a buffer of 1,024 bytes.
pub const CONFIG: &[u8] = &[1, 2, 10, 0, 4, 7, 3, 5, 6, 0, 0, 0, 0];

/// The attributes of a relative file of variable records with the numbers 1 to 3.
pub const RELATIVE: &[u8] = &[2, 2, 0x0b, 0xa6, 4, 0x10, 2, 0, 0, 4, 3, 0, 0, 0];

/// Those of a sequential file whose records have at most 5 bytes.
pub const FIVE: &[u8] = &[2, 2, 0x0b, 0xa6, 4, 0, 2, 5, 0, 4, 0, 0, 0, 0];

/// An Access that makes the file `F`, with the right to get, put and delete.
pub const CREATE: &[u8] = &[3, 2, 8, 2, 0, 1, 0x46, 7, 0, 0, 0];

/// An Access that makes the file `F`, with all rights.
pub const CREATE_ALL: &[u8] = &[3, 2, 8, 2, 0, 1, 0x46, 15, 0, 0, 0];

pub const OPEN: &[u8] = &[3, 2, 8, 1, 0, 1, 0x46, 15, 0, 0, 0];

pub const ACKNOWLEDGE: &[u8] = &[6, 2, 0];

pub const CONNECT: &[u8] = &[4, 2, 2, 2, 0];

pub const PUT: &[u8] = &[4, 2, 3, 4, 1, 0];

pub const PUT_3: &[u8] = &[4, 2, 8, 4, 3, 1, 4, 3, 0, 0, 0];

pub const PUT_4: &[u8] = &[4, 2, 8, 4, 3, 1, 4, 4, 0, 0, 0];

pub const GET: &[u8] = &[4, 2, 3, 1, 1, 0];

pub const UPDATE: &[u8] = &[4, 2, 3, 3, 1, 0];

pub const REWIND: &[u8] = &[4, 2, 3, 6, 1, 0];

/// A Get of all records.
pub const FETCH: &[u8] = &[4, 2, 3, 1, 1, 3];

pub const DELETE: &[u8] = &[4, 2, 3, 5, 1, 0];

/// A Put of records one after another.
pub const STORE: &[u8] = &[4, 2, 3, 4, 1, 3];

pub const DATA_A: &[u8] = &[8, 2, 2, 0, 0x41];

pub const DATA_SIX: &[u8] = &[8, 2, 7, 0, 0x42, 0x42, 0x42, 0x42, 0x42, 0x42];

pub const DATA_C: &[u8] = &[8, 2, 2, 0, 0x43];

pub const CLOSE: &[u8] = &[7, 2, 2, 1, 0];

pub const PURGE: &[u8] = &[7, 2, 2, 3, 0];

pub const BAD_FLAGS: &[u8] = &[6, 8];

pub const END_STREAM: &[u8] = &[7, 2, 2, 4, 0];

pub const DONE_3: &[u8] = &[9, 2, 0x0d, 0, 0x10, 4, 3, 0, 0, 0, 4, 3, 0, 0, 0, 0];

pub const REWOUND: &[u8] = &[9, 2, 5, 0, 0x10, 0, 0, 0];

/// The Status of a transfer that met a record which is too long.
pub const TOO_LARGE: &[u8] = &[9, 2, 6, 0, 0x50, 0, 0, 1, 0x0a];

pub const EXISTS: &[u8] = &[9, 2, 6, 0, 0x50, 0, 0, 1, 5];

pub const OUT_OF_RANGE: &[u8] = &[9, 2, 6, 0, 0x50, 0, 0, 1, 6];

pub const NO_CURRENT: &[u8] = &[9, 2, 6, 0, 0x50, 0, 0, 1, 3];

pub const FOUND_3: &[u8] = &[8, 2, 6, 4, 3, 0, 0, 0, 0x41];

pub const END_OF_FILE: &[u8] = &[9, 2, 5, 0x27, 0x50, 0, 0, 0];

pub const BAD_LENGTH: &[u8] = &[9, 2, 0x0a, 0, 0x50, 0, 4, 2, 0, 0, 0, 1, 7];

pub const COMPLETED: &[u8] = &[7, 2, 2, 2, 0];

/// Records of a relative file: put, refused, found and deleted.
pub const RECORDS: &[&[u8]] = &[
    CONFIG, RELATIVE, CREATE, CONNECT, PUT_3, DATA_A, PUT_3, DATA_A, PUT_4, DATA_A, GET, DELETE,
    DELETE, GET,
];

/// A Store whose second record is too long.
pub const STORING: &[&[u8]] = &[
    CONFIG, FIVE, CREATE, CONNECT, STORE, DATA_A, DATA_SIX, DATA_C, END_STREAM,
];

/// A record is found, updated and found again; what is out of sequence is refused.
pub const UPDATING: &[&[u8]] = &[
    CONFIG, FIVE, CREATE_ALL, CONNECT, PUT, DATA_A, GET, UPDATE, DATA_C, REWIND, GET, FETCH, CLOSE,
    OPEN, PURGE, BAD_FLAGS,
];

/// All messages of these exchanges.
pub const MESSAGES: &[&[u8]] = &[
    CONFIG,
    RELATIVE,
    FIVE,
    CREATE,
    ACKNOWLEDGE,
    CONNECT,
    PUT_3,
    PUT_4,
    GET,
    DELETE,
    STORE,
    DATA_A,
    DATA_SIX,
    DATA_C,
    END_STREAM,
    DONE_3,
    EXISTS,
    OUT_OF_RANGE,
    NO_CURRENT,
    FOUND_3,
    END_OF_FILE,
    BAD_LENGTH,
    COMPLETED,
];
