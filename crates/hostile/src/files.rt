//! Files of both organizations, and streams over them.

use crate::growing::{Ending, Growing, Trouble, at};
use crate::reading::look_at_file;
use crate::text::Text;
use rec_file::{AnyFile, Pick, RecordFile, Refusal, Rights, Shape, Stream};
use std::alloc::Global;

/// What is done to a file.
#[derive(Clone, Copy)]
pub enum Act {
    Place(u32, &'static [u8]),
    Replace(u32, &'static [u8]),
    Get(Pick),
    Put(Option<u32>, &'static [u8]),
    Update(&'static [u8]),
}

/// On a sequential file.
pub const IN_ORDER: &[Act] = &[
    Act::Place(1, b"one"),
    Act::Place(2, b""),
    Act::Put(None, b"three"),
    Act::Put(None, b"four, which is longer than those before it"),
    Act::Put(None, b"five"),
    Act::Replace(3, b"THREE"),
    Act::Get(Pick::Rfa(5)),
    Act::Update(b"FIVE"),
];

/// On a relative file: pages of 64 records before, between and after those that are there.
pub const BY_NUMBER: &[Act] = &[
    Act::Place(300, b"three hundred"),
    Act::Place(301, b""),
    Act::Put(None, b"one"),
    Act::Put(Some(64), b"sixty-four"),
    Act::Put(Some(65), b"sixty-five"),
    Act::Place(2_147_483_647, b"last"),
    Act::Put(Some(1000), b"thousand"),
    Act::Put(Some(129), b"page three"),
    Act::Replace(64, b"another and a longer one"),
    Act::Get(Pick::Key(300)),
    Act::Update(b"a shorter"),
];

/// ORG of sequential and of relative files, and RFM of variable records.
pub const SEQUENTIAL: u8 = 0;

pub const RELATIVE: u8 = 16;

const VARIABLE: u8 = 2;

/// All rights.
const RIGHTS: Rights = Rights {
    get: true,
    put: true,
    upd: true,
    del: true,
};

/// A file with a stream over it, and what is done to it.
#[derive(Drop)]
pub struct Filing {
    file: AnyFile,
    stream: Stream,
    acts: &'static [Act],
}

impl Filing {
    pub fn new(alloc: Global, org: u8, acts: &'static [Act]) -> Result<Filing, Ending> {
        let Some(shape) = Shape::check(org, VARIABLE, 0, 0) else {
            return Err(Ending::Wrong);
        };
        Ok(Filing {
            file: AnyFile::new(alloc, shape),
            stream: Stream::new(RIGHTS),
            acts,
        })
    }
}

/// Stores a record under a free number that the file allows.
fn place(file: &mut AnyFile, number: u32, body: &[u8]) -> Result<(), Trouble> {
    let shape = file.shape();
    if number == 0 || number > shape.limit() || !shape.allows(body.len()) {
        return Err(Trouble::Wrong);
    }
    if shape.is_sequential() && number != file.highest() + 1 {
        return Err(Trouble::Wrong);
    }
    if file.lookup(number).is_some() {
        return Err(Trouble::Wrong);
    }
    file.place(number, body).map_err(|_| Trouble::Wants)
}

/// Stores another record under an occupied number.
fn replace(file: &mut AnyFile, number: u32, body: &[u8]) -> Result<(), Trouble> {
    if !file.shape().allows(body.len()) || file.lookup(number).is_none() {
        return Err(Trouble::Wrong);
    }
    file.replace(number, body).map_err(|_| Trouble::Wants)
}

/// Returns what became of a call on a stream.
fn done(streamed: Result<u32, Refusal>) -> Result<(), Trouble> {
    match streamed {
        Ok(_number) => Ok(()),
        Err(refusal) => Err(Trouble::from(refusal)),
    }
}

/// Does one act to the file, or to the stream.
fn perform(file: &mut AnyFile, stream: &mut Stream, act: Act) -> Result<(), Trouble> {
    match act {
        Act::Place(number, body) => place(file, number, body),
        Act::Replace(number, body) => replace(file, number, body),
        Act::Get(pick) => done(stream.get(file, pick)),
        Act::Put(key, body) => done(stream.put(file, key, body)),
        Act::Update(body) => done(stream.update(file, body)),
    }
}

impl Growing for Filing {
    fn call(&mut self, index: usize) -> Result<(), Trouble> {
        let act = at(self.acts, index)?;
        perform(&mut self.file, &mut self.stream, act)
    }

    fn look(&self, seen: &mut Text) {
        seen.note("next", u64::from(self.stream.next()));
        look_at_file(&self.file, seen);
    }
}
