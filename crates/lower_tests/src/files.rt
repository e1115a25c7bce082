//! What isn't a session: the pages of a relative file, and a list of numbers and records beside which they are tried.
//! The scripts over each kind of file are the sessions of `crates/sessions/data/files.txt`.

mod list_file;

use list_file::ListFile;
use rec_file::{
    Format, Org, Pick, RecordFile, Refusal, RelFile, Rights, Shape, Stream, first_record,
};
use std::process::Abort;

const ALL: Rights = Rights {
    get: true,
    put: true,
    upd: true,
    del: true,
};

const RELATIVE: Shape = Shape {
    org: Org::Rel,
    format: Format::Variable,
    mrs: 0,
    mrn: 0,
};

/// Numbers and records, each of which is put.
const FOUR_PUTS: &[(u32, &[u8])] = &[(2147483647, b"last"), (65, b"b"), (64, b"a"), (1, b"")];

/// Numbers, and the first record from each on.
const FIRSTS: &[(u32, Option<u32>)] = &[
    (0, Some(1)),
    (1, Some(1)),
    (2, Some(64)),
    (65, Some(65)),
    (66, Some(2147483647)),
    (2147483648, None),
    (4294967295, None),
];

/// Records that are removed, and then the pages, the highest number, and the first record from 2 on.
const REMOVALS: &[(u32, (usize, u32, Option<u32>))] = &[
    (64, (3, 2147483647, Some(65))),
    (2147483647, (2, 65, Some(65))),
];

/// Removes the record of a number, which is there.
fn removes(rt: &impl Abort, file: &mut RelFile, number: u32) {
    assert!(rt; !file.shape().is_sequential());
    assert!(rt; file.lookup(number).is_some());
    file.remove(number);
    assert!(rt; file.lookup(number).is_none());
}

/// Returns the pages, the highest number, and the first record from 2 on.
fn sizes(file: &RelFile) -> (usize, u32, Option<u32>) {
    (file.page_count(), file.highest(), file.first_from(2))
}

/// Checks the first record from each of some numbers on.
fn begins_at(rt: &impl Abort, file: &RelFile, firsts: &[(u32, Option<u32>)]) {
    for (from, first) in firsts {
        assert!(rt; file.first_from(*from) == *first, "from {from}");
    }
}

/// Removes the records, and checks after each what is left.
fn removes_each(rt: &impl Abort, file: &mut RelFile) {
    for (number, left) in REMOVALS {
        removes(rt, file, *number);
        assert!(rt; sizes(file) == *left, "after {number}");
    }
}

/// Puts the records under their numbers.
fn puts_each(rt: &impl Abort, file: &mut RelFile, stream: &mut Stream) {
    for (number, body) in FOUR_PUTS {
        assert!(rt;
            stream.put(file, Some(*number), body) == Ok(*number),
            "{number}"
        );
    }
}

/// Puts, finds and removes four records.
fn four_records(rt: &impl Abort, file: &mut RelFile) {
    assert!(rt; sizes(file) == (0, 0, None));
    puts_each(rt, file, &mut Stream::new(ALL));
    assert!(rt; sizes(file) == (3, 2147483647, Some(64)));
    begins_at(rt, file, FIRSTS);
    assert!(rt; file.lookup(1) == Some(b"") && file.lookup(2).is_none());
    removes_each(rt, file);
}

#[test]
fn pages_of_four_records(rt: HostRuntime) {
    four_records(&rt, &mut RelFile::new(rt.alloc(), RELATIVE));
}

/// At most two bytes, under three numbers.
const SHORT: Shape = Shape {
    org: Org::Rel,
    format: Format::Variable,
    mrs: 2,
    mrn: 3,
};

/// Numbers and records that are put into such a file, one after the other, and the answers.
const SHORT_PUTS: &[(Option<u32>, &[u8], Result<u32, Refusal>)] = &[
    (Some(3), b"ab", Ok(3)),
    (Some(3), b"ab", Err(Refusal::RecordExists)),
    (Some(0), b"ab", Err(Refusal::NumberOutOfRange)),
    (Some(4), b"ab", Err(Refusal::NumberOutOfRange)),
    (Some(2), b"abc", Err(Refusal::BadLength)),
    (None, b"a", Ok(1)),
    (None, b"", Ok(2)),
    (None, b"a", Err(Refusal::RecordExists)),
];

/// Checks that a file of any kind refuses what its shape doesn't allow.
fn keeps_to_its_shape<F: RecordFile>(rt: &impl Abort, file: &mut F) {
    let mut stream = Stream::new(ALL);
    for (number, body, answer) in SHORT_PUTS {
        assert!(rt;
            stream.put(file, *number, body) == *answer,
            "{number:?} {body:?}"
        );
    }
}

#[test]
fn a_list_keeps_to_its_shape_as_pages_do(rt: HostRuntime) {
    keeps_to_its_shape(&rt, &mut RelFile::new(rt.alloc(), SHORT));
    keeps_to_its_shape(&rt, &mut ListFile::new(rt.alloc(), SHORT));
}

/// A session's numbers have 32 bits, and MRN has 64.
#[test]
fn the_greatest_mrn(rt: HostRuntime) {
    assert!(&rt; Shape::check(16, 2, 0, u64::MAX).is_none());
}

/// Returns a pick of one step: the next record, or the one under the number.
fn pick_at(step: u32, number: u32) -> Pick {
    if step % 2 == 0 {
        Pick::Next
    } else {
        Pick::Key(number)
    }
}

/// Does one step of the script, and returns its answers: a put, or a get and the delete or the update after it.
fn take_step<F: RecordFile>(
    file: &mut F,
    stream: &mut Stream,
    step: u32,
    number: u32,
) -> (Result<u32, Refusal>, Option<Result<u32, Refusal>>) {
    if step % 5 < 2 {
        return (stream.put(file, Some(number), b"put"), None);
    }
    let got = stream.get(file, pick_at(step, number));
    let changed = if step % 3 == 0 {
        stream.delete(file)
    } else {
        stream.update(file, b"updated")
    };
    (got, Some(changed))
}

/// Returns whether the pages answer as the list does for a number.
fn is_same(pages: &RelFile, list: &ListFile, number: u32) -> bool {
    pages.first_from(number) == list.first_from(number)
        && pages.lookup(number) == list.lookup(number)
        && first_record(pages, number) == first_record(list, number)
}

/// Returns how many pages the records of the list take.
fn count_pages(list: &ListFile) -> usize {
    let mut count = 0usize;
    let mut page = None;
    for number in 1..400u32 {
        let here = Some((number - 1) / 64);
        if list.lookup(number).is_some() && page != here {
            page = here;
            count = count.saturating_add(1);
        }
    }
    count
}

fn same_records(rt: &impl Abort, pages: &RelFile, list: &ListFile) {
    assert!(rt; pages.highest() == list.highest());
    assert!(rt; pages.page_count() == count_pages(list));
    for number in 0..400 {
        assert!(rt; is_same(pages, list, number), "at {number}");
    }
}

/// The pages answer as the list does to a long script of scattered numbers.
#[test]
fn pages_answer_as_the_list(rt: HostRuntime) {
    let mut pages = RelFile::new(rt.alloc(), RELATIVE);
    let mut list = ListFile::new(rt.alloc(), RELATIVE);
    let mut here = Stream::new(ALL);
    let mut there = Stream::new(ALL);
    let mut seed: u32 = 1;
    for step in 0..1500u32 {
        seed = seed.wrapping_mul(1664525).wrapping_add(1013904223);
        let number = (seed >> 8) % 300 + 1;
        let wanted = take_step(&mut list, &mut there, step, number);
        assert!(rt;
            take_step(&mut pages, &mut here, step, number) == wanted,
            "at step {step}"
        );
        if step % 50 == 0 {
            same_records(&rt, &pages, &list);
        }
    }
}
