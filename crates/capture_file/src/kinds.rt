//! Which files of captured frames there are, by their first bytes.

ghost use Rattle.std.specs.Prelude.{◌≡◌, ◌<◌, ◌++◌, ◌∷◌, IsSome, List, length, false, true, ℕ};
ghost use Rattle.std.specs.List.{list_any};
ghost use Rattle.capture_file.specs.Units.{begins_with_number, file_kind_of, pcap_magics, section_type};
ghost use Rattle.capture_file.specs.Inner.Fronts.{begins_number};

use crate::units::{MICROSECONDS, MICROSECONDS_TURNED, NANOSECONDS, NANOSECONDS_TURNED, SECTION};
use std::fmt;
use std::fmt::{Display, Formatter};

/// How many bytes tell what a file is.
const MAGIC_LEN: usize = 4;

/// A file of captured frames.
#[derive(Clone, Copy, Debug, PartialEq, Eq)]
pub enum FileKind {
    Pcap,
    Pcapng,
}

impl Display for FileKind {
    fn fmt<W: fmt::Write>(&self, f: &mut Formatter<W>) -> fmt::Result {
        f.write_str(match self {
            FileKind::Pcap => "a pcap file",
            FileKind::Pcapng => "a pcapng file",
        })
    }
}

/// Returns whether these bytes begin with a number, its high byte first.
fn begins_with(front: &[u8], number: u32) -> bool
    ensures { result ≡ begins_with_number front.now number }
{
    let first = &front[..front.len().min(MAGIC_LEN)];
    first == &number.to_be_bytes()[..]
}

/// Returns whether these are fewer than four bytes, with which a number begins, its high byte first.
fn may_begin(front: &[u8], number: u32) -> bool
    ensures value { result ≡ begins_number front.now number }
    ensures short { result ≡ true → length front.now < 4 }
{
    front.len() < MAGIC_LEN && front == &number.to_be_bytes()[..front.len()]
}

/// Returns which file of captured frames begins with these bytes. The first four tell it; fewer tell nothing.
pub fn file_kind(front: &[u8]) -> Option<FileKind>
    ensures { result ≡ file_kind_of front.now }
{
    if begins_with(front, SECTION) {
        return Some(FileKind::Pcapng);
    }
    let is_pcap = begins_with(front, MICROSECONDS)
        || begins_with(front, NANOSECONDS)
        || begins_with(front, MICROSECONDS_TURNED)
        || begins_with(front, NANOSECONDS_TURNED);
    is_pcap.then_some(FileKind::Pcap)
}

/// Returns whether these are fewer than four bytes, with which one of the numbers that tell a file begins.
fn may_begin_any(front: &[u8]) -> bool
    ensures value { result ≡ list_any (begins_number front.now) (section_type ∷ pcap_magics) }
    ensures short { result ≡ true → length front.now < 4 }
{
    may_begin(front, SECTION)
        || may_begin(front, MICROSECONDS)
        || may_begin(front, NANOSECONDS)
        || may_begin(front, MICROSECONDS_TURNED)
        || may_begin(front, NANOSECONDS_TURNED)
}

/// Returns whether more bytes after these may make a file of captured frames of them, which these don't tell yet.
pub fn may_become_file(front: &[u8]) -> bool
    ensures closed { result ≡ false
        → (more : List ℕ) → file_kind_of (front.now ++ more) ≡ file_kind_of front.now }
    ensures short { result ≡ true → length front.now < 4 }
    ensures open { result ≡ true → (more : List ℕ) × IsSome (file_kind_of (front.now ++ more)) }
{
    may_begin_any(front)
}
