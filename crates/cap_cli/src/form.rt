//! What form an input has, by the first bytes that it has.

ghost use Rattle.std.specs.Prelude.{◌≡◌, ◌<◌, ◌++◌, IfOk, IfSome, List, length, take, true, false, ℕ};
ghost use Rattle.std.specs.Io.KnownBytes.{Consumes};
ghost use Rattle.cap_cli.specs.Forms.{begins_line, form_of};
ghost use Rattle.cap_cli.specs.Inner.Fronts.{MayTellMore};

use arrayvec::ArrayVec;
use capture_file::{file_kind, may_become_file};
use std::io;
use std::io::Read;

/// How many bytes tell the form at most.
const FRONT_LEN: usize = 4;

/// How a file begins that `gzip` compressed.
pub(crate) const GZIP: &[u8] = &[0x1f, 0x8b];

/// What an input is.
#[derive(Clone, Copy, Debug, PartialEq, Eq)]
pub enum Form {
    /// Lines of a capture.
    Lines,
    /// A pcap or pcapng file.
    File,
    /// Neither.
    Unknown,
}

/// Returns whether a line of a capture begins with this byte.
fn is_line(byte: u8) -> bool
    ensures { result ≡ begins_line byte }
{
    matches!(byte, b'>' | b'<' | b'#' | b'\r' | b'\n')
}

/// Returns the form of an input, of which the first four bytes are enough.
pub(crate) fn form_of_front(input: &[u8]) -> Form
    ensures { result ≡ form_of input.now }
{
    if file_kind(input).is_some() {
        return Form::File;
    }
    match input {
        [] => Form::Lines,
        [first, ..] if is_line(*first) => Form::Lines,
        _ => Form::Unknown,
    }
}

/// Returns whether the bytes after these first ones may say more of the input.
fn is_undecided(front: &[u8]) -> bool
    ensures closed { result ≡ false
        → (more : List ℕ) → form_of (front.now ++ more) ≡ form_of front.now }
    ensures short { result ≡ true → length front.now < 4 }
    ensures open { result ≡ true → MayTellMore front.now }
{
    may_become_file(front) || front == &GZIP[..1]
}

/// Reads as many of the first bytes as tell what the input is, at most four, one by one, and returns them. None is
/// waited for that says nothing more.
pub(crate) fn read_front<R: Read>(reader: &mut R) -> io::Result<ArrayVec<u8, FRONT_LEN>>
    ensures came { IfOk result (λ front.
        Consumes (R.remaining reader.old) (R.remaining reader.new) front.items) }
    ensures told { IfOk result (λ front. IfSome (R.remaining reader.old)
        (λ input. form_of front.items ≡ form_of input)) }
    ensures needed { IfOk result (λ front. (k : ℕ) → k < length front.items
        → MayTellMore (take k front.items)) }
{
    let mut front = ArrayVec::new();
    while is_undecided(front.as_slice()) {
        let mut byte = [0];
        if reader.read(&mut byte)? == 0 {
            return Ok(front);
        }
        front.push(byte[0]);
    }
    Ok(front)
}
