//! Where lines end, and which say nothing.

ghost use Rattle.std.specs.Prelude.{◌≡◌, ◌<◌, ◌-◌, drop, length, MatchOption, IfSome, [], ◌∷◌};
ghost use Rattle.std.specs.Io.BufRead.{strip_last};
ghost use Rattle.std.specs.Str.Lines.{lines, strip_carriage_return};
ghost use Rattle.linewise.specs.Talks.{is_skipped as says_nothing};
ghost use Rattle.linewise.specs.Inner.Kept.{without_end as ended};

use texts::find_byte;

/// Returns a line without the carriage return at its end, if it has one.
fn without_carriage_return(line: &[u8]) -> &[u8]
    ensures of_bytes { result.now ≡ strip_carriage_return line.now }
    ensures of_reader { result.now ≡ strip_last 13 line.now }
{
    match line {
        [front @ .., b'\r'] => front,
        _ => line,
    }
}

/// Returns a line without its end.
pub(crate) fn without_end(line: &[u8]) -> &[u8]
    ensures { result.now ≡ ended line.now }
{
    match line {
        [front @ .., b'\n'] => without_carriage_return(front),
        _ => line,
    }
}

/// Returns whether a line says nothing: it is empty, or begins with `#`. An end is given such a line only where its
/// answers have no ending.
pub fn is_skipped(line: &[u8]) -> bool
    ensures { result ≡ says_nothing line.now }
{
    match line {
        [] => true,
        [first, ..] => *first == b'#',
    }
}

/// Returns the first line, without its end, and what is after it. A line ends with LF, or CR LF, or with the bytes.
#[tactic(auto, using(crate::proofs::LineLemmas::first_line, crate::proofs::LineLemmas::last_line))]
pub fn next_line(bytes: &[u8]) -> Option<(&[u8], &[u8])>
    ensures first { MatchOption result (bytes.now ≡ [])
        (λ cut. (lines bytes.now ≡ cut.0.now ∷ lines cut.1.now)
        × (length cut.1.now < length bytes.now)) }
    ensures end { IfSome result
        (λ cut. cut.1.now ≡ drop (length bytes.now - length cut.1.now) bytes.now) }
{
    if bytes.is_empty() {
        return None;
    }
    match find_byte(b'\n', bytes) {
        None => Some((bytes, &[])),
        Some(end) => Some((without_carriage_return(&bytes[..end]), &bytes[end + 1..])),
    }
}
