//! The lines of a capture.

ghost use Rattle.std.specs.Prelude.{ℕ, ◌≡◌};
ghost use Rattle.dap_listing.specs.Lines.{line_of};
ghost use Rattle.dap_listing.specs.Inner.Lines.{line_of_head};

use linewise::is_skipped;

/// The way that captured bytes went.
#[derive(Clone, Copy, PartialEq, Eq, Hash)]
pub enum Direction {
    /// `>`
    Right,
    /// `<`
    Left,
}

/// What the first bytes of a line say.
#[derive(Clone, Copy)]
pub(crate) enum Head<'a> {
    /// The line says nothing: it is empty or a comment.
    Skipped,
    /// What follows has to be the hex digits of captured bytes.
    Digits(Direction, &'a [u8]),
    /// The line has no meaning.
    Malformed,
}

/// Returns what the first bytes of a line say.
pub(crate) fn parse_head(line: &[u8]) -> Head<'_>
    ensures { (limit : ℕ) → line_of_head limit result ≡ line_of limit line.now }
{
    if is_skipped(line) {
        return Head::Skipped;
    }
    match line {
        [b'>', b' ', digits @ ..] => Head::Digits(Direction::Right, digits),
        [b'<', b' ', digits @ ..] => Head::Digits(Direction::Left, digits),
        _ => Head::Malformed,
    }
}
