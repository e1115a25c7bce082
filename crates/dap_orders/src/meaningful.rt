//! The lines of a schedule that aren't skipped.

ghost use Rattle.std.specs.Prelude.{◌≡◌, ◌≤◌, ◌+◌, ◌∷◌, [], length, IfSome, MatchOption};
ghost use Rattle.dap_orders.specs.Schedules.{said_from};

use linewise::{MAX_INPUT, is_skipped, next_line};
use std::marker::Model;

/// Returns the first line that isn't skipped, after its number, and the bytes after it. The first of all lines has this
/// number.
fn next_meaningful(number: usize, bytes: &[u8]) -> Option<(usize, &[u8], &[u8])>
    requires { number + length bytes.now ≤ MAX_INPUT + 1 }
    ensures said { MatchOption result (said_from number bytes.now ≡ [])
        (λ found. said_from number bytes.now
        ≡ (found.0, found.1.now) ∷ said_from (found.0 + 1) found.2.now) }
    ensures counted { IfSome result (λ found. found.0 + 1 + length found.2.now ≤ MAX_INPUT + 1) }
{
    let mut number = number;
    let mut rest = bytes;
    while let Some((line, after)) = next_line(rest) {
        if !is_skipped(line) {
            return Some((number, line, after));
        }
        number += 1;
        rest = after;
    }
    None
}

/// The lines that aren't skipped, from an offset of the input on, each after its number.
#[derive(Drop)]
pub struct MeaningfulLines<'a> {
    number: usize,
    rest: &'a [u8],
}

impl<'a> Model for MeaningfulLines<'a> {
    ghost use Rattle.std.specs.Prelude.{List, ◌+◌, ◌≤◌, length};
    ghost use Rattle.dap_orders.specs.Schedules.{Numbered, said_from};

    ghost Value = { List Numbered };

    ghost view = { λ s. said_from s.number s.rest.now };

    ghost invariant = { λ s. s.number + length s.rest.now ≤ 16777217 };
}

impl<'a> MeaningfulLines<'a> {
    ghost use Rattle.std.specs.Prelude.{◌≡◌, ◌≤◌, ◌+◌, ◌∷◌, [], length, MatchOption};
    ghost use Rattle.dap_orders.specs.Schedules.{numbered_lines};

    /// Returns the lines of a whole input that aren't skipped.
    pub fn of(input: &'a [u8]) -> Self
        requires { length input.now ≤ MAX_INPUT }
        ensures said { result ≡ numbered_lines input.now }
        ensures short { length result ≤ length input.now + 1 }
    {
        MeaningfulLines {
            number: 1,
            rest: input,
        }
    }

    /// Takes the next line that isn't skipped.
    pub fn next(&mut self) -> Option<(usize, &'a [u8])>
        ensures { MatchOption result ((self.old ≡ []) × (self.new ≡ []))
            (λ found. self.old ≡ (found.0, found.1.now) ∷ self.new) }
    {
        let (number, line, after) = next_meaningful(self.number, self.rest)?;
        self.number = number + 1;
        self.rest = after;
        Some((number, line))
    }
}
