//! The bytes of a message's fields.

use std::marker::Model;

/// Bytes that lie in memory, which contracts see as a list of numbers.
#[derive(Drop)]
pub struct Bytes<'a>(pub &'a [u8]);

impl<'a> Model for Bytes<'a> {
    ghost use Rattle.std.specs.Prelude.{List, ℕ};

    ghost Value = { List ℕ };

    ghost view = { λ b. b.0.now };
}

impl<'a> PartialEq for Bytes<'a> {
    ghost use Rattle.std.specs.Prelude.{nat_eq};
    ghost use Rattle.std.specs.Cmp.Lexicographic.{pointwise};
    ghost use Rattle.std.specs.Cmp.Rules.{comparing};
    ghost use Rattle.std.proofs.Common.{rules};

    ghost eq = { pointwise nat_eq };

    ghost laws = { Prim.search (comparing, rules) };

    fn eq(&self, other: &Bytes<'a>) -> bool {
        self.0 == other.0
    }
}
