//! Numbers that go round at 4,096 (NSP 4.0.0, segment numbers).

ghost use Rattle.std.specs.Prelude.{◌≡◌, ◌+◌, ◌-◌, ◌<◌};
ghost use Rattle.nsp_seg.specs.Numbers.{residue};

use std::marker::Model;

/// A number below 4,096: that of a segment, or of an acknowledgement (NSP 4.0.0, data segment message).
#[derive(Clone, Copy, PartialEq, Eq)]
pub struct Seq12(u16);

/// How many numbers of segments there are: they go round at this one (NSP 4.0.0, segment numbers).
pub const MODULUS: u16 = 4096;

impl Model for Seq12 {
    ghost use Rattle.std.specs.Prelude.{ℕ, ◌<◌};

    ghost Value = { ℕ };

    ghost view = { λ s. s.0 };

    ghost invariant = { λ s. s.0 < 4096 };

    ghost inverse = { λ n. record { 0 = n } };
}

impl Seq12 {
    /// Returns the number modulo 4,096 (NSP 4.0.0, segment numbers).
    #[tactic(auto, unfolding(crate::specs::Numbers::residue))]
    pub fn of(number: u64) -> Seq12
        ensures { result ≡ residue number }
    {
        Seq12((number % u64::from(MODULUS)) as u16)
    }

    /// Returns the number itself, below 4,096 (NSP 4.0.0, segment numbers).
    pub fn get(self) -> u16
        ensures value { result ≡ self }
        ensures small { result < 4096 }
    {
        self.0
    }

    /// Returns the number that follows: 0 after 4,095 (NSP 4.0.0, segment numbers).
    #[tactic(auto, unfolding(crate::specs::Numbers::residue))]
    pub fn after(self) -> Seq12
        ensures { result ≡ residue (self + 1) }
    {
        Seq12((self.0 + 1) % MODULUS)
    }

    /// Returns how far this number is ahead of the other, going round: this one minus the other, modulo 4,096.
    #[tactic(auto, unfolding(crate::specs::Numbers::residue))]
    pub fn ahead_of(self, other: Seq12) -> u16
        ensures ahead { result ≡ residue (self + 4096 - other) }
        ensures small { result < 4096 }
    {
        (self.0 + MODULUS - other.0) % MODULUS
    }
}
