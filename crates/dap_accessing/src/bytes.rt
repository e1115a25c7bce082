//! Bytes of names and records, which contracts see as lists, however they are held.

ghost use Rattle.std.specs.Prelude.{◌≡◌, IfOk, List, ℕ};

use std::alloc::{AllocError, Global};
use std::marker::Model;

/// What holds the bytes of a name or a record.
pub trait ToBytes {
    ghost bytes: { Self → List ℕ };

    /// Copies the bytes into other memory.
    fn to_bytes(&self, alloc: Global) -> Result<Vec<u8>, AllocError>
        ensures { IfOk result (λ copy. copy.items ≡ bytes self.now) };
}

impl ToBytes for Vec<u8> {
    ghost bytes = { λ v. v.items };

    fn to_bytes(&self, alloc: Global) -> Result<Vec<u8>, AllocError> {
        Vec::from_slice(alloc, self)
    }
}

/// Bytes of a name or a record, which contracts see as a list of numbers.
#[derive(Drop, Debug)]
pub struct Octets<H: ToBytes = Vec<u8>>(pub H);

impl<H: ToBytes> Model for Octets<H> {
    ghost use Rattle.std.specs.Prelude.{List, ℕ};

    ghost Value = { List ℕ };

    ghost view = { λ a. H.bytes a.0 };
}

impl PartialEq for Octets {
    ghost use Rattle.std.specs.Prelude.{nat_eq};
    ghost use Rattle.std.specs.Cmp.Lexicographic.{pointwise};
    ghost use Rattle.std.specs.Cmp.Rules.{comparing};
    ghost use Rattle.std.proofs.Common.{rules};

    ghost eq = { pointwise nat_eq };

    ghost laws = { Prim.search (comparing, rules) };

    fn eq(&self, other: &Octets) -> bool {
        self.0 == other.0
    }
}

/// What holds records in order.
pub trait ToRecords {
    ghost records: { Self → List (List ℕ) };

    /// Copies the records into other memory.
    fn to_records(&self, alloc: Global) -> Result<Vec<Octets>, AllocError>
        ensures { IfOk result (λ copy. copy.items ≡ records self.now) };
}

impl ToRecords for Vec<Octets> {
    ghost records = { λ v. v.items };

    fn to_records(&self, alloc: Global) -> Result<Vec<Octets>, AllocError> {
        let mut copy = Vec::new(alloc);
        for octets in self {
            copy.push(octets.copy(alloc)?)?;
        }
        Ok(copy)
    }
}

/// Records in order, which contracts see as a list of lists.
#[derive(Drop, Debug)]
pub struct OctetsList<L: ToRecords = Vec<Octets>>(pub L);

impl<L: ToRecords> Model for OctetsList<L> {
    ghost use Rattle.std.specs.Prelude.{List, ℕ};

    ghost Value = { List (List ℕ) };

    ghost view = { λ a. L.records a.0 };
}

impl PartialEq for OctetsList {
    ghost use Rattle.std.specs.Prelude.{nat_eq};
    ghost use Rattle.std.specs.Cmp.Lexicographic.{pointwise};
    ghost use Rattle.std.specs.Cmp.Rules.{comparing};
    ghost use Rattle.std.proofs.Common.{rules};

    ghost eq = { pointwise (pointwise nat_eq) };

    ghost laws = { Prim.search (comparing, rules) };

    fn eq(&self, other: &OctetsList) -> bool {
        self.0 == other.0
    }
}

/// Records in order, each with its number.
#[derive(Drop)]
pub struct Numbered(pub Vec<(u64, Octets)>);

impl Model for Numbered {
    ghost use Rattle.std.specs.Prelude.{List, ℕ};

    ghost Value = { List (ℕ × List ℕ) };

    ghost view = { λ a. a.0.items };
}

impl PartialEq for Numbered {
    ghost use Rattle.std.specs.Prelude.{nat_eq};
    ghost use Rattle.std.specs.Cmp.Lexicographic.{pointwise};
    ghost use Rattle.std.specs.Cmp.Rules.{comparing};
    ghost use Rattle.std.specs.Ordering.{eq_of_both, on};
    ghost use Rattle.std.proofs.Common.{rules};

    ghost eq = { pointwise (eq_of_both (on (λ r. r.0) nat_eq) (on (λ r. r.1) (pointwise nat_eq))) };

    ghost laws = { Prim.search (comparing, rules) };

    fn eq(&self, other: &Numbered) -> bool {
        self.0 == other.0
    }
}
