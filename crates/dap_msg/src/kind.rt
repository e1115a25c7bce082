//! The kinds of fields: how the fields of each are read, written and tested.

ghost use Rattle.std.specs.Prelude.{◌≡◌, ◌≤◌, ◌<◌, ◌^◌, ℕ, Option, Some, None, length, IfOk, refl, ◌↔◌, IsTrue, true};
ghost use Rattle.std.proofs.Common.{lit≤};
ghost use Rattle.dap_msg.specs.Grammar as kinds;
ghost use Rattle.dap_msg.specs.Grammar.{ValueOf, field_bytes};
ghost use Rattle.dap_msg.specs.Inner.Reading.{field_at, ReadsAs};
ghost use Rattle.dap_msg.specs.Inner.Fields.{bytes_of_field, CanWrite, is_there};
ghost use Rattle.dap_msg.specs.Fitting.{FitsField};

use crate::bytes::Bytes;
use crate::encoding::Field;
use dap_fields::{FieldFault, ex_fits, read_ex, read_image, read_u8, read_u16};

/// A kind of field with values of `T`.
pub(crate) trait Kind<'a, T>: Copy {
    ghost kind: { Self → kinds.Kind };

    ghost is_known: { Self → Type 0 };

    ghost seen: { (k : Self) → T → ValueOf (kind k) };

    ghost seen_option: { (k : Self) → Option T → Option (ValueOf (kind k)) };

    /// Returns the value of the field that the bytes begin with, and the number of its bytes.
    fn read(self, bytes: &'a [u8]) -> Result<(T, usize), FieldFault>
        requires { is_known self }
        ensures exact { ReadsAs (λ x. (seen self x.0, x.1)) result
            (field_at (kind self) bytes.now) }
        ensures there { IfOk result (λ x. x.1 ≤ length bytes.now) };

    /// Returns the field of a value that fits.
    fn field(self, value: &T) -> Field<'a>
        requires known { is_known self }
        requires fits { FitsField (kind self) (seen self value.now) }
        ensures bytes { bytes_of_field result ≡ field_bytes (kind self) (seen self value.now) }
        ensures can { CanWrite result }
        ensures there { is_there result ≡ true };

    /// Returns whether a value has a spelling.
    fn fits(self, value: &T) -> bool
        ensures { IsTrue result ↔ FitsField (kind self) (seen self value.now) };

    ghost none: { (k : Self) → seen_option k None ≡ None };

    ghost some: { (k : Self) (v : T) → seen_option k (Some v) ≡ Some (seen k v) };
}

/// One byte.
#[derive(Clone, Copy)]
pub(crate) struct Byte;

impl<'a> Kind<'a, u8> for Byte {
    ghost kind = { λ k. kinds.Byte };

    ghost is_known = { λ k. Unit {0} };

    ghost seen = { λ k v. v };

    ghost seen_option = { λ k v. v };

    ghost none = { λ k. refl };

    ghost some = { λ k v. refl };

    fn read(self, bytes: &'a [u8]) -> Result<(u8, usize), FieldFault> {
        read_u8(bytes)
    }

    #[inline(always)]
    fn field(self, value: &u8) -> Field<'a> {
        Field::Byte(*value)
    }

    #[inline(always)]
    fn fits(self, value: &u8) -> bool {
        let _any = *value;
        true
    }
}

/// Two bytes, the lower first.
#[derive(Clone, Copy)]
pub(crate) struct Word;

impl<'a> Kind<'a, u16> for Word {
    ghost kind = { λ k. kinds.Word };

    ghost is_known = { λ k. Unit {0} };

    ghost seen = { λ k v. v };

    ghost seen_option = { λ k v. v };

    ghost none = { λ k. refl };

    ghost some = { λ k v. refl };

    fn read(self, bytes: &'a [u8]) -> Result<(u16, usize), FieldFault> {
        read_u16(bytes)
    }

    #[inline(always)]
    fn field(self, value: &u16) -> Field<'a> {
        Field::Word(*value)
    }

    #[inline(always)]
    fn fits(self, value: &u16) -> bool {
        let _any = *value;
        true
    }
}

/// An image of at most this number of bytes.
#[derive(Clone, Copy)]
pub(crate) struct Image(pub usize);

impl<'a> Kind<'a, Bytes<'a>> for Image {
    ghost kind = { λ k. kinds.Image k.0 };

    ghost is_known = { λ k. (1 ≤ k.0) × (k.0 ≤ 255) };

    ghost seen = { λ k v. v };

    ghost seen_option = { λ k v. v };

    ghost none = { λ k. refl };

    ghost some = { λ k v. refl };

    fn read(self, bytes: &'a [u8]) -> Result<(Bytes<'a>, usize), FieldFault> {
        match read_image(bytes, self.0) {
            Ok((image, len)) => Ok((Bytes(image), len)),
            Err(fault) => Err(fault),
        }
    }

    #[inline(always)]
    fn field(self, value: &Bytes<'a>) -> Field<'a> {
        Field::Image(value.0)
    }

    #[inline(always)]
    fn fits(self, value: &Bytes<'a>) -> bool {
        value.0.len() <= self.0
    }
}

/// An extensible field of at most this number of bytes.
#[derive(Clone, Copy)]
pub(crate) struct Extensible(pub usize);

/// An integer that holds every extensible field of at most `most` bytes.
pub(crate) trait Number: Copy {
    ghost number: { Self → ℕ };

    ghost numbers: { Option Self → Option ℕ };

    ghost most: { ℕ };

    /// Returns the integer of this value.
    fn of(value: u128) -> Self
        requires { value < 128 ^ most }
        ensures { number result ≡ value };

    /// Returns the value of the integer.
    fn wide(self) -> u128
        ensures { result ≡ number self };

    ghost few: { most ≤ 12 };

    ghost none: { numbers None ≡ None };

    ghost some: { (n : Self) → numbers (Some n) ≡ Some (number n) };
}

impl<'a, N: Number> Kind<'a, N> for Extensible {
    ghost kind = { λ k. kinds.Extensible k.0 };

    ghost is_known = { λ k. (1 ≤ k.0) × (k.0 ≤ N.most) };

    ghost seen = { λ k n. N.number n };

    ghost seen_option = { λ k n. N.numbers n };

    ghost none = { λ k. N.none };

    ghost some = { λ k n. N.some n };

    fn read(self, bytes: &'a [u8]) -> Result<(N, usize), FieldFault> {
        match read_ex(bytes, self.0) {
            Ok((value, len)) => Ok((N::of(value), len)),
            Err(fault) => Err(fault),
        }
    }

    #[inline(always)]
    fn field(self, value: &N) -> Field<'a> {
        Field::Extensible(value.wide())
    }

    #[inline(always)]
    fn fits(self, value: &N) -> bool {
        ex_fits(value.wide(), self.0)
    }
}

impl Number for u16 {
    ghost number = { λ n. n };

    ghost numbers = { λ n. n };

    ghost most = { 2 };

    ghost few = { lit≤ tt };

    ghost none = { refl };

    ghost some = { λ n. refl };

    #[inline(always)]
    fn of(value: u128) -> u16 {
        value as u16
    }

    #[inline(always)]
    fn wide(self) -> u128 {
        u128::from(self)
    }
}

impl Number for u32 {
    ghost number = { λ n. n };

    ghost numbers = { λ n. n };

    ghost most = { 4 };

    ghost few = { lit≤ tt };

    ghost none = { refl };

    ghost some = { λ n. refl };

    #[inline(always)]
    fn of(value: u128) -> u32 {
        value as u32
    }

    #[inline(always)]
    fn wide(self) -> u128 {
        u128::from(self)
    }
}

impl Number for u64 {
    ghost number = { λ n. n };

    ghost numbers = { λ n. n };

    ghost most = { 9 };

    ghost few = { lit≤ tt };

    ghost none = { refl };

    ghost some = { λ n. refl };

    #[inline(always)]
    fn of(value: u128) -> u64 {
        value as u64
    }

    #[inline(always)]
    fn wide(self) -> u128 {
        u128::from(self)
    }
}

impl Number for u128 {
    ghost number = { λ n. n };

    ghost numbers = { λ n. n };

    ghost most = { 12 };

    ghost few = { lit≤ tt };

    ghost none = { refl };

    ghost some = { λ n. refl };

    #[inline(always)]
    fn of(value: u128) -> u128 {
        value
    }

    #[inline(always)]
    fn wide(self) -> u128 {
        self
    }
}
