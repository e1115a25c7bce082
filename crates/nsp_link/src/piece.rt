//! Pieces of messages: what segments carry.

ghost use Rattle.std.specs.Prelude.{◌≡◌};
ghost use Rattle.nsp_link.specs.Inner.Pieces.{held_piece, lent_piece};

use bytes::Bytes;

/// A piece of a message: whether it is the first and the last one, and its bytes, however they are kept.
#[derive(Drop)]
pub(crate) struct Piece<B> {
    pub(crate) first: bool,
    pub(crate) last: bool,
    pub(crate) payload: B,
}

/// A piece that waits to be acknowledged: a part of its message's bytes.
pub(crate) type Segment = Piece<Bytes>;

/// An early piece that waits for those before it.
pub(crate) type Held = Piece<Vec<u8>>;

impl Piece<Vec<u8>> {
    /// Returns the piece, with its bytes lent.
    pub(crate) fn lent(&self) -> Piece<&[u8]>
        ensures { lent_piece result ≡ held_piece self.now }
    {
        Piece {
            first: self.first,
            last: self.last,
            payload: &self.payload,
        }
    }
}
