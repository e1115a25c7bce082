//! What is kept with a file of the Attributes that made it.
ghost use Rattle.std.specs.Prelude.{◌≡◌};
ghost use Rattle.rec_file.specs.Looks.{is_plain, plain_look};

/// What is kept of the Attributes that made a file, and no operation looks at: each field as it was there, or None (DAP
/// 5.6.0, Attributes message).
#[derive(Clone, Copy, PartialEq, Eq)]
pub struct Look {
    /// DATATYPE: the kind of data.
    pub datatype: Option<u16>,
    /// RFM, the record format, where the shape's format doesn't say it.
    pub rfm: Option<u8>,
    /// RAT: the record attributes, as how a record is printed.
    pub rat: Option<u32>,
    /// BLS: bytes of a block on the medium.
    pub bls: Option<u16>,
    /// BKS: blocks of a bucket.
    pub bks: Option<u8>,
    /// FSZ: bytes at the front of each record that are no part of its text.
    pub fsz: Option<u8>,
    /// BSZ: bits of a byte.
    pub bsz: Option<u8>,
}

impl Look {
    /// Returns the look of a file of which nothing is kept.
    pub fn plain() -> Look
        ensures { result ≡ plain_look }
    {
        Look {
            datatype: None,
            rfm: None,
            rat: None,
            bls: None,
            bks: None,
            fsz: None,
            bsz: None,
        }
    }

    /// Returns whether nothing is kept.
    pub fn is_plain(&self) -> bool
        ensures { result ≡ is_plain self.now }
    {
        self.datatype.is_none()
            && self.rfm.is_none()
            && self.rat.is_none()
            && self.bls.is_none()
            && self.bks.is_none()
            && self.fsz.is_none()
            && self.bsz.is_none()
    }
}
