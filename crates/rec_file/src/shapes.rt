//! The shape of a file: its organization, its record format and its limits.
ghost use Rattle.std.specs.Prelude.{◌≡◌, IfSome, IsTrue};
ghost use Rattle.rec_file.specs.Shapes.{checked_shape, is_shape, max_number, allows_length, is_seq};

/// How a file's records are numbered (in the manner of RMS).
#[derive(Clone, Copy, Debug, PartialEq, Eq)]
pub enum Org {
    /// Records are in the order in which they came, numbered 1, 2, 3, .. without a gap.
    Seq,
    /// Each number from 1 to the limit has a record or none.
    Rel,
}

/// Which lengths a file's records may have (in the manner of RMS).
#[derive(Clone, Copy, Debug, PartialEq, Eq)]
pub enum Format {
    /// All records have one length.
    Fixed,
    /// Records may differ in length.
    Variable,
}

/// The shape of a file, by four of the attributes of DAP 5.6.0, Attributes message: ORG, RFM, MRS
/// and MRN.
///
/// Its fields are public. The shapes that files have are those that [`Shape::check`] gives: that is
/// a condition of the files' `new`, and holds of every `shape()`.
#[derive(Clone, Copy, PartialEq, Eq)]
pub struct Shape {
    pub org: Org,
    pub format: Format,
    /// Bytes: the length of each record of a fixed file, and the maximum of a variable one, where 0 sets none. At most
    /// [`MAX_RECORD`].
    pub mrs: u16,
    /// The maximum record number of a relative file, where 0 sets none. At most [`MAX_NUMBER`], and 0 in a sequential
    /// file.
    pub mrn: u32,
}

/// The maximum of a record in bytes.
pub const MAX_RECORD: u16 = 32767;

/// The maximum of a record number.
pub const MAX_NUMBER: u32 = 2147483647;

impl Shape {
    /// Returns the shape that four attributes name, or None where they name none (DAP 5.6.0, Attributes message; the
    /// bounds are a choice of this implementation).
    ///
    /// `org` is 0 (sequential) or 16 (relative), `rfm` 1 (fixed) or 2 (variable), `mrs` at most [`MAX_RECORD`]
    /// bytes and at least 1 where the format is fixed, and `mrn` at most [`MAX_NUMBER`]; a sequential file holds it
    /// as 0.
    pub fn check(org: u8, rfm: u8, mrs: u16, mrn: u64) -> Option<Shape>
        ensures value { result ≡ checked_shape org rfm mrs mrn }
        ensures good { IfSome result (λ shape. IsTrue (is_shape shape)) }
    {
        let org = match org {
            0 => Org::Seq,
            16 => Org::Rel,
            _ => return None,
        };
        let format = match rfm {
            1 => Format::Fixed,
            2 => Format::Variable,
            _ => return None,
        };
        if format == Format::Fixed && mrs == 0 {
            return None;
        }
        if mrs > MAX_RECORD {
            return None;
        }
        if mrn > MAX_NUMBER as u64 {
            return None;
        }
        let mrn = match org {
            Org::Seq => 0,
            Org::Rel => mrn as u32,
        };
        Some(Shape {
            org,
            format,
            mrs,
            mrn,
        })
    }

    /// Returns whether the organization is the sequential one.
    pub fn is_sequential(&self) -> bool
        ensures { result ≡ is_seq self.now.org }
    {
        self.org == Org::Seq
    }

    /// Returns the maximum record number of the file: `mrn`, or [`MAX_NUMBER`] where that is 0.
    pub fn limit(&self) -> u32
        ensures { result ≡ max_number self.now }
    {
        if self.mrn == 0 { MAX_NUMBER } else { self.mrn }
    }

    /// Returns whether a record of the file can have this many bytes.
    pub fn allows(&self, length: usize) -> bool
        ensures { result ≡ allows_length self.now length }
    {
        length <= MAX_RECORD as usize
            && match self.format {
                Format::Fixed => length == self.mrs as usize,
                Format::Variable => self.mrs == 0 || length <= self.mrs as usize,
            }
    }
}
