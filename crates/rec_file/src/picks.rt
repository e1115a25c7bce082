//! What a stream's user may do, and which record a get is for.

/// What the user of a stream may do (in the manner of RMS). An operation without its right is
/// refused as not permitted.
#[derive(Clone, Copy, PartialEq, Eq)]
pub struct Rights {
    pub get: bool,
    pub put: bool,
    pub upd: bool,
    pub del: bool,
}

/// Which record a get is for (in the manner of RMS).
#[derive(Clone, Copy, PartialEq, Eq)]
pub enum Pick {
    /// The lowest occupied number from the stream's next on.
    Next,
    /// That number, in a relative file.
    Key(u32),
    /// That number, in both organizations.
    Rfa(u32),
}
