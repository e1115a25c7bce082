//! The sizes of a world.

/// The sizes of a world.
#[derive(Clone, Copy, PartialEq, Eq)]
pub struct WorldSetup {
    /// The maximum number of bytes of a segment, 1 to 1,400.
    pub seg_size: usize,
    /// The maximum number of segments that are sent and not acknowledged, 1 to 2,047.
    pub window: usize,
    /// The buffer of A in bytes, 64 to 65,535.
    pub bufsiz_a: u16,
    /// The buffer of B in bytes, likewise.
    pub bufsiz_b: u16,
}
