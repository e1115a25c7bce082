//! The sequence numbers of segments.

ghost use Rattle.std.specs.Prelude.{◌≤◌, ◌<◌, ◌^◌};
ghost use Rattle.dap_follow.specs.Streams.{IsNear};

use nsp_seg::{MODULUS, Seq12};

/// How many 12-bit numbers of segments there are: sequence numbers begin here, so that one below the first is a number.
pub(crate) const ROUND: u64 = MODULUS as u64;

/// How far a segment's sequence number may be below the highest one before it: as far as its 12-bit number identifies
/// it.
const BELOW: u64 = ROUND / 2 - 1;

/// Returns the sequence number of a segment's 12-bit number, from 2,047 below to 2,048 above the highest one before
/// it, which is at least 4,096 and less than 2^62.
pub(crate) fn sequence_near(highest: u64, number: Seq12) -> u64
    ensures { 4096 ≤ highest → highest < 2 ^ 62 → IsNear highest number result }
{
    let lowest = highest.saturating_sub(BELOW);
    lowest.saturating_add(u64::from(number.ahead_of(Seq12::of(lowest))))
}
