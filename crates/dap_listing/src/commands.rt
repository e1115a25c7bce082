//! The runs over what a reader gives.
ghost use Rattle.std.specs.Prelude.{IfSome, ◌≡◌, IsErrOf};
ghost use Rattle.linewise.specs.declared.fault.CaptureFault.TheVariants.{TooLarge};
ghost use Rattle.linewise.specs.Gives.{KeepsUnwritten, TakesAnInput, TakesWithinLimit};
ghost use Rattle.dap_listing.specs.Listing.{ListingGives};

use crate::listing::{Listed, list_input};
use linewise::{CaptureFault, Outcome, write_text};
use std::alloc::Global;
use std::io::{Read, Write};

/// Reads a capture to its end and writes its listing.
fn list<R: Read, W: Write>(
    listed: Listed,
    alloc: Global,
    reader: &mut R,
    writer: &mut W,
) -> Result<Outcome, CaptureFault>
    ensures listing { IfSome (R.remaining reader.old) (λ input.
        ListingGives listed input (W.contents writer.old) (W.contents writer.new) result) }
    ensures unwritten { KeepsUnwritten result (W.contents writer.old) (W.contents writer.new) }
    ensures taken { TakesWithinLimit (R.remaining reader.old) (R.remaining reader.new) }
    ensures within { (IsErrOf result TooLarge → ⊥)
        → TakesAnInput (R.remaining reader.old) (R.remaining reader.new) }
{
    let text = list_input(listed, alloc, reader)?;
    write_text(text.as_slice(), writer)?;
    Ok(Outcome::Good)
}

/// Reads a capture of NSP packets, of at most 4,096 bytes each, to its end and writes its listing.
///
/// The whole input is read, and all lines are checked, before anything is written. `TooLarge`: the input has more
/// than 16,777,216 bytes, of which no more than one is read, or the first line at fault a packet that is too long.
/// `BadLine`: the first line at fault is no line of a capture. `ReadFailed` and `NoMemory`: nothing is written.
/// `WriteFailed`: a prefix of the listing is.
pub fn show<R: Read, W: Write>(
    alloc: Global,
    reader: &mut R,
    writer: &mut W,
) -> Result<Outcome, CaptureFault>
    ensures listing { IfSome (R.remaining reader.old)
        (λ input. ListingGives Listed.Packets input
        (W.contents writer.old) (W.contents writer.new) result) }
    ensures unwritten { KeepsUnwritten result (W.contents writer.old) (W.contents writer.new) }
    ensures taken { TakesWithinLimit (R.remaining reader.old) (R.remaining reader.new) }
    ensures within { (IsErrOf result TooLarge → ⊥)
        → TakesAnInput (R.remaining reader.old) (R.remaining reader.new) }
{
    list(Listed::Packets, alloc, reader, writer)
}

/// Reads a capture of NSP messages, of at most 65,535 bytes each, to its end and writes its listing.
///
/// The faults are those of `show`.
pub fn messages<R: Read, W: Write>(
    alloc: Global,
    reader: &mut R,
    writer: &mut W,
) -> Result<Outcome, CaptureFault>
    ensures listing { IfSome (R.remaining reader.old)
        (λ input. ListingGives Listed.Messages input
        (W.contents writer.old) (W.contents writer.new) result) }
    ensures unwritten { KeepsUnwritten result (W.contents writer.old) (W.contents writer.new) }
    ensures taken { TakesWithinLimit (R.remaining reader.old) (R.remaining reader.new) }
    ensures within { (IsErrOf result TooLarge → ⊥)
        → TakesAnInput (R.remaining reader.old) (R.remaining reader.new) }
{
    list(Listed::Messages, alloc, reader, writer)
}
