//! Reading a whole input.
ghost use Rattle.std.specs.Prelude.{◌≡◌, ◌≤◌, ◌<◌, ◌+◌, ◌⊎◌, IfOk, IfErr, IsErrOf, OnOk, OnErr, IfSome, length, take};
ghost use Rattle.std.specs.Io.KnownBytes.{Consumes, IsAtEnd, Keeps};
ghost use Rattle.linewise.specs.Talks.{max_line};
ghost use Rattle.linewise.specs.Gives.{TakesAnInput, TakesWithinLimit};
ghost use Rattle.linewise.specs.declared.fault.CaptureFault.TheVariants.{NoMemory, ReadFailed, TooLarge};
ghost use Rattle.linewise.specs.Input.{IsFaultAfter, TakesAfter, TakesUpTo};

use crate::CaptureFault;
use crate::reading::MAX_LINE;
use std::alloc::Global;
use std::io::Read;

/// The maximum of an input in bytes: that of a line.
pub const MAX_INPUT: usize = MAX_LINE;

/// How many bytes are read at a time.
pub const CHUNK: usize = 65_536;

/// Reads on into the start of the chunk, no further than the byte that breaks the limit, and returns how many bytes
/// were read: 0 at the end. The count is of the bytes that were read before; after a fault it stays, and a read that
/// failed took nothing.
#[tactic(auto, unfolding(crate::specs::Input::TakesAfter, crate::specs::Input::TakesUpTo))]
fn read_some<R: Read>(
    reader: &mut R,
    chunk: &mut [u8],
    count: &mut usize,
) -> Result<usize, CaptureFault>
    requires chunk { 0 < length chunk.old }
    requires count { count.old ≤ MAX_INPUT }
    ensures chunk { length chunk.new ≡ length chunk.old }
    ensures came { IfOk result (λ came. came ≤ length chunk.new) }
    ensures count { IfOk result (λ came. count.new ≡ count.old + came) }
    ensures small { OnOk result (count.new ≤ MAX_INPUT) }
    ensures uncounted { OnErr result (count.new ≡ count.old) }
    ensures failed { IsErrOf result ReadFailed
        → Keeps (R.remaining reader.old) (R.remaining reader.new) }
    ensures bytes { IfOk result (λ came.
        Consumes (R.remaining reader.old) (R.remaining reader.new) (take came chunk.new)) }
    ensures end { IfOk result (λ came. came ≡ 0 → IsAtEnd (R.remaining reader.new)) }
    ensures taken { TakesAfter count.old (R.remaining reader.old) (R.remaining reader.new) }
    ensures within { (IsErrOf result TooLarge → ⊥)
        → TakesUpTo count.old (R.remaining reader.old) (R.remaining reader.new) }
    ensures fault { IfErr result (IsFaultAfter count.old (R.remaining reader.old)) }
{
    let room = chunk.len().min(MAX_INPUT + 1 - *count);
    match reader.read(&mut chunk[..room]) {
        Ok(came) if *count + came > MAX_INPUT => Err(CaptureFault::TooLarge),
        Ok(came) => {
            *count += came;
            Ok(came)
        }
        Err(_) => Err(CaptureFault::ReadFailed),
    }
}

/// Returns all that the reader has left, where it is no more than the limit. No byte past the one that breaks the
/// limit is read.
///
/// `TooLarge`: there is more. `ReadFailed`: the reader failed. `NoMemory`: a growth was refused.
pub fn read_input<R: Read>(alloc: Global, reader: &mut R) -> Result<Vec<u8>, CaptureFault>
    ensures whole { IfOk result
        (λ input. IfSome (R.remaining reader.old) (λ bytes. input.items ≡ bytes)) }
    ensures end { OnOk result (IsAtEnd (R.remaining reader.new)) }
    ensures limit { IfOk result (λ input. length input.items ≤ MAX_INPUT) }
    ensures taken { TakesWithinLimit (R.remaining reader.old) (R.remaining reader.new) }
    ensures within { (IsErrOf result TooLarge → ⊥)
        → TakesAnInput (R.remaining reader.old) (R.remaining reader.new) }
    ensures too_large { IsErrOf result TooLarge
        → IfSome (R.remaining reader.old) (λ bytes. max_line < length bytes) }
    ensures fault { IfErr result
        (λ fault. (fault ≡ TooLarge) ⊎ ((fault ≡ ReadFailed) ⊎ (fault ≡ NoMemory))) }
{
    let mut input = Vec::new(alloc);
    let mut chunk = [0; CHUNK];
    let mut count = 0;
    'chunks: loop {
        let came = read_some(reader, &mut chunk, &mut count)?;
        if came == 0 {
            return Ok(input);
        }
        input.extend_from_slice(&chunk[..came])?;
    }
}
