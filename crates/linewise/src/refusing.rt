//! Words that `clap` refuses.

ghost use Rattle.std.specs.Prelude.{◌≡◌, ◌⊎◌};
ghost use Rattle.std.specs.Io.KnownBytes.{Keeps};
ghost use Rattle.clap.specs.Words.{kind_of};
ghost use Rattle.linewise.specs.Gives.{TellsFault};
ghost use Rattle.linewise.specs.Mistakes.{IsMistake};
ghost use Rattle.linewise.specs.declared.fault.CaptureFault.TheVariants.{NoMemory};

use crate::fault::{CaptureFault, finish};
use crate::output::write_text;
use clap::Error;
use clap::error::ErrorKind;
use std::alloc::Global;
use std::io::Write;

/// Reports what is wrong with the arguments, and returns the exit status: help goes to the writer, and what is wrong to
/// the error writer, whose failure changes nothing.
///
/// 0: help was asked for and written. 2: a mistake. 3: memory was refused, or help couldn't be written.
pub fn refuse<W: Write, E: Write>(
    alloc: Global,
    error: Error,
    writer: &mut W,
    error_writer: &mut E,
) -> u8
    ensures memory { kind_of error ≡ ErrorKind.OutOfMemory
        → (result ≡ 3) × Keeps (W.contents writer.old) (W.contents writer.new)
        × TellsFault NoMemory (E.contents error_writer.old) (E.contents error_writer.new) }
    ensures help { kind_of error ≡ ErrorKind.DisplayHelp → (result ≡ 0) ⊎ (result ≡ 3) }
    ensures quiet { result ≡ 0
        → Keeps (E.contents error_writer.old) (E.contents error_writer.new) }
    ensures mistake { IsMistake (kind_of error) → (kind_of error ≡ ErrorKind.OutOfMemory)
        ⊎ ((result ≡ 2) × Keeps (W.contents writer.old) (W.contents writer.new)) }
{
    if error.kind() == ErrorKind::OutOfMemory {
        return finish(Err(CaptureFault::NoMemory), error_writer);
    }
    if error.use_stderr() {
        let _ = write!(error_writer, "{error}");
        return 2;
    }
    let Ok(text) = error.to_string(alloc) else {
        return finish(Err(CaptureFault::NoMemory), error_writer);
    };
    match write_text(text.as_bytes(), writer) {
        Ok(()) => 0,
        Err(fault) => finish(Err(fault), error_writer),
    }
}
