//! What a Control asks for, and what is refused of a GET or a PUT before its key is a number.

ghost use Rattle.std.specs.Prelude.{◌≡◌};
ghost use Rattle.rec_file.specs.AnyFiles.{any_value};
ghost use Rattle.dap_accessed.specs.Records.{get_pick, key_of, put_key, verb_of};

use dap_msg::ControlFields;
use dap_msg::codes::{
    CTLFUNC_CONNECT, CTLFUNC_DELETE, CTLFUNC_GET, CTLFUNC_PUT, CTLFUNC_REWIND, CTLFUNC_UPDATE,
    RAC_ADDRESS, RAC_KEYED, RAC_SEQUENTIAL, RAC_WHOLE_FILE,
};
use rec_file::{AnyFile, Pick, RecordFile, Refusal, Stream, key_number};

/// What a Control asks for (DAP 5.6.0, Control message, CTLFUNC and RAC).
#[derive(Clone, Copy, PartialEq, Eq)]
pub enum Verb {
    /// A record.
    Get,
    /// The whole file, from the next record on.
    Fetch,
    /// A stream.
    Connect,
    /// To replace the current record.
    Update,
    /// A new record.
    Put,
    /// New records until the stream ends.
    Store,
    /// To remove the current record.
    Delete,
    /// The beginning of the file.
    Rewind,
    /// Nothing that this end knows.
    Unknown,
}

/// Returns what a Control asks for: a GET or a PUT may be for a whole file.
pub(crate) fn verb_of(control: &ControlFields<'_>) -> Verb
    ensures { result ≡ verb_of control.now }
{
    let whole = control.rac.unwrap_or(RAC_SEQUENTIAL) == RAC_WHOLE_FILE;
    match control.func {
        CTLFUNC_GET if whole => Verb::Fetch,
        CTLFUNC_GET => Verb::Get,
        CTLFUNC_CONNECT => Verb::Connect,
        CTLFUNC_UPDATE => Verb::Update,
        CTLFUNC_PUT if whole => Verb::Store,
        CTLFUNC_PUT => Verb::Put,
        CTLFUNC_DELETE => Verb::Delete,
        CTLFUNC_REWIND => Verb::Rewind,
        _ => Verb::Unknown,
    }
}

/// Returns the number that KEY spells.
fn key(control: &ControlFields<'_>) -> Result<u32, Refusal>
    ensures { result ≡ key_of control.now }
{
    match &control.key {
        Some(image) => key_number(image.0),
        None => Err(Refusal::BadKey),
    }
}

/// Returns the record that a GET is for.
pub(crate) fn pick_for(
    file: &AnyFile,
    stream: Stream,
    control: &ControlFields<'_>,
) -> Result<Pick, Refusal>
    ensures { result ≡ get_pick (any_value file.now) stream control.now }
{
    if !stream.rights().get {
        return Err(Refusal::NotPermitted);
    }
    match control.rac.unwrap_or(RAC_SEQUENTIAL) {
        RAC_SEQUENTIAL => Ok(Pick::Next),
        RAC_KEYED => {
            if file.shape().is_sequential() {
                return Err(Refusal::BadAccessMode);
            }
            Ok(Pick::Key(key(control)?))
        }
        RAC_ADDRESS => Ok(Pick::Rfa(key(control)?)),
        _ => Err(Refusal::BadAccessMode),
    }
}

/// Returns the key of a PUT.
pub(crate) fn key_for(
    file: &AnyFile,
    stream: Stream,
    control: &ControlFields<'_>,
) -> Result<Option<u32>, Refusal>
    ensures { result ≡ put_key (any_value file.now) stream control.now }
{
    if !stream.rights().put {
        return Err(Refusal::NotPermitted);
    }
    match control.rac.unwrap_or(RAC_SEQUENTIAL) {
        RAC_SEQUENTIAL => Ok(None),
        RAC_KEYED => {
            if file.shape().is_sequential() {
                return Err(Refusal::BadAccessMode);
            }
            Ok(Some(key(control)?))
        }
        _ => Err(Refusal::BadAccessMode),
    }
}
