//! Who may open a file while other links have it open.

ghost use Rattle.std.specs.Prelude.{◌≡◌};
ghost use Rattle.std.specs.List.{list_any};
ghost use Rattle.dap_accessed.specs.Sessions.{open_at};
ghost use Rattle.dap_shared.specs.Sharing.{barred_by, bars, has_alone, is_file};
ghost use Rattle.dap_shared.specs.Inner.Beside.{is_barred};

use dap_accessed::{OpenFile, Session};

/// The code of the Status that refuses an Access to a file which another link has open: MACCODE 4, MICCODE octal 60
/// (DAP 5.6.0, Status message; from memory).
pub const FILE_LOCKED: u16 = 0x4030;

/// Returns whether its link made the file, or may change it.
fn has_alone(opened: OpenFile) -> bool
    ensures { result ≡ has_alone opened }
{
    opened.is_new || opened.rights.put || opened.rights.upd || opened.rights.del
}

/// Returns whether this can't be opened while that is open.
fn bars(asked: OpenFile, held: Option<OpenFile>) -> bool
    ensures { result ≡ bars asked held }
{
    match held {
        None => false,
        Some(other) => asked.at == other.at && (has_alone(asked) || has_alone(other)),
    }
}

/// Returns whether this bars what is asked for, if anything is.
pub(crate) fn is_barred_by_file(asked: Option<OpenFile>, held: Option<OpenFile>) -> bool
    ensures { result ≡ barred_by asked held }
{
    match asked {
        None => false,
        Some(asked) => bars(asked, held),
    }
}

/// Returns whether one of the others has something open that bars this.
fn is_barred_by(others: &[Session], asked: OpenFile) -> bool
    ensures { result ≡ list_any (λ s. bars asked (open_at s.phase)) others.now }
{
    others
        .iter()
        .any(|session| bars(asked, session.open_file()))
}

/// Returns whether one of the others has something open that bars what is asked for, if anything is.
pub(crate) fn is_barred(others: &[Session], asked: Option<OpenFile>) -> bool
    ensures { result ≡ is_barred others.now asked }
{
    match asked {
        None => false,
        Some(asked) => is_barred_by(others, asked),
    }
}

/// Returns whether it is the file at this index of the table that is open.
fn is_file(held: Option<OpenFile>, at: usize) -> bool
    ensures { result ≡ is_file at held }
{
    match held {
        None => false,
        Some(opened) => opened.at == at,
    }
}

/// Returns whether a link has the file at this index of the table open.
pub(crate) fn is_held(sessions: &[Session], at: usize) -> bool
    ensures { result ≡ list_any (λ s. is_file at (open_at s.phase)) sessions.now }
{
    sessions
        .iter()
        .any(|session| is_file(session.open_file(), at))
}
