//! The phase of a server between two messages.

ghost use Rattle.std.specs.Prelude.{◌≡◌};
ghost use Rattle.dap_accessed.specs.Inner.Steps.{phase_after_refusal};
ghost use Rattle.dap_accessed.specs.Sessions.{moved_up, phase_moved_up};

use rec_file::{Refusal, Rights, Stream};

/// The file that an Access opened (DAP 5.6.0, Access message).
#[derive(Clone, Copy)]
pub struct OpenFile {
    /// Its index in the file table, from 0.
    pub at: usize,
    /// Whether this Access made it.
    pub is_new: bool,
    /// What the Access may do.
    pub rights: Rights,
}

impl OpenFile {
    /// Returns the open file after another was removed from the table at this index.
    pub(crate) fn moved_up(self, removed: usize) -> OpenFile
        ensures { result ≡ moved_up removed self }
    {
        if removed < self.at {
            OpenFile {
                at: self.at - 1,
                ..self
            }
        } else {
            self
        }
    }
}

/// What the end waits for (DAP 5.6.0, message sequences; the phases are a choice of this crate).
#[derive(Clone, Copy)]
pub enum Phase {
    /// The peer's Config.
    Fresh,
    /// An Access.
    Ready,
    /// A Control that connects a stream.
    Opened(OpenFile),
    /// An operation on a record, or a file transfer.
    Connected(OpenFile, Stream),
    /// The Filedata of a PUT, with its key, or with why it is refused.
    PutDue(OpenFile, Stream, Result<Option<u32>, Refusal>),
    /// The Filedata of an UPDATE.
    UpdateDue(OpenFile, Stream),
    /// A Filedata of a Store, with the number of those so far.
    Storing(OpenFile, Stream, u32),
    /// A Filedata of a Store in which one was refused, with the number of those so far.
    Dropping(OpenFile, Stream, u32),
    /// A Continue Transfer, after a record that was too large.
    Stopped(OpenFile, Stream),
}

impl Phase {
    /// Returns the phase after an item that is refused, which ends a group of two.
    pub(crate) fn after_refusal(self) -> Phase
        ensures { result ≡ phase_after_refusal self }
    {
        match self {
            Phase::PutDue(opened, stream, _) | Phase::UpdateDue(opened, stream) => {
                Phase::Connected(opened, stream)
            }
            _ => self,
        }
    }

    /// Returns the phase after a file that isn't open was removed from the table at this index.
    pub(crate) fn moved_up(self, removed: usize) -> Phase
        ensures { result ≡ phase_moved_up removed self }
    {
        match self {
            Phase::Fresh => Phase::Fresh,
            Phase::Ready => Phase::Ready,
            Phase::Opened(opened) => Phase::Opened(opened.moved_up(removed)),
            Phase::Connected(opened, stream) => Phase::Connected(opened.moved_up(removed), stream),
            Phase::PutDue(opened, stream, key) => {
                Phase::PutDue(opened.moved_up(removed), stream, key)
            }
            Phase::UpdateDue(opened, stream) => Phase::UpdateDue(opened.moved_up(removed), stream),
            Phase::Storing(opened, stream, n) => {
                Phase::Storing(opened.moved_up(removed), stream, n)
            }
            Phase::Dropping(opened, stream, n) => {
                Phase::Dropping(opened.moved_up(removed), stream, n)
            }
            Phase::Stopped(opened, stream) => Phase::Stopped(opened.moved_up(removed), stream),
        }
    }
}
