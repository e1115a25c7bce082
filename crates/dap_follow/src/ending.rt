//! Which streams end.

ghost use Rattle.std.specs.Prelude.{◌≡◌};
ghost use Rattle.dap_follow.specs.Keeping.Endings.{is_chosen};

use crate::initiate::Initiate;
use crate::kept::KeptSegments;
use crate::room::Crowd;
use crate::streams::Stream;

/// Which streams end: all; those of a link that is opened again; or those that leave no room for a segment.
#[derive(Clone, Copy)]
pub(crate) enum Ending {
    All,
    Opened(Initiate),
    Crowded(Crowd),
}

impl Ending {
    /// Returns whether a stream is one of them.
    pub(crate) fn has(&self, stream: &Stream, kept: &KeptSegments) -> bool
        ensures { result ≡ is_chosen self.now (stream.now, kept.now) }
    {
        match self {
            Ending::All => true,
            Ending::Opened(initiate) => initiate.ends(stream),
            Ending::Crowded(crowd) => crowd.coming.came_with(stream, kept) < crowd.since,
        }
    }
}
