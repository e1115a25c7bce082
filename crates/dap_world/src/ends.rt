//! The two ends.

ghost use Rattle.std.specs.Prelude.{◌≡◌};
ghost use Rattle.dap_world.specs.Machine.{other_end};

use dap_events::End;

/// Returns the other end.
pub(crate) fn other_end(end: End) -> End
    ensures { result ≡ other_end end }
{
    match end {
        End::A => End::B,
        End::B => End::A,
    }
}
