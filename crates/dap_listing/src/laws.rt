//! Laws over the definitions alone. The function does nothing: its contract is the law.

ghost use Rattle.std.specs.Prelude.{◌≡◌, ℕ, List};
ghost use Rattle.dap_listing.specs.Listing.{CaptureLines, captures, line_limit};
ghost use Rattle.dap_listing.specs.declared.listing.Listed.{Listed};

/// States that no input has two listings of a kind.
pub fn listings_are_one()
    ensures { (listed : Listed) (input a b : List ℕ)
        → CaptureLines listed 1 (captures (line_limit listed) input) a
        → CaptureLines listed 1 (captures (line_limit listed) input) b → a ≡ b }
{}
