//! Laws of the definitions, for whoever keeps packets as bytes.

ghost use Rattle.std.specs.Prelude.{◌≡◌, ◌<◌, ◌⊎◌, ℕ, List, Some, IfSome, slice_index};
ghost use Rattle.nsp_control.specs.declared.packet.Control.{Control};
ghost use Rattle.nsp_control.specs.declared.packet.ControlFault.{ControlFault};
ghost use Rattle.nsp_control.specs.Packets.{SpellsControl, ControlFits, control_spelling};
ghost use Rattle.nsp_control.specs.Reading.{control_in};
ghost use Rattle.nsp_control.specs.Faults.{HasControlFault};

/// States that bytes spell one packet or have one fault, never both, and that what is written of a packet whose values
/// fit spells that packet and no other. So what `encode_control` appended is read back by `decode_control`.
pub fn control_is_exact()
    ensures some { (bytes : List ℕ) → ((i : ℕ) → slice_index bytes i < 256)
        → ((p : Control) × SpellsControl p bytes) ⊎ ((f : ControlFault) × HasControlFault f bytes) }
    ensures one { (p q : Control) (bytes : List ℕ)
        → SpellsControl p bytes → SpellsControl q bytes → p ≡ q }
    ensures one_fault { (f g : ControlFault) (bytes : List ℕ)
        → HasControlFault f bytes → HasControlFault g bytes → f ≡ g }
    ensures apart { (p : Control) (f : ControlFault) (bytes : List ℕ)
        → SpellsControl p bytes → HasControlFault f bytes → ⊥ }
    ensures is_read { (p : Control) (bytes : List ℕ)
        → SpellsControl p bytes → control_in bytes ≡ Some p }
    ensures read { (bytes : List ℕ) → ((i : ℕ) → slice_index bytes i < 256)
        → IfSome (control_in bytes) (λ p. SpellsControl p bytes) }
    ensures written { (p : Control) → ControlFits p → SpellsControl p (control_spelling p) }
    ensures read_back { (p q : Control)
        → ControlFits p → SpellsControl q (control_spelling p) → q ≡ p }
{}
