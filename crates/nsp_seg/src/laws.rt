//! Laws of the definitions, for whoever keeps packets as bytes and numbers as counts.

ghost use Rattle.std.specs.Prelude.{◌≡◌, ◌+◌, ◌-◌, ◌<◌, ◌⊎◌, ℕ, List, slice_index};
ghost use Rattle.nsp_seg.specs.declared.packet.SegFault.{SegFault};
ghost use Rattle.nsp_seg.specs.Numbers.{residue, distance};
ghost use Rattle.nsp_seg.specs.Packets.{Packet, Spells, FitsFields, HasFault, spelling};

/// States that bytes spell one packet or have one fault, never both, and that what is written of a packet whose values
/// fit spells that packet and no other. So what `encode_packet` appended is read back by `decode_packet`.
pub fn packets_are_exact()
    ensures some { (bytes : List ℕ) → ((i : ℕ) → slice_index bytes i < 256)
        → ((p : Packet) × Spells p bytes) ⊎ ((f : SegFault) × HasFault f bytes) }
    ensures one { (p q : Packet) (bytes : List ℕ) → Spells p bytes → Spells q bytes → p ≡ q }
    ensures one_fault { (f g : SegFault) (bytes : List ℕ) → ((i : ℕ) → slice_index bytes i < 256)
        → HasFault f bytes → HasFault g bytes → f ≡ g }
    ensures apart { (p : Packet) (f : SegFault) (bytes : List ℕ)
        → ((i : ℕ) → slice_index bytes i < 256) → Spells p bytes → HasFault f bytes → ⊥ }
    ensures written { (p : Packet) → FitsFields p → Spells p (spelling p) }
    ensures read_back { (p q : Packet) → FitsFields p → Spells q (spelling p) → q ≡ p }
{}

/// States of numbers that go round that `ahead_of` of two residues is the distance of the whole numbers, and two
/// numbers less than 4,096 apart with equal residues are equal.
pub fn residues_separate()
    ensures ahead { (x y : ℕ) → residue (residue x + 4096 - residue y) ≡ distance x y }
    ensures apart { (x y : ℕ) → x < y + 4096 → y < x + 4096 → residue x ≡ residue y → x ≡ y }
{}
