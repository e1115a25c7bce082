//! A law over the definitions alone. The function does nothing: its contract is the law.

ghost use Rattle.std.specs.Prelude.{◌≡◌, ◌<◌, ◌+◌, ◌%◌, ℕ, List, Contains, Some, map, slice_get};
ghost use Rattle.nsp_link.specs.Cutting.{Piece, cut_message};
ghost use Rattle.nsp_seg.specs.declared.packet.SegmentFields.{SegmentFields as Segment};
ghost use Rattle.dap_follow.specs.Streams.{AreSequenced, IsOrdered, Sequenced, at, first_sequence};
ghost use Rattle.dap_follow.specs.Joined.{messages, payload};

/// States that a message that was cut is listed, in whatever order its segments came. The segments of its stream came
/// each with its true sequence number, from 2,047 below to 2,048 above the highest before it; and from some sequence
/// number on, what came first with each number has the marks and the bytes of the message's segments, as a link cuts
/// it. Then one of the stream's messages carries the message's bytes.
pub fn cut_messages_are_listed()
    ensures { (size start highest : ℕ) (message : List ℕ) (came : List (ℕ × Segment))
        (sent ordered : List Sequenced) → 0 < size → IsOrdered came ordered
        → highest % 4096 ≡ first_sequence came % 4096 → AreSequenced highest came sent
        → ((i : ℕ) (cut : Piece) → slice_get (cut_message size message) i ≡ Some cut
        → (s : Sequenced) × (at (start + i) sent ≡ Some s) × (s.first ≡ cut.first)
        × (s.last ≡ cut.last) × (s.payload ≡ cut.payload))
        → Contains (map (λ m. payload m.piece) (messages ordered)) message }
{}
