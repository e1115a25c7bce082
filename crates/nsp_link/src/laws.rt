//! Laws of the definitions, for whoever keeps the lists.

ghost use Rattle.std.specs.Prelude.{◌≡◌, ◌≢◌, ◌<◌, ◌≤◌, ◌+◌, [], ◌++◌, ℕ, List, Option, Result, Err, length, take, drop, slice_index};
ghost use Rattle.std.specs.Ordering.{nat_cmp};
ghost use Rattle.std.specs.Map.{keys_of};
ghost use Rattle.std.specs.BTreeSet.{insert_key};
ghost use Rattle.nsp_seg.specs.Numbers.{residue};
ghost use Rattle.nsp_seg.specs.declared.packet.Packet.{Packet};
ghost use Rattle.nsp_link.specs.declared.link.LinkSetup.{LinkSetup};
ghost use Rattle.nsp_link.specs.declared.link.Got.{Got as TheGot};
ghost use Rattle.nsp_link.specs.declared.fault.LinkFault.{LinkFault as TheFault};
ghost use Rattle.nsp_link.specs.declared.fault.LinkFault.TheVariants.{NoMemory};
ghost use Rattle.nsp_link.specs.Cutting.{Piece, cut, total_length};
ghost use Rattle.nsp_link.specs.Holding.{following, closed_up};
ghost use Rattle.nsp_link.specs.Limits.{max_age, max_segments};
ghost use Rattle.nsp_link.specs.Link.{LinkValue, IsLink, AreUnfinished, Carries, Sends, Stands, Writes, new_link, waiting_bytes};
ghost use Rattle.nsp_link.specs.Receiving.{ReceivedBytes, Receives};
ghost use Rattle.nsp_link.specs.Sending.{queued_link};
ghost use Rattle.nsp_link.specs.Separation.{IsSegmentNear, IsAckNear};

/// States that what is said of the messages sent stays true when more are sent, and holds of a new end.
pub fn messages_only_grow()
    ensures carries { (p : Packet) (size : ℕ) (messages more : List (List ℕ))
        (k : Option ℕ) (a : ℕ)
        → Carries p (cut size messages) k a → Carries p (cut size (messages ++ more)) k a }
    ensures writes { (v : LinkValue) (messages more : List (List ℕ)) (k : Option ℕ) (a : ℕ)
        (bytes : List ℕ) → Writes v messages k a bytes → Writes v (messages ++ more) k a bytes }
    ensures stands { (v : LinkValue) (size : ℕ) (messages more given : List (List ℕ))
        → Stands v size messages given → Stands v size (messages ++ more) given }
    ensures sends { (v : LinkValue) (messages more : List (List ℕ))
        → Sends v messages → Sends (queued_link v (cut v.setup.seg_size more)) (messages ++ more) }
    ensures new_stands { (s : LinkSetup) (size : ℕ) (messages : List (List ℕ))
        → Stands (new_link s) size messages [] }
    ensures new_sends { (s : LinkSetup) → Sends (new_link s) [] }
{}

/// States that an end has whole messages, each once and in order: those that it returned, and then those that wait,
/// are the first of the messages, as many as are whole in the segments that it took.
pub fn whole_messages_are_taken()
    ensures { (v : LinkValue) (size : ℕ) (messages given : List (List ℕ)) → 0 < size
        → Stands v size messages given
        → (n : ℕ) × (given ++ v.coming.inbox ≡ take n messages)
        × (length (cut size (take n messages)) ≤ v.coming.received)
        × (n < length messages
        → v.coming.received < length (cut size (take (n + 1) messages))) }
{}

/// States that what isn't stale is identified by its 12-bit number. With the counts of a link in order, a segment that
/// was sent is near the one that the other end expects next, and an acknowledgement is near the count that it is
/// compared with; and no two that are near have the same number modulo 4,096 (NSP 4.0.0, segment numbers).
pub fn distances_separate()
    ensures segment { (from to : LinkValue) (k : ℕ)
        → IsLink from → from.acked ≤ to.coming.received → k ≤ from.sent
        → to.coming.received + 1 ≤ k + max_age → IsSegmentNear to.coming.received k }
    ensures ack { (v : LinkValue) (a : ℕ)
        → IsLink v → a ≤ v.sent → v.acked ≤ a + max_age → IsAckNear v.acked a }
    ensures segments_apart { (received k l : ℕ)
        → IsSegmentNear received k → IsSegmentNear received l
        → residue k ≡ residue l → k ≡ l }
    ensures acks_apart { (acked a b : ℕ)
        → IsAckNear acked a → IsAckNear acked b → residue a ≡ residue b → a ≡ b }
{}

/// States that what a packet does to an end is determined: two outcomes of one call on the same end are equal, and so
/// are the ends afterwards, out of memory aside; of `receive` where the end hasn't failed, and of `receive_bounded`.
pub fn receiving_is_determined()
    ensures any { (old one two : LinkValue) (bytes : List ℕ) (r s : Result TheGot TheFault)
        → ((i : ℕ) → slice_index bytes i < 256) → r ≢ Err NoMemory → s ≢ Err NoMemory
        → one.coming.received ≤ max_segments → two.coming.received ≤ max_segments
        → ReceivedBytes old one bytes r → ReceivedBytes old two bytes s
        → (r ≡ s) × (one ≡ two) }
    ensures bounded { (old one two : LinkValue) (bytes : List ℕ) (r s : Result TheGot TheFault)
        → ((i : ℕ) → slice_index bytes i < 256) → r ≢ Err NoMemory → s ≢ Err NoMemory
        → Receives old one bytes r → Receives old two bytes s → (r ≡ s) × (one ≡ two) }
{}

/// States what is held, by its numbers alone.
pub fn held_by_number()
    ensures closes { (k : ℕ) (held : List (ℕ × Piece)) → closed_up k (keys_of held)
        ≡ (k + length (following k held), keys_of (drop (length (following k held)) held)) }
    ensures keeps { (k : ℕ) (p : Piece) (held : List (ℕ × Piece))
        → keys_of (insert_key (λ a b. nat_cmp a.0 b.0) held (k, p))
        ≡ insert_key nat_cmp (keys_of held) k }
{}

/// States that the bytes that wait are those of the messages that were sent and aren't acknowledged whole; each
/// message that is sent adds its bytes, and no bytes that are received add any.
pub fn whole_messages_wait()
    ensures whole { (v : LinkValue) (messages : List (List ℕ)) → 0 < v.setup.seg_size
        → Sends v messages → (left : List (List ℕ))
        × AreUnfinished v.setup.seg_size messages v.acked left
        × (waiting_bytes v ≡ total_length left) }
    ensures sent { (v : LinkValue) (more : List (List ℕ)) → 0 < v.setup.seg_size
        → waiting_bytes (queued_link v (cut v.setup.seg_size more))
        ≡ waiting_bytes v + total_length more }
    ensures came { (old new : LinkValue) (bytes : List ℕ) (r : Result TheGot TheFault)
        → Receives old new bytes r → waiting_bytes new ≤ waiting_bytes old }
{}
