//! Laws over the definitions alone. Each function does nothing: its contract is the law.

ghost use Rattle.std.specs.Prelude.{◌≡◌, ◌<◌, ◌++◌, ◌∷◌, ℕ, List, [], false, slice_index, true};
ghost use Rattle.std.specs.List.{AllByRecursion, AllZip};
ghost use Rattle.dap_follow.specs.Streams.{IsOrdered, NumberedSegment, Sequenced};
ghost use Rattle.dap_follow.specs.Joined.{Fragment, is_message, fragments_of};
ghost use Rattle.dap_listing.specs.Lines.{Capture};
ghost use Rattle.dap_listing.specs.Listing.{CaptureLines};
ghost use Rattle.dap_listing.specs.declared.listing.Listed.TheVariants.{Packets};
ghost use Rattle.dap_follow.specs.declared.lister.Chosen.{Chosen};
ghost use Rattle.decnet_frames.specs.Found.{FoundPacket, TakesAll};
ghost use Rattle.dap_follow.specs.Listed.{IsLine, PacketsAreListed, whole_at};
ghost use Rattle.dap_follow.specs.Keeping.Lister.{KeepsWithinRoom, ListerStarts, rest_of, takes};
ghost use Rattle.dap_follow.specs.Room.{FitRoom, IsShortPacket};
ghost use Rattle.dap_follow.specs.declared.lister.Lister.{Lister};

/// States that what is listed under a packet stays so whatever comes later: a segment of a later packet, put under its
/// sequence number among those of its stream, neither adds a message to those of an earlier packet nor takes one away.
/// So a packet's lines can be written as it comes.
pub fn listed_messages_stay()
    ensures { (packet : ℕ) (s : Sequenced) (front back : List Sequenced) → packet < s.packet
        → AllByRecursion (λ a. a.sequence < s.sequence) front
        → AllByRecursion (λ b. s.sequence < b.sequence) back
        → whole_at packet (front ++ s ∷ back) ≡ whole_at packet (front ++ back) }
{}

/// States that the segments of a message that is listed can be dropped: what they cut stays cut, since their sequence
/// numbers stay taken. Whatever comes before a message or after it, the pieces are those of the segments before it,
/// the message, and those of the segments after it; and without the message's segments they are the same but for it.
pub fn listed_messages_can_go()
    ensures { (m : Fragment) (front back : List Sequenced) → is_message m ≡ true
        → fragments_of (m.head ∷ m.others) ≡ m ∷ []
        → AllByRecursion (λ a. a.sequence < m.head.sequence) front
        → AllByRecursion (λ b. m.head.sequence < b.sequence) back
        → (fragments_of (front ++ ((m.head ∷ m.others) ++ back))
        ≡ fragments_of front ++ m ∷ fragments_of back)
        × (fragments_of (front ++ back) ≡ fragments_of front ++ fragments_of back) }
{}

/// States what a lister makes of packets: it takes them one after the other from its beginning, and what it appends is
/// what is listed as they come; and what is left then is what would be listed if the input ended with them.
pub fn taken_packets_are_listed()
    ensures { (packets : List FoundPacket) (start end : Lister) (written : List ℕ) → ListerStarts start
        → TakesAll takes start packets end written
        → PacketsAreListed start.chosen packets written (rest_of end) }
{}

/// States how much a lister keeps: of packets of at most 16,777,152 bytes each, taken from its beginning, at most 1,024
/// streams haven't ended. They take at most 16,777,216 bytes: those of the payloads of segments that are in no message
/// yet, and 64 for each of these segments and for each run of messages.
pub fn kept_streams_are_bounded()
    ensures kept { (packets : List FoundPacket) (start end : Lister) (written : List ℕ)
        → ListerStarts start → AllByRecursion IsShortPacket packets
        → TakesAll takes start packets end written → KeepsWithinRoom end }
    ensures open { (packets : List FoundPacket) (start end : Lister) (written : List ℕ)
        → ListerStarts start → AllByRecursion IsShortPacket packets
        → TakesAll takes start packets end written
        → (listed : PacketsAreListed start.chosen packets written (rest_of end))
        × FitRoom listed.opens }
{}

/// States that with neither words nor joined segments, of lines before which no frame is told, the listing is what
/// `dapnsp show` writes of these lines.
pub fn bare_segments_are_shown()
    ensures { (chosen : Chosen) (captured : List Capture) (packets : List FoundPacket)
        (written rest : List ℕ) → chosen.in_words ≡ false → chosen.is_joined ≡ false
        → AllZip IsLine captured packets → PacketsAreListed chosen packets written rest
        → CaptureLines Packets 1 captured (written ++ rest) }
{}

/// States that what a stream has under a packet stays to its end: whatever segments of later packets come to it, the
/// messages that are whole with the packet are the same under the sequence numbers of all its segments as under those
/// of the segments that had come. So the messages of a stream that ended are those that were listed.
pub fn whole_messages_stay()
    ensures { (packet : ℕ) (first : NumberedSegment) (before later : List NumberedSegment)
        (now all : List Sequenced) → IsOrdered (first ∷ before) now
        → IsOrdered (first ∷ before ++ later) all → AllByRecursion (λ c. packet < c.0) later
        → whole_at packet all ≡ whole_at packet now }
{}

/// States that packets have one listing: of the same packets, which have bytes, whatever is listed as they come and at
/// the end is the same text.
pub fn packets_have_one_listing()
    ensures { (chosen : Chosen) (packets : List FoundPacket) (written rest others ends : List ℕ)
        → AllByRecursion (λ p. (i : ℕ) → slice_index p.bytes i < 256) packets
        → PacketsAreListed chosen packets written rest
        → PacketsAreListed chosen packets others ends → (written ≡ others) × (rest ≡ ends) }
{}
