//! Laws of a serving node, whoever its peers are. Each function does nothing: its contract is the law.

ghost use Rattle.std.specs.Prelude.{◌≡◌, ◌⊎◌, ◌+◌, ◌-◌, ◌<◌, ◌≤◌, ◌++◌, ◌∷◌, [], ℕ, List, length, None, Err, Ok, Result, Some};
ghost use Rattle.std.specs.List.{AllByRecursion};
ghost use Rattle.nsp_link.specs.declared.fault.LinkFault.TheVariants as fault;
ghost use Rattle.dap_end.specs.declared.fault.TakeFault.TheVariants as take_fault;
ghost use Rattle.nsp_seg.specs.declared.packet.Packet.{Packet as ThePacket};
ghost use Rattle.nsp_seg.specs.Packets.{Spells};
ghost use Rattle.nsp_link.specs.Due.{IsDue};
ghost use Rattle.nsp_link.specs.declared.link.Got.{Got as TheGot};
ghost use Rattle.nsp_link.specs.declared.fault.LinkFault.{LinkFault as TheFault};
ghost use Rattle.nsp_link.specs.Link.{IsSetup, IsSpelling, Sends};
ghost use Rattle.dap_shared.specs.Noted.{NotedServed};
ghost use Rattle.nsp_link.specs.Sending.{WritesSent, ack_packet_of};
ghost use Rattle.dap_end.specs.declared.fault.EndFault.{EndFault as TheEndFault};
ghost use Rattle.dap_end.specs.declared.fault.TakeFault.{TakeFault as TheTakeFault};
ghost use Rattle.dap_end.specs.Headline.{IsFromPeer, WrittenPacket, written_bytes};
ghost use Rattle.dap_end.specs.Ports.{PortValue};
ghost use Rattle.dap_end.specs.Turns.{TakesPacket, TookIn, WentOn};
ghost use Rattle.dap_network.specs.Bounded.{CleanStretch, IsBoundedBy, IsClean, IsDone};
ghost use Rattle.dap_accessed.specs.Apart.{NamesAreApart};
ghost use Rattle.dap_accessed.specs.Sound.{AreFiles};
ghost use Rattle.dap_accessed.specs.declared.setup.ServerSetup.{ServerSetup};
ghost use Rattle.dap_shared.specs.Keeping.{AreOf};
ghost use Rattle.dap_shared.specs.Nodes.{Event, FilesAfter, new_node};
ghost use Rattle.dap_network.specs.GivenFiles.{AreGiven};
ghost use Rattle.dap_accessed.specs.Standing.{Files};
ghost use Rattle.dap_end.specs.Node.{HasPort, NodeLinkValue, NodeValue, OnLink, serves_on, without_notes};
ghost use Rattle.dap_network.specs.Happening.{HappensOn, IsNodeWithoutLinks, NodeEvent, NodeRuns, came_on};
ghost use Rattle.dap_network.specs.Served.{IsServedAlong, NodeIsServed};

/// Whatever bytes come to a node on its links, in whatever order it is called: there is one history.
pub fn any_peers_are_served()
    ensures at_last { (first : Files) (events : List NodeEvent) (old new : NodeValue)
        → IsNodeWithoutLinks first old → NodeRuns old events new → NodeIsServed first events new }
    ensures along { (first : Files) (events : List NodeEvent) (old new : NodeValue)
        → IsNodeWithoutLinks first old → NodeRuns old events new
        → IsServedAlong old.noted.shared.setup first (length old.noted.shared.sessions)
        [] [] old events new }
{
    files_stay_sound();
}

/// Where all packets that came on a link since it began are those of one peer that keeps the rules, the next one of this
/// peer is refused where memory is, or where the link would have taken more than 2^40 segments, and for nothing else; and
/// then nothing changes but that older notes are forgotten.
pub fn a_regular_peer_is_taken_in()
    ensures { (first : Files) (events : List NodeEvent) (old mid new : NodeValue)
        (link most size : ℕ) (messages : List (List ℕ)) (bytes : List ℕ)
        (out all : List (List ℕ)) (f : TheFault)
        → IsNodeWithoutLinks first old → NodeRuns old events mid
        → AllByRecursion (λ c. IsFromPeer size messages c.0 c.1) (came_on link events)
        → (on : OnLink link (λ before after. TakesPacket (serves_on link most)
        before after bytes out all (Err (take_fault.Refused f))) mid new)
        → IsFromPeer size messages on.before.link bytes
        → ((f ≡ fault.NoMemory) ⊎ (f ≡ fault.Exhausted)) × (all ≡ out)
        × (new ≡ record mid { noted = without_notes mid.noted }) }
{}

/// After any history the files obey their shapes and have different names, as the node compares names, where those at
/// first do, and each file and record that was given was one that may be.
pub fn files_stay_sound()
    ensures sound { (own : ServerSetup) (first : Files) (links : ℕ) (history : List Event)
        → AreOf links history → AreGiven own (new_node own first links) history
        → AreFiles first → AreFiles (FilesAfter own first links history) }
    ensures apart { (own : ServerSetup) (first : Files) (links : ℕ) (history : List Event)
        → AreGiven own (new_node own first links) history → NamesAreApart own.names first
        → NamesAreApart own.names (FilesAfter own first links history) }
{}

/// Each call of a node on a link, refused or not, is what happens on this link, with the packet that came in it. The
/// packets that it returns are those that were written, in order. What happens after something else happens after it.
pub fn calls_are_what_happens()
    ensures take { (link most : ℕ) (old new : NodeValue) (bytes : List ℕ)
        (out all : List (List ℕ)) (r : Result TheGot TheTakeFault)
        → (on : OnLink link (λ before after. TakesPacket (serves_on link most)
        before after bytes out all r) old new)
        → (wrote : List WrittenPacket)
        × HappensOn link old ((on.before.link, bytes) ∷ []) wrote new
        × (all ≡ out ++ written_bytes wrote) }
    ensures go_on { (link most : ℕ) (old new : NodeValue) (out all : List (List ℕ))
        (r : Result (Unit {0}) TheEndFault)
        → OnLink link (λ before after. WentOn (serves_on link most) before after out all r) old new
        → (wrote : List WrittenPacket) × HappensOn link old [] wrote new
        × (all ≡ out ++ written_bytes wrote) }
    ensures resend { (link i : ℕ) (old : NodeValue) (p : PortValue) (bytes : List ℕ)
        → HasPort link old p → i < p.link.sent - p.link.acked
        → WritesSent p.link (Some (p.link.acked + 1 + i)) bytes
        → HappensOn link old [] (record {
          bytes = bytes;
          segment = Some (p.link.acked + 1 + i);
          acks = p.link.coming.received;
        } ∷ []) old }
    ensures ack { (link : ℕ) (old : NodeValue) (p : PortValue) (bytes : List ℕ)
        → HasPort link old p → IsSpelling (ack_packet_of p.link) bytes
        → HappensOn link old [] (record {
          bytes = bytes;
          segment = None;
          acks = p.link.coming.received;
        } ∷ []) old }
    ensures more { (xs ys : List NodeEvent) (old mid new : NodeValue)
        → NodeRuns old xs mid → NodeRuns mid ys new → NodeRuns old (xs ++ ys) new }
{}

/// Once a node has gone on with a link, or has taken a packet on it, no more bytes of its answers wait there than before,
/// or fewer than the limit and the answers to one item that was served meanwhile. And where the limit is above 0 and all
/// that was sent is acknowledged, nothing that came is unserved, and no answer waits.
pub fn links_are_bounded()
    ensures go_on { (link most : ℕ) (old new : NodeValue) (out all : List (List ℕ))
        (r : Result (Unit {0}) TheEndFault) → OnLink link (λ before after.
        0 < before.port.link.setup.seg_size × WentOn (serves_on link most) before after out all r)
        old new
        → OnLink link (λ before after.
        IsBoundedBy (NotedServed link) most before before after) old new }
    ensures take { (link most : ℕ) (old new : NodeValue) (bytes : List ℕ)
        (out all : List (List ℕ)) (r : Result TheGot TheTakeFault) → OnLink link (λ before after.
        0 < before.port.link.setup.seg_size
        × TakesPacket (serves_on link most) before after bytes out all r) old new
        → OnLink link (λ before after. (first : NodeLinkValue) × (q : Result TheGot TheFault)
        × TookIn before first bytes q
        × IsBoundedBy (NotedServed link) most before first after) old new }
    ensures nothing_left { (link most : ℕ) (old new : NodeValue) (out all : List (List ℕ))
        (handed : List (List ℕ)) → 0 < most → OnLink link (λ before after.
        IsSetup before.port.link.setup × Sends before.port.link handed
        × WentOn (serves_on link most) before after out all (Ok tt)
        × (after.port.link.sent ≡ after.port.link.acked)) old new
        → OnLink link (λ before after. IsDone after.port) old new }
{}

/// A clean stretch ends: where on a link a packet that acknowledges all that was sent came so often, each was answered,
/// and fewer segments were written meanwhile, nothing that came is unserved, and no answer waits, whatever the limit
/// above 0, and whatever was done meanwhile on other links. So there is an end after one such packet for each segment of
/// the answers, and one more.
pub fn a_clean_stretch_ends()
    ensures ends { (link most n : ℕ) (old new : NodeValue) (port last : PortValue)
        (handed : List (List ℕ)) → 0 < most
        → CleanStretch link most n old new → HasPort link old port → HasPort link new last
        → IsSetup port.link.setup → Sends port.link handed
        → last.link.sent < port.link.sent + n → IsDone last }
    // A packet of a peer that keeps the rules, which has no segment and acknowledges all that was sent, is such a packet,
    // where all is done that it lets the node do.
    ensures clean { (link most size : ℕ) (messages given : List (List ℕ)) (p : ThePacket)
        (old new : NodeValue) (bytes : List ℕ) (out all : List (List ℕ)) (got : TheGot)
        → Spells p bytes → OnLink link (λ before after.
        (before.port.link.acked ≤ before.port.link.sent)
        × IsDue before.port.link size messages given p None before.port.link.sent
        × TakesPacket (serves_on link most) before after bytes out all (Ok got)) old new
        → OnLink link (IsClean (serves_on link most)) old new }
{}
