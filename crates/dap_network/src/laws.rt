//! Laws over the definitions alone. Each function does nothing: its contract is the law.

ghost use Rattle.std.specs.Prelude.{◌≡◌, ◌+◌, ◌-◌, ◌<◌, ◌++◌, ◌∷◌, [], ℕ, List, length, None, Option, Result, Some, map, slice_get};
ghost use Rattle.std.specs.List.{AllByRecursion};
ghost use Rattle.nsp_link.specs.declared.link.Got.{Got as TheGot};
ghost use Rattle.nsp_link.specs.Link.{IsSpelling};
ghost use Rattle.nsp_link.specs.Sending.{WritesSent, ack_packet_of};
ghost use Rattle.dap_msg.specs.declared.items.Item.{Item};
ghost use Rattle.rec_file.specs.declared.picks.Rights.{Rights};
ghost use Rattle.dap_accessed.specs.declared.setup.ServerSetup.{ServerSetup};
ghost use Rattle.dap_accessed.specs.Standing.{Files};
ghost use Rattle.dap_accessed.specs.Groups.{After, Answers};
ghost use Rattle.dap_shared.specs.Nodes.{AnswersOn, Begins, FilesAfter, Serves, items_on, setup_with};
ghost use Rattle.dap_accessing.specs.Request.{Request as TheRequest};
ghost use Rattle.dap_accessing.specs.declared.report.Report.{Report as TheReport};
ghost use Rattle.dap_end.specs.declared.fault.EndFault.{EndFault as TheEndFault};
ghost use Rattle.dap_end.specs.declared.fault.TakeFault.{TakeFault as TheTakeFault};
ghost use Rattle.dap_end.specs.Calls.{AskingRuns};
ghost use Rattle.dap_end.specs.Done.{AskingValue};
ghost use Rattle.dap_end.specs.Headline.{Arrival, WrittenPacket, written_bytes};
ghost use Rattle.dap_end.specs.Joined.{IsBrought};
ghost use Rattle.dap_end.specs.Node.{HasPort, NodeValue, OnLink, serves_on};
ghost use Rattle.dap_end.specs.Ports.{PortValue};
ghost use Rattle.dap_end.specs.Turns.{TakesPacket, WentOn};
ghost use Rattle.dap_network.specs.Calls.{Leads, node_then, peer_then};
ghost use Rattle.dap_network.specs.Headline.{IsKeptAlong, NetworkHeadline};
ghost use Rattle.dap_network.specs.Network.{IsNewNetwork, Network, NetworkEvent, NetworkRuns, Peer};

/// A node and the clients of its links keep the headline, over every list of their calls, links that begin and end among
/// them, and over a network that loses, repeats and reorders packets, but brings none altered or more than 2,047
/// numbers old; beside them are strangers, who send anything. There is one order in which all was served: that of the
/// calls. Of it all holds that `any_peers_are_served` says. And on each client's link its messages were served, each once
/// and in order, and its reports are those of the answers that this order gives there: at the end, and at every moment.
pub fn many_links_keep_the_headline()
    ensures at_last { (first : Files) (events : List NetworkEvent) (old new : Network)
        → IsNewNetwork first old → NetworkRuns old events new → NetworkHeadline first events new }
    ensures along { (first : Files) (events : List NetworkEvent) (old new : Network)
        → IsNewNetwork first old → NetworkRuns old events new
        → IsKeptAlong old.node.noted.shared.setup first (length old.node.noted.shared.sessions)
        [] [] old events new }
{
    crate::files_stay_sound();
}

/// With one link that began once, the history is what was served on it, and its files and answers are those of a server
/// of one link with the rights of this one. So the headline is that of two ends (`two_ends_keep_the_headline` of
/// `dap_end`).
pub fn one_link_is_as_before()
    ensures items { (most : Rights) (items : List Item)
        → items_on 0 (Begins 0 most ∷ map (Serves 0) items) ≡ items }
    ensures files { (own : ServerSetup) (most : Rights) (first : Files) (items : List Item)
        → FilesAfter own first 1 (Begins 0 most ∷ map (Serves 0) items)
        ≡ After (setup_with most own) first items }
    ensures answers { (own : ServerSetup) (most : Rights) (first : Files) (items : List Item)
        → AnswersOn 0 own first 1 (Begins 0 most ∷ map (Serves 0) items)
        ≡ Answers (setup_with most own) first items }
{
    dap_shared::one_link_is_as_before();
}

/// Each call of a node on a link, refused or not, is some events of the network: where the packet that comes is one
/// that the link's peer wrote, and not more than 2,047 numbers old. The calls by which a link begins or ends, and by
/// which a file or a record is given or a file is dropped, are events as they are.
pub fn node_calls_are_events()
    ensures take { (link most : ℕ) (old : Network) (node : NodeValue) (peer : Peer)
        (bytes : List ℕ) (out all : List (List ℕ)) (r : Result TheGot TheTakeFault)
        → slice_get old.peers link ≡ Some (Some peer)
        → ((p : PortValue) → HasPort link old.node p → IsBrought peer.from_peer p.link bytes)
        → OnLink link (λ before after. TakesPacket (serves_on link most)
        before after bytes out all r)
        old.node node
        → (wrote : List WrittenPacket) × Leads old (node_then old node link peer wrote)
        × (all ≡ out ++ written_bytes wrote) }
    ensures go_on { (link most : ℕ) (old : Network) (node : NodeValue) (peer : Peer)
        (out all : List (List ℕ)) (r : Result (Unit {0}) TheEndFault)
        → slice_get old.peers link ≡ Some (Some peer)
        → OnLink link (λ before after. WentOn (serves_on link most) before after out all r)
        old.node node
        → (wrote : List WrittenPacket) × Leads old (node_then old node link peer wrote)
        × (all ≡ out ++ written_bytes wrote) }
    ensures resend { (link i : ℕ) (old : Network) (peer : Peer) (p : PortValue) (bytes : List ℕ)
        → slice_get old.peers link ≡ Some (Some peer) → HasPort link old.node p
        → i < p.link.sent - p.link.acked
        → WritesSent p.link (Some (p.link.acked + 1 + i)) bytes
        → Leads old (node_then old old.node link peer (record {
          bytes = bytes;
          segment = Some (p.link.acked + 1 + i);
          acks = p.link.coming.received;
        } ∷ [])) }
    ensures ack { (link : ℕ) (old : Network) (peer : Peer) (p : PortValue) (bytes : List ℕ)
        → slice_get old.peers link ≡ Some (Some peer) → HasPort link old.node p
        → IsSpelling (ack_packet_of p.link) bytes
        → Leads old (node_then old old.node link peer (record {
          bytes = bytes;
          segment = None;
          acks = p.link.coming.received;
        } ∷ [])) }
    // Two lists of events are one where the second begins as the first ends.
    ensures more { (old mid new : Network) → Leads old mid → Leads mid new → Leads old new }
{}

/// Each call of a node on a link whose peer is a stranger, refused or not, is some events of the network, whatever
/// comes. What doesn't change the node, `resend` and `ack`, is nothing to a stranger's network.
pub fn strangers_are_taken()
    ensures take { (link most : ℕ) (old : Network) (node : NodeValue) (bytes : List ℕ)
        (out all : List (List ℕ)) (r : Result TheGot TheTakeFault)
        → slice_get old.peers link ≡ Some None
        → OnLink link (λ before after. TakesPacket (serves_on link most)
        before after bytes out all r)
        old.node node
        → Leads old (record old { node = node }) }
    ensures go_on { (link most : ℕ) (old : Network) (node : NodeValue)
        (out all : List (List ℕ)) (r : Result (Unit {0}) TheEndFault)
        → slice_get old.peers link ≡ Some None
        → OnLink link (λ before after. WentOn (serves_on link most) before after out all r)
        old.node node
        → Leads old (record old { node = node }) }
{}

/// Each run of calls of a link's peer is some events of the network, where the packets that come are those that the
/// node wrote on the link, and not more than 2,047 numbers old.
pub fn peer_calls_are_events()
    ensures { (link : ℕ) (old : Network) (peer : Peer) (client : AskingValue)
        (came : List Arrival) (requests : List TheRequest) (reports : List TheReport)
        (wrote : List WrittenPacket) → slice_get old.peers link ≡ Some (Some peer)
        → AllByRecursion (λ c. IsBrought peer.from_node c.0 c.1) came
        → AskingRuns came requests peer.client client reports wrote
        → Leads old (peer_then old link peer client requests reports wrote) }
{}
