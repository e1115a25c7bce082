//! The server, over lines: one link, or several before one table of files.

ghost use Rattle.std.specs.Prelude.{◌≡◌, ◌<◌, ◌⊎◌, ◌==◌, [], ℕ, length, Ok, Some, None, OnOk, OnErr, IfOk, IfErr, IfSome, IsTrue, set, true, false};
ghost use Rattle.std.specs.List.{position};
ghost use Rattle.dap_msg.specs.Blocked.{bodies};
ghost use Rattle.dap_accessed.specs.Asked.{IsAsked};
ghost use Rattle.dap_accessed.specs.Setup.{IsServerSetup, all_rights};
ghost use Rattle.nsp_link.specs.Link.{IsSetup, SetupFault};
ghost use Rattle.nsp_link.specs.declared.fault.LinkFault.TheVariants as link_fault;
ghost use Rattle.dap_end.specs.Ports.{PortValue};
ghost use Rattle.dap_end.specs.Node.{AtPort, BeganOn, HasPort, NotBegun, OnLink, has_local, serves_on};
ghost use Rattle.dap_end.specs.Turns.{TakesPacket, WentOn};
ghost use Rattle.linewise.specs.Talks.{BeginsAnswer};
ghost use Rattle.dap_live.specs.Both.{LeavesEnd};
ghost use Rattle.dap_live.specs.Sending.{SaysAck, UnlessFailed};
ghost use Rattle.dap_live.specs.Texts.{LineAnswer};
ghost use Rattle.dap_live.specs.Inner.NodeReaching.{IsDoneWithText, NodeReaches};
ghost use Rattle.dap_live.specs.Inner.Filing.{AddsNewTo, GivesRecordBy, HasNoBytes, RecordNotBy};
ghost use Rattle.dap_live.specs.Orders.{most_anew, most_beside, setup_anew};
ghost use Rattle.dap_live.specs.Node.{AddsAsked, AddsFileTo, AddsLink, AddsRecordTo, BeginsOn, NodeDoes, DoesNodeOrder, DropsFile, FindsLink, GoesOnWith, IsNewNode, IsNotDone, MayWantMemory, NoLink, ResendsOn, TakesOn, TakesPacketBy, RenewsOn, about, before_line, given_beside, is_alone, is_work_left_at, is_used, may_be_one, meant, one_link, pieces, receiver_of, sender_of, node_without_file, used_by, waits_on as waits_by};

use crate::answers::{
    push_add_refusal, push_link_refusal, push_node_taken, push_refused, push_remove_refusal,
    push_served, push_status,
};
use crate::node_orders::{NodeOrder, read_node_order};
use crate::orders::{Between, set_up_anew, set_up_beside};
use crate::sending::{has_message, is_left, push_again, say_ack, waits};
use crate::used::Used;
use dap_accessed::{ALL_RIGHTS, AddFault, Asked, Names, NoMemory, ServerSetup};
use dap_accessing::Octets;
use dap_end::{EndFault, ServingNode, TakeFault};
use dap_msg::codes::{ACCESS_REFUSED, REASON_BAD_ATTRIBUTES};
use dap_text::{FileFault, FileLine, FilesCursor, RecordLine, Text, push_files_line};
use file_names::is_alike;
use linewise::{Answer, Answers, Became};
use nsp_link::{Got, LinkEnd, LinkFault, LinkSetup, is_setup};
use nsp_seg::{PacketValue, decode_value};
use rec_file::Rights;
use std::alloc::{AllocError, Global};

/// A server of one link, or of several before one table of files, as an answerer of lines.
#[derive(Drop)]
pub struct Node {
    alloc: Global,
    /// The table and the links.
    pub node: ServingNode,
    /// What it is set up with.
    pub own: ServerSetup,
    /// How a link is set up that is added, but for its addresses; the only link, to begin with.
    pub usual: LinkSetup,
    /// It serves the next message that came on a link while fewer bytes wait there than this.
    pub most_waiting: u64,
    /// The link that the last line concerns, if it concerns one: its answer ends with what waits there.
    pub last: Option<usize>,
    /// Of each link, whether a packet came on it since it began that wasn't refused.
    pub used: Used,
    /// The name of the file that the last `file` line added, unless it was dropped: records are added to it.
    pub given: Option<Octets>,
}

/// Creates a node without files and links.
fn no_links(
    alloc: Global,
    own: ServerSetup,
    links: usize,
    usual: LinkSetup,
    most_waiting: u64,
) -> Result<Node, NoMemory>
    requires { IsServerSetup own }
    ensures { IfOk result (HasNoBytes own links usual most_waiting) }
{
    let node = ServingNode::with_setup(alloc, own, links)?;
    let used = Used::none(alloc, links)?;
    Ok(Node {
        alloc,
        node,
        own,
        usual,
        most_waiting,
        last: None,
        used,
        given: None,
    })
}

/// Begins the only link of a node.
fn begin_only(node: &mut Node) -> Result<(), LinkFault>
    requires { IsTrue (is_alone node.old.node) }
    ensures ok { OnOk result (BeganOn 0 node.old.usual all_rights node.old.node node.new.node) }
    ensures rest { OnOk result
        (node.new ≡ record node.old { node = node.new.node; last = Some 0 }) }
    ensures setup { OnOk result (IsSetup node.old.usual) }
    ensures err { IfErr result (λ f. NotBegun 0 node.old.usual node.old.node f) }
{
    node.node.begin(node.alloc, 0, node.usual, ALL_RIGHTS)?;
    node.last = Some(0);
    Ok(())
}

impl Node {
    /// Creates a node without files that is set up so, with room for this many links. It serves what came on a link
    /// while fewer than `most_waiting` bytes wait there. Where there is room for one, that link is there from the
    /// start, as `usual` says, and lines name no link; otherwise none is. Refused: `BadSetup` where there is one link
    /// and a limit of its setup isn't in its range; `NoMemory`.
    #[tactic(auto, using(crate::proofs::NewNode::new_several, crate::proofs::NewNode::new_only))]
    pub fn new(
        alloc: Global,
        own: ServerSetup,
        links: usize,
        usual: LinkSetup,
        most_waiting: u64,
    ) -> Result<Node, LinkFault>
        requires { IsServerSetup own }
        ensures ok { IfOk result (IsNewNode own links usual most_waiting) }
        ensures err { IfErr result (λ f. (f ≡ link_fault.NoMemory)
            ⊎ ((links ≡ 1) × SetupFault usual f)) }
    {
        let Ok(mut node) = no_links(alloc, own, links, usual, most_waiting) else {
            return Err(LinkFault::NoMemory);
        };
        if links == 1 {
            begin_only(&mut node)?;
        }
        Ok(node)
    }
}

/// Finds the only link, of a node that has room for one.
#[tactic(auto, using(crate::proofs::Indices::one_is, crate::proofs::Indices::one_none, crate::proofs::Indices::one_several, crate::proofs::Indices::one_only))]
fn find_one(node: &ServingNode) -> Option<usize>
    ensures found { result ≡ one_link node.now.ports }
    ensures there { IfSome result (λ link. (p : PortValue) × HasPort link node.now p) }
    ensures within { IfSome result (λ link. link < length node.now.ports) }
    ensures only { IfSome result (λ link. (other : ℕ) (p : PortValue) → HasPort other node.now p
        → other ≡ link) }
{
    if node.links() != 1 {
        return None;
    }
    match node.link(0) {
        Some(_) => Some(0),
        None => None,
    }
}

/// Finds the link that has this local address.
fn find_local(node: &ServingNode, local: u16) -> Option<usize>
    ensures found { result ≡ position (has_local local) node.now.ports }
    ensures there { IfSome result (λ link. (p : PortValue) × HasPort link node.now p) }
    ensures within { IfSome result (λ link. link < length node.now.ports) }
    ensures only { (link : ℕ) (p : PortValue) → HasPort link node.now p
        → p.link.setup.local ≡ local → result ≡ Some link }
{
    node.find_local(local)
}

/// Finds the link that a line means: it names its local address, or no link where there is one alone.
fn find(node: &ServingNode, local: Option<u16>) -> Option<usize>
    ensures found { result ≡ meant local node.now.ports }
    ensures there { IfSome result (λ link. (p : PortValue) × HasPort link node.now p) }
{
    match local {
        None => find_one(node),
        Some(local) => find_local(node, local),
    }
}

/// Returns the link at this index, which is there.
fn link_of(node: &ServingNode, link: usize) -> &LinkEnd
    requires { (p : PortValue) × HasPort link node.now p }
    ensures { AtPort link node.now (λ p. result.now ≡ p.link) }
{
    match node.link(link) {
        Some(end) => end,
        None => unreachable!(),
    }
}

/// Returns whom a packet is sent to, and whom it is from.
fn addresses_of(packet: &PacketValue<'_>) -> (u16, u16)
    ensures receiver { result.0 ≡ receiver_of packet.now }
    ensures sender { result.1 ≡ sender_of packet.now }
{
    match packet {
        PacketValue::Segment(segment) => (segment.dst, segment.src),
        PacketValue::DataAck(ack) => (ack.dst, ack.src),
    }
}

/// Finds the link of a packet, by its addresses.
fn find_of(node: &ServingNode, bytes: &[u8]) -> Result<usize, LinkFault>
    ensures finds { FindsLink node.now.ports bytes.now result }
    ensures there { IfOk result (λ link. (p : PortValue) × HasPort link node.now p) }
{
    let packet = match decode_value(bytes) {
        Ok(packet) => packet,
        Err(fault) => return Err(LinkFault::Malformed(fault)),
    };
    let (local, remote) = addresses_of(&packet);
    match node.find_between(local, remote) {
        Some(link) => Ok(link),
        None => Err(LinkFault::WrongLink),
    }
}

/// Receives a packet on a link, and goes on with it.
fn take(
    node: &mut ServingNode,
    link: usize,
    most_waiting: u64,
    bytes: &[u8],
    packets: &mut Vec<Vec<u8>>,
) -> Result<Got, TakeFault>
    requires there { (p : PortValue) × HasPort link node.old p }
    requires packets { packets.old.items ≡ [] }
    ensures { OnLink link (λ before after. TakesPacket (serves_on link most_waiting) before after
        bytes.now [] (bodies packets.new.items) result) node.old node.new }
{
    node.take(link, bytes, most_waiting, packets)
}

/// Notes that a link is used, unless it refused the packet.
fn use_link(used: &mut Used, link: usize, taken: &Result<Got, TakeFault>)
    ensures { used.new ≡ used_by taken.now link used.old }
{
    match taken {
        Err(TakeFault::Refused(_)) => {}
        _ => used.set(link, true),
    }
}

/// Receives a packet on a link, and says what comes of it.
fn take_on(
    node: &mut Node,
    link: usize,
    bytes: &[u8],
    text: &mut Vec<u8>,
) -> Result<Became, AllocError>
    requires there { (p : PortValue) × HasPort link node.old.node p }
    requires text { text.old.items ≡ [] }
    ensures ok { IfOk result (TakesOn link node.old bytes.now node.new text.new.items) }
    ensures err { OnErr result (IsDoneWithText (TakesOn link node.old bytes.now node.new)) }
{
    node.last = Some(link);
    let mut packets = Vec::new(node.alloc);
    let taken = take(&mut node.node, link, node.most_waiting, bytes, &mut packets);
    use_link(&mut node.used, link, &taken);
    push_node_taken(text, taken, node.node.locked(), &packets)
}

/// Receives a packet on the link of its addresses.
fn take_of(node: &mut Node, bytes: &[u8], text: &mut Vec<u8>) -> Result<Became, AllocError>
    requires { text.old.items ≡ [] }
    ensures ok { IfOk result (TakesPacketBy node.old bytes.now node.new text.new.items) }
    ensures err { OnErr result ((node.new ≡ node.old)
        ⊎ IsDoneWithText (TakesPacketBy node.old bytes.now node.new)) }
{
    match find_of(&node.node, bytes) {
        Ok(link) => take_on(node, link, bytes, text),
        Err(fault) => push_link_refusal(text, fault),
    }
}

/// Writes the answer to a packet: the only link receives it, or that of its addresses.
fn take_packet(node: &mut Node, digits: &Text<'_>, text: &mut Vec<u8>) -> Result<Became, AllocError>
    requires { text.old.items ≡ [] }
    ensures ok { IfOk result (NodeDoes node.old (NodeOrder.Packet digits.now)
        node.new text.new.items) }
    ensures err { OnErr result (NodeReaches node.old (NodeOrder.Packet digits.now) node.new) }
{
    let bytes = digits.to_vec(node.alloc)?;
    match find_one(&node.node) {
        Some(link) => take_on(node, link, &bytes, text),
        None => take_of(node, &bytes, text),
    }
}

/// Goes on with a link.
fn go_on(
    node: &mut ServingNode,
    link: usize,
    most_waiting: u64,
    packets: &mut Vec<Vec<u8>>,
) -> Result<(), EndFault>
    requires there { (p : PortValue) × HasPort link node.old p }
    requires packets { packets.old.items ≡ [] }
    ensures { OnLink link (λ before after. WentOn (serves_on link most_waiting) before after []
        (bodies packets.new.items) result) node.old node.new }
{
    match node.go_on(link, most_waiting, packets) {
        Ok(()) => Ok(()),
        Err(fault) => Err(EndFault::Link(fault)),
    }
}

/// Goes on with a link, and says what comes of it after the text.
fn go_on_after(node: &mut Node, link: usize, text: &mut Vec<u8>) -> Result<Became, AllocError>
    requires { (p : PortValue) × HasPort link node.old.node p }
    ensures ok { IfOk result (GoesOnWith link node.old text.old.items
        node.new text.new.items) }
    ensures err { OnErr result (IsDoneWithText (GoesOnWith link node.old text.old.items node.new)) }
{
    node.last = Some(link);
    let mut packets = Vec::new(node.alloc);
    let gone = go_on(&mut node.node, link, node.most_waiting, &mut packets);
    push_served(text, node.node.locked(), &packets, gone)
}

/// Returns whether something is left of what the node does by itself with a link, while fewer bytes wait there than
/// this.
fn is_work_left(node: &ServingNode, link: usize, most_waiting: u64) -> bool
    requires { (p : PortValue) × HasPort link node.now p }
    ensures { (p : PortValue) → HasPort link node.now p → result ≡ is_work_left_at most_waiting p }
{
    let end = link_of(node, link);
    let may_serve_next = has_message(end) && end.waiting_bytes() < most_waiting;
    is_left(end, node.waiting(link), may_serve_next)
}

/// Sends all segments of a link again that aren't acknowledged, and goes on, where the link runs.
fn resend_running(node: &mut Node, link: usize, text: &mut Vec<u8>) -> Result<Became, AllocError>
    requires there { (p : PortValue) × HasPort link node.old.node p }
    requires text { text.old.items ≡ [] }
    ensures ok { IfOk result (λ became. AtPort link node.old.node (λ p.
        ResendsOn link p node.old node.new text.new.items became)) }
    ensures err { OnErr result ((node.new ≡ about link node.old) ⊎ IsDoneWithText (λ said became.
        AtPort link node.old.node (λ p. ResendsOn link p node.old node.new said became))) }
{
    node.last = Some(link);
    push_again(link_of(&node.node, link), text)?;
    if is_work_left(&node.node, link, node.most_waiting) {
        go_on_after(node, link, text)
    } else {
        Ok(Became::Done)
    }
}

/// Sends all segments of a link again that aren't acknowledged, and goes on.
fn resend_on(node: &mut Node, link: usize, text: &mut Vec<u8>) -> Result<Became, AllocError>
    requires there { (p : PortValue) × HasPort link node.old.node p }
    requires text { text.old.items ≡ [] }
    ensures ok { IfOk result (λ became. AtPort link node.old.node (λ p.
        UnlessFailed p.link text.new.items
        (LeavesEnd Became.Done (about link node.old) node.new became)
        (ResendsOn link p node.old node.new text.new.items became))) }
    ensures err { OnErr result ((node.new ≡ about link node.old) ⊎ IsDoneWithText (λ said became.
        AtPort link node.old.node (λ p. UnlessFailed p.link said
        (LeavesEnd Became.Done (about link node.old) node.new became)
        (ResendsOn link p node.old node.new said became)))) }
{
    if link_of(&node.node, link).has_failed() {
        node.last = Some(link);
        return push_link_refusal(text, LinkFault::Failed);
    }
    resend_running(node, link, text)
}

/// Sends all segments again that aren't acknowledged, of the link that a line means.
fn resend(node: &mut Node, local: Option<u16>, text: &mut Vec<u8>) -> Result<Became, AllocError>
    requires { text.old.items ≡ [] }
    ensures ok { IfOk result (NodeDoes node.old (NodeOrder.Resend local) node.new text.new.items) }
    ensures err { OnErr result (NodeReaches node.old (NodeOrder.Resend local) node.new) }
{
    match find(&node.node, local) {
        Some(link) => resend_on(node, link, text),
        None => push_link_refusal(text, LinkFault::WrongLink),
    }
}

/// Acknowledges all segments that were taken on a link.
fn ack_on(node: &mut Node, link: usize, text: &mut Vec<u8>) -> Result<Became, AllocError>
    requires there { (p : PortValue) × HasPort link node.old.node p }
    requires text { text.old.items ≡ [] }
    ensures ok { IfOk result (λ became. AtPort link node.old.node (λ p.
        LeavesEnd Became.Done (about link node.old) node.new became
        × SaysAck p.link text.new.items)) }
    ensures err { OnErr result (node.new ≡ about link node.old) }
{
    node.last = Some(link);
    say_ack(link_of(&node.node, link), text)
}

/// Acknowledges all segments that were taken, on the link that a line means.
fn ack(node: &mut Node, local: Option<u16>, text: &mut Vec<u8>) -> Result<Became, AllocError>
    requires { text.old.items ≡ [] }
    ensures ok { IfOk result (NodeDoes node.old (NodeOrder.Ack local) node.new text.new.items) }
    ensures err { OnErr result (IsNotDone node.old (NodeOrder.Ack local) node.new) }
{
    match find(&node.node, local) {
        Some(link) => ack_on(node, link, text),
        None => push_link_refusal(text, LinkFault::WrongLink),
    }
}

/// Ends the link that has this local address.
fn close(node: &mut Node, local: u16, text: &mut Vec<u8>) -> Result<Became, AllocError>
    requires { text.old.items ≡ [] }
    ensures ok { IfOk result (NodeDoes node.old (NodeOrder.Close local) node.new text.new.items) }
    ensures err { OnErr result (node.new ≡ node.old) }
    ensures refused { OnErr result (MayWantMemory node.old (NodeOrder.Close local)) }
{
    match find_local(&node.node, local) {
        Some(link) => {
            node.node.end(link);
            node.used.set(link, false);
            Ok(Became::Done)
        }
        None => push_link_refusal(text, LinkFault::WrongLink),
    }
}

/// Begins a link whose local address no other link has.
fn begin(
    node: &mut ServingNode,
    alloc: Global,
    link: usize,
    setup: LinkSetup,
    most: Rights,
) -> Result<(), LinkFault>
    requires link { link < length node.old.ports }
    requires alone { (other : ℕ) (p : PortValue) → HasPort other node.old p
        → p.link.setup.local ≡ setup.local → other ≡ link }
    ensures ok { OnOk result (BeganOn link setup most node.old node.new) }
    ensures setup { OnOk result (IsSetup setup) }
    ensures err { IfErr result (λ f. (node.new ≡ node.old) × SetupFault setup f) }
{
    node.begin(alloc, link, setup, most)
}

/// Begins a link with this setup and these rights, which the line concerns then. No other link has its local address.
fn begin_on(
    node: &mut Node,
    link: usize,
    setup: LinkSetup,
    most: Rights,
    text: &mut Vec<u8>,
) -> Result<Became, AllocError>
    requires link { link < length node.old.node.ports }
    requires alone { (other : ℕ) (p : PortValue) → HasPort other node.old.node p
        → p.link.setup.local ≡ setup.local → other ≡ link }
    requires text { text.old.items ≡ [] }
    ensures ok { IfOk result (BeginsOn link setup most node.old node.new text.new.items) }
    ensures err { OnErr result (node.new ≡ node.old) }
{
    match begin(&mut node.node, node.alloc, link, setup, most) {
        Ok(()) => {
            node.last = Some(link);
            node.used.set(link, false);
            Ok(Became::Done)
        }
        Err(fault) => push_link_refusal(text, fault),
    }
}

/// Says why no link is added where all are there.
fn refuse_link(setup: LinkSetup, text: &mut Vec<u8>) -> Result<Became, AllocError>
    requires { text.old.items ≡ [] }
    ensures { IfOk result (λ became. (said : LineAnswer) × NoLink setup said
        × (text.new.items ≡ said.0) × (became ≡ said.1)) }
{
    if is_setup(&setup) {
        push_refused(text, "no-links")?;
        Ok(Became::Done)
    } else {
        push_link_refusal(text, LinkFault::BadSetup)
    }
}

/// Returns the rights of a link that begins so, where it has these or they are usual.
fn rights_beside(most: Rights, between: Between) -> Rights
    ensures { result ≡ most_beside most between }
{
    between.rights.unwrap_or(most)
}

/// Returns the rights of a link that begins anew: those that it had, or those with which it begins so.
fn rights_anew(most: Rights, anew: Option<Between>) -> Rights
    ensures { result ≡ most_anew most anew }
{
    match anew {
        None => most,
        Some(between) => rights_beside(most, between),
    }
}

/// Adds a link with this setup and these rights, whose local address no link has.
fn add_link(
    node: &mut Node,
    setup: LinkSetup,
    most: Rights,
    text: &mut Vec<u8>,
) -> Result<Became, AllocError>
    requires unused { (other : ℕ) (p : PortValue) → HasPort other node.old.node p
        → p.link.setup.local ≡ setup.local → ⊥ }
    requires text { text.old.items ≡ [] }
    ensures ok { IfOk result (AddsLink setup most node.old node.new text.new.items) }
    ensures err { OnErr result (node.new ≡ node.old) }
{
    match node.node.find_free() {
        Some(link) => begin_on(node, link, setup, most, text),
        None => refuse_link(setup, text),
    }
}

/// Renews a link: what isn't named is as before. No other link has the local address that it has then.
fn renew_on(
    node: &mut Node,
    link: usize,
    anew: Option<Between>,
    text: &mut Vec<u8>,
) -> Result<Became, AllocError>
    requires there { (p : PortValue) × HasPort link node.old.node p }
    requires within { link < length node.old.node.ports }
    requires alone { (mine other : PortValue) (at : ℕ) → HasPort link node.old.node mine
        → HasPort at node.old.node other
        → other.link.setup.local ≡ (setup_anew mine.link.setup anew).local → at ≡ link }
    requires text { text.old.items ≡ [] }
    ensures ok { IfOk result (RenewsOn link anew node.old node.new text.new.items) }
    ensures err { OnErr result (node.new ≡ about link node.old) }
{
    node.last = Some(link);
    let setup = set_up_anew(link_of(&node.node, link).setup(), anew);
    let most = rights_anew(node.node.rights(link), anew);
    begin_on(node, link, setup, most, text)
}

/// Renews the only link.
fn renew_one(
    node: &mut Node,
    anew: Option<Between>,
    text: &mut Vec<u8>,
) -> Result<Became, AllocError>
    requires { text.old.items ≡ [] }
    ensures ok { IfOk result (NodeDoes node.old (NodeOrder.Renew anew) node.new text.new.items) }
    ensures err { OnErr result (IsNotDone node.old (NodeOrder.Renew anew) node.new) }
{
    match find_one(&node.node) {
        Some(link) => renew_on(node, link, anew, text),
        None => push_link_refusal(text, LinkFault::WrongLink),
    }
}

/// Renews the link that has this local address, or adds one.
fn renew(node: &mut Node, between: Between, text: &mut Vec<u8>) -> Result<Became, AllocError>
    requires { text.old.items ≡ [] }
    ensures ok { IfOk result (NodeDoes node.old (NodeOrder.New between) node.new text.new.items) }
    ensures err { OnErr result (IsNotDone node.old (NodeOrder.New between) node.new) }
{
    match find_local(&node.node, between.local) {
        Some(link) => renew_on(node, link, Some(between), text),
        None => add_link(
            node,
            set_up_beside(node.usual, between),
            rights_beside(ALL_RIGHTS, between),
            text,
        ),
    }
}

/// Returns whether some link is used.
fn is_in_use(node: &Node) -> bool
    ensures { result ≡ is_used node.now }
{
    node.used.any()
}

/// Adds a file as it is asked for, to which the next records belong then.
fn add_new(
    node: &mut Node,
    name: Octets,
    asked: Asked,
    text: &mut Vec<u8>,
) -> Result<Became, AllocError>
    requires idle { is_used node.old ≡ false }
    requires asked { IsAsked asked }
    requires text { text.old.items ≡ [] }
    ensures ok { IfOk result (AddsNewTo node.old name asked node.new text.new.items) }
    ensures err { OnErr result (node.new ≡ node.old) }
{
    match node.node.add(&name.0, asked) {
        Ok(()) => {
            node.given = Some(name);
            Ok(Became::Done)
        }
        Err(fault) => push_add_refusal(text, fault),
    }
}

/// Adds a file as it is asked for; where it is refused, no file takes the next records.
fn add_asked(
    node: &mut Node,
    name: &Text<'_>,
    asked: Asked,
    text: &mut Vec<u8>,
) -> Result<Became, AllocError>
    requires asked { IsAsked asked }
    requires text { text.old.items ≡ [] }
    ensures ok { IfOk result
        (AddsAsked node.old name.now (Ok asked) node.new text.new.items) }
    ensures err { OnErr result (node.new ≡ node_without_file node.old) }
{
    node.given = None;
    if is_in_use(node) {
        return push_add_refusal(text, AddFault::Busy);
    }
    let name = Octets(name.to_vec(node.alloc)?);
    add_new(node, name, asked, text)
}

/// Adds the file of a line; where it is refused, no file takes the next records. A line that says something is kept
/// which isn't is no line.
fn add_file(node: &mut Node, file: &FileLine<'_>, text: &mut Vec<u8>) -> Result<Became, AllocError>
    requires { text.old.items ≡ [] }
    ensures ok { IfOk result (AddsFileTo node.old file.now node.new text.new.items) }
    ensures err { OnErr result (node.new ≡ node_without_file node.old) }
{
    match file.asked(node.alloc) {
        Ok(asked) => add_asked(node, &file.name, asked, text),
        Err(FileFault::BadKept) => Ok(Became::BadLine),
        Err(FileFault::BadAttributes) => {
            node.given = None;
            push_status(text, ACCESS_REFUSED, REASON_BAD_ATTRIBUTES)?;
            Ok(Became::Done)
        }
        Err(FileFault::NoMemory) => {
            node.given = None;
            Err(AllocError)
        }
    }
}

/// Adds a record to the file of this name, if there is one.
fn add_body(
    node: &mut ServingNode,
    given: &Option<Octets>,
    number: u32,
    body: &[u8],
) -> Result<(), AddFault>
    ensures ok { OnOk result (GivesRecordBy given.now number body.now
        node.old node.new) }
    ensures err { IfErr result (λ f. (node.new ≡ node.old)
        × RecordNotBy given.now node.old number body.now f) }
{
    match given {
        None => Err(AddFault::NoFile),
        Some(name) => node.add_record(&name.0, number, body),
    }
}

/// Adds a record to the file of the last `file` line.
fn add_record(
    node: &mut Node,
    line: &RecordLine<'_>,
    text: &mut Vec<u8>,
) -> Result<Became, AllocError>
    requires { text.old.items ≡ [] }
    ensures ok { IfOk result (AddsRecordTo node.old line.now node.new text.new.items) }
    ensures err { OnErr result (node.new ≡ node.old) }
{
    if is_in_use(node) {
        return push_add_refusal(text, AddFault::Busy);
    }
    let body = line.body.to_vec(node.alloc)?;
    match add_body(&mut node.node, &node.given, line.number, &body) {
        Ok(()) => Ok(Became::Done),
        Err(fault) => push_add_refusal(text, fault),
    }
}

/// Returns whether two names may find one file: with versions, whichever they ask for.
fn may_be_one(names: Names, one: &[u8], other: &[u8]) -> bool
    ensures { result ≡ may_be_one names one.now other.now }
{
    match names {
        Names::Exact => one == other,
        Names::Folded | Names::Versions(_) => is_alike(one, other),
    }
}

/// Forgets the given name where this name was dropped and may be that one.
fn forget_given(given: &mut Option<Octets>, names: Names, name: &[u8])
    ensures { given.new ≡ given_beside names name.now given.old }
{
    let is_dropped = match given {
        None => false,
        Some(last) => may_be_one(names, name, &last.0),
    };
    if is_dropped {
        *given = None;
    }
}

/// Drops the file of a name.
fn drop_file(node: &mut Node, digits: &Text<'_>, text: &mut Vec<u8>) -> Result<Became, AllocError>
    requires { text.old.items ≡ [] }
    ensures ok { IfOk result (DropsFile node.old digits.now node.new text.new.items) }
    ensures err { OnErr result (node.new ≡ node.old) }
{
    let name = digits.to_vec(node.alloc)?;
    match node.node.remove(&name) {
        Ok(()) => {
            forget_given(&mut node.given, node.own.names, &name);
            Ok(Became::Done)
        }
        Err(fault) => push_remove_refusal(text, fault),
    }
}

/// Does what a line says. The files are listed line by line.
fn act(
    node: &mut Node,
    order: NodeOrder<'_>,
    text: &mut Vec<u8>,
) -> Result<Answer<FilesCursor>, AllocError>
    requires { text.old.items ≡ [] }
    ensures ok { IfOk result (BeginsAnswer NodeDoes pieces node.old order.entry
        node.new text.new.items) }
    ensures err { OnErr result (NodeReaches node.old order.entry node.new) }
    ensures refused { OnErr result (MayWantMemory node.old order.entry) }
{
    match order {
        NodeOrder::Packet(digits) => Ok(Answer::Whole(take_packet(node, &digits, text)?)),
        NodeOrder::Resend(local) => Ok(Answer::Whole(resend(node, local, text)?)),
        NodeOrder::Ack(local) => Ok(Answer::Whole(ack(node, local, text)?)),
        NodeOrder::Close(local) => Ok(Answer::Whole(close(node, local, text)?)),
        NodeOrder::Renew(anew) => Ok(Answer::Whole(renew_one(node, anew, text)?)),
        NodeOrder::New(between) => Ok(Answer::Whole(renew(node, between, text)?)),
        NodeOrder::Files => Ok(Answer::Begun(FilesCursor::File(0))),
        NodeOrder::File(file) => Ok(Answer::Whole(add_file(node, &file, text)?)),
        NodeOrder::Record(record) => Ok(Answer::Whole(add_record(node, &record, text)?)),
        NodeOrder::Drop(name) => Ok(Answer::Whole(drop_file(node, &name, text)?)),
    }
}

/// Answers an order.
fn answer_one(node: &mut Node, order: NodeOrder<'_>, text: &mut Vec<u8>) -> Answer<FilesCursor>
    requires { text.old.items ≡ [] }
    ensures { BeginsAnswer DoesNodeOrder pieces node.old (Some order.entry)
        node.new text.new.items result }
{
    match act(node, order, text) {
        Ok(answer) => answer,
        Err(_) => {
            text.clear();
            Answer::Whole(Became::NoMemory)
        }
    }
}

/// Answers what a line says, which concerns the only link so far, or none.
fn answer_order(
    node: &mut Node,
    order: Option<NodeOrder<'_>>,
    text: &mut Vec<u8>,
) -> Answer<FilesCursor>
    requires { text.old.items ≡ [] }
    ensures { BeginsAnswer DoesNodeOrder pieces (before_line node.old) order.entry
        node.new text.new.items result }
{
    node.last = find_one(&node.node);
    match order {
        Some(order) => answer_one(node, order, text),
        None => Answer::Whole(Became::BadLine),
    }
}

/// Returns whether there is room for one link alone.
fn is_for_one(node: &ServingNode) -> bool
    ensures { result ≡ is_alone node.now }
{
    node.links() == 1
}

/// Returns what the link waits for that the last line concerns.
fn waits_on(node: &ServingNode, last: Option<usize>, most_waiting: u64) -> usize
    ensures { result ≡ waits_by most_waiting last node.now }
{
    let Some(link) = last else {
        return 0;
    };
    match node.link(link) {
        Some(end) => waits(end, is_work_left(node, link, most_waiting)),
        None => 0,
    }
}

impl Answers for Node {
    ghost use Rattle.dap_live.specs.Node.{answered, pieces, waiting};

    type Cursor = FilesCursor;

    ghost answered = { answered };

    ghost waiting = { waiting };

    ghost pieces = { pieces };

    fn answer(&mut self, line: &[u8], text: &mut Vec<u8>) -> Answer<FilesCursor> {
        let order = read_node_order(is_for_one(&self.node), line);
        answer_order(self, order, text)
    }

    fn miss(&mut self) {
        self.last = find_one(&self.node);
    }

    fn more(
        &self,
        cursor: FilesCursor,
        text: &mut Vec<u8>,
    ) -> Result<Option<FilesCursor>, AllocError> {
        push_files_line(text, self.node.files(), cursor)
    }

    fn waits(&self) -> Option<usize> {
        Some(waits_on(&self.node, self.last, self.most_waiting))
    }
}
