//! The nodes of a packet, as text.

ghost use Rattle.std.specs.Prelude.{◌≡◌, ◌++◌, OnOk};
ghost use Rattle.texts.specs.Adding.{Adds, StillBegins};
ghost use Rattle.decnet_frames.specs.Nodes.{node_text, nodes_text, pair_text};

use std::alloc::AllocError;
use texts::{push_number, push_str};

/// The nodes that sent and receive a packet: each an area in the upper six bits, and a number in it.
#[derive(Clone, Copy, Debug, PartialEq, Eq, Hash)]
pub struct Nodes {
    pub source: u16,
    pub destination: u16,
}

/// Appends a node's address after a word: its area, a point, and its number there.
#[tactic(auto, unfolding(texts::specs::Adding::StillBegins))]
fn push_node(text: &mut Vec<u8>, word: &str, node: u16) -> Result<(), AllocError>
    ensures added { OnOk result (Adds text.old text.new (word.now ++ node_text node)) }
    ensures kept { StillBegins text.old text.new }
{
    push_number(text, word, node / 1024)?;
    push_number(text, ".", node % 1024)
}

/// Appends `A.N -> A.N`, the sender first. Where memory is refused a prefix of it may be there.
#[tactic(auto, unfolding(texts::specs::Adding::StillBegins))]
pub fn push_pair(text: &mut Vec<u8>, nodes: Nodes) -> Result<(), AllocError>
    ensures added { OnOk result (Adds text.old text.new (pair_text nodes)) }
    ensures kept { StillBegins text.old text.new }
{
    push_node(text, "", nodes.source)?;
    push_node(text, " -> ", nodes.destination)
}

/// Appends `A.N -> A.N ` with the space after it, the sender first; nothing where the nodes aren't known. Where memory
/// is refused a prefix of it may be there.
#[tactic(auto, unfolding(texts::specs::Adding::StillBegins))]
pub fn push_nodes(text: &mut Vec<u8>, nodes: Option<Nodes>) -> Result<(), AllocError>
    ensures added { OnOk result (Adds text.old text.new (nodes_text nodes)) }
    ensures kept { StillBegins text.old text.new }
{
    let Some(nodes) = nodes else {
        return Ok(());
    };
    push_pair(text, nodes)?;
    push_str(text, " ")
}
