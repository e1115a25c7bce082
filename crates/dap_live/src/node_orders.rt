//! What the lines of a server say.

ghost use Rattle.std.specs.Prelude.{◌≡◌, ◌∷◌};
ghost use Rattle.texts.specs.Words.{ends, one_of};
ghost use Rattle.dap_live.specs.NodeOrders.{address_alone, filing_forms, links_order_of, node_order_of, one_order_of, text_alone};

use crate::orders::{Between, read_address, read_anew, read_between, read_hex_alone};
use dap_text::{FileLine, RecordLine, Text, read_file_line, read_record_line, read_text};
use texts::{Words, is};

/// What a line says. The bytes of a packet and of a name are still digits. A line names a link by its local address;
/// where there is one link alone, it names none.
#[derive(Drop)]
pub enum NodeOrder<'a> {
    Packet(Text<'a>),
    Resend(Option<u16>),
    Ack(Option<u16>),
    Close(u16),
    /// The one link begins anew: as it was, or between these addresses.
    Renew(Option<Between>),
    /// A link between these addresses.
    New(Between),
    Files,
    File(FileLine<'a>),
    Record(RecordLine<'a>),
    /// The file of a name.
    Drop(Text<'a>),
}

/// Reads `LOCAL`, the address of a link, which is the last word of the line.
fn read_address_alone(mut words: Words<'_>) -> Option<u16>
    ensures { result ≡ address_alone words.entry }
{
    let local = read_address(words.next()?)?;
    words.end()?;
    Some(local)
}

/// Reads `NAME`.
fn read_text_alone<'a>(mut words: Words<'a>) -> Option<Text<'a>>
    ensures { result ≡ text_alone words.entry }
{
    let name = read_text(words.next()?)?;
    words.end()?;
    Some(name)
}

/// Returns the order of a line of one word, which was read; None where more words follow.
fn read_plain<'a>(words: Words<'a>, order: NodeOrder<'a>) -> Option<NodeOrder<'a>>
    ensures { result ≡ ends order.entry words.entry }
{
    words.end()?;
    Some(order)
}

/// Reads what a line says of files, with this word first.
fn read_filing<'a>(word: &'a [u8], words: Words<'a>, line: &'a [u8]) -> Option<NodeOrder<'a>>
    ensures { result ≡ one_of (filing_forms line.now) (word.now ∷ words.entry) }
{
    match word {
        word if is(word, "files") => read_plain(words, NodeOrder::Files),
        word if is(word, "file") => Some(NodeOrder::File(read_file_line(line)?)),
        word if is(word, "") => Some(NodeOrder::Record(read_record_line(line)?)),
        word if is(word, "drop") => Some(NodeOrder::Drop(read_text_alone(words)?)),
        _ => None,
    }
}

/// Reads what a line says where there is one link.
fn read_one_order(line: &[u8]) -> Option<NodeOrder<'_>>
    ensures { result ≡ one_order_of line.now }
{
    let mut words = Words::of(line);
    match words.next()? {
        word if is(word, ">") => Some(NodeOrder::Packet(read_hex_alone(words)?)),
        word if is(word, "resend") => read_plain(words, NodeOrder::Resend(None)),
        word if is(word, "ack") => read_plain(words, NodeOrder::Ack(None)),
        word if is(word, "new") => Some(NodeOrder::Renew(read_anew(words)?)),
        word => read_filing(word, words, line),
    }
}

/// Reads what a line says where there is room for several links.
fn read_links_order(line: &[u8]) -> Option<NodeOrder<'_>>
    ensures { result ≡ links_order_of line.now }
{
    let mut words = Words::of(line);
    match words.next()? {
        word if is(word, ">") => Some(NodeOrder::Packet(read_hex_alone(words)?)),
        word if is(word, "resend") => Some(NodeOrder::Resend(Some(read_address_alone(words)?))),
        word if is(word, "ack") => Some(NodeOrder::Ack(Some(read_address_alone(words)?))),
        word if is(word, "close") => Some(NodeOrder::Close(read_address_alone(words)?)),
        word if is(word, "new") => Some(NodeOrder::New(read_between(words)?)),
        word => read_filing(word, words, line),
    }
}

/// Reads what a line says, where there is one link alone or room for several.
pub(crate) fn read_node_order(alone: bool, line: &[u8]) -> Option<NodeOrder<'_>>
    ensures { result ≡ node_order_of alone line.now }
{
    if alone {
        read_one_order(line)
    } else {
        read_links_order(line)
    }
}
