//! What the lines of a client say.

ghost use Rattle.std.specs.Prelude.{◌≡◌, option_and_then};
ghost use Rattle.texts.specs.Words.{ends};
ghost use Rattle.dap_live.specs.Orders.{anew_of};
ghost use Rattle.dap_live.specs.AskOrders.{ask_order_of, asked_of, each_of, new_link_order, names_rights};

use crate::orders::{Between, read_anew, read_hex_alone};
use dap_text::{RequestText, Text, read_request};
use texts::{Words, is};

/// What a line says. Its bytes are still digits.
#[derive(Drop)]
pub enum AskOrder<'a> {
    Packet(Text<'a>),
    Resend,
    Ack,
    /// A new link between the addresses of the last one, or between these.
    New(Option<Between>),
    Ask(RequestText<'a>),
    /// A fetch of which each record is reported by itself.
    FetchEach,
}

/// Returns the order of a line of one word, which was read; None where more words follow.
fn read_plain<'a>(words: Words<'a>, order: AskOrder<'a>) -> Option<AskOrder<'a>>
    ensures { result ≡ ends order.entry words.entry }
{
    words.end()?;
    Some(order)
}

/// Returns whether rights are named.
fn names_rights(anew: Option<Between>) -> bool
    ensures { result ≡ names_rights anew }
{
    match anew {
        None => false,
        Some(between) => between.rights.is_some(),
    }
}

/// Reads a new link: a client gives nobody rights.
fn read_new<'a>(words: Words<'a>) -> Option<AskOrder<'a>>
    ensures { result ≡ option_and_then new_link_order (anew_of words.entry) }
{
    let anew = read_anew(words)?;
    if names_rights(anew) {
        None
    } else {
        Some(AskOrder::New(anew))
    }
}

/// Reads `fetch each`: a fetch that reports each record by itself.
fn read_each<'a>(mut words: Words<'a>) -> Option<AskOrder<'a>>
    ensures { result ≡ each_of words.entry }
{
    if !is(words.next()?, "fetch") {
        return None;
    }
    if !is(words.next()?, "each") {
        return None;
    }
    read_plain(words, AskOrder::FetchEach)
}

/// Reads a request, or `fetch each`.
fn read_asked<'a>(words: Words<'a>) -> Option<AskOrder<'a>>
    ensures { result ≡ asked_of words.entry }
{
    match read_each(words.again()) {
        Some(order) => Some(order),
        None => Some(AskOrder::Ask(read_request(words)?)),
    }
}

/// Reads what a line says.
pub(crate) fn read_ask_order(line: &[u8]) -> Option<AskOrder<'_>>
    ensures { result ≡ ask_order_of line.now }
{
    let mut words = Words::of(line);
    match words.next()? {
        word if is(word, ">") => Some(AskOrder::Packet(read_hex_alone(words)?)),
        word if is(word, "resend") => read_plain(words, AskOrder::Resend),
        word if is(word, "ack") => read_plain(words, AskOrder::Ack),
        word if is(word, "new") => read_new(words),
        word if is(word, "ask") => read_asked(words),
        _ => None,
    }
}
