//! The words of packets that set up and close links.

ghost use Rattle.std.specs.Prelude.{◌≡◌, []};
ghost use Rattle.std.specs.List.{flat_map};
ghost use Rattle.std.specs.Option.{option_map_or};
ghost use Rattle.nsp_control.specs.Reading.{control_in};
ghost use Rattle.nsp_session.specs.Reading.{session_in};
ghost use Rattle.link_words.specs.PacketWords.{led_by, called_words, end_words, ending_words, object_words, session_words, set_up_words, user_words};
ghost use Rattle.dap_meanings.specs.Words.{word_list};

use crate::tables;
use dap_meanings::{Word, are_printable};
use nsp_control::{Control, decode_control};
use nsp_session::{Access, EndName, decode_session};

/// Returns an object, after a word.
fn object_word(before: &'static str, object: u8) -> Word<'static>
    ensures { word_list result ≡ led_by before.now (object_words object) }
{
    match tables::object(object) {
        Some(name) => Word::Known(before, name),
        None => Word::Object(before, object),
    }
}

/// Returns an end that has a name, after a word.
fn called_word<'a>(before: &'static str, object: u8, name: &'a [u8]) -> Word<'a>
    ensures { word_list result ≡ led_by before.now (called_words object name.now) }
{
    if are_printable(name) {
        Word::Called(before, name)
    } else {
        object_word(before, object)
    }
}

/// Returns an end of a link, after a word.
fn end_word<'a>(before: &'static str, end: &EndName<'a>) -> Word<'a>
    ensures { word_list result ≡ led_by before.now (end_words end.now) }
{
    match end {
        EndName::Number(object) => object_word(before, *object),
        EndName::Named(named) => called_word(before, named.object, named.name.0),
        EndName::Grouped(grouped) => called_word(before, grouped.object, grouped.name.0),
    }
}

/// Returns the user, where one is named.
fn user_word<'a>(access: &Option<Access<'a>>) -> Word<'a>
    ensures { word_list result ≡ user_words access.now }
{
    match access {
        Some(access) if !access.user.0.is_empty() && are_printable(access.user.0) => {
            Word::Called("user ", access.user.0)
        }
        _ => Word::Nothing,
    }
}

/// Returns what connect data say: whom they ask for, who asks, and as which user; nothing where they can't be read.
fn session_words_of(body: &[u8]) -> [Word<'_>; 3]
    ensures { flat_map word_list result
        ≡ option_map_or session_words (session_in body.now) [] }
{
    match decode_session(body) {
        Ok(session) => {
            let to = end_word("to ", &session.dst);
            let from = end_word("from ", &session.src);
            [to, from, user_word(&session.access)]
        }
        Err(_) => [Word::Nothing; 3],
    }
}

/// Returns why a link is refused or closed.
fn ending_words_of<'a>(reason: u16) -> [Word<'a>; 3]
    ensures { flat_map word_list result ≡ ending_words reason }
{
    let word = tables::disconnect_reason(reason);
    [Word::Reason(reason), word, Word::Nothing]
}

/// Returns what a packet that sets up or closes a link says; nothing where it is another, or can't be read.
pub(crate) fn set_up_words_of(packet: &[u8]) -> [Word<'_>; 3]
    ensures { flat_map word_list result
        ≡ option_map_or set_up_words (control_in packet.now) [] }
{
    match decode_control(packet) {
        Ok(Control::Connect(connect)) => session_words_of(connect.body.0),
        Ok(Control::Disconnect(disconnect)) => ending_words_of(disconnect.reason),
        Ok(Control::DisconnectConfirm(closed)) => ending_words_of(closed.reason),
        _ => [Word::Nothing; 3],
    }
}
