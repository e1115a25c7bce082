//! The request that words say.

ghost use Rattle.std.specs.Prelude.{◌≡◌};
ghost use Rattle.dap_accessing.specs.declared.request.Request.TheVariants as request;
ghost use Rattle.dap_text.specs.Requests.{request_of};
ghost use Rattle.dap_text.specs.Inner.Requests.{continue_of, get_of, put_of};
ghost use Rattle.texts.specs.Words.{decimal_of, ends, field, long, short, text_of};

use crate::words::{Text, Texts, next_text, read_text, read_texts};
use dap_accessing::{By, How, Octets, OctetsList, RequestOf};
use texts::{Words, is};

/// A request whose names and bodies are still the digits of a line. Contracts see the request.
pub type RequestText<'a> = RequestOf<Octets<Text<'a>>, OctetsList<Texts<'a>>>;

/// The maximum of FAC, with every right.
pub const MAX_FAC: u32 = 15;

/// Returns the request, where no word follows.
fn read_plain<'a>(words: Words<'a>, request: RequestText<'a>) -> Option<RequestText<'a>>
    ensures { result ≡ ends request.entry words.entry }
{
    words.end()?;
    Some(request)
}

/// Reads `NAME ORG RFM MRS MRN FAC`.
#[tactic(auto, using(crate::proofs::RequestLemmas::ends_none))]
fn read_create<'a>(mut words: Words<'a>) -> Option<RequestText<'a>>
    ensures { result ≡ field text_of (λ name. field (decimal_of 255) (λ org.
        field (decimal_of 255) (λ rfm. field short (λ mrs. field long (λ mrn.
        field (decimal_of 15) (λ fac. ends (request.Create name org rfm mrs mrn fac)))))))
        words.entry }
{
    let name = Octets(next_text(&mut words)?);
    let org = words.number(255)? as u8;
    let rfm = words.number(255)? as u8;
    let mrs = words.short()?;
    let mrn = words.number(u32::MAX)?;
    let fac = words.number(MAX_FAC)?;
    words.end()?;
    Some(RequestText::Create {
        name,
        org,
        rfm,
        mrs,
        mrn,
        fac,
    })
}

/// Reads `NAME FAC`.
fn read_open<'a>(mut words: Words<'a>) -> Option<RequestText<'a>>
    ensures { result ≡ field text_of
        (λ name. field (decimal_of 15) (λ fac. ends (request.OpenFile name fac))) words.entry }
{
    let name = Octets(next_text(&mut words)?);
    let fac = words.number(MAX_FAC)?;
    words.end()?;
    Some(RequestText::OpenFile { name, fac })
}

/// Reads nothing, or `key N`, or `rfa N`.
fn read_get<'a>(mut words: Words<'a>) -> Option<RequestText<'a>>
    ensures { result ≡ get_of words.entry }
{
    let Some(word) = words.next() else {
        return Some(RequestText::Get(By::Next));
    };
    let by = match word {
        b"key" => By::Key(words.number(u32::MAX)?),
        b"rfa" => By::Rfa(words.number(u32::MAX)?),
        _ => return None,
    };
    words.end()?;
    Some(RequestText::Get(by))
}

/// Reads `BODY`, or `key N BODY`.
fn read_put<'a>(mut words: Words<'a>) -> Option<RequestText<'a>>
    ensures { result ≡ put_of words.entry }
{
    match words.next()? {
        b"key" => {
            let key = Some(words.number(u32::MAX)?);
            let body = Octets(next_text(&mut words)?);
            words.end()?;
            Some(RequestText::Put { key, body })
        }
        word => {
            let body = Octets(read_text(word)?);
            words.end()?;
            Some(RequestText::Put { key: None, body })
        }
    }
}

/// Reads `BODY`.
fn read_update<'a>(mut words: Words<'a>) -> Option<RequestText<'a>>
    ensures { result ≡ field text_of (λ body. ends (request.Update body)) words.entry }
{
    let body = Octets(next_text(&mut words)?);
    words.end()?;
    Some(RequestText::Update { body })
}

/// Reads `again`, `skip` or `abort`.
fn read_continue<'a>(mut words: Words<'a>) -> Option<RequestText<'a>>
    ensures { result ≡ continue_of words.entry }
{
    let how = match words.next()? {
        b"again" => How::Again,
        b"skip" => How::Skip,
        b"abort" => How::Abort,
        _ => return None,
    };
    words.end()?;
    Some(RequestText::Continue(how))
}

/// Returns the request that words say, as after `ask` in a schedule, or None where they say none.
pub fn read_request<'a>(mut words: Words<'a>) -> Option<RequestText<'a>>
    ensures { result ≡ request_of words.entry }
{
    match words.next()? {
        word if is(word, "hello") => read_plain(words, RequestText::Hello),
        word if is(word, "create") => read_create(words),
        word if is(word, "open") => read_open(words),
        word if is(word, "connect") => read_plain(words, RequestText::Connect),
        word if is(word, "get") => read_get(words),
        word if is(word, "put") => read_put(words),
        word if is(word, "update") => read_update(words),
        word if is(word, "delete") => read_plain(words, RequestText::Delete),
        word if is(word, "rewind") => read_plain(words, RequestText::Rewind),
        word if is(word, "fetch") => read_plain(words, RequestText::Fetch),
        word if is(word, "store") => Some(RequestText::Store(OctetsList(read_texts(words)?))),
        word if is(word, "continue") => read_continue(words),
        word if is(word, "close") => read_plain(words, RequestText::Close),
        word if is(word, "purge") => read_plain(words, RequestText::Purge),
        _ => None,
    }
}
