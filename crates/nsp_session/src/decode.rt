//! Bytes to connect data.

ghost use Rattle.std.specs.Prelude.{◌≡◌, Ok, Err, IfOk, IfErr};
ghost use Rattle.nsp_session.specs.Sessions.{SpellsSession};
ghost use Rattle.nsp_session.specs.Faults.{HasSessionFault};
ghost use Rattle.nsp_session.specs.declared.session.SessionFault.{SessionFault as FaultValue};
ghost use Rattle.nsp_session.specs.declared.session.Session.{Session as SessionValue};
ghost use Rattle.std.specs.Result.{result_ok};
ghost use Rattle.nsp_session.specs.Reading.{session_in, ReadsSessionAs, read_session_byte, read_session_word, read_image, read_named, read_grouped, read_name, read_access, read_access_if, read_data_if, read_session};

use crate::session::{
    Access, BY_GROUP, BY_NAME, BY_NUMBER, EndName, GroupedName, MAX_ACCESS, MAX_DATA, MAX_GROUPED,
    MAX_NAME, NamedEnd, Session, SessionFault,
};
use byteorder::{ByteOrder, LittleEndian};
use nsp_seg::Payload;

/// Returns the byte that the bytes begin with, and what follows it.
fn take_byte(bytes: &[u8]) -> Result<(u8, &[u8]), SessionFault>
    ensures { ReadsSessionAs (λ x. (x.0, x.1.now)) result (read_session_byte bytes.now) }
{
    match bytes {
        [] => Err(SessionFault::Truncated(0)),
        [first, rest @ ..] => Ok((*first, rest)),
    }
}

/// Returns the two-byte number that the bytes begin with, and what follows it.
fn take_word(bytes: &[u8]) -> Result<(u16, &[u8]), SessionFault>
    ensures { ReadsSessionAs (λ x. (x.0, x.1.now)) result (read_session_word bytes.now) }
{
    match bytes {
        [] => Err(SessionFault::Truncated(0)),
        [_] => Err(SessionFault::Truncated(1)),
        [_, _, rest @ ..] => Ok((LittleEndian::read_u16(bytes), rest)),
    }
}

/// Returns the image that the bytes begin with, of at most `most` bytes, and what follows it.
#[tactic(auto, unfolding(crate::specs::Reading::read_image))]
fn take_image(most: u8, bytes: &[u8]) -> Result<(&[u8], &[u8]), SessionFault>
    ensures { ReadsSessionAs (λ x. (x.0.now, x.1.now)) result (read_image most bytes.now) }
{
    let (count, rest) = take_byte(bytes)?;
    if most < count {
        return Err(SessionFault::TooLong(bytes.len()));
    }
    let count = usize::from(count);
    if rest.len() < count {
        return Err(SessionFault::Truncated(rest.len()));
    }
    Ok(rest.split_at(count))
}

/// Returns the name of FORMAT 1 whose image the bytes begin with, and what follows it.
#[tactic(auto, unfolding(crate::specs::Reading::read_named))]
fn take_named(object: u8, bytes: &[u8]) -> Result<(EndName<'_>, &[u8]), SessionFault>
    ensures { ReadsSessionAs (λ x. (x.0, x.1.now)) result (read_named object bytes.now) }
{
    let (name, rest) = match take_image(MAX_NAME, bytes) {
        Ok(image) => image,
        Err(fault) => return Err(fault),
    };
    let named = NamedEnd {
        object,
        name: Payload(name),
    };
    Ok((EndName::Named(named), rest))
}

/// Returns the name of FORMAT 2 whose group the bytes begin with, and what follows it.
#[tactic(auto, unfolding(crate::specs::Reading::read_grouped))]
fn take_grouped(object: u8, bytes: &[u8]) -> Result<(EndName<'_>, &[u8]), SessionFault>
    ensures { ReadsSessionAs (λ x. (x.0, x.1.now)) result (read_grouped object bytes.now) }
{
    let (group, rest) = take_word(bytes)?;
    let (user, rest) = take_word(rest)?;
    let (name, rest) = match take_image(MAX_GROUPED, rest) {
        Ok(image) => image,
        Err(fault) => return Err(fault),
    };
    let grouped = GroupedName {
        object,
        group,
        user,
        name: Payload(name),
    };
    Ok((EndName::Grouped(grouped), rest))
}

/// Returns the name that the bytes begin with, and what follows it.
#[tactic(auto, unfolding(crate::specs::Reading::read_name))]
fn take_name(bytes: &[u8]) -> Result<(EndName<'_>, &[u8]), SessionFault>
    ensures { ReadsSessionAs (λ x. (x.0, x.1.now)) result (read_name bytes.now) }
{
    let (form, rest) = take_byte(bytes)?;
    if BY_GROUP < form {
        return Err(SessionFault::BadForm(bytes.len()));
    }
    let (object, rest) = take_byte(rest)?;
    if form == BY_NUMBER {
        return Ok((EndName::Number(object), rest));
    }
    if form == BY_NAME {
        return take_named(object, rest);
    }
    take_grouped(object, rest)
}

/// Returns RQSTRID, PASSWRD and ACCOUNT, with which the bytes begin, and what follows them.
#[tactic(auto, unfolding(crate::specs::Reading::read_access))]
fn take_access(bytes: &[u8]) -> Result<(Access<'_>, &[u8]), SessionFault>
    ensures { ReadsSessionAs (λ x. (x.0, x.1.now)) result (read_access bytes.now) }
{
    let (user, rest) = take_image(MAX_ACCESS, bytes)?;
    let (password, rest) = take_image(MAX_ACCESS, rest)?;
    let (account, rest) = take_image(MAX_ACCESS, rest)?;
    let access = Access {
        user: Payload(user),
        password: Payload(password),
        account: Payload(account),
    };
    Ok((access, rest))
}

/// The same where they are there.
#[tactic(auto, unfolding(crate::specs::Reading::read_access_if))]
fn take_access_if(has: bool, bytes: &[u8]) -> Result<(Option<Access<'_>>, &[u8]), SessionFault>
    ensures { ReadsSessionAs (λ x. (x.0, x.1.now)) result (read_access_if has bytes.now) }
{
    if !has {
        return Ok((None, bytes));
    }
    match take_access(bytes) {
        Ok((access, rest)) => Ok((Some(access), rest)),
        Err(fault) => Err(fault),
    }
}

/// Returns USRDATA where it is there, and what follows it.
#[tactic(auto, unfolding(crate::specs::Reading::read_data_if))]
fn take_data_if(has: bool, bytes: &[u8]) -> Result<(Option<Payload<'_>>, &[u8]), SessionFault>
    ensures { ReadsSessionAs (λ x. (x.0, x.1.now)) result (read_data_if has bytes.now) }
{
    if !has {
        return Ok((None, bytes));
    }
    match take_image(MAX_DATA, bytes) {
        Ok((image, rest)) => Ok((Some(Payload(image)), rest)),
        Err(fault) => Err(fault),
    }
}

/// Reads the connect data that the bytes spell, or their fault.
#[tactic(auto, unfolding(crate::specs::Reading::read_session))]
fn session(bytes: &[u8]) -> Result<Session<'_>, SessionFault>
    ensures { result ≡ read_session bytes.now }
{
    let (dst, rest) = take_name(bytes)?;
    let (src, rest) = take_name(rest)?;
    let (menu, rest) = take_byte(rest)?;
    let (access, rest) = take_access_if(menu % 2 == 1, rest)?;
    let (user_data, rest) = take_data_if(menu / 2 % 2 == 1, rest)?;
    Ok(Session {
        dst,
        src,
        version: menu / 4,
        access,
        user_data,
        rest: Payload(rest),
    })
}

/// Returns the connect data that the bytes, all of them, spell (Session Control 1.0.0, connect data); its images are
/// parts of them. It takes no memory. Bytes that spell none have one fault, the first from the left, and that one is
/// reported: a field that is missing or not whole, a FORMAT above 2, or a count byte above the most that its image may
/// have. FORMAT and a count byte are looked at before what follows them. Bytes after the last field are no fault.
pub fn decode_session(bytes: &[u8]) -> Result<Session<'_>, SessionFault>
    // What is spelled is read, and what is read is spelled.
    ensures only { (s : SessionValue) → SpellsSession s bytes.now → result ≡ Ok s }
    ensures found { IfOk result (λ s. SpellsSession s bytes.now) }
    ensures read { result_ok result ≡ session_in bytes.now }
    // A fault of the bytes is reported, and what is reported is a fault of the bytes.
    ensures fault_found { (f : FaultValue) → HasSessionFault f bytes.now → result ≡ Err f }
    ensures fault { IfErr result (λ f. HasSessionFault f bytes.now) }
{
    session(bytes)
}
