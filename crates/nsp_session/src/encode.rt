//! Connect data to bytes.

ghost use Rattle.std.specs.Prelude.{◌≡◌, ◌+◌, ◌≤◌, ◌++◌, length, vec_len, vec_capacity, IfSome, OnOk, OnErr, IsOk};
ghost use Rattle.byteorder.specs.Endian.{little_bytes};
ghost use Rattle.nsp_session.specs.Sessions.{image, name_spelling, access_spelling, data_spelling, menu_of, session_spelling, NameFits, AccessFits, SessionFits, max_data};

use crate::session::{Access, BY_GROUP, BY_NAME, BY_NUMBER, EndName, Session};
use byteorder::{ByteOrder, LittleEndian};
use nsp_seg::Payload;
use std::alloc::AllocError;

/// Appends a two-byte number, for which there is room.
fn put_word(out: &mut Vec<u8>, word: u16)
    requires { vec_len out.old + 2 ≤ vec_capacity out.old }
    ensures items { out.new.items ≡ out.old.items ++ little_bytes 2 word }
    ensures len { vec_len out.new ≡ vec_len out.old + 2 }
    ensures capacity { vec_capacity out.new ≡ vec_capacity out.old }
{
    let mut bytes = [0u8; 2];
    LittleEndian::write_u16(&mut bytes, word);
    out.push_reserved(bytes[0]);
    out.push_reserved(bytes[1]);
}

/// Appends an image, for which there is room: its count byte and its bytes.
fn put_image(out: &mut Vec<u8>, bytes: &[u8])
    requires short { length bytes.now ≤ 255 }
    requires room { vec_len out.old + length (image bytes.now) ≤ vec_capacity out.old }
    ensures items { out.new.items ≡ out.old.items ++ image bytes.now }
    ensures len { vec_len out.new ≡ vec_len out.old + length (image bytes.now) }
    ensures capacity { vec_capacity out.old ≤ vec_capacity out.new }
{
    out.push_reserved(bytes.len() as u8);
    out.extend_from_slice(bytes).unwrap();
}

/// Appends a name, for which there is room.
fn put_name(out: &mut Vec<u8>, name: &EndName<'_>)
    requires fits { NameFits name.now }
    requires room { vec_len out.old + length (name_spelling name.now) ≤ vec_capacity out.old }
    ensures items { out.new.items ≡ out.old.items ++ name_spelling name.now }
    ensures len { vec_len out.new ≡ vec_len out.old + length (name_spelling name.now) }
    ensures capacity { vec_capacity out.old ≤ vec_capacity out.new }
{
    match name {
        EndName::Number(object) => {
            out.push_reserved(BY_NUMBER);
            out.push_reserved(*object);
        }
        EndName::Named(named) => {
            out.push_reserved(BY_NAME);
            out.push_reserved(named.object);
            put_image(out, named.name.0);
        }
        EndName::Grouped(grouped) => {
            out.push_reserved(BY_GROUP);
            out.push_reserved(grouped.object);
            put_word(out, grouped.group);
            put_word(out, grouped.user);
            put_image(out, grouped.name.0);
        }
    }
}

/// Appends RQSTRID, PASSWRD and ACCOUNT where they are there, for which there is room.
fn put_access(out: &mut Vec<u8>, access: &Option<Access<'_>>)
    requires fits { IfSome access.now AccessFits }
    requires room { vec_len out.old + length (access_spelling access.now) ≤ vec_capacity out.old }
    ensures items { out.new.items ≡ out.old.items ++ access_spelling access.now }
    ensures len { vec_len out.new ≡ vec_len out.old + length (access_spelling access.now) }
    ensures capacity { vec_capacity out.old ≤ vec_capacity out.new }
{
    if let Some(access) = access {
        put_image(out, access.user.0);
        put_image(out, access.password.0);
        put_image(out, access.account.0);
    }
}

/// Appends USRDATA where it is there, for which there is room.
fn put_data(out: &mut Vec<u8>, user_data: &Option<Payload<'_>>)
    requires fits { IfSome user_data.now (λ d. length d ≤ max_data) }
    requires room { vec_len out.old + length (data_spelling user_data.now) ≤ vec_capacity out.old }
    ensures items { out.new.items ≡ out.old.items ++ data_spelling user_data.now }
    ensures len { vec_len out.new ≡ vec_len out.old + length (data_spelling user_data.now) }
    ensures capacity { vec_capacity out.old ≤ vec_capacity out.new }
{
    if let Some(image) = user_data {
        put_image(out, image.0);
    }
}

/// Returns MENUVER.
fn menu(session: &Session<'_>) -> u8
    requires { SessionFits session.now }
    ensures { result ≡ menu_of session.now }
{
    let data = if session.user_data.is_some() { 2 } else { 0 };
    let access = if session.access.is_some() { 1 } else { 0 };
    4 * session.version + data + access
}

/// Returns how many bytes a name has.
fn name_len(name: &EndName<'_>) -> usize
    requires { NameFits name.now }
    ensures value { result ≡ length (name_spelling name.now) }
    ensures small { result ≤ 19 }
{
    match name {
        EndName::Number(_) => 2,
        EndName::Named(named) => 3 + named.name.0.len(),
        EndName::Grouped(grouped) => 7 + grouped.name.0.len(),
    }
}

/// Returns how many bytes RQSTRID, PASSWRD and ACCOUNT have, 0 where they aren't there.
fn access_len(access: &Option<Access<'_>>) -> usize
    requires { IfSome access.now AccessFits }
    ensures value { result ≡ length (access_spelling access.now) }
    ensures small { result ≤ 120 }
{
    match access {
        None => 0,
        Some(access) => {
            3 + access.user.0.len() + access.password.0.len() + access.account.0.len()
        }
    }
}

/// Returns how many bytes USRDATA has, 0 where it isn't there.
fn data_len(user_data: &Option<Payload<'_>>) -> usize
    requires { IfSome user_data.now (λ d. length d ≤ max_data) }
    ensures value { result ≡ length (data_spelling user_data.now) }
    ensures small { result ≤ 17 }
{
    match user_data {
        None => 0,
        Some(image) => 1 + image.0.len(),
    }
}

/// Returns how many bytes connect data have.
fn session_len(session: &Session<'_>) -> usize
    requires { SessionFits session.now }
    ensures { result ≡ length (session_spelling session.now) }
{
    let names = name_len(&session.dst) + name_len(&session.src);
    let access = access_len(&session.access);
    let data = data_len(&session.user_data);
    names + 1 + access + data + session.rest.0.len()
}

/// Appends connect data, for which there is room.
fn put_session(out: &mut Vec<u8>, session: &Session<'_>)
    requires fits { SessionFits session.now }
    requires room { vec_len out.old + length (session_spelling session.now) ≤ vec_capacity out.old }
    ensures items { out.new.items ≡ out.old.items ++ session_spelling session.now }
    ensures capacity { vec_capacity out.old ≤ vec_capacity out.new }
{
    put_name(out, &session.dst);
    put_name(out, &session.src);
    out.push_reserved(menu(session));
    put_access(out, &session.access);
    put_data(out, &session.user_data);
    out.extend_from_slice(session.rest.0).unwrap();
}

/// Appends the bytes of connect data (Session Control 1.0.0, connect data): DSTNAME, SRCNAME, MENUVER, and what MENUVER
/// announces, then `rest`. The caller sees to it that `version` is below 64, that a name has at most 16 bytes, or 12
/// beside a group, each of RQSTRID, PASSWRD and ACCOUNT at most 39, and USRDATA at most 16. It fails only if memory is
/// refused, which leaves `out` as it was, and never where `out` has the room already.
pub fn encode_session(session: &Session<'_>, out: &mut Vec<u8>) -> Result<(), AllocError>
    requires { SessionFits session.now }
    ensures ok { OnOk result (out.new.items ≡ out.old.items ++ session_spelling session.now) }
    ensures err { OnErr result (out.new.items ≡ out.old.items) }
    ensures room { vec_len out.old + length (session_spelling session.now) ≤ vec_capacity out.old
        → IsOk result }
    ensures capacity { vec_capacity out.old ≤ vec_capacity out.new }
{
    out.reserve(session_len(session))?;
    put_session(out, session);
    Ok(())
}
