//! What connect data say (Session Control 1.0.0, connect data; from memory).

use nsp_seg::Payload;
use thiserror::Error;

/// FORMAT of a name that is an object's number.
pub(crate) const BY_NUMBER: u8 = 0;

/// FORMAT of a name that has an image.
pub(crate) const BY_NAME: u8 = 1;

/// FORMAT of a name that has a group, a user and an image.
pub(crate) const BY_GROUP: u8 = 2;

/// The most bytes of a name.
pub(crate) const MAX_NAME: u8 = 16;

/// The most bytes of a name beside a group.
pub(crate) const MAX_GROUPED: u8 = 12;

/// The most bytes of RQSTRID, of PASSWRD and of ACCOUNT.
pub(crate) const MAX_ACCESS: u8 = 39;

/// The most bytes of USRDATA.
pub(crate) const MAX_DATA: u8 = 16;

/// An end of a link by its name: FORMAT 1 of DSTNAME and SRCNAME.
#[derive(Drop, PartialEq)]
pub struct NamedEnd<'a> {
    /// The byte before the name, OBJTYPE.
    pub object: u8,
    /// The name, at most 16 bytes.
    pub name: Payload<'a>,
}

/// An end of a link by its group, user and name: FORMAT 2 of DSTNAME and SRCNAME.
#[derive(Drop, PartialEq)]
pub struct GroupedName<'a> {
    /// The byte before the group, OBJTYPE.
    pub object: u8,
    /// GRPCODE.
    pub group: u16,
    /// USRCODE.
    pub user: u16,
    /// The name, at most 12 bytes.
    pub name: Payload<'a>,
}

/// Who an end of a link is: DSTNAME or SRCNAME (Session Control 1.0.0, connect data).
#[derive(Drop, PartialEq)]
pub enum EndName<'a> {
    /// An object, by its number: FORMAT 0.
    Number(u8),
    /// A name: FORMAT 1.
    Named(NamedEnd<'a>),
    /// A group, a user and a name: FORMAT 2.
    Grouped(GroupedName<'a>),
}

/// Access control: each an image of at most 39 bytes (Session Control 1.0.0, connect data).
#[derive(Drop, PartialEq)]
pub struct Access<'a> {
    /// RQSTRID: who asks.
    pub user: Payload<'a>,
    /// PASSWRD.
    pub password: Payload<'a>,
    /// ACCOUNT.
    pub account: Payload<'a>,
}

/// What session control says in a connect initiate (Session Control 1.0.0, connect data). Two of them with the same bytes
/// are one value, wherever these lie.
#[derive(Drop, PartialEq)]
pub struct Session<'a> {
    /// DSTNAME: whom is asked.
    pub dst: EndName<'a>,
    /// SRCNAME: who asks.
    pub src: EndName<'a>,
    /// Bits 2 to 7 of MENUVER, as a number below 64, which means nothing here.
    pub version: u8,
    /// RQSTRID, PASSWRD and ACCOUNT, which are there where bit 0 of MENUVER is set.
    pub access: Option<Access<'a>>,
    /// USRDATA, at most 16 bytes, which is there where bit 1 of MENUVER is set.
    pub user_data: Option<Payload<'a>>,
    /// Bytes that follow, which mean nothing.
    pub rest: Payload<'a>,
}

/// Why bytes are no connect data. Fields have no fixed place: a number counts the bytes from the fault to the end.
#[derive(Clone, Copy, Debug, PartialEq, Eq, Error)]
pub enum SessionFault {
    /// A field is missing or not whole: this is how many bytes of it are there. The count byte of an image is a field, and
    /// the bytes after it are another.
    #[error("a field is missing or not whole, {0} bytes before the end")]
    Truncated(usize),
    /// A FORMAT is above 2; its byte is the first of those counted.
    #[error("a name of no form, {0} bytes before the end")]
    BadForm(usize),
    /// The count byte of an image is above the most that the image may have; it is the first of those counted.
    #[error("an image is too long, {0} bytes before the end")]
    TooLong(usize),
}
