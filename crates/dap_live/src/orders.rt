//! What lines of both live ends say of a link.

ghost use Rattle.std.specs.Prelude.{◌≡◌, Some};
ghost use Rattle.dap_live.specs.Orders.{address_of, anew_of, between_of, hex_alone, limits_from, rights_from, setup_anew, setup_beside};

use crate::rights::read_rights;
use dap_text::{Text, read_hex};
use nsp_link::LinkSetup;
use rec_file::Rights;
use texts::{Words, read_number};

/// How a link begins: between these addresses, the local one first. What isn't named is as before.
#[derive(Clone, Copy)]
pub struct Between {
    pub local: u16,
    pub remote: u16,
    /// The maximum number of bytes of a segment.
    pub segment: Option<u32>,
    /// The rights that an Access on it may ask for.
    pub rights: Option<Rights>,
}

/// Reads `HEX`.
pub(crate) fn read_hex_alone<'a>(mut words: Words<'a>) -> Option<Text<'a>>
    ensures { result ≡ hex_alone words.entry }
{
    let bytes = read_hex(words.next()?)?;
    words.end()?;
    Some(bytes)
}

/// Reads a link address: four hex digits of either case; or None.
pub fn read_address(word: &[u8]) -> Option<u16>
    ensures { result ≡ address_of word.now }
{
    let mut bytes = [0; 2];
    match hex::decode_to_slice(word, &mut bytes) {
        Ok(()) => Some(u16::from_be_bytes(bytes)),
        Err(_) => None,
    }
}

/// Reads nothing, or `RIGHTS`.
fn read_rights_after<'a>(
    local: u16,
    remote: u16,
    segment: u32,
    mut words: Words<'a>,
) -> Option<Between>
    ensures { result ≡ rights_from local remote segment words.entry }
{
    let segment = Some(segment);
    let Some(word) = words.next() else {
        return Some(Between {
            local,
            remote,
            segment,
            rights: None,
        });
    };
    let rights = Some(read_rights(word)?);
    words.end()?;
    Some(Between {
        local,
        remote,
        segment,
        rights,
    })
}

/// Reads nothing, or `SEGMENT`, or `SEGMENT RIGHTS`.
fn read_limits<'a>(local: u16, remote: u16, mut words: Words<'a>) -> Option<Between>
    ensures { result ≡ limits_from local remote words.entry }
{
    let Some(word) = words.next() else {
        return Some(Between {
            local,
            remote,
            segment: None,
            rights: None,
        });
    };
    let segment = read_number(word, u32::MAX)?;
    read_rights_after(local, remote, segment, words)
}

/// Reads `LOCAL REMOTE`, and what follows.
pub(crate) fn read_between<'a>(mut words: Words<'a>) -> Option<Between>
    ensures { result ≡ between_of words.entry }
{
    let local = read_address(words.next()?)?;
    let remote = read_address(words.next()?)?;
    read_limits(local, remote, words)
}

/// Reads nothing, or `LOCAL REMOTE` and what follows.
pub(crate) fn read_anew<'a>(words: Words<'a>) -> Option<Option<Between>>
    ensures { result ≡ anew_of words.entry }
{
    if words.end().is_some() {
        return Some(None);
    }
    Some(Some(read_between(words)?))
}

/// Returns how a link is set up that begins so, where one is set up so.
pub(crate) fn set_up_beside(setup: LinkSetup, between: Between) -> LinkSetup
    ensures { result ≡ setup_beside setup between }
{
    let seg_size = match between.segment {
        None => setup.seg_size,
        Some(segment) => segment as usize,
    };
    LinkSetup {
        local: between.local,
        remote: between.remote,
        seg_size,
        ..setup
    }
}

/// Returns how a link is set up that begins anew: as it was, or so.
pub(crate) fn set_up_anew(setup: LinkSetup, anew: Option<Between>) -> LinkSetup
    ensures { result ≡ setup_anew setup anew }
{
    match anew {
        None => setup,
        Some(between) => set_up_beside(setup, between),
    }
}
