//! Several messages in one NSP message.

use dap_msg::{MessageValue, MsgFault, append_blocked, append_message, fits_value};
use std::alloc::Global;
use std::process::Abort;
use std::test::Fail;

/// A limit, messages that are appended one after the other, and the NSP messages that they make.
type Row = (usize, &'static [&'static [u8]], &'static [&'static [u8]]);

const PUT: &[u8] = &[4, 2, 3, 4, 1, 0];

const DATA: &[u8] = &[8, 2, 2, 0, 0x41];

const PUT_AND_DATA: &[u8] = &[4, 2, 3, 4, 1, 0, 8, 2, 2, 0, 0x41];

const ACKNOWLEDGE: &[u8] = &[6, 2, 0];

/// Three of these fit 64 bytes.
const EIGHTEEN: &[u8] = &[8; 18];

const ENDED: &[u8] = &[9, 2, 5, 0x27, 0x50, 0, 0, 0];

const EIGHTEEN_AND_ENDED: &[u8] = &[
    8, 8, 8, 8, 8, 8, 8, 8, 8, 8, 8, 8, 8, 8, 8, 8, 8, 8, 9, 2, 5, 0x27, 0x50, 0, 0, 0,
];

const ROWS: &[Row] = &[
    // Messages are joined within the limit.
    (11, &[PUT, DATA], &[PUT_AND_DATA]),
    (11, &[PUT, DATA, ACKNOWLEDGE], &[PUT_AND_DATA, ACKNOWLEDGE]),
    // One past the limit is alone.
    (
        64,
        &[EIGHTEEN, EIGHTEEN, EIGHTEEN, EIGHTEEN, ENDED],
        &[&[8; 54], EIGHTEEN_AND_ENDED],
    ),
    (
        64,
        &[EIGHTEEN, EIGHTEEN, EIGHTEEN, EIGHTEEN, ENDED, &[8; 65]],
        &[&[8; 54], EIGHTEEN_AND_ENDED, &[8; 65]],
    ),
];

fn joined(alloc: Global, messages: &[&[u8]], limit: usize) -> Result<Vec<Vec<u8>>, MsgFault> {
    let mut list = Vec::new(alloc);
    for message in messages {
        append_blocked(alloc, &mut list, message, limit)?;
    }
    Ok(list)
}

fn are(list: &[Vec<u8>], wanted: &[&[u8]]) -> bool {
    list.len() == wanted.len()
        && list
            .iter()
            .zip(wanted)
            .all(|(one, other)| one.as_slice() == *other)
}

#[test]
fn messages_are_joined(rt: HostRuntime) -> Result<(), Fail> {
    for (at, (limit, messages, wanted)) in ROWS.iter().enumerate() {
        let list = joined(rt.alloc(), messages, *limit)?;
        assert!(rt; are(&list, wanted), "row {at}");
    }
    Ok(())
}

/// Appends Acknowledges, each within its limit, which are written where they are to be.
fn written(rt: &(impl AllocGlobal + Abort), limits: &[usize]) -> Result<Vec<Vec<u8>>, MsgFault> {
    assert!(rt; fits_value(&MessageValue::Ack));
    let mut list = Vec::new(rt.alloc());
    for limit in limits {
        append_message(rt.alloc(), &mut list, &MessageValue::Ack, *limit)?;
    }
    Ok(list)
}

#[test]
fn messages_are_written_in_place(rt: HostRuntime) -> Result<(), Fail> {
    let list = written(&rt, &[10, 10, 3])?;
    assert!(rt; are(&list, &[&[6, 2, 0, 6, 2, 0], ACKNOWLEDGE]));
    Ok(())
}
