//! The first fault of bytes that are no message, and the code of the Status that answers them.

use dap_msg::FaultKind::{BadFlags, BadMenu, BadStream, TooLong, Truncated, UnknownType};
use dap_msg::{FaultKind, decode, status_for};

fn fault_of(input: &[u8]) -> Option<(FaultKind, u8, usize, u16)> {
    match decode(input) {
        Ok(_) => None,
        Err(fault) => Some((
            fault.kind,
            fault.message_type,
            fault.offset,
            status_for(&fault),
        )),
    }
}

/// Bytes, and the fault: its kind, the message's type, its offset, and the code that answers it.
const FAULTS: &[(&[u8], (FaultKind, u8, usize, u16))] = &[
    // Of each kind.
    (&[], (Truncated, 0, 0, 0x8000)),
    (&[8, 2, 5, 0, 0x41], (Truncated, 8, 2, 0x8200)),
    (&[0x10, 8], (BadFlags, 16, 1, 0x8400)),
    (&[6, 4, 0], (BadFlags, 6, 1, 0x8180)),
    (&[6, 1, 2], (BadStream, 6, 2, 0x8180)),
    (&[0x11, 0], (UnknownType, 17, 0, 0x8000)),
    (&[4, 2, 2, 1, 0x40], (BadMenu, 4, 4, 0x8100)),
    (&[9, 2, 1, 0x27], (Truncated, 9, 3, 0x8240)),
    // Of a header.
    (&[6, 0x80, 0x80, 0x80, 0x80, 0x80], (TooLong, 6, 1, 0x8180)),
    (&[6, 6, 0], (Truncated, 6, 3, 0x8180)),
    (&[6, 0x82, 0, 1], (Truncated, 6, 3, 0x8180)),
    (&[0, 8], (UnknownType, 0, 0, 0x8000)),
    // Of a field in an operand.
    (
        &[2, 0, 0xa6, 4, 0x10, 2, 0, 0, 4, 3, 0, 0],
        (Truncated, 2, 8, 0x8080),
    ),
    (
        &[2, 0, 0xa6, 4, 0x10, 2, 0, 0, 6, 3, 0, 0],
        (TooLong, 2, 8, 0x8080),
    ),
    (&[7, 2, 3, 1, 0, 0x34], (Truncated, 7, 5, 0x81c0)),
];

#[test]
fn faults(rt: HostRuntime) {
    for (at, (bytes, fault)) in FAULTS.iter().enumerate() {
        assert!(rt; fault_of(bytes) == Some(*fault), "row {at}");
    }
}

/// A message of 14 bytes.
const ATTRIBUTES: &[u8] = &[2, 2, 0x0b, 0xa6, 4, 0x10, 2, 0, 0, 4, 3, 0, 0, 0];

#[test]
fn of_a_message_cut_short(rt: HostRuntime) {
    for len in 0..14 {
        let fault = match len {
            0 => (Truncated, 0, 0, 0x8000),
            1 => (Truncated, 2, 1, 0x8080),
            _ => (Truncated, 2, 2, 0x8080),
        };
        assert!(rt; fault_of(&ATTRIBUTES[..len]) == Some(fault), "of {len}");
    }
}
