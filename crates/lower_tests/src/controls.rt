//! Packets that set up and close links, and connect data, from outside examples, and their faults.

use nsp_control::{
    ClosedFields, ConfirmFields, ConnectFields, Control, ControlFault, DisconnectFields,
    decode_control, encode_control,
};
use nsp_seg::Payload;
use nsp_session::{
    Access, EndName, GroupedName, NamedEnd, Session, SessionFault, decode_session, encode_session,
};

/// A connect initiate to object 17, from the name `DAPLIVE`.
const CONNECT: &[u8] = &[
    0x18, 0, 0, 1, 1, 1, 2, 0, 2, 0, 0x11, 1, 0, 7, b'D', b'A', b'P', b'L', b'I', b'V', b'E', 0,
];

/// The same again: its first byte alone is another.
const CONNECT_AGAIN: &[u8] = &[
    0x68, 0, 0, 1, 1, 1, 2, 0, 2, 0, 0x11, 1, 0, 7, b'D', b'A', b'P', b'L', b'I', b'V', b'E', 0,
];

/// Its connect data.
const SESSION: &[u8] = &[
    0, 0x11, 1, 0, 7, b'D', b'A', b'P', b'L', b'I', b'V', b'E', 0,
];

const CONFIRM: &[u8] = &[0x28, 1, 1, 2, 2, 1, 2, 0, 2, 0];

const DISCONNECT: &[u8] = &[0x38, 2, 2, 1, 1, 0, 0, 0];

const DISCONNECT_CONFIRM: &[u8] = &[0x48, 1, 1, 2, 2, 0x2A, 0];

const CONNECT_ACK: &[u8] = &[0x24, 1, 1];

/// Returns the packet that `CONNECT` is, or the same again.
fn connect(again: bool) -> Control<'static> {
    Control::Connect(ConnectFields {
        again,
        src: 0x0101,
        services: 1,
        info: 2,
        seg_size: 512,
        body: Payload(SESSION),
    })
}

/// Returns the packet that `CONFIRM` is.
fn confirm() -> Control<'static> {
    Control::Confirm(ConfirmFields {
        dst: 0x0101,
        src: 0x0202,
        services: 1,
        info: 2,
        seg_size: 512,
        body: Payload(&[0]),
    })
}

/// Returns the packet that `DISCONNECT` is.
fn disconnect() -> Control<'static> {
    Control::Disconnect(DisconnectFields {
        dst: 0x0202,
        src: 0x0101,
        reason: 0,
        body: Payload(&[0]),
    })
}

/// Returns the packet that `DISCONNECT_CONFIRM` is.
fn disconnect_confirm() -> Control<'static> {
    Control::DisconnectConfirm(ClosedFields {
        dst: 0x0101,
        src: 0x0202,
        reason: 42,
    })
}

/// Returns whether the bytes are read as the packet.
fn is_read(bytes: &[u8], packet: &Control) -> bool {
    match decode_control(bytes) {
        Ok(read) => read == *packet,
        Err(_) => false,
    }
}

/// Returns whether the bytes are those that are written of the packet that they are.
fn is_written(rt: &impl AllocGlobal, bytes: &[u8]) -> bool {
    let mut out = Vec::new(rt.alloc());
    match decode_control(bytes) {
        Ok(packet) => encode_control(&packet, &mut out).is_ok() && out.as_slice() == bytes,
        Err(_) => false,
    }
}

#[test]
fn set_up_and_disconnect_both_ways(rt: HostRuntime) {
    assert!(rt; is_read(CONNECT, &connect(false)));
    assert!(rt; is_read(CONNECT_AGAIN, &connect(true)));
    assert!(rt; is_read(CONFIRM, &confirm()));
    assert!(rt; is_read(DISCONNECT, &disconnect()));
    assert!(rt; is_read(DISCONNECT_CONFIRM, &disconnect_confirm()));
    assert!(rt; is_read(CONNECT_ACK, &Control::ConnectAck(0x0101)));
    for bytes in [
        CONNECT,
        CONNECT_AGAIN,
        CONFIRM,
        DISCONNECT,
        DISCONNECT_CONFIRM,
        CONNECT_ACK,
    ] {
        assert!(rt; is_written(&rt, bytes), "{bytes:?}");
    }
}

/// Bytes, and the fault that they have, if they have one.
const FAULTS: &[(&[u8], Option<ControlFault>)] = &[
    (&[], Some(ControlFault::Truncated(0))),
    (&[0x18, 1], Some(ControlFault::Truncated(1))),
    (&[0x18, 1, 0], Some(ControlFault::BadAddress(1))),
    (&[0x18, 0, 0, 0, 0], Some(ControlFault::BadAddress(3))),
    (&[0x68, 0, 0, 1, 1, 1], Some(ControlFault::Truncated(6))),
    (&[0x28, 0, 0, 2, 2], Some(ControlFault::BadAddress(1))),
    (&[0x28, 1, 1, 2, 2, 1, 2], Some(ControlFault::Truncated(7))),
    (&[0x28, 1, 1, 2, 2, 1, 2, 0, 2], None),
    (&[0x38, 2, 2, 1, 1, 0], Some(ControlFault::Truncated(5))),
    (&[0x38, 0, 0, 1, 1, 0, 0], None),
    (
        &[0x48, 1, 1, 2, 2, 0, 0, 0],
        Some(ControlFault::Trailing(7)),
    ),
    (&[0x24, 1, 1, 0], Some(ControlFault::Trailing(3))),
    (&[0x10], Some(ControlFault::NotHere(0x10))),
    (&[0x08, 0], Some(ControlFault::NotHere(0x08))),
];

fn fault_of(bytes: &[u8]) -> Option<ControlFault> {
    match decode_control(bytes) {
        Ok(_) => None,
        Err(fault) => Some(fault),
    }
}

#[test]
fn faults_of_control_at_their_offsets(rt: HostRuntime) {
    for (bytes, wanted) in FAULTS {
        assert!(rt; fault_of(bytes) == *wanted, "{bytes:?}");
    }
}

// ---- connect data

/// To object 17 from a name, with access control and the user's data, and a byte after them.
const ACCESS: &[u8] = &[
    0, 0x11, 1, 0, 2, b'A', b'B', 0x07, 4, b'U', b'S', b'E', b'R', 2, b'P', b'W', 0, 3, 9, 8, 7,
    0xFF,
];

/// From a group, a user and a name to a name, with the user's data alone.
const GROUPED: &[u8] = &[1, 5, 1, b'X', 2, 6, 0x34, 0x12, 0x78, 0x56, 1, b'Y', 2, 0];

/// Returns the connect data that `SESSION` are.
fn session() -> Session<'static> {
    Session {
        dst: EndName::Number(17),
        src: EndName::Named(NamedEnd {
            object: 0,
            name: Payload(b"DAPLIVE"),
        }),
        version: 0,
        access: None,
        user_data: None,
        rest: Payload(&[]),
    }
}

/// Returns the connect data that `ACCESS` are.
fn with_access() -> Session<'static> {
    Session {
        dst: EndName::Number(17),
        src: EndName::Named(NamedEnd {
            object: 0,
            name: Payload(b"AB"),
        }),
        version: 1,
        access: Some(Access {
            user: Payload(b"USER"),
            password: Payload(b"PW"),
            account: Payload(&[]),
        }),
        user_data: Some(Payload(&[9, 8, 7])),
        rest: Payload(&[0xFF]),
    }
}

/// Returns the connect data that `GROUPED` are.
fn with_group() -> Session<'static> {
    Session {
        dst: EndName::Named(NamedEnd {
            object: 5,
            name: Payload(b"X"),
        }),
        src: EndName::Grouped(GroupedName {
            object: 6,
            group: 0x1234,
            user: 0x5678,
            name: Payload(b"Y"),
        }),
        version: 0,
        access: None,
        user_data: Some(Payload(&[])),
        rest: Payload(&[]),
    }
}

/// Returns whether the bytes are read as these connect data.
fn is_read_as(bytes: &[u8], session: &Session) -> bool {
    match decode_session(bytes) {
        Ok(read) => read == *session,
        Err(_) => false,
    }
}

/// Returns whether the bytes are those that are written of the connect data that they are.
fn is_written_again(rt: &impl AllocGlobal, bytes: &[u8]) -> bool {
    let mut out = Vec::new(rt.alloc());
    match decode_session(bytes) {
        Ok(session) => encode_session(&session, &mut out).is_ok() && out.as_slice() == bytes,
        Err(_) => false,
    }
}

#[test]
fn connect_data_both_ways(rt: HostRuntime) {
    assert!(rt; is_read_as(SESSION, &session()));
    assert!(rt; is_read_as(ACCESS, &with_access()));
    assert!(rt; is_read_as(GROUPED, &with_group()));
    for bytes in [SESSION, ACCESS, GROUPED] {
        assert!(rt; is_written_again(&rt, bytes), "{bytes:?}");
    }
}

/// Bytes, and the fault that they have, if they have one.
const SESSION_FAULTS: &[(&[u8], Option<SessionFault>)] = &[
    (&[], Some(SessionFault::Truncated(0))),
    (&[0, 0x11], Some(SessionFault::Truncated(0))),
    (&[3, 0, 0, 0, 0], Some(SessionFault::BadForm(5))),
    (&[0, 1, 0, 1], Some(SessionFault::Truncated(0))),
    (&[0, 1, 0, 1, 0], None),
    (&[2, 0, 1], Some(SessionFault::Truncated(1))),
    (&[1, 0, 3, b'A', b'B'], Some(SessionFault::Truncated(2))),
    (&[1, 0, 17, 1, 2, 3], Some(SessionFault::TooLong(4))),
    (&[2, 0, 1, 0, 2, 0, 13, 1], Some(SessionFault::TooLong(2))),
    (&[0, 1, 0, 1, 1, 40], Some(SessionFault::TooLong(1))),
    (&[0, 1, 0, 1, 2, 17, 0], Some(SessionFault::TooLong(2))),
    (&[0, 1, 0, 1, 1, 0, 0], Some(SessionFault::Truncated(0))),
];

fn session_fault_of(bytes: &[u8]) -> Option<SessionFault> {
    match decode_session(bytes) {
        Ok(_) => None,
        Err(fault) => Some(fault),
    }
}

#[test]
fn faults_of_connect_data(rt: HostRuntime) {
    for (bytes, wanted) in SESSION_FAULTS {
        assert!(rt; session_fault_of(bytes) == *wanted, "{bytes:?}");
    }
}
