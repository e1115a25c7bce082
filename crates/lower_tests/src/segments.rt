//! Packets from outside examples, and faults of every kind.

use nsp_seg::{
    AckField, FlagKind, Packet, SegFault, Seq12, decode_packet, encode_packet, flag_kind,
};

const ONLY_SEGMENT: &[u8] = &[0x60, 2, 1, 4, 3, 5, 0x80, 1, 0, 6, 2, 0];

const ACKNOWLEDGEMENT: &[u8] = &[0x04, 2, 1, 4, 3, 0xFF, 0x8F];

/// A segment with two fields, whose number has bits that are free.
const BOTH_FIELDS: &[u8] = &[0x20, 2, 1, 4, 3, 5, 0x80, 6, 0xA0, 7, 0x70, 0x41];

fn ack_field(qual: u8, number: u64) -> AckField {
    AckField {
        qual,
        number: Seq12::of(number),
    }
}

/// Returns the packet that `ONLY_SEGMENT` is.
fn only_segment() -> Packet<'static> {
    Packet::Segment {
        first: true,
        last: true,
        dst: 0x0102,
        src: 0x0304,
        ack1: Some(ack_field(0, 5)),
        ack2: None,
        number: Seq12::of(1),
        payload: &[6, 2, 0],
    }
}

/// Returns the packet that `BOTH_FIELDS` is.
fn both_fields() -> Packet<'static> {
    Packet::Segment {
        first: true,
        last: false,
        dst: 0x0102,
        src: 0x0304,
        ack1: Some(ack_field(0, 5)),
        ack2: Some(ack_field(2, 6)),
        number: Seq12::of(7),
        payload: &[0x41],
    }
}

/// Returns the packet that `ACKNOWLEDGEMENT` is.
fn acknowledgement() -> Packet<'static> {
    Packet::DataAck {
        dst: 0x0102,
        src: 0x0304,
        ack1: ack_field(0, 4095),
        ack2: None,
    }
}

/// Returns whether the bytes are read as the packet.
fn is_read(bytes: &[u8], packet: &Packet) -> bool {
    match decode_packet(bytes) {
        Ok(read) => read == *packet,
        Err(_) => false,
    }
}

/// Returns whether the bytes are those that are written of the packet that they are.
fn is_written(rt: &impl AllocGlobal, bytes: &[u8]) -> bool {
    let mut out = Vec::new(rt.alloc());
    match decode_packet(bytes) {
        Ok(packet) => encode_packet(&packet, &mut out).is_ok() && out.as_slice() == bytes,
        Err(_) => false,
    }
}

#[test]
fn packets_both_ways(rt: HostRuntime) {
    assert!(rt; is_read(ONLY_SEGMENT, &only_segment()));
    assert!(rt; is_read(BOTH_FIELDS, &both_fields()));
    assert!(rt; is_read(ACKNOWLEDGEMENT, &acknowledgement()));
    for bytes in [ONLY_SEGMENT, ACKNOWLEDGEMENT] {
        assert!(rt; is_written(&rt, bytes));
    }
}

/// Bytes, and the fault that they have, if they have one.
const FAULTS: &[(&[u8], Option<SegFault>)] = &[
    (&[], Some(SegFault::Truncated(0))),
    (&[0x60, 2], Some(SegFault::Truncated(1))),
    (&[0x60, 2, 1], Some(SegFault::Truncated(3))),
    (&[0x04, 2, 1, 4, 3, 5, 0], Some(SegFault::BadNumber(5))),
    (&[0x04, 2, 1, 4, 3, 5, 0x80, 0], Some(SegFault::Trailing(7))),
    (
        &[0x60, 2, 1, 4, 3, 5, 0x80, 6, 0xA0, 7, 0x80],
        Some(SegFault::BadNumber(9)),
    ),
    (&[0x10, 2, 1, 4, 3], Some(SegFault::NotHere(0x10))),
    (&[0x04, 2, 1, 4, 3, 5, 0x80, 6, 0x80], None),
    (
        &[0x04, 2, 1, 4, 3, 5, 0x80, 6, 0],
        Some(SegFault::Trailing(7)),
    ),
    (
        &[0x04, 2, 1, 4, 3, 5, 0x80, 6, 0x80, 0],
        Some(SegFault::Trailing(9)),
    ),
];

fn fault_of(bytes: &[u8]) -> Option<SegFault> {
    match decode_packet(bytes) {
        Ok(_) => None,
        Err(fault) => Some(fault),
    }
}

#[test]
fn faults_at_their_offsets(rt: HostRuntime) {
    for (bytes, wanted) in FAULTS {
        assert!(rt; fault_of(bytes) == *wanted, "{bytes:?}");
    }
}

const FLAGS: &[(u8, FlagKind)] = &[
    (0x00, FlagKind::Segment),
    (0x20, FlagKind::Segment),
    (0x40, FlagKind::Segment),
    (0x60, FlagKind::Segment),
    (0x04, FlagKind::DataAck),
    (0x10, FlagKind::LinkService),
    (0x30, FlagKind::Interrupt),
    (0x14, FlagKind::OtherAck),
    (0x24, FlagKind::ConnectAck),
    (0x08, FlagKind::Control),
    (0x78, FlagKind::Control),
    (0x80, FlagKind::Unknown),
];

#[test]
fn kinds_of_first_bytes(rt: HostRuntime) {
    for (flag, kind) in FLAGS {
        assert!(rt; flag_kind(*flag) == *kind, "at {flag}");
    }
}

#[test]
fn numbers_go_round(rt: HostRuntime) {
    assert!(rt; Seq12::of(4095).after().get() == 0 && Seq12::of(4097).get() == 1);
    assert!(rt; Seq12::of(1).ahead_of(Seq12::of(4095)) == 2);
    assert!(rt; Seq12::of(4095).ahead_of(Seq12::of(1)) == 4094);
}
