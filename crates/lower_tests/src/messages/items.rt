//! What is at offsets of an NSP message.

use dap_msg::{ControlFields, FaultKind, Item, MessageValue, MsgFault, item_at};

const GET: MessageValue<'static> = MessageValue::Control(ControlFields {
    func: 1,
    rac: Some(0),
    key: None,
    krf: None,
    rop: None,
    hsh: None,
    display: None,
});

const DATA_CUT_SHORT: MsgFault = MsgFault {
    kind: FaultKind::Truncated,
    message_type: 8,
    offset: 5,
};

const NO_TYPE: MsgFault = MsgFault {
    kind: FaultKind::Truncated,
    message_type: 0,
    offset: 0,
};

/// What is at an offset.
#[derive(Clone, Copy)]
enum Found {
    Get,
    Ack,
    Fault(MsgFault),
}

fn item_of(found: Found) -> Item<'static> {
    match found {
        Found::Get => Item::Whole(GET),
        Found::Ack => Item::Whole(MessageValue::Ack),
        Found::Fault(fault) => Item::Malformed(fault),
    }
}

/// Bytes, an offset in them, what is there, and where it ends.
const ITEMS: &[(&[u8], usize, Found, usize)] = &[
    // A message after another.
    (&[4, 2, 3, 1, 1, 0, 6, 2, 0], 0, Found::Get, 6),
    (&[4, 2, 3, 1, 1, 0, 6, 2, 0], 6, Found::Ack, 9),
    // A message without LENGTH is the last.
    (&[6, 2, 0, 6, 0, 6, 2, 0], 3, Found::Ack, 8),
    // A fault is counted from the start.
    (&[6, 2, 0, 8, 2, 5, 0, 0x41], 0, Found::Ack, 3),
    (
        &[6, 2, 0, 8, 2, 5, 0, 0x41],
        3,
        Found::Fault(DATA_CUT_SHORT),
        8,
    ),
    // No bytes are one fault.
    (&[], 0, Found::Fault(NO_TYPE), 0),
];

#[test]
fn items(rt: HostRuntime) {
    for (row, (bytes, at, found, end)) in ITEMS.iter().enumerate() {
        let (item, behind) = item_at(bytes, *at);
        assert!(rt; item == item_of(*found) && behind == *end, "row {row}");
    }
}
