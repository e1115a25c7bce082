//! Each message, written and read.

use dap_msg::{
    Attributes, Bytes, ControlFields, Message, MessageValue, MsgFault, StatusCode, decode, encode,
    encoded_len, fits,
};
use std::alloc::Global;
use std::process::Abort;
use std::test::Fail;

/// Returns whether the message is at the start of the bytes, and has this many of them.
fn is_read(bytes: &[u8], message: &Message<'_>, len: usize) -> bool {
    match decode(bytes) {
        Ok((read, end)) => read == *message && end == len,
        Err(_) => false,
    }
}

/// Returns whether the message is written as these bytes, and read back from them, whatever follows.
fn is_written(alloc: Global, message: &Message<'_>, bytes: &[u8]) -> Result<bool, MsgFault> {
    if !fits(message) {
        return Ok(false);
    }
    let mut out = Vec::new(alloc);
    encode(message, &mut out)?;
    let is_so = out.as_slice() == bytes
        && encoded_len(&message.to_value()) == bytes.len()
        && is_read(&out, message, bytes.len());
    out.push(6)?;
    Ok(is_so && is_read(&out, message, bytes.len()))
}

/// Checks that the message is written as these bytes, and read back from them, whatever follows.
fn check(rt: &(impl AllocGlobal + Abort), message: Message<'_>, bytes: &[u8]) -> Result<(), Fail> {
    let so = is_written(rt.alloc(), &message, bytes)?;
    assert!(rt; so, "{bytes:?}");
    Ok(())
}

const NO_ATTRIBUTES: Attributes<'static> = Attributes {
    datatype: None,
    org: None,
    rfm: None,
    rat: None,
    bls: None,
    mrs: None,
    alq: None,
    bks: None,
    fsz: None,
    mrn: None,
    runsys: None,
    deq: None,
    fop: None,
    bsz: None,
    dev: None,
    sdc: None,
    lrl: None,
    hbk: None,
    ebk: None,
    ffb: None,
    sbn: None,
};

const NO_CONTROL: ControlFields<'static> = ControlFields {
    func: 0,
    rac: None,
    key: None,
    krf: None,
    rop: None,
    hsh: None,
    display: None,
};

#[test]
fn configuration(rt: HostRuntime) -> Result<(), Fail> {
    let message = Message::Config {
        bufsiz: 1024,
        ostype: 7,
        filesys: 3,
        vernum: 5,
        econum: 6,
        usrnum: 0,
        softver: 0,
        usrsoft: 0,
        syscap: 0,
    };
    check(&rt, message, &[1, 2, 0x0a, 0, 4, 7, 3, 5, 6, 0, 0, 0, 0])
}

#[test]
fn attributes(rt: HostRuntime) -> Result<(), Fail> {
    let message = Message::from_value(MessageValue::Attrib(Attributes {
        org: Some(16),
        rfm: Some(2),
        mrs: Some(0),
        mrn: Some(Bytes(&[3, 0, 0, 0])),
        ..NO_ATTRIBUTES
    }));
    let bytes = [2, 2, 0x0b, 0xa6, 4, 0x10, 2, 0, 0, 4, 3, 0, 0, 0];
    check(&rt, message, &bytes)?;
    check(
        &rt,
        Message::from_value(MessageValue::Attrib(NO_ATTRIBUTES)),
        &[2, 2, 1, 0],
    )
}

#[test]
fn every_attribute_has_its_bit(rt: HostRuntime) -> Result<(), Fail> {
    let message = Message::Attrib {
        datatype: Some(2),
        org: Some(0),
        rfm: Some(1),
        rat: Some(3),
        bls: Some(512),
        mrs: Some(80),
        alq: Some(&[1]),
        bks: Some(2),
        fsz: Some(3),
        mrn: Some(&[4]),
        runsys: Some(&[5]),
        deq: Some(6),
        fop: Some(7),
        bsz: Some(8),
        dev: Some(9),
        sdc: Some(10),
        lrl: Some(11),
        hbk: Some(&[12]),
        ebk: Some(&[13]),
        ffb: Some(14),
        sbn: Some(&[15]),
    };
    let bytes = [
        2, 2, 35, 0xff, 0xff, 0x7f, 2, 0, 1, 3, 0, 2, 80, 0, 1, 1, 2, 3, 1, 4, 1, 5, 6, 0, 7, 8, 9,
        10, 11, 0, 1, 12, 1, 13, 14, 0, 1, 15,
    ];
    check(&rt, message, &bytes)
}

#[test]
fn access(rt: HostRuntime) -> Result<(), Fail> {
    let message = Message::Access {
        func: 2,
        opt: 0,
        name: &[0x46],
        fac: 7,
        shr: 0,
        display: 0,
        password: &[],
    };
    check(&rt, message, &[3, 2, 8, 2, 0, 1, 0x46, 7, 0, 0, 0])
}

#[test]
fn controls(rt: HostRuntime) -> Result<(), Fail> {
    let put = Message::from_value(MessageValue::Control(ControlFields {
        func: 4,
        rac: Some(1),
        key: Some(Bytes(&[3, 0, 0, 0])),
        ..NO_CONTROL
    }));
    check(&rt, put, &[4, 2, 8, 4, 3, 1, 4, 3, 0, 0, 0])?;
    let connect = Message::from_value(MessageValue::Control(ControlFields {
        func: 2,
        ..NO_CONTROL
    }));
    check(&rt, connect, &[4, 2, 2, 2, 0])
}

#[test]
fn controls_of_a_get(rt: HostRuntime) -> Result<(), Fail> {
    let get = Message::from_value(MessageValue::Control(ControlFields {
        func: 1,
        rac: Some(0),
        ..NO_CONTROL
    }));
    check(&rt, get, &[4, 2, 3, 1, 1, 0])?;
    let all = Message::Control {
        func: 1,
        rac: Some(0),
        key: Some(&[]),
        krf: Some(2),
        rop: Some(128),
        hsh: Some(&[9]),
        display: Some(1),
    };
    check(&rt, all, &[4, 2, 10, 1, 0x3f, 0, 0, 2, 0x80, 1, 1, 9, 1])
}

#[test]
fn continue_transfer(rt: HostRuntime) -> Result<(), Fail> {
    check(&rt, Message::Contran { func: 2 }, &[5, 2, 1, 2])
}

#[test]
fn acknowledge(rt: HostRuntime) -> Result<(), Fail> {
    assert!(rt; is_read(&[6, 0], &Message::Ack, 2));
    check(&rt, Message::Ack, &[6, 2, 0])
}

#[test]
fn access_complete(rt: HostRuntime) -> Result<(), Fail> {
    let response = Message::Accomp {
        func: 2,
        fop: 0,
        check: None,
    };
    check(&rt, response, &[7, 2, 2, 2, 0])?;
    let checked = Message::Accomp {
        func: 1,
        fop: 0,
        check: Some(0x1234),
    };
    check(&rt, checked, &[7, 2, 4, 1, 0, 0x34, 0x12])
}

#[test]
fn file_data(rt: HostRuntime) -> Result<(), Fail> {
    let message = Message::Filedata {
        recnum: &[],
        payload: &[0x41],
    };
    check(&rt, message, &[8, 2, 2, 0, 0x41])
}

/// Returns how many bytes a record of this many is written in, whether they begin so, and whether they are read back.
fn written(alloc: Global, record: &[u8], begin: &[u8]) -> Result<(usize, bool, bool), MsgFault> {
    let message = Message::Filedata {
        recnum: &[],
        payload: record,
    };
    if !fits(&message) {
        return Ok((0, false, false));
    }
    let mut out = Vec::new(alloc);
    encode(&message, &mut out)?;
    let is_read = is_read(&out, &message, out.len());
    Ok((out.len(), out.starts_with(begin), is_read))
}

/// Records, the prefix of the message of each, and its length.
const LONG: &[(&[u8], &[u8], usize)] = &[
    (&[0x41; 254], &[8, 2, 0xff], 258),
    (&[0x41; 255], &[8, 6, 0, 1], 260),
];

#[test]
fn a_long_operand_has_two_bytes_of_length(rt: HostRuntime) -> Result<(), Fail> {
    for (record, front, len) in LONG {
        let found = written(rt.alloc(), record, front)?;
        assert!(rt; found == (*len, true, true), "of {len}");
    }
    Ok(())
}

#[test]
fn status(rt: HostRuntime) -> Result<(), Fail> {
    let ended = Message::Status {
        code: 0x5027,
        rfa: &[],
        recnum: &[],
        stv: &[],
    };
    assert!(rt; is_read(&[9, 2, 2, 0x27, 0x50], &ended, 5));
    check(&rt, ended, &[9, 2, 5, 0x27, 0x50, 0, 0, 0])?;
    let done = Message::Status {
        code: 0x1000,
        rfa: &[1, 0, 0, 0],
        recnum: &[1, 0, 0, 0],
        stv: &[],
    };
    let bytes = [9, 2, 0x0d, 0, 0x10, 4, 1, 0, 0, 0, 4, 1, 0, 0, 0, 0];
    check(&rt, done, &bytes)
}

#[test]
fn other(rt: HostRuntime) -> Result<(), Fail> {
    let message = Message::Other {
        number: 10,
        body: &[1, 2],
    };
    check(&rt, message, &[10, 2, 2, 1, 2])
}

#[test]
fn the_type_of_a_message(rt: HostRuntime) {
    let other = MessageValue::Other {
        number: 16,
        body: Bytes(&[]),
    };
    assert!(rt; MessageValue::Ack.number() == 6);
    assert!(rt; MessageValue::Contran { func: 1 }.number() == 5);
    assert!(rt; other.number() == 16);
}

#[test]
fn the_parts_of_a_status_code(rt: HostRuntime) {
    let ended = StatusCode(0x5027);
    assert!(rt; (ended.major(), ended.minor()) == (5, 0o47));
    assert!(rt; !ended.is_success() && StatusCode(0x1225).is_success());
}
