//! The maximum value of each field that has a limit, and the one above it.

use bitflags::Flags;
use dap_msg::{Attributes, Bytes, FileAccess, Message, MessageValue, fits};
use std::test::Fail;

/// The maximum values of extensible fields of 2 to 12 bytes.
const EX_2: u16 = 16383;

const EX_3: u32 = 2097151;

const EX_4: u32 = 268435455;

const EX_5: u64 = 34359738367;

const EX_6: u64 = 4398046511103;

const EX_12: u128 = 19342813113834066795298815;

const I_5: &[u8] = &[0; 5];

const I_6: &[u8] = &[0; 6];

const I_8: &[u8] = &[0; 8];

const I_9: &[u8] = &[0; 9];

const I_40: &[u8] = &[0; 40];

const I_41: &[u8] = &[0; 41];

const I_255: &[u8] = &[0; 255];

const I_256: &[u8] = &[0; 256];

fn data<'a>(recnum: &'a [u8], payload: &'a [u8]) -> Message<'a> {
    Message::Filedata { recnum, payload }
}

/// A record number, the length of a record, and whether the message fits.
const RECORDS: &[(&[u8], usize, bool)] = &[
    (&[], 65534, true),
    (&[], 65535, false),
    (&[1; 8], 65526, true),
    (&[1; 8], 65527, false),
    (&[1; 9], 0, false),
];

/// Returns whether a message with this many bytes of a record fits.
fn fits_record(recnum: &[u8], record: &[u8], length: usize) -> Option<bool> {
    let payload = record.get(..length)?;
    Some(fits(&data(recnum, payload)))
}

#[test]
fn of_a_record(rt: HostRuntime) -> Result<(), Fail> {
    let record = Vec::from_elem(rt.alloc(), 0, 65535)?;
    for (recnum, length, good) in RECORDS {
        let fits = fits_record(recnum, &record, *length);
        assert!(rt; fits == Some(*good), "of {length}");
    }
    Ok(())
}

/// A message's type, the length of its operand, and whether it fits.
const OTHERS: &[(u8, usize, bool)] = &[
    (9, 0, false),
    (10, 0, true),
    (16, 0, true),
    (17, 0, false),
    (10, 65535, true),
    (10, 65536, false),
];

/// Returns whether a message of no known layout with this many bytes of an operand fits.
fn fits_other(number: u8, operand: &[u8], length: usize) -> Option<bool> {
    let body = operand.get(..length)?;
    Some(fits(&Message::Other { number, body }))
}

#[test]
fn of_other_messages(rt: HostRuntime) -> Result<(), Fail> {
    let operand = Vec::from_elem(rt.alloc(), 0, 65536)?;
    for (number, length, good) in OTHERS {
        let fits = fits_other(*number, &operand, *length);
        assert!(rt; fits == Some(*good), "of {length}");
    }
    Ok(())
}

/// DATATYPE, RAT, ALQ, MRN, RUNSYS, FOP, DEV, SDC, HBK, EBK and SBN, and whether the message fits.
type AttributesRow = (
    u16,
    u32,
    &'static [u8],
    &'static [u8],
    &'static [u8],
    u64,
    u64,
    u64,
    &'static [u8],
    &'static [u8],
    &'static [u8],
    bool,
);

const ATTRIBUTES: &[AttributesRow] = &[
    (
        EX_2, EX_3, I_5, I_5, I_40, EX_6, EX_6, EX_6, I_5, I_5, I_5, true,
    ),
    (
        EX_2 + 1,
        EX_3,
        I_5,
        I_5,
        I_40,
        EX_6,
        EX_6,
        EX_6,
        I_5,
        I_5,
        I_5,
        false,
    ),
    (
        EX_2,
        EX_3 + 1,
        I_5,
        I_5,
        I_40,
        EX_6,
        EX_6,
        EX_6,
        I_5,
        I_5,
        I_5,
        false,
    ),
    (
        EX_2, EX_3, I_6, I_5, I_40, EX_6, EX_6, EX_6, I_5, I_5, I_5, false,
    ),
    (
        EX_2, EX_3, I_5, I_6, I_40, EX_6, EX_6, EX_6, I_5, I_5, I_5, false,
    ),
    (
        EX_2, EX_3, I_5, I_5, I_41, EX_6, EX_6, EX_6, I_5, I_5, I_5, false,
    ),
    (
        EX_2,
        EX_3,
        I_5,
        I_5,
        I_40,
        EX_6 + 1,
        EX_6,
        EX_6,
        I_5,
        I_5,
        I_5,
        false,
    ),
    (
        EX_2,
        EX_3,
        I_5,
        I_5,
        I_40,
        EX_6,
        EX_6 + 1,
        EX_6,
        I_5,
        I_5,
        I_5,
        false,
    ),
    (
        EX_2,
        EX_3,
        I_5,
        I_5,
        I_40,
        EX_6,
        EX_6,
        EX_6 + 1,
        I_5,
        I_5,
        I_5,
        false,
    ),
    (
        EX_2, EX_3, I_5, I_5, I_40, EX_6, EX_6, EX_6, I_6, I_5, I_5, false,
    ),
    (
        EX_2, EX_3, I_5, I_5, I_40, EX_6, EX_6, EX_6, I_5, I_6, I_5, false,
    ),
    (
        EX_2, EX_3, I_5, I_5, I_40, EX_6, EX_6, EX_6, I_5, I_5, I_6, false,
    ),
];

#[test]
fn of_attributes(rt: HostRuntime) {
    for (at, row) in ATTRIBUTES.iter().enumerate() {
        assert!(rt; attributes_are_so(*row), "row {at}");
    }
}

/// Returns whether Attributes with these values fit as the row says.
fn attributes_are_so(row: AttributesRow) -> bool {
    let (datatype, rat, alq, mrn, runsys, fop, dev, sdc, hbk, ebk, sbn, good) = row;
    let attributes = Attributes {
        datatype: Some(datatype),
        rat: Some(rat),
        alq: Some(Bytes(alq)),
        mrn: Some(Bytes(mrn)),
        runsys: Some(Bytes(runsys)),
        fop: Some(fop),
        dev: Some(dev),
        sdc: Some(sdc),
        hbk: Some(Bytes(hbk)),
        ebk: Some(Bytes(ebk)),
        sbn: Some(Bytes(sbn)),
        ..Attributes::none()
    };
    fits(&Message::from_value(MessageValue::Attrib(attributes))) == good
}

/// OPT, NAME, FAC, SHR, DISPLAY and PASSWORD.
const ACCESS: &[(u64, &[u8], u32, u32, u32, &[u8], bool)] = &[
    (EX_5, I_255, EX_3, EX_3, EX_4, I_40, true),
    (EX_5 + 1, I_255, EX_3, EX_3, EX_4, I_40, false),
    (EX_5, I_256, EX_3, EX_3, EX_4, I_40, false),
    (EX_5, I_255, EX_3 + 1, EX_3, EX_4, I_40, false),
    (EX_5, I_255, EX_3, EX_3 + 1, EX_4, I_40, false),
    (EX_5, I_255, EX_3, EX_3, EX_4 + 1, I_40, false),
    (EX_5, I_255, EX_3, EX_3, EX_4, I_41, false),
];

#[test]
fn of_access(rt: HostRuntime) {
    for (opt, name, fac, shr, display, password, good) in ACCESS {
        let access = Message::Access {
            func: 1,
            opt: *opt,
            name,
            fac: *fac,
            shr: *shr,
            display: *display,
            password,
        };
        assert!(rt; fits(&access) == *good);
    }
}

/// KEY, ROP, HSH and DISPLAY.
const CONTROL: &[(&[u8], u64, &[u8], u32, bool)] = &[
    (I_255, EX_6, I_5, EX_4, true),
    (I_256, EX_6, I_5, EX_4, false),
    (I_255, EX_6 + 1, I_5, EX_4, false),
    (I_255, EX_6, I_6, EX_4, false),
    (I_255, EX_6, I_5, EX_4 + 1, false),
];

#[test]
fn of_control(rt: HostRuntime) {
    for (key, rop, hsh, display, good) in CONTROL {
        let control = Message::Control {
            func: 1,
            rac: None,
            key: Some(*key),
            krf: None,
            rop: Some(*rop),
            hsh: Some(*hsh),
            display: Some(*display),
        };
        assert!(rt; fits(&control) == *good);
    }
}

/// RFA, RECNUM and STV.
const STATUS: &[(&[u8], &[u8], &[u8], bool)] = &[
    (I_8, I_8, I_8, true),
    (I_9, I_8, I_8, false),
    (I_8, I_9, I_8, false),
    (I_8, I_8, I_9, false),
];

#[test]
fn of_status(rt: HostRuntime) {
    for (rfa, recnum, stv, good) in STATUS {
        let status = Message::Status {
            code: 0,
            rfa,
            recnum,
            stv,
        };
        assert!(rt; fits(&status) == *good);
    }
}

#[test]
fn of_configuration_and_completion(rt: HostRuntime) {
    for (syscap, fop, good) in [(EX_12, EX_6, true), (EX_12 + 1, EX_6 + 1, false)] {
        let config = Message::Config {
            bufsiz: 0,
            ostype: 0,
            filesys: 0,
            vernum: 0,
            econum: 0,
            usrnum: 0,
            softver: 0,
            usrsoft: 0,
            syscap,
        };
        assert!(rt; fits(&config) == good);
        let complete = Message::Accomp {
            func: 1,
            fop,
            check: None,
        };
        assert!(rt; fits(&complete) == good);
    }
}

#[test]
fn the_operations_of_a_file(rt: HostRuntime) {
    let access = FileAccess::PUT | FileAccess::DELETE;
    assert!(rt; access.contains(FileAccess::PUT) && !access.contains(FileAccess::GET));
    assert!(rt; access.bits() == 5 && FileAccess::from_bits(16).is_none());
    assert!(rt; operations(FileAccess::of_fac(0x10a)) == (true, true, false, false));
}

/// Returns whether a file's records may be read, replaced, put and deleted.
fn operations(access: FileAccess) -> (bool, bool, bool, bool) {
    (
        access.allows_get(),
        access.allows_update(),
        access.allows_put(),
        access.allows_delete(),
    )
}
