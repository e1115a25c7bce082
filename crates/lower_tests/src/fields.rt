//! What no clause says: values from the document's rules, and that each call can succeed.

use dap_fields::{
    FieldFault, ex_fits, number_of, read_ex, read_image, read_u8, read_u16, write_ex, write_image,
    write_u8, write_u16,
};

/// The maximum number of 84 bits, in groups of seven.
const GREATEST: &[u8] = &[
    0xff, 0xff, 0xff, 0xff, 0xff, 0xff, 0xff, 0xff, 0xff, 0xff, 0xff, 0x7f,
];

/// Numbers, and what is written of them.
const WRITTEN: &[(u128, &[u8])] = &[
    (0, &[0]),
    (127, &[0x7f]),
    (128, &[0x80, 1]),
    (550, &[0xa6, 4]),
    (16383, &[0xff, 0x7f]),
    (19342813113834066795298815, GREATEST),
];

/// Bytes, the limit of an extensible field, and what is read.
const READ: &[(&[u8], usize, Result<(u128, usize), FieldFault>)] = &[
    (&[0x80, 0], 2, Ok((0, 2))),
    (&[0x80, 0], 1, Err(FieldFault::TooLong)),
    (&[0x80], 2, Err(FieldFault::Truncated)),
    (&[], 2, Err(FieldFault::Truncated)),
    (&[0xa6, 4, 0xff], 6, Ok((550, 2))),
    (GREATEST, 12, Ok((19342813113834066795298815, 12))),
];

/// Bytes, the limit of an image, and what is read.
const IMAGES: &[(&[u8], usize, Result<(&[u8], usize), FieldFault>)] = &[
    (&[0, 7], 8, Ok((&[], 1))),
    (&[2, 7, 8, 9], 2, Ok((&[7, 8], 3))),
    (&[3, 7], 2, Err(FieldFault::TooLong)),
    (&[2, 7], 2, Err(FieldFault::Truncated)),
    (&[], 2, Err(FieldFault::Truncated)),
];

/// Numbers, limits in bytes, and whether the one has room for the other.
const FITTING: &[(u128, usize, bool)] = &[
    (127, 1, true),
    (128, 1, false),
    (19342813113834066795298815, 12, true),
    (19342813113834066795298816, 12, false),
    (0, 0, true),
    (u128::MAX, 18, false),
    (u128::MAX, 19, true),
    (u128::MAX, usize::MAX, true),
];

/// Returns whether just these bytes are written of the number.
fn is_written(rt: &impl AllocGlobal, value: u128, bytes: &[u8]) -> bool {
    let mut out = Vec::new(rt.alloc());
    value < 1 << 84 && write_ex(value, &mut out) == Ok(()) && out.as_slice() == bytes
}

#[test]
fn numbers_are_written_shortest(rt: HostRuntime) {
    for (value, bytes) in WRITTEN {
        assert!(rt; is_written(&rt, *value, bytes), "{value}");
    }
}

#[test]
fn numbers_are_read_within_their_limit(rt: HostRuntime) {
    for (bytes, limit, wanted) in READ {
        assert!(rt; read_ex(bytes, *limit) == *wanted, "{bytes:?}");
    }
}

#[test]
fn images_are_read_within_their_limit(rt: HostRuntime) {
    for (bytes, limit, wanted) in IMAGES {
        assert!(rt; read_image(bytes, *limit) == *wanted, "{bytes:?}");
    }
}

#[test]
fn fixed_numbers_are_read(rt: HostRuntime) {
    assert!(rt; read_u8(&[0x27, 1]) == Ok((0x27, 1)));
    assert!(rt; read_u8(&[]) == Err(FieldFault::Truncated));
    assert!(rt; read_u16(&[0x27, 0x50, 1]) == Ok((0x5027, 2)));
    assert!(rt; read_u16(&[0x27]) == Err(FieldFault::Truncated));
}

#[test]
fn images_stand_for_numbers(rt: HostRuntime) {
    assert!(rt; number_of(&[]) == 0 && number_of(&[3, 0, 0, 0]) == 3);
    assert!(rt; number_of(&[0x27, 0x50]) == 0x5027);
}

#[test]
fn numbers_fit_below_their_limit(rt: HostRuntime) {
    for (value, limit, wanted) in FITTING {
        assert!(rt; ex_fits(*value, *limit) == *wanted, "{value}");
    }
}

#[test]
fn fields_are_written(rt: HostRuntime) {
    let mut out = Vec::new(rt.alloc());
    let written = (
        write_u8(7, &mut out),
        write_u16(0x5027, &mut out),
        write_image(&[1, 2, 3], &mut out),
    );
    assert!(rt; written == (Ok(()), Ok(()), Ok(())));
    assert!(rt; out.as_slice() == [7, 0x27, 0x50, 3, 1, 2, 3].as_slice());
}
