//! The numbers of codes, and what both ends say of limits.

use dap_msg::codes::{REASON_BAD_KEY, REASON_FILE_EXISTS, invalid, out_of_sequence, unsupported};
use dap_msg::{
    MAX_MESSAGE, MessageValue, encoded_len, fits_value, is_too_small, limit_of, number_of,
};

#[test]
fn codes_by_the_type_of_a_message(rt: HostRuntime) {
    assert!(rt; (unsupported(3), unsupported(4)) == (0x20c0, 0x2100));
    assert!(rt; (invalid(1), invalid(7), out_of_sequence(4)) == (0x9040, 0x91c0, 0xa004));
    assert!(rt; (REASON_FILE_EXISTS, REASON_BAD_KEY) == (1, 12));
}

/// Sizes of buffers, and whether each is too small.
const BUFFERS: &[(u16, bool)] = &[(63, true), (64, false), (0, false)];

#[test]
fn limits_and_numbers(rt: HostRuntime) {
    for (bufsiz, small) in BUFFERS {
        assert!(rt; is_too_small(*bufsiz) == *small, "{bufsiz}");
    }
    assert!(rt; (limit_of(0), limit_of(1024)) == (MAX_MESSAGE, 1024));
    assert!(rt; number_of(&[1, 2]) == 513);
    assert!(rt; length(&MessageValue::complete_with(2)) == Some(5));
}

/// Returns how many bytes the message has, where it fits.
fn length(message: &MessageValue<'_>) -> Option<usize> {
    if fits_value(message) {
        Some(encoded_len(message))
    } else {
        None
    }
}
