//! The hex digits of bytes.

ghost use Rattle.std.specs.Prelude.{◌≡◌, ◌<◌, ◌*◌, length, slice_index};
ghost use Rattle.hex.specs.Hex.{encode_lower, lower_digits};

/// Returns the hex digit of a value, in lower case.
#[tactic(auto, using(crate::proofs::EncodeLemmas::number_digit, crate::proofs::EncodeLemmas::letter_digit))]
fn digit_of(value: u8) -> u8
    requires { value < 16 }
    ensures { result ≡ slice_index lower_digits value }
{
    if value < 10 {
        b'0' + value
    } else {
        b'a' + (value - 10)
    }
}

/// Puts the lower hex digits of bytes into room for just as many. It takes no memory.
pub(crate) fn encode_hex(bytes: &[u8], room: &mut [u8])
    requires size { length room.old ≡ 2 * length bytes.now }
    ensures size { length room.new ≡ length room.old }
    ensures digits { room.new ≡ encode_lower bytes.now }
{
    'bytes: for i in 0..bytes.len() {
        let byte = bytes[i];
        room[2 * i] = digit_of(byte / 16);
        room[2 * i + 1] = digit_of(byte % 16);
    }
}
