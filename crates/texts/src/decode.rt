//! The bytes that hex digits spell.

ghost use Rattle.std.specs.Prelude.{◌≡◌, ◌<◌, ◌*◌, ℕ, Ok, Some, length, true};
ghost use Rattle.hex.specs.Hex.{decode_of, hex_digit_value, is_hex_digit, pair_value};
ghost use Rattle.texts.specs.Words.{is_hex_text as spelled};

/// Returns the value of a hex digit, of either case.
#[tactic(auto, using(crate::proofs::DecodeLemmas::in_range, crate::proofs::DecodeLemmas::number, crate::proofs::DecodeLemmas::capital, crate::proofs::DecodeLemmas::small_letter))]
fn digit_value(digit: u8) -> u8
    requires { is_hex_digit digit ≡ true }
    ensures value { hex_digit_value digit ≡ Some result }
    ensures small { result < 16 }
{
    if digit <= b'9' {
        digit - b'0'
    } else if digit <= b'F' {
        digit - b'A' + 10
    } else {
        digit - b'a' + 10
    }
}

/// Returns the byte that two digits spell.
#[tactic(auto, using(crate::proofs::DecodeLemmas::pair_is))]
fn pair(high: u8, low: u8) -> u8
    requires high { is_hex_digit high ≡ true }
    requires low { is_hex_digit low ≡ true }
    ensures { (index : ℕ) → pair_value high low index ≡ Ok result }
{
    digit_value(high) * 16 + digit_value(low)
}

/// Puts the bytes that hex digits spell into room for just as many. It takes no memory.
pub fn decode_hex(digits: &[u8], room: &mut [u8])
    requires hex { spelled digits.now ≡ true }
    requires size { length digits.now ≡ 2 * length room.old }
    ensures size { length room.new ≡ length room.old }
    ensures bytes { decode_of digits.now ≡ Ok room.new }
{
    'bytes: for i in 0..room.len() {
        room[i] = pair(digits[2 * i], digits[2 * i + 1]);
    }
}
