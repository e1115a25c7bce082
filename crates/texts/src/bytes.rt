//! Hex digits.

ghost use Rattle.std.specs.Prelude.{◌≡◌};
ghost use Rattle.std.specs.List.{list_all};
ghost use Rattle.std.specs.Char.{is_ascii_hexdigit};
ghost use Rattle.texts.specs.Words.{is_hex_text as spelled};

/// Returns whether it is an even number of hex digits, of either case, and at least two.
pub fn is_hex_text(digits: &[u8]) -> bool
    ensures { result ≡ spelled digits.now }
{
    digits.len() >= 2 && digits.len() % 2 == 0 && are_hex_digits(digits)
}

/// Returns whether all are hex digits. It looks at each of them, whatever those before it are, so that they are looked
/// at many at a time.
fn are_hex_digits(digits: &[u8]) -> bool
    ensures { result ≡ list_all is_ascii_hexdigit digits.now }
{
    let mut good = true;
    for digit in digits {
        good &= digit.is_ascii_hexdigit();
    }
    good
}
