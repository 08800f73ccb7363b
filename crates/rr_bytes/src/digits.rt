//! Numbers in decimal digits, as command lines and heads of requests have them.

ghost use Rattle.std.specs.Prelude.{◌≡◌, ◌<◌, ◌^◌, true};
ghost use Rattle.std.specs.Char.{is_ascii_digit};
ghost use Rattle.std.specs.List.{list_all};
ghost use Rattle.rr_bytes.specs.Digits.{capped_value};

/// Whether each byte of the text is a decimal digit; true of an empty text.
pub fn are_digits(text: &[u8]) -> bool
    ensures { result ≡ list_all is_ascii_digit text.now }
{
    text.iter().all(|byte| byte.is_ascii_digit())
}

/// The number that the digits spell, 0 where there are none; or one more than `greatest` where that
/// is less. Each byte must be a digit, and `greatest` must be below 2^32.
pub fn capped_value(digits: &[u8], greatest: usize) -> usize
    requires digits { list_all is_ascii_digit digits.now ≡ true }
    requires fits { greatest < 2 ^ 32 }
    ensures { result ≡ capped_value greatest digits.now }
{
    let mut value = 0;
    'digits: for digit in digits {
        value = (value * 10 + usize::from(*digit - b'0')).min(greatest + 1);
    }
    value
}
