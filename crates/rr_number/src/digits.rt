//! Decimal numbers within a limit: octets, lengths and AS numbers are read by them.
ghost use Rattle.std.specs.Prelude.{◌≡◌, ◌<◌, ◌≤◌, IfSome};
ghost use Rattle.rr_number.specs.Numerals.{number_of};

/// The number that the text spells in one to `most` digits, if it is below the limit; otherwise
/// `None`. `most` must be at most 19: a number of so many digits fits 64 bits.
#[inline]
#[tactic(auto, unfolding(crate::specs::Numerals::number_of))]
pub(crate) fn read_number(text: &[u8], most: usize, limit: u64) -> Option<u64>
    requires { most ≤ 19 }
    ensures value { result ≡ number_of most limit text.now }
    ensures below { IfSome result (λ number. number < limit) }
{
    if text.is_empty() || text.len() > most {
        return None;
    }
    let mut number = 0;
    'bytes: for byte in text {
        if !byte.is_ascii_digit() {
            return None;
        }
        number = number * 10 + u64::from(byte - b'0');
    }
    if number < limit { Some(number) } else { None }
}
