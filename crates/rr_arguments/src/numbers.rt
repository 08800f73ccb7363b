//! Numbers among the arguments: `command_reading` reads ports and counts by this.

ghost use Rattle.std.specs.Prelude.{◌≡◌, ◌<◌, ◌≤◌, ◌^◌, IfSome};
ghost use Rattle.rr_arguments.specs.Numbers.{number_within};

use rr_bytes::{are_digits, capped_value};

/// The number that an argument spells in decimal digits alone, also with leading zeros, if it is 1
/// to `greatest`, which is below 2^32. `None` for any other argument.
pub(crate) fn read_number(argument: &str, greatest: usize) -> Option<usize>
    requires { greatest < 2 ^ 32 }
    ensures value { result ≡ number_within argument.now greatest }
    ensures within { IfSome result (λ number. number ≤ greatest) }
{
    if argument.is_empty() || !are_digits(argument.as_bytes()) {
        return None;
    }
    match capped_value(argument.as_bytes(), greatest) {
        0 => None,
        number if number <= greatest => Some(number),
        _ => None,
    }
}
