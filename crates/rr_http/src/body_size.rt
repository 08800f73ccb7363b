//! How large a body is, as `asking` finds it and `body_reading` needs it.

ghost use Rattle.std.specs.Prelude.{◌≡◌, ◌≤◌, None, Some, nat_le, if◌then◌else◌};

use std::marker::Model;

/// How many bytes the body of a request has at most (profile).
pub const BODY_LIMIT: usize = 1_048_576;

/// The size of a body that is taken in, of at most 1,048,576 bytes (profile).
#[derive(Clone, Copy, Debug, PartialEq, Eq)]
pub struct BodySize {
    bytes: usize,
}

impl Model for BodySize {
    ghost use Rattle.std.specs.Prelude.{ℕ, ◌≤◌};
    ghost use Rattle.rr_http.specs.declared.body_size.TheConstants.{BODY_LIMIT};

    ghost Value = { ℕ };

    ghost view = { λ s. s.bytes };

    ghost invariant = { λ s. s.bytes ≤ BODY_LIMIT };

    ghost inverse = { λ n. record { bytes = n } };
}

impl BodySize {
    /// The size of so many bytes; `None` if they are more than 1,048,576 (profile).
    pub fn new(bytes: usize) -> Option<Self>
        ensures { result ≡ (if nat_le bytes BODY_LIMIT then Some bytes else None) }
    {
        if bytes <= BODY_LIMIT {
            Some(BodySize { bytes })
        } else {
            None
        }
    }

    /// How many bytes it is, at most 1,048,576.
    pub fn bytes(self) -> usize
        ensures value { result ≡ self }
        ensures small { self ≤ BODY_LIMIT }
    {
        self.bytes
    }
}
