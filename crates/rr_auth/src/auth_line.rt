//! Copies of lines of `auth`, which `tried` keeps with an answer.

ghost use Rattle.std.specs.Prelude.{◌≡◌, ◌↔◌, IfOk, IsTrue};

use rr_object::Auth;
use rr_object::auth::DIGEST_BYTES;
use std::alloc::{AllocError, Global};
use std::marker::Model;

/// A copy of a line of `auth`.
#[derive(Drop)]
pub(crate) struct Line {
    salt: Vec<u8>,
    digest: [u8; DIGEST_BYTES],
}

impl Model for Line {
    ghost use Rattle.rr_object.specs.Parts.{AuthParts};

    ghost Value = { AuthParts };

    ghost view = { λ a. record { salt = a.salt.items; digest = a.digest } };
}

impl Line {
    /// A copy of the line; the error is out of memory.
    fn of(alloc: Global, line: &Auth) -> Result<Line, AllocError>
        ensures { IfOk result (λ copy. copy ≡ line.now) }
    {
        let salt = Vec::from_slice(alloc, line.salt())?;
        Ok(Line {
            salt,
            digest: *line.digest(),
        })
    }

    /// Whether this is a copy of the line.
    fn is_of(&self, line: &Auth) -> bool
        ensures { IsTrue result ↔ (self.now ≡ line.now) }
    {
        self.digest == *line.digest() && self.salt.as_slice() == line.salt()
    }
}

/// Copies of the lines; the error is out of memory.
pub(crate) fn copy_lines(alloc: Global, lines: &[Auth]) -> Result<Vec<Line>, AllocError>
    ensures { IfOk result (λ copies. copies.items ≡ lines.now) }
{
    let mut copies = Vec::with_capacity(alloc, lines.len())?;
    for line in lines {
        let copy = Line::of(alloc, line)?;
        copies.push(copy)?;
    }
    Ok(copies)
}

/// Whether these are copies of the lines, in their order.
pub(crate) fn are_lines(copies: &[Line], lines: &[Auth]) -> bool
    ensures { IsTrue result ↔ (copies.now ≡ lines.now) }
{
    if copies.len() != lines.len() {
        return false;
    }
    'lines: for i in 0..lines.len() {
        if !copies[i].is_of(&lines[i]) {
            return false;
        }
    }
    true
}
