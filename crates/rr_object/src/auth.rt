//! Lines of `auth` as they are kept with a mntner: a salt and a digest. `auths` makes them, and
//! `rr_auth` tries secrets with them.

ghost use Rattle.std.specs.Prelude.{◌≡◌, IfOk};

use std::alloc::{AllocError, Global};
use std::marker::Model;

/// How many bytes a SHA-256 digest has (FIPS 180-4).
pub const DIGEST_BYTES: usize = 32;

/// A salt, and the SHA-256 digest of the salt followed by a secret (profile). In what `read_auth`
/// gives, the salt is 0 to 16 letters or digits.
#[derive(Debug, Drop)]
pub struct Auth {
    salt: Vec<u8>,
    digest: [u8; DIGEST_BYTES],
}

impl Model for Auth {
    ghost use Rattle.rr_object.specs.Parts.{AuthParts};

    ghost Value = { AuthParts };

    ghost view = { λ a. record { salt = a.salt.items; digest = a.digest } };
}

impl Auth {
    /// The digest with a copy of its salt; the error is that memory ran out.
    pub(crate) fn new(
        alloc: Global,
        salt: &[u8],
        digest: [u8; DIGEST_BYTES],
    ) -> Result<Auth, AllocError>
        ensures { IfOk result (λ auth. auth ≡ record { salt = salt.now; digest = digest }) }
    {
        let salt = Vec::from_slice(alloc, salt)?;
        Ok(Auth { salt, digest })
    }

    /// The salt.
    pub fn salt(&self) -> &[u8]
        ensures { result.now ≡ self.now.salt }
    {
        self.salt.as_slice()
    }

    /// The digest, of 32 bytes.
    pub fn digest(&self) -> &[u8; DIGEST_BYTES]
        ensures { result.now ≡ self.now.digest }
    {
        &self.digest
    }
}
