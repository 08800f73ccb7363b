//! One secret, which is a password, and whether it fits a line of `auth`. `secrets` and `known`
//! keep secrets, and `salted` tries them.

ghost use Rattle.std.specs.Prelude.{◌≡◌, ◌↔◌, ◌++◌, IfOk, IsTrue};
ghost use Rattle.std.specs.List.{list_any};
ghost use Rattle.sha2.specs.Sha256.{sha256};
ghost use Rattle.rr_auth.specs.Passing.{fits_line};

use rr_object::Auth;
use rr_object::auth::DIGEST_BYTES;
use sha2::{Digest, Sha256};
use std::alloc::{AllocError, Global};
use std::marker::Model;

/// The bytes of one secret; contracts see them as a list.
#[derive(Drop)]
pub(crate) struct Secret {
    bytes: Vec<u8>,
}

impl Model for Secret {
    ghost use Rattle.std.specs.Prelude.{List, ℕ};

    ghost Value = { List ℕ };

    ghost view = { λ a. a.bytes.items };
}

impl Secret {
    /// The secret of a copy of these bytes; the error is out of memory.
    pub(crate) fn new(alloc: Global, bytes: &[u8]) -> Result<Secret, AllocError>
        ensures { IfOk result (λ secret. secret ≡ bytes.now) }
    {
        let bytes = Vec::from_slice(alloc, bytes)?;
        Ok(Secret { bytes })
    }

    /// The secret of these bytes, which it keeps.
    pub(crate) fn of(bytes: Vec<u8>) -> Secret
        ensures { result ≡ bytes.items }
    {
        Secret { bytes }
    }

    /// The bytes of the secret.
    pub(crate) fn as_bytes(&self) -> &[u8]
        ensures { result.now ≡ self.now }
    {
        self.bytes.as_slice()
    }

    /// Whether this is the same as the other secret.
    pub(crate) fn is_same(&self, other: &Secret) -> bool
        ensures { IsTrue result ↔ (self.now ≡ other.now) }
    {
        self.as_bytes() == other.as_bytes()
    }
}

/// Whether one of the secrets fits the line.
pub(crate) fn some_fits(secrets: &[Secret], line: &Auth) -> bool
    ensures { result ≡ list_any (fits_line line.now) secrets.now }
{
    secrets.iter().any(|secret| fits_line(line, secret))
}

/// Whether SHA-256 of the line's salt and then the secret is the line's digest (profile;
/// FIPS 180-4).
fn fits_line(line: &Auth, secret: &Secret) -> bool
    ensures { result ≡ fits_line line.now secret.now }
{
    salted_digest(line.salt(), secret) == *line.digest()
}

/// SHA-256 of the salt and then the secret (FIPS 180-4).
pub(crate) fn salted_digest(salt: &[u8], secret: &Secret) -> [u8; DIGEST_BYTES]
    ensures { result ≡ sha256 (salt.now ++ secret.now) }
{
    let mut hasher = Sha256::new();
    hasher.update(salt);
    hasher.update(secret.as_bytes());
    hasher.finalize()
}
