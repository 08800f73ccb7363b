//! Values of `auth` read: for objects, and for the settings from which a desk is made.

ghost use Rattle.std.specs.Prelude.{◌≡◌, ◌≢◌, map, IfErr, IfOk, None, Some};
ghost use Rattle.std.specs.Char.{is_ascii_alphanumeric};
ghost use Rattle.std.specs.List.{list_all};
ghost use Rattle.rr_object.specs.Auths.{auth_item, auth_of_words, is_salt, is_sha256_pw};
ghost use Rattle.rr_object.specs.Auths.{salted_digest_of};
ghost use Rattle.rr_object.specs.declared.object_fault.ObjectFault.TheVariants.{BadValue, Memory};

use crate::auth::{Auth, DIGEST_BYTES};
use crate::object_fault::ObjectFault;
use rr_bytes::{cut_around, is_keyword, words};
use std::alloc::Global;

/// The most bytes of a salt (profile).
const SALT_BYTES: usize = 16;

/// What a value of `auth` stands for: a salt and a digest, or `None` for another scheme than
/// SHA256-PW, whatever follows that scheme. After SHA256-PW, in any letter case, must stand exactly
/// one word: a salt of at most 16 ASCII letters and digits, a colon and 64 hexadecimal digits. The
/// error is `BadValue` where this is not so, or where the value has no word; or it is that memory
/// ran out (RFC 2622, 3; profile).
pub fn read_auth(alloc: Global, value: &[u8]) -> Result<Option<Auth>, ObjectFault>
    ensures good { IfOk result (λ read. auth_item value.now ≡ Some read) }
    ensures bad { IfErr result
        (λ fault. fault ≢ Memory → (fault ≡ BadValue) × (auth_item value.now ≡ None)) }
{
    let found = words(alloc, value)?;
    read_words(alloc, &found)
}

/// What the words of a value of `auth` stand for. `BadValue` says that they are badly spelled.
#[tactic(auto, unfolding(crate::specs::Auths::auth_of_words))]
fn read_words(alloc: Global, found: &[&[u8]]) -> Result<Option<Auth>, ObjectFault>
    ensures good { IfOk result
        (λ read. auth_of_words (map (λ word. word.now) found.now) ≡ Some read) }
    ensures bad { IfErr result (λ fault. fault ≢ Memory
        → (fault ≡ BadValue) × (auth_of_words (map (λ word. word.now) found.now) ≡ None)) }
{
    match found {
        [] => Err(ObjectFault::BadValue),
        [scheme, further @ ..] => {
            if !is_sha256_pw(scheme) {
                return Ok(None);
            }
            match further {
                [word] => Ok(Some(read_salted_digest(alloc, word)?)),
                _ => Err(ObjectFault::BadValue),
            }
        }
    }
}

fn is_sha256_pw(scheme: &[u8]) -> bool
    ensures { result ≡ is_sha256_pw scheme.now }
{
    is_keyword(scheme, b"sha256-pw")
}

/// A salt, a colon and the hexadecimal digits of a digest, read. `BadValue` says that it is no such
/// word.
#[tactic(auto, unfolding(crate::specs::Auths::salted_digest_of))]
fn read_salted_digest(alloc: Global, word: &[u8]) -> Result<Auth, ObjectFault>
    ensures good { IfOk result (λ auth. salted_digest_of word.now ≡ Some auth) }
    ensures bad { IfErr result (λ fault. fault ≢ Memory
        → (fault ≡ BadValue) × (salted_digest_of word.now ≡ None)) }
{
    let (salt, digits) = cut_around(word, b':');
    if !is_salt(salt) {
        return Err(ObjectFault::BadValue);
    }
    let mut digest = [0; DIGEST_BYTES];
    match hex::decode_to_slice(digits, &mut digest) {
        Ok(()) => Ok(Auth::new(alloc, salt, digest)?),
        Err(_) => Err(ObjectFault::BadValue),
    }
}

fn is_salt(salt: &[u8]) -> bool
    ensures { result ≡ is_salt salt.now }
{
    salt.len() <= SALT_BYTES && is_alphanumeric(salt)
}

fn is_alphanumeric(text: &[u8]) -> bool
    ensures { result ≡ list_all is_ascii_alphanumeric text.now }
{
    text.iter().all(|b| b.is_ascii_alphanumeric())
}
