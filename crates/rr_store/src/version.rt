//! The versions of tables, and how each writes its number and its keys. Reading and migrating ask
//! for one of them, and messages print their numbers.

ghost use Rattle.std.specs.Prelude.{◌≡◌, ◌<◌, ◌^◌, decimal, IfOk, IfSome, IsTrue};
ghost use Rattle.std.specs.Prelude.{None, Some};
ghost use Rattle.std.specs.Option.{option_map};
ghost use Rattle.rr_store.specs.Versions.{form_of, other_of, version_number, version_text};

use itoa::Buffer;
use rr_object::Key;
use std::alloc::{AllocError, Global};

/// The version of the tables that a store has.
pub const VERSION: u32 = 2;

/// The version of the tables that a migration turns into those of a store.
pub const OLD_VERSION: u32 = 1;

/// The version of tables, which says how their keys are written.
#[derive(Clone, Copy, Debug, PartialEq, Eq)]
pub enum Version {
    /// 1: 16-bit AS numbers, in four hexadecimal digits.
    Old,
    /// 2: 32-bit AS numbers, in eight.
    Current,
}

impl Version {
    /// The other one of the two.
    pub fn other(self) -> Version
        ensures { result ≡ other_of self }
    {
        match self {
            Version::Old => Version::Current,
            Version::Current => Version::Old,
        }
    }

    /// The number of the version, 1 or 2.
    pub fn number(self) -> u32
        ensures { result ≡ version_number self }
    {
        match self {
            Version::Old => OLD_VERSION,
            Version::Current => VERSION,
        }
    }

    /// The number of the version in decimal digits, as `meta` has it.
    pub fn text(self) -> &'static [u8]
        ensures { result.now ≡ version_text self }
    {
        match self {
            Version::Old => b"1",
            Version::Current => b"2",
        }
    }

    /// The bytes of a key in tables of this version, if it has some there. In version 1 exactly the
    /// keys with an AS number above 65535, in a set's name too, have none; in version 2 each has
    /// some. The error is that memory ran out.
    pub fn key_bytes(self, alloc: Global, key: &Key) -> Result<Option<Vec<u8>>, AllocError>
        ensures { IfOk result
            (λ bytes. option_map (λ b. b.items) bytes ≡ form_of self key.now) }
    {
        match self {
            Version::Old => key.old_bytes(alloc),
            Version::Current => Ok(Some(key.bytes(alloc)?)),
        }
    }
}

/// The bytes as a text, if they are one; decimal digits are.
fn text_of(bytes: &[u8]) -> Option<&str>
    ensures found { IfSome result (λ text. text.now ≡ bytes.now) }
    ensures only { (n : _) → n < 2 ^ 32 → bytes.now ≡ decimal n → result ≡ None → ⊥ }
{
    match std::str::from_utf8(bytes) {
        Ok(text) => Some(text),
        Err(_) => None,
    }
}

/// The number that a text is read as, if it is one; decimal digits are read as theirs.
#[tactic(auto, using(crate::proofs::VersionLemmas::decimal_is_read))]
fn parsed(text: &str) -> Option<u32>
    ensures { (n : _) → n < 2 ^ 32 → text.now ≡ decimal n → result ≡ Some n }
{
    match text.parse::<u32>() {
        Ok(number) => Some(number),
        Err(_) => None,
    }
}

/// Whether the bytes write the number without leading zeros.
fn is_decimal(bytes: &[u8], number: u32) -> bool
    ensures is { IsTrue result → bytes.now ≡ decimal number }
    ensures only { bytes.now ≡ decimal number → IsTrue result }
{
    let mut buffer = Buffer::new();
    buffer.format(number).as_bytes() == bytes
}

/// The number that bytes, given as a text too, write in decimal digits without leading zeros, if
/// they do.
fn number_of_text(bytes: &[u8], text: &str) -> Option<u32>
    requires { text.now ≡ bytes.now }
    ensures found { IfSome result (λ n. bytes.now ≡ decimal n) }
    ensures only { (n : _) → n < 2 ^ 32 → bytes.now ≡ decimal n → result ≡ Some n }
{
    match parsed(text) {
        Some(number) => {
            if is_decimal(bytes, number) {
                Some(number)
            } else {
                None
            }
        }
        None => None,
    }
}

/// The number of 32 bits that bytes write in decimal digits without leading zeros, if they do.
pub fn read_decimal(bytes: &[u8]) -> Option<u32>
    ensures found { IfSome result (λ n. bytes.now ≡ decimal n) }
    ensures only { (n : _) → n < 2 ^ 32 → bytes.now ≡ decimal n → result ≡ Some n }
{
    match text_of(bytes) {
        Some(text) => number_of_text(bytes, text),
        None => None,
    }
}
