//! AS numbers, which are read, printed and ordered here: keys of aut-nums, origins of routes, ends
//! of as-blocks, members of sets, and components of their names.
ghost use Rattle.std.specs.Prelude.{◌≡◌, length, ◌+◌, ◌≤◌};
ghost use Rattle.std.specs.Prelude.{Some};
ghost use Rattle.rr_io.specs.Sending.{Writes};
ghost use Rattle.rr_number.specs.ExactReads.{ReadsExactly};
ghost use Rattle.rr_number.specs.NumberTextParts.{Appends};
ghost use Rattle.rr_number.specs.Numerals.{number_of};
ghost use Rattle.rr_number.specs.AsNumbers.{as_number_of, as_number_text, greatest_as_number};
ghost use Rattle.rr_number.specs.AsNumbers.{IsAsNumber};
ghost use Rattle.rr_number.specs.Shown.{Shows};

use crate::digits::read_number;
use crate::ends::End;
use crate::number_text::{NUMBER_SIZE, NumberText};
use rr_bytes::is_keyword;
use rr_io::{Writer, write_all};
use std::marker::Model;
use std::{fmt, io};

/// The greatest AS number, of four octets (RFC 6793, 3).
const GREATEST: u32 = 4_294_967_295;

/// The most digits that an AS number is spelled in (profile).
const MOST_DIGITS: usize = 10;

/// The number of an autonomous system, at most 4294967295. AS numbers are ordered as numbers
/// (profile).
#[derive(Clone, Copy, Debug, PartialEq, Eq, PartialOrd, Ord)]
pub struct AsNumber {
    number: u32,
}

impl Model for AsNumber {
    ghost use Rattle.std.specs.Prelude.{ℕ, ◌≤◌};
    ghost use Rattle.rr_number.specs.AsNumbers.{greatest_as_number};

    ghost Value = { ℕ };

    ghost view = { λ a. a.number };

    ghost invariant = { λ a. a.number ≤ greatest_as_number };

    ghost inverse = { λ n. record { number = n } };
}

impl AsNumber {
    /// The AS number of this value: each number of 32 bits is one (RFC 6793, 3).
    pub fn new(number: u32) -> Self
        ensures { result ≡ number }
    {
        AsNumber { number }
    }

    /// The AS number as a number, at most 4294967295.
    pub fn number(self) -> u32
        ensures { Shows (λ number. number ≤ greatest_as_number) self self result }
    {
        self.number
    }

    /// The AS number that the bytes spell: `AS`, in any letter case, and right after it 1 to 10
    /// digits of a number of at most 4294967295. Leading zeros count as digits. `None` where they
    /// spell none (RFC 2622, 2; RFC 6793, 3; the count of digits: profile).
    pub fn read(bytes: &[u8]) -> Option<Self>
        ensures { ReadsExactly IsAsNumber as_number_of bytes.now result }
    {
        match number_at(bytes) {
            Some(number) => Some(AsNumber { number }),
            None => None,
        }
    }

    /// The printed text: `AS` and the number without leading zeros (RFC 5396, 2).
    pub fn text(self) -> NumberText
        ensures { result ≡ as_number_text self }
    {
        let mut text = NumberText::new();
        push_text(self.number, &mut text);
        text
    }

    /// Writes the printed text, as `write_all` does. The error is that a write failed: the writer
    /// has then taken the beginning of the text, and not all.
    pub fn print_to<W: Writer>(&self, writer: &mut W) -> io::Result<()>
        ensures { Writes (W.told writer.old) (W.told writer.new)
            (as_number_text self.now) result }
    {
        write_all(writer, self.text().as_bytes())
    }
}

impl End for AsNumber {
    ghost end_of = { as_number_of };

    ghost end_text = { as_number_text };

    fn read_end(text: &[u8]) -> Option<u32> {
        Some(AsNumber::read(text)?.number())
    }

    fn push_end(number: u32, text: &mut NumberText) {
        push_text(number, text);
    }
}

/// Appends the printed text of the number, at most 12 bytes.
fn push_text(number: u32, text: &mut NumberText)
    requires { length text.old + 12 ≤ NUMBER_SIZE }
    ensures { Appends 12 (as_number_text number) text.old text.new }
{
    text.push_str("AS");
    text.push_number(number);
}

impl fmt::Display for AsNumber {
    ghost output = { λ a. Some (as_number_text a) };

    fn fmt<W: fmt::Write>(&self, f: &mut fmt::Formatter<W>) -> fmt::Result {
        f.pad(self.text().as_str())
    }
}

/// The number of the AS number that the bytes spell, if they spell one.
#[tactic(auto, unfolding(crate::specs::AsNumbers::as_number_of))]
fn number_at(bytes: &[u8]) -> Option<u32>
    ensures { result ≡ as_number_of bytes.now }
{
    if bytes.len() < 2 {
        return None;
    }
    let (word, digits) = bytes.split_at(2);
    if !is_keyword(word, b"AS") {
        return None;
    }
    number_in(digits)
}

/// The number that the text spells in one to ten digits, if it is that of an AS.
#[tactic(auto, unfolding(crate::specs::Numerals::number_of))]
fn number_in(digits: &[u8]) -> Option<u32>
    ensures { result ≡ number_of 10 (greatest_as_number + 1) digits.now }
{
    match read_number(digits, MOST_DIGITS, u64::from(GREATEST) + 1) {
        Some(number) => Some(number as u32),
        None => None,
    }
}
