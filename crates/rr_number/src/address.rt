//! IPv4 addresses, which are read, printed and ordered here: prefixes and spans are made of them,
//! and queries ask for them.
ghost use Rattle.std.specs.Prelude.{◌≡◌, ◌<◌, ◌^◌, Some};
ghost use Rattle.rr_number.specs.Addresses.{IsAddress, address_of, address_text, joined_of};
ghost use Rattle.rr_number.specs.Addresses.{octet_of};
ghost use Rattle.rr_number.specs.ExactReads.{ReadsExactly};
ghost use Rattle.rr_number.specs.Shown.{Shows};

use crate::digits::read_number;
use crate::ends::End;
use crate::number_text::NumberText;
use rr_bytes::cut_at;
use std::fmt;
use std::marker::Model;

/// An IPv4 address, a number below 2^32. Addresses are ordered as numbers (RFC 791, 3).
#[derive(Clone, Copy, Debug, PartialEq, Eq, PartialOrd, Ord)]
pub struct Address {
    bits: u32,
}

impl Model for Address {
    ghost use Rattle.std.specs.Prelude.{ℕ};

    ghost Value = { ℕ };

    ghost view = { λ a. a.bits };

    ghost inverse = { λ n. record { bits = n } };
}

impl Address {
    /// The address of this number; `text` prints the number's highest byte first.
    pub fn from_bits(bits: u32) -> Self
        ensures { result ≡ bits }
    {
        Address { bits }
    }

    /// The address as a number, which is below 2^32.
    pub fn to_bits(self) -> u32
        ensures { Shows (λ bits. bits < 2 ^ 32) self self result }
    {
        self.bits
    }

    /// The address that the whole text spells: four numbers below 256, of one to three digits each,
    /// joined by dots. `None` where the text is spelled otherwise (RFC 2622, 2; digits: profile).
    pub fn read(text: &[u8]) -> Option<Address>
        ensures { ReadsExactly IsAddress address_of text.now result }
    {
        read_address(text)
    }

    /// The four bytes of the address, the highest first, as decimal numbers without leading zeros,
    /// joined by dots (RFC 2622, 2).
    pub fn text(self) -> NumberText
        ensures { result ≡ address_text self }
    {
        let mut text = NumberText::new();
        Address::push_end(self.bits, &mut text);
        text
    }
}

impl End for Address {
    ghost end_of = { address_of };

    ghost end_text = { address_text };

    #[inline]
    fn read_end(text: &[u8]) -> Option<u32> {
        Some(Address::read(text)?.to_bits())
    }

    #[tactic(auto, unfolding(crate::specs::Addresses::address_text))]
    fn push_end(number: u32, text: &mut NumberText) {
        let [first, second, third, fourth] = number.to_be_bytes();
        text.push_byte(first);
        text.push_str(".");
        text.push_byte(second);
        text.push_str(".");
        text.push_byte(third);
        text.push_str(".");
        text.push_byte(fourth);
    }
}

impl fmt::Display for Address {
    ghost output = { λ a. Some (address_text a) };

    fn fmt<W: fmt::Write>(&self, f: &mut fmt::Formatter<W>) -> fmt::Result {
        f.pad(self.text().as_str())
    }
}

/// The octet that the text spells, if it does.
#[inline]
fn read_octet(text: &[u8]) -> Option<u8>
    ensures { result ≡ octet_of text.now }
{
    let number = read_number(text, 3, 256)?;
    Some(number as u8)
}

/// The address of four texts, if each spells an octet.
#[inline]
#[tactic(auto, unfolding(crate::specs::Addresses::joined_of))]
fn join(first: &[u8], second: &[u8], third: &[u8], fourth: &[u8]) -> Option<Address>
    ensures { result ≡ joined_of first.now second.now third.now fourth.now }
{
    let octets = [
        read_octet(first)?,
        read_octet(second)?,
        read_octet(third)?,
        read_octet(fourth)?,
    ];
    Some(Address {
        bits: u32::from_be_bytes(octets),
    })
}

#[inline]
#[tactic(auto, unfolding(crate::specs::Addresses::address_of))]
fn read_address(text: &[u8]) -> Option<Address>
    ensures { result ≡ address_of text.now }
{
    let (first, rest) = cut_at(text, b'.')?;
    let (second, rest) = cut_at(rest, b'.')?;
    let (third, fourth) = cut_at(rest, b'.')?;
    join(first, second, third, fourth)
}
