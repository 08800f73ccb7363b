//! Prefixes, as `192.0.2.0/24`, which are read, printed and compared here: keys of routes, what
//! ranges begin with, and one way to spell a span of addresses.
ghost use Rattle.std.specs.Prelude.{◌≡◌, ◌+◌, ◌<◌, ◌≤◌, IfSome};
ghost use Rattle.std.specs.Prelude.{length, Some};
ghost use Rattle.rr_number.specs.ExactReads.{ReadsExactly};
ghost use Rattle.rr_number.specs.NumberTextParts.{Appends};
ghost use Rattle.rr_number.specs.Prefixes.{count_of, masked, masked_of, length_of};
ghost use Rattle.rr_number.specs.Prefixes.{prefix_of, prefix_text, span_of, IsMasked, IsPrefix};
ghost use Rattle.rr_number.specs.Shown.{Shows};
ghost use Rattle.rr_number.specs.Spans.{covers};

use crate::address::Address;
use crate::digits::read_number;
use crate::ends::End;
use crate::number_text::{NUMBER_SIZE, NumberText};
use crate::span::Span;
use rr_bytes::cut_at;
use std::fmt;
use std::marker::Model;

/// A prefix: the addresses whose first `length` bits are those of `address`. The address is below
/// 2^32, the length at most 32, and the bits of the address past the length are zero. Prefixes are
/// ordered by address, then by length (profile).
#[derive(Clone, Copy, Debug, PartialEq, Eq, PartialOrd, Ord)]
pub struct Prefix {
    address: Address,
    length: u8,
}

impl Model for Prefix {
    ghost use Rattle.rr_number.specs.Prefixes.{PrefixParts, IsMasked};

    ghost Value = { PrefixParts };

    ghost view = { λ p. record { address = p.address; length = p.length } };

    ghost invariant = { λ p. IsMasked (record { address = p.address; length = p.length }) };

    ghost inverse = { λ p. record { address = p.address; length = p.length } };
}

impl Prefix {
    /// The prefix of this length, which must be at most 32, that the address lies in. Its own
    /// address is this one with the bits past the length set to zero (profile).
    pub fn new(address: Address, length: u8) -> Self
        requires { length ≤ 32 }
        ensures { result ≡ masked address length }
    {
        let bits = u64::from(address.to_bits());
        Prefix {
            address: Address::from_bits((bits - bits % count(length)) as u32),
            length,
        }
    }

    /// The first address of the prefix. It is below 2^32, and its bits past the length are zero;
    /// the length is at most 32.
    pub fn address(self) -> Address
        ensures { Shows IsMasked self self.address result }
    {
        self.address
    }

    /// How many of their first bits the addresses of the prefix share, at most 32. The prefix's
    /// address is below 2^32, and its bits past the length are zero.
    pub fn length(self) -> u8
        ensures { Shows IsMasked self self.length result }
    {
        self.length
    }

    /// The addresses of the prefix: from its own address on, 2^(32 - length) of them.
    pub fn span(self) -> Span
        ensures { result ≡ span_of self }
    {
        let first = u64::from(self.address.to_bits());
        let last = first + (count(self.length) - 1);
        Span::new(first as u32, last as u32)
    }

    /// Whether each address of `other` is one of this prefix (RFC 2725, 9).
    pub fn covers(self, other: Prefix) -> bool
        ensures { result ≡ covers (span_of self) (span_of other) }
    {
        self.span().covers(other.span())
    }

    /// The prefix that the whole text spells: an address, as `Address::read` reads it, a slash and
    /// a length of one or two digits, at most 32. Bits past the length are read as zero. `None`
    /// where the text is spelled otherwise (RFC 2622, 2; the digits and the bits: profile).
    pub fn read(text: &[u8]) -> Option<Prefix>
        ensures { ReadsExactly IsPrefix prefix_of text.now result }
    {
        read_prefix(text)
    }

    /// The prefix as its address, as `Address::text` prints it, a slash and its length without
    /// leading zeros (RFC 2622, 2).
    pub fn text(self) -> NumberText
        ensures { result ≡ prefix_text self }
    {
        let mut text = NumberText::new();
        self.push_to(&mut text);
        text
    }

    /// Appends the prefix's text, at most 19 bytes, for which `text` must have room.
    #[tactic(auto, unfolding(crate::specs::Prefixes::prefix_text))]
    pub(crate) fn push_to(self, text: &mut NumberText)
        requires { length text.old + 19 ≤ NUMBER_SIZE }
        ensures { Appends 19 (prefix_text self) text.old text.new }
    {
        Address::push_end(self.address.to_bits(), text);
        text.push_str("/");
        text.push_byte(self.length);
    }
}

impl fmt::Display for Prefix {
    ghost output = { λ a. Some (prefix_text a) };

    fn fmt<W: fmt::Write>(&self, f: &mut fmt::Formatter<W>) -> fmt::Result {
        f.pad(self.text().as_str())
    }
}

/// How many addresses a prefix of this length has.
#[inline]
fn count(length: u8) -> u64
    requires { length ≤ 32 }
    ensures { result ≡ count_of length }
{
    1 << (32 - length)
}

/// The length that the text spells in one or two digits, if it is at most 32.
#[inline]
pub(crate) fn read_length(text: &[u8]) -> Option<u8>
    ensures value { result ≡ length_of text.now }
    ensures short { IfSome result (λ length. length ≤ 32) }
{
    let number = read_number(text, 2, 33)?;
    Some(number as u8)
}

/// The prefix of two texts, if they spell an address and a length.
#[inline]
#[tactic(auto, unfolding(crate::specs::Prefixes::masked_of))]
fn join(address: &[u8], length: &[u8]) -> Option<Prefix>
    ensures { result ≡ masked_of address.now length.now }
{
    let address = Address::read(address)?;
    let length = read_length(length)?;
    Some(Prefix::new(address, length))
}

#[inline]
#[tactic(auto, unfolding(crate::specs::Prefixes::prefix_of))]
fn read_prefix(text: &[u8]) -> Option<Prefix>
    ensures { result ≡ prefix_of text.now }
{
    let (address, length) = cut_at(text, b'/')?;
    join(address, length)
}
