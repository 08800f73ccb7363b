//! Ranges of prefixes, as route-sets and `mnt-routes` have them: a prefix and bounds on lengths.
ghost use Rattle.std.specs.Prelude.{◌≡◌, ◌≤◌};
ghost use Rattle.std.specs.Prelude.{if◌then◌else◌, length, nat_le, Some};
ghost use Rattle.rr_number.specs.Applied.{IsRangedText, operator_for, ranged_from, range_text};
ghost use Rattle.rr_number.specs.Applied.{ranged_of};
ghost use Rattle.rr_number.specs.ExactReads.{ReadsExactly};
ghost use Rattle.rr_number.specs.Ranges.{admits, bare, IsRange};
ghost use Rattle.rr_number.specs.Shown.{Shows};

use crate::number_text::NumberText;
use crate::operator::{LengthBounds, Operator};
use crate::prefix::Prefix;
use rr_bytes::cut_before;
use std::fmt;
use std::marker::Model;

/// A range of prefixes: those that the prefix covers and whose length lies from `low` to `high`.
/// `low` is not below the prefix's length and not above `high`, which is at most 32. Ranges are
/// ordered by address, length, `low` and `high` (profile).
#[derive(Clone, Copy, Debug, PartialEq, Eq, PartialOrd, Ord)]
pub struct Range {
    prefix: Prefix,
    low: u8,
    high: u8,
}

impl Model for Range {
    ghost use Rattle.rr_number.specs.Ranges.{RangeParts, IsRange};

    ghost Value = { RangeParts };

    ghost view = { λ r. record { prefix = r.prefix; low = r.low; high = r.high } };

    ghost invariant = { λ r. IsRange (record { prefix = r.prefix; low = r.low; high = r.high }) };

    ghost inverse = { λ r. record { prefix = r.prefix; low = r.low; high = r.high } };
}

impl Range {
    /// The range of the prefix alone: its least and its greatest length are the prefix's.
    pub fn of(prefix: Prefix) -> Self
        ensures { result ≡ bare prefix }
    {
        let length = prefix.length();
        Range {
            prefix,
            low: length,
            high: length,
        }
    }

    /// The range of the same prefix with these lengths; `None` where the least is above the
    /// greatest. `low` must not be below the prefix's length, nor `high` above 32.
    pub(crate) fn with_lengths(self, low: u8, high: u8) -> Option<Self>
        requires inside { self.prefix.length ≤ low }
        requires short { high ≤ 32 }
        ensures { result ≡ (if nat_le low high
            then Some (record { prefix = self.prefix; low = low; high = high }) else None) }
    {
        if low <= high {
            Some(Range {
                prefix: self.prefix,
                low,
                high,
            })
        } else {
            None
        }
    }

    /// Whether the range admits `prefix`: the range's own prefix covers it, and the length of
    /// `prefix` is not below `low` and not above `high` (RFC 2622, 2).
    pub fn admits(self, prefix: Prefix) -> bool
        ensures { result ≡ admits self prefix }
    {
        self.prefix.covers(prefix) && self.low <= prefix.length() && prefix.length() <= self.high
    }

    /// The range's own prefix. Its address is below 2^32, and the bits past its length are zero.
    /// This length is not above the range's least, the least not above the greatest, and the
    /// greatest not above 32.
    pub fn prefix(self) -> Prefix
        ensures { Shows IsRange self self.prefix result }
    {
        self.prefix
    }

    /// The range's least length: not below its prefix's, and not above the greatest, which is at
    /// most 32. The prefix's address is below 2^32, and its bits past the prefix's length are zero.
    pub fn low(self) -> u8
        ensures { Shows IsRange self self.low result }
    {
        self.low
    }

    /// The range's greatest length: at most 32, and not below the least, which is not below its
    /// prefix's. The prefix's address is below 2^32, and its bits past the prefix's length are
    /// zero.
    pub fn high(self) -> u8
        ensures { Shows IsRange self self.high result }
    {
        self.high
    }

    /// The first of none, `^+` and `^-` that gives the range where it is applied to the range's own
    /// prefix alone. If none of these does, it is the operator of the range's lengths (profile).
    fn operator(self) -> Operator
        ensures { result ≡ operator_for self }
    {
        let length = self.prefix.length();
        match (self.low - length, self.high) {
            (0, high) if high == length => Operator::Plain,
            (0, 32) => Operator::Plus,
            (1, 32) => Operator::Minus,
            _ => Operator::Lengths(LengthBounds::between(self.low, self.high)),
        }
    }

    /// The range as its prefix and, right after it, an operator: the first of `Plain`, `^+` and
    /// `^-` that makes the range of its prefix alone. If none of these does, it is the operator of
    /// the range's lengths (profile).
    #[tactic(auto, unfolding(crate::specs::Applied::range_text))]
    pub fn text(self) -> NumberText
        ensures { result ≡ range_text self }
    {
        let mut text = NumberText::new();
        self.prefix.push_to(&mut text);
        self.operator().push_to(&mut text);
        text
    }
}

impl fmt::Display for Range {
    ghost output = { λ a. Some (range_text a) };

    fn fmt<W: fmt::Write>(&self, f: &mut fmt::Formatter<W>) -> fmt::Result {
        f.pad(self.text().as_str())
    }
}

/// The prefix and the operator that the whole text spells, as `Prefix::read` and `Operator::read`
/// say, one right after the other; where nothing follows the prefix, the operator is `Plain`.
/// `None` where the text is spelled otherwise, as with two operators (RFC 2622, 2).
pub fn read_ranged(text: &[u8]) -> Option<(Prefix, Operator)>
    ensures { ReadsExactly IsRangedText ranged_of text.now result }
{
    read_both(text)
}

/// The prefix and the operator of two texts, if they spell them.
#[tactic(auto, unfolding(crate::specs::Applied::ranged_from))]
fn read_pair(before: &[u8], rest: &[u8]) -> Option<(Prefix, Operator)>
    ensures { result ≡ ranged_from before.now rest.now }
{
    let prefix = Prefix::read(before)?;
    let operator = Operator::read(rest)?;
    Some((prefix, operator))
}

#[tactic(auto, unfolding(crate::specs::Applied::ranged_of))]
fn read_both(text: &[u8]) -> Option<(Prefix, Operator)>
    ensures { result ≡ ranged_of text.now }
{
    let (before, rest) = cut_before(text, b'^');
    read_pair(before, rest)
}
