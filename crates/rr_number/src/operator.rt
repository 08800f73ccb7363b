//! Range operators, as `^24-32`: read after prefixes and names of sets in `members` and
//! `mnt-routes`, printed, and applied to ranges when these are read or sets are expanded.
ghost use Rattle.std.specs.Prelude.{◌≡◌, ◌+◌, ◌<◌, ◌≤◌, length, Some};
ghost use Rattle.rr_number.specs.Applied.{applied};
ghost use Rattle.rr_number.specs.Bounds.{IsBounds};
ghost use Rattle.rr_bytes.specs.Cuts.{cut_at};
ghost use Rattle.rr_number.specs.Dashes.{dash};
ghost use Rattle.rr_number.specs.ExactReads.{ReadsExactly};
ghost use Rattle.rr_number.specs.NumberTextParts.{Appends};
ghost use Rattle.rr_number.specs.Operators.{IsOperator, carried_of, lengths_cut_of, lengths_text};
ghost use Rattle.rr_number.specs.Operators.{one_length_of, operator_of, operator_text};
ghost use Rattle.rr_number.specs.Operators.{two_lengths_of};
ghost use Rattle.rr_number.specs.Shown.{Shows};

use crate::number_text::{NUMBER_SIZE, NumberText};
use crate::prefix::read_length;
use crate::range::Range;
use rr_bytes::cut_at;
use std::fmt;
use std::marker::Model;

/// What a range operator makes of the lengths of a prefix or a range (RFC 2622, 2). A prefix or a
/// name carries at most one. Operators are ordered as they stand here, `Lengths` by their bounds
/// (profile).
#[derive(Clone, Copy, Debug, PartialEq, Eq, PartialOrd, Ord)]
pub enum Operator {
    /// No operator: the lengths as they are.
    Plain,
    /// `^+`: also each greater length, up to 32.
    Plus,
    /// `^-`: only the lengths above the least, up to 32.
    Minus,
    /// `^n-m`, or `^n` where the two are equal: the lengths from n to m, but none below the least.
    Lengths(LengthBounds),
}

/// A least and a greatest length of prefixes, the least not above the greatest, and this not above
/// 32. Bounds are ordered by the least length, then by the greatest (profile).
#[derive(Clone, Copy, Debug, PartialEq, Eq, PartialOrd, Ord)]
pub struct LengthBounds {
    low: u8,
    high: u8,
}

impl Model for LengthBounds {
    ghost use Rattle.rr_number.specs.Bounds.{Bounds, IsBounds};

    ghost Value = { Bounds };

    ghost view = { λ b. record { low = b.low; high = b.high } };

    ghost invariant = { λ b. IsBounds (record { low = b.low; high = b.high }) };

    ghost inverse = { λ b. record { low = b.low; high = b.high } };
}

impl LengthBounds {
    /// The bounds of these two lengths: `low` must not be above `high`, nor `high` above 32.
    pub(crate) fn between(low: u8, high: u8) -> Self
        requires { IsBounds (record { low = low; high = high }) }
        ensures { result ≡ record { low = low; high = high } }
    {
        LengthBounds { low, high }
    }

    /// The least length, not above the greatest, which is at most 32.
    pub(crate) fn low(self) -> u8
        ensures { Shows IsBounds self self.low result }
    {
        self.low
    }

    /// The greatest length, at most 32, and not below the least.
    pub(crate) fn high(self) -> u8
        ensures { Shows IsBounds self self.high result }
    {
        self.high
    }
}

impl Operator {
    /// The operator that the whole text spells: `^+`, `^-`, `^n`, `^n-m`, or nothing, which spells
    /// `Plain`. A length has one or two digits and is at most 32, and n is not above m; `^n` has n
    /// as both lengths. `None` where the text is spelled otherwise (RFC 2622, 2; nothing and the
    /// digits: profile).
    pub fn read(text: &[u8]) -> Option<Operator>
        ensures { ReadsExactly IsOperator operator_of text.now result }
    {
        read_operator(text)
    }

    /// What the operator makes of the range: the same prefix, with lengths as follows. `Plain`
    /// leaves the range's; `^+` goes from its least to 32, `^-` from one above its least to 32.
    /// `^n-m` goes from n, or the least where this is greater, to m. `None` where the least would
    /// then be above the greatest or above 32: so `^8` drops a range of lengths from 16 (RFC 2622,
    /// 2).
    #[tactic(auto, unfolding(crate::specs::Applied::applied, crate::specs::Applied::lengths_under))]
    pub fn apply(self, range: Range) -> Option<Range>
        ensures { result ≡ applied self range }
    {
        match self {
            Operator::Plain => Some(range),
            Operator::Plus => range.with_lengths(range.low(), 32),
            Operator::Minus => range.with_lengths(range.low() + 1, 32),
            Operator::Lengths(lengths) => range.with_lengths(
                lengths.low().max(range.low()),
                lengths.high(),
            ),
        }
    }

    /// The operator as it is printed: nothing for `Plain`, `^+`, `^-`, `^n-m`, or `^n` where both
    /// lengths are n, without leading zeros (profile).
    pub fn text(self) -> NumberText
        ensures { result ≡ operator_text self }
    {
        let mut text = NumberText::new();
        self.push_to(&mut text);
        text
    }

    /// Appends the operator's text, at most 8 bytes, for which `text` must have room.
    #[tactic(auto, unfolding(crate::specs::Operators::operator_text))]
    pub(crate) fn push_to(self, text: &mut NumberText)
        requires { length text.old + 8 ≤ NUMBER_SIZE }
        ensures { Appends 8 (operator_text self) text.old text.new }
    {
        match self {
            Operator::Plain => {}
            Operator::Plus => text.push_str("^+"),
            Operator::Minus => text.push_str("^-"),
            Operator::Lengths(lengths) => push_lengths(text, lengths.low(), lengths.high()),
        }
    }
}

impl fmt::Display for Operator {
    ghost output = { λ a. Some (operator_text a) };

    fn fmt<W: fmt::Write>(&self, f: &mut fmt::Formatter<W>) -> fmt::Result {
        f.pad(self.text().as_str())
    }
}

/// Appends the text of the operator of two lengths, at most 8 bytes.
fn push_lengths(text: &mut NumberText, low: u8, high: u8)
    requires { length text.old + 8 ≤ NUMBER_SIZE }
    ensures { Appends 8 (lengths_text low high) text.old text.new }
{
    text.push_str("^");
    text.push_byte(low);
    if low != high {
        text.push_str("-");
        text.push_byte(high);
    }
}

/// The operator of the length that the text spells, if it does.
#[tactic(auto, unfolding(crate::specs::Operators::one_length_of))]
fn read_one_length(text: &[u8]) -> Option<Operator>
    ensures { result ≡ one_length_of text.now }
{
    let length = read_length(text)?;
    Some(Operator::Lengths(LengthBounds {
        low: length,
        high: length,
    }))
}

/// The operator of the lengths that two texts spell, if they do and the first is not above the
/// second.
#[tactic(auto, unfolding(crate::specs::Operators::two_lengths_of))]
fn read_two_lengths(first: &[u8], second: &[u8]) -> Option<Operator>
    ensures { result ≡ two_lengths_of first.now second.now }
{
    let low = read_length(first)?;
    let high = read_length(second)?;
    if low > high {
        return None;
    }
    Some(Operator::Lengths(LengthBounds { low, high }))
}

/// The lengths after a caret: one, or two with a dash between them.
fn read_lengths(text: &[u8]) -> Option<Operator>
    ensures { result ≡ lengths_cut_of text.now (cut_at dash text.now) }
{
    match cut_at(text, b'-') {
        Some((first, second)) => read_two_lengths(first, second),
        None => read_one_length(text),
    }
}

/// The operator whose text after the caret is this.
#[tactic(auto, unfolding(crate::specs::Operators::carried_of))]
fn read_carried(text: &[u8]) -> Option<Operator>
    ensures { result ≡ carried_of text.now }
{
    match text {
        b"+" => Some(Operator::Plus),
        b"-" => Some(Operator::Minus),
        lengths => read_lengths(lengths),
    }
}

#[tactic(auto, unfolding(crate::specs::Operators::operator_of))]
fn read_operator(text: &[u8]) -> Option<Operator>
    ensures { result ≡ operator_of text.now }
{
    match text.split_first() {
        None => Some(Operator::Plain),
        Some((b'^', carried)) => read_carried(carried),
        Some(_) => None,
    }
}
