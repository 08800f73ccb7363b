//! What holds of addresses, prefixes, operators, ranges, spans, blocks, AS numbers and names
//! together: for readers, and for the proofs of other crates. Each function states a law and does
//! nothing. What a law says of prefixes, it says of all values of `Prefix`: its clause names them
//! by what holds of each, `IsMasked`. So it is with the other types. A printed text that spells a
//! value is read as this value again, by the contract of `read`.
ghost use Rattle.std.specs.Prelude.{◌≡◌, ℕ, ◌<◌, ◌≤◌, ◌^◌, List, Some};
ghost use Rattle.std.specs.Ordering.{nat_cmp};
ghost use Rattle.rr_bytes.specs.LetterCase.{upper};
ghost use Rattle.rr_number.specs.Addresses.{IsAddress, address_text};
ghost use Rattle.rr_number.specs.AsNumbers.{IsAsNumber, as_number_of, as_number_text};
ghost use Rattle.rr_number.specs.AsNumbers.{greatest_as_number};
ghost use Rattle.rr_number.specs.AsSpans.{IsAsSpan, IsAsSpanText, as_span_text};
ghost use Rattle.rr_number.specs.Names.{IsUpperName, name_of};
ghost use Rattle.rr_number.specs.Operators.{IsOperator, IsOperatorValue, operator_cmp};
ghost use Rattle.rr_number.specs.Operators.{operator_text};
ghost use Rattle.rr_number.specs.PrefixLaws.{CoverEachOtherAlone, CoversLonger, PrefixesAreOrdered};
ghost use Rattle.rr_number.specs.PrefixLaws.{PrefixesHaveSpans, PrefixesNeverCross};
ghost use Rattle.rr_number.specs.PrefixLaws.{SpansTellPrefixes};
ghost use Rattle.rr_number.specs.Prefixes.{PrefixParts, IsMasked, IsPrefix, prefix_cmp};
ghost use Rattle.rr_number.specs.Prefixes.{prefix_text};
ghost use Rattle.rr_number.specs.RangeLaws.{OperatorsAdmit, OperatorsAreOrdered};
ghost use Rattle.rr_number.specs.RangeLaws.{OperatorsKeepRanges, PrintedOperatorsMakeRanges};
ghost use Rattle.rr_number.specs.RangeLaws.{PrintedRangesAreRead, RangesAreOrdered};
ghost use Rattle.rr_number.specs.Ranges.{RangeParts, range_cmp};
ghost use Rattle.rr_number.specs.SetNameLaws.{ComponentsArePrinted, ParentsLackTheLast};
ghost use Rattle.rr_number.specs.SetNameLaws.{KindsAreTold, SetNamesAreReadAgain};
ghost use Rattle.rr_number.specs.SetNameLaws.{SetNamesIgnoreCase};
ghost use Rattle.rr_number.specs.SpanTexts.{IsSpanText, span_text};
ghost use Rattle.rr_number.specs.Spans.{Ends, IsSpan};
ghost use Rattle.rr_number.specs.declared.operator.Operator.{Operator};

use crate::address::Address;
use crate::as_number::AsNumber;
use crate::operator::Operator;
use crate::prefix::Prefix;
use crate::range::Range;

/// The printed text of each address below 2^32 spells it.
pub fn printed_addresses_are_read()
    ensures { (address : ℕ) → address < 2 ^ 32 → IsAddress (address_text address) address }
{}

/// The printed text of each value of `Prefix` spells this value.
pub fn printed_prefixes_are_read()
    ensures { (prefix : PrefixParts) → IsMasked prefix → IsPrefix (prefix_text prefix) prefix }
{}

/// The printed text of each value of `Operator` spells this value.
pub fn printed_operators_are_read()
    ensures { (operator : Operator) → IsOperatorValue operator
        → IsOperator (operator_text operator) operator }
{}

/// The printed text of each value of `Range` spells its prefix and the operator that is printed for
/// it. This operator gives the range where it is applied to the prefix alone.
pub fn printed_ranges_are_read()
    ensures spelled { PrintedRangesAreRead }
    ensures made { PrintedOperatorsMakeRanges }
{}

/// The printed text of each value of `Span`, as a span of addresses, spells this value.
pub fn printed_spans_are_read()
    ensures { (span : Ends) → IsSpan span → IsSpanText (span_text span) span }
{}

/// The printed text of each AS number, at most 4294967295, spells it, and is read as it.
pub fn as_numbers_are_read_again()
    ensures spelled { (n : ℕ) → n ≤ greatest_as_number → IsAsNumber (as_number_text n) n }
    ensures again { (n : ℕ) → n ≤ greatest_as_number
        → as_number_of (as_number_text n) ≡ Some n }
{}

/// The printed text of each value of `AsSpan` spells this value.
pub fn printed_blocks_are_read()
    ensures { (block : Ends) → IsAsSpan block → IsAsSpanText (as_span_text block) block }
{}

/// Each value of `Name` is read again from its bytes. Letter case makes no difference to what is
/// read from a text, and what is read is a name in upper case.
pub fn names_are_read_again()
    ensures again { (name : List ℕ) → IsUpperName name → name_of name ≡ Some name }
    ensures case_ignored { (a b : List ℕ) → upper a ≡ upper b → name_of a ≡ name_of b }
    ensures kept { (bs name : List ℕ) → name_of bs ≡ Some name → IsUpperName name }
{}

/// Each value of `SetName` is read again from its printed text. Letter case makes no difference to
/// what is read from a text, and what is read has the components of the spelling, each as it is
/// printed. Unless a value is `AS-ANY` or `RS-ANY`, each of its components is an AS number or a
/// word of its kind, and at least one is such a word. Where a text has the text of a parent, the
/// parent's text has all components of the text but the last.
pub fn set_names_are_read_again()
    ensures again { SetNamesAreReadAgain }
    ensures case_ignored { SetNamesIgnoreCase }
    ensures components { ComponentsArePrinted }
    ensures kinds { KindsAreTold }
    ensures parents { ParentsLackTheLast }
{}

/// The span of a prefix has its ends in order and below 2^32.
pub fn prefixes_have_spans()
    ensures { PrefixesHaveSpans }
{}

/// Two prefixes never cross: they lie apart, or one covers the other.
pub fn prefixes_never_cross()
    ensures { PrefixesNeverCross }
{}

/// A prefix is no longer than one that it covers.
pub fn prefixes_cover_longer_ones()
    ensures { CoversLonger }
{}

/// Only equal prefixes have the same addresses.
pub fn spans_tell_prefixes()
    ensures { SpansTellPrefixes }
{}

/// What an operator makes of a range admits exactly what the range's prefix covers, of the lengths
/// that the operator makes of its lengths. Where the operator drops the range, no prefix has such a
/// length.
pub fn operators_admit_what_they_say()
    ensures { OperatorsAdmit }
{}

/// What an operator makes of a range is a range.
pub fn operators_keep_ranges()
    ensures { OperatorsKeepRanges }
{}

/// Only equal prefixes cover each other.
pub fn only_equal_prefixes_cover_each_other()
    ensures { CoverEachOtherAlone }
{}

/// Addresses are ordered as numbers.
pub fn addresses_are_ordered()
    ensures { (a b : ℕ) → ⟦<Address as Ord>⟧.cmp a b ≡ nat_cmp a b }
{}

/// AS numbers are ordered as numbers.
pub fn as_numbers_are_ordered()
    ensures { (a b : ℕ) → ⟦<AsNumber as Ord>⟧.cmp a b ≡ nat_cmp a b }
{}

/// Prefixes are ordered by address, then by length. The order is total, and only equal ones tie.
pub fn prefixes_are_ordered()
    ensures derived { (p q : PrefixParts) → ⟦<Prefix as Ord>⟧.cmp p q ≡ prefix_cmp p q }
    ensures ordered { PrefixesAreOrdered }
{}

/// Ranges are ordered by prefix, then by least and by greatest length. The order is total, and only
/// equal ones tie.
pub fn ranges_are_ordered()
    ensures derived { (r s : RangeParts) → ⟦<Range as Ord>⟧.cmp r s ≡ range_cmp r s }
    ensures ordered { RangesAreOrdered }
{}

/// Operators are ordered by their forms, none, `^+`, `^-` and lengths, then by their least and by
/// their greatest length. The order is total, and only equal ones tie.
pub fn operators_are_ordered()
    ensures derived { (o p : Operator) → ⟦<Operator as Ord>⟧.cmp o p ≡ operator_cmp o p }
    ensures ordered { OperatorsAreOrdered }
{}
