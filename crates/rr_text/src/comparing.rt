//! Whether lines are as they are printed, found without printing them: for `read_canonical`.

ghost use Rattle.std.specs.Prelude.{◌≡◌, ◌≤◌};
ghost use Rattle.std.specs.List.{list_all};
ghost use Rattle.std.specs.Option.{option_map};
ghost use Rattle.std.specs.Str.{bytes_eq};
ghost use Rattle.rr_bytes.specs.LetterCase.{lowered};
ghost use Rattle.rr_text.specs.Lines.{text_lines};
ghost use Rattle.rr_text.specs.CanonicalText as canon;
ghost use Rattle.rr_text.specs.KeptText.{is_printed};
ghost use Rattle.rr_text.specs.PrivateParts.{left_after};

use crate::line::{LineKind, added_value, opened_value, split_line, written_name};
use crate::printing::{VALUE_COLUMN, blanks, blanks_after};

/// What stands in a text after these bytes, where it begins with them.
#[inline]
fn after_bytes<'t>(text: &'t [u8], bytes: &[u8]) -> Option<&'t [u8]>
    ensures { option_map (λ left. left.now) result ≡ left_after bytes.now text.now }
{
    text.strip_prefix(bytes)
}

/// What stands after a line with so many spaces before it, where the text begins so; the whole text
/// where the line is empty.
fn after_after_blanks<'t>(text: &'t [u8], count: usize, line: &[u8]) -> Option<&'t [u8]>
    requires { count ≤ canon.value_column }
    ensures { option_map (λ left. left.now) result
        ≡ left_after (canon.after_blanks count line.now) text.now }
{
    if line.is_empty() {
        return Some(text);
    }
    let rest = after_bytes(text, blanks(count))?;
    after_bytes(rest, line)
}

/// What stands in a text after the printed first line of an attribute, where it begins with that.
#[tactic(auto, using(crate::proofs::ComparingLemmas::left_joined))]
fn after_opening<'t>(text: &'t [u8], name: &[u8], line: &[u8]) -> Option<&'t [u8]>
    ensures { option_map (λ left. left.now) result
        ≡ left_after (canon.ended (canon.opening_line name.now line.now)) text.now }
{
    let rest = after_bytes(text, name)?;
    let rest = after_bytes(rest, b":")?;
    let rest = after_after_blanks(rest, blanks_after(name.len()), line)?;
    after_bytes(rest, b"\n")
}

/// What stands in a text after a further line of a value as it is printed, where it begins with
/// that.
#[tactic(auto, using(crate::proofs::ComparingLemmas::further_left))]
fn after_further<'t>(text: &'t [u8], line: &[u8]) -> Option<&'t [u8]>
    ensures { option_map (λ left. left.now) result
        ≡ left_after (canon.ended (canon.further_line line.now)) text.now }
{
    if line.is_empty() {
        return after_bytes(text, b"+\n");
    }
    let rest = after_after_blanks(text, VALUE_COLUMN, line)?;
    after_bytes(rest, b"\n")
}

/// Whether a text is the printed first line of an attribute of this name and first line.
fn is_opening(text: &[u8], name: &[u8], line: &[u8]) -> bool
    ensures { result ≡ bytes_eq (canon.ended (canon.opening_line name.now line.now)) text.now }
{
    match after_opening(text, name, line) {
        Some(rest) => rest.is_empty(),
        None => false,
    }
}

/// Whether a text is this further line of a value as it is printed.
fn is_further(text: &[u8], line: &[u8]) -> bool
    ensures { result ≡ bytes_eq (canon.ended (canon.further_line line.now)) text.now }
{
    match after_further(text, line) {
        Some(rest) => rest.is_empty(),
        None => false,
    }
}

/// Whether a name is in lower case.
fn is_lower(name: &[u8]) -> bool
    ensures { result ≡ bytes_eq (lowered name.now) name.now }
{
    name.iter().all(|byte| byte.to_ascii_lowercase() == *byte)
}

/// Whether a line is as it is printed.
#[tactic(auto, unfolding(crate::specs::KeptText::is_printed))]
fn is_printed(line: &[u8]) -> bool
    ensures { result ≡ is_printed line.now }
{
    match LineKind::of(line) {
        LineKind::Blank | LineKind::Skipped => false,
        LineKind::Continuation => is_further(line, added_value(line)),
        LineKind::Opening => {
            let name = written_name(line);
            is_lower(name) && is_opening(line, name, opened_value(line))
        }
    }
}

/// Whether each line of a text is as it is printed.
pub(crate) fn are_printed(text: &[u8]) -> bool
    ensures { result ≡ list_all is_printed (text_lines text.now) }
{
    let mut rest = text;
    'lines: while !rest.is_empty() {
        let (line, after) = split_line(rest);
        if !is_printed(line) {
            return false;
        }
        rest = after;
    }
    true
}
