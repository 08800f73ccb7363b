//! The blocks of a text, which are runs of lines between blank ones: `reader` takes them in turn.

ghost use Rattle.std.specs.Prelude.{◌≡◌, ◌<◌, ◌≤◌, ◌∷◌, ◌++◌, ◌⊎◌};
ghost use Rattle.std.specs.Prelude.{ℕ, List, [], length, drop, true, IfSome, IfNone};
ghost use Rattle.rr_text.specs.Lines.{text_lines};
ghost use Rattle.rr_text.specs.Blocks.{blocks, from_blank, from_block, place_after};
ghost use Rattle.rr_text.specs.PrivateParts.{starts_block, until_blank};

use crate::line::{is_blank_only, is_of_paragraph, split_line};

/// The text from the first line of its first block on; nothing where it has no block.
fn skip_to_block(text: &[u8]) -> &[u8]
    ensures after { (prefix : List ℕ) × (text.now ≡ prefix ++ result.now) }
    ensures same { blocks (text_lines result.now) ≡ blocks (text_lines text.now) }
    ensures lines { text_lines result.now ≡ from_block (text_lines text.now) }
    ensures starts { (result.now ≡ []) ⊎ (starts_block (text_lines result.now) ≡ true) }
{
    let mut rest = text;
    'lines: while !rest.is_empty() {
        let (line, after) = split_line(rest);
        if is_of_paragraph(line) {
            return rest;
        }
        rest = after;
    }
    rest
}

/// The lines of a text up to its first blank line, and the text from that line on.
fn split_block(text: &[u8]) -> (&[u8], &[u8])
    ensures whole { text.now ≡ result.0.now ++ result.1.now }
    ensures block { text_lines result.0.now ≡ until_blank (text_lines text.now) }
    ensures after { text_lines result.1.now ≡ from_blank (text_lines text.now) }
{
    let mut rest = text;
    'lines: while !rest.is_empty() {
        let (line, after) = split_line(rest);
        if is_blank_only(line) {
            break 'lines;
        }
        rest = after;
    }
    text.split_at(text.len() - rest.len())
}

/// The first block of the text from a place on, with the place of the blank line after it, or the
/// end of the text where there is none.
pub(crate) fn take_block(text: &[u8], from: usize) -> Option<(&[u8], usize)>
    requires { from ≤ length text.now }
    ensures none { IfNone result (blocks (text_lines (drop from text.now)) ≡ []) }
    ensures end { IfNone result (length text.now ≡ place_after from text.now) }
    ensures after { IfSome result (λ taken. taken.1 ≡ place_after from text.now) }
    ensures found { IfSome result (λ taken. (from < taken.1) × (taken.1 ≤ length text.now)
        × (starts_block (text_lines taken.0.now) ≡ true)
        × (blocks (text_lines (drop from text.now))
        ≡ text_lines taken.0.now ∷ blocks (text_lines (drop taken.1 text.now)))) }
{
    let (_, left) = text.split_at(from);
    let rest = skip_to_block(left);
    if rest.is_empty() {
        return None;
    }
    let (block, after) = split_block(rest);
    Some((block, text.len() - after.len()))
}
