//! What the value of an attribute says, without its comments: for all that interprets attributes.

ghost use Rattle.std.specs.Prelude.{◌≡◌, IfOk, map};
ghost use Rattle.rr_text.specs.Meanings as meanings;

use crate::attribute::Attribute;
use crate::text::Text;
use rr_bytes::{ByteSet, cut_before, joined_by_space, trim};
use std::alloc::{AllocError, Global};

/// A line less its comment and the blanks round it.
fn uncommented(line: &[u8]) -> &[u8]
    ensures { result.now ≡ meanings.uncommented line.now }
{
    let (text, _) = cut_before(line, b'#');
    trim(text, ByteSet::BlanksAndLineFeeds)
}

/// Lines less their comments and the blanks round them.
fn uncommented_lines<'t>(alloc: Global, lines: &[&'t [u8]]) -> Result<Vec<&'t [u8]>, AllocError>
    ensures { IfOk result (λ said. map (λ line. line.now) said.items
        ≡ map meanings.uncommented (map (λ line. line.now) lines.now)) }
{
    let mut said = Vec::with_capacity(alloc, lines.len())?;
    'lines: for line in lines {
        said.push(uncommented(line))?;
    }
    Ok(said)
}

/// What the lines of a value say.
#[tactic(auto, unfolding(crate::specs::Meanings::value_meaning))]
fn lines_meaning(alloc: Global, lines: &[&[u8]]) -> Result<Text, AllocError>
    ensures { IfOk result
        (λ text. text ≡ meanings.value_meaning (map (λ line. line.now) lines.now)) }
{
    let said = uncommented_lines(alloc, lines)?;
    let joined = joined_by_space(alloc, &said)?;
    Text::from_slice(alloc, trim(&joined, ByteSet::BlanksAndLineFeeds))
}

/// What the value of an attribute says: its lines without their comments, each from a `#` on, and
/// without the blanks round them, with one space between each two. Blanks round the whole are left
/// out, too (RFC 2622, 2; the space: profile). The error is that memory ran out.
#[tactic(auto, using(crate::proofs::MeaningLemmas::of_one_line))]
pub fn meaning(alloc: Global, attribute: &Attribute) -> Result<Text, AllocError>
    ensures { IfOk result (λ text. text ≡ meanings.value_meaning attribute.now.lines) }
{
    match attribute.only_line() {
        Some(line) => Text::from_slice(alloc, uncommented(line)),
        None => {
            let lines = attribute.lines(alloc)?;
            lines_meaning(alloc, &lines)
        }
    }
}
