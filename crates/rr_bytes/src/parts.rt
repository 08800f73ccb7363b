//! Texts in parts, and parts as one text: for lists, the words of queries, of keys and of `auth`,
//! passwords, and values of several lines.

ghost use Rattle.std.specs.Prelude.{◌≡◌, ◌<◌, ◌∷◌, [], IfNone, IfOk, IfSome};
ghost use Rattle.std.specs.Prelude.{length, map, position};
ghost use Rattle.std.specs.List.{slice_split};
ghost use Rattle.rr_bytes.specs.ByteSets.{is_in};
ghost use Rattle.rr_bytes.specs.Parts.{joined_by_space, parts_at, words};

use crate::byte_set::ByteSet;
use std::alloc::{AllocError, Global};

/// The parts into which the bytes of the set `separators` cut the text, in order and without the
/// empty ones (profile); the error is that memory ran out.
pub fn parts_between(
    alloc: Global,
    text: &[u8],
    separators: ByteSet,
) -> Result<Vec<&[u8]>, AllocError>
    ensures { IfOk result
        (λ found. map (λ part. part.now) found.items ≡ parts_at (is_in separators) text.now) }
{
    let mut found = Vec::new(alloc);
    let mut rest = text;
    'parts: while let Some((part, after)) = first_part(rest, separators) {
        if !part.is_empty() {
            found.push(part)?;
        }
        rest = after;
    }
    if !rest.is_empty() {
        found.push(rest)?;
    }
    Ok(found)
}

/// The words of the text, in order: what spaces, tabs and CRs separate, without empty ones
/// (profile). The error is that memory ran out.
#[tactic(auto, unfolding(crate::specs::Parts::words))]
pub fn words(alloc: Global, text: &[u8]) -> Result<Vec<&[u8]>, AllocError>
    ensures { IfOk result (λ found. map (λ word. word.now) found.items ≡ words text.now) }
{
    parts_between(alloc, text, ByteSet::Blanks)
}

/// The texts as one, in order, with a space between each two (profile); the error is that memory
/// ran out.
pub fn joined_by_space(alloc: Global, texts: &[&[u8]]) -> Result<Vec<u8>, AllocError>
    ensures { IfOk result
        (λ joined. joined.items ≡ joined_by_space (map (λ text. text.now) texts.now)) }
{
    match texts {
        [] => Ok(Vec::new(alloc)),
        [first, further @ ..] => join_further(alloc, first, further),
    }
}

/// The first text and the further ones, with a space before each of these.
#[tactic(auto, using(crate::proofs::JoinLemmas::joined_first))]
fn join_further(alloc: Global, first: &[u8], further: &[&[u8]]) -> Result<Vec<u8>, AllocError>
    ensures { IfOk result (λ joined. joined.items
        ≡ joined_by_space (first.now ∷ map (λ text. text.now) further.now)) }
{
    let mut joined = Vec::from_slice(alloc, first)?;
    'further: for text in further {
        joined.push(b' ')?;
        joined.extend_from_slice(text)?;
    }
    Ok(joined)
}

/// The first part of the text and what stands after the byte of the set that ends it, if one does.
/// What stands after it is shorter than the text.
#[tactic(auto, using(crate::proofs::PlaceLemmas::cut_none, crate::proofs::PlaceLemmas::cut_some))]
fn first_part(text: &[u8], separators: ByteSet) -> Option<(&[u8], &[u8])>
    ensures none { IfNone result (slice_split (is_in separators) text.now ≡ text.now ∷ []) }
    ensures some { IfSome result (λ cut. slice_split (is_in separators) text.now
        ≡ cut.0.now ∷ slice_split (is_in separators) cut.1.now) }
    ensures shorter { IfSome result (λ cut. length cut.1.now < length text.now) }
{
    match first_separator(text, separators) {
        None => None,
        Some(end) => {
            let (part, after) = text.split_at(end);
            let (_, after) = after.split_at(1);
            Some((part, after))
        }
    }
}

fn first_separator(text: &[u8], separators: ByteSet) -> Option<usize>
    ensures { result ≡ position (is_in separators) text.now }
{
    text.iter().position(|b| separators.has(*b))
}
