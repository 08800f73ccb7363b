//! Texts cut at a byte, as lines, keys, prefixes, names of sets and heads of requests are read.
//! `rr_text` finds the ends of all lines by `place_of`: no contract states its cost, so none would
//! show that it got slower.

ghost use Rattle.std.specs.Prelude.{◌≡◌, ◌==◌, ◌≤◌, length, position};
ghost use Rattle.std.specs.List.{after_first, before_first, position_or_len};
ghost use Rattle.std.specs.Option.{option_map};
ghost use Rattle.rr_bytes.specs.Cuts.{cut_at, from_first};

use memchr::memchr;

/// How many bytes of the text stand before the first that equals `byte`; `None` where it has none.
#[inline]
#[tactic(auto, using(crate::proofs::PlaceLemmas::place_found))]
pub fn place_of(text: &[u8], byte: u8) -> Option<usize>
    ensures { result ≡ position (λ b. b == byte) text.now }
{
    memchr(byte, text)
}

/// What stands before and after the first `byte` of the text; `None` where it has none.
#[inline]
#[tactic(auto, unfolding(crate::specs::Cuts::cut_at))]
pub fn cut_at(text: &[u8], byte: u8) -> Option<(&[u8], &[u8])>
    ensures { option_map (λ parts. (parts.0.now, parts.1.now)) result ≡ cut_at byte text.now }
{
    let place = place_of(text, byte)?;
    let (before, _) = text.split_at(place);
    let (_, after) = text.split_at(place + 1);
    Some((before, after))
}

/// What stands before the first `byte` of the text, and the rest, which begins with it; where it
/// has none, all of the text and nothing.
#[inline]
pub fn cut_before(text: &[u8], byte: u8) -> (&[u8], &[u8])
    ensures before { result.0.now ≡ before_first (λ b. b == byte) text.now }
    ensures rest { result.1.now ≡ from_first byte text.now }
{
    text.split_at(end_of_before(text, byte))
}

/// What stands before and after the first `byte` of the text; where it has none, all of the text
/// and nothing.
#[inline]
pub fn cut_around(text: &[u8], byte: u8) -> (&[u8], &[u8])
    ensures before { result.0.now ≡ before_first (λ b. b == byte) text.now }
    ensures after { result.1.now ≡ after_first (λ b. b == byte) text.now }
{
    let place = end_of_before(text, byte);
    let (before, rest) = text.split_at(place);
    if rest.is_empty() {
        return (before, rest);
    }
    let (_, after) = text.split_at(place + 1);
    (before, after)
}

/// How many bytes of the text stand before the first that equals `byte`, or the text's length where
/// it has none.
#[inline]
#[tactic(auto, using(crate::proofs::PlaceLemmas::placed))]
fn end_of_before(text: &[u8], byte: u8) -> usize
    ensures place { result ≡ position_or_len (λ b. b == byte) text.now }
    ensures within { result ≤ length text.now }
{
    place_of(text, byte).unwrap_or(text.len())
}
