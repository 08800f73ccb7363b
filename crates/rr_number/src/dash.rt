//! Two texts with a dash between them, as the keys of inetnums and as-blocks are spelled: for
//! `span` and `as_span`.
ghost use Rattle.std.specs.Prelude.{◌≡◌};
ghost use Rattle.std.specs.Option.{option_map};
ghost use Rattle.rr_number.specs.Dashes.{dashed_of};

use rr_bytes::{ByteSet, cut_at, trim_end, trim_start};

/// The texts before and after the first dash, without the blanks (spaces, tabs, CRs) right beside
/// it; `None` where there is no dash.
#[inline]
#[tactic(auto, unfolding(crate::specs::Dashes::dashed_of))]
pub(crate) fn cut_at_dash(text: &[u8]) -> Option<(&[u8], &[u8])>
    ensures { option_map (λ parts. (parts.0.now, parts.1.now)) result ≡ dashed_of text.now }
{
    let (before, after) = cut_at(text, b'-')?;
    Some((
        trim_end(before, ByteSet::Blanks),
        trim_start(after, ByteSet::Blanks),
    ))
}
