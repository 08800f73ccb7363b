//! Texts less the blanks round them, as lines, names, values, ends of spans and heads of requests
//! are read.

ghost use Rattle.std.specs.Prelude.{◌≡◌};
ghost use Rattle.rr_bytes.specs.ByteSets.{is_in};
ghost use Rattle.rr_bytes.specs.Trims as trims;

use crate::byte_set::ByteSet;

/// The text less the bytes in `blanks` before its first other byte; nothing where all are in it.
#[inline(never)]
#[tactic(auto, using(crate::proofs::TrimLemmas::start_trimmed))]
pub fn trim_start(text: &[u8], blanks: ByteSet) -> &[u8]
    ensures { result.now ≡ trims.trim_start (is_in blanks) text.now }
{
    let mut rest = text;
    'bytes: while let Some((first, after)) = rest.split_first() {
        if !blanks.has(*first) {
            break 'bytes;
        }
        rest = after;
    }
    rest
}

/// The text less the bytes in `blanks` after its last other byte; nothing where all are in it.
#[inline(never)]
#[tactic(auto, using(crate::proofs::TrimLemmas::end_trimmed))]
pub fn trim_end(text: &[u8], blanks: ByteSet) -> &[u8]
    ensures { result.now ≡ trims.trim_end (is_in blanks) text.now }
{
    let mut rest = text;
    'bytes: while let Some((last, before)) = rest.split_last() {
        if !blanks.has(*last) {
            break 'bytes;
        }
        rest = before;
    }
    rest
}

/// The text less the bytes in `blanks` before its first and after its last other byte; nothing
/// where all are in it.
pub fn trim(text: &[u8], blanks: ByteSet) -> &[u8]
    ensures { result.now ≡ trims.trim (is_in blanks) text.now }
{
    trim_end(trim_start(text, blanks), blanks)
}
