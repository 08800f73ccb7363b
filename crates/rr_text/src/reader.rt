//! The paragraphs of a text in memory, in turn: for messages that say where a bad paragraph stands,
//! and for tests and benchmarks.

ghost use Rattle.std.specs.Prelude.{◌≡◌, ◌≢◌, ◌<◌, ◌≤◌, IfOk, IfErr, IfSome};
ghost use Rattle.std.specs.Prelude.{None, Ok, Err, [], ◌∷◌, length, drop};
ghost use Rattle.rr_text.specs.Entries.{IsNext, entries};

use crate::block::take_block;
use crate::entry::read_entry;
use crate::paragraph::Paragraph;
use crate::text_fault::TextFault;
use std::alloc::Global;

/// The first paragraph of the text from the place `from` on, and a later place (RFC 2622, 2). This
/// is that of the blank line that ends the paragraph, or else the end of the text. `from` must not
/// be past the end of the text, and the later place is not. The paragraph has at least one
/// attribute, all well formed. What follows it in the text are the paragraphs from the later place
/// on, faulty ones among them. `None` comes exactly where there is no paragraph, not even a faulty
/// one. The error is the fault of the first paragraph, or that memory ran out for it; then no later
/// place is given.
pub fn next_paragraph(
    alloc: Global,
    text: &[u8],
    from: usize,
) -> Result<Option<(Paragraph, usize)>, TextFault>
    requires { from ≤ length text.now }
    ensures none { IfOk result (λ next. next ≡ None → entries (drop from text.now) ≡ []) }
    ensures found { IfOk result (λ next. IfSome next (IsNext text.now from)) }
    ensures fault { IfErr result (λ fault. fault ≢ TextFault.Memory
        → entries (drop from text.now) ≡ Err fault ∷ drop 1 (entries (drop from text.now))) }

    // An error, also that memory ran out, comes only where there is a paragraph, perhaps a faulty
    // one.
    ensures memory { IfErr result (λ fault. 0 < length (entries (drop from text.now))) }
{
    match take_block(text, from) {
        None => Ok(None),
        Some((block, place)) => {
            let paragraph = read_entry(alloc, block)?;
            Ok(Some((paragraph, place)))
        }
    }
}
