//! Blocks read as paragraphs: for `reader`, and for `draft` once it has a whole block.

ghost use Rattle.std.specs.Prelude.{◌≡◌, ◌≢◌, ◌<◌, IfOk, IfErr, Ok, Err};
ghost use Rattle.std.specs.Prelude.{length, true};
ghost use Rattle.rr_text.specs.Lines.{text_lines};
ghost use Rattle.rr_text.specs.Fields.{AreFields};
ghost use Rattle.rr_text.specs.Entries as entries;
ghost use Rattle.rr_text.specs.KeptText.{printed_lines};
ghost use Rattle.rr_text.specs.PrivateParts.{starts_block};

use crate::inspect::block_fault;
use crate::line::{LineKind, split_line};
use crate::paragraph::Paragraph;
use crate::printing::push_line;
use crate::text_fault::TextFault;
use std::alloc::{AllocError, Global};

/// The most bytes that a paragraph has.
pub(crate) const SIZE_LIMIT: usize = 65_536;

/// The canonical text of the lines of a block.
fn printed(alloc: Global, block: &[u8]) -> Result<Vec<u8>, AllocError>
    ensures { IfOk result (λ text. text.items ≡ printed_lines (text_lines block.now)) }
{
    let mut text = Vec::with_capacity(alloc, block.len())?;
    let mut rest = block;
    'lines: while !rest.is_empty() {
        let (line, after) = split_line(rest);
        push_line(&mut text, line, LineKind::of(line))?;
        rest = after;
    }
    Ok(text)
}

/// The entry of a block, whose first line must be neither blank nor skipped: its paragraph, which
/// has at least one attribute, all well formed, or its fault. `Memory` says that memory ran out.
pub(crate) fn read_entry(alloc: Global, block: &[u8]) -> Result<Paragraph, TextFault>
    requires { starts_block (text_lines block.now) ≡ true }
    ensures found { IfOk result (λ paragraph. (0 < length paragraph) × AreFields paragraph
        × (entries.block_entry (text_lines block.now) ≡ Ok paragraph)) }
    ensures fault { IfErr result (λ fault. fault ≢ TextFault.Memory
        → entries.block_entry (text_lines block.now) ≡ Err fault) }
{
    let size = block.len();
    if size > SIZE_LIMIT {
        return Err(TextFault::TooLarge);
    }
    match block_fault(block) {
        Some(fault) => Err(fault),
        None => {
            let text = printed(alloc, block)?;
            Ok(Paragraph::kept(text))
        }
    }
}
