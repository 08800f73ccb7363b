//! Why a paragraph or a text cannot be read: the answer of all that reads paragraphs.

ghost use Rattle.std.specs.Prelude.{◌≡◌};
ghost use Rattle.rr_text.specs.declared.text_fault.TextFault.TheVariants.{Memory};

use std::alloc::AllocError;

/// Why a paragraph of a text, or the text itself, cannot be read. Of a paragraph's faults
/// `TooLarge` comes first, then that of its first faulty line; in a line `BadByte` comes first
/// (profile).
#[derive(Clone, Copy, Debug, PartialEq, Eq)]
pub enum TextFault {
    /// The paragraph has more than 65,536 bytes, the ends of its lines and skipped lines included
    /// (profile).
    TooLarge,
    /// A line that is not skipped has a control byte of ASCII other than tab, LF and CR.
    BadByte,
    /// The first line, skipped ones aside, continues a value that is not there.
    FirstContinues,
    /// A line that opens an attribute has no colon.
    NoColon,
    /// Before the first colon of a line that opens an attribute stands no attribute name; blanks
    /// before the colon do not count.
    BadName,
    /// Memory ran out.
    Memory,
    /// A read of the text failed. It is no fault of a paragraph: a reader of paragraphs has it.
    Read,
    /// The text had no end within 16,777,216 reads. It is no fault of a paragraph: a reader of
    /// paragraphs has it.
    Endless,
}

impl From<AllocError> for TextFault {
    ghost from_gives = { λ _ e. e ≡ Memory };

    fn from(_error: AllocError) -> TextFault {
        TextFault::Memory
    }
}
