//! A paragraph that is being read piece by piece: for `paragraphs`.

ghost use Rattle.std.specs.Prelude.{◌≤◌, length, vec_capacity};
ghost use Rattle.rr_text.specs.Entries.{size_limit};

use crate::entry::{SIZE_LIMIT, read_entry};
use crate::line::split_line;
use crate::line_so_far::{LineEnd, LineSoFar, ends_line};
use crate::paragraph::Paragraph;
use crate::text_fault::TextFault;
use std::alloc::{AllocError, Global};

/// The paragraph that is being read: the bytes of its lines so far, and of the line that has begun.
/// A paragraph that is too large is followed to its end, and no more of it is kept.
#[derive(Drop)]
pub(crate) struct Draft {
    kept: Vec<u8>,
    /// Whether bytes were left out.
    over: bool,
    /// How many bytes the whole lines have, or one more than a paragraph has at most.
    whole: usize,
    /// Whether a line of the paragraph was read.
    started: bool,
    line: LineSoFar,
    ghost room: { size_limit ≤ vec_capacity kept },
    ghost most: { length kept.items ≤ size_limit },
}

impl Draft {
    ghost use Rattle.std.specs.Prelude.{◌≡◌, ◌<◌, ◌∷◌, ◌++◌, ℕ, List, []};
    ghost use Rattle.std.specs.Prelude.{IfOk, IfSome};
    ghost use Rattle.rr_text.specs.Lines.{text_lines};
    ghost use Rattle.rr_text.specs.LineParts.{end_of_line};
    ghost use Rattle.rr_text.specs.DraftParts as parts;

    /// The draft of no text, with room for a paragraph; the error is that memory ran out.
    pub(crate) fn new(alloc: Global) -> Result<Draft, AllocError>
        ensures { IfOk result (λ draft. parts.HasNoText draft) }
    {
        let kept = Vec::with_capacity(alloc, SIZE_LIMIT)?;
        Ok(Draft {
            kept,
            over: false,
            whole: 0,
            started: false,
            line: LineSoFar::Nothing,
        })
    }

    /// Forgets the text.
    pub(crate) fn restart(&mut self)
        ensures { parts.HasNoText self.new }
    {
        self.kept.clear();
        self.over = false;
        self.whole = 0;
        self.started = false;
        self.line = LineSoFar::Nothing;
    }

    /// Adds a piece of a line, not empty, that begins where the text so far ends, and says whether
    /// it closes the paragraph.
    pub(crate) fn add(&mut self, piece: &[u8]) -> bool
        requires some { 0 < length piece.now }
        requires single { text_lines piece.now ≡ piece.now ∷ [] }
        ensures { (text : List ℕ) → parts.IsUnclosed text self.old
            → parts.GathersLines result (text ++ piece.now) self.new }
    {
        self.keep(piece);
        if ends_line(piece) {
            self.end_line()
        } else {
            false
        }
    }

    /// Adds the lines of a piece of the text up to the one that closes the paragraph, and says how
    /// many bytes these are.
    pub(crate) fn add_lines(&mut self, text: &[u8]) -> Option<usize>
        ensures adds { (past : List ℕ) → parts.IsUnclosed past self.old
            → parts.AddsLines past text.now result self.new }
        ensures within { IfSome result (λ taken. taken ≤ length text.now) }
    {
        let mut rest = text;
        'lines: while !rest.is_empty() {
            let (piece, after) = split_line(rest);
            if self.add(piece) {
                return Some(text.len() - after.len());
            }
            rest = after;
        }
        None
    }

    /// Ends the text, and says whether it has a paragraph.
    pub(crate) fn finish(&mut self) -> bool
        ensures { (text : List ℕ) → parts.IsUnclosed text self.old
            → parts.Finishes result text self.new }
    {
        // Whether the last line closes the paragraph does not matter: the text ends there.
        let _closes = self.end_line();
        self.started
    }

    /// The entry of the text, a paragraph or its fault, where the text has one block, which is
    /// whole; or the error is that memory ran out.
    pub(crate) fn entry(&self, alloc: Global) -> Result<Paragraph, TextFault>
        requires { (text : List ℕ) × parts.HasEntry text self.now }
        ensures { (text : List ℕ) → parts.HasEntry text self.now
            → parts.GivesOne text result }
    {
        if self.whole > SIZE_LIMIT {
            return Err(TextFault::TooLarge);
        }
        let (block, _) = self.kept.split_at(self.whole);
        read_entry(alloc, block)
    }

    /// Keeps a piece, which is of the line that has begun, if there is room for it; if not, notes
    /// that bytes were left out.
    fn keep(&mut self, piece: &[u8])
        ensures { parts.KeepsPiece self.old self.new piece.now }
    {
        self.line = self.line.with(piece);
        if self.over || piece.len() > SIZE_LIMIT - self.kept.len() {
            self.over = true;
            return;
        }
        if self.kept.extend_from_slice(piece).is_err() {
            self.over = true;
        }
    }

    /// Ends the line that has begun, and says whether it closes the paragraph.
    fn end_line(&mut self) -> bool
        ensures { parts.EndsLine
            (end_of_line self.old.started self.old.line) self.old self.new result }
    {
        match self.line.end(self.started) {
            LineEnd::Passed => {
                self.restart();
                false
            }
            LineEnd::Taken => {
                self.take_line();
                false
            }
            LineEnd::Closed => true,
        }
    }

    /// Makes the line that has begun one of the paragraph.
    fn take_line(&mut self)
        ensures { parts.TakesLine self.old self.new }
    {
        self.whole = if self.over {
            SIZE_LIMIT + 1
        } else {
            self.kept.len()
        };
        self.started = true;
        self.line = LineSoFar::Nothing;
    }
}
