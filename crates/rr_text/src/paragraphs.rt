//! Paragraphs read piece by piece, from a reader that is lent to each call: so submissions and
//! dumps are read, and messages find where in a dump a fault stands.

ghost use Rattle.std.specs.Prelude.{◌≡◌, ◌≤◌, length, take, drop};
ghost use Rattle.rr_io.specs.Receiving.{read_limit, read_size};

use crate::draft::Draft;
use crate::paragraph::Paragraph;
use crate::text_fault::TextFault;
use rr_io::{READ_LIMIT, READ_SIZE, Reader};
use std::alloc::{AllocError, Global};

/// How the reading of a text stands.
#[derive(Clone, Copy, Debug, PartialEq, Eq)]
pub enum ParagraphsState {
    /// It goes on.
    Open,
    /// The reader came to its end.
    Ended,
    /// A read failed.
    Broken,
    /// The limit of 16,777,216 reads was met.
    Endless,
}

/// The paragraphs of a text that is read in pieces of at most 4,096 bytes, by at most 16,777,216
/// reads (profile). It keeps one piece and one paragraph at most, whatever comes, in memory that is
/// taken as it is made.
#[derive(Drop)]
pub struct Paragraphs {
    draft: Draft,
    /// The piece that was read last: what is held of it stands between the two places.
    block: [u8; READ_SIZE],
    from: usize,
    to: usize,
    reads: u32,
    state: ParagraphsState,
    ghost within: { from ≤ to },
    ghost room: { to ≤ read_size },
    ghost few: { reads ≤ read_limit },
}

impl Paragraphs {
    ghost use Rattle.std.specs.Prelude.{◌<◌, ℕ, List, [], IfOk, true, false};
    ghost use Rattle.rr_io.specs.Told.{Told};
    ghost use Rattle.rr_text.specs.DraftParts.{HasEntry, IsUnclosed};
    ghost use Rattle.rr_text.specs.ReaderParts as parts;
    ghost use Rattle.rr_text.specs.ParagraphReaders.{AnswersNext, HasGiven, IsNew, held, reads_of};
    ghost use Rattle.rr_text.specs.ParagraphReaders.{state_of};

    /// The paragraphs of a text, whatever reader gives it: the reading is open, no read was made,
    /// nothing is held, and no entry was given. The error is that memory ran out.
    pub fn new(alloc: Global) -> Result<Paragraphs, AllocError>
        ensures new { IfOk result (λ paragraphs. IsNew paragraphs) }
        ensures given { IfOk result
            (λ paragraphs. (start : Told) → HasGiven start start paragraphs []) }
    {
        let draft = Draft::new(alloc)?;
        Ok(Paragraphs {
            draft,
            block: [0; READ_SIZE],
            from: 0,
            to: 0,
            reads: 0,
            state: ParagraphsState::Open,
        })
    }

    /// The next paragraph of the text that this reader gives, or its fault (RFC 2622, 2). What is
    /// said here of the text holds where the reader is the same in each call. A paragraph has at
    /// least one attribute, all well formed. `None` says that the text has ended and all its
    /// paragraphs were given. `Read` says that a read failed, and `Endless` that 16,777,216 reads
    /// met no end; before either, exactly the paragraphs were given that a blank line with its LF
    /// closes. One of these three answers comes after finitely many calls, and is then the answer
    /// for good: nothing more is read, and nothing changes. After another fault the next paragraph
    /// follows; `Memory` passes over one, also one with a fault. `HasGiven` also counts reads,
    /// bytes and paragraphs. Of a connection, the other side stays as it was.
    pub fn next<R: Reader>(
        &mut self,
        alloc: Global,
        reader: &mut R,
    ) -> Result<Option<Paragraph>, TextFault>
        ensures { AnswersNext R.told reader.old reader.new self.old self.new result }
    {
        match self.state {
            ParagraphsState::Open => self.next_open(alloc, reader),
            ParagraphsState::Ended => Ok(None),
            ParagraphsState::Broken => Err(TextFault::Read),
            ParagraphsState::Endless => Err(TextFault::Endless),
        }
    }

    /// The next paragraph, as `next` gives it, while the reading is open.
    fn next_open<R: Reader>(
        &mut self,
        alloc: Global,
        reader: &mut R,
    ) -> Result<Option<Paragraph>, TextFault>
        requires { state_of self.old ≡ ParagraphsState.Open }
        ensures { AnswersNext R.told reader.old reader.new self.old self.new result }
    {
        let state = self.gather(reader);
        self.state = state;
        match state {
            ParagraphsState::Open => self.entry(alloc),
            ParagraphsState::Ended => self.last(alloc),
            ParagraphsState::Broken => Err(TextFault::Read),
            ParagraphsState::Endless => Err(TextFault::Endless),
        }
    }

    /// The entry of the text that was read.
    fn entry(&self, alloc: Global) -> Result<Option<Paragraph>, TextFault>
        requires { (text : List ℕ) × HasEntry text self.now.draft }
        ensures { (text : List ℕ) → HasEntry text self.now.draft
            → parts.GivesFound text result }
    {
        let paragraph = self.draft.entry(alloc)?;
        Ok(Some(paragraph))
    }

    /// The last entry of the text, if it has one. What is held, the count of reads and the state
    /// stay.
    fn last(&mut self, alloc: Global) -> Result<Option<Paragraph>, TextFault>
        requires { (text : List ℕ) × IsUnclosed text self.old.draft }
        ensures last { (text : List ℕ) → IsUnclosed text self.old.draft
            → parts.GivesLast text result }
        ensures same { (held self.new ≡ held self.old) × (reads_of self.new
            ≡ reads_of self.old) × (state_of self.new ≡ state_of self.old) }
    {
        if self.draft.finish() {
            self.entry(alloc)
        } else {
            Ok(None)
        }
    }

    /// Reads up to the end of the next paragraph, or of the text.
    fn gather<R: Reader>(&mut self, reader: &mut R) -> ParagraphsState
        ensures { parts.Gathers result (R.told reader.old) (R.told reader.new)
            (held self.old) (reads_of self.old) self.new }
    {
        self.draft.restart();
        'reads: loop {
            if self.take_held() {
                return ParagraphsState::Open;
            }
            if self.reads == READ_LIMIT {
                return ParagraphsState::Endless;
            }
            if let Some(state) = self.fill(reader) {
                return state;
            }
        }
    }

    /// Adds what is held to the paragraph, up to the line that closes it, and says whether there is
    /// one; if not, nothing is held any more. The count of reads stays.
    fn take_held(&mut self) -> bool
        ensures closed { (past : List ℕ) → IsUnclosed past self.old.draft → result ≡ true
            → parts.TakesClosed past self.old self.new }
        ensures unclosed { (past : List ℕ) → IsUnclosed past self.old.draft → result ≡ false
            → parts.TakesAll past self.old self.new }
        ensures empty { result ≡ false → self.new.from ≡ self.new.to }
        ensures reads { reads_of self.new ≡ reads_of self.old }
    {
        match self.draft.add_lines(part(&self.block, self.from, self.to)) {
            Some(taken) => {
                self.from += taken;
                true
            }
            None => {
                self.from = self.to;
                false
            }
        }
    }

    /// Reads a piece, where nothing is held and the limit of reads is not met. Says how the text
    /// stands if it does not go on. The draft stays.
    fn fill<R: Reader>(&mut self, reader: &mut R) -> Option<ParagraphsState>
        requires reads { reads_of self.old < read_limit }
        requires none { self.old.from ≡ self.old.to }
        ensures fills { parts.Fills result (R.told reader.old)
            (R.told reader.new) self.old self.new }
        ensures draft { self.new.draft ≡ self.old.draft }
    {
        match reader.read(&mut self.block) {
            Ok(count) => {
                self.from = 0;
                self.to = count;
                self.reads += 1;
                if count == 0 {
                    Some(ParagraphsState::Ended)
                } else {
                    None
                }
            }
            Err(_) => Some(ParagraphsState::Broken),
        }
    }
}

/// What stands between two places of a piece.
fn part(block: &[u8], from: usize, to: usize) -> &[u8]
    requires order { from ≤ to }
    requires room { to ≤ length block.now }
    ensures { result.now ≡ drop from (take to block.now) }
{
    &block[from..to]
}
