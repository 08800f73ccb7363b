//! Lines of which a prefix was read: for `draft`.

ghost use Rattle.std.specs.Prelude.{◌≡◌, ◌<◌, length};
ghost use Rattle.rr_text.specs.Lines.{are_whole_lines};
ghost use Rattle.rr_text.specs.LineParts as lines;

use crate::line::{begins_skipped, is_blank_only};

/// What is known of a line from its bytes so far.
#[derive(Clone, Copy, Debug, PartialEq, Eq)]
pub(crate) enum LineSoFar {
    /// No byte was read.
    Nothing,
    /// Blanks alone.
    Blank,
    /// It begins with `#` or `%`.
    Skipped,
    /// It is a line of a paragraph.
    Kept,
}

impl LineSoFar {
    /// What is known of a line that begins so.
    fn of(prefix: &[u8]) -> LineSoFar
        ensures { result ≡ lines.line_so_far prefix.now }
    {
        match prefix {
            [] => LineSoFar::Nothing,
            [_, ..] => {
                if begins_skipped(prefix) {
                    LineSoFar::Skipped
                } else if is_blank_only(prefix) {
                    LineSoFar::Blank
                } else {
                    LineSoFar::Kept
                }
            }
        }
    }

    /// What is known with these bytes after those so far.
    pub(crate) fn with(self, more: &[u8]) -> LineSoFar
        ensures { result ≡ lines.line_with self more.now }
    {
        match self {
            LineSoFar::Nothing => LineSoFar::of(more),
            LineSoFar::Blank => {
                if is_blank_only(more) {
                    LineSoFar::Blank
                } else {
                    LineSoFar::Kept
                }
            }
            LineSoFar::Skipped => LineSoFar::Skipped,
            LineSoFar::Kept => LineSoFar::Kept,
        }
    }

    /// What the end of such a line does to a paragraph that has begun or not.
    pub(crate) fn end(self, started: bool) -> LineEnd
        ensures { result ≡ lines.end_of_line started self }
    {
        match self {
            LineSoFar::Nothing | LineSoFar::Blank => {
                if started {
                    LineEnd::Closed
                } else {
                    LineEnd::Passed
                }
            }
            LineSoFar::Skipped => {
                if started {
                    LineEnd::Taken
                } else {
                    LineEnd::Passed
                }
            }
            LineSoFar::Kept => LineEnd::Taken,
        }
    }
}

/// What the end of a line does.
#[derive(Clone, Copy, Debug, PartialEq, Eq)]
pub(crate) enum LineEnd {
    /// The line is part of no paragraph.
    Passed,
    /// It is a line of the paragraph.
    Taken,
    /// It ends the paragraph before it.
    Closed,
}

/// Whether a piece of a line has the LF that ends the line.
pub(crate) fn ends_line(piece: &[u8]) -> bool
    requires { 0 < length piece.now }
    ensures { result ≡ are_whole_lines piece.now }
{
    match piece {
        [.., last] => *last == b'\n',
        [] => false,
    }
}
