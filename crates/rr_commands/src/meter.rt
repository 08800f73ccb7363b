//! A count on the last line of a terminal, of the items, objects or bytes that pass: for
//! `progress`. No clause says what is counted or drawn.

use crate::error_stream::ErrorStream;
use itoa::Buffer;
use rr_io::write_pieces;
use std::time::{Duration, Instant};

/// A command that is done in fewer milliseconds shows nothing.
const QUIET: u64 = 1_000;

/// The fewest milliseconds from one drawing of the line to the next.
const PAUSE: u64 = 200;

/// What takes the last line of a terminal away.
pub(crate) const CLEARED: &[u8] = b"\r\x1b[K";

/// What is counted of the bytes that pass.
#[derive(Clone, Copy)]
pub(crate) enum Things {
    /// The items of a report: each has a line, and the last line, which begins with `%`, is that of
    /// none.
    Items,
    /// The objects of a dump: an empty line ends each.
    Objects,
    /// The bytes themselves.
    Bytes,
}

impl Things {
    fn name(self) -> &'static str {
        match self {
            Things::Items => "items",
            Things::Objects => "objects",
            Things::Bytes => "bytes",
        }
    }
}

/// A count on one line of standard error, which is written over, and only if standard error is a
/// terminal.
#[derive(Drop)]
pub(crate) struct Meter<'a> {
    errors: ErrorStream<'a>,
    things: Things,
    /// When it began; `None` if it is never drawn.
    started: Option<Instant>,
    /// When the line was drawn last.
    drawn: Option<Instant>,
    /// Whether the line may stand on the terminal.
    is_shown: bool,
    /// Whether what is printed may stand on the same terminal.
    is_shared: bool,
    /// Whether nothing has passed yet of the line that passes.
    is_line_empty: bool,
    /// Whether that line began with `%`.
    is_note: bool,
    /// How many have passed.
    count: u64,
}

impl<'a> Meter<'a> {
    /// A count of these things, which begins now; `is_shared` says whether what is printed may
    /// stand on the same terminal.
    pub(crate) fn new(errors: ErrorStream<'a>, things: Things, is_shared: bool) -> Meter<'a> {
        let started = if errors.is_terminal() {
            errors.now()
        } else {
            None
        };
        Meter {
            things,
            started,
            is_shared,
            ..Meter::silent(errors)
        }
    }

    /// A count that is never drawn.
    pub(crate) fn silent(errors: ErrorStream<'a>) -> Meter<'a> {
        Meter {
            errors,
            things: Things::Items,
            started: None,
            drawn: None,
            is_shown: false,
            is_shared: false,
            is_line_empty: true,
            is_note: false,
            count: 0,
        }
    }

    /// A count that is never drawn, and takes away the line of one that may be.
    pub(crate) fn eraser(errors: ErrorStream<'a>) -> Meter<'a> {
        Meter {
            is_shown: errors.is_terminal(),
            is_shared: errors.is_shared(),
            ..Meter::silent(errors)
        }
    }

    /// Takes the line away.
    pub(crate) fn clear(&mut self) {
        if self.is_shown {
            self.is_shown = false;
            self.errors.show(CLEARED);
        }
    }

    /// Takes the line away if what is printed next would stand after it; answers whether it did.
    pub(crate) fn make_way(&mut self) -> bool {
        let is_in_the_way = self.is_shown && self.is_shared;
        if is_in_the_way {
            self.clear();
        }
        is_in_the_way
    }

    /// Counts what is in the bytes that pass, and draws the line if it is time to, or if it had
    /// made way for them. It is never drawn over a printed line that has not ended.
    pub(crate) fn pass(&mut self, bytes: &[u8], made_way: bool) {
        if let Some(started) = self.started {
            let more = match self.things {
                Things::Items => self.item_lines(bytes),
                Things::Objects => self.empty_lines(bytes),
                Things::Bytes => bytes.len() as u64,
            };
            self.count = self.count.saturating_add(more);
            if !self.is_shared || bytes.ends_with(b"\n") {
                self.show(started, made_way);
            }
        }
    }

    /// How many lines of items end in the bytes.
    fn item_lines(&mut self, bytes: &[u8]) -> u64 {
        let mut count = 0u64;
        for byte in bytes {
            if self.is_line_empty {
                self.is_note = *byte == b'%';
            }
            self.is_line_empty = *byte == b'\n';
            if self.is_line_empty && !self.is_note {
                count = count.saturating_add(1);
            }
        }
        count
    }

    /// How many empty lines end in the bytes.
    fn empty_lines(&mut self, bytes: &[u8]) -> u64 {
        let mut count = 0u64;
        for byte in bytes {
            let ends_line = *byte == b'\n';
            if ends_line && self.is_line_empty {
                count = count.saturating_add(1);
            }
            self.is_line_empty = ends_line;
        }
        count
    }

    /// Draws the line, if it had made way or it is time to.
    fn show(&mut self, started: Instant, made_way: bool) {
        let Some(now) = self.errors.now() else {
            return;
        };
        let is_late = now.duration_since(started) >= Duration::from_millis(QUIET);
        if is_late && (made_way || self.is_due(now)) {
            self.draw(now);
        }
    }

    /// Whether the line was not drawn for some time.
    fn is_due(&self, now: Instant) -> bool {
        match self.drawn {
            Some(drawn) => now.duration_since(drawn) >= Duration::from_millis(PAUSE),
            None => true,
        }
    }

    fn draw(&mut self, now: Instant) {
        let count = self.count;
        let things = self.things.name();
        self.drawn = Some(now);
        self.is_shown = true;
        let mut digits = Buffer::new();
        let pieces = [
            CLEARED,
            digits.format(count).as_bytes(),
            b" ",
            things.as_bytes(),
            b" so far",
        ];
        // A command does not fail because a terminal shows no progress.
        let _ = write_pieces(&mut self.errors.counted(), &pieces);
    }
}
