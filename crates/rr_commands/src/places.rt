//! Where a paragraph stands in a file: its line and its key, for messages of `load`. No clause says
//! which line and key that is.

ghost use Rattle.std.specs.Prelude.{◌≤◌, ℕ, IfSome, List, length, string_bytes};
ghost use Rattle.rr_commands.specs.Faults.{HasTrouble, NamesPath, ShowsFile};

use crate::command_fault::ProgramFault;
use crate::files::Files;
use crate::output::path_and_found;
use crate::shown::push_key;
use crate::trouble::Trouble;
use rr_io::{Counted, Reader};
use rr_object::{Key, key_of};
use rr_text::{Paragraphs, TextFault, next_paragraph};
use std::alloc::{AllocError, Global};
use std::io;
use std::io::{BufRead, BufReader, Read};

/// A fault about the paragraph of this number, from 1, of a file. If the file can be read again, it
/// names the line and, where they can be read, the class and the key. Otherwise, and if memory runs
/// out, it names the file alone.
pub(crate) fn about_paragraph<'a, F: Files>(
    alloc: Global,
    files: &F,
    file: &'a str,
    number: u64,
    trouble: Trouble,
) -> ProgramFault<'a>
    ensures { HasTrouble trouble (ShowsFile file.now) result }
{
    match named_place(alloc, files, file, number) {
        Some(name) => ProgramFault::named(name, trouble),
        None => ProgramFault::of(file, trouble),
    }
}

/// The name of a file as a line shows it, with the line, class and key of a paragraph. `None` if
/// the file cannot be read again, or if memory ran out.
fn named_place<F: Files>(alloc: Global, files: &F, file: &str, number: u64) -> Option<String>
    ensures { IfSome result (λ name. (found : List ℕ)
        × NamesPath file.now found (string_bytes name)) }
{
    let place = place_in(alloc, files, file, number)?;
    match path_and_found(alloc, file, place.as_str()) {
        Ok(name) => Some(name),
        Err(AllocError) => None,
    }
}

/// The line, class and key of a paragraph in a file, as they stand after its name. `None` if the
/// file cannot be read again up to the paragraph, or if memory ran out.
fn place_in<F: Files>(alloc: Global, files: &F, file: &str, number: u64) -> Option<String> {
    if !files.is_kept(file) {
        return None;
    }
    let reader = BufReader::new(alloc, files.open(file).ok()?).ok()?;
    let mut lines = Lines::new(alloc, reader);
    let key = find_paragraph(alloc, &mut lines, number)?;
    let line = lines.start?;
    match key {
        Some(key) => {
            let class = key.class().name();
            let key = key_text(alloc, &key)?;
            format!(in alloc; ", line {line}, {class} {key}").ok()
        }
        None => format!(in alloc; ", line {line}").ok(),
    }
}

/// The key as reports print it, cut if it is long; `None` if memory ran out.
fn key_text(alloc: Global, key: &Key) -> Option<String> {
    let mut text = Counted::new(Vec::new(alloc));
    key.print_to(&mut text).ok()?;
    let mut shown = String::new(alloc);
    push_key(&mut shown, text.into_inner().as_slice()).ok()?;
    Some(shown)
}

/// Reads up to the paragraph of this number, and gives its key, if it has one. `None` if the file
/// ends before it or cannot be read, or if memory ran out.
fn find_paragraph<R: Read>(
    alloc: Global,
    lines: &mut Lines<R>,
    number: u64,
) -> Option<Option<Key>> {
    let mut paragraphs = Paragraphs::new(alloc).ok()?;
    let mut found = None;
    for _ in 0..number {
        found = next_of_file(alloc, &mut paragraphs, lines)?;
    }
    Some(found)
}

/// Reads the next paragraph of a file, notes where it begins, and gives its key, if it has one;
/// `None` at the end, or if the file cannot be read.
fn next_of_file<R: Read>(
    alloc: Global,
    paragraphs: &mut Paragraphs,
    lines: &mut Lines<R>,
) -> Option<Option<Key>> {
    lines.start = None;
    next_key(alloc, paragraphs, &mut Counted::new(lines))
}

/// Reads the next paragraph, and gives its key, if it has one; `None` at the end, or if it
/// cannot be read.
fn next_key<R: Reader>(
    alloc: Global,
    paragraphs: &mut Paragraphs,
    reader: &mut R,
) -> Option<Option<Key>> {
    match paragraphs.next(alloc, reader) {
        Ok(Some(paragraph)) => Some(key_of(alloc, &paragraph).ok()),
        Ok(None) | Err(TextFault::Read | TextFault::Endless) => None,
        Err(_) => Some(None),
    }
}

/// A file that gives no more than a line in one read, and knows on which line the paragraph begins
/// that is read.
#[derive(Drop)]
struct Lines<R> {
    alloc: Global,
    reader: BufReader<R>,
    ended: u64,
    is_line_start: bool,
    start: Option<u64>,
}

impl<R: Read> Lines<R> {
    fn new(alloc: Global, reader: BufReader<R>) -> Lines<R> {
        Lines {
            alloc,
            reader,
            ended: 0,
            is_line_start: true,
            start: None,
        }
    }

    /// Notes a piece of a line that was read.
    fn note(&mut self, piece: &[u8]) {
        if self.start.is_none() && self.is_line_start && begins_paragraph(self.alloc, piece) {
            self.start = Some(self.ended.saturating_add(1));
        }
        self.is_line_start = piece.ends_with(b"\n");
        if self.is_line_start {
            self.ended = self.ended.saturating_add(1);
        }
    }
}

impl<R: Read> Read for Lines<R> {
    fn read(&mut self, buf: &mut [u8]) -> io::Result<usize> {
        let held = self.reader.fill_buf()?;
        let piece = line_prefix(held, buf.len());
        let count = piece.len();
        buf[..count].copy_from_slice(piece);
        self.reader.consume(count);
        self.note(&buf[..count]);
        Ok(count)
    }
}

/// The prefix of a text up to its first line end, and of so many bytes at most.
fn line_prefix(text: &[u8], most: usize) -> &[u8]
    ensures { length result.now ≤ most }
{
    let prefix = match text.split_at_checked(most) {
        Some((prefix, _)) => prefix,
        None => text,
    };
    match prefix.iter().position(|byte| *byte == b'\n') {
        Some(place) => &prefix[..place + 1],
        None => prefix,
    }
}

/// Whether a paragraph begins with a line that begins so: one that is neither blank nor skipped
/// (RFC 2622, 2; profile).
fn begins_paragraph(alloc: Global, line: &[u8]) -> bool {
    !matches!(next_paragraph(alloc, line, 0), Ok(None))
}
