//! What strangers wrote, as lines for a terminal show it. Keys and names in a database are for
//! `places`, `object_rows` and `obstacle`; names of files and arguments for `output`,
//! `command_fault` and `rr_cli`. The error of each function is that memory ran out; of the `push_`
//! functions, what was added by then stays.

ghost use Rattle.std.specs.Prelude.{◌≡◌, IfOk, string_bytes};
ghost use Rattle.std.specs.List.{list_all};
ghost use Rattle.rr_commands.specs.Faults.{IsShownAs};
ghost use Rattle.rr_commands.specs.Shown.{needs_no_escape, stands_for_itself};

use std::alloc::{AllocError, Global};

/// The most characters of a key, or of a name in a database, that are shown.
const MOST_OF_KEY: usize = 80;

/// The most characters of the name of a file, or of an argument, that are shown.
const MOST_OF_NAME: usize = 4_096;

/// Adds a key, or a name in a database, as a line shows it, 80 characters at most; no clause says
/// so.
pub(crate) fn push_key(line: &mut String, text: &[u8]) -> Result<(), AllocError> {
    push_shown(line, text, MOST_OF_KEY)
}

/// Adds the name of a file, or an argument, as a line shows it, 4,096 characters at most; no clause
/// says so.
fn push_name(line: &mut String, text: &[u8]) -> Result<(), AllocError> {
    push_shown(line, text, MOST_OF_NAME)
}

/// The name of a file, or an argument, as a line shows it. If it has at most 4,096 bytes, each of
/// ASCII from a space to `~` and no backslash, it is shown as it is. Of others no clause speaks.
/// The error is that memory ran out.
pub fn shown_name(alloc: Global, text: &str) -> Result<String, AllocError>
    ensures { IfOk result (λ line. IsShownAs text.now (string_bytes line)) }
{
    if needs_no_escape(text.as_bytes()) {
        return String::from_str(alloc, text);
    }
    let mut line = String::new(alloc);
    push_name(&mut line, text.as_bytes())?;
    Ok(line)
}

/// Whether a line shows a text as it is.
fn needs_no_escape(text: &[u8]) -> bool
    ensures { result ≡ needs_no_escape text.now }
{
    if text.len() > MOST_OF_NAME {
        return false;
    }
    stand_for_themselves(text)
}

/// Whether each byte is one that a line shows as it is.
fn stand_for_themselves(text: &[u8]) -> bool
    ensures { result ≡ list_all stands_for_itself text.now }
{
    text.iter().all(|byte| stands_for_itself(*byte))
}

/// Whether a byte is a space, or that of a character of ASCII that is seen, save the backslash.
fn stands_for_itself(byte: u8) -> bool
    ensures { result ≡ stands_for_itself byte }
{
    byte >= b' ' && byte <= b'~' && byte != b'\\'
}

/// Adds a text as a line shows it: no two texts that are not cut are shown alike. What is surely
/// seen, and read from left to right, stands as it is. Other characters, a backslash, and bytes
/// that are no text are escaped. What is longer than `most` characters ends in two dots. No clause
/// says any of it.
fn push_shown(line: &mut String, text: &[u8], most: usize) -> Result<(), AllocError> {
    let mut left = most.saturating_add(1);
    for chunk in text.utf8_chunks() {
        let after = push_text(line, chunk.valid(), left)?;
        left = push_bytes(line, chunk.invalid(), after)?;
    }
    Ok(())
}

/// Adds characters, as far as there is room: the last that has room is shown as two dots. Gives how
/// many more have room.
fn push_text(line: &mut String, text: &str, room: usize) -> Result<usize, AllocError> {
    let mut left = room;
    for character in text.chars() {
        match left {
            0 => return Ok(0),
            1 => line.push_str("..")?,
            _ => push_character(line, character)?,
        }
        left -= 1;
    }
    Ok(left)
}

/// Adds bytes that are no text, by the same rule.
fn push_bytes(line: &mut String, bytes: &[u8], room: usize) -> Result<usize, AllocError> {
    let mut left = room;
    for byte in bytes {
        match left {
            0 => return Ok(0),
            1 => line.push_str("..")?,
            _ => write!(line, "\\x{byte:02X}")?,
        }
        left -= 1;
    }
    Ok(left)
}

/// Adds a character, escaped unless it is surely seen and read from left to right.
fn push_character(line: &mut String, character: char) -> Result<(), AllocError> {
    let number = u32::from(character);
    if character == '\\' {
        line.push_str("\\\\")
    } else if is_seen(number) {
        line.push(character)
    } else {
        write!(line, "\\u{{{number:X}}}")
    }
}

/// Whether the character of this number is surely seen, and read from left to right. It is one of
/// ASCII, of Latin, Greek or Cyrillic letters, of kana, of Chinese characters or of Hangul.
fn is_seen(number: u32) -> bool {
    match number {
        0x20..=0x7E
        | 0xA1..=0xAC
        | 0xAE..=0x24F
        | 0x370..=0x3FF
        | 0x400..=0x482
        | 0x48A..=0x52F
        | 0x3041..=0x3096
        | 0x30A1..=0x30FA
        | 0x4E00..=0x9FFF
        | 0xAC00..=0xD7A3 => true,
        _ => false,
    }
}
