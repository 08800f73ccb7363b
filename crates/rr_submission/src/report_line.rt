//! The lines of a report on items. `handling` writes one after each item. `tools/irr` and `web`
//! read them: who changes them changes those too.

ghost use Rattle.std.specs.Prelude.{◌≡◌, ◌+◌, ◌≤◌, [], ◌++◌, length};
ghost use Rattle.rr_io.specs.Sending.{Writes};
ghost use Rattle.rr_submission.specs.Reports.{item_line, number_part, outcome_part};
ghost use Rattle.rr_submission.specs.Reports.{outcome_word, refusal_code, subject};

use crate::short_text::ShortText;
use rr_io::{Writer, write_all};
use rr_object::Key;
use rr_registry::Outcome;
use std::io;

/// Writes the line of an item. The first call of the writer is given all of it, which no clause
/// says. After a fault the writer has taken the beginning of it, and not all.
pub(crate) fn write_item_line<W: Writer>(
    writer: &mut W,
    number: u64,
    key: &Option<Key>,
    outcome: Outcome,
) -> io::Result<()>
    ensures { Writes (W.told writer.old) (W.told writer.new)
        (item_line number key.now outcome) result }
{
    write_all(writer, item_line(number, key, outcome).as_bytes())
}

/// The line of an item.
fn item_line(number: u64, key: &Option<Key>, outcome: Outcome) -> ShortText
    ensures { result ≡ item_line number key.now outcome }
{
    let mut line = ShortText::new();
    push_item_number(&mut line, number);
    push_subject(&mut line, key);
    push_outcome(&mut line, outcome);
    line
}

/// Begins the line, which is empty: the number, of at most 20 digits, and a space, 21 bytes.
fn push_item_number(line: &mut ShortText, number: u64)
    requires { line.old ≡ [] }
    ensures value { line.new ≡ line.old ++ number_part number }
    ensures short { length line.new ≤ 21 }
{
    line.push_number(number);
    line.push(b" ");
}

/// Appends the class, a space and the key, or `-`: at most 9, 1 and 255 bytes. With the 21 of the
/// number before them these are 286.
#[tactic(auto, using(crate::proofs::LineSizes::class_name_short))]
fn push_subject(line: &mut ShortText, key: &Option<Key>)
    requires { length line.old ≤ 21 }
    ensures value { line.new ≡ line.old ++ subject key.now }
    ensures short { length line.new ≤ 286 }
{
    match key {
        None => line.push(b"-"),
        Some(key) => {
            line.push(key.class().name().as_bytes());
            line.push(b" ");
            line.push_key(key);
        }
    }
}

/// Appends what stands after the subject, at most 15 bytes. With the 286 before it the line has at
/// most 301, for which a short text of 320 has room.
#[tactic(auto, using(crate::proofs::LineSizes::outcome_short))]
fn push_outcome(line: &mut ShortText, outcome: Outcome)
    requires { length line.old ≤ 286 }
    ensures { line.new ≡ line.old ++ outcome_part outcome }
{
    line.push(b": ");
    line.push(word(outcome).as_bytes());
    line.push(refusal_code(outcome).as_bytes());
    line.push(b"\n");
}

/// The word of an outcome, for a refusal with a space after it.
fn word(outcome: Outcome) -> &'static str
    ensures { result.now ≡ outcome_word outcome }
{
    match outcome {
        Outcome::Added => "added",
        Outcome::Changed => "changed",
        Outcome::Unchanged => "unchanged",
        Outcome::Deleted => "deleted",
        Outcome::Refused(_) => "refused ",
    }
}

/// The code of a refusal, and of another outcome nothing.
fn refusal_code(outcome: Outcome) -> &'static str
    ensures { result.now ≡ refusal_code outcome }
{
    match outcome {
        Outcome::Refused(code) => code.name(),
        _ => "",
    }
}
