//! Submissions: read, decided item by item, and reported. A desk takes submissions by `submit`.

ghost use Rattle.std.specs.Prelude.{◌≡◌, ◌+◌, ◌<◌, ◌^◌, true, false, if◌then◌else◌};
ghost use Rattle.std.specs.Prelude.{IfOk, OnOk, OnErr};
ghost use Rattle.rr_io.specs.Sending.{Writes};
ghost use Rattle.rr_registry.specs.Runs.{Decides};
ghost use Rattle.rr_submission.specs.Refusals.{is_refusal};
ghost use Rattle.rr_submission.specs.Reports.{stop_lines};
ghost use Rattle.rr_submission.specs.Handled.{StopsAt};
ghost use Rattle.rr_submission.specs.HandledParts.{Begins, CanCountItem, HandlesItems, HandlesOne};
ghost use Rattle.rr_submission.specs.HandledParts.{LedgerRunsOn, UnlessStopped};
ghost use Rattle.rr_submission.specs.ItemParts.{ShowsKeyOf};
ghost use Rattle.rr_submission.specs.Ledgers.{Keeps};
ghost use Rattle.rr_submission.specs.Submissions.{RefusesSubmission, SubmitsText};
ghost use Rattle.rr_submission.specs.Submissions.{UnlessLedgerStopped};

use crate::ending::{Ending, write_last_line};
use crate::handling_fault::HandlingFault;
use crate::items::next_item;
use crate::keyed_item::KeyedItem;
use crate::ledger::{Ledger, Stopped};
use crate::report_line::write_item_line;
use crate::request::Request;
use crate::submission::{Done, SubmissionFault};
use rr_auth::{Item, Secrets};
use rr_io::{ReadEnd, Reader, Writer};
use rr_number::Name;
use rr_object::{Code, Key};
use rr_registry::Outcome;
use rr_text::Paragraphs;
use std::alloc::Global;
use std::io;

/// Submits what the reader gives, read in this source, to a ledger, and writes the report. The
/// items are read, decided and reported one by one, in order. At most 16,777,216 reads are made
/// that do not fail. Beside the ledger, memory grows only with the secrets of the text and what is
/// remembered of them, which no clause says. Where all goes well, the text is read to its end, the
/// whole report is written, and the result counts the items and those that were refused.
/// `ReadFault`, `WriteFault` and `LedgerStopped` count those that were decided.
///
/// - `ReadFault`: where a read fails, or the text has no end within 16,777,216 reads, the items up
///   to the last blank line that came are decided and reported. A last line says so, as far as it
///   can be written.
/// - `WriteFault`: where the line of an item cannot be written whole, that item and those before it
///   stand. Those after it are not decided, though up to 4,096 bytes after it may have been read.
///   Where only the last line cannot be written whole, all items stand.
/// - `LedgerStopped`: where the ledger stops at an item, those before it stand. Its line with the
///   code E91 and a last line are written as far as they can be. Those after it are not decided,
///   though up to 4,096 bytes after it may have been read. After every other end a ledger that ran
///   still runs.
/// - `Stopped`: where the ledger was stopped before, nothing is read, decided or written.
/// - `Memory`: where memory runs out before the first item, nothing is read or decided. A last line
///   says so, as far as it can be written. Later it is no fault, but an item may be refused with
///   E90.
///
/// Where a prefix is held, and each item is foreign to its holders or their own, those not foreign
/// are answered as if nobody else had submitted anything. What the holders hold ends as it then
/// would, and the prefix stays held. Where the ledger stops at an item, this is said of those
/// before that one; what the stop leaves is what `Stops` of the ledger says. What lasts of a ledger
/// through any items (`Lasts`) lasts, and what is so of it between items (`Kept`) is so, however
/// the submission ends.
pub fn submit<L: Ledger, R: Reader, W: Writer>(
    alloc: Global,
    ledger: &mut L,
    source: &Name,
    reader: &mut R,
    writer: &mut W,
) -> Result<Done, SubmissionFault>
    ensures stopped { L.is_stopped ledger.old ≡ true → RefusesSubmission
        ledger.old ledger.new reader.old reader.new writer.old writer.new result }
    ensures submits { L.is_stopped ledger.old ≡ false
        → SubmitsText L.Ledger ledger.old ledger.new source.now
        (R.told reader.old) (R.told reader.new) (W.told writer.old) (W.told writer.new) result }
    ensures running { L.is_stopped ledger.old ≡ false
        → UnlessLedgerStopped result (L.is_stopped ledger.new ≡ false) }
    ensures keeps { Keeps L.Lasts L.Kept ledger.old ledger.new }
{
    if ledger.stopped() {
        return Err(SubmissionFault::Stopped);
    }
    report(alloc, ledger, source, reader, writer)
}

/// Submits what the reader gives to a ledger that runs.
fn report<L: Ledger, R: Reader, W: Writer>(
    alloc: Global,
    ledger: &mut L,
    source: &Name,
    reader: &mut R,
    writer: &mut W,
) -> Result<Done, SubmissionFault>
    requires { Begins L.Ledger ledger.old }
    ensures submits { SubmitsText L.Ledger ledger.old ledger.new source.now
        (R.told reader.old) (R.told reader.new) (W.told writer.old) (W.told writer.new) result }
    ensures lasts { LedgerRunsOn L.Ledger ledger.old ledger.new (UnlessLedgerStopped result) }
{
    match handle_items(alloc, ledger, source, reader, writer) {
        Ok((done, end)) => {
            if end.is_whole() {
                match write_last_line(writer, Ending::Complete, done.items) {
                    Ok(()) => Ok(done),
                    Err(_) => Err(SubmissionFault::WriteFault { items: done.items }),
                }
            } else {
                // The fault that is told is the reader's, whether or not its line could be written.
                let _ = write_last_line(writer, Ending::ReadFault, done.items);
                Err(SubmissionFault::ReadFault { items: done.items })
            }
        }
        Err(HandlingFault::Memory) => {
            // The fault that is told is that of memory, whether or not its line could be written.
            let _ = write_last_line(writer, Ending::Memory, 0);
            Err(SubmissionFault::Memory)
        }
        Err(HandlingFault::Unwritten { items }) => Err(SubmissionFault::WriteFault { items }),
        Err(HandlingFault::LedgerStopped { items }) => Err(SubmissionFault::LedgerStopped {
            items,
        }),
    }
}

/// What a submission has come to: the secrets that it has given, and how many of its items were
/// decided.
#[derive(Drop)]
struct Course {
    secrets: Secrets,
    done: Done,
}

/// Reads, decides and reports the items of a text one by one: each line is written before the next
/// item is read.
fn handle_items<L: Ledger, R: Reader, W: Writer>(
    alloc: Global,
    ledger: &mut L,
    source: &Name,
    reader: &mut R,
    writer: &mut W,
) -> Result<(Done, ReadEnd), HandlingFault>
    requires { Begins L.Ledger ledger.old }
    ensures handles { HandlesItems L.Ledger ledger.old ledger.new source.now
        (R.told reader.old) (R.told reader.new) (W.told writer.old) (W.told writer.new) result }
    ensures lasts { LedgerRunsOn L.Ledger ledger.old ledger.new (UnlessStopped result) }
{
    let Ok(mut paragraphs) = Paragraphs::new(alloc) else {
        return Err(HandlingFault::Memory);
    };
    let mut course = Course {
        secrets: Secrets::new(alloc),
        done: Done {
            items: 0,
            refused: 0,
        },
    };
    'items: loop {
        match next_item(alloc, &mut paragraphs, reader, source, &mut course.secrets) {
            Ok(Some(request)) => handle_item(alloc, ledger, &mut course, request, writer)?,
            Ok(None) => return Ok((course.done, ReadEnd::Whole)),
            Err(end) => return Ok((course.done, end)),
        }
    }
}

/// Decides an item, counts it, and writes its line. Where the ledger, which ran, stops at it, it is
/// not counted, and its line and a last line are written as far as they can be. The secrets stay.
fn handle_item<L: Ledger, W: Writer>(
    alloc: Global,
    ledger: &mut L,
    course: &mut Course,
    request: Request,
    writer: &mut W,
) -> Result<(), HandlingFault>
    requires room { CanCountItem course.old.done }
    requires running { L.is_stopped ledger.old ≡ false }
    ensures handles { HandlesOne L.Ledger request course.old course.new ledger.old ledger.new
        (W.told writer.old) (W.told writer.new) result }
    ensures lasts { LedgerRunsOn L.Ledger ledger.old ledger.new (UnlessStopped result) }
    ensures same_secrets { course.new.secrets ≡ course.old.secrets }
{
    let Request { key, action } = request;
    match decide(alloc, ledger, &mut course.secrets, &key, action) {
        Ok(outcome) => {
            course.done = counted(course.done, outcome);
            let items = course.done.items;
            match write_item_line(writer, items, &key, outcome) {
                Ok(()) => Ok(()),
                Err(_) => Err(HandlingFault::Unwritten { items }),
            }
        }
        Err(Stopped) => {
            let items = course.done.items;
            // The fault that is told is the ledger's, whether or not its lines could be written.
            let _ = write_stop(writer, items, &key);
            Err(HandlingFault::LedgerStopped { items })
        }
    }
}

/// The outcome of what is asked of a ledger that runs; an item is about this key. The error is that
/// the ledger stopped at it; after `Ok` it still runs. What lasts of it lasts, what was so of it
/// between items is so, and the secrets stay.
fn decide<L: Ledger>(
    alloc: Global,
    ledger: &mut L,
    secrets: &mut Secrets,
    key: &Option<Key>,
    action: Result<Item, Code>,
) -> Result<Outcome, Stopped>
    requires running { L.is_stopped ledger.old ≡ false }
    requires about { IfOk action (ShowsKeyOf key.now) }
    ensures decides { IfOk result (λ outcome. Decides
        (L.registry ledger.old) secrets.old action outcome (L.registry ledger.new)) }
    ensures stops { OnErr result (StopsAt L.Ledger ledger.old secrets.old action ledger.new) }
    ensures lasts { LedgerRunsOn L.Ledger ledger.old ledger.new (OnOk result) }
    ensures same_secrets { secrets.new ≡ secrets.old }
{
    match action {
        Ok(item) => ledger.decide(alloc, secrets, KeyedItem::of(key.as_ref().unwrap(), item)),
        Err(code) => Ok(Outcome::Refused(code)),
    }
}

/// Writes the line of an item at which the ledger stopped, after so many that were decided,
/// and the last line.
#[tactic(auto, unfolding(crate::specs::Reports::stop_lines))]
fn write_stop<W: Writer>(writer: &mut W, items: u64, key: &Option<Key>) -> io::Result<()>
    requires { items + 1 < 2 ^ 64 }
    ensures { Writes (W.told writer.old) (W.told writer.new)
        (stop_lines items key.now) result }
{
    write_item_line(writer, items + 1, key, Outcome::Refused(Code::E91))?;
    write_last_line(writer, Ending::Stopped, items)
}

/// The counts with one more item.
fn counted(done: Done, outcome: Outcome) -> Done
    requires { CanCountItem done }
    ensures items { result.items ≡ done.items + 1 }
    ensures refused { result.refused ≡ done.refused + (if is_refusal outcome then 1 else 0) }
{
    let refused = match outcome {
        Outcome::Refused(_) => done.refused + 1,
        _ => done.refused,
    };
    Done {
        items: done.items + 1,
        refused,
    }
}
