//! Standard output: what commands print to it, and how a command ends that prints or reads; for all
//! commands and `rr_cli`.

ghost use Rattle.std.specs.Prelude.{◌≡◌, ◌++◌, ℕ, IfErr, IfOk, List, string_bytes};
ghost use Rattle.rr_commands.specs.Commands.{EndsAlike};
ghost use Rattle.rr_commands.specs.Faults.{IsAbout, HasTrouble, IsShownAs, NamesPath};
ghost use Rattle.rr_commands.specs.Printed.{Prints, Tells};

use crate::cause::Cause;
use crate::command_fault::ProgramFault;
use crate::host::{Host, NamedDatabase};
use crate::progress::Shown;
use crate::shown::shown_name;
use crate::trouble::{Trouble, TroublePlace};
use rr_io::{Reader, Writer, write_all};
use std::alloc::{AllocError, Global};

/// How the line of a fault names standard output.
pub(crate) const STANDARD_OUTPUT: &str = "standard output";

/// What commands print to, which may show on a terminal how far they are.
pub trait Output: Writer {
    /// Shows `shown` from now on, on a terminal alone; no clause says what is seen. All that it
    /// tells as a writer stays: its bytes, and the count of its failed writes.
    fn show(&mut self, shown: Shown)
        ensures told { Self.told self.new ≡ Self.told self.old };

    /// Why the last write that failed did so, or what was kept since. It is for a message, and no
    /// contract says which it is.
    fn cause(&self) -> Cause;

    /// Keeps `cause` for [`ended`], which shows it: so a command that reads a file keeps what
    /// [`cause_of`] gives. All that it tells as a writer stays: its bytes, and the count of its
    /// failed writes.
    fn keep(&mut self, cause: Cause)
        ensures told { Self.told self.new ≡ Self.told self.old };
}

/// What commands read.
pub trait Input: Reader {
    /// Why the last read that failed did so, or that the input has no end if none failed. It is for
    /// a message, and no contract says which it is.
    fn cause(&self) -> Cause;
}

/// Whether a command ended by trouble with what it read.
fn is_about_file(end: Result<u8, Trouble>) -> bool {
    match end {
        Ok(_) => false,
        Err(trouble) => matches!(trouble.end().place, TroublePlace::File),
    }
}

/// Why reading or printing failed, for a command that ended by `end`: the cause of `input` if the
/// trouble is about the file, and else that of `output`. No clause says so.
pub(crate) fn cause_of<R: Input, W: Output>(
    end: Result<u8, Trouble>,
    input: &R,
    output: &W,
) -> Cause {
    if is_about_file(end) {
        input.cause()
    } else {
        output.cause()
    }
}

/// Prints a text, and gives the status 0. The fault is that a write failed, `Unwritten` (status 5
/// by `trouble_end`): the beginning of the text was then printed, and not all.
pub fn print<'a, W: Output>(output: &mut W, text: &[u8]) -> Result<u8, ProgramFault<'a>>
    ensures { Prints text.now (W.told output.old) (W.told output.new) result }
{
    match tell(output, text) {
        Ok(status) => Ok(status),
        Err(trouble) => Err(ProgramFault::of_output(trouble, output.cause())),
    }
}

/// Writes a text, and gives the status 0. The trouble is `Unwritten`, that a write failed: the
/// beginning of the text was then written, and not all.
pub(crate) fn tell<W: Writer>(writer: &mut W, text: &[u8]) -> Result<u8, Trouble>
    ensures { Tells text.now (W.told writer.old) (W.told writer.new) result }
{
    match write_all(writer, text) {
        Ok(()) => Ok(0),
        Err(_) => Err(Trouble::Unwritten),
    }
}

/// How the program ends by `end`, for a command that read `file` and used the database `store`:
/// with the same status, or a fault with the same trouble. The fault names what its trouble is
/// about: the file, the database, standard output or nothing. The database is named by its path as
/// a line shows it, and then by what was found in it. That is to be as a line shows it, too, which
/// no clause asks. Or it is named by its path alone, as it is: so it is without memory, but no
/// clause says when.
pub fn ended<'a, D, W: Output>(
    host: &Host<'_, D, W>,
    end: Result<u8, Trouble>,
    file: &'a str,
    store: NamedDatabase,
) -> Result<u8, ProgramFault<'a>>
    ensures ends { EndsAlike end result }
    ensures about { IfErr result
        (IsAbout file.now (string_bytes store.path) (string_bytes store.found)) }
{
    match end {
        Ok(status) => Ok(status),
        Err(trouble) => {
            let cause = host.output.cause();
            Err(placed(host.tools.alloc, trouble, file, store, cause))
        }
    }
}

/// The fault that [`ended`] gives for this trouble. `stream` is why reading or printing failed, for
/// a message: no clause says what of it is kept.
pub(crate) fn placed<'a>(
    alloc: Global,
    trouble: Trouble,
    file: &'a str,
    store: NamedDatabase,
    stream: Cause,
) -> ProgramFault<'a>
    ensures { HasTrouble trouble
        (IsAbout file.now (string_bytes store.path) (string_bytes store.found)) result }
{
    let shown = shown_database(alloc, store.path, store.found.as_str());
    ProgramFault::placed(trouble, file, shown, stream)
}

/// The path of a database as a line shows it, and what was found in it: without memory the path as
/// it is.
fn shown_database(alloc: Global, path: String, found: &str) -> String
    ensures { NamesPath (string_bytes path) found.now (string_bytes result) }
{
    match path_and_found(alloc, path.as_str(), found) {
        Ok(shown) => shown,
        Err(AllocError) => path,
    }
}

/// The path of a database as a line shows it, and what was found in it; the error is that memory
/// ran out.
pub(crate) fn path_and_found(alloc: Global, path: &str, found: &str) -> Result<String, AllocError>
    ensures { IfOk result (λ text. (start : List ℕ) × IsShownAs path.now start
        × (string_bytes text ≡ start ++ found.now)) }
{
    let mut shown = shown_name(alloc, path)?;
    shown.push_str(found)?;
    Ok(shown)
}
