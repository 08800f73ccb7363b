//! Where the files are that commands read: commands are given `Files`, and `rr_cli` gives those of
//! the machine.

ghost use Rattle.std.specs.Prelude.{◌≡◌, Err, IfErr, IfOk, Ok};
ghost use Rattle.rr_io.specs.Counted.{counted_failed_reads};
ghost use Rattle.rr_commands.specs.Commands.{IsUnopenedFile, unopened_trouble};
ghost use Rattle.rr_commands.specs.Files.{FileCalls};

use crate::cause::Cause;
use crate::trouble::Trouble;
use rr_io::Counted;
use std::fs::File;
use std::io::Read;
use std::{fs, io};

/// Where files are, by their paths: on this machine, or wherever else bytes are.
pub trait Files {
    /// A file that is read.
    type File: Read + Drop;

    // What its calls do that open and close files.
    ghost calls: { Self → FileCalls };

    /// Opens the file at a path to read it. The error is that it cannot be opened, or that memory
    /// ran out. Of the bytes that are to be read then, and of the error, clauses say what
    /// `calls.opens` says.
    fn open(&self, path: &str) -> io::Result<Self::File>
        ensures opened { IfOk result (λ file.
            (calls self.now).opens path.now (Ok (Self.File.remaining file))) }
        ensures refused { IfErr result (λ error. (calls self.now).opens path.now (Err error)) };

    /// Whether the file at a path can be read again from its beginning, as one on a disk can. It is
    /// for a message, and no clause says whether it can.
    fn is_kept(&self, path: &str) -> bool;

    /// Closes a file that was opened at a path. `calls.closes` says what is true then, by the count
    /// of its failed reads.
    fn close(&self, path: &str, file: Counted<Self::File>)
        ensures { (calls self.now).closes path.now (counted_failed_reads file) };
}

/// The files of this machine, of which no clause says what they have.
#[derive(Clone, Copy)]
pub struct SystemFiles<'a> {
    rt: &'a HostRuntime,
}

impl<'a> SystemFiles<'a> {
    /// The files of this machine.
    pub fn new(rt: &'a HostRuntime) -> SystemFiles<'a> {
        SystemFiles { rt }
    }
}

impl Files for SystemFiles<'_> {
    type File = File;

    // No contract can say what a file has.
    ghost calls = { λ _. record { opens = λ _ _. Unit {0}; closes = λ _ _. Unit {0} } };

    fn open(&self, path: &str) -> io::Result<File> {
        File::open(self.rt, path)
    }

    fn is_kept(&self, path: &str) -> bool {
        match fs::metadata(self.rt, path) {
            Ok(found) => found.is_file(),
            Err(_) => false,
        }
    }

    fn close(&self, _path: &str, _file: Counted<File>)
        ensures { Unit {0} }
    {}
}

/// The file at a path, and what opens it.
#[derive(Drop)]
pub(crate) struct FileAt<'a, F> {
    /// Where files are.
    pub(crate) files: &'a F,
    /// Its path.
    pub(crate) path: &'a str,
}

/// Opens the file at a path to read it. The trouble is that it cannot be opened, and why, or that
/// memory ran out.
pub(crate) fn open_file<F: Files>(files: &F, path: &str) -> Result<F::File, Trouble>
    ensures opened { IfOk result (λ file.
        (F.calls files.now).opens path.now (Ok (F.File.remaining file))) }
    ensures fails { IfErr result (IsUnopenedFile (F.calls files.now) path.now) }
{
    match files.open(path) {
        Ok(file) => Ok(file),
        Err(error) => Err(unopened_trouble(Cause::of(&error))),
    }
}

/// What is told of a file that cannot be opened for this cause: that memory ran out if it is that,
/// and else the cause.
fn unopened_trouble(cause: Cause) -> Trouble
    ensures { result ≡ unopened_trouble cause }
{
    match cause {
        Cause::Memory => Trouble::Memory,
        _ => Trouble::FileUnopened(cause),
    }
}
