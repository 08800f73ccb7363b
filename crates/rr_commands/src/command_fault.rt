//! Why the program fails, and the line on standard error that says so. Commands end by such a
//! fault; `rr_cli` makes those of arguments and of serving, and tells all of them.

ghost use Rattle.std.specs.Prelude.{◌≡◌, ◌++◌, [], IfSome, codes, map, string_bytes};
ghost use Rattle.rr_io.specs.Sending.{TakesSome, Writes};
ghost use Rattle.rr_commands.specs.Faults.{HasTrouble, IsLegible, ShowsOnLine, byte_on_line};
ghost use Rattle.rr_commands.specs.Faults.{fault_about, fault_line, name_on_line, number_text};
ghost use Rattle.rr_commands.specs.Faults.{place_on_line, trouble_text};
ghost use Rattle.rr_commands.specs.Troubles.{place_of, trouble_status};
ghost use Rattle.rr_commands.specs.declared.command_fault.About.TheVariants as abouts;
ghost use Rattle.rr_commands.specs.declared.trouble.TroublePlace.TheVariants as place;

use crate::cause::Cause;
use crate::output::STANDARD_OUTPUT;
use crate::shown::shown_name;
use crate::trouble::{Trouble, TroublePlace};
use crate::words::{after_number, before_cause, before_number};
use itoa::Buffer;
use rr_io::{Writer, write_all, write_pieces};
use std::alloc::Global;
use std::io;

/// What a fault is about.
#[derive(Drop)]
pub enum About<'a> {
    /// Nothing that has a name.
    Nothing,
    /// A word, or a file that a word names, as it was given.
    Word(&'a str),
    /// A word, a database and what was found in it, a place in a file, an address, or why arguments
    /// are refused, as a line shows it.
    Named(String),
}

/// Why the program fails: what it is about, what went wrong with it, and `stream`, why reading or
/// printing failed. `stream` counts only for trouble that is that (`trouble_cause`).
#[derive(Drop)]
pub struct ProgramFault<'a> {
    about: About<'a>,
    trouble: Trouble,
    stream: Cause,
}

impl<'a> ProgramFault<'a> {
    /// A fault with this trouble that is about nothing that has a name. It has `Unnumbered` for why
    /// reading or printing failed.
    pub fn unnamed(trouble: Trouble) -> ProgramFault<'a>
        ensures { result ≡ fault_about abouts.Nothing trouble Cause.Unnumbered }
    {
        ProgramFault {
            about: About::Nothing,
            trouble,
            stream: Cause::Unnumbered,
        }
    }

    /// A fault with this trouble that is about a word, or about a file that it names. It has
    /// `Unnumbered` for why reading or printing failed.
    pub fn of(word: &'a str, trouble: Trouble) -> ProgramFault<'a>
        ensures { result ≡ fault_about (abouts.Word word.entry) trouble Cause.Unnumbered }
    {
        ProgramFault {
            about: About::Word(word),
            trouble,
            stream: Cause::Unnumbered,
        }
    }

    /// A fault with this trouble that is about a file, which a word names. It keeps `stream`: why
    /// reading failed, if it is that.
    pub fn of_file(word: &'a str, trouble: Trouble, stream: Cause) -> ProgramFault<'a>
        ensures { result ≡ fault_about (abouts.Word word.entry) trouble stream }
    {
        ProgramFault {
            about: About::Word(word),
            trouble,
            stream,
        }
    }

    /// A fault with this trouble that is about what has this name. It has `Unnumbered` for why
    /// reading or printing failed. The name is to be as a line shows it, which no clause asks:
    /// `legible` leaves it as it is.
    pub fn named(name: String, trouble: Trouble) -> ProgramFault<'a>
        ensures { result ≡ fault_about (abouts.Named name) trouble Cause.Unnumbered }
    {
        ProgramFault {
            about: About::Named(name),
            trouble,
            stream: Cause::Unnumbered,
        }
    }

    /// A fault with this trouble, whose line names standard output. It keeps `stream`: why standard
    /// output took no more.
    pub fn of_output(trouble: Trouble, stream: Cause) -> ProgramFault<'a>
        ensures shows { HasTrouble trouble (ShowsOnLine (place_on_line place.Output [] [])) result }
        ensures stream { result.stream ≡ stream }
    {
        ProgramFault {
            about: About::Word(STANDARD_OUTPUT),
            trouble,
            stream,
        }
    }

    /// A fault with this trouble, of a command that reads `file` and uses `database`. Its line
    /// names what the trouble is about: one of these two, standard output, or nothing. In a name it
    /// has `?` for each control character of ASCII (profile). `stream` is why reading or printing
    /// failed, for a message: no clause says what of it is kept.
    pub fn placed(
        trouble: Trouble,
        file: &'a str,
        database: String,
        stream: Cause,
    ) -> ProgramFault<'a>
        ensures { HasTrouble trouble (ShowsOnLine
            (place_on_line (place_of trouble) file.now (string_bytes database))) result }
    {
        match trouble.end().place {
            TroublePlace::Nothing => ProgramFault::unnamed(trouble),
            TroublePlace::Database => ProgramFault::named(database, trouble),
            TroublePlace::File => ProgramFault::of_file(file, trouble, stream),
            TroublePlace::Output => ProgramFault::of_output(trouble, stream),
        }
    }

    /// The same fault, about the same. A word that it is about becomes what [`shown_name`] gives of
    /// it, or stays as it was given: without memory it stays, but no clause says which. In either
    /// case the fault's line has `?` for a control character of ASCII.
    pub fn legible(self, alloc: Global) -> ProgramFault<'a>
        ensures about { IsLegible self.entry.about result.about }
        ensures trouble { result.trouble ≡ self.entry.trouble }
        ensures stream { result.stream ≡ self.entry.stream }
    {
        match self.shown_word(alloc) {
            Some(name) => ProgramFault {
                about: About::Named(name),
                trouble: self.trouble,
                stream: self.stream,
            },
            None => self,
        }
    }

    /// The word that it is about, as a line shows it, if it is about one and there is memory.
    fn shown_word(&self, alloc: Global) -> Option<String>
        ensures { IfSome result (λ name. IsLegible self.now.about (abouts.Named name)) }
    {
        match &self.about {
            About::Word(word) => shown_name(alloc, *word).ok(),
            About::Nothing | About::Named(_) => None,
        }
    }

    /// Says the fault in one line to `errors`, such as standard error, as `write_all` does: all of
    /// it or, if a write fails, its beginning and not all. Gives the status of its trouble in
    /// either case.
    pub fn tell<E: Writer>(self, errors: &mut E) -> u8
        ensures says { TakesSome (E.told errors.old) (E.told errors.new)
            (fault_line self.entry.about self.entry.trouble self.entry.stream) }
        ensures status { result ≡ trouble_status self.entry.trouble }
    {
        // A failed write cannot be said anywhere else, and the status says that there is a fault.
        let _ = self.write_line(errors);
        self.trouble.end().status
    }

    /// Writes the line.
    #[tactic(auto, unfolding(crate::specs::Faults::fault_line))]
    fn write_line<E: Writer>(&self, errors: &mut E) -> io::Result<()>
        ensures { Writes (E.told errors.old) (E.told errors.new)
            (fault_line self.now.about self.now.trouble self.now.stream) result }
    {
        write_all(errors, b"irrdesk: ")?;
        write_about(errors, &self.about)?;
        write_trouble(errors, self.trouble, self.stream)
    }
}

/// Writes the name of what a fault is about, and a colon.
fn write_about<E: Writer>(errors: &mut E, about: &About<'_>) -> io::Result<()>
    ensures { Writes (E.told errors.old) (E.told errors.new)
        (name_on_line about.now) result }
{
    match about {
        About::Nothing => Ok(()),
        About::Word(word) => write_name(errors, word.as_bytes()),
        About::Named(name) => write_name(errors, name.as_bytes()),
    }
}

/// Writes a name, and a colon.
fn write_name<E: Writer>(errors: &mut E, name: &[u8]) -> io::Result<()>
    ensures { Writes (E.told errors.old) (E.told errors.new)
        (map byte_on_line name.now ++ codes ": ") result }
{
    write_on_line(errors, name)?;
    write_all(errors, b": ")
}

/// Writes a text, with `?` for each control character, so that it stays on its line.
fn write_on_line<E: Writer>(errors: &mut E, text: &[u8]) -> io::Result<()>
    ensures { Writes (E.told errors.old) (E.told errors.new)
        (map byte_on_line text.now) result }
{
    'bytes: for byte in text {
        write_all(errors, &[byte_on_line(*byte)])?;
    }
    Ok(())
}

/// The byte as it is written on the line: `?` for a control character.
fn byte_on_line(byte: u8) -> u8
    ensures { result ≡ byte_on_line byte }
{
    if byte.is_ascii_control() { b'?' } else { byte }
}

/// Writes what went wrong, to the end of the line.
#[tactic(auto, unfolding(crate::specs::Faults::trouble_text))]
fn write_trouble<E: Writer>(errors: &mut E, trouble: Trouble, stream: Cause) -> io::Result<()>
    ensures { Writes (E.told errors.old) (E.told errors.new)
        (trouble_text trouble stream) result }
{
    let cause = trouble.cause(stream);
    let mut code_digits = Buffer::new();
    let mut digits = Buffer::new();
    write_pieces(
        errors,
        &[
            before_cause(trouble).as_bytes(),
            trouble.cause_words(cause).as_bytes(),
            number_text(&mut code_digits, cause.and_then(Cause::number)),
            before_number(trouble).as_bytes(),
            number_text(&mut digits, trouble.number()),
            after_number(trouble).as_bytes(),
            b"\n",
        ],
    )
}

/// A number in decimal digits, or nothing.
fn number_text(digits: &mut Buffer, number: Option<u64>) -> &[u8]
    ensures { result.now ≡ number_text number }
{
    match number {
        Some(number) => digits.format(number).as_bytes(),
        None => b"",
    }
}
