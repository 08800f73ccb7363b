//! Reading the arguments of the command line: the command that they ask for, or why they ask for
//! none. `rr_cli` calls `read_command`.

ghost use Rattle.std.specs.Prelude.{◌≡◌, ◌&&◌, codes, map, string_bytes, IfOk, MatchResult};
ghost use Rattle.std.specs.Prelude.{length, nat_lt, true};
ghost use Rattle.std.specs.Str.{bytes_eq};
ghost use Rattle.clap.specs.Values.{kind_of};
ghost use Rattle.clap.specs.Walk.{Text, one_of, rows_of};
ghost use Rattle.clap.specs.Matches.{found_of};
ghost use Rattle.rr_arguments.specs.CommandLine.{FailsToInvoke, GivesInvoked, GivesPart};
ghost use Rattle.rr_arguments.specs.CommandLine.{Invocation, IsFlag, IsToldAs, given, helped};
ghost use Rattle.rr_arguments.specs.CommandLine.{asks_help, asks_query, invoked, invoked_by};
ghost use Rattle.rr_arguments.specs.CommandLine.{invoked_count, invoked_port, joined, parsed};
ghost use Rattle.rr_arguments.specs.CommandLine.{parsed_or_helped, query};

use crate::arguments_fault::ArgumentsFault;
use crate::command::Command;
use crate::grammar::program;
use crate::numbers::read_number;
use clap::ArgMatches;
use clap::error::ErrorKind;
use std::alloc::{AllocError, Global};
use std::convert::AsStr;

/// The greatest port.
const GREATEST_PORT: usize = 65_535;

/// The greatest number of connections that are served in one run (profile).
const GREATEST_COUNT: usize = 1_000_000;

/// What stands before the usage in a refusal.
const USAGE: &str = "usage: ";

/// The command that the arguments ask for; the first of them is the program's own name. Without
/// another one the command is `Plain`. If words follow the settings of a query, whose path begins
/// with no dash, all of them are words of the query. Just `help` and after it one word that is not
/// `help` ask for the help on the command of that name. What else is asked, the rules of `grammar`
/// say. Beyond these, a port is a number from 1 to 65,535, and a count one from 1 to 1,000,000,
/// both in digits alone. A bad port is told before a bad count (profile). The fault is why they ask
/// for no command, or that memory ran out, which it may at any time. What the text of the help or
/// of the version is, or the line of a refusal, no clause says.
pub fn read_command<'a>(
    alloc: Global,
    arguments: &'a [String],
) -> Result<Command<'a>, ArgumentsFault<'a>>
    ensures { GivesInvoked (invoked (map string_bytes arguments.now)) result }
{
    if arguments.len() < 2 {
        return Ok(Command::Plain);
    }
    match arguments {
        [_, name, settings, query @ ..] if is_query(name.as_str(), settings.as_str(), query) => {
            read_query(alloc, settings.as_str(), query)
        }
        _ => read_arguments(alloc, arguments),
    }
}

/// Whether the command is a query, the path of its settings begins with no dash, and arguments
/// follow. Then each of these is a word of the query, also one that begins with a dash and would be
/// an option elsewhere (profile).
fn is_query(name: &str, settings: &str, query: &[String]) -> bool
    ensures { result ≡ (asks_query name.now settings.now && nat_lt 0 (length query.now)) }
{
    name == "query" && !settings.starts_with('-') && !query.is_empty()
}

/// The query of these words, with one space between each two. The fault is that memory ran out.
fn read_query<'a, S: AsStr>(
    alloc: Global,
    settings: &'a str,
    words: &[S],
) -> Result<Command<'a>, ArgumentsFault<'a>>
    ensures { GivesInvoked (query settings.now (joined (map S.text words.now))) result }
{
    let query = words.join(alloc, " ")?;
    Ok(Command::Query { settings, query })
}

/// The command that the arguments ask for, if they are no query with words after its settings. The
/// faults, here and below, are such as those of `read_command`.
fn read_arguments<'a>(
    alloc: Global,
    arguments: &'a [String],
) -> Result<Command<'a>, ArgumentsFault<'a>>
    ensures { GivesInvoked (parsed_or_helped (map string_bytes arguments.now)) result }
{
    match arguments {
        [first, help, name] if is_help(help.as_str(), name.as_str()) => {
            read_help(alloc, first.as_str(), name.as_str())
        }
        _ => parse(alloc, arguments),
    }
}

/// Whether these ask for the help on a command.
fn is_help(help: &str, name: &str) -> bool
    ensures { result ≡ asks_help help.now name.now }
{
    help == "help" && name != "help"
}

/// The command that a parse of the arguments finds.
fn parse<'a>(alloc: Global, arguments: &'a [String]) -> Result<Command<'a>, ArgumentsFault<'a>>
    ensures { GivesInvoked (parsed (map string_bytes arguments.now)) result }
{
    match program(alloc)?.try_get_matches_from(arguments) {
        Ok(matches) => match matches.subcommand() {
            Some((name, found)) => read_found(alloc, name, found),
            None => Err(ArgumentsFault::Unexplained),
        },
        Err(error) => read_refusal(alloc, arguments, &error),
    }
}

/// The help on a command: what the command says with `--help`, which suggests another for one that
/// is unknown.
fn read_help<'a>(alloc: Global, first: &str, name: &str) -> Result<Command<'a>, ArgumentsFault<'a>>
    ensures { GivesInvoked (helped first.now name.now) result }
{
    let words = words_of(alloc, &[first, name, "--help"])?;
    match program(alloc)?.try_get_matches_from(words.as_slice()) {
        Ok(_) => Err(ArgumentsFault::Unexplained),
        Err(error) => read_refusal(alloc, words.as_slice(), &error),
    }
}

/// Copies of the texts, in their order. The error is that memory ran out.
fn words_of(alloc: Global, texts: &[&str]) -> Result<Vec<String>, AllocError>
    ensures { IfOk result
        (λ words. map string_bytes words.items ≡ map (λ text. text.now) texts.now) }
{
    let mut words = Vec::new(alloc);
    for text in texts {
        words.push(String::from_str(alloc, text)?)?;
    }
    Ok(words)
}

/// The command of this name, with what was found after it, where `--full` of a dump was read as a
/// flag. The fault is why there is none.
fn read_found<'a>(
    alloc: Global,
    name: &'a str,
    found: &ArgMatches<'a>,
) -> Result<Command<'a>, ArgumentsFault<'a>>
    ensures { (bytes_eq name.now (codes "dump") ≡ true
        → IsFlag (one_of (codes "full") (rows_of (found_of found.now))))
        → GivesInvoked (invoked_by name.now (rows_of (found_of found.now))) result }
{
    let settings = read_argument(found, "SETTINGS")?;
    match name {
        "init" => Ok(Command::Init { settings }),
        "submit" => Ok(Command::Submit {
            settings,
            file: read_argument(found, "FILE")?,
        }),
        "query" => read_query(alloc, settings, found.get_strs("WORD").unwrap_or(&[])),
        "dump" => Ok(Command::Dump {
            settings,
            full: found.get_flag("full"),
        }),
        "load" => Ok(Command::Load {
            settings,
            file: read_argument(found, "FILE")?,
        }),
        "migrate" => Ok(Command::Migrate { settings }),
        "serve" => Ok(Command::Serve {
            settings,
            port: read_port(found)?,
            count: read_count(found)?,
        }),
        "probe" => Ok(Command::Probe { settings }),
        _ => Err(ArgumentsFault::Unexplained),
    }
}

/// The argument of a command that has this place. The fault is `Unexplained`, if there is none.
fn read_argument<'a>(found: &ArgMatches<'a>, place: &str) -> Result<&'a str, ArgumentsFault<'a>>
    ensures { (made : Text → Invocation) → MatchResult result
        (λ text. given place.now made (rows_of (found_of found.now)) ≡ made text.now)
        (λ fault. FailsToInvoke fault (given place.now made (rows_of (found_of found.now)))) }
{
    match found.get_str(place) {
        Some(argument) => Ok(argument),
        None => Err(ArgumentsFault::Unexplained),
    }
}

/// The port that the arguments name. The fault is that they name none, or what is no port.
fn read_port<'a>(found: &ArgMatches<'a>) -> Result<u16, ArgumentsFault<'a>>
    ensures { GivesPart (λ made. invoked_port made (rows_of (found_of found.now))) result }
{
    let argument = read_argument(found, "PORT")?;
    match read_number(argument, GREATEST_PORT) {
        Some(port) => Ok(port as u16),
        None => Err(ArgumentsFault::Port(argument)),
    }
}

/// The number of connections that the arguments name. The fault is that they name none, or what is
/// no count.
fn read_count<'a>(found: &ArgMatches<'a>) -> Result<u64, ArgumentsFault<'a>>
    ensures { GivesPart (λ made. invoked_count made (rows_of (found_of found.now))) result }
{
    let argument = read_argument(found, "N")?;
    match read_number(argument, GREATEST_COUNT) {
        Some(count) => Ok(count as u64),
        None => Err(ArgumentsFault::Count(argument)),
    }
}

/// What is to be done where a parse ended so: the help or the version is printed, or the arguments
/// are refused. `Memory` may be the fault at any time.
fn read_refusal<'a>(
    alloc: Global,
    arguments: &[String],
    error: &clap::Error,
) -> Result<Command<'a>, ArgumentsFault<'a>>
    ensures { IsToldAs (kind_of error.now) result }
{
    let text = error.to_string(alloc)?;
    match error.kind() {
        ErrorKind::DisplayHelp | ErrorKind::DisplayVersion => Ok(Command::Print(text)),
        ErrorKind::OutOfMemory => Err(ArgumentsFault::Memory),
        _ => {
            let mut line = one_line(alloc, text.as_str())?;
            push_usage(alloc, arguments, &mut line)?;
            Err(ArgumentsFault::Refused(line))
        }
    }
}

/// Adds the usage of the command that the arguments name to a refusal without one, as that of an
/// option without its value is. A command that gets no further word is refused with its usage. The
/// error is that memory ran out; the line may then have a part of it.
fn push_usage(alloc: Global, arguments: &[String], line: &mut String) -> Result<(), AllocError> {
    if line.contains(USAGE) {
        return Ok(());
    }
    let Some(named) = arguments.get(..2) else {
        return Ok(());
    };
    match program(alloc)?.try_get_matches_from(named) {
        Ok(_) => Ok(()),
        Err(error) => {
            let text = error.to_string(alloc)?;
            let refusal = one_line(alloc, text.as_str())?;
            match refusal.split_once(USAGE) {
                Some((_, usage)) => {
                    line.push_str("; ")?;
                    line.push_str(USAGE)?;
                    line.push_str(usage)
                }
                None => Ok(()),
            }
        }
    }
}

/// A refusal as one line: what is wrong, a suggestion if there is one, and the usage, with `;`
/// between them. It is without the word `error` and without the last paragraph, which points to
/// `--help`. The error is that memory ran out.
fn one_line(alloc: Global, text: &str) -> Result<String, AllocError> {
    let told = text.strip_prefix("error: ").unwrap_or(text);
    let told = match told.split_once("\n\nFor more information") {
        Some((told, _)) => told,
        None => told,
    };
    let mut line = String::new(alloc);
    let mut is_apart = false;
    for part in told.lines() {
        let part = part.trim();
        // To pass an option as a value helps no command but one of a file whose name begins with a
        // dash, and that can be written after `./`.
        if part.is_empty() || part.starts_with("tip: to pass '") {
            is_apart = true;
        } else {
            push_part(&mut line, part, is_apart)?;
            is_apart = false;
        }
    }
    Ok(line)
}

/// Adds a line of a refusal, which an empty line may part from those before it. The usage gets a
/// small letter first. The error is that memory ran out; a part may then stay added.
fn push_part(line: &mut String, part: &str, is_apart: bool) -> Result<(), AllocError> {
    if !line.is_empty() {
        line.push_str(if is_apart { "; " } else { " " })?;
    }
    match part.strip_prefix("Usage: ") {
        Some(usage) => {
            line.push_str(USAGE)?;
            line.push_str(usage)
        }
        None => line.push_str(part),
    }
}
