//! What the arguments of the command line may be, as clap parses them for `command_reading`. A new
//! command or option is added here, in `command` and in `command_reading`.

ghost use Rattle.std.specs.Prelude.{IfOk, codes};
ghost use Rattle.clap.specs.Simple.{App, with_subcommand};
ghost use Rattle.rr_arguments.specs.Grammar.{IsArg, ParsesAs, bare_app, dump_app, full_rule};
ghost use Rattle.rr_arguments.specs.Grammar.{needed_rule};
ghost use Rattle.rr_arguments.specs.Grammar.{option_rule, over_file, over_settings, program_app};
ghost use Rattle.rr_arguments.specs.Grammar.{query_app, serve_app, words_rule};

use crate::help;
use clap::{Arg, ArgAction};
use std::alloc::{AllocError, Global};

/// The version of the program, and that of the tables that it reads. Checks read it from this line,
/// which stays one line. `scripts/release` reads it as the second word that `--version` prints.
const VERSION: &str = "2.7.6 (tables 2)";

/// What the arguments may be. The commands stand in the order in which a registry meets them. The
/// error is that memory ran out, here and below.
pub(crate) fn program<'a>(alloc: Global) -> Result<clap::Command<'a>, AllocError>
    ensures { IfOk result (ParsesAs program_app) }
{
    let program = with(bare(alloc)?, init(alloc))?;
    let program = with(program, submit(alloc))?;
    let program = with(program, query(alloc))?;
    let program = with(program, serve(alloc))?;
    let program = with(program, dump(alloc))?;
    let program = with(program, load(alloc))?;
    let program = with(program, migrate(alloc))?;
    with(program, probe(alloc))
}

/// The program without its commands.
fn bare<'a>(alloc: Global) -> Result<clap::Command<'a>, AllocError>
    ensures { IfOk result (ParsesAs bare_app) }
{
    Ok(
        clap::Command::new(alloc, "irrdesk")
            .bin_name("irrdesk")?
            .version(VERSION)
            .about(help::PROGRAM)
            .after_help(help::PROGRAM_EXAMPLE)
            .subcommand_required(true),
    )
}

/// The program with one more command.
fn with<'a>(
    program: clap::Command<'a>,
    command: Result<clap::Command<'a>, AllocError>,
) -> Result<clap::Command<'a>, AllocError>
    ensures { (above : App) → (below : App) → ParsesAs above program.entry
        → IfOk command.entry (ParsesAs below)
        → IfOk result (ParsesAs (with_subcommand above below.top)) }
{
    program.subcommand(command?)
}

fn init<'a>(alloc: Global) -> Result<clap::Command<'a>, AllocError>
    ensures { IfOk result (ParsesAs (over_settings (codes "init"))) }
{
    over_settings(alloc, "init", help::INIT, help::INIT_EXAMPLE)
}

fn submit<'a>(alloc: Global) -> Result<clap::Command<'a>, AllocError>
    ensures { IfOk result (ParsesAs (over_file (codes "submit"))) }
{
    over_settings(alloc, "submit", help::SUBMIT, help::SUBMIT_EXAMPLE)?.arg(needed(
        alloc,
        "FILE",
        "The path of the submission",
    ))
}

fn query<'a>(alloc: Global) -> Result<clap::Command<'a>, AllocError>
    ensures { IfOk result (ParsesAs query_app) }
{
    over_settings(alloc, "query", help::QUERY, help::QUERY_EXAMPLE)?.arg(query_words(alloc))
}

fn query_words<'a>(alloc: Global) -> Arg<'a>
    ensures { IsArg words_rule result }
{
    needed(alloc, "WORD", "The words of the query").num_args(1..)
}

fn dump<'a>(alloc: Global) -> Result<clap::Command<'a>, AllocError>
    ensures { IfOk result (ParsesAs dump_app) }
{
    over_settings(alloc, "dump", help::DUMP, help::DUMP_EXAMPLE)?.arg(full(alloc))
}

fn full<'a>(alloc: Global) -> Arg<'a>
    ensures { IsArg full_rule result }
{
    Arg::new(alloc, "full")
        .long("full")
        .action(ArgAction::SetTrue)
        .help("All of each object, with its `auth`, as `irrdesk load` reads it")
}

fn load<'a>(alloc: Global) -> Result<clap::Command<'a>, AllocError>
    ensures { IfOk result (ParsesAs (over_file (codes "load"))) }
{
    over_settings(alloc, "load", help::LOAD, help::LOAD_EXAMPLE)?.arg(needed(
        alloc,
        "FILE",
        "The path of the dump",
    ))
}

fn migrate<'a>(alloc: Global) -> Result<clap::Command<'a>, AllocError>
    ensures { IfOk result (ParsesAs (over_settings (codes "migrate"))) }
{
    over_settings(alloc, "migrate", help::MIGRATE, help::MIGRATE_EXAMPLE)
}

fn serve<'a>(alloc: Global) -> Result<clap::Command<'a>, AllocError>
    ensures { IfOk result (ParsesAs serve_app) }
{
    over_settings(alloc, "serve", help::SERVE, help::SERVE_EXAMPLE)?
        .arg(option(alloc, "PORT", "port", "The port, 1 to 65535"))?
        .arg(option(
            alloc,
            "N",
            "count",
            "Ends after this many connections, 1 to 1000000",
        ))
}

fn probe<'a>(alloc: Global) -> Result<clap::Command<'a>, AllocError>
    ensures { IfOk result (ParsesAs (over_settings (codes "probe"))) }
{
    over_settings(alloc, "probe", help::PROBE, help::PROBE_EXAMPLE)
}

/// A command over what the settings name.
fn over_settings<'a>(
    alloc: Global,
    name: &'a str,
    about: &'a str,
    example: &'a str,
) -> Result<clap::Command<'a>, AllocError>
    ensures { IfOk result (ParsesAs (over_settings name.entry.now)) }
{
    clap::Command::new(alloc, name)
        .about(about)
        .after_help(example)
        .arg(needed(alloc, "SETTINGS", "The path of the settings, in TOML"))
}

/// An argument that a command needs, by its place.
fn needed<'a>(alloc: Global, place: &'a str, help: &'a str) -> Arg<'a>
    ensures { IsArg (needed_rule place.entry.now) result }
{
    Arg::new(alloc, place)
        .required(true)
        .action(ArgAction::Set)
        .help(help)
}

/// A value that a command needs, after an option of this name.
fn option<'a>(alloc: Global, place: &'a str, name: &'a str, help: &'a str) -> Arg<'a>
    ensures { IsArg (option_rule place.entry.now name.entry.now) result }
{
    needed(alloc, place, help).long(name).value_name(place)
}
