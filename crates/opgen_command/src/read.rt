//! Reads the words of a command line: the first word names the command, and `clap` parses the other words.
ghost use Rattle.std.specs.Prelude.{◌≡◌, IfOk, IfErr, Some, None, map, string_bytes, option_and_then};
ghost use Rattle.clap.specs.Words.{found_of, rows_of};
ghost use Rattle.opgen_command.specs.Command.{command_of, found_by, word_of, HasRanges, IsRead, generate_of, vectors_of, simulate_of, workload_of, check_of};
ghost use Rattle.opgen_command.specs.Names.{app_named, found_as};

use crate::apps::app;
use crate::command::Command;
use crate::fault::CommandFault;
use crate::name::{CommandName, command_name};
use crate::values::{is_set, number, word};
use clap::ArgMatches;
use clap::error::ErrorKind;
use opgen_list::Text;
use std::alloc::Global;

// What `clap` finds in the words of a command of this name.
fn matched<'a>(
    alloc: Global,
    name: CommandName,
    words: &'a [String],
) -> Result<ArgMatches<'a>, CommandFault>
    ensures found { IfOk result (λ m. found_by (app_named name) (map string_bytes words.entry.now) ≡ Some (rows_of (found_of m))) }
    ensures usage { IfErr result (λ fault. fault ≡ CommandFault.Usage →
        found_by (app_named name) (map string_bytes words.entry.now) ≡ None) }
{
    let Ok(app) = app(alloc, name) else {
        return Err(CommandFault::Memory);
    };
    match app.try_get_matches_from(words) {
        Ok(found) => Ok(found),
        Err(error) => match error.kind() {
            ErrorKind::OutOfMemory => Err(CommandFault::Memory),
            _ => Err(CommandFault::Usage),
        },
    }
}

// The word of a name, as a text.
fn text(alloc: Global, found: &ArgMatches<'_>, name: &str) -> Result<Text, CommandFault>
    ensures text { IfOk result (λ text. word_of name.now (rows_of (found_of found.now)) ≡ Some text) }
    ensures usage { IfErr result (λ fault. fault ≡ CommandFault.Usage → word_of name.now (rows_of (found_of found.now)) ≡ None) }
{
    let word = word(found, name).ok_or(CommandFault::Usage)?;
    Ok(Text::from_str(alloc, word)?)
}

fn generate(alloc: Global, found: &ArgMatches<'_>) -> Result<Command, CommandFault>
    ensures { IsRead (generate_of (rows_of (found_of found.now))) result }
{
    let workers = number(found, "workers", 1, 32, Some(1))?;
    let spec = text(alloc, found, "SPEC")?;
    Ok(Command::Generate {
        spec,
        workers,
        enable: is_set(found, "enable"),
    })
}

fn vectors(alloc: Global, found: &ArgMatches<'_>) -> Result<Command, CommandFault>
    ensures { IsRead (vectors_of (rows_of (found_of found.now))) result }
{
    let seed = number(found, "seed", 0, u32::MAX, Some(0))?;
    let cycles = number(found, "cycles", 1, 100_000, Some(16))?;
    let spec = text(alloc, found, "SPEC")?;
    Ok(Command::Vectors { spec, seed, cycles })
}

fn simulate(alloc: Global, found: &ArgMatches<'_>) -> Result<Command, CommandFault>
    ensures { IsRead (simulate_of (rows_of (found_of found.now))) result }
{
    let vhdl = text(alloc, found, "VHDL")?;
    let vectors = text(alloc, found, "VECTORS")?;
    let out = text(alloc, found, "OUT")?;
    Ok(Command::Simulate { vhdl, vectors, out })
}

fn workload(found: &ArgMatches<'_>) -> Result<Command, CommandFault>
    ensures { IsRead (workload_of (rows_of (found_of found.now))) result }
{
    let n = number(found, "N", 1, 32, None)?;
    Ok(Command::Workload { n })
}

fn check(alloc: Global, found: &ArgMatches<'_>) -> Result<Command, CommandFault>
    ensures { IsRead (check_of (rows_of (found_of found.now))) result }
{
    let latency = number(found, "LATENCY", 0, 100_000, None)?;
    let spec = text(alloc, found, "SPEC")?;
    let vhdl = text(alloc, found, "VHDL")?;
    let vectors = text(alloc, found, "VECTORS")?;
    Ok(Command::Check {
        spec,
        vhdl,
        vectors,
        latency,
    })
}

// The command of a name, by what was found in its words.
fn command(
    alloc: Global,
    name: CommandName,
    found: &ArgMatches<'_>,
) -> Result<Command, CommandFault>
    ensures { IsRead (found_as name (rows_of (found_of found.now))) result }
{
    match name {
        CommandName::Generate => generate(alloc, found),
        CommandName::Vectors => vectors(alloc, found),
        CommandName::Simulate => simulate(alloc, found),
        CommandName::Workload => workload(found),
        CommandName::Check => check(alloc, found),
    }
}

// The command of the words, of which the first is `name`.
fn named(alloc: Global, name: CommandName, words: &[String]) -> Result<Command, CommandFault>
    ensures { IsRead (option_and_then (found_as name) (found_by (app_named name) (map string_bytes words.now))) result }
{
    let found = matched(alloc, name, words)?;
    command(alloc, name, &found)
}

/// The command that the words after the program's name are. The first names it as it is spelled
/// here, and `clap` reads the others, so an option may stand before or after the files, as
/// `--seed 5` or `--seed=5`, and after a word `--` nothing is an option.
///
/// - `generate SPEC [--workers N] [--enable]`, with 1 to 32 workers, by default 1
/// - `vectors SPEC [--seed N] [--cycles N]`, with a seed of 32 bits, by default 0, and 1 to 100,000
///   cycles, by default 16
/// - `simulate VHDL VECTORS OUT`
/// - `workload N`, with N from 1 to 32
/// - `check SPEC VHDL VECTORS LATENCY`, with a latency of 0 to 100,000
pub fn read_command(alloc: Global, words: &[String]) -> Result<Command, CommandFault>
    ensures command { IfOk result (λ c. command_of (map string_bytes words.now) ≡ Some c) }
    ensures usage { IfErr result (λ fault. fault ≡ CommandFault.Usage → command_of (map string_bytes words.now) ≡ None) }
    ensures ranges { IfOk result HasRanges }
{
    let Some(word) = words.first() else {
        return Err(CommandFault::Usage);
    };
    match command_name(word.as_str()) {
        Some(name) => named(alloc, name, words),
        None => Err(CommandFault::Usage),
    }
}
