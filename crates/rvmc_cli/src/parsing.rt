//! From the words of a command line to what they ask for.

ghost use Rattle.std.specs.Prelude.{◌≡◌, [], IfOk, None, Ok, map, true};
ghost use Rattle.std.specs.Option.{option_and_then};
ghost use Rattle.clap.specs.Walk.{rows_of};
ghost use Rattle.clap.specs.Words.{found_of, kind_of, subcommand_rows_of};
ghost use Rattle.rvmc_cli.specs.Commands.{line_in};
ghost use Rattle.rvmc_cli.specs.Meaning.{IsParseFault, Parses};
ghost use Rattle.rvmc_cli.specs.Parsing.{IsTold, Tells};
ghost use Rattle.rvmc_line.specs.declared.line.CommandLine.TheVariants.{OfImage};
ghost use Rattle.rvmc_line.specs.declared.line.ImageCommand.TheVariants.{One};
ghost use Rattle.rvmc_line.specs.declared.line.Written.TheVariants as written;

use crate::table::{line, named, rvmc};
use crate::wrong::Wrong;
use clap::error::ErrorKind;
use clap::{ArgMatches, Command};
use rvmc_line::{CommandLine, ImageCommand, ParseFault, Written};
use std::alloc::{AllocError, Global};

/// What clap says in place of what it found.
fn shown(alloc: Global, error: clap::Error) -> ParseFault
    ensures { IsParseFault (kind_of error) result }
{
    let Ok(text) = format!(in alloc; "{error}") else {
        return ParseFault::Memory;
    };
    match error.kind() {
        ErrorKind::OutOfMemory => ParseFault::Memory,
        ErrorKind::DisplayHelp | ErrorKind::DisplayVersion => ParseFault::Asked(text),
        _ => ParseFault::Refused(text),
    }
}

/// A refusal of our own, in clap's form, with the command's usage below it; or that memory was refused.
fn refused(
    alloc: Global,
    command: &mut Command<'_>,
    wrong: Wrong<'_>,
) -> Result<ParseFault, AllocError>
    ensures { IfOk result (IsTold wrong.entry) }
{
    if let Wrong::Memory = wrong {
        return Ok(ParseFault::Memory);
    }
    let sentence = format!(in alloc; "{wrong}")?;
    let error = command.error(ErrorKind::ValueValidation, sentence.as_str())?;
    Ok(shown(alloc, error))
}

/// The same below the usage of the command of this name.
fn refused_by_name(alloc: Global, name: &str, wrong: Wrong<'_>) -> Result<ParseFault, AllocError>
    ensures { IfOk result (IsTold wrong.entry) }
{
    let mut command = named(alloc, name)?;
    refused(alloc, &mut command, wrong)
}

/// The command line of the command that clap found, or why it is none, as it is told.
#[tactic(auto, using(crate::proofs::FromClap::tells))]
fn told_line(alloc: Global, name: &str, matches: &ArgMatches<'_>) -> Result<CommandLine, ParseFault>
    ensures { Tells (line_in name.now (rows_of (found_of matches.now))) result }
{
    match line(alloc, name, matches) {
        Ok(line) => Ok(line),
        Err(wrong) => Err(refused_by_name(alloc, name, wrong)?),
    }
}

/// The same of the words as a whole, where clap found a command in them or none.
#[tactic(auto, using(crate::proofs::FromClap::tells))]
fn told(alloc: Global, matches: &ArgMatches<'_>) -> Result<CommandLine, ParseFault>
    ensures { Tells (option_and_then (λ found. line_in found.0 found.1) (subcommand_rows_of matches.now)) result }
{
    match matches.subcommand() {
        Some((name, found)) => told_line(alloc, name, found),
        None => Err(refused_by_name(alloc, "", Wrong::Command)?),
    }
}

/// What the words after the program's name ask for. Without words it is `one --source`.
///
/// `Asked` comes where the words ask for help or the version, `Refused` where clap doesn't take them,
/// a number is out of its range, a list, a start or a word of `debug` is none, or two are there that
/// don't go together, as `--record` and `--why`, and `Memory` where memory was refused, whatever the
/// words, unless there are none.
pub fn parse<'a>(alloc: Global, words: &'a [&'a str]) -> Result<CommandLine, ParseFault>
    ensures parsed { Parses (map (λ w. w.now) words.entry.now) result }
    ensures none { words.entry.now ≡ [] → result ≡ Ok (OfImage true (One 1000000 None None written.Report)) }
{
    if words.is_empty() {
        return Ok(CommandLine::OfImage {
            source: true,
            command: ImageCommand::One {
                budget: 1_000_000,
                plan: None,
                order: None,
                written: Written::Report,
            },
        });
    }
    match rvmc(alloc)?.try_get_matches_from(words) {
        Ok(matches) => told(alloc, &matches),
        Err(error) => Err(shown(alloc, error)),
    }
}
