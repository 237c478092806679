//! What `run` and `one` have in common.

ghost use Rattle.std.specs.Prelude.{◌++◌, IfOk, map};
ghost use Rattle.clap.specs.Walk.{rows_of};
ghost use Rattle.clap.specs.Words.{found_of, new_app};
ghost use Rattle.rvmc_cli.specs.App.{with_rules};
ghost use Rattle.rvmc_cli.specs.Built.{StandsFor, rule_of_part};
ghost use Rattle.rvmc_cli.specs.Commands.{budget_in, runner_rules, written_in};
ghost use Rattle.rvmc_cli.specs.Parsing.{Reads};

use crate::parts::{Help, Part, command as new_command, with_parts};
use crate::values::{self, number};
use crate::wrong::Wrong;
use clap::{ArgMatches, Command};
use rvmc_line::Written;
use std::alloc::{AllocError, Global};

/// The options that `run` and `one` share, in the order in which help lists them.
static PARTS: &[Part] = &[
    Part::Flag("source", "Read an assembler source instead of an image"),
    Part::Option(
        "budget",
        "N",
        "Stop a rank after N turns, from 1 to 16777216 [default: 1000000]",
    ),
    Part::Option(
        "plan",
        "HARTS",
        "Which harts take a rank's turns, as 0,1 [default: all in order]",
    ),
    Part::Flag("record", "Write a record instead of the report"),
    Part::Flag(
        "why",
        "After the report, print what each hart is waiting for",
    ),
    Part::Flag(
        "frames",
        "The same, and print also which calls led to where each hart is",
    ),
];

/// A command that runs an image: with the shared options, and behind them these.
pub fn runner<'a>(
    alloc: Global,
    name: &'a str,
    help: Help<'a>,
    others: &[Part],
) -> Result<Command<'a>, AllocError>
    ensures { IfOk result (StandsFor (with_rules (new_app name.entry.now)
        (runner_rules ++ map rule_of_part others.now))) }
{
    let command = new_command(alloc, name, help, PARTS)?;
    with_parts(alloc, command, others)
}

/// The turns that a rank may take.
pub fn budget<'a>(matches: &ArgMatches<'a>) -> Result<u64, Wrong<'a>>
    ensures { Reads (budget_in (rows_of (found_of matches.now))) result }
{
    number(matches, "budget", 1, 16_777_216, 1_000_000)
}

/// What is to be written of a run.
pub fn written<'a>(matches: &ArgMatches<'a>) -> Result<Written, Wrong<'a>>
    ensures { Reads (written_in (rows_of (found_of matches.now))) result }
{
    let frames = values::flag(matches, "frames");
    let why = frames || values::flag(matches, "why");
    match (values::flag(matches, "record"), why) {
        (false, false) => Ok(Written::Report),
        (true, false) => Ok(Written::Record),
        (false, true) => Ok(Written::Why { frames }),
        (true, true) => Err(Wrong::Both {
            flag: if frames { "frames" } else { "why" },
            other: "record",
        }),
    }
}
