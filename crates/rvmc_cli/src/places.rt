//! Two places of a record, from which and to which a command tells of its steps: `--from N` and `--to N`.

ghost use Rattle.std.specs.Prelude.{◌++◌, IfOk, map};
ghost use Rattle.clap.specs.Walk.{rows_of};
ghost use Rattle.clap.specs.Words.{found_of, new_app};
ghost use Rattle.rvmc_cli.specs.App.{with_rules};
ghost use Rattle.rvmc_cli.specs.Built.{StandsFor, rule_of_part};
ghost use Rattle.rvmc_cli.specs.Commands.{place_rules, places_given};
ghost use Rattle.rvmc_cli.specs.Parsing.{Reads};

use crate::parts::{Help, Part, command as new_command, with_parts};
use crate::values::{number, optional_number};
use crate::wrong::Wrong;
use clap::{ArgMatches, Command};
use std::alloc::{AllocError, Global};

/// Two places of a record, the second not before the first.
#[derive(Clone, Copy, Drop)]
pub struct Places {
    pub from: u64,
    /// None is the end of the record.
    pub to: Option<u64>,
}

/// The two options.
static PARTS: &[Part] = &[
    Part::Option("from", "N", "Start after N steps [default: 0]"),
    Part::Option(
        "to",
        "N",
        "Stop after N steps, counted from the beginning [default: all]",
    ),
];

/// A command that reads a record: with the two options, and behind them these parts.
pub fn placed<'a>(
    alloc: Global,
    name: &'a str,
    help: Help<'a>,
    parts: &[Part],
) -> Result<Command<'a>, AllocError>
    ensures { IfOk result (StandsFor (with_rules (new_app name.entry.now)
        (place_rules ++ map rule_of_part parts.now))) }
{
    let command = new_command(alloc, name, help, PARTS)?;
    with_parts(alloc, command, parts)
}

/// The places that were given.
pub fn places_of<'a>(matches: &ArgMatches<'a>) -> Result<Places, Wrong<'a>>
    ensures { Reads (places_given (rows_of (found_of matches.now))) result }
{
    let from = number(matches, "from", 0, u64::MAX, 0)?;
    let to = optional_number(matches, "to", from, u64::MAX)?;
    Ok(Places { from, to })
}
