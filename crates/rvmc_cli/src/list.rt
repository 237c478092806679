//! `list [--from N] [--to N] [--rank R] [--calls] [--stats]`.

ghost use Rattle.std.specs.Prelude.{IfOk};
ghost use Rattle.clap.specs.Walk.{rows_of};
ghost use Rattle.clap.specs.Words.{found_of};
ghost use Rattle.rvmc_cli.specs.Built.{StandsFor};
ghost use Rattle.rvmc_cli.specs.Commands.{app_of, list_row, listing_in};
ghost use Rattle.rvmc_cli.specs.Parsing.{Finds, Reads};

use crate::parts::{Help, Part};
use crate::places::{Places, placed, places_of};
use crate::values::{self, optional_number};
use crate::wrong::Wrong;
use clap::{ArgMatches, Command};
use rvmc_line::{CommandLine, RecordCommand};
use std::alloc::{AllocError, Global};

/// What help says below its options.
const EXAMPLES: &str = "\
Each line has the place before the step, the rank and the hart that took it, its
stamp, where the hart was, and what it did:

  0 rank 0 hart 0 stamp 1 at 0x0: lui x5, 0xa7 = 0xa7000
  6 rank 0 hart 0 stamp 7 at 0x18: PUT buf=0xfff8 count=3

Step N leads from place N to place N + 1, so `rvmc debug go=N` shows the machine
before it. --to names the place after the last step. With --calls, polls that
found nothing and follow each other are one line, with their number.

--stats counts instead: turns by rank and kind, calls by how they ended, messages
and bytes by sender and receiver, and the ten places in the program with the most
turns.

A rank or place that doesn't exist is an error, as `rvmc: list: NoRank` or
`rvmc: list: PastEnd 10`, and so are steps that aren't a run of the image, as
`rvmc: list: NotARun 3`.

At most 67,108,864 bytes are read, from FILE or else from standard input. With -o
the output goes to a file, which is in its place once it is whole.

Status:
  0 done, 1 error in the record, or no such rank or place,
  2 error in the command line,
  5 out of memory, 6 a read or write failed, or the input is too long

Examples:
  rvmc run --record farm.image -o farm.record
  rvmc list --calls --rank 0 farm.record
  rvmc list --from 2 --to 7 farm.record
  rvmc list --stats farm.record        count what was done";

/// Its parts, in the order in which help lists them.
static PARTS: &[Part] = &[
    Part::Option("rank", "R", "Show the steps of this rank only"),
    Part::Flag(
        "calls",
        "Show calls only; repeated unsuccessful polls become one line",
    ),
    Part::Flag("stats", "Count the steps, and print tables instead"),
];

/// The command as clap builds it.
pub fn command<'a>(alloc: Global) -> Result<Command<'a>, AllocError>
    ensures { IfOk result (StandsFor (app_of list_row)) }
{
    placed(
        alloc,
        "list",
        Help {
            usage: "rvmc list [OPTIONS] [-o OUTPUT] [FILE]",
            about: "Print a record in words, one line a step",
            examples: EXAMPLES,
        },
        PARTS,
    )
}

/// Lines or tables.
fn listing<'a>(
    matches: &ArgMatches<'a>,
    places: Places,
    rank: Option<u64>,
) -> Result<RecordCommand, Wrong<'a>>
    ensures { Reads (listing_in places rank (rows_of (found_of matches.now))) result }
{
    let Places { from, to } = places;
    let calls = values::flag(matches, "calls");
    if !values::flag(matches, "stats") {
        return Ok(RecordCommand::List {
            from,
            to,
            rank,
            calls,
        });
    }
    if calls {
        return Err(Wrong::Both {
            flag: "stats",
            other: "calls",
        });
    }
    Ok(RecordCommand::Stats { from, to, rank })
}

/// What it asks for, of what clap found.
pub fn line<'a>(_alloc: Global, matches: &ArgMatches<'a>) -> Result<CommandLine, Wrong<'a>>
    ensures { Finds (list_row.meaning (rows_of (found_of matches.now))) result }
{
    let places = places_of(matches)?;
    let rank = optional_number(matches, "rank", 0, 255)?;
    let command = listing(matches, places, rank)?;
    Ok(CommandLine::OfRecord(command))
}
