//! `report`.

ghost use Rattle.std.specs.Prelude.{IfOk};
ghost use Rattle.clap.specs.Walk.{rows_of};
ghost use Rattle.clap.specs.Words.{found_of};
ghost use Rattle.rvmc_cli.specs.Built.{StandsFor};
ghost use Rattle.rvmc_cli.specs.Commands.{app_of, report_row};
ghost use Rattle.rvmc_cli.specs.Parsing.{Finds};

use crate::parts::{Help, command as new_command};
use crate::wrong::Wrong;
use clap::{ArgMatches, Command};
use rvmc_line::{CommandLine, RecordCommand};
use std::alloc::{AllocError, Global};

/// What help says below its options.
const EXAMPLES: &str = "\
The report has, for each rank, the bytes it printed, how each of its harts
ended, and how many turns it took. It is what the run itself reported, except
for one word: a record doesn't say why a rank stopped.

  rank 0 stop all-ended turns 10   all its harts ended or trapped
  rank 0 stop unknown turns 10     some hart could have gone on

If the steps aren't a run of the image, that is an error, as
`rvmc: report: NotARun 3`.

At most 67,108,864 bytes are read, from FILE or else from standard input. With -o
the output goes to a file, which is in its place once it is whole.

Status:
  0 done, 1 error in the record, 2 error in the command line, 3 a hart trapped,
  4 some `stop` is unknown,
  5 out of memory, 6 a read or write failed, or the input is too long

Examples:
  rvmc run --record farm.image -o farm.record
  rvmc report farm.record";

/// The command as clap builds it.
pub fn command<'a>(alloc: Global) -> Result<Command<'a>, AllocError>
    ensures { IfOk result (StandsFor (app_of report_row)) }
{
    new_command(
        alloc,
        "report",
        Help {
            usage: "rvmc report [-o OUTPUT] [FILE]",
            about: "Print the report of a recorded run",
            examples: EXAMPLES,
        },
        &[],
    )
}

/// What it asks for, of what clap found.
pub fn line<'a>(_alloc: Global, _matches: &ArgMatches<'a>) -> Result<CommandLine, Wrong<'a>>
    ensures { Finds (report_row.meaning (rows_of (found_of _matches.now))) result }
{
    Ok(CommandLine::OfRecord(RecordCommand::Report))
}
