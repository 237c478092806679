//! `check`.

ghost use Rattle.std.specs.Prelude.{IfOk};
ghost use Rattle.clap.specs.Walk.{rows_of};
ghost use Rattle.clap.specs.Words.{found_of};
ghost use Rattle.rvmc_cli.specs.Built.{StandsFor};
ghost use Rattle.rvmc_cli.specs.Commands.{app_of, check_row};
ghost use Rattle.rvmc_cli.specs.Parsing.{Finds};

use crate::parts::{Help, command as new_command};
use crate::wrong::Wrong;
use clap::{ArgMatches, Command};
use rvmc_line::{CommandLine, RecordCommand};
use std::alloc::{AllocError, Global};

/// What help says below its options.
const EXAMPLES: &str = "\
Starting from the image in the record, each step is compared with what the
machine does there according to its definition. Only the record is used, not the
program that wrote it, nor how the run came about.

  good LEN   all LEN steps, in the order of their stamps, are a run of the image
  bad N      the first N steps are, but the next one isn't

`bad` has status 1. Bytes that aren't a record are an error, as
`rvmc: record: Short 247`.

At most 67,108,864 bytes are read. `run` and `one` also write longer records,
which can't be checked here.

Status:
  0 good, 1 bad, or error in the record, 2 error in the command line,
  5 out of memory, 6 a read or write failed, or the input is too long

Examples:
  rvmc run --record farm.image -o farm.record
  rvmc check farm.record";

/// The command as clap builds it.
pub fn command<'a>(alloc: Global) -> Result<Command<'a>, AllocError>
    ensures { IfOk result (StandsFor (app_of check_row)) }
{
    new_command(
        alloc,
        "check",
        Help {
            usage: "rvmc check [-o OUTPUT] [FILE]",
            about: "Check that a record is a run of its image",
            examples: EXAMPLES,
        },
        &[],
    )
}

/// What it asks for, of what clap found.
pub fn line<'a>(_alloc: Global, _matches: &ArgMatches<'a>) -> Result<CommandLine, Wrong<'a>>
    ensures { Finds (check_row.meaning (rows_of (found_of _matches.now))) result }
{
    Ok(CommandLine::OfRecord(RecordCommand::Check))
}
