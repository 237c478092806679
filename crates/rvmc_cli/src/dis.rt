//! `dis`.

ghost use Rattle.std.specs.Prelude.{IfOk};
ghost use Rattle.clap.specs.Walk.{rows_of};
ghost use Rattle.clap.specs.Words.{found_of};
ghost use Rattle.rvmc_cli.specs.Built.{StandsFor};
ghost use Rattle.rvmc_cli.specs.Commands.{app_of, dis_row};
ghost use Rattle.rvmc_cli.specs.Parsing.{Finds};

use crate::parts::{Help, command as new_command};
use crate::wrong::Wrong;
use clap::{ArgMatches, Command};
use rvmc_line::{CommandLine, ImageCommand};
use std::alloc::{AllocError, Global};

/// What help says below its options.
const EXAMPLES: &str = "\
Each line has an address, the word there, and its instruction; a word that isn't
an instruction is shown as `.word`. The symbols at an address are printed before
it, one a line, as `main:`. In an image of a C program the source lines are
symbols too, as `farm.c.12:`.

At most 67,108,864 bytes are read, from FILE or else from standard input. With -o
the output goes to a file, which is in its place once it is whole.

Status:
  0 done, 1 error in the image, 2 error in the command line,
  5 out of memory, 6 a read or write failed, or the input is too long

Examples:
  rvmc dis hi.image
  rvmc asm hi.s | rvmc dis";

/// The command as clap builds it.
pub fn command<'a>(alloc: Global) -> Result<Command<'a>, AllocError>
    ensures { IfOk result (StandsFor (app_of dis_row)) }
{
    new_command(
        alloc,
        "dis",
        Help {
            usage: "rvmc dis [-o OUTPUT] [FILE]",
            about: "List the instructions of an image",
            examples: EXAMPLES,
        },
        &[],
    )
}

/// What it asks for, of what clap found.
pub fn line<'a>(_alloc: Global, _matches: &ArgMatches<'a>) -> Result<CommandLine, Wrong<'a>>
    ensures { Finds (dis_row.meaning (rows_of (found_of _matches.now))) result }
{
    Ok(CommandLine::OfImage {
        source: false,
        command: ImageCommand::Dis,
    })
}
