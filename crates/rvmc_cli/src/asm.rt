//! `asm [--from]`.

ghost use Rattle.std.specs.Prelude.{IfOk};
ghost use Rattle.clap.specs.Walk.{rows_of};
ghost use Rattle.clap.specs.Words.{found_of};
ghost use Rattle.rvmc_cli.specs.Built.{StandsFor};
ghost use Rattle.rvmc_cli.specs.Commands.{app_of, asm_row};
ghost use Rattle.rvmc_cli.specs.Parsing.{Finds};

use crate::parts::{Help, Part, command as new_command};
use crate::values;
use crate::wrong::Wrong;
use clap::{ArgMatches, Command};
use rvmc_line::{CommandLine, ImageCommand};
use std::alloc::{AllocError, Global};

/// What help says below its options.
const EXAMPLES: &str = "\
The source is RISC-V assembly for RV64IM (docs/ASSEMBLER.md). To compile C, use
rvmc-cc or rvmc-mpi. Each label that a .globl names becomes a symbol of the
image; `rvmc dis` and the other commands show it.

With --from the input is an image of version 1 or 2 instead. It is written out
in version 2, with the symbols it has, and is otherwise unchanged.

At most 67,108,864 bytes are read, from FILE or else from standard input. With -o
the output goes to a file, which is in its place once it is whole.

Status:
  0 done, 1 error in the source or the image, 2 error in the command line,
  5 out of memory, 6 a read or write failed, or the input is too long

Examples:
  rvmc asm hi.s -o hi.image
  rvmc asm --from old.image -o new.image";

/// Its parts, in the order in which help lists them.
static PARTS: &[Part] = &[Part::Flag(
    "from",
    "Read an image of either version instead of a source",
)];

/// The command as clap builds it.
pub fn command<'a>(alloc: Global) -> Result<Command<'a>, AllocError>
    ensures { IfOk result (StandsFor (app_of asm_row)) }
{
    new_command(
        alloc,
        "asm",
        Help {
            usage: "rvmc asm [OPTIONS] [-o OUTPUT] [FILE]",
            about: "Assemble a source to an image",
            examples: EXAMPLES,
        },
        PARTS,
    )
}

/// What it asks for, of what clap found.
pub fn line<'a>(_alloc: Global, matches: &ArgMatches<'a>) -> Result<CommandLine, Wrong<'a>>
    ensures { Finds (asm_row.meaning (rows_of (found_of matches.now))) result }
{
    let from = values::flag(matches, "from");
    Ok(CommandLine::OfImage {
        source: !from,
        command: ImageCommand::Asm { from },
    })
}
