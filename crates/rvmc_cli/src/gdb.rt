//! `gdb [--rank R | --all]`.

ghost use Rattle.std.specs.Prelude.{IfOk, Some};
ghost use Rattle.clap.specs.Walk.{rows_of};
ghost use Rattle.clap.specs.Words.{found_of};
ghost use Rattle.rvmc_cli.specs.Built.{StandsFor};
ghost use Rattle.rvmc_cli.specs.Commands.{app_of, gdb_row, session_of};
ghost use Rattle.rvmc_cli.specs.Parsing.{Finds, Reads};

use crate::parts::{Help, Part, command as new_command};
use crate::values::{self, optional_number};
use crate::wrong::Wrong;
use clap::{ArgMatches, Command};
use rvmc_line::CommandLine;
use std::alloc::{AllocError, Global};

/// What help says below its options.
const EXAMPLES: &str = "\
gdb debugs one rank of the record, forwards and backwards, with its harts as
threads; the other ranks move with it. With --all every hart of every rank is a
thread of one session. gdb starts rvmc by itself:

  $ gdb-multiarch farm.elf
  (gdb) target remote | rvmc gdb --rank 1 farm.record

`rvmc-mpi gdb -n 4 farm.c` does all of this.

gdb stops at the record's first step. Every command that moves forwards has its
reverse: reverse-continue, reverse-next, reverse-finish. A watchpoint stops where
the bytes change, whether a hart of the rank or an arriving message changes them.
A record can't be changed, so registers and memory can't be set. `monitor` takes
the words place, go N, why, rank R, regs R H, bytes R A N, sent, got,
last-write A and help.

The packets of gdb's remote protocol come from standard input, behind the record
if no FILE is named; the answers go to standard output. If the input isn't a record, its
steps aren't a run of the image (`rvmc: debug: NotARun 3`) or there is no such
rank (`rvmc: debug: NoRank`), that is an error, and nothing is written.

At most 67,108,864 bytes are read, the record's among them. With -o the answers
go to a file.

Status:
  0 gdb left, or the input ended, 1 error in the record, or no such rank,
  2 error in the command line,
  5 out of memory, 6 a read or write failed, or the input is too long

Examples:
  rvmc run --record farm.image -o farm.record
  gdb-multiarch -ex 'target remote | rvmc gdb farm.record' farm.elf
  gdb-multiarch -ex 'target remote | rvmc gdb --all farm.record' farm.elf";

/// Its parts, in the order in which help lists them.
static PARTS: &[Part] = &[
    Part::Option("rank", "R", "Debug this rank [default: 0]"),
    Part::Flag("all", "Debug all ranks in one session"),
];

/// The command as clap builds it.
pub fn command<'a>(alloc: Global) -> Result<Command<'a>, AllocError>
    ensures { IfOk result (StandsFor (app_of gdb_row)) }
{
    new_command(
        alloc,
        "gdb",
        Help {
            usage: "rvmc gdb [OPTIONS] [-o OUTPUT] [FILE]",
            about: "Let gdb debug a record, forwards and backwards",
            examples: EXAMPLES,
        },
        PARTS,
    )
}

/// The session of one rank, or of all.
fn session<'a>(all: bool, rank: Option<u64>) -> Result<CommandLine, Wrong<'a>>
    ensures { Reads (session_of all rank) result }
{
    match (all, rank) {
        (true, None) => Ok(CommandLine::Session { rank: None }),
        (true, Some(_)) => Err(Wrong::Both {
            flag: "all",
            other: "rank",
        }),
        (false, None) => Ok(CommandLine::Session { rank: Some(0) }),
        (false, Some(rank)) => Ok(CommandLine::Session { rank: Some(rank) }),
    }
}

/// What it asks for, of what clap found.
pub fn line<'a>(_alloc: Global, matches: &ArgMatches<'a>) -> Result<CommandLine, Wrong<'a>>
    ensures { Finds (gdb_row.meaning (rows_of (found_of matches.now))) result }
{
    let rank = optional_number(matches, "rank", 0, 255)?;
    session(values::flag(matches, "all"), rank)
}
