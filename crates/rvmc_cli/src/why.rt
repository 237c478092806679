//! `why [--at N] [--frames]`.

ghost use Rattle.std.specs.Prelude.{IfOk};
ghost use Rattle.clap.specs.Walk.{rows_of};
ghost use Rattle.clap.specs.Words.{found_of};
ghost use Rattle.rvmc_cli.specs.Built.{StandsFor};
ghost use Rattle.rvmc_cli.specs.Commands.{app_of, why_row};
ghost use Rattle.rvmc_cli.specs.Parsing.{Finds};

use crate::parts::{Help, Part, command as new_command};
use crate::values::{self, optional_number};
use crate::wrong::Wrong;
use clap::{ArgMatches, Command};
use rvmc_line::{CommandLine, RecordCommand};
use std::alloc::{AllocError, Global};

/// What help says below its options.
const EXAMPLES: &str = "\
For the end of the record, or with --at the place after N steps, one line is
printed for each hart:

  rank 0 hart 0 ended 0
  rank 0 hart 0 trapped 4 (misaligned load) at 0x74
  rank 0 hart 0 runs at 0x8
  rank 0 hart 0 waits at 0x2c in RECV for a message from rank 1 tag 7 comm 0

Places are written as `farm.c:46 in worker [0x344]`, as `loop+0x8 [0x2c]` where
no line is known, or as the address alone. Where the line of a wait is known, it
stands for the address and the call. A hart that waits inside a library is shown
at the program's own call, with the library's function behind it:

  rank 0 hart 0 waits at farm.c:12 in main, for rank 1 to receive
  .. waits at life.c:41 in step, in MPI_Barrier, for a message from rank 2

With --frames it is shown where it is, and below it the calls that led there, the
last one first, as `  called from life.c:41 in step`; they are found by the frame
pointers on the hart's stack. If a hart waits for several things, `; ` separates
them. After the harts come, by sender and tag, the messages that no
receive has taken. The last line is the verdict:

  deadlock: ranks 0 1   whatever happens from here on, no hart of these ranks
                        will ever go on
  no deadlock shown     none was found; ranks that poll may still never end

If the record has fewer than N steps, that is an error, as
`rvmc: why: PastEnd 10`, and so are steps that aren't a run of the image, as
`rvmc: why: NotARun 3`. `run` and `one` print the same text about the end of
their run, with --why or --frames.

At most 67,108,864 bytes are read, from FILE or else from standard input. With -o
the output goes to a file, which is in its place once it is whole.

Status:
  0 done, whatever the verdict, 1 error in the record, or no such place,
  2 error in the command line,
  5 out of memory, 6 a read or write failed, or the input is too long

Examples:
  rvmc run --until-stuck --record farm.image -o farm.record
  rvmc why farm.record
  rvmc why --frames farm.record        and which calls led there
  rvmc why --at 6 hi.record            what each hart waits for after six steps";

/// Its parts, in the order in which help lists them.
static PARTS: &[Part] = &[
    Part::Option("at", "N", "Look after N steps [default: at the end]"),
    Part::Flag("frames", "Print also which calls led to where each hart is"),
];

/// The command as clap builds it.
pub fn command<'a>(alloc: Global) -> Result<Command<'a>, AllocError>
    ensures { IfOk result (StandsFor (app_of why_row)) }
{
    new_command(
        alloc,
        "why",
        Help {
            usage: "rvmc why [OPTIONS] [-o OUTPUT] [FILE]",
            about: "Print what each hart is waiting for",
            examples: EXAMPLES,
        },
        PARTS,
    )
}

/// What it asks for, of what clap found.
pub fn line<'a>(_alloc: Global, matches: &ArgMatches<'a>) -> Result<CommandLine, Wrong<'a>>
    ensures { Finds (why_row.meaning (rows_of (found_of matches.now))) result }
{
    let at = optional_number(matches, "at", 0, u64::MAX)?;
    let frames = values::flag(matches, "frames");
    Ok(CommandLine::OfRecord(RecordCommand::Why { at, frames }))
}
