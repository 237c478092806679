//! `draw [--from N] [--to N]`.

ghost use Rattle.std.specs.Prelude.{IfOk};
ghost use Rattle.clap.specs.Walk.{rows_of};
ghost use Rattle.clap.specs.Words.{found_of};
ghost use Rattle.rvmc_cli.specs.Built.{StandsFor};
ghost use Rattle.rvmc_cli.specs.Commands.{app_of, draw_row};
ghost use Rattle.rvmc_cli.specs.Parsing.{Finds};

use crate::parts::Help;
use crate::places::{placed, places_of};
use crate::wrong::Wrong;
use clap::{ArgMatches, Command};
use rvmc_line::{CommandLine, RecordCommand};
use std::alloc::{AllocError, Global};

/// What help says below its options.
const EXAMPLES: &str = "\
The picture opens in any browser. Each rank has a lane, and time goes down. Each
message is an arrow from its send to the step that received it, in the sender's
colour; one that nobody received has an open head. A bar is a wait. Below are
what each hart is waiting for at the end, and the verdict of `rvmc why`. Hover
over a mark to see its step, as `rvmc list` prints it.

Step N leads from place N to place N + 1, so `rvmc debug go=N` shows the machine
before it. An arrow from or to a step that isn't drawn ends at the border, with
that step's number.

A picture has at most 5,000 marks; more are an error, as
`rvmc: draw: TooMany 5001`: draw a part, by --from and --to. Other errors are a
place that doesn't exist, as `rvmc: draw: PastEnd 10`, and steps that aren't a
run of the image, as `rvmc: draw: NotARun 3`.

At most 67,108,864 bytes are read, from FILE or else from standard input. With -o
the output goes to a file, which is in its place once it is whole.

Status:
  0 done, 1 error in the record, no such place, or too many marks,
  2 error in the command line,
  5 out of memory, 6 a read or write failed, or the input is too long

Examples:
  rvmc run --record farm.image -o farm.record
  rvmc draw farm.record -o farm.svg
  rvmc draw --from 100 --to 200 farm.record -o part.svg
  rvmc run --until-stuck --record dead.image | rvmc draw -o dead.svg
                                       a deadlock";

/// The command as clap builds it.
pub fn command<'a>(alloc: Global) -> Result<Command<'a>, AllocError>
    ensures { IfOk result (StandsFor (app_of draw_row)) }
{
    placed(
        alloc,
        "draw",
        Help {
            usage: "rvmc draw [OPTIONS] [-o OUTPUT] [FILE]",
            about: "Draw a record as a picture (SVG)",
            examples: EXAMPLES,
        },
        &[],
    )
}

/// What it asks for, of what clap found.
pub fn line<'a>(_alloc: Global, matches: &ArgMatches<'a>) -> Result<CommandLine, Wrong<'a>>
    ensures { Finds (draw_row.meaning (rows_of (found_of matches.now))) result }
{
    let places = places_of(matches)?;
    Ok(CommandLine::OfRecord(RecordCommand::Draw {
        from: places.from,
        to: places.to,
    }))
}
