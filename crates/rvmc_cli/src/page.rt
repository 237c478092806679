//! `page [--from N] [--to N] [--text NAME=LEN ..]`.

ghost use Rattle.std.specs.Prelude.{IfOk};
ghost use Rattle.clap.specs.Walk.{rows_of};
ghost use Rattle.clap.specs.Words.{found_of};
ghost use Rattle.rvmc_cli.specs.Built.{StandsFor};
ghost use Rattle.rvmc_cli.specs.Commands.{app_of, page_row};
ghost use Rattle.rvmc_cli.specs.Parsing.{Finds};

use crate::parts::{Help, Part};
use crate::places::{placed, places_of};
use crate::sources::sizes;
use crate::wrong::Wrong;
use clap::{ArgMatches, Command};
use rvmc_line::{CommandLine, RecordCommand};
use std::alloc::{AllocError, Global};

/// What help says below its options.
const EXAMPLES: &str = "\
The page is one HTML file, which any browser opens from the disk, without a
network. It has the picture of `rvmc draw`, and beside it the machine at one
place: each hart's registers and pc, the instructions around it, memory, what
each rank has printed, messages on their way, and at the end who waits for whom.

The right and left arrow keys go one step forwards and back; with shift they go
to the next mark and the one before; home and end go to the first place and the
last. A click on a mark goes there, and so does #PLACE after the file's name.
Step N leads from place N to place N + 1.

--text shows the lines of a source beside the picture, with each rank at its
line. The bytes of the sources follow the record, on the same input and in the
order of the options. NAME is what the program's symbols call the source, with
no `=` in it. `rvmc-mpi page` does this for you.

A record of any length has a page, of some 30 bytes a step; --from and --to make
one of a part. If there are too many marks for a picture, the page has none.
Errors are a place that doesn't exist, as `rvmc: page: PastEnd 10`, and steps
that aren't a run of the image, as `rvmc: page: NotARun 3`.

At most 67,108,864 bytes are read, from FILE or else from standard input. With -o
the output goes to a file, which is in its place once it is whole.

Status:
  0 done, 1 error in the record, or no such place,
  2 error in the command line,
  5 out of memory, 6 a read or write failed, or the input is too long

Examples:
  rvmc run --record farm.image -o farm.record
  rvmc page farm.record -o farm.html
  rvmc page --from 100 --to 200 farm.record -o part.html
  cat farm.record farm.c | rvmc page --text farm.c=$(wc -c <farm.c) -o farm.html";

/// Its parts beside the places.
static PARTS: &[Part] = &[Part::Options(
    "text",
    "NAME=LEN",
    "Show a source: NAME, whose LEN bytes are behind the record; give it once per source",
)];

/// The command as clap builds it.
pub fn command<'a>(alloc: Global) -> Result<Command<'a>, AllocError>
    ensures { IfOk result (StandsFor (app_of page_row)) }
{
    placed(
        alloc,
        "page",
        Help {
            usage: "rvmc page [OPTIONS] [-o OUTPUT] [FILE]",
            about: "Make a web page to step through a record",
            examples: EXAMPLES,
        },
        PARTS,
    )
}

/// What it asks for, of what clap found.
pub fn line<'a>(alloc: Global, matches: &ArgMatches<'a>) -> Result<CommandLine, Wrong<'a>>
    ensures { Finds (page_row.meaning (rows_of (found_of matches.now))) result }
{
    let places = places_of(matches)?;
    Ok(CommandLine::OfRecord(RecordCommand::Page {
        from: places.from,
        to: places.to,
        texts: sizes(alloc, matches)?,
    }))
}
