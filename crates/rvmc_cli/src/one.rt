//! `one [--source] [--budget N] [--plan HARTS] [--record] [--why] [--frames] [--order RANKS] [--until-stuck]`.

ghost use Rattle.std.specs.Prelude.{◌≡◌, IfOk};
ghost use Rattle.clap.specs.Walk.{rows_of};
ghost use Rattle.clap.specs.Words.{found_of};
ghost use Rattle.rvmc_cli.specs.Built.{StandsFor};
ghost use Rattle.rvmc_cli.specs.Commands.{app_of, one_by, one_row, one_with};
ghost use Rattle.rvmc_cli.specs.Parsing.{Finds};

use crate::parts::{Help, Part};
use crate::runner::{budget, runner, written};
use crate::values::{self, list};
use crate::wrong::Wrong;
use clap::{ArgMatches, Command};
use rvmc_line::{CommandLine, ImageCommand, Written};
use rvmc_words::Numbers;
use std::alloc::{AllocError, Global};

/// What help says below its options.
const EXAMPLES: &str = "\
The ranks take turns in the order that --order lists, round and round; a rank
that has stopped is skipped. So the same image and options always give the same
run. `rvmc run` runs the ranks in parallel instead, and `rvmc explore` tries
every order.

The report has, for each rank, the bytes it printed (`output`, with their
count), how each of its harts ended, and why and after how many turns it
stopped. `rvmc-mpi run` prints the output alone, line by line.

--record writes a record instead: the image and every step, for `rvmc check`,
`list`, `draw`, `page`, `debug`, `gdb` and `why`. --why adds to the report what
each hart is waiting for, and --frames also which calls led there. --until-stuck
ends the run as soon as every rank that hasn't ended is in a deadlock, and adds
the text of --why.

The turns of a rank go to its harts in the order that --plan lists, round and
round. RANKS and HARTS are numbers from 0 to 255 with a comma between them. Each
rank has to be listed, and may be listed several times; a hart may be listed
several times, or not at all.

At most 67,108,864 bytes are read, from FILE or else from standard input. With -o
the output goes to a file, which is in its place once it is whole.

Status:
  0 every hart ended, with whatever exit code
  1 error in the source, the image, the plan or the order
  2 error in the command line
  3 a hart trapped
  4 a rank used up its budget, is stuck in a deadlock, or reached a limit: its
    clock is full, or it made too many calls
  5 out of memory
  6 a read or write failed, or the input is too long

Examples:
  rvmc one farm.image
  rvmc one --until-stuck farm.image    print who waits for whom at a deadlock
  rvmc one --order 1,0 hi.image        rank 1 takes the first turn
  rvmc one --plan 0,0,1 hi.image       hart 0 takes two turns, then hart 1 one
  rvmc one --record farm.image -o farm.record
  rvmc one --budget 100 --why farm.image
  rvmc one hi.s";

/// Its parts, in the order in which help lists them.
static PARTS: &[Part] = &[
    Part::Option(
        "order",
        "RANKS",
        "Which ranks take turns, as 0,1 [default: all in order]",
    ),
    Part::Flag(
        "until-stuck",
        "Stop at a deadlock, and print who waits for whom",
    ),
];

/// The command as clap builds it.
pub fn command<'a>(alloc: Global) -> Result<Command<'a>, AllocError>
    ensures { IfOk result (StandsFor (app_of one_row)) }
{
    runner(
        alloc,
        "one",
        Help {
            usage: "rvmc one [OPTIONS] [-o OUTPUT] [FILE]",
            about: "Run an image on a single thread in a fixed order, and print a report",
            examples: EXAMPLES,
        },
        PARTS,
    )
}

/// A run on one thread, to the end of its plans or `until_stuck`.
fn one_by(
    until_stuck: bool,
    budget: u64,
    plan: Option<Numbers>,
    order: Option<Numbers>,
    written: Written,
) -> ImageCommand
    ensures { result ≡ one_by until_stuck budget plan order written }
{
    if until_stuck {
        ImageCommand::OneUntilStuck {
            budget,
            plan,
            order,
            written,
        }
    } else {
        ImageCommand::One {
            budget,
            plan,
            order,
            written,
        }
    }
}

/// A run on one thread by its budget and what is to be written: of its plan, and the order of the ranks.
fn one_with<'a>(
    alloc: Global,
    matches: &ArgMatches<'a>,
    budget: u64,
    written: Written,
) -> Result<ImageCommand, Wrong<'a>>
    ensures { Finds (one_with budget written (rows_of (found_of matches.now))) result }
{
    let plan = list(alloc, matches, "plan")?;
    let order = list(alloc, matches, "order")?;
    let until_stuck = values::flag(matches, "until-stuck");
    Ok(one_by(until_stuck, budget, plan, order, written))
}

/// What it asks for, of what clap found.
pub fn line<'a>(alloc: Global, matches: &ArgMatches<'a>) -> Result<CommandLine, Wrong<'a>>
    ensures { Finds (one_row.meaning (rows_of (found_of matches.now))) result }
{
    let budget = budget(matches)?;
    let written = written(matches)?;
    let command = one_with(alloc, matches, budget, written)?;
    Ok(CommandLine::OfImage {
        source: values::flag(matches, "source"),
        command,
    })
}
