//! `run [--source] [--budget N] [--plan HARTS] [--record] [--why] [--frames] [--lead N] [--until-stuck]`.

ghost use Rattle.std.specs.Prelude.{◌≡◌, IfOk};
ghost use Rattle.clap.specs.Walk.{rows_of};
ghost use Rattle.clap.specs.Words.{found_of};
ghost use Rattle.rvmc_cli.specs.Built.{StandsFor};
ghost use Rattle.rvmc_cli.specs.Commands.{app_of, lead_in, run_by, run_row, run_with};
ghost use Rattle.rvmc_cli.specs.Parsing.{Finds, Reads};

use crate::parts::{Help, Part};
use crate::runner::{budget, runner, written};
use crate::values::{self, list, number};
use crate::wrong::Wrong;
use clap::{ArgMatches, Command};
use rvmc_line::{CommandLine, ImageCommand, Written};
use rvmc_words::Numbers;
use std::alloc::{AllocError, Global};

/// What help says below its options.
const EXAMPLES: &str = "\
The ranks run in parallel, as under mpiexec. If the program leaves it open which
message comes first, the output may differ from run to run. `rvmc one` runs the
same image in a fixed order; `rvmc explore` tries every order.

The report has, for each rank, the bytes it printed (`output`, with their
count), how each of its harts ended, and why and after how many turns it
stopped. `rvmc-mpi run` prints the output alone, line by line.

--record writes a record instead: the image and every step of every rank, for
`rvmc check`, `list`, `draw`, `page`, `debug`, `gdb` and `why`. --why adds to the
report what each hart is waiting for, and --frames also which calls led there.
--until-stuck ends the run as soon as every rank that hasn't ended is in a
deadlock, and adds the text of --why.

A rank that gets more than --lead turns ahead of the slowest one is held back.
The turns of a rank go to its harts in the order that --plan lists, round and
round. HARTS are numbers from 0 to 255 with a comma between them; a hart may be
listed several times, or not at all.

At most 67,108,864 bytes are read, from FILE or else from standard input. With -o
the output goes to a file, which is in its place once it is whole.

Status:
  0 every hart ended, with whatever exit code
  1 error in the source, the image or the plan
  2 error in the command line
  3 a hart trapped
  4 a rank used up its budget, is stuck in a deadlock, or reached a limit: its
    clock is full, or it made too many calls
  5 out of memory or threads
  6 a read or write failed, or the input is too long

Examples:
  rvmc run farm.image
  rvmc run --until-stuck farm.image    print who waits for whom at a deadlock
  rvmc run --why farm.image            the same, once the budget is used up
  rvmc run --record farm.image -o farm.record
  rvmc run --budget 100 farm.image
  rvmc run --lead 1 farm.image         keep the ranks close together
  rvmc run --plan 0,0,1 farm.image     hart 0 takes two turns, then hart 1 one
  rvmc run hi.s";

/// Its parts, in the order in which help lists them.
static PARTS: &[Part] = &[
    Part::Option(
        "lead",
        "N",
        "Let a rank be N turns ahead of the slowest, from 1 to 65536 [default: 64]",
    ),
    Part::Flag(
        "until-stuck",
        "Stop at a deadlock, and print who waits for whom",
    ),
];

/// The command as clap builds it.
pub fn command<'a>(alloc: Global) -> Result<Command<'a>, AllocError>
    ensures { IfOk result (StandsFor (app_of run_row)) }
{
    runner(
        alloc,
        "run",
        Help {
            usage: "rvmc run [OPTIONS] [-o OUTPUT] [FILE]",
            about: "Run an image with one thread per rank, and print a report",
            examples: EXAMPLES,
        },
        PARTS,
    )
}

/// A run with threads, to the end of its plans or `until_stuck`.
fn run_by(
    until_stuck: bool,
    budget: u64,
    plan: Option<Numbers>,
    lead: u64,
    written: Written,
) -> ImageCommand
    ensures { result ≡ run_by until_stuck budget plan lead written }
{
    if until_stuck {
        ImageCommand::RunUntilStuck {
            budget,
            plan,
            lead,
            written,
        }
    } else {
        ImageCommand::Run {
            budget,
            plan,
            lead,
            written,
        }
    }
}

/// How many turns a rank may be ahead.
fn lead<'a>(matches: &ArgMatches<'a>) -> Result<u64, Wrong<'a>>
    ensures { Reads (lead_in (rows_of (found_of matches.now))) result }
{
    number(matches, "lead", 1, 65_536, 64)
}

/// A run with threads by its budget and lead: of what is to be written, and its plan.
fn run_with<'a>(
    alloc: Global,
    matches: &ArgMatches<'a>,
    budget: u64,
    lead: u64,
) -> Result<ImageCommand, Wrong<'a>>
    ensures { Finds (run_with budget lead (rows_of (found_of matches.now))) result }
{
    let written = written(matches)?;
    let plan = list(alloc, matches, "plan")?;
    let until_stuck = values::flag(matches, "until-stuck");
    Ok(run_by(until_stuck, budget, plan, lead, written))
}

/// What it asks for, of what clap found.
pub fn line<'a>(alloc: Global, matches: &ArgMatches<'a>) -> Result<CommandLine, Wrong<'a>>
    ensures { Finds (run_row.meaning (rows_of (found_of matches.now))) result }
{
    let budget = budget(matches)?;
    let lead = lead(matches)?;
    let command = run_with(alloc, matches, budget, lead)?;
    Ok(CommandLine::OfImage {
        source: values::flag(matches, "source"),
        command,
    })
}
