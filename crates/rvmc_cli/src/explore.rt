//! `explore [--source] [--plan HARTS] [--states N] [--turns N] [--record K] [--split N] [--from START] [--join] [--buffered]
//! [--progress]`.

ghost use Rattle.std.specs.Prelude.{IfOk};
ghost use Rattle.clap.specs.Walk.{rows_of};
ghost use Rattle.clap.specs.Words.{found_of};
ghost use Rattle.rvmc_cli.specs.Built.{StandsFor};
ghost use Rattle.rvmc_cli.specs.Commands.{app_of, beginning_in, count_in, end_in, ends_in, explore_fits, explore_row};
ghost use Rattle.rvmc_cli.specs.Commands.{search_in, states_in, turns_alone_in};
ghost use Rattle.rvmc_cli.specs.Parsing.{Finds, Reads};

use crate::parts::{Help, Part, command as new_command};
use crate::values::{self, apart, list, number, optional_number};
use crate::wrong::Wrong;
use clap::{ArgMatches, Command};
use rvmc_line::{CommandLine, ImageCommand};
use rvmc_starts::{Start, start_in};
use std::alloc::{AllocError, Global};

/// What help says below its options.
const EXAMPLES: &str = "\
What a program prints may depend on which rank runs first. `explore` runs the
image under every schedule of its ranks, and lists every outcome: an end, which
is a state from which no hart goes on; ranks that are stuck while others run on
for ever, as `deadlock: ranks 1 2 while others run on`; ranks that need buffers,
as `needs buffering: ranks 0 1`; or a state from which runs hang if sends wait,
as `some runs go on for ever if sends wait: ranks 0 1`.

Every run is one of this machine. A send copies its message and returns, and a
message arrives at once. MPI allows more: a standard send may wait until it is
received (MPI 4.1, 3.4), a nonblocking one in MPI_Wait or MPI_Waitall. Ranks that
get stuck only if sends wait need buffers, and the program is unsafe (3.5), though
each run of it may end well here. The first ones that are found are listed.
MPI_Test and calls like it take a rank's own standard send as complete.

A rank that polls for what comes behind a send that waits isn't stuck: it goes on
for ever. If no ranks need buffers, and no run goes on for ever anyway, one state
is listed from which the program can still end, but not if all sends wait.

--buffered takes each standard send to copy its message and to return, and looks
for neither. The harts of a rank take turns in the order that --plan lists, the
same for each rank: numbers from 0 to 255 with a comma between them.

For each end the text has what each rank printed, how each hart ended, and, if a
hart waits for ever, the text of `rvmc why`. From the second outcome on, the
first line says by whose message it differs from the first, and where that was
sent:

  $ rvmc explore --source < examples/quotient.s
  outcome 1
  rank 0 output 2
  7
  ..
  outcome 2: rank 0 at divide+0x58 got rank 2's message (sent at send+0x0),
    in outcome 1 rank 1's (sent at send+0x0)
  ..
  2 outcomes of 3 states: no other outcome

The last line says whether the list is complete. `not all: 7 states are left`
means that the search stopped after --states states. Between two calls that
other ranks may answer, a rank runs alone. If that takes more than --turns turns,
and states are left, the line says `not all: rank 0 takes more than 1000000 turns
alone`. There is no budget.

`no other outcome with buffered sends` in place of `no other outcome` means that
no run here has another outcome, but other ranks may need buffers. It is printed
with --buffered, --from and --join, where ranks that need buffers are listed, where
ranks have several harts, and where it is unknown whether ranks need buffers: where
looking for them took more than --states states, or where nobody can look for them,
as one waits for a partition that it hasn't made ready itself. A line above the
last one says which of the last two it is. If it is unknown, the status is 4.

`some runs go on for ever` means that a run can come to a state from which nothing
leads to an end. The lines above it say where harts run in such a state, as
`rank 0 hart 0 goes on at poll.c:9 in main`. --from and --join leave them out.

`, also with messages on their way` behind it means that it makes no difference
how long messages take: each end of a run on a network is listed too. It is
printed where ranks have one hart each and only wait for ranks that they name.

A search may take long. --progress prints a line on standard error after 100,
200, .. 900, 1000, 2000, .. states: how many of them are ends, and how many more
were found.

  searched 3000 states in pass 1: 2 ends, 411 left

The search may begin again, with what it learnt about the ranks. That is its next
pass, which counts from 0.

--record writes the record of a run to outcome K instead, for `rvmc list`,
`check`, `draw`, `page`, `debug`, `gdb` and `why`. If there is none, that is an error,
as `rvmc: explore: NoOutcome 3`, with status 1.

A search that is too large for one machine can be cut into parts. --split writes
starts, one a line: at least N, if the schedules differ that often. --from lists
the outcomes behind one start of the same image, on any machine. --join reads
these texts, lists each outcome once, and says whether the list is complete:

  rvmc explore --split 64 farm.image -o starts
  parallel 'rvmc explore --from {} farm.image -o part.{#}' <starts
  cat part.* | rvmc explore --join

A start contains the image's checksum and the plan. Another image is an error,
as `rvmc: explore: OtherImage`, and so is a text that --from didn't write, as
`rvmc: explore: NotAText 3`.

At most 67,108,864 bytes are read, from FILE or else from standard input. With -o
the output goes to a file, which is in its place once it is whole.

Status:
  0 the list is complete, every hart ended at each end, and each run can end
  1 error in the source, the image, the plan, a start or a text, or no such
    outcome
  2 error in the command line
  3 a hart trapped at some end
  4 the list is not complete, or it is unknown whether ranks need buffers
  5 out of memory
  6 a read or write failed, or the input is too long
  7 the list is complete, and some end is a deadlock, some ranks are stuck
    while others run on, some ranks need buffers, or runs hang if sends wait
  8 the list is complete, and some run goes on for ever: nothing ends it any more

Examples:
  rvmc explore farm.image
  rvmc explore --states 10000 farm.image
  rvmc explore --record 2 farm.image -o two.record
  rvmc explore --record 2 farm.image | rvmc why
                                       what each hart waits for at outcome 2
  rvmc explore --plan 0,0,1 farm.image
                                       hart 0 takes two turns, then hart 1 one
  rvmc explore hi.s";

/// Its parts, in the order in which help lists them.
static PARTS: &[Part] = &[
    Part::Flag("source", "Read an assembler source instead of an image"),
    Part::Option(
        "plan",
        "HARTS",
        "The harts that take a rank's turns, as 0,1 [default: all in order]",
    ),
    Part::Option(
        "states",
        "N",
        "Stop after N states, from 1 to 16777216 [default: 1000000]",
    ),
    Part::Option(
        "turns",
        "N",
        "Run a rank alone for N turns, from 1 to 16777216 [default: 1000000]",
    ),
    Part::Option(
        "record",
        "K",
        "Write the record of outcome K instead of the text",
    ),
    Part::Option(
        "split",
        "N",
        "Write at least N starts instead, from 1 to 16777216",
    ),
    Part::Option(
        "from",
        "START",
        "List the outcomes behind a start that --split wrote",
    ),
    Part::Flag(
        "join",
        "Read what --from printed for each start, list all outcomes",
    ),
    Part::Flag("buffered", "Don't look for ranks that need buffers"),
    Part::Flag(
        "progress",
        "Say on standard error now and then how far the search is",
    ),
];

/// The command as clap builds it.
pub fn command<'a>(alloc: Global) -> Result<Command<'a>, AllocError>
    ensures { IfOk result (StandsFor (app_of explore_row)) }
{
    new_command(
        alloc,
        "explore",
        Help {
            usage: "rvmc explore [OPTIONS] [-o OUTPUT] [FILE]",
            about: "List every outcome that any schedule can reach",
            examples: EXAMPLES,
        },
        PARTS,
    )
}

/// From how many states the search goes on.
fn states<'a>(matches: &ArgMatches<'a>) -> Result<u64, Wrong<'a>>
    ensures { Reads (states_in (rows_of (found_of matches.now))) result }
{
    number(matches, "states", 1, 16_777_216, 1_000_000)
}

/// How many turns a rank may take alone.
fn turns<'a>(matches: &ArgMatches<'a>) -> Result<u64, Wrong<'a>>
    ensures { Reads (turns_alone_in (rows_of (found_of matches.now))) result }
{
    number(matches, "turns", 1, 16_777_216, 1_000_000)
}

/// The end whose record is written.
fn end<'a>(matches: &ArgMatches<'a>) -> Result<Option<u64>, Wrong<'a>>
    ensures { Reads (end_in (rows_of (found_of matches.now))) result }
{
    optional_number(matches, "record", 1, u64::MAX)
}

/// How many starts are wanted.
fn count<'a>(matches: &ArgMatches<'a>) -> Result<Option<u64>, Wrong<'a>>
    ensures { Reads (count_in (rows_of (found_of matches.now))) result }
{
    optional_number(matches, "split", 1, 16_777_216)
}

/// The start behind which the search begins.
fn beginning<'a>(alloc: Global, matches: &ArgMatches<'a>) -> Result<Option<Start>, Wrong<'a>>
    ensures { Finds (beginning_in (rows_of (found_of matches.now))) result }
{
    let Some(text) = values::text(matches, "from") else {
        return Ok(None);
    };
    match start_in(alloc, text)? {
        Some(start) => Ok(Some(start)),
        None => Err(Wrong::Start {
            option: "from",
            text,
        }),
    }
}

/// Refuses options that don't go together.
fn fits<'a>(matches: &ArgMatches<'a>) -> Result<(), Wrong<'a>>
    ensures { Reads (explore_fits (rows_of (found_of matches.now))) result }
{
    apart(
        matches,
        "join",
        &[
            "source", "plan", "states", "turns", "record", "split", "from", "buffered", "progress",
        ],
    )?;
    apart(matches, "split", &["from", "states", "record"])?;
    apart(matches, "from", &["plan"])
}

/// All ends behind a start, or else from the image on.
fn ends<'a>(alloc: Global, matches: &ArgMatches<'a>, turns: u64) -> Result<ImageCommand, Wrong<'a>>
    ensures { Finds (ends_in turns (rows_of (found_of matches.now))) result }
{
    let states = states(matches)?;
    let record = end(matches)?;
    let buffered = values::flag(matches, "buffered");
    let progress = values::flag(matches, "progress");
    if let Some(start) = beginning(alloc, matches)? {
        return Ok(ImageCommand::ExploreFrom {
            start,
            states,
            turns,
            record,
            buffered,
            progress,
        });
    }
    let plan = list(alloc, matches, "plan")?;
    Ok(ImageCommand::Explore {
        plan,
        states,
        turns,
        record,
        buffered,
        progress,
    })
}

/// So many starts, or else all ends.
fn search<'a>(alloc: Global, matches: &ArgMatches<'a>) -> Result<ImageCommand, Wrong<'a>>
    ensures { Finds (search_in (rows_of (found_of matches.now))) result }
{
    let turns = turns(matches)?;
    let Some(count) = count(matches)? else {
        return ends(alloc, matches, turns);
    };
    let plan = list(alloc, matches, "plan")?;
    Ok(ImageCommand::Split {
        plan,
        count,
        turns,
        progress: values::flag(matches, "progress"),
    })
}

/// What it asks for, of what clap found.
pub fn line<'a>(alloc: Global, matches: &ArgMatches<'a>) -> Result<CommandLine, Wrong<'a>>
    ensures { Finds (explore_row.meaning (rows_of (found_of matches.now))) result }
{
    fits(matches)?;
    if values::flag(matches, "join") {
        return Ok(CommandLine::Join);
    }
    Ok(CommandLine::OfImage {
        source: values::flag(matches, "source"),
        command: search(alloc, matches)?,
    })
}
