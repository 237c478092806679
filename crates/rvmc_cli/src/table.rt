//! The table of commands, and what is made of it: the whole command line, a command by its name, and what a command asks
//! for.

ghost use Rattle.std.specs.Prelude.{◌≡◌, IfOk, IsOkAnd, find, map, option_map};
ghost use Rattle.std.specs.Str.{bytes_eq};
ghost use Rattle.clap.specs.Walk.{rows_of};
ghost use Rattle.clap.specs.Words.{AddsSubcommand, found_of};
ghost use Rattle.rvmc_cli.specs.App.{top_app, with_commands};
ghost use Rattle.rvmc_cli.specs.Built.{StandsFor, app_below, app_below_from_second, app_below_from_third, app_named};
ghost use Rattle.rvmc_cli.specs.Commands.{from_second, from_third, line_among, line_in, rvmc_app};
ghost use Rattle.rvmc_cli.specs.Parsing.{Finds};

use crate::parts::{Help, bare};
use crate::wrong::Wrong;
use crate::{asm, check, debug, dis, draw, explore, gdb, list, one, page, report, run, why};
use clap::{ArgMatches, Command};
use rvmc_line::CommandLine;
use std::alloc::{AllocError, Global};

/// The commands, one row each, in the order in which help lists them, in three parts. A row is the command's name, which
/// is that of the module that builds and reads it too.
macro_rules! commands {
    ($made:ident($($given:tt)*)) => {
        $made!(
            $($given)*;
            asm, dis, run, one;
            check, report, list, draw, page;
            debug, gdb, why, explore
        )
    };
}

/// What is made of the commands of the first part.
macro_rules! first {
    ($made:ident($($given:tt)*); $($command:ident),*; $($later:tt)*) => {
        $made!($($given)*; $($command),*)
    };
}

/// What is made of the commands of the second part.
macro_rules! second {
    ($made:ident($($given:tt)*); $($earlier:ident),*; $($command:ident),*; $($later:tt)*) => {
        $made!($($given)*; $($command),*)
    };
}

/// What is made of the commands of the third part.
macro_rules! third {
    ($made:ident($($given:tt)*); $($earliest:ident),*; $($earlier:ident),*; $($command:ident),*) => {
        $made!($($given)*; $($command),*)
    };
}

/// A command's name, and how its usage names it.
struct Name {
    short: &'static str,
    whole: &'static str,
}

/// The names of the commands.
macro_rules! names {
    (; $($($command:ident),*);*) => {
        &[$($(Name {
            short: stringify!($command),
            whole: concat!("rvmc ", stringify!($command)),
        }),*),*]
    };
}

/// What a function of the module of the command of this name gives, and for any other name the last of these.
macro_rules! of_command {
    ($name:ident, $call:ident, $arguments:tt, $other:expr; $($command:ident),*) => {
        match $name {
            $(stringify!($command) => $command::$call $arguments,)*
            _ => $other,
        }
    };
}

static NAMES: &[Name] = commands!(names());

const EXAMPLES: &str = "\
rvmc reads an image, a source or a record from FILE, or else from standard
input, and writes to standard output. To run a C program with MPI calls, start
with rvmc-mpi, which compiles it and then calls rvmc:

  rvmc-mpi run -n 4 farm.c      compile it, and run it on four ranks
  rvmc-mpi verify -n 4 farm.c   list every outcome of every schedule
  rvmc-mpi page -n 4 farm.c     make a web page to step through a run

`man rvmc-mpi` describes it. docs/COURSE.md is a course in message passing for
people who know C, and docs/C.md says which MPI calls there are; the Debian
package has both in /usr/share/doc/rvmc.

An image is a program with the cluster it runs on. A rank is one machine of the
cluster, as in MPI; a hart is one of its up to four hardware threads. In a turn
one hart does one instruction, or tries a call once. A record has every step of
a run, so that you can go through it forwards and backwards.

FILE goes after the command. Its name must contain a `.` or a `/`. A file whose
name ends in .s is an assembler source. -o OUTPUT writes to a file instead of
standard output. A regular file is replaced once the output is complete, and is
left alone if there is an error. Without a command rvmc does what `rvmc one`
does; without a FILE either, it reads a source from standard input.

Examples:
  rvmc hi.s                   assemble a source and run it
  rvmc-cc -n 4 -o farm.image farm.c
                              compile C to an image
  rvmc run farm.image         run it, with one thread per rank
  rvmc run --until-stuck farm.image
                              stop at a deadlock, and print who waits for whom
  rvmc run --record farm.image -o farm.record
                              keep every step
  rvmc check farm.record      check each of these steps
  rvmc report farm.record     print the report of the recorded run
  rvmc list --calls farm.record
                              print its calls, one a line
  rvmc draw farm.record -o farm.svg
                              draw its messages
  rvmc page farm.record -o farm.html
                              make a web page to step through it
  rvmc debug farm.record go=2 regs=0,0
                              print the registers after two steps
  rvmc debug - farm.record    the same, with words that you type line by line
  rvmc explore farm.image     list every outcome that any schedule can reach
  rvmc asm hi.s -o hi.image   assemble a source to an image
  rvmc dis hi.image           list the instructions of an image

Status:
  0 done
  1 error in the input; `check`: the record isn't a run of its image
  2 error in the command line
  3 a hart trapped
  4 a rank used up its budget, got stuck in a deadlock, or reached a limit of
    the machine; `explore`: not every outcome was found
  5 out of memory or threads
  6 a read or write failed, or the input is too long
  7 `explore` found every outcome, and one of them is a deadlock
  8 `explore` found every outcome, and some run goes on for ever";

fn top<'a>(alloc: Global) -> Result<Command<'a>, AllocError>
    ensures { IfOk result (StandsFor top_app) }
{
    bare(
        alloc,
        "rvmc",
        Help {
            usage: "rvmc [COMMAND] [OPTIONS] [-o OUTPUT] [FILE]",
            about: "Run MPI programs on a small emulated cluster of RISC-V machines (RV64IM)",
            examples: EXAMPLES,
        },
    )
    .version("0.2.0")
    .no_binary_name(true)
    .subcommand_required(true)
    .bin_name("rvmc")
}

/// What there is to say of a command that isn't one.
const NO_HELP: Help<'static> = Help {
    usage: "",
    about: "",
    examples: "",
};

/// The command of this name below the whole command line. Any other name is of one without options.
fn below<'a>(alloc: Global, name: &'a str) -> Result<Command<'a>, AllocError>
    ensures { IfOk result (StandsFor (app_below name.entry.now)) }
{
    commands!(first(of_command(name, command, (alloc), below_from_second(alloc, name))))
}

/// The same of the second part and the third.
fn below_from_second<'a>(alloc: Global, name: &'a str) -> Result<Command<'a>, AllocError>
    ensures { IfOk result (StandsFor (app_below_from_second name.entry.now)) }
{
    commands!(second(of_command(name, command, (alloc), below_from_third(alloc, name))))
}

/// The same of the third part.
fn below_from_third<'a>(alloc: Global, name: &'a str) -> Result<Command<'a>, AllocError>
    ensures { IfOk result (StandsFor (app_below_from_third name.entry.now)) }
{
    commands!(third(of_command(name, command, (alloc), Ok(bare(alloc, name, NO_HELP)))))
}

/// The command with another below it, where there was memory to build that one.
fn with_command<'a>(
    command: Command<'a>,
    below: Result<Command<'a>, AllocError>,
) -> Result<Command<'a>, AllocError>
    ensures { IfOk result (λ new. IsOkAnd below.entry (λ sub. AddsSubcommand command.entry sub new)) }
{
    command.subcommand(below?)
}

/// The whole command line, with the commands of these names.
fn with_all<'a>(alloc: Global, names: &[Name]) -> Result<Command<'a>, AllocError>
    ensures { IfOk result (StandsFor (with_commands top_app (map (λ name. app_below name.short.now) names.now))) }
{
    let mut command = top(alloc)?;
    for name in names {
        command = with_command(command, below(alloc, name.short))?;
    }
    Ok(command)
}

/// The whole command line.
pub fn rvmc<'a>(alloc: Global) -> Result<Command<'a>, AllocError>
    ensures { IfOk result (StandsFor rvmc_app) }
{
    with_all(alloc, NAMES)
}

/// The one of these names that is this text, if there is one.
fn name_in(names: &'static [Name], text: &str) -> Option<&'static Name>
    ensures { option_map (λ name. name.now.short.now) result
        ≡ find (λ short. bytes_eq text.now short) (map (λ name. name.short.now) names.now) }
{
    for name in names {
        if text == name.short {
            return Some(name);
        }
    }
    None
}

/// The command of this name by itself, whose usage a refusal shows; any other name stands for the whole command line.
pub fn named<'a>(alloc: Global, name: &str) -> Result<Command<'a>, AllocError>
    ensures { IfOk result (StandsFor (app_named name.now)) }
{
    let Some(found) = name_in(NAMES, name) else {
        return rvmc(alloc);
    };
    let short: &'a str = found.short;
    let command = below(alloc, short)?;
    command.bin_name(found.whole)
}

/// The command line of the command that clap found.
#[tactic(auto, unfolding(crate::specs::Commands::line_in))]
pub fn line<'a>(
    alloc: Global,
    name: &str,
    matches: &ArgMatches<'a>,
) -> Result<CommandLine, Wrong<'a>>
    ensures { Finds (line_in name.now (rows_of (found_of matches.now))) result }
{
    commands!(first(of_command(
        name,
        line,
        (alloc, matches),
        line_from_second(alloc, name, matches)
    )))
}

/// The same of the second part and the third.
fn line_from_second<'a>(
    alloc: Global,
    name: &str,
    matches: &ArgMatches<'a>,
) -> Result<CommandLine, Wrong<'a>>
    ensures { Finds (line_among from_second name.now (rows_of (found_of matches.now))) result }
{
    commands!(second(of_command(
        name,
        line,
        (alloc, matches),
        line_from_third(alloc, name, matches)
    )))
}

/// The same of the third part.
fn line_from_third<'a>(
    alloc: Global,
    name: &str,
    matches: &ArgMatches<'a>,
) -> Result<CommandLine, Wrong<'a>>
    ensures { Finds (line_among from_third name.now (rows_of (found_of matches.now))) result }
{
    commands!(third(of_command(name, line, (alloc, matches), Err(Wrong::Command))))
}
