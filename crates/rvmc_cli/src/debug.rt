//! `debug CMD..` and `debug -`.

ghost use Rattle.std.specs.Prelude.{◌≡◌, IfOk, map};
ghost use Rattle.clap.specs.Walk.{rows_of};
ghost use Rattle.clap.specs.Words.{found_of};
ghost use Rattle.rvmc_cli.specs.Built.{StandsFor};
ghost use Rattle.rvmc_cli.specs.Commands.{app_of, debug_row, debugging_in, is_dash};
ghost use Rattle.rvmc_cli.specs.Parsing.{Finds};
ghost use Rattle.rvmc_words.specs.Debug.{debug_words_in};

use crate::parts::{Help, Part, command as new_command};
use crate::values;
use crate::wrong::Wrong;
use clap::{ArgMatches, Command};
use rvmc_line::{CommandLine, RecordCommand};
use rvmc_words::{DebugWords, debug_word_in};
use std::alloc::{AllocError, Global};

/// What help says below its options.
const EXAMPLES: &str = "\
The record is opened at its start, before the first step. The words are done one
after the other, each where the one before it stopped:

  go=N             go to the place after N steps
  step             go one step forwards, if there is one
  back             go one step back, if there is one
  run              go on to the next break, or to the end
  place            stay
  break=R,H,PC     make `run` stop where hart H of rank R is about to do PC
  break=R,H,NAME   the same for the address of a symbol of the image, as
                   break=0,0,main
  break=R,H,FILE:LINE
                   the same for each address at which that line of a source
                   begins, as break=0,0,farm.c:12
  regs=R,H         print how the hart is, and its registers
  frames=R,H       print how the hart is, and the calls that led there
  output=R         print what rank R has printed so far
  bytes=R,A,N      print N bytes of rank R's memory, from address A
  bytes=R,NAME,N   the same from the address of a symbol, or with FILE:LINE
                   from the first address at which that line begins

The first five print the place, as `at 2 of 10`. R and H are from 0 to 255, the
other numbers up to 2^64-1; all are decimal, or hexadecimal after `0x`.

The words are read before the record is. A place, rank, hart, range or symbol
that doesn't exist is an error, as `rvmc: debug: PastEnd 10`; what the words
before it print has been written by then.

With `-` in place of the words, they come from standard input, one line at a
time. Each line is answered before the next one is read; the place and the breaks
stay from line to line. An error is the last line of its line's answer, and you
can go on from there:

  $ rvmc debug - hi.record
  go=2 step
  at 2 of 10
  at 3 of 10
  back go=11 go=0
  at 2 of 10
  rvmc: debug: PastEnd 10

If no FILE is named, the lines follow the record on standard input.

At most 67,108,864 bytes are read, from FILE or else from standard input; with
`-` the lines count too. With -o the output goes to a file, which is in its place
once it is whole.

Status:
  0 done, or with `-` the input ended, 1 error in the record or of a word,
  2 error in the command line,
  5 out of memory, 6 a read or write failed, or the input is too long

Examples:
  rvmc one --record hi.image -o hi.record
  rvmc debug hi.record go=2 regs=0,0
  rvmc debug farm.record break=0,0,farm.c:12 run frames=0,0
  rvmc debug hi.record break=0,0,0x18 run run
  rvmc debug hi.record go=3 bytes=0,0xfff8,4 back bytes=0,0xfff8,4
  rvmc debug - hi.record";

/// Whether the words come behind the record.
fn is_dash(texts: &[&str]) -> bool
    ensures { result ≡ is_dash (map (λ text. text.now) texts.now) }
{
    match texts {
        [text] => *text == "-",
        _ => false,
    }
}

/// The word of each text, up to the first that is none.
fn words<'a>(alloc: Global, texts: &[&'a str]) -> Result<DebugWords, Wrong<'a>>
    ensures { Finds (debug_words_in (map (λ text. text.now) texts.now)) result }
{
    let mut words = DebugWords::new(alloc);
    for text in texts {
        let Some(word) = debug_word_in(alloc, text)? else {
            return Err(Wrong::Word(text));
        };
        words.push(word)?;
    }
    Ok(words)
}

/// Its parts, in the order in which help lists them.
static PARTS: &[Part] = &[Part::Texts(
    "words",
    "CMD",
    "What to do or print, as go=2; - alone reads words from standard input",
)];

/// The command as clap builds it.
pub fn command<'a>(alloc: Global) -> Result<Command<'a>, AllocError>
    ensures { IfOk result (StandsFor (app_of debug_row)) }
{
    new_command(
        alloc,
        "debug",
        Help {
            usage: "rvmc debug [-o OUTPUT] [FILE] <CMD>...",
            about: "Step through a record, forwards and backwards",
            examples: EXAMPLES,
        },
        PARTS,
    )
}

/// What these texts ask for.
fn debugging<'a>(alloc: Global, texts: &[&'a str]) -> Result<CommandLine, Wrong<'a>>
    ensures { Finds (debugging_in (map (λ text. text.now) texts.now)) result }
{
    if is_dash(texts) {
        return Ok(CommandLine::WordSession);
    }
    let words = words(alloc, texts)?;
    Ok(CommandLine::OfRecord(RecordCommand::Debug { words }))
}

/// What it asks for, of what clap found.
pub fn line<'a>(alloc: Global, matches: &ArgMatches<'a>) -> Result<CommandLine, Wrong<'a>>
    ensures { Finds (debug_row.meaning (rows_of (found_of matches.now))) result }
{
    let Some(texts) = values::texts(matches, "words") else {
        return Err(Wrong::Command);
    };
    debugging(alloc, texts)
}
