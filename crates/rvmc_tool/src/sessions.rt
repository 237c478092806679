//! Sessions of gdb, and of lines with words.

ghost use Rattle.std.specs.Prelude.{◌≡◌, ◌≢◌, List, Some, false, true, ℕ};
ghost use Rattle.rvmc_hints.specs.HintLines.{AppendsHint};
ghost use Rattle.rvmc_line.specs.declared.line.CommandLine.TheVariants.{Session, WordSession};
ghost use Rattle.rvmc_answers.specs.Below.{TakesAtMost, fault_status};
ghost use Rattle.rvmc_tool.specs.Tool.{Answers};
ghost use Rattle.rvmc_advice.specs.Quiet.{is_quiet};

use rvmc_advice::{fail_to_read, fail_with_hint};
use rvmc_answers::faults::Fault;
use rvmc_line::CommandLine;
use rvmc_serve::{Refused, serve, serve_words};
use std::alloc::Global;
use std::io::{Read, Write};

/// Tells why a session ended early.
fn refused<E: Write>(alloc: Global, line: &CommandLine, refused: Refused, err: &mut E) -> u8
    ensures status { result ≢ 6 → result ≡ fault_status refused.fault }
    ensures loud { is_quiet result ≡ false }
{
    match refused.fault {
        Fault::Read => fail_to_read(err),
        fault => fail_with_hint(alloc, line, refused.bytes.as_slice(), fault, err),
    }
}

/// `gdb`: a record is read, and the packets behind it are answered as they come, until the client leaves or the input ends.
pub(crate) fn served<I: Read, O: Write, E: Write>(
    alloc: Global,
    line: &CommandLine,
    rank: Option<u64>,
    input: &mut I,
    out: &mut O,
    err: &mut E,
) -> u8
    ensures answers { (bytes : List ℕ) → I.remaining input.old ≡ Some bytes → result ≢ 6
        → Answers (Session rank) bytes result (O.contents out.old) (O.contents out.new) }
    ensures front { TakesAtMost 67112960 (I.remaining input.old) (I.remaining input.new) }
    ensures quiet { is_quiet result ≡ true → AppendsHint (E.contents err.old) (E.contents err.new) }
{
    match serve(alloc, rank, input, out) {
        Ok(()) => 0,
        Err(fault) => refused(alloc, line, fault, err),
    }
}

/// `debug -`: a record is read, and the lines behind it are answered as they come, until the input ends.
pub(crate) fn served_words<I: Read, O: Write, E: Write>(
    alloc: Global,
    line: &CommandLine,
    input: &mut I,
    out: &mut O,
    err: &mut E,
) -> u8
    ensures answers { (bytes : List ℕ) → I.remaining input.old ≡ Some bytes → result ≢ 6
        → Answers WordSession bytes result (O.contents out.old) (O.contents out.new) }
    ensures front { TakesAtMost 67112960 (I.remaining input.old) (I.remaining input.new) }
    ensures quiet { is_quiet result ≡ true → AppendsHint (E.contents err.old) (E.contents err.new) }
{
    match serve_words(alloc, input, out) {
        Ok(()) => 0,
        Err(fault) => refused(alloc, line, fault, err),
    }
}
