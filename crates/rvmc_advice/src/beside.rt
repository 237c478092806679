//! What is told beside an output, and before the input comes.

ghost use Rattle.std.specs.Prelude.{◌≡◌};
ghost use Rattle.rvmc_advice.specs.Beside.{Tells, left_hint, length_hint, next_budget, record_hint, report_hint};
ghost use Rattle.rvmc_advice.specs.Beside.{run_hint, search_hint, spent_hint, tells_waits, text_hint, waiting_hint};
ghost use Rattle.rvmc_hints.specs.HintLines.{AppendsHint};

use crate::hints::{put_hint, wanted_by};
use rvmc_answers::Output;
use rvmc_hints::{Awaited, Hint, INPUT_MOST, RunHint, Runner, next_bound, put_run_hint};
use rvmc_line::{CommandLine, ImageCommand, Written};
use std::alloc::Global;
use std::io::Write;

/// What can be told of a record of so many bytes: that no command reads it, where that is so.
fn length_hint(bytes: u64) -> Option<RunHint>
    ensures { result ≡ length_hint bytes }
{
    if bytes > INPUT_MOST {
        Some(RunHint::LongRecord(bytes))
    } else {
        None
    }
}

/// The command that may be run with a larger budget, and the next one, where there is one.
fn next_budget(line: &CommandLine) -> Option<(Runner, u64)>
    ensures { result ≡ next_budget line.now }
{
    let CommandLine::OfImage { command, .. } = line else {
        return None;
    };
    match command {
        ImageCommand::Run { budget, .. } | ImageCommand::RunUntilStuck { budget, .. } => {
            Some((Runner::Run, next_bound(*budget)?))
        }
        ImageCommand::One { budget, .. } | ImageCommand::OneUntilStuck { budget, .. } => {
            Some((Runner::One, next_bound(*budget)?))
        }
        _ => None,
    }
}

/// What can be told where a hart waits at the end of a budget, in a run of this status: behind a trap it is about that,
/// and a larger budget changes nothing.
fn waiting_hint(line: &CommandLine, status: u8) -> RunHint
    ensures { result ≡ waiting_hint line.now status }
{
    match (status, next_budget(line)) {
        (4, Some((runner, budget))) => RunHint::WaitsBelow(runner, budget),
        _ => RunHint::Waits,
    }
}

/// What can be told of a run of this status that a budget cut short.
fn spent_hint(line: &CommandLine, status: u8) -> Option<RunHint>
    ensures { result ≡ spent_hint line.now status }
{
    match (status, next_budget(line)) {
        (4, Some((runner, budget))) => Some(RunHint::Spent(runner, budget)),
        (4, None) => Some(RunHint::SpentAll),
        _ => None,
    }
}

/// Whether a report has what each hart waits for at its end.
fn tells_waits(line: &CommandLine) -> bool
    ensures { result ≡ tells_waits line.now }
{
    let CommandLine::OfImage { command, .. } = line else {
        return false;
    };
    match command {
        ImageCommand::Run { written, .. }
        | ImageCommand::RunUntilStuck { written, .. }
        | ImageCommand::One { written, .. }
        | ImageCommand::OneUntilStuck { written, .. } => matches!(written, Written::Why { .. }),
        _ => false,
    }
}

/// The same of a report of such a run: nothing where a deadlock is told at its end, from which nobody goes further.
fn report_hint(line: &CommandLine, text: &[u8], status: u8) -> Option<RunHint>
    ensures { result ≡ report_hint line.now text.now status }
{
    if tells_waits(line) && !text.ends_with(b"no deadlock shown\n") {
        return None;
    }
    spent_hint(line, status)
}

/// The larger bound that can be told of a search that left states: `long` says that a rank took more turns by itself
/// than it was let; else the moves of as many states as are allowed were made.
fn left_hint(line: &CommandLine, long: bool) -> Option<RunHint>
    ensures { result ≡ left_hint line.now long }
{
    let CommandLine::OfImage { command, .. } = line else {
        return None;
    };
    match command {
        ImageCommand::Explore { states, turns, .. }
        | ImageCommand::ExploreFrom { states, turns, .. } => {
            if long {
                return Some(RunHint::Turns(next_bound(*turns)?));
            }
            match next_bound(*states) {
                Some(states) => Some(RunHint::States(states)),
                None => Some(RunHint::StatesAll),
            }
        }
        _ => None,
    }
}

/// What can be told of a text that is no report: of a search that left states, as the end of its text says.
fn text_hint(line: &CommandLine, text: &[u8]) -> Option<RunHint>
    ensures { result ≡ text_hint line.now text.now }
{
    if text.ends_with(b" states are left\n") {
        left_hint(line, false)
    } else if text.ends_with(b" turns alone\n") {
        left_hint(line, true)
    } else {
        None
    }
}

/// What can be told of a record of a run that a budget cut short.
fn record_hint(line: &CommandLine, bytes: u64, status: u8) -> Option<RunHint>
    ensures { result ≡ record_hint line.now bytes status }
{
    match length_hint(bytes) {
        Some(hint) => Some(hint),
        None => spent_hint(line, status),
    }
}

/// What can be told beside an output.
fn run_hint(line: &CommandLine, output: &Output, status: u8) -> Option<RunHint>
    ensures { result ≡ run_hint line.now output.now status }
{
    match output {
        Output::Text(text) => text_hint(line, text.as_slice()),
        Output::Waiting(_) => Some(waiting_hint(line, status)),
        Output::Spent(text) => report_hint(line, text.as_slice(), status),
        Output::Record(text) => length_hint(text.len()?),
        Output::SpentRecord(text) => record_hint(line, text.len()?, status),
    }
}

/// What can be told beside what a search of this status wrote as it was found.
fn search_hint(line: &CommandLine, long: bool, status: u8) -> Option<RunHint>
    ensures { result ≡ search_hint line.now long status }
{
    if status == 4 {
        left_hint(line, long)
    } else {
        None
    }
}

/// Writes the line of a hint, if there is one.
#[tactic(auto, using(crate::proofs::Quiet::unhinted, crate::proofs::Quiet::kept), unfolding(crate::specs::Beside::Tells))]
fn tell<E: Write>(alloc: Global, hint: Option<RunHint>, err: &mut E)
    ensures told { Tells hint (E.contents err.old) (E.contents err.new) }
    ensures one_line { AppendsHint (E.contents err.old) (E.contents err.new) }
{
    match hint {
        Some(hint) => put_run_hint(alloc, err, hint),
        None => {}
    }
}

/// Writes what can be told beside an output of this status, if there is anything.
pub fn tell_run_hint<E: Write>(
    alloc: Global,
    line: &CommandLine,
    output: &Output,
    status: u8,
    err: &mut E,
)
    ensures told { Tells (run_hint line.now output.now status) (E.contents err.old) (E.contents err.new) }
    ensures one_line { AppendsHint (E.contents err.old) (E.contents err.new) }
{
    tell(alloc, run_hint(line, output, status), err)
}

/// Writes what can be told beside what a search of this status wrote as it was found, if there is anything: where it
/// left states, which larger bound goes further.
pub fn tell_search_hint<E: Write>(
    alloc: Global,
    line: &CommandLine,
    long: bool,
    status: u8,
    err: &mut E,
)
    ensures told { Tells (search_hint line.now long status) (E.contents err.old) (E.contents err.new) }
    ensures one_line { AppendsHint (E.contents err.old) (E.contents err.new) }
{
    tell(alloc, search_hint(line, long, status), err)
}

/// Writes what a command waits for that reads standard input; with `behind_a_file` a record comes from a file before
/// it.
pub fn tell_wait<E: Write>(line: &CommandLine, behind_a_file: bool, err: &mut E) {
    let awaited = match line {
        CommandLine::WordSession if behind_a_file => Awaited::Words,
        _ if behind_a_file => Awaited::Packets,
        _ => Awaited::Whole(wanted_by(line)),
    };
    put_hint(err, Hint::Awaited(awaited));
}
