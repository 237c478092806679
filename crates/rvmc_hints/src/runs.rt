//! What a person can be told of a run that is as it should be, on a line of standard error.

ghost use Rattle.std.specs.Prelude.{◌≡◌, ◌++◌, IfOk, decimal, string_bytes};
ghost use Rattle.rvmc_hints.specs.HintLines.{AppendsHint, IsOneLine, hint_line};
ghost use Rattle.rvmc_hints.specs.Runs.{AppendsLine, next_bound, run_hint_text, spent_head, waiting_head};

use cl_lines::put_beginning;
use std::alloc::{AllocError, Global};
use std::io::Write;

/// How many bytes of an input a command reads at most.
pub const INPUT_MOST: u64 = 67_108_864;

/// The largest budget of a run, and the largest bound of a search.
const BOUND_MOST: u64 = 16_777_216;

/// The next bound to try where this one was too small: sixteen times as large, if there is a larger one.
pub fn next_bound(bound: u64) -> Option<u64>
    ensures { result ≡ next_bound bound }
{
    if bound >= BOUND_MOST {
        None
    } else {
        Some((16 * bound).min(BOUND_MOST))
    }
}

/// A command that runs an image.
#[derive(Clone, Copy, Drop)]
pub enum Runner {
    Run,
    One,
}

/// What a person can be told of a run that is as it should be.
#[derive(Clone, Copy, Drop)]
pub enum RunHint {
    /// A hart waits, and a rank was stopped by the largest budget.
    Waits,
    /// A hart waits, and a rank was stopped by its budget; with this one it could go on.
    WaitsBelow(Runner, u64),
    /// A rank was stopped by its budget; with this one it could go on.
    Spent(Runner, u64),
    /// A rank was stopped by the largest budget.
    SpentAll,
    /// The record of the run has so many bytes, which is more than a command reads.
    LongRecord(u64),
    /// A search of all orders left states; it could keep so many.
    States(u64),
    /// A search left states, and kept as many as one can.
    StatesAll,
    /// A search left states, since a rank took more turns alone than it might; it might take so many.
    Turns(u64),
}

/// The hint up to the next budget, if a hart waits.
fn waiting_head(runner: Runner) -> &'static str
    ensures text { result.now ≡ waiting_head runner }
    ensures one_line { IsOneLine result.now }
{
    match runner {
        Runner::Run => "a hart waits; --why says for what, and rvmc run --budget ",
        Runner::One => "a hart waits; --why says for what, and rvmc one --budget ",
    }
}

/// The same if none waits.
fn spent_head(runner: Runner) -> &'static str
    ensures text { result.now ≡ spent_head runner }
    ensures one_line { IsOneLine result.now }
{
    match runner {
        Runner::Run => "a rank used up its budget; rvmc run --budget ",
        Runner::One => "a rank used up its budget; rvmc one --budget ",
    }
}

/// A text that names a number.
#[tactic(auto, using(crate::proofs::HintLines::number_is_one_line))]
fn numbered(alloc: Global, head: &str, number: u64, tail: &str) -> Result<String, AllocError>
    requires head { IsOneLine head.now }
    requires tail { IsOneLine tail.now }
    ensures text { IfOk result (λ text. string_bytes text ≡ head.now ++ (decimal number ++ tail.now)) }
    ensures one_line { IfOk result (λ _. IsOneLine (head.now ++ (decimal number ++ tail.now))) }
{
    format!(in alloc; "{head}{number}{tail}")
}

/// The text behind `hint: `.
fn text_of(alloc: Global, hint: RunHint) -> Result<String, AllocError>
    ensures text { IfOk result (λ text. string_bytes text ≡ run_hint_text hint) }
    ensures one_line { IfOk result (λ _. IsOneLine (run_hint_text hint)) }
{
    match hint {
        RunHint::Waits => format!(in alloc; "a hart waits; --why says for what"),
        RunHint::WaitsBelow(runner, budget) => {
            numbered(alloc, waiting_head(runner), budget, " goes further")
        }
        RunHint::Spent(runner, budget) => {
            numbered(alloc, spent_head(runner), budget, " goes further")
        }
        RunHint::SpentAll => {
            format!(in alloc; "a rank used up the largest budget; --why says where its harts are")
        }
        RunHint::LongRecord(bytes) => numbered(
            alloc,
            "this record has ",
            bytes,
            " bytes; rvmc check reads at most 67108864",
        ),
        RunHint::States(states) => {
            numbered(
                alloc,
                "states are left; rvmc explore --states ",
                states,
                " goes further",
            )
        }
        RunHint::StatesAll => {
            format!(in alloc;
                "states are left; rvmc explore --split 64 makes parts to search one by one"
            )
        }
        RunHint::Turns(turns) => {
            numbered(
                alloc,
                "states are left; rvmc explore --turns ",
                turns,
                " goes further",
            )
        }
    }
}

/// The line of a hint, with its end.
fn line_of(alloc: Global, hint: RunHint) -> Result<String, AllocError>
    ensures text { IfOk result (λ line. string_bytes line ≡ hint_line (run_hint_text hint)) }
    ensures one_line { IfOk result (λ _. IsOneLine (run_hint_text hint)) }
{
    let text = text_of(alloc, hint)?;
    format!(in alloc; "hint: {text}\n")
}

/// Writes the line of a hint. One that can't be written as a whole, or for which memory is refused, changes nothing
/// else: as much of it stands there as was taken.
#[tactic(auto, using(crate::proofs::HintLines::no_hint, crate::proofs::HintLines::nothing_told))]
pub fn put_run_hint<W: Write>(alloc: Global, out: &mut W, hint: RunHint)
    ensures told { AppendsLine (run_hint_text hint) (W.contents out.old) (W.contents out.new) }
    ensures one_line { AppendsHint (W.contents out.old) (W.contents out.new) }
{
    match line_of(alloc, hint) {
        Ok(line) => put_beginning(out, line.as_bytes()),
        Err(_) => {}
    }
}
