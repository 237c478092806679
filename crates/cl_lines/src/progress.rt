//! How far a search came, on a line of standard error.

ghost use Rattle.std.specs.Prelude.{◌≡◌, IfOk, IsTrue, string_bytes};
ghost use Rattle.cl_lines.specs.Progress.{IsDue, ends_word, progress_line};
ghost use Rattle.cl_lines.specs.Telling.{AppendsProgress};

use crate::beginnings::put_beginning;
use std::alloc::{AllocError, Global};
use std::io::Write;

/// How far a search came.
#[derive(Clone, Copy, Drop)]
pub struct Progress {
    /// Which pass of the search is running, from 1: a search may begin again with what it learnt.
    pub pass: u64,
    /// Of how many states the moves were made.
    pub states: usize,
    /// How many of these are ends.
    pub ends: usize,
    /// How many states were found and are left.
    pub left: usize,
}

/// Whether a line is due after so many states: after 100, 200, .. 900, 1,000, 2,000 and so on.
fn is_due(states: usize) -> bool
    ensures { IsTrue result → IsDue states }
{
    let mut rest = states;
    while rest >= 1000 && rest % 10 == 0 {
        rest /= 10;
    }
    if rest < 100 || rest >= 1000 || rest % 100 > 0 {
        return false;
    }
    true
}

/// What so many ends are called.
fn ends_word(ends: usize) -> &'static str
    ensures { result.now ≡ ends_word ends }
{
    if ends == 1 { "end" } else { "ends" }
}

/// The line, with its end.
fn line_of(alloc: Global, progress: &Progress) -> Result<String, AllocError>
    ensures { IfOk result (λ line. string_bytes line ≡ progress_line progress.now) }
{
    let Progress {
        pass,
        states,
        ends,
        left,
    } = *progress;
    let word = ends_word(ends);
    format!(in alloc; "searched {states} states in pass {pass}: {ends} {word}, {left} left\n")
}

/// Writes how far a search came, where a line is due. One that can't be written as a whole, or for which memory is refused,
/// changes nothing else: as much of it stands there as was taken.
#[tactic(auto, using(crate::proofs::Behind::no_progress))]
pub fn put_progress<W: Write>(alloc: Global, out: &mut W, progress: &Progress)
    ensures { AppendsProgress (W.contents out.old) (W.contents out.new) }
{
    if !is_due(progress.states) {
        return;
    }
    match line_of(alloc, progress) {
        Ok(line) => put_beginning(out, line.as_bytes()),
        Err(_) => {}
    }
}
