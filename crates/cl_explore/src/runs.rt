//! Turns in their order, of which those of one hart that follow one another stamp by stamp are kept as one.

ghost use Rattle.std.specs.Prelude.{◌≡◌, ◌+◌, ◌++◌, ◌∷◌, ◌≤◌, ◌<◌, [], IfOk, IsTrue, OnOk, length, reverse};
ghost use Rattle.cl_order_laws.specs.Alike.{at_stamp};
ghost use Rattle.cl_explore.specs.Runs.{all_turns, run_turns, Continues};

use cl_machine::{KindRef, Step};
use mp_types::Stamp;
use std::alloc::{AllocError, Global};
use std::marker::Model;

/// A turn, and behind it the same turn at each stamp up to the last one.
#[derive(Drop)]
pub struct Run {
    turn: Step,
    last: Stamp,
}

/// Turns in their order. Contracts see the list of them.
#[derive(Drop)]
pub struct Runs {
    runs: Vec<Run>,
}

impl Model for Runs {
    ghost use Rattle.std.specs.Prelude.{List};
    ghost use Rattle.cl_machine.specs.declared.steps.Step.{Step};
    ghost use Rattle.cl_explore.specs.Runs.{all_turns};

    ghost Value = { List Step };

    ghost view = { λ r. all_turns r.runs.items };
}

/// The same turn at another stamp. The only error is want of memory, for a reply.
pub(crate) fn at_stamp(alloc: Global, turn: &Step, stamp: Stamp) -> Result<Step, AllocError>
    ensures { IfOk result (λ step. step ≡ at_stamp turn.now stamp) }
{
    let (rank, hart) = (turn.rank(), turn.hart());
    match turn.kind() {
        KindRef::Bare(kind) => Ok(Step::bare(rank, hart, stamp, kind)),
        KindRef::Hub(reply) => {
            let reply = Box::new(alloc, reply.try_copy(alloc)?)?;
            Ok(Step::hub(rank, hart, stamp, reply))
        }
    }
}

/// Whether a step is the next one of a run.
fn continues(run: &Run, step: &Step) -> bool
    ensures { IsTrue result → Continues run.now step.now }
{
    step.rank() == run.turn.rank()
        && step.hart() == run.turn.hart()
        && run.turn.stamp() <= run.last
        && run.last < step.stamp()
        && step.stamp() - 1 == run.last
        && step.kind().is_same(run.turn.kind())
}

/// One more step behind the others, as a run of its own.
fn begin(alloc: Global, runs: &mut Vec<Run>, step: &Step) -> Result<(), AllocError>
    ensures { OnOk result (all_turns runs.new.items ≡ all_turns runs.old.items ++ step.now ∷ []) }
{
    let last = step.stamp();
    let turn = at_stamp(alloc, step, last)?;
    runs.push(Run { turn, last })?;
    Ok(())
}

/// One more step behind the others.
fn add(alloc: Global, runs: &mut Vec<Run>, step: &Step) -> Result<(), AllocError>
    ensures { OnOk result (all_turns runs.new.items ≡ all_turns runs.old.items ++ step.now ∷ []) }
{
    let Some(mut run) = runs.pop() else {
        return begin(alloc, runs, step);
    };
    if continues(&run, step) {
        run.last = step.stamp();
        runs.push(run)?;
        return Ok(());
    }
    runs.push(run)?;
    begin(alloc, runs, step)
}

/// The turns of a run, the last one first.
fn unwind(alloc: Global, run: &Run, back: &mut Vec<Step>) -> Result<(), AllocError>
    ensures { OnOk result (back.new.items ≡ back.old.items ++ reverse (run_turns run.now)) }
{
    let first = run.turn.stamp();
    let mut stamp = run.last;
    while first < stamp {
        back.push(at_stamp(alloc, &run.turn, stamp)?)?;
        stamp -= 1;
    }
    back.push(at_stamp(alloc, &run.turn, first)?)?;
    Ok(())
}

/// How many turns a run has, or the greatest number where there are more.
fn turns_in(run: &Run) -> u64
    ensures { result ≤ length (run_turns run.now) }
{
    run.last.saturating_sub(run.turn.stamp()).saturating_add(1)
}

impl Runs {
    /// These steps, in memory of their own. The only error is want of memory.
    pub fn of(alloc: Global, steps: &[Step]) -> Result<Runs, AllocError>
        ensures { IfOk result (λ runs. runs ≡ steps.now) }
    {
        let mut runs = Vec::new(alloc);
        let mut left = steps;
        while let Some((step, more)) = left.split_first() {
            add(alloc, &mut runs, step)?;
            left = more;
        }
        Ok(Runs { runs })
    }

    /// Puts the turns behind others, the last one first. The only error is want of memory.
    pub fn go_back(&self, alloc: Global, back: &mut Vec<Step>) -> Result<(), AllocError>
        ensures { OnOk result (back.new.items ≡ back.old.items ++ reverse self.now) }
    {
        let mut left = self.runs.as_slice();
        while let Some((run, before)) = left.split_last() {
            unwind(alloc, run, back)?;
            left = before;
        }
        Ok(())
    }

    /// Whether there are more turns than so many.
    pub fn are_more_than(&self, many: u64) -> bool
        ensures { IsTrue result → many < length self.now }
    {
        let runs = self.runs.as_slice();
        let mut count: u64 = 0;
        for place in 0..runs.len() {
            count = count.saturating_add(turns_in(&runs[place]));
        }
        if count > many {
            return true;
        }
        false
    }
}
