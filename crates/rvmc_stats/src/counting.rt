//! One step more in each table.

ghost use Rattle.std.specs.Prelude.{◌≡◌, ◌/◌, ◌%◌, ◌==◌, ◌&&◌, if◌then◌else◌, not};
ghost use Rattle.cl_calls.specs.Calls.{argument};
ghost use Rattle.rvmc_stats.specs.Counted.{call_row as call_row_of, is_call as is_call_of, is_stopped_turn as is_idle_of};
ghost use Rattle.rvmc_stats.specs.Counted.{is_wait as is_wait_of, kind_place as kind_place_of};
ghost use Rattle.rvmc_stats.specs.Counted.{outcome_place as outcome_place_of};
ghost use Rattle.rvmc_stats.specs.MoreAt.{added, added_in};

use crate::calls::{call_row, outcome_place};
use crate::grid::Grid;
use crate::kinds::{is_call, is_idle, is_wait, kind_place};
use crate::tally::Tally;
use cl_calls::called_number;
use cl_machine::Step;
use rv_hart::Hart;

/// Counts a turn by its rank and its kind.
pub(crate) fn count_turn(turns: &mut Grid, step: &Step)
    ensures { turns.new ≡ added_in turns.old step.now.rank (kind_place_of step.now.kind) 1 }
{
    turns.add(usize::from(step.rank()), kind_place(step.kind()), 1);
}

/// Counts a turn by its rank.
pub(crate) fn count_taken(taken: &mut Tally, step: &Step)
    ensures { taken.new ≡ added taken.old step.now.rank 1 }
{
    taken.add(usize::from(step.rank()), 1);
}

/// Counts a turn by its rank, if it found nothing new.
pub(crate) fn count_wait(waits: &mut Tally, step: &Step)
    ensures { waits.new ≡ (if is_wait_of step.now.kind then added waits.old step.now.rank 1 else waits.old) }
{
    if is_wait(step.kind()) {
        waits.add(usize::from(step.rank()), 1);
    }
}

/// Counts a call, if one was made, by its number and by how it ended.
pub(crate) fn count_call(calls: &mut Grid, step: &Step, before: &Hart, after: &Hart)
    ensures { calls.new
        ≡ (if is_call_of step.now.kind
        then added_in calls.old (call_row_of (argument before.now 7)) (outcome_place_of after.now after.now.mode) 1
        else calls.old) }
{
    if is_call(step.kind()) {
        calls.add(call_row(called_number(before)), outcome_place(after), 1);
    }
}

/// Counts a turn by the word of the text where its hart was, unless the hart is stopped.
pub(crate) fn count_place(places: &mut Tally, step: &Step, before: &Hart)
    ensures { places.new
        ≡ (if not (is_idle_of step.now.kind) && (before.now.pc % 4 == 0)
        then added places.old (before.now.pc / 4) 1
        else places.old) }
{
    let pc = before.pc();
    if !is_idle(step.kind()) && pc % 4 == 0 {
        places.add((pc / 4) as usize, 1);
    }
}
