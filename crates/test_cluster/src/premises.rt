//! What calls leave meets what the laws of merged runs ask for: each witness makes the calls, and has the law's answer.

ghost use Rattle.std.specs.Prelude.{◌≡◌, ◌≤◌, All, IfSome, length};
ghost use Rattle.cl_machine.specs.Merge.{IsMerge};
ghost use Rattle.cl_record.specs.Records.{IsMergedRun, steps_in};
ghost use Rattle.cl_replay_laws.specs.Records.{ShowsRecord};
ghost use Rattle.cl_check.specs.declared.checking.Verdict.TheVariants as verdict;
ghost use Rattle.cl_text.specs.Limits.{FitsStep};
ghost use Rattle.rv_image_types.specs.Image.{IsImage};

use cl_check::{Verdict, check, merged_is_good_law};
use cl_machine::Step;
use cl_merge::merge;
use cl_record::{Plan, Record};
use cl_replay::{ClusterState, replay};
use cl_replay_laws::laws::merged_replays_law;
use cl_run::run_one;
use cl_text_laws::laws::records_fit_law;
use rv_image_types::Image;
use std::alloc::Global;

/// What a run leaves, and its steps in order of their stamps.
fn run_and_merge(
    alloc: Global,
    image: &Image,
    plans: &[Plan],
    order: &[u8],
) -> Option<(Record, Vec<Step>)>
    ensures image { IsImage image.now }
    ensures run { IfSome result (λ left. IsMergedRun image.now left.0) }
    ensures merge { IfSome result (λ left. IsMerge (steps_in left.0) left.1.items) }
{
    let _parts = image.parts();
    let left = run_one(alloc, image, plans, order).ok()?;
    let steps = merge(alloc, &left).ok()?;
    Some((left, steps))
}

/// A check of a run finds no bad step.
pub fn a_run_is_found_good(
    alloc: Global,
    image: &Image,
    plans: &[Plan],
    order: &[u8],
) -> Option<Verdict>
    ensures { IfSome result (λ found. found ≡ verdict.Good) }
{
    merged_is_good_law();
    let (_left, steps) = run_and_merge(alloc, image, plans, order)?;
    check(alloc, image, &steps).ok()
}

/// A replay of all its steps leads to the ranks, the hub, the clock and the boxes that it left.
pub fn a_run_is_replayed(
    alloc: Global,
    image: &Image,
    plans: &[Plan],
    order: &[u8],
) -> Option<(Record, ClusterState)>
    ensures { IfSome result (λ both. ShowsRecord image.now both.0 both.1) }
{
    merged_replays_law();
    let (left, steps) = run_and_merge(alloc, image, plans, order)?;
    match replay(alloc, image, &steps, steps.len() as u64) {
        Ok(state) => Some((left, state)),
        Err(_) => None,
    }
}

/// Each of its steps is inside the limits of a record's text.
pub fn a_run_can_be_written(
    alloc: Global,
    image: &Image,
    plans: &[Plan],
    order: &[u8],
) -> Option<Vec<Step>>
    ensures { IfSome result (λ steps. All (FitsStep image.now) steps.items) }
{
    records_fit_law();
    let (_left, steps) = run_and_merge(alloc, image, plans, order)?;
    Some(steps)
}
