//! The report of a record, of which the states of the ranks at the end are made anew from its steps.

ghost use Rattle.std.specs.Prelude.{◌≡◌, ℕ, List, IfErr, IfOk, length};
ghost use Rattle.std.specs.List.{list_any};
ghost use Rattle.cl_machine.specs.declared.steps.Step.{Step as StepView};
ghost use Rattle.cl_replay.specs.InnerReplaying.{ReplayFaultHolds};
ghost use Rattle.rvmc_report.specs.Recorded.{IsReportOf, are_stopped, reached_ends, stop_by_harts, turns_in};
ghost use Rattle.rvmc_report.specs.Report.{is_cut_short, report, status_of};

use crate::report::{any_has_trapped, put_rank};
use cl_rank::{RankState, Stop};
use cl_replay::{ClusterState, ReplayFault, Step, replay};
use rv_hart::Hart;
use rv_image_types::Image;
use std::alloc::{AllocError, Global};

/// What is told of a record, and the status.
#[derive(Drop)]
pub struct RecordReport {
    pub text: Vec<u8>,
    pub status: u8,
}

fn are_stopped(harts: &[Hart]) -> bool
    ensures { result ≡ are_stopped harts.now }
{
    harts.iter().all(|hart| hart.mode().is_stopped())
}

/// Why a rank stopped whose harts are so, where that tells it.
fn stop_by_harts(harts: &[Hart]) -> Option<Stop>
    ensures { result ≡ stop_by_harts harts.now }
{
    if are_stopped(harts) {
        Some(Stop::AllEnded)
    } else {
        None
    }
}

/// How many of the steps are a rank's.
#[tactic(auto, using(crate::proofs::Reached::counted))]
fn turns_in(steps: &[Step], rank: usize) -> u64
    ensures { result ≡ turns_in steps.now rank }
{
    let mut turns = 0;
    for step in steps {
        if usize::from(step.rank()) == rank {
            turns += 1;
        }
    }
    turns
}

/// The report of a cluster to which these steps led.
fn report_by(alloc: Global, steps: &[Step], state: &ClusterState) -> Result<Vec<u8>, AllocError>
    ensures { IfOk result (λ text. text.items ≡ report (reached_ends steps.now state.now)) }
{
    let mut text = Vec::new(alloc);
    for rank in 0..state.ranks.len() {
        let own = &state.ranks[rank];
        let turns = turns_in(steps, rank);
        let stop = stop_by_harts(own.harts.as_slice());
        put_rank(alloc, &mut text, rank, own, turns, stop)?;
    }
    Ok(text)
}

/// Whether some hart of the rank would have gone on.
fn is_cut_short(state: &RankState) -> bool
    ensures { result ≡ is_cut_short (stop_by_harts state.now.harts.items) }
{
    !are_stopped(state.harts.as_slice())
}

fn any_is_cut_short(states: &[RankState]) -> bool
    ensures { result ≡ list_any (λ state. is_cut_short (stop_by_harts state.harts.items)) states.now }
{
    states.iter().any(|state| is_cut_short(state))
}

/// The status of a cluster to which any steps led.
#[tactic(auto, using(crate::proofs::Reached::status_by_states))]
fn status_by(state: &ClusterState) -> u8
    ensures { (steps : List StepView) → result ≡ status_of (reached_ends steps state.now) }
{
    if any_has_trapped(state.ranks.as_slice()) {
        return 3;
    }
    if any_is_cut_short(state.ranks.as_slice()) {
        return 4;
    }
    0
}

/// The report of a record: of each rank its output and its harts where the steps lead, the number of its turns, and
/// `stop all-ended` where all its harts are stopped, else `stop unknown`. The status is 3 where a hart trapped, else 4
/// where a stop isn't known, else 0. Steps that are no run of the image are refused, with the first that isn't the
/// machine's.
pub fn recorded_report(
    alloc: Global,
    image: &Image,
    steps: &[Step],
) -> Result<RecordReport, ReplayFault>
    ensures told { IfOk result (λ told. IsReportOf image.now steps.now told.text.items told.status) }
    ensures fault { IfErr result (ReplayFaultHolds image.now steps.now (length steps.now)) }
{
    let state = replay(alloc, image, steps, steps.len() as u64)?;
    let status = status_by(&state);
    match report_by(alloc, steps, &state) {
        Ok(text) => Ok(RecordReport { text, status }),
        Err(_) => Err(ReplayFault::Memory),
    }
}
