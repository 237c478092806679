//! Which nodes lead to no end if ranks that rest wait.

ghost use Rattle.std.specs.Prelude.{◌≡◌, IfOk, filter};
ghost use Rattle.cl_explore.specs.Ends.{findings};
ghost use Rattle.rvmc_explore.specs.InnerPatient.{ArePatient, LeadInside, TellsHanging, is_patient};
ghost use Rattle.rvmc_explore.specs.Patient.{noted_at};

use crate::alone::one_alone;
use crate::marks::leading_to;
use cl_explore::{Exploration, Lead};
use cl_rests::RankSet;
use std::alloc::{AllocError, Global};

/// Whether the rank rests at the node of this number, as far as that was noted.
fn rests_in(resting: &[RankSet], node: usize, rank: u8) -> bool
    ensures { result ≡ noted_at resting.now node rank }
{
    match resting.get(node) {
        None => false,
        Some(ranks) => ranks.has(rank),
    }
}

/// Whether the rank of a move doesn't rest where it moved.
fn is_patient(resting: &[RankSet], lead: &Lead) -> bool
    ensures { result ≡ is_patient resting.now lead.now }
{
    !rests_in(resting, lead.from, lead.rank)
}

/// Those of these moves, in their order.
fn patient_of(alloc: Global, resting: &[RankSet], leads: &[Lead]) -> Result<Vec<Lead>, AllocError>
    ensures { IfOk result (λ kept. kept.items ≡ filter (is_patient resting.now) leads.now) }
{
    let mut kept = Vec::new(alloc);
    for lead in leads {
        if is_patient(resting, lead) {
            kept.push(*lead)?;
        }
    }
    Ok(kept)
}

/// The moves of ranks that don't rest where they moved.
fn patient_leads(alloc: Global, found: &Exploration) -> Result<Vec<Lead>, AllocError>
    ensures { IfOk result (λ leads. ArePatient (findings found.now) leads.items) }
{
    let resting = found.resting.as_slice();
    let leads = found.leads.as_slice();
    let kept = patient_of(alloc, resting, leads)?;
    Ok(kept)
}

/// A node that leads to an end, but to none by moves of ranks that don't rest where they move, if there is one: where standard
/// sends wait for their receives, no run from there ends. It is one as far on as one comes from the first such node by such moves,
/// so the ranks that rest there are those from which nobody will receive. The only error is want of memory.
pub(crate) fn hanging(alloc: Global, found: &Exploration) -> Result<Option<usize>, AllocError>
    requires { LeadInside (findings found.now) }
    ensures { IfOk result (TellsHanging (findings found.now)) }
{
    let count = found.nodes.len();
    let ends = found.ends.as_slice();
    let leads = found.leads.as_slice();
    let kept = patient_leads(alloc, found)?;
    let moves = kept.as_slice();
    let all = leading_to(alloc, count, leads, ends)?;
    let patient = leading_to(alloc, count, moves, ends)?;
    let all_marks = all.as_slice();
    let patient_marks = patient.as_slice();
    let told = one_alone(alloc, moves, all_marks, patient_marks)?;
    Ok(told)
}
