//! Steps, done one after another.

ghost use Rattle.std.specs.Prelude.{◌≡◌, ◌<◌, ◌≤◌, [], length, IfErr, IfOk, OnOk};
ghost use Rattle.rv_image_types.specs.declared.images.ImageParts.{ImageParts};
ghost use Rattle.cl_machine.specs.Cluster.{loaded_cluster};
ghost use Rattle.cl_replay.specs.Replaying.{IsReached};
ghost use Rattle.cl_replay.specs.Replays.{IsRunUpTo};
ghost use Rattle.cl_replay.specs.States.{ClusterStandsFor};
ghost use Rattle.cl_debug.specs.Faults.{OpenFaultHolds};
ghost use Rattle.cl_replay.specs.Walking.{LeadsOn};
ghost use Rattle.cl_debug.specs.Leads.{AreKept, LeadFaultHolds};

use crate::faults::DebugFault;
use cl_replay::{ClusterState, KeptCluster, Step, WalkFault};
use rv_image_types::Image;
use std::alloc::Global;

/// Does the steps from one place to another. After a refusal the state may be anything.
pub(crate) fn advance(
    state: &mut ClusterState,
    steps: &[Step],
    from: u64,
    to: u64,
) -> Result<(), DebugFault>
    requires forwards { from ≤ to }
    requires within { to ≤ length steps.now }
    ensures leads { OnOk result (LeadsOn steps.now from state.old to state.new) }
    ensures fault { IfErr result (LeadFaultHolds steps.now from state.old to) }
{
    match state.walk(steps, from as usize, to as usize) {
        Ok(()) => Ok(()),
        Err(WalkFault::Step(n)) => Err(DebugFault::NotARun(n)),
        Err(WalkFault::Memory) => Err(DebugFault::Memory),
    }
}

/// Keeps a loaded cluster, and the clusters to which steps lead from it at all multiples of the spacing, each beside the
/// one before it. After a refusal the state may be anything.
fn keep_each(
    alloc: Global,
    state: &mut ClusterState,
    steps: &[Step],
    spacing: u64,
    kept: &mut Vec<KeptCluster>,
) -> Result<(), DebugFault>
    requires some { 0 < spacing }
    requires none { kept.old.items ≡ [] }
    ensures kept { (image : ImageParts) → ClusterStandsFor image state.old (loaded_cluster image)
        → OnOk result (AreKept image steps.now spacing kept.new.items) }
    ensures run { (image : ImageParts) → ClusterStandsFor image state.old (loaded_cluster image)
        → OnOk result (IsRunUpTo image steps.now (length steps.now)) }
    ensures fault { (image : ImageParts) → ClusterStandsFor image state.old (loaded_cluster image)
        → IfErr result (OpenFaultHolds image steps.now) }
{
    let len = steps.len() as u64;
    for k in 0..len / spacing + 1 {
        let here = state.keep(alloc, kept.last())?;
        kept.push(here)?;
        let from = k * spacing;
        let to = from + spacing.min(len - from);
        advance(state, steps, from, to)?;
    }
    Ok(())
}

/// The clusters at all multiples of the spacing, in one pass that does each step once.
fn kept_states(
    alloc: Global,
    image: &Image,
    steps: &[Step],
    spacing: u64,
) -> Result<Vec<KeptCluster>, DebugFault>
    requires { 0 < spacing }
    ensures kept { IfOk result (λ kept. AreKept image.now steps.now spacing kept.items) }
    ensures run { OnOk result (IsRunUpTo image.now steps.now (length steps.now)) }
    ensures fault { IfErr result (OpenFaultHolds image.now steps.now) }
{
    let count = steps.len() as u64 / spacing + 1;
    let mut kept = Vec::with_capacity(alloc, count as usize)?;
    let mut state = ClusterState::load(alloc, image)?;
    keep_each(alloc, &mut state, steps, spacing, &mut kept)?;
    Ok(kept)
}

/// The same with the first of them in memory of its own, the cluster at the start.
pub(crate) fn kept_and_first(
    alloc: Global,
    image: &Image,
    steps: &[Step],
    spacing: u64,
) -> Result<(Vec<KeptCluster>, ClusterState), DebugFault>
    requires { 0 < spacing }
    ensures kept { IfOk result (λ made. AreKept image.now steps.now spacing made.0.items) }
    ensures first { IfOk result (λ made. IsReached image.now steps.now 0 made.1) }
    ensures run { OnOk result (IsRunUpTo image.now steps.now (length steps.now)) }
    ensures fault { IfErr result (OpenFaultHolds image.now steps.now) }
{
    let kept = kept_states(alloc, image, steps, spacing)?;
    let first = kept[0].live(alloc)?;
    Ok((kept, first))
}
