//! Nodes that are kept.

ghost use Rattle.std.specs.Prelude.{◌≡◌, ◌<◌, [], IfOk, IsTrue, OnOk, length, slice_get};
ghost use Rattle.cl_replay.specs.Kept.{ranks_at, snapshot};
ghost use Rattle.cl_explore.specs.Kept.{AreSameBeside, HaveStayed, IsKeptAs, IsLiveOf, cluster_of};

use crate::runs::Runs;
use cl_moves::Standing;
use cl_replay::{ClusterState, KeptRanks, SharedRank};
use mp_alike::WholeHub;
use std::alloc::{AllocError, Global};

/// A node of a search: a cluster, how many turns each of its ranks has had, and how it was found. Ranks that are as in the
/// node from which it was found stand once.
#[derive(Drop)]
pub struct KeptNode {
    /// The cluster's ranks and boxes.
    pub cluster: KeptRanks,
    /// The cluster's hub with each post ever made, by which likeness is told, and of which a hub is built to go on from
    /// here.
    pub whole: WholeHub,
    pub had: Vec<u64>,
    /// The number of the node from which it was found. The first node has itself here.
    pub parent: usize,
    /// The turns that led from there, of the first node from the loaded cluster.
    pub turns: Runs,
}

/// Whether a count is the same in both lists, or that of this rank.
fn is_same_at(had: &[u64], before: &[u64], rank: usize, other: usize) -> bool
    requires had { other < length had.now }
    requires before { other < length before.now }
    ensures { IsTrue result → (other ≡ rank → ⊥) → slice_get had.now other ≡ slice_get before.now other }
{
    other == rank || had[other] == before[other]
}

/// Whether all counts but that of this rank are the same in both lists.
fn are_same_beside(had: &[u64], before: &[u64], rank: usize) -> bool
    ensures { IsTrue result → AreSameBeside had.now before.now rank }
{
    if had.len() != before.len() {
        return false;
    }
    for other in 0..had.len() {
        if !is_same_at(had, before, rank, other) {
            return false;
        }
    }
    true
}

/// The ranks of a standing, kept beside an earlier node. Where only the rank of this number has had turns since then, all
/// other ranks stand once for both, and pages of that rank once for it and for the rank `near`.
pub(crate) fn keep_moved(
    alloc: Global,
    standing: &Standing,
    earlier: &KeptNode,
    rank: usize,
    near: Option<&SharedRank>,
) -> Result<KeptRanks, AllocError>
    ensures { IfOk result (λ kept. HaveStayed earlier.now standing.now → kept ≡ ranks_at standing.now.cluster) }
{
    if !earlier.is_beside(standing, rank) {
        return standing.cluster.keep_ranks(alloc, Some(&earlier.cluster));
    }
    standing
        .cluster
        .keep_beside(alloc, &earlier.cluster, rank, near)
}

impl KeptNode {
    /// A standing whose ranks were kept, as a node that was found from the one of the number `parent`. The only error is
    /// want of memory.
    pub(crate) fn of(
        alloc: Global,
        standing: &Standing,
        cluster: KeptRanks,
        parent: usize,
    ) -> Result<KeptNode, AllocError>
        ensures { IfOk result (IsKeptAs standing.now cluster parent) }
    {
        Ok(KeptNode {
            cluster,
            whole: standing.whole.try_copy(alloc)?,
            had: Vec::from_slice(alloc, standing.had.as_slice())?,
            parent,
            turns: Runs::of(alloc, standing.steps.as_slice())?,
        })
    }

    /// The cluster, in memory of its own. The only error is want of memory.
    pub fn state(&self, alloc: Global) -> Result<ClusterState, AllocError>
        ensures { IfOk result (λ state. snapshot state ≡ cluster_of self.now) }
    {
        let hub = self.whole.hub(alloc)?;
        self.cluster.live(alloc, hub)
    }

    /// A standing at the node, from which no turn is noted yet. The only error is want of memory.
    pub(crate) fn live(&self, alloc: Global) -> Result<Standing, AllocError>
        ensures { IfOk result (IsLiveOf self.now) }
    {
        let had = Vec::from_slice(alloc, self.had.as_slice())?;
        let whole = self.whole.try_copy(alloc)?;
        let cluster = self.state(alloc)?;
        Ok(Standing {
            cluster,
            whole,
            had,
            steps: Vec::new(alloc),
        })
    }

    /// A standing is at the node, wherever it was, and no turn is noted yet. The only error is want of memory, and then it
    /// stays where it was.
    pub(crate) fn renew(&self, alloc: Global, standing: &mut Standing) -> Result<(), AllocError>
        ensures { OnOk result (IsLiveOf self.now standing.new) }
    {
        *standing = self.live(alloc)?;
        Ok(())
    }

    /// A rank of a standing is again as it was here, if it has had turns since. The only error is want of memory.
    fn bring_back(
        &self,
        alloc: Global,
        standing: &mut Standing,
        rank: usize,
    ) -> Result<(), AllocError>
        ensures { OnOk result (HaveStayed self.now standing.old → HaveStayed self.now standing.new) }
    {
        if rank >= standing.cluster.ranks.len() || rank >= self.cluster.ranks().len() {
            return Ok(());
        }
        if rank >= standing.had.len() || rank >= self.had.len() {
            return Ok(());
        }
        let had = self.had[rank];
        if standing.had[rank] == had {
            return Ok(());
        }
        let hub = self.whole.hub(alloc)?;
        self.cluster
            .restore(alloc, &mut standing.cluster, rank, hub)?;
        standing.had[rank] = had;
        Ok(())
    }

    /// The same of all ranks but one that moved.
    fn bring_back_others(
        &self,
        alloc: Global,
        standing: &mut Standing,
        moved: usize,
    ) -> Result<(), AllocError>
        ensures { OnOk result (HaveStayed self.now standing.old → HaveStayed self.now standing.new) }
    {
        for other in 0..self.had.len() {
            if other != moved {
                self.bring_back(alloc, standing, other)?;
            }
        }
        Ok(())
    }

    /// Whether this rank is in a standing and here, and all others have had as many turns there as here.
    fn is_beside(&self, standing: &Standing, rank: usize) -> bool
        ensures there { IsTrue result → rank < length standing.now.cluster.ranks.items }
        ensures here { IsTrue result → rank < length self.now.cluster.ranks }
        ensures same { IsTrue result → AreSameBeside standing.now.had.items self.now.had.items rank }
    {
        rank < standing.cluster.ranks.len()
            && rank < self.cluster.ranks().len()
            && are_same_beside(standing.had.as_slice(), self.had.as_slice(), rank)
    }

    /// A standing in which all ranks but this one are as here is here again, and no turn is noted. The only error is want
    /// of memory, and then the standing may be anything.
    fn bring_back_last(
        &self,
        alloc: Global,
        standing: &mut Standing,
        rank: usize,
    ) -> Result<(), AllocError>
        requires there { rank < length standing.old.cluster.ranks.items }
        requires here { rank < length self.now.cluster.ranks }
        requires same { AreSameBeside standing.old.had.items self.now.had.items rank }
        ensures { OnOk result (HaveStayed self.now standing.old → IsLiveOf self.now standing.new) }
    {
        let hub = self.whole.hub(alloc)?;
        self.cluster
            .restore(alloc, &mut standing.cluster, rank, hub)?;
        standing.whole = self.whole.try_copy(alloc)?;
        standing.had = Vec::from_slice(alloc, self.had.as_slice())?;
        standing.steps = Vec::new(alloc);
        Ok(())
    }

    /// A standing that came from here, mostly by turns of this rank, is here again, and no turn is noted. Ranks that have
    /// had none stay where they are. The only error is want of memory, and then the standing may be anything.
    pub(crate) fn restore(
        &self,
        alloc: Global,
        standing: &mut Standing,
        rank: usize,
    ) -> Result<(), AllocError>
        ensures { OnOk result (HaveStayed self.now standing.old → IsLiveOf self.now standing.new) }
    {
        self.bring_back_others(alloc, standing, rank)?;
        if !self.is_beside(standing, rank) {
            return self.renew(alloc, standing);
        }
        self.bring_back_last(alloc, standing, rank)
    }
}
