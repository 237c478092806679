//! A cluster that is kept as it was at one time, its hub too.

ghost use Rattle.std.specs.Prelude.{◌≡◌, IfOk};
ghost use Rattle.cl_replay.specs.Kept.{snapshot};

use crate::kept::KeptRanks;
use crate::states::ClusterState;
use mp_hub::HubState;
use std::alloc::{AllocError, Global};
use std::marker::Model;

/// A cluster that is kept as it was at one time: its ranks, and their pages, stand once for all kept clusters in which
/// they are alike, and its hub stands for each. Contracts see what the cluster was.
#[derive(Drop)]
pub struct KeptCluster {
    ranks: KeptRanks,
    hub: HubState,
}

impl Model for KeptCluster {
    ghost use Rattle.cl_replay.specs.Kept.{Snapshot, with_hub};

    ghost Value = { Snapshot };

    ghost view = { λ k. with_hub k.ranks k.hub };
}

impl KeptCluster {
    /// The same cluster in memory of its own, that goes on from here: this one stays as it is. The only error is want
    /// of memory.
    pub fn live(&self, alloc: Global) -> Result<ClusterState, AllocError>
        ensures { IfOk result (λ state. snapshot state ≡ self.now) }
    {
        let hub = self.hub.try_copy(alloc)?;
        self.ranks.live(alloc, hub)
    }
}

impl ClusterState {
    /// The cluster as it is now, kept. A page of a rank that is as in the earlier one stands once for both. The only
    /// error is want of memory.
    pub fn keep(
        &self,
        alloc: Global,
        earlier: Option<&KeptCluster>,
    ) -> Result<KeptCluster, AllocError>
        ensures { IfOk result (λ kept. kept ≡ snapshot self.now) }
    {
        let ranks = match earlier {
            Some(earlier) => self.keep_ranks(alloc, Some(&earlier.ranks))?,
            None => self.keep_ranks(alloc, None)?,
        };
        Ok(KeptCluster {
            ranks,
            hub: self.hub.try_copy(alloc)?,
        })
    }
}
