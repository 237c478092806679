//! The ranks of a cluster with its boxes, kept as they were at one time.

ghost use Rattle.std.specs.Prelude.{◌≡◌, ◌<◌, IfOk, OnErr, OnOk, length, map, slice_set};
ghost use Rattle.cl_state.specs.Room.{rank_of};
ghost use Rattle.cl_replay.specs.Kept.{IsBeside, IsRestored, ranks_at, snapshot, with_hub};

use crate::states::ClusterState;
use cl_state::{KeptRank, RankState};
use mp_hub::HubState;
use mp_types::Stamp;
use part_box::Settled;
use std::alloc::{AllocError, Global};
use std::marker::Model;
use std::sync::Arc;

/// A kept rank, which all kept clusters own together in which it is the same. Contracts see the rank.
#[derive(Drop)]
pub struct SharedRank {
    rank: Arc<KeptRank>,
}

impl Model for SharedRank {
    ghost use Rattle.cl_state.specs.Rank.{Rank};

    ghost Value = { Rank };

    ghost view = { λ s. s.rank.value };
}

impl SharedRank {
    fn of(alloc: Global, rank: KeptRank) -> Result<SharedRank, AllocError>
        ensures { IfOk result (λ shared. shared ≡ rank) }
    {
        Ok(SharedRank {
            rank: Arc::new(alloc, rank)?,
        })
    }

    /// The same rank once more, which takes no memory.
    fn share(&self) -> Result<SharedRank, AllocError>
        ensures { IfOk result (λ shared. shared ≡ self.now) }
    {
        Ok(SharedRank {
            rank: Arc::try_clone(&self.rank)?,
        })
    }

    /// The rank.
    pub fn rank(&self) -> &KeptRank
        ensures { result.now ≡ self.now }
    {
        &self.rank
    }
}

/// The ranks of a cluster with the boxes, kept as they were at one time: a rank, and its pages, stand once for all kept
/// clusters in which they are alike. Of the hub its clock alone is kept. Contracts see what they were.
#[derive(Drop)]
pub struct KeptRanks {
    ranks: Vec<SharedRank>,
    clock: Stamp,
    boxes: Vec<[Settled; 16]>,
}

impl Model for KeptRanks {
    ghost use Rattle.cl_replay.specs.Kept.{RanksAt};

    ghost Value = { RanksAt };

    ghost view = { λ k. record { ranks = k.ranks.items; clock = k.clock; boxes = k.boxes.items } };
}

/// A rank is kept, beside an earlier one: what is alike in both stands once.
fn keep_rank(
    alloc: Global,
    rank: &RankState,
    earlier: Option<&SharedRank>,
) -> Result<SharedRank, AllocError>
    ensures { IfOk result (λ kept. kept ≡ rank_of rank.now) }
{
    let kept = match earlier {
        Some(earlier) => rank.keep(alloc, Some(earlier.rank()))?,
        None => rank.keep(alloc, None)?,
    };
    SharedRank::of(alloc, kept)
}

/// All ranks are kept, each beside the earlier one of its number.
fn keep_each(
    alloc: Global,
    ranks: &[RankState],
    earlier: &[SharedRank],
) -> Result<Vec<SharedRank>, AllocError>
    ensures { IfOk result (λ kept. kept.items ≡ map rank_of ranks.now) }
{
    let mut kept = Vec::with_capacity(alloc, ranks.len())?;
    for (n, rank) in ranks.iter().enumerate() {
        kept.push(keep_rank(alloc, rank, earlier.get(n))?)?;
    }
    Ok(kept)
}

/// The same ranks once more.
fn share_ranks(alloc: Global, kept: &[SharedRank]) -> Result<Vec<SharedRank>, AllocError>
    ensures { IfOk result (λ shared. shared.items ≡ kept.now) }
{
    let mut shared = Vec::with_capacity(alloc, kept.len())?;
    for rank in kept {
        shared.push(rank.share()?)?;
    }
    Ok(shared)
}

/// The same ranks in memory of their own.
fn live_ranks(alloc: Global, kept: &[SharedRank]) -> Result<Vec<RankState>, AllocError>
    ensures { IfOk result (λ ranks. map rank_of ranks.items ≡ kept.now) }
{
    let mut ranks = Vec::with_capacity(alloc, kept.len())?;
    for rank in kept {
        ranks.push(rank.rank().live(alloc)?)?;
    }
    Ok(ranks)
}

impl KeptRanks {
    /// The cluster with this hub, in memory of its own, that goes on from here: these ranks stay as they are. The only
    /// error is want of memory.
    pub fn live(&self, alloc: Global, hub: HubState) -> Result<ClusterState, AllocError>
        ensures { IfOk result (λ state. snapshot state ≡ with_hub self.now hub) }
    {
        Ok(ClusterState {
            ranks: live_ranks(alloc, self.ranks.as_slice())?,
            hub,
            clock: self.clock,
            boxes: Vec::from_slice(alloc, self.boxes.as_slice())?,
        })
    }

    /// The rank of this number, the hub's clock and the boxes of a state are again what they were here, its hub is the
    /// one that is given, and its other ranks stay. So a state that came from here, with that hub, by turns of that
    /// rank alone is as it was here. The only error is want of memory, and then nothing changes.
    pub fn restore(
        &self,
        alloc: Global,
        state: &mut ClusterState,
        rank: usize,
        hub: HubState,
    ) -> Result<(), AllocError>
        requires here { rank < length self.now.ranks }
        requires there { rank < length state.old.ranks.items }
        ensures restored { OnOk result (IsRestored (with_hub self.now hub) state.old rank state.new) }
        ensures refused { OnErr result (state.new ≡ state.old) }
    {
        let boxes = Vec::from_slice(alloc, self.boxes.as_slice())?;
        state.put_back(alloc, rank, self.ranks[rank].rank())?;
        state.hub = hub;
        state.clock = self.clock;
        state.boxes = boxes;
        Ok(())
    }

    /// The ranks, in order of their numbers.
    pub fn ranks(&self) -> &[SharedRank]
        ensures { result.now ≡ self.now.ranks }
    {
        self.ranks.as_slice()
    }

    /// The boxes, sixteen a link.
    pub fn boxes(&self) -> &[[Settled; 16]]
        ensures { result.now ≡ self.now.boxes }
    {
        self.boxes.as_slice()
    }
}

impl ClusterState {
    /// The rank of this number is again as it was kept, in memory of its own. The only error is want of memory, and then
    /// nothing changes.
    fn put_back(&mut self, alloc: Global, rank: usize, kept: &KeptRank) -> Result<(), AllocError>
        requires { rank < length self.old.ranks.items }
        ensures ranks { OnOk result (map rank_of self.new.ranks.items
            ≡ slice_set (map rank_of self.old.ranks.items) rank kept.now) }
        ensures refused { OnErr result (self.new ≡ self.old) }
    {
        let own = kept.live(alloc)?;
        self.ranks[rank] = own;
        Ok(())
    }

    /// The ranks as they are now with the hub's clock and the boxes, kept. A page of a rank that is as in the earlier
    /// ones stands once for both. The only error is want of memory.
    pub fn keep_ranks(
        &self,
        alloc: Global,
        earlier: Option<&KeptRanks>,
    ) -> Result<KeptRanks, AllocError>
        ensures { IfOk result (λ kept. kept ≡ ranks_at self.now) }
    {
        let ranks = match earlier {
            Some(earlier) => keep_each(alloc, self.ranks.as_slice(), earlier.ranks.as_slice())?,
            None => keep_each(alloc, self.ranks.as_slice(), &[])?,
        };
        Ok(KeptRanks {
            ranks,
            clock: self.clock,
            boxes: Vec::from_slice(alloc, self.boxes.as_slice())?,
        })
    }

    /// The ranks as they are now with the hub's clock and the boxes, kept beside earlier ones, of which only the rank
    /// of this number has changed: all other ranks are the earlier ones, and stand once for both. Pages of that rank
    /// stand once for it and for the rank `near`, if one is given, where they are alike. The only error is want of
    /// memory.
    pub fn keep_beside(
        &self,
        alloc: Global,
        earlier: &KeptRanks,
        rank: usize,
        near: Option<&SharedRank>,
    ) -> Result<KeptRanks, AllocError>
        requires here { rank < length self.now.ranks.items }
        requires there { rank < length earlier.now.ranks }
        ensures { IfOk result (IsBeside self.now earlier.now.ranks rank) }
    {
        let mut ranks = share_ranks(alloc, earlier.ranks.as_slice())?;
        ranks[rank] = keep_rank(alloc, &self.ranks[rank], near)?;
        Ok(KeptRanks {
            ranks,
            clock: self.clock,
            boxes: Vec::from_slice(alloc, self.boxes.as_slice())?,
        })
    }
}
