//! The state of a whole cluster.

ghost use Rattle.std.specs.Prelude.{◌≡◌, IfOk, map, replicate};
ghost use Rattle.cl_state.specs.Rank.{below, loaded};
ghost use Rattle.cl_state.specs.Room.{rank_of};
ghost use Rattle.cl_machine.specs.Cluster.{loaded_cluster};
ghost use Rattle.cl_replay.specs.Boxes.{vacant};
ghost use Rattle.cl_replay.specs.States.{ClusterStandsFor};
ghost use Rattle.cl_replay.specs.InnerStates.{AreSame, StandsAlike};

use cl_state::RankState;
use mp_hub::HubState;
use mp_types::Stamp;
use part_box::Settled;
use rv_image_types::Image;
use std::alloc::{AllocError, Global};

/// All parts of a cluster between two steps.
#[derive(Drop)]
pub struct ClusterState {
    /// The ranks, by their numbers.
    pub ranks: Vec<RankState>,
    pub hub: HubState,
    /// The hub's clock: the stamp of the last call that it answered, 0 at first.
    pub clock: Stamp,
    /// What stands in each box, by the number of its link, and by its partition there (MPI 4.1,
    /// chapter 4).
    pub boxes: Vec<[Settled; 16]>,
}

/// All ranks of the image as they are loaded, by their numbers. Its text is decoded once for all of them.
fn load_ranks(alloc: Global, image: &Image, count: u8) -> Result<Vec<RankState>, AllocError>
    ensures { IfOk result (λ ranks. map rank_of ranks.items ≡ map (loaded image.now) (below count)) }
{
    let mut ranks = Vec::new(alloc);
    for rank in 0..count {
        let mut state = RankState::load(alloc, image, rank)?;
        state.decode_text(ranks.get(0))?;
        ranks.push(state)?;
    }
    Ok(ranks)
}

/// The boxes of so many links, all empty.
fn no_boxes(alloc: Global, links: usize) -> Result<Vec<[Settled; 16]>, AllocError>
    ensures { IfOk result (λ boxes. boxes.items ≡ replicate links (replicate 16 (vacant 0))) }
{
    let empty = Settled {
        full: false,
        stamp: 0,
        words: [0; 16],
    };
    let mut boxes = Vec::new(alloc);
    for _link in 0..links {
        boxes.push([empty; 16])?;
    }
    Ok(boxes)
}

/// The same ranks in memory of their own.
fn copy_ranks(alloc: Global, ranks: &[RankState]) -> Result<Vec<RankState>, AllocError>
    ensures { IfOk result (λ copies. map rank_of copies.items ≡ map rank_of ranks.now) }
{
    let mut copies = Vec::with_capacity(alloc, ranks.len())?;
    for rank in ranks {
        copies.push(rank.try_copy(alloc)?)?;
    }
    Ok(copies)
}

impl ClusterState {
    /// All ranks of the image as they are loaded, a hub that was never called, and all boxes empty.
    pub fn load(alloc: Global, image: &Image) -> Result<ClusterState, AllocError>
        ensures { IfOk result (λ state. ClusterStandsFor image.now state (loaded_cluster image.now)) }
    {
        let parts = image.parts();
        let links = parts.links.as_slice().len();
        Ok(ClusterState {
            ranks: load_ranks(alloc, image, parts.ranks)?,
            hub: HubState::new(alloc, image)?,
            clock: 0,
            boxes: no_boxes(alloc, links)?,
        })
    }

    /// The same cluster in memory of its own: the same ranks, hub, clock and boxes. A step of one of the two leaves the
    /// other as it was. The only error is want of memory.
    pub fn try_copy(&self, alloc: Global) -> Result<ClusterState, AllocError>
        ensures same { IfOk result (AreSame self.now) }
        ensures stands { IfOk result (StandsAlike self.now) }
    {
        Ok(ClusterState {
            ranks: copy_ranks(alloc, self.ranks.as_slice())?,
            hub: self.hub.try_copy(alloc)?,
            clock: self.clock,
            boxes: Vec::from_slice(alloc, self.boxes.as_slice())?,
        })
    }
}
