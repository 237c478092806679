//! A rank that is kept as it was at one time.

ghost use Rattle.std.specs.Prelude.{◌≡◌, ◌↔◌, IfOk, IsTrue};

use crate::parts::{Core, Transfers};
use crate::same_harts::are_same_harts;
use crate::same_requests::are_same_slots;
use crate::state::RankState;
use cl_calls::Site;
use mp_request::{KeptRequests, Requests};
use mp_types::Stamp;
use part_phase::Phases;
use rv_hart::Hart;
use rv_memory::KeptMemory;
use std::alloc::{AllocError, Global};
use std::marker::Model;
use std::sync::Arc;

/// What is kept of a rank beside its site and its clock.
#[derive(Drop)]
pub(crate) struct KeptBody {
    memory: KeptMemory,
    harts: Vec<Hart>,
    requests: Arc<KeptRequests>,
    phases: Phases,
    out: Vec<u8>,
}

/// A rank that is kept as it was at one time: what it holds beside its site and its clock stands once for all kept ranks in
/// which that is the same, and else its pages and its requests do. Contracts see the rank.
#[derive(Drop)]
pub struct KeptRank {
    site: Site,
    body: Arc<KeptBody>,
    clock: Stamp,
}

impl Model for KeptRank {
    ghost use Rattle.cl_state.specs.Rank.{Rank};

    ghost Value = { Rank };

    ghost view = { λ k. record {
      site = k.site;
      memory = k.body.value.memory;
      harts = k.body.value.harts.items;
      requests = k.body.value.requests.value;
      phases = k.body.value.phases;
      out = k.body.value.out.items;
      clock = k.clock;
    } };
}

/// Requests are kept: as the earlier ones, where those are the same, and else as a copy.
fn keep_requests(
    alloc: Global,
    requests: &Requests,
    earlier: Option<&KeptBody>,
) -> Result<Arc<KeptRequests>, AllocError>
    ensures { IfOk result (λ kept. kept.value ≡ requests.now) }
{
    if let Some(before) = earlier {
        if are_same_slots(before.requests.front(), requests.front()) {
            return Arc::try_clone(&before.requests);
        }
    }
    let kept = requests.keep(alloc)?;
    Ok(Arc::new(alloc, kept)?)
}

/// What is copied of a rank that is kept.
#[derive(Drop)]
struct Copied {
    harts: Vec<Hart>,
    phases: Phases,
    out: Vec<u8>,
}

impl Copied {
    /// The harts, the phases and the output of a rank, copied.
    fn of(alloc: Global, rank: &RankState) -> Result<Copied, AllocError>
        ensures harts { IfOk result (λ copied. copied.harts.items ≡ rank.now.harts.items) }
        ensures phases { IfOk result (λ copied. copied.phases ≡ rank.now.phases) }
        ensures out { IfOk result (λ copied. copied.out.items ≡ rank.now.out.items) }
    {
        let out = Vec::from_slice(alloc, rank.out.as_slice())?;
        let harts = Vec::from_slice(alloc, rank.harts.as_slice())?;
        let phases = rank.phases.try_copy(alloc)?;
        Ok(Copied { harts, phases, out })
    }
}

impl KeptBody {
    ghost use Rattle.cl_state.specs.Room.{rank_of};
    ghost use Rattle.cl_state.specs.InnerKept.{IsBodyOf};

    /// What a rank holds is kept. A page that is as in the earlier one stands once for both, and so do the requests, if all
    /// of them are. The only error is want of memory.
    fn of(
        alloc: Global,
        rank: &RankState,
        earlier: Option<&KeptBody>,
    ) -> Result<KeptBody, AllocError>
        ensures { IfOk result (λ body. IsBodyOf body (rank_of rank.now)) }
    {
        let requests = keep_requests(alloc, &rank.requests, earlier)?;
        let copied = Copied::of(alloc, rank)?;
        let before = match earlier {
            Some(kept) => Some(&kept.memory),
            None => None,
        };
        let memory = rank.memory.keep(alloc, before)?;
        let Copied { harts, phases, out } = copied;
        Ok(KeptBody {
            memory,
            harts,
            requests,
            phases,
            out,
        })
    }

    /// What a rank holds is kept in a place of its own.
    fn alone(
        alloc: Global,
        rank: &RankState,
        earlier: Option<&KeptBody>,
    ) -> Result<Arc<KeptBody>, AllocError>
        ensures { IfOk result (λ body. IsBodyOf body.value (rank_of rank.now)) }
    {
        let body = KeptBody::of(alloc, rank, earlier)?;
        Ok(Arc::new(alloc, body)?)
    }

    /// Whether a rank holds the same. It takes no memory.
    fn is_of(&self, rank: &RankState) -> bool
        ensures { IsTrue result → IsBodyOf self.now (rank_of rank.now) }
    {
        self.phases.is_same(&rank.phases)
            && self.out.as_slice() == rank.out.as_slice()
            && are_same_harts(self.harts.as_slice(), rank.harts.as_slice())
            && are_same_slots(self.requests.front(), rank.requests.front())
            && self.memory.is_of(&rank.memory)
    }

    /// What a rank holds is kept: as the earlier one, where that is the same, and else by itself. The only error is want of
    /// memory.
    fn keep(
        alloc: Global,
        rank: &RankState,
        earlier: Option<&Arc<KeptBody>>,
    ) -> Result<Arc<KeptBody>, AllocError>
        ensures { IfOk result (λ body. IsBodyOf body.value (rank_of rank.now)) }
    {
        let Some(before) = earlier else {
            return KeptBody::alone(alloc, rank, None);
        };
        if before.is_of(rank) {
            return Arc::try_clone(before);
        }
        KeptBody::alone(alloc, rank, Some(before))
    }

    /// The memory and the harts, in memory of their own.
    fn live_core(&self, alloc: Global) -> Result<Core, AllocError>
        ensures memory { IfOk result (λ core. core.memory ≡ self.now.memory) }
        ensures harts { IfOk result (λ core. core.harts.items ≡ self.now.harts.items) }
    {
        let harts = Vec::from_slice(alloc, self.harts.as_slice())?;
        let memory = self.memory.live(alloc)?;
        Ok(Core { memory, harts })
    }

    /// The requests and the phases, in memory of their own.
    fn live_transfers(&self, alloc: Global) -> Result<Transfers, AllocError>
        ensures requests { IfOk result (λ transfers. transfers.requests ≡ self.now.requests.value) }
        ensures phases { IfOk result (λ transfers. transfers.phases ≡ self.now.phases) }
    {
        let phases = self.phases.try_copy(alloc)?;
        let requests = self.requests.live(alloc)?;
        Ok(Transfers { requests, phases })
    }
}

impl KeptRank {
    ghost use Rattle.cl_state.specs.Room.{rank_of};
    ghost use Rattle.cl_state.specs.Same.{IsSameBeside};

    /// The same rank in memory of its own, that goes on from here: this one stays as it is. The only error is want of
    /// memory.
    pub fn live(&self, alloc: Global) -> Result<RankState, AllocError>
        ensures { IfOk result (λ rank. rank_of rank ≡ self.now) }
    {
        let body = &*self.body;
        let out = Vec::from_slice(alloc, body.out.as_slice())?;
        let transfers = body.live_transfers(alloc)?;
        let site = self.site.try_copy(alloc)?;
        let core = body.live_core(alloc)?;
        let rank = RankState::of(alloc, site, core, transfers);
        Ok(rank.at(out, self.clock))
    }

    /// The harts, in order of their numbers.
    pub fn harts(&self) -> &[Hart]
        ensures { result.now ≡ self.now.harts }
    {
        self.body.harts.as_slice()
    }

    /// The requests.
    pub fn requests(&self) -> &KeptRequests
        ensures { result.now ≡ self.now.requests }
    {
        &self.body.requests
    }

    /// Whether a rank has the same memory, the same phases and the same output. It takes no memory.
    pub fn is_same_beside(&self, rank: &RankState) -> bool
        ensures { IsTrue result ↔ IsSameBeside self.now (rank_of rank.now) }
    {
        self.body.phases.is_same(&rank.phases)
            && self.body.out.as_slice() == rank.out.as_slice()
            && self.body.memory.is_of(&rank.memory)
    }
}

impl RankState {
    ghost use Rattle.cl_state.specs.Room.{rank_of};

    /// The rank as it is now, kept: its parts, output and clock, and no room for the next turn. Where it holds the same as
    /// the earlier one, that stands once for both, and else each page that is as in the earlier one does, and so do the
    /// requests, if all of them are. The only error is want of memory.
    pub fn keep(&self, alloc: Global, earlier: Option<&KeptRank>) -> Result<KeptRank, AllocError>
        ensures { IfOk result (λ kept. kept ≡ rank_of self.now) }
    {
        let before = match earlier {
            Some(kept) => Some(&kept.body),
            None => None,
        };
        let body = KeptBody::keep(alloc, self, before)?;
        let site = self.site.try_copy(alloc)?;
        Ok(KeptRank {
            site,
            body,
            clock: self.clock,
        })
    }
}
