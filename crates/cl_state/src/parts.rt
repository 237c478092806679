//! The parts of a rank, two by two.

ghost use Rattle.std.specs.Prelude.{◌≡◌, [], vec_len};

use crate::state::{RankParts, RankState};
use cl_calls::Site;
use mp_request::Requests;
use mp_types::Stamp;
use part_phase::Phases;
use rv_hart::Hart;
use rv_memory::RankMemory;
use std::alloc::Global;

/// A rank's memory and its harts.
#[derive(Drop)]
pub(crate) struct Core {
    pub(crate) memory: RankMemory,
    pub(crate) harts: Vec<Hart>,
}

/// A rank's requests and its phases.
#[derive(Drop)]
pub(crate) struct Transfers {
    pub(crate) requests: Requests,
    pub(crate) phases: Phases,
}

impl RankState {
    ghost use Rattle.cl_state.specs.Room.{rank_of};

    /// A rank with these parts, with no output, at clock 0.
    pub(crate) fn of(alloc: Global, site: Site, core: Core, transfers: Transfers) -> RankState
        ensures rank { rank_of result
            ≡ record {
              site = site;
              memory = core.memory;
              harts = core.harts.items;
              requests = transfers.requests;
              phases = transfers.phases;
              out = [];
              clock = 0;
            } }
        ensures harts { vec_len result.harts ≡ vec_len core.harts }
    {
        let Core { memory, harts } = core;
        let Transfers { requests, phases } = transfers;
        let parts = RankParts {
            site,
            memory,
            harts,
            requests,
            phases,
        };
        RankState::new(alloc, parts)
    }

    /// The same rank with this output, at this clock.
    pub(crate) fn at(self, out: Vec<u8>, clock: Stamp) -> RankState
        ensures rank { rank_of result ≡ record (rank_of self) { out = out.items; clock = clock } }
        ensures harts { vec_len result.harts ≡ vec_len self.harts }
    {
        let mut rank = self;
        rank.out = out;
        rank.clock = clock;
        rank
    }
}
