//! Turns that a rank can take before whatever others do: calls for what is there.

ghost use Rattle.std.specs.Prelude.{◌≡◌, ◌<◌, IfOk, IsTrue, OnOk, length};
ghost use Rattle.cl_order_laws.specs.SureAsks.{IsReady};
ghost use Rattle.cl_moves.specs.Sure.{GoesSurely, IsSureCallIfSome, IsSureIfSome, IsSureNext};

use crate::faults::MoveFault;
use crate::single::Whose;
use crate::standing::Standing;
use crate::turns::calling;
use cl_journal::CLOCK_MAX;
use cl_machine::{KindRef, Step};
use cl_replay::ClusterState;
use cl_state::{Ask, RankState};
use mp_types::{Reply, Request};
use rv_image_types::RANKS_MAX;
use std::alloc::Global;

/// How often each rank makes such calls at once: one that looks at a message for ever would make no last one.
const ROUNDS: u64 = 64;

/// Whether the reply is what the request asks for, which was there.
fn is_ready(request: &Request, reply: &Reply) -> bool
    ensures { IsTrue result → IsReady request.now reply.now }
{
    match (request, reply) {
        (Request::Collect { .. }, Reply::Got(_)) => true,
        (Request::Finished { .. }, Reply::Done) => true,
        (Request::All { .. }, Reply::AllGot(_)) => true,
        (Request::Probe { .. }, Reply::Seen(_)) => true,
        (Request::Cut { .. }, Reply::Cut { .. }) => true,
        _ => false,
    }
}

/// Whether the hub may tell that what is asked for is there. Nothing depends on it but time.
fn may_be_ready(state: &ClusterState, rank: u8, request: &Request) -> bool {
    match request {
        Request::Collect { .. }
        | Request::Finished { .. }
        | Request::All { .. }
        | Request::Probe { .. }
        | Request::Cut { .. } => !state.hub.asks_in_vain(rank, request),
        _ => false,
    }
}

/// The turn, if it is a call for what is there.
fn if_ready(turn: Step, request: &Request) -> Option<Step>
    ensures { IsSureIfSome turn request.now result }
{
    let ready = match turn.kind() {
        KindRef::Hub(reply) => is_ready(request, reply),
        KindRef::Bare(_) => false,
    };
    if ready { Some(turn) } else { None }
}

impl Standing {
    /// The turn of a hart that makes this call, if it is a call for what is there.
    fn sure_call(
        &self,
        alloc: Global,
        own: &RankState,
        whose: Whose,
        request: &Request,
    ) -> Result<Option<Step>, MoveFault>
        requires { whose.clock ≡ own.now.clock }
        ensures { IfOk result (IsSureCallIfSome self.now whose request.now) }
    {
        if !may_be_ready(&self.cluster, whose.rank, request) {
            return Ok(None);
        }
        if own.clock >= CLOCK_MAX || self.cluster.clock >= CLOCK_MAX {
            return Ok(None);
        }
        let mut turns = calling(alloc, whose, &self.cluster.hub, self.cluster.clock, request)?;
        match turns.pop() {
            None => Ok(None),
            Some(turn) => Ok(if_ready(turn, request)),
        }
    }

    /// The next turn of a rank, if it is a call for what is there.
    fn next_sure(&self, alloc: Global, rank: u8, order: &[u8]) -> Result<Option<Step>, MoveFault>
        requires { 0 < length order.now }
        ensures { IfOk result (IsSureNext order.now self.now rank) }
    {
        let Some(hart) = self.next_hart(rank, order) else {
            return Ok(None);
        };
        let place = usize::from(rank);
        if place >= self.cluster.ranks.len() {
            return Ok(None);
        }
        let own = &self.cluster.ranks[place];
        if usize::from(hart) >= own.harts.len() {
            return Ok(None);
        }
        let clock = own.clock;
        match own.ask(hart)? {
            Ask::Hub(request) => self.sure_call(alloc, own, Whose { rank, hart, clock }, &request),
            _ => Ok(None),
        }
    }

    /// Takes the next turn of a rank, if it is a call for what is there, and behind it turns that need only the rank, at
    /// most so many. Answers whether it took one.
    ///
    /// Refusals: Clock, Memory. Then the standing may be anything.
    fn take_sure(
        &mut self,
        alloc: Global,
        rank: u8,
        order: &[u8],
        most: u64,
    ) -> Result<bool, MoveFault>
        requires { 0 < length order.now }
        ensures { OnOk result (GoesSurely order.now self.old self.new) }
    {
        let Some(turn) = self.next_sure(alloc, rank, order)? else {
            return Ok(false);
        };
        if !self.take(turn)? {
            return Ok(false);
        }
        self.go_ahead(alloc, rank, order, most)?;
        Ok(true)
    }

    /// The same of each rank. Answers whether one took one.
    fn sure_round(&mut self, alloc: Global, order: &[u8], most: u64) -> Result<bool, MoveFault>
        requires { 0 < length order.now }
        ensures { OnOk result (GoesSurely order.now self.old self.new) }
    {
        let mut went = false;
        for rank in 0..RANKS_MAX {
            if self.take_sure(alloc, rank, order, most)? {
                went = true;
            }
        }
        Ok(went)
    }

    /// Lets each rank take calls for what is there, some 64 at most, and behind each its turns that need only itself, at
    /// most so many: no turn of another rank changes where they lead.
    ///
    /// Refusals: Clock, Memory. Then the standing may be anything.
    pub fn go_surely(&mut self, alloc: Global, order: &[u8], most: u64) -> Result<(), MoveFault>
        requires { 0 < length order.now }
        ensures { OnOk result (GoesSurely order.now self.old self.new) }
    {
        for _round in 0..ROUNDS {
            if !self.sure_round(alloc, order, most)? {
                return Ok(());
            }
        }
        Ok(())
    }
}
