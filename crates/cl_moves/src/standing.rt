//! Where a search stands, and how it goes on.

ghost use Rattle.std.specs.Prelude.{◌≡◌, ◌<◌, ◌++◌, ◌∷◌, [], IfOk, OnOk, length, replicate, true};
ghost use Rattle.cl_moves.specs.Ahead.{GoesAhead, IsAloneIfSome, IsAloneNext};
ghost use Rattle.cl_moves.specs.Cycles.{GoesRoundAt, IsBackAt, KeepsAt};
ghost use Rattle.cl_moves.specs.Standing.{IsNextHart, IsStart, Takes};
ghost use Rattle.cl_moves.specs.Whole.{Follows, IsAskedBy, requested};

use crate::cycles::{Alone, Watch};
use crate::ends::is_done;
use crate::faults::MoveFault;
use cl_journal::CLOCK_MAX;
use cl_machine::{KindRef, Step};
use cl_replay::{ClusterState, StepFault};
use cl_state::Ask;
use cl_trace::Bare;
use mp_alike::WholeHub;
use mp_types::Request;
use rv_image_types::{Image, RANKS_MAX};
use std::alloc::{AllocError, Global};

/// Where a search stands: a cluster, how many turns each of its ranks has had, and the turns that led there from where the
/// search began to note them.
#[derive(Drop)]
pub struct Standing {
    pub cluster: ClusterState,
    /// The cluster's hub with each post ever made, by which likeness is told: the other hub forgets those that are over.
    pub whole: WholeHub,
    pub had: Vec<u64>,
    pub steps: Vec<Step>,
}

/// The kind of a turn that needs only its rank, of a hart that asks this. One that waits for a partition of its own is
/// left out: it may wait for ever.
fn alone_kind(ask: &Ask) -> Option<Bare>
    ensures { IsAloneIfSome ask.now result }
{
    match ask {
        Ask::Plain => Some(Bare::Plain),
        Ask::Local => Some(Bare::Local),
        Ask::Idle => Some(Bare::Idle),
        _ => None,
    }
}

/// What the hub is called for, if it is called.
fn request_of(ask: Ask) -> Option<Request>
    ensures { result ≡ requested ask }
{
    match ask {
        Ask::Hub(request) => Some(request),
        _ => None,
    }
}

/// A hub has answered what it was called for, if it was called.
fn follow(whole: &mut WholeHub, rank: u8, request: Option<Request>) -> Result<(), AllocError>
    ensures { OnOk result (Follows whole.old rank request whole.new) }
{
    if let Some(request) = request {
        whole.answer(rank, &request)?;
    }
    Ok(())
}

/// So many counts of no turns.
fn none_had(alloc: Global, ranks: usize) -> Result<Vec<u64>, AllocError>
    ensures { IfOk result (λ had. had.items ≡ replicate ranks 0) }
{
    let mut had = Vec::new(alloc);
    for _rank in 0..ranks {
        had.push(0)?;
    }
    Ok(had)
}

impl Standing {
    /// The loaded cluster of the image, before the first turn.
    pub fn load(alloc: Global, image: &Image) -> Result<Standing, AllocError>
        ensures { IfOk result (IsStart image.now) }
    {
        // ghost: brings into scope that the image has few ranks; no effect at run time
        let _parts = image.parts();
        let cluster = ClusterState::load(alloc, image)?;
        let had = none_had(alloc, cluster.ranks.len())?;
        Ok(Standing {
            cluster,
            whole: WholeHub::new(alloc, image)?,
            had,
            steps: Vec::new(alloc),
        })
    }

    /// What the hub is asked by a turn that calls it, if this one does.
    fn asked_by(&self, turn: &Step) -> Result<Option<Request>, AllocError>
        ensures { IfOk result (IsAskedBy self.now.cluster turn.now) }
    {
        let rank = usize::from(turn.rank());
        let KindRef::Hub(_) = turn.kind() else {
            return Ok(None);
        };
        if rank >= self.cluster.ranks.len() {
            return Ok(None);
        }
        let own = &self.cluster.ranks[rank];
        if usize::from(turn.hart()) >= own.harts.len() {
            return Ok(None);
        }
        Ok(request_of(own.ask(turn.hart())?))
    }

    /// Takes a turn, and notes it. False where the machine has no such turn, and then the standing may be anything.
    ///
    /// Refusals: Clock where the rank has had 2^64 - 1 turns, Memory. Then it may be anything too.
    pub fn take(&mut self, turn: Step) -> Result<bool, MoveFault>
        ensures takes { IfOk result (Takes self.old turn self.new) }
        ensures noted { IfOk result (λ took. took ≡ true → self.new.steps.items ≡ self.old.steps.items ++ turn ∷ []) }
    {
        let rank = usize::from(turn.rank());
        if rank >= self.had.len() {
            return Ok(false);
        }
        let had = self.had[rank];
        if had == u64::MAX {
            return Err(MoveFault::Clock);
        }
        let request = self.asked_by(&turn)?;
        match self.cluster.step(&turn) {
            Ok(()) => {}
            Err(StepFault::NotAStep) => return Ok(false),
            Err(StepFault::Memory) => return Err(MoveFault::Memory),
        }
        follow(&mut self.whole, turn.rank(), request)?;
        self.had[rank] = had + 1;
        self.steps.push(turn)?;
        Ok(true)
    }

    /// The hart whose turn is next in a rank, if the rank is there.
    pub fn next_hart(&self, rank: u8, order: &[u8]) -> Option<u8>
        requires { 0 < length order.now }
        ensures { IsNextHart order.now self.now rank result }
    {
        let had = *self.had.get(usize::from(rank))?;
        Some(order[(had % order.len() as u64) as usize])
    }

    /// The next turn of a rank, if it needs only the rank, and not all harts of the order are stopped.
    fn next_alone(&self, rank: u8, order: &[u8]) -> Result<Option<Step>, MoveFault>
        requires { 0 < length order.now }
        ensures { IfOk result (IsAloneNext order.now self.now rank) }
    {
        let place = usize::from(rank);
        if place >= self.cluster.ranks.len() {
            return Ok(None);
        }
        let own = &self.cluster.ranks[place];
        let Some(hart) = self.next_hart(rank, order) else {
            return Ok(None);
        };
        if usize::from(hart) >= own.harts.len() || own.clock >= CLOCK_MAX {
            return Ok(None);
        }
        let ask = own.ask(hart)?;
        let Some(kind) = alone_kind(&ask) else {
            return Ok(None);
        };
        if is_done(own, order) {
            return Ok(None);
        }
        Ok(Some(Step::bare(rank, hart, own.clock + 1, kind)))
    }

    /// Shows a rank that is watched, if the first place of the order is next in it. Answers whether it holds what it held at
    /// such a place before, as far as that was kept. Only want of memory is refused.
    pub fn is_back(
        &self,
        alloc: Global,
        rank: u8,
        order: &[u8],
        watch: &mut Watch,
    ) -> Result<bool, AllocError>
        requires { 0 < length order.now }
        ensures back { IfOk result (λ back. back ≡ true → IsBackAt order.now self.now rank watch.old) }
        ensures kept { OnOk result (KeepsAt order.now self.now rank watch.old watch.new) }
    {
        let place = usize::from(rank);
        if place >= self.had.len() || place >= self.cluster.ranks.len() {
            return Ok(false);
        }
        let had = self.had[place];
        if had % order.len() as u64 != 0 {
            return Ok(false);
        }
        let own = &self.cluster.ranks[place];
        watch.is_back(alloc, own)
    }

    /// Takes turns of a rank that need only the rank, at most so many, until it comes back to where it was.
    ///
    /// Refusals: Clock, Memory. Then the standing may be anything.
    pub fn go_ahead(
        &mut self,
        alloc: Global,
        rank: u8,
        order: &[u8],
        most: u64,
    ) -> Result<Alone, MoveFault>
        requires { 0 < length order.now }
        ensures ahead { OnOk result (GoesAhead order.now self.old self.new) }
        ensures round { IfOk result (λ how. how ≡ Alone.Round → GoesRoundAt order.now self.old self.new rank) }
    {
        let mut watch = Watch::new();
        for _turn in 0..most {
            let Some(turn) = self.next_alone(rank, order)? else {
                return Ok(Alone::Done);
            };
            if !self.take(turn)? {
                return Ok(Alone::Done);
            }
            if self.is_back(alloc, rank, order, &mut watch)? {
                return Ok(Alone::Round);
            }
        }
        Ok(Alone::Long)
    }

    /// Lets each rank take its turns that need only itself, at most so many, until it comes back to where it was. Answers the
    /// first rank that took as many, if there is one.
    ///
    /// Refusals: Clock, Memory. Then the standing may be anything.
    pub fn settle(
        &mut self,
        alloc: Global,
        order: &[u8],
        most: u64,
    ) -> Result<Option<u8>, MoveFault>
        requires { 0 < length order.now }
        ensures { OnOk result (GoesAhead order.now self.old self.new) }
    {
        let mut long = None;
        for rank in 0..RANKS_MAX {
            let how = self.go_ahead(alloc, rank, order, most)?;
            if how.is_long() && long.is_none() {
                long = Some(rank);
            }
        }
        Ok(long)
    }
}
