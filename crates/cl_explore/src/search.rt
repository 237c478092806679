//! Nodes that were found, and one more.

ghost use Rattle.std.specs.Prelude.{◌≡◌, ◌<◌, ◌%◌, ◌⊎◌, [], IfOk, IfSome, true, length};
ghost use Rattle.cl_deeds.specs.Orders.{in_slot};
ghost use Rattle.cl_state.specs.Room.{rank_of};
ghost use Rattle.cl_replay.specs.Kept.{ranks_at};
ghost use Rattle.cl_order_laws.specs.Closed.{IsDone};
ghost use Rattle.cl_explore.specs.How.{how_in};
ghost use Rattle.cl_explore.specs.Kept.{AreSamePlaces, HaveStayedSince};
ghost use Rattle.cl_explore.specs.Searching.{Adds, Arrives, IsFoundIn};

use crate::candidates::Candidates;
use crate::course::Manner;
use crate::kept::{KeptNode, keep_moved};
use crate::leads::Lead;
use crate::likeness::{is_alike, key_of, key_of_rank};
use cl_contests::Patterns;
use cl_moves::{MoveFault, Standing, is_done};
use cl_replay::{KeptRanks, SharedRank};
use cl_state::RankState;
use std::alloc::{AllocError, Global};

/// The nodes that a search found, and by which keys.
#[derive(Drop)]
pub(crate) struct Search {
    pub nodes: Vec<KeptNode>,
    pub candidates: Candidates,
    /// For each node and the rank that moved to it, by a key of that rank: whose pages may be the same.
    pub moved: Candidates,
    /// From which node to which each move led.
    pub leads: Vec<Lead>,
    /// What ranks asked beside the patterns.
    pub missing: Patterns,
}

/// Whether a rank that has had so many turns is at the same place of the order, or all its harts are stopped.
fn is_same_place(order: &[u8], mine: u64, theirs: u64, rank: &RankState) -> bool
    requires { 0 < length order.now }
    ensures { result ≡ true → (mine % length order.now ≡ theirs % length order.now)
        ⊎ IsDone (in_slot order.now) (rank_of rank.now) }
{
    let count = order.len() as u64;
    mine % count == theirs % count || is_done(rank, order)
}

/// Whether in each rank it is the turn of harts at the same place of the order, unless all its harts are stopped.
fn are_same_places(order: &[u8], standing: &Standing, other: &[u64]) -> bool
    requires { 0 < length order.now }
    ensures { result ≡ true → AreSamePlaces order.now standing.now other.now }
{
    let ranks = standing.cluster.ranks.as_slice();
    if standing.had.len() != other.len() || ranks.len() != other.len() {
        return false;
    }
    for rank in 0..other.len() {
        if !is_same_place(order, standing.had[rank], other[rank], &ranks[rank]) {
            return false;
        }
    }
    true
}

impl Search {
    /// No nodes. The only error is want of memory.
    pub(crate) fn new(alloc: Global) -> Result<Search, AllocError>
        ensures nodes { IfOk result (λ search. search.nodes.items ≡ []) }
        ensures leads { IfOk result (λ search. search.leads.items ≡ []) }
    {
        Ok(Search {
            nodes: Vec::new(alloc),
            candidates: Candidates::new(alloc)?,
            moved: Candidates::new(alloc)?,
            leads: Vec::new(alloc),
            missing: Patterns::new(alloc),
        })
    }

    /// Whether the node of this number is alike a standing, at the same places.
    fn is_at(
        &self,
        course: &Manner<'_>,
        standing: &Standing,
        node: usize,
    ) -> Result<bool, AllocError>
        requires { 0 < length course.now.order.now }
        ensures { IfOk result (λ at. at ≡ true → IsFoundIn (how_in course.now) course.now.order.now self.now.nodes.items
            standing.now node) }
    {
        if node >= self.nodes.len() {
            return Ok(false);
        }
        let kept = &self.nodes[node];
        if !are_same_places(course.order, standing, kept.had.as_slice()) {
            return Ok(false);
        }
        is_alike(course.alloc, course.way, standing, kept)
    }

    /// A node that is alike a standing, at the same places: of those that have its key.
    fn finds(
        &self,
        course: &Manner<'_>,
        standing: &Standing,
        key: u64,
    ) -> Result<Option<usize>, AllocError>
        requires { 0 < length course.now.order.now }
        ensures { IfOk result (λ found. IfSome found
            (IsFoundIn (how_in course.now) course.now.order.now self.now.nodes.items standing.now)) }
    {
        let mut next = self.candidates.last(key);
        for _node in 0..self.nodes.len() {
            let Some(node) = next else {
                return Ok(None);
            };
            if self.candidates.has_key(node, key) && self.is_at(course, standing, node)? {
                return Ok(Some(node));
            }
            next = self.candidates.earlier(node);
        }
        Ok(None)
    }

    /// The rank of this number in the node that was last found by a move of a rank with this key, or else in the node of
    /// the number `parent`.
    fn near(&self, parent: usize, rank: usize, key: u64) -> Option<&SharedRank> {
        let node = match self.moved.last(key) {
            Some(node) if self.moved.has_key(node, key) => node,
            _ => parent,
        };
        self.nodes.get(node)?.cluster.ranks().get(rank)
    }

    /// The ranks of a standing that came from the node of the number `parent` by turns of this rank, kept.
    fn keep(
        &self,
        course: &Manner<'_>,
        standing: &Standing,
        parent: usize,
        rank: usize,
        key: u64,
    ) -> Result<KeptRanks, AllocError>
        ensures { IfOk result (λ kept. HaveStayedSince self.now.nodes.items parent standing.now
            → kept ≡ ranks_at standing.now.cluster) }
    {
        if parent >= self.nodes.len() {
            return standing.cluster.keep_ranks(course.alloc, None);
        }
        let near = self.near(parent, rank, key);
        let earlier = &self.nodes[parent];
        keep_moved(course.alloc, standing, earlier, rank, near)
    }

    /// A standing, of which this is the key, is kept as one more node. The turns that it notes, most of them of this rank, led to
    /// it from the node of the number `parent`. Answers the number of the new node.
    pub(crate) fn add(
        &mut self,
        course: &Manner<'_>,
        standing: &Standing,
        key: u64,
        parent: usize,
        rank: usize,
    ) -> Result<usize, MoveFault>
        ensures adds { IfOk result (λ number. Adds course.now.order.now self.old.nodes.items parent standing.now
            self.new.nodes.items number) }
        ensures leads { self.new.leads ≡ self.old.leads }
    {
        let own = key_of_rank(standing, rank);
        let cluster = self.keep(course, standing, parent, rank, own)?;
        let kept = KeptNode::of(course.alloc, standing, cluster, parent)?;
        let number = self.nodes.len();
        self.nodes.push(kept)?;
        self.candidates.add(key)?;
        self.moved.add(own)?;
        Ok(number)
    }

    /// A standing is kept as one more node, unless it is alike one, at the same places. The turns that it notes, of this
    /// rank, led to it from the node of the number `parent`. Answers the number of the node.
    pub(crate) fn arrive(
        &mut self,
        course: &Manner<'_>,
        standing: &Standing,
        parent: usize,
        rank: usize,
    ) -> Result<usize, MoveFault>
        requires { 0 < length course.now.order.now }
        ensures arrives { IfOk result (Arrives (how_in course.now) course.now.order.now self.old.nodes.items parent
            standing.now self.new.nodes.items) }
        ensures leads { self.new.leads ≡ self.old.leads }
    {
        let key = key_of(course.way, standing);
        let found = self.finds(course, standing, key)?;
        if let Some(node) = found {
            return Ok(node);
        }
        self.add(course, standing, key, parent, rank)
    }
}
