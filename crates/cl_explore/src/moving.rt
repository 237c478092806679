//! All moves of a node.

ghost use Rattle.std.specs.Prelude.{◌≡◌, ◌<◌, IfErr, IfOk, OnOk, Some, is_some, length, slice_get, true};
ghost use Rattle.std.specs.Option.{option_map};
ghost use Rattle.rv_image_types.specs.declared.images.ImageParts.{ImageParts};
ghost use Rattle.cl_order_laws.specs.Closed.{Node};
ghost use Rattle.cl_moves.specs.Standing.{StandsAt};
ghost use Rattle.cl_rests.specs.Telling.{TellsNeed, TellsResting};
ghost use Rattle.cl_explore.specs.How.{IsFitFor, IsHaltOf, how_in, waits_in};
ghost use Rattle.cl_explore.specs.Kept.{IsLiveOf};
ghost use Rattle.cl_explore.specs.Searching.{ClosesRank, Goes, GoesEach, GoesOn, IsVisited, KeepsOf};
ghost use Rattle.cl_explore.specs.declared.course.Way.TheVariants as ways;
ghost use Rattle.cl_explore.specs.declared.kept.KeptNode.{KeptNode as KeptView};

use crate::course::{Manner, Way, may_wait};
use crate::halt::Halt;
use crate::leads::Lead;
use crate::search::Search;
use cl_contests::{Patterns, go_first, is_first_hart, is_fit};
use cl_deadlock::deadlock;
use cl_machine::Step;
use cl_moves::{Standing, is_done, is_end, turns_of};
use cl_rests::{RankSet, needing, resting_ranks};
use std::alloc::AllocError;

/// What is known of a node once its moves were made.
#[derive(Drop)]
pub(crate) struct Visit {
    /// Whether nobody goes on there.
    pub end: bool,
    /// The most ranks that are stuck together there, if a hart of theirs waits.
    pub stuck: Option<Vec<u8>>,
    /// The most ranks that are held up together there, if one of them rests and waits for nothing else. They are looked for
    /// only where standard sends may wait for their receives.
    pub need: Option<Vec<u8>>,
    /// The first rank of which a move led to a new node by more turns of its own than it was let take at once.
    pub long: Option<u8>,
    /// The ranks that rest there, where standard sends may wait for their receives: else they aren't looked for.
    pub resting: RankSet,
}

/// The first of two, if there is one.
fn first_of(one: Option<u8>, other: Option<u8>) -> Option<u8> {
    match one {
        None => other,
        Some(rank) => Some(rank),
    }
}

/// Whether one of the two is.
fn either(one: bool, other: bool) -> bool {
    one || other
}

/// Whether a rank that took fewer turns by itself than it was let, or not, came to a node behind the first so many.
fn is_new_long(fewer: bool, to: usize, count: usize) -> bool {
    !fewer && to >= count
}

/// The rank, where it would take more turns by itself.
fn if_long(rank: u8, long: bool) -> Option<u8> {
    if long { Some(rank) } else { None }
}

/// Takes turns that nobody contests, one after another, where this rank moved, or where none has yet. Answers the first
/// rank that would take more by itself, if there is one. What is asked beside the patterns is added to `missing`.
fn go_uncontested(
    course: &Manner<'_>,
    live: &mut Standing,
    whose: Option<u8>,
    missing: &mut Patterns,
) -> Result<Option<u8>, Halt>
    requires order { 0 < length course.now.order.now }
    requires way { course.now.way ≡ ways.First }
    ensures on { OnOk result (GoesOn (how_in course.now) course.now.order.now live.old live.new) }
    ensures halt { IfErr result (IsHaltOf course.now.way) }
{
    if !is_first_hart(course.order) {
        return Err(Halt::Outside);
    }
    let went = go_first(
        course.alloc,
        live,
        course.most,
        whose,
        course.patterns,
        missing,
    )?;
    if !went.within {
        return Err(Halt::Outside);
    }
    Ok(went.long)
}

/// Takes the turns behind one of this rank that are taken at once. Answers whether the rank took fewer by itself than it
/// was let.
fn go_on(
    course: &Manner<'_>,
    live: &mut Standing,
    rank: u8,
    missing: &mut Patterns,
) -> Result<bool, Halt>
    requires { 0 < length course.now.order.now }
    ensures on { OnOk result (GoesOn (how_in course.now) course.now.order.now live.old live.new) }
    ensures halt { IfErr result (IsHaltOf course.now.way) }
{
    match course.way {
        Way::Plainly => {
            let how = live.go_ahead(course.alloc, rank, course.order, course.most)?;
            Ok(!how.is_long())
        }
        Way::AtOnce => {
            let how = live.go_ahead(course.alloc, rank, course.order, course.most)?;
            live.go_surely(course.alloc, course.order, course.most)?;
            Ok(!how.is_long())
        }
        Way::First => {
            let long = go_uncontested(course, live, Some(rank), missing)?;
            Ok(long.is_none())
        }
    }
}

/// Lets each rank take its turns that are taken at once. Answers the first rank that would take more by itself, if there
/// is one.
pub(crate) fn settle(
    course: &Manner<'_>,
    live: &mut Standing,
    missing: &mut Patterns,
) -> Result<Option<u8>, Halt>
    requires { 0 < length course.now.order.now }
    ensures on { OnOk result (GoesOn (how_in course.now) course.now.order.now live.old live.new) }
    ensures halt { IfErr result (IsHaltOf course.now.way) }
{
    match course.way {
        Way::Plainly => Ok(live.settle(course.alloc, course.order, course.most)?),
        Way::AtOnce => {
            let long = live.settle(course.alloc, course.order, course.most)?;
            live.go_surely(course.alloc, course.order, course.most)?;
            Ok(long)
        }
        Way::First => go_uncontested(course, live, None, missing),
    }
}

/// Refuses a standing from which not all ranks may be let go, where that matters.
fn check_fit(course: &Manner<'_>, live: &Standing) -> Result<(), Halt>
    ensures fit { IfOk result (λ done. (image : ImageParts) (here : Node) → StandsAt image live.now here
        → IsFitFor (how_in course.now) here.cluster) }
    ensures halt { IfErr result (IsHaltOf course.now.way) }
{
    match course.way {
        Way::Plainly | Way::AtOnce => Ok(()),
        Way::First => {
            if is_fit(live, course.patterns)? {
                return Ok(());
            }
            Err(Halt::Outside)
        }
    }
}

/// The ranks that need buffers at a standing, where standard sends may wait for their receives. The only error is want of
/// memory.
pub(crate) fn needing_in(
    course: &Manner<'_>,
    live: &Standing,
) -> Result<Option<Vec<u8>>, AllocError>
    ensures need { IfOk result (λ found. waits_in (how_in course.now) ≡ true
        → TellsNeed live.now (option_map (λ ranks. ranks.items) found)) }
    ensures waits { IfOk result (λ found. is_some found ≡ true → waits_in (how_in course.now) ≡ true) }
{
    if !may_wait(course) {
        return Ok(None);
    }
    needing(course.alloc, live)
}

/// The ranks that rest at a standing, where standard sends may wait for their receives. Elsewhere none are looked for.
fn resting_in(course: &Manner<'_>, live: &Standing) -> RankSet
    ensures { waits_in (how_in course.now) ≡ true → TellsResting live.now result }
{
    if may_wait(course) {
        resting_ranks(live)
    } else {
        RankSet::none()
    }
}

impl Search {
    /// One turn of a node at which a standing is, and behind it the turns that are taken at once: where it leads is kept,
    /// unless it is alike a node. Then the standing is at the node again. Answers whether it led to a new node from which
    /// the rank would take more turns by itself.
    fn go(
        &mut self,
        course: &Manner<'_>,
        node: usize,
        live: &mut Standing,
        turn: Step,
    ) -> Result<bool, Halt>
        requires { 0 < length course.now.order.now }
        ensures goes { OnOk result (Goes (how_in course.now) course.now.order.now self.old node live.old turn self.new live.new) }
        ensures halt { IfErr result (IsHaltOf course.now.way) }
    {
        if node >= self.nodes.len() {
            return Ok(false);
        }
        let rank = turn.rank();
        if !live.take(turn)? {
            let kept = &self.nodes[node];
            kept.renew(course.alloc, live)?;
            return Ok(false);
        }
        let fewer = go_on(course, live, rank, &mut self.missing)?;
        let count = self.nodes.len();
        let to = self.arrive(course, live, node, usize::from(rank))?;
        self.leads.push(Lead {
            rank,
            from: node,
            to,
        })?;
        if node >= self.nodes.len() {
            return Ok(false);
        }
        let again = &self.nodes[node];
        again.restore(course.alloc, live, usize::from(rank))?;
        Ok(is_new_long(fewer, to, count))
    }

    /// Each of these turns of a node at which a standing is. Answers whether one of them led to a new node from which the rank
    /// would take more turns by itself.
    fn go_each(
        &mut self,
        course: &Manner<'_>,
        node: usize,
        live: &mut Standing,
        mut turns: Vec<Step>,
    ) -> Result<bool, Halt>
        requires { 0 < length course.now.order.now }
        ensures each { OnOk result (GoesEach (how_in course.now) course.now.order.now self.old node live.old turns.items self.new live.new) }
        ensures halt { IfErr result (IsHaltOf course.now.way) }
    {
        let mut long = false;
        'rest: loop {
            match turns.pop() {
                None => return Ok(long),
                Some(turn) => {
                    let more = self.go(course, node, live, turn)?;
                    long = either(long, more);
                }
            }
        }
    }

    /// All turns that a rank of a node may take next. Answers the rank if one led to a new node from which it would take more
    /// turns by itself.
    fn go_rank(
        &mut self,
        course: &Manner<'_>,
        node: usize,
        live: &mut Standing,
        rank: u8,
    ) -> Result<Option<u8>, Halt>
        requires { 0 < length course.now.order.now }
        ensures closes { OnOk result (ClosesRank (how_in course.now) course.now.order.now self.old node live.old rank self.new live.new) }
        ensures halt { IfErr result (IsHaltOf course.now.way) }
    {
        let place = usize::from(rank);
        if place >= live.cluster.ranks.len() {
            return Ok(None);
        }
        let own = &live.cluster.ranks[place];
        if is_done(own, course.order) {
            return Ok(None);
        }
        let Some(hart) = live.next_hart(rank, course.order) else {
            return Ok(None);
        };
        let turns = turns_of(course.alloc, &live.cluster, rank, hart)?;
        let long = self.go_each(course, node, live, turns)?;
        Ok(if_long(rank, long))
    }

    /// All moves of a node at which a standing is. Answers whether nobody goes on there, who is stuck, and who needs buffers.
    fn visit_from(
        &mut self,
        course: &Manner<'_>,
        node: usize,
        live: &mut Standing,
    ) -> Result<Visit, Halt>
        requires { 0 < length course.now.order.now }
        ensures visits { (kept : KeptView) → slice_get self.old.nodes.items node ≡ Some kept → IsLiveOf kept live.old
            → IfOk result (λ visit. KeepsOf (how_in course.now) course.now.order.now self.old node self.new
            (IsVisited (how_in course.now) course.now.order.now self.new.leads.items node visit)) }
        ensures waits { IfOk result (λ visit. is_some visit.need ≡ true → waits_in (how_in course.now) ≡ true) }
        ensures halt { IfErr result (IsHaltOf course.now.way) }
    {
        check_fit(course, live)?;
        let end = is_end(&live.cluster, course.order)?;
        let mut long = None;
        // an image has at most 8 ranks
        let count = live.cluster.ranks.len().min(255) as u8;
        for rank in 0..count {
            let alone = self.go_rank(course, node, live, rank)?;
            long = first_of(long, alone);
        }
        let stuck = deadlock(course.alloc, &live.cluster)?;
        let need = needing_in(course, live)?;
        Ok(Visit {
            end,
            stuck,
            need,
            long,
            resting: resting_in(course, live),
        })
    }

    /// All moves of a node. Answers whether nobody goes on there, who is stuck, and who needs buffers.
    pub(crate) fn visit(&mut self, course: &Manner<'_>, node: usize) -> Result<Visit, Halt>
        requires { 0 < length course.now.order.now }
        ensures visits { IfOk result (λ visit. KeepsOf (how_in course.now) course.now.order.now self.old node self.new
            (IsVisited (how_in course.now) course.now.order.now self.new.leads.items node visit)) }
        ensures waits { IfOk result (λ visit. is_some visit.need ≡ true → waits_in (how_in course.now) ≡ true) }
        ensures halt { IfErr result (IsHaltOf course.now.way) }
    {
        if node >= self.nodes.len() {
            return Ok(Visit {
                end: false,
                stuck: None,
                need: None,
                long: None,
                resting: RankSet::none(),
            });
        }
        let kept = &self.nodes[node];
        let mut live = kept.live(course.alloc)?;
        self.visit_from(course, node, &mut live)
    }
}
