//! One schedule, followed to its end: where a search is cut before it found an end, this finds one.

ghost use Rattle.std.specs.Prelude.{◌≡◌, ◌<◌, IfOk, IfSome, OnOk, length, true};
ghost use Rattle.cl_explore.specs.Diving.{Dives, Ends, Follows, IsNextTurn};
ghost use Rattle.cl_explore.specs.How.{how_in};

use crate::course::Manner;
use crate::likeness::key_of;
use crate::orders::chosen;
use crate::search::Search;
use cl_machine::Step;
use cl_moves::{MoveFault, Standing, is_done, is_end, is_in_vain, turns_of};
use cl_state::Ask;
use std::alloc::AllocError;

/// How often each rank has its turn in one schedule, at most.
const MOST_ROUNDS: usize = 65536;

/// How many turns that need only its rank a rank takes behind its turn, at most.
const MOST_ALONE: u64 = 1024;

/// How many turns one schedule takes, at most: a rank that polls or counts would never be done.
const MOST_TURNS: usize = 1_000_000;

/// Whether a hart of a rank looks at a box that isn't as it asks. Nothing depends on it but which turn is taken. The only error
/// is want of memory, for the posts of a WAITALL.
fn looks_in_vain(live: &Standing, rank: u8, hart: u8) -> Result<bool, AllocError> {
    let Some(own) = live.cluster.ranks.get(usize::from(rank)) else {
        return Ok(false);
    };
    if usize::from(hart) >= own.harts.len() {
        return Ok(false);
    }
    let ask = own.ask(hart)?;
    let looks = matches!(ask, Ask::Look { .. } | Ask::Freed { .. });
    Ok(looks && is_in_vain(&live.cluster, rank, &ask))
}

/// The next turn of a rank that isn't stopped: a look at a box sees what is there, and misses only what isn't. None where the
/// rank has none.
///
/// Refusals: Clock, Memory.
fn next_turn(course: &Manner<'_>, live: &Standing, rank: u8) -> Result<Option<Step>, MoveFault>
    requires { 0 < length course.now.order.now }
    ensures { IfOk result (λ turn. IfSome turn (IsNextTurn course.now.order.now live.now)) }
{
    let place = usize::from(rank);
    if place >= live.cluster.ranks.len() {
        return Ok(None);
    }
    if is_done(&live.cluster.ranks[place], course.order) {
        return Ok(None);
    }
    let Some(hart) = live.next_hart(rank, course.order) else {
        return Ok(None);
    };
    let turns = turns_of(course.alloc, &live.cluster, rank, hart)?;
    let misses = looks_in_vain(live, rank, hart)?;
    Ok(chosen(turns, misses))
}

/// The next turn of a rank, if it has one, and those behind it that need only the rank. Answers whether the turn was taken or
/// there is none; else the standing may be anything.
///
/// Refusals: Clock, Memory. Then it may be anything too.
fn go_once(course: &Manner<'_>, live: &mut Standing, rank: u8) -> Result<bool, MoveFault>
    requires { 0 < length course.now.order.now }
    ensures { IfOk result (λ goes. goes ≡ true → Follows course.now.order.now live.old live.new) }
{
    let Some(turn) = next_turn(course, live, rank)? else {
        return Ok(true);
    };
    if !live.take(turn)? {
        return Ok(false);
    }
    live.go_ahead(course.alloc, rank, course.order, MOST_ALONE)?;
    Ok(true)
}

/// The same of each rank in turn.
fn go_round(course: &Manner<'_>, live: &mut Standing) -> Result<bool, MoveFault>
    requires { 0 < length course.now.order.now }
    ensures { IfOk result (λ goes. goes ≡ true → Follows course.now.order.now live.old live.new) }
{
    // an image has at most 8 ranks
    let count = live.cluster.ranks.len().min(255) as u8;
    for rank in 0..count {
        if !go_once(course, live, rank)? {
            return Ok(false);
        }
    }
    Ok(true)
}

/// One schedule from a standing on, until nobody goes on, or for as many turns as one schedule takes. Answers whether nobody
/// goes on; else the standing may be anything.
///
/// Refusals: Clock, Memory. Then it may be anything too.
fn follow_one(course: &Manner<'_>, live: &mut Standing) -> Result<bool, MoveFault>
    requires { 0 < length course.now.order.now }
    ensures { IfOk result (λ ended. ended ≡ true → Ends course.now.order.now live.old live.new) }
{
    for _round in 0..MOST_ROUNDS {
        if is_end(&live.cluster, course.order)? {
            return Ok(true);
        }
        if live.steps.len() >= MOST_TURNS || !go_round(course, live)? {
            return Ok(false);
        }
    }
    Ok(false)
}

impl Search {
    /// Follows one schedule from the node of the number `from`. Its end is kept as one more node, and answered by its number.
    /// None where the schedule doesn't come to an end in time.
    ///
    /// Refusals: Clock, Memory.
    pub(crate) fn dive(
        &mut self,
        course: &Manner<'_>,
        from: usize,
    ) -> Result<Option<usize>, MoveFault>
        requires { 0 < length course.now.order.now }
        ensures { IfOk result (Dives (how_in course.now) course.now.order.now self.old from self.new) }
    {
        if from >= self.nodes.len() {
            return Ok(None);
        }
        let kept = &self.nodes[from];
        let mut live = kept.live(course.alloc)?;
        if !follow_one(course, &mut live)? {
            return Ok(None);
        }
        let key = key_of(course.way, &live);
        let number = self.add(course, &live, key, from, 0)?;
        Ok(Some(number))
    }
}
