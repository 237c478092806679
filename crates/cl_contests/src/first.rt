//! Turns of ranks that go first, one after another.

ghost use Rattle.std.specs.Prelude.{◌≡◌, IfOk, true};
ghost use Rattle.cl_contests.specs.Going.{GoesFirstOn};
ghost use Rattle.cl_contests.specs.Kept.{search_of};
ghost use Rattle.cl_contests.specs.Lone.{IsNextTurn};
ghost use Rattle.cl_contests.specs.Turns.{AsksWithin, GoesWithin, IsFirstCall, IsFirstNext, IsMeetingCall, IsMeetingNext};
ghost use Rattle.cl_contests.specs.Turns.{TellsWithin};

use crate::alone::{Spent, all_alone};
use crate::asking::{is_found_turn, is_look, is_made_anew, is_ready_turn};
use crate::complete::polls_complete;
use crate::lone::next_lone;
use crate::patterns::Patterns;
use crate::polls::poll_all;
use cl_machine::{KindRef, Step};
use cl_moves::{MoveFault, Standing, is_in_vain, turns_of};
use cl_state::{Ask, RankState};
use mp_types::{Reply, Request};
use rv_image_types::RANKS_MAX;
use std::alloc::Global;

/// How many looks at messages that are there are taken in a row: a rank that looks for ever changes nothing.
const LOOKS: u64 = 256;

/// How it went.
#[derive(Clone, Copy, Drop)]
pub struct Went {
    /// Whether each rank asked within the patterns all the way.
    pub within: bool,
    /// The first rank that takes more turns by itself than it was let, if there is one.
    pub long: Option<u8>,
}

/// Whether the rank asks within the patterns. What it asks beside them is added to `missing`.
fn asks_within(
    own: &RankState,
    rank: u8,
    patterns: &Patterns,
    missing: &mut Patterns,
) -> Result<bool, MoveFault>
    ensures { IfOk result (λ within. within ≡ true
        → AsksWithin (search_of patterns.now.may_wait patterns.now.kept.items) rank own.now) }
{
    if own.harts.len() == 0 {
        return Ok(false);
    }
    let doing = own.next(0);
    let waits = is_made_anew(&doing);
    let polls = polls_complete(own, &doing);
    let ask = own.ask_next(0, &doing)?;
    if !patterns.allow(rank, waits, &ask) || !patterns.allow_poll_of_complete(rank, polls) {
        missing.add(rank, waits, &ask)?;
        missing.add_poll_of_complete(rank, polls)?;
        return Ok(false);
    }
    Ok(true)
}

/// Whether each rank asks within the patterns. What they ask beside them is added to `missing`.
fn all_within(
    standing: &Standing,
    patterns: &Patterns,
    missing: &mut Patterns,
) -> Result<bool, MoveFault>
    ensures { IfOk result (TellsWithin (search_of patterns.now.may_wait patterns.now.kept.items) standing.now) }
{
    // an image has at most 8 ranks
    let count = standing.cluster.ranks.len();
    if count > 255 {
        return Ok(false);
    }
    let mut within = true;
    for rank in 0..count {
        let own = &standing.cluster.ranks[rank];
        if !asks_within(own, rank as u8, patterns, missing)? {
            within = false;
        }
    }
    Ok(within)
}

/// The turn of a rank that makes this call, if nobody contests it or it is for what is there.
fn first_call(
    alloc: Global,
    standing: &Standing,
    rank: u8,
    request: &Request,
    patterns: &Patterns,
) -> Result<Option<Step>, MoveFault>
    ensures { IfOk result (IsFirstCall (search_of patterns.now.may_wait patterns.now.kept.items) rank request.now) }
{
    let free = patterns.is_uncontested(rank, request);
    if !free && (!is_look(request) || standing.cluster.hub.asks_in_vain(rank, request)) {
        return Ok(None);
    }
    let mut turns = turns_of(alloc, &standing.cluster, rank, 0)?;
    let Some(turn) = turns.pop() else {
        return Ok(None);
    };
    if free || is_ready_turn(&turn, request) {
        Ok(Some(turn))
    } else {
        Ok(None)
    }
}

/// The next turn of a rank that may go first, if it is such a call.
fn first_of(
    alloc: Global,
    standing: &Standing,
    rank: u8,
    patterns: &Patterns,
) -> Result<Option<Step>, MoveFault>
    ensures { IfOk result (IsFirstNext (search_of patterns.now.may_wait patterns.now.kept.items) standing.now) }
{
    let place = usize::from(rank);
    if place >= standing.cluster.ranks.len() {
        return Ok(None);
    }
    let own = &standing.cluster.ranks[place];
    if own.harts.len() == 0 || patterns.hold_back(standing, rank) {
        return Ok(None);
    }
    match own.ask(0)? {
        Ask::Hub(request) => first_call(alloc, standing, rank, &request, patterns),
        _ => Ok(None),
    }
}

/// The turn of a rank that asks this at a box, if it finds what it asks for and no other rank is on the same side of the link. A
/// look that goes on where nothing is there has two turns, so it isn't among them.
fn meeting_of(
    alloc: Global,
    standing: &Standing,
    rank: u8,
    waits: bool,
    ask: &Ask,
    patterns: &Patterns,
) -> Result<Option<Step>, MoveFault>
    ensures { IfOk result (IsMeetingCall (search_of patterns.now.may_wait patterns.now.kept.items) rank waits ask.now) }
{
    let may = match ask {
        Ask::Ready { .. } => true,
        Ask::Look { .. } | Ask::Freed { .. } => waits && !is_in_vain(&standing.cluster, rank, ask),
        _ => false,
    };
    if !may || !patterns.may_meet(rank, ask) {
        return Ok(None);
    }
    let mut turns = turns_of(alloc, &standing.cluster, rank, 0)?;
    let Some(turn) = turns.pop() else {
        return Ok(None);
    };
    if is_found_turn(&turn) {
        Ok(Some(turn))
    } else {
        Ok(None)
    }
}

/// The next turn of a rank that may go first, if it is such a turn at a box.
fn next_meeting(
    alloc: Global,
    standing: &Standing,
    rank: u8,
    patterns: &Patterns,
) -> Result<Option<Step>, MoveFault>
    ensures { IfOk result (IsMeetingNext (search_of patterns.now.may_wait patterns.now.kept.items) standing.now) }
{
    let place = usize::from(rank);
    if place >= standing.cluster.ranks.len() {
        return Ok(None);
    }
    let own = &standing.cluster.ranks[place];
    if own.harts.len() == 0 || patterns.hold_back(standing, rank) {
        return Ok(None);
    }
    let doing = own.next(0);
    let waits = is_made_anew(&doing);
    let ask = own.ask_next(0, &doing)?;
    meeting_of(alloc, standing, rank, waits, &ask, patterns)
}

/// The next turn of the first rank that meets a box so, if one does.
fn first_meeting(
    alloc: Global,
    standing: &Standing,
    patterns: &Patterns,
) -> Result<Option<Step>, MoveFault>
    ensures { IfOk result (IsMeetingNext (search_of patterns.now.may_wait patterns.now.kept.items) standing.now) }
{
    for rank in 0..RANKS_MAX {
        if let Some(turn) = next_meeting(alloc, standing, rank, patterns)? {
            return Ok(Some(turn));
        }
    }
    Ok(None)
}

/// The next turn of the first rank that makes such a call, if one does.
fn next_first(
    alloc: Global,
    standing: &Standing,
    patterns: &Patterns,
) -> Result<Option<Step>, MoveFault>
    ensures { IfOk result (IsFirstNext (search_of patterns.now.may_wait patterns.now.kept.items) standing.now) }
{
    for rank in 0..RANKS_MAX {
        if let Some(turn) = first_of(alloc, standing, rank, patterns)? {
            return Ok(Some(turn));
        }
    }
    Ok(None)
}

/// The next turn of a rank that goes first, if one does.
fn next_turn(
    alloc: Global,
    standing: &Standing,
    patterns: &Patterns,
) -> Result<Option<Step>, MoveFault>
    ensures { IfOk result (IsNextTurn (search_of patterns.now.may_wait patterns.now.kept.items) standing.now) }
{
    if let Some(turn) = next_first(alloc, standing, patterns)? {
        return Ok(Some(turn));
    }
    if let Some(turn) = first_meeting(alloc, standing, patterns)? {
        return Ok(Some(turn));
    }
    next_lone(alloc, standing, patterns)
}

/// Whether there were more looks in a row than are allowed.
fn is_enough(looks: u64) -> bool {
    looks > LOOKS
}

/// The first of two ranks, if there is one.
fn first_rank(one: Option<u8>, other: Option<u8>) -> Option<u8> {
    match one {
        Some(rank) => Some(rank),
        None => other,
    }
}

/// How many looks at messages there were in a row, with this turn.
fn looks_with(looks: u64, turn: &Step) -> u64 {
    match turn.kind() {
        KindRef::Hub(Reply::Seen(_)) => looks.saturating_add(1),
        _ => 0,
    }
}

/// Takes turns that need only their rank, of this rank or of each, and then one that goes first, over and over, at most so
/// often, and no more looks in a row than are allowed. Behind the turn of a rank only this rank may take turns by itself,
/// unless sends may wait.
///
/// Refusals: Clock, Memory. Then the standing may be anything.
fn go_on(
    alloc: Global,
    standing: &mut Standing,
    most: u64,
    whose: Option<u8>,
    patterns: &Patterns,
    missing: &mut Patterns,
) -> Result<Went, MoveFault>
    ensures { IfOk result (λ went. GoesWithin (search_of patterns.now.may_wait patterns.now.kept.items) standing.old
        standing.new went.within) }
{
    let mut whose = whose;
    let mut looks = 0;
    let mut long = None;
    let mut spent = Spent::new();
    for _round in 0..most {
        // a rank that rested goes on once the turn of another rank received its message
        let left = if patterns.may_wait { None } else { whose };
        let more = all_alone(alloc, standing, left, most, patterns, &mut spent)?;
        long = first_rank(long, more);
        if !all_within(standing, patterns, missing)? {
            return Ok(Went {
                within: false,
                long,
            });
        }
        if is_enough(looks) {
            return Ok(Went { within: true, long });
        }
        let Some(turn) = next_turn(alloc, standing, patterns)? else {
            return Ok(Went { within: true, long });
        };
        whose = Some(turn.rank());
        looks = looks_with(looks, &turn);
        if !standing.take(turn)? {
            return Ok(Went {
                within: false,
                long,
            });
        }
    }
    Ok(Went {
        within: true,
        long: whose,
    })
}

/// Takes turns of ranks that go first, one after another, and then lets each rank that waits poll once: in that state all
/// ranks are let go. A rank takes at most `most` turns by itself. What is asked beside the patterns is added to `missing`.
/// `whose` is the rank that moved last, where no other rank can have turns left that need only itself.
///
/// Refusals: Clock, Memory. Then the standing may be anything.
pub fn go_first(
    alloc: Global,
    standing: &mut Standing,
    most: u64,
    whose: Option<u8>,
    patterns: &Patterns,
    missing: &mut Patterns,
) -> Result<Went, MoveFault>
    ensures { IfOk result (GoesFirstOn (search_of patterns.now.may_wait patterns.now.kept.items) standing.old standing.new) }
{
    let went = go_on(alloc, standing, most, whose, patterns, missing)?;
    if !went.within {
        return Ok(went);
    }
    // a rank may ask something new since it was last looked at
    let within = all_within(standing, patterns, missing)?;
    if !within || !poll_all(alloc, standing)? {
        return Ok(Went {
            within: false,
            long: went.long,
        });
    }
    Ok(went)
}
