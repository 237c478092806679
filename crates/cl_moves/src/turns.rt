//! All turns that a hart may take from a state.

ghost use Rattle.std.specs.Prelude.{◌≡◌, ◌<◌, ◌+◌, ◌-◌, ◌^◌, ◌∷◌, [], List, IfOk, false, max};
ghost use Rattle.rv_image_types.specs.declared.images.Link.{Link};
ghost use Rattle.mp_hub.specs.Hub.{Call, reply_of};
ghost use Rattle.mp_hub.specs.Outcomes.{StandsFor};
ghost use Rattle.cl_machine.specs.Boxes.{box_number};
ghost use Rattle.cl_trace.specs.Traces.{kind_of_bare};
ghost use Rattle.cl_trace.specs.declared.events.Kind.{Kind};
ghost use Rattle.cl_replay.specs.Boxes.{settled_at};
ghost use Rattle.cl_order_laws.specs.Orders.{is_miss};
ghost use Rattle.cl_moves.specs.Moves.{AreApart, AreTurnsOf, HasAllTurns, HasMoves, looks, turn_at};

use crate::faults::MoveFault;
use crate::single::Whose;
use cl_journal::CLOCK_MAX;
use cl_machine::Step;
use cl_replay::ClusterState;
use cl_state::Ask;
use cl_trace::Bare;
use mp_hub::HubState;
use mp_types::{Reply, Request, Stamp};
use part_box::Settled;
use std::alloc::{AllocError, Global};

/// A list of one turn.
fn one(alloc: Global, turn: Step) -> Result<Vec<Step>, AllocError>
    ensures { IfOk result (λ turns. turns.items ≡ turn ∷ []) }
{
    let mut turns = Vec::new(alloc);
    turns.push(turn)?;
    Ok(turns)
}

/// The one turn of this kind that meets nobody.
fn single(alloc: Global, whose: Whose, kind: Bare) -> Result<Vec<Step>, MoveFault>
    requires { whose.clock < 2 ^ 62 - 1 }
    ensures turn { IfOk result (λ turns. turns.items ≡ turn_at whose (whose.clock + 1) (kind_of_bare kind) ∷ []) }
    ensures own { IfOk result (λ turns. AreTurnsOf whose.rank whose.hart turns.items) }
    ensures apart { IfOk result (λ turns. AreApart turns.items) }
{
    Ok(one(alloc, whose.next(kind))?)
}

/// What stands in a partition's box, of the boxes of all links, if it is there: each link has 16.
pub(crate) fn in_box(boxes: &[[Settled; 16]], link: u8, part: u8) -> Option<Settled>
    ensures { result ≡ settled_at boxes.now (box_number link part) }
{
    let place = usize::from(part) + usize::from(link) * 16;
    match boxes.get(place / 16) {
        None => None,
        Some(of_link) => Some(of_link[place % 16]),
    }
}

/// The turns of a look at a box, if it is there: it misses, or sees. The machine has the second one only where there is
/// something to see.
fn looking(
    alloc: Global,
    whose: Whose,
    settled: Option<Settled>,
    sees: Bare,
) -> Result<Vec<Step>, MoveFault>
    requires clock { whose.clock < 2 ^ 62 - 1 }
    requires sees { is_miss (kind_of_bare sees) ≡ false }
    ensures turns { IfOk result (λ turns. turns.items ≡ looks whose (kind_of_bare sees) settled) }
    ensures own { IfOk result (λ turns. AreTurnsOf whose.rank whose.hart turns.items) }
    ensures apart { IfOk result (λ turns. AreApart turns.items) }
{
    let mut turns = one(alloc, whose.next(Bare::Miss))?;
    if let Some(settled) = settled {
        if settled.stamp >= CLOCK_MAX {
            return Err(MoveFault::Clock);
        }
        let stamp = whose.met(settled.stamp);
        turns.push(Step::bare(whose.rank, whose.hart, stamp, sees))?;
    }
    Ok(turns)
}

/// The hub's reply to a call, which is told by a copy of the hub.
///
/// Refusals: Clock where the hub has no number left for a post, Memory.
fn reply_to(alloc: Global, hub: &HubState, rank: u8, request: &Request) -> Result<Reply, MoveFault>
    ensures { IfOk result (λ reply. (links : List Link) (calls : List Call) → StandsFor hub.now links calls
        → reply ≡ reply_of links calls rank request.now) }
{
    if hub.posts() >= u64::MAX {
        return Err(MoveFault::Clock);
    }
    let mut copy = hub.try_copy(alloc)?;
    match copy.answer(rank, request) {
        Ok(reply) => Ok(reply),
        Err(_) => Err(MoveFault::Memory),
    }
}

/// The turn of a call, with the hub's reply to it.
pub(crate) fn calling(
    alloc: Global,
    whose: Whose,
    hub: &HubState,
    clock: Stamp,
    request: &Request,
) -> Result<Vec<Step>, MoveFault>
    requires whose { whose.clock < 2 ^ 62 - 1 }
    requires clock { clock < 2 ^ 62 - 1 }
    ensures turn { IfOk result (λ turns. (links : List Link) (calls : List Call) → StandsFor hub.now links calls
        → turns.items
        ≡ turn_at whose (max whose.clock clock + 1) (Kind.Hub (reply_of links calls whose.rank request.now)) ∷ []) }
    ensures own { IfOk result (λ turns. AreTurnsOf whose.rank whose.hart turns.items) }
    ensures apart { IfOk result (λ turns. AreApart turns.items) }
{
    let reply = reply_to(alloc, hub, whose.rank, request)?;
    let reply = Box::new(alloc, reply)?;
    let stamp = whose.met(clock);
    Ok(one(alloc, Step::hub(whose.rank, whose.hart, stamp, reply))?)
}

/// All turns of a hart that asks this. A look has two, of which the machine has the second only where it sees; else there
/// is one.
fn turns_for(
    alloc: Global,
    state: &ClusterState,
    whose: Whose,
    ask: &Ask,
) -> Result<Vec<Step>, MoveFault>
    requires clock { whose.clock < 2 ^ 62 - 1 }
    requires hub { state.now.clock < 2 ^ 62 - 1 }
    ensures all { IfOk result (λ turns. HasMoves state.now whose ask.now turns.items) }
    ensures own { IfOk result (λ turns. AreTurnsOf whose.rank whose.hart turns.items) }
    ensures apart { IfOk result (λ turns. AreApart turns.items) }
{
    let boxes = state.boxes.as_slice();
    match ask {
        Ask::Plain => single(alloc, whose, Bare::Plain),
        Ask::Local => single(alloc, whose, Bare::Local),
        Ask::Held => single(alloc, whose, Bare::Held),
        Ask::Idle => single(alloc, whose, Bare::Idle),
        Ask::Ready { .. } => single(alloc, whose, Bare::Ready),
        Ask::Look { link, part } => looking(alloc, whose, in_box(boxes, *link, *part), Bare::Take),
        Ask::Freed { link, part } => looking(
            alloc,
            whose,
            in_box(boxes, *link, *part),
            Bare::Freed,
        ),
        Ask::Hub(request) => calling(alloc, whose, &state.hub, state.clock, request),
    }
}

/// All turns that this hart of this rank may take from the state, a look that misses too: at most one that misses, and one
/// that doesn't.
///
/// Refusals: Clock where a clock or a stamp of a box is at its end, Memory.
pub fn turns_of(
    alloc: Global,
    state: &ClusterState,
    rank: u8,
    hart: u8,
) -> Result<Vec<Step>, MoveFault>
    ensures all { IfOk result (λ turns. HasAllTurns state.now rank hart turns.items) }
    ensures own { IfOk result (λ turns. AreTurnsOf rank hart turns.items) }
    ensures apart { IfOk result (λ turns. AreApart turns.items) }
{
    let place = usize::from(rank);
    if place >= state.ranks.len() {
        return Ok(Vec::new(alloc));
    }
    let own = &state.ranks[place];
    if usize::from(hart) >= own.harts.len() {
        return Ok(Vec::new(alloc));
    }
    let clock = own.clock;
    if clock >= CLOCK_MAX || state.clock >= CLOCK_MAX {
        return Err(MoveFault::Clock);
    }
    let ask = own.ask(hart)?;
    turns_for(alloc, state, Whose { rank, hart, clock }, &ask)
}
