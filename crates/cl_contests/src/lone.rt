//! A rank that can go on where no other rank can.

ghost use Rattle.std.specs.Prelude.{◌≡◌, IfOk, true};
ghost use Rattle.cl_contests.specs.Lone.{IsLoneIfSome, IsLoneNext, IsStillIn, IsTurnIfSome};

use crate::asking::is_made_anew;
use crate::patterns::Patterns;
use cl_machine::Step;
use cl_moves::{MoveFault, Standing, is_in_vain, turns_of};
use cl_state::{Ask, RankState};
use mp_types::Request;
use rv_hart::Mode;
use std::alloc::Global;

/// Whether the rank's hart is stopped, or makes a call anew, in vain.
fn is_still(standing: &Standing, rank: u8, own: &RankState) -> Result<bool, MoveFault>
    ensures { IfOk result (λ still. still ≡ true → IsStillIn standing.now rank own.now) }
{
    if own.harts.len() == 0 {
        return Ok(false);
    }
    if matches!(own.harts[0].mode(), Mode::Ended(_) | Mode::Trapped(_, _)) {
        return Ok(true);
    }
    let doing = own.next(0);
    if !is_made_anew(&doing) {
        return Ok(false);
    }
    let ask = own.ask_next(0, &doing)?;
    Ok(is_in_vain(&standing.cluster, rank, &ask))
}

/// The rank that isn't still, if it is the only one.
fn lone_rank(standing: &Standing) -> Result<Option<u8>, MoveFault>
    ensures { IfOk result (IsLoneIfSome standing.now) }
{
    // an image has at most 8 ranks
    let count = standing.cluster.ranks.len();
    if count > 255 {
        return Ok(None);
    }
    let mut lone = None;
    for rank in 0..count {
        let own = &standing.cluster.ranks[rank];
        if !is_still(standing, rank as u8, own)? {
            if lone.is_some() {
                return Ok(None);
            }
            lone = Some(rank as u8);
        }
    }
    Ok(lone)
}

/// The turn of a rank that makes this call, unless it asks for what isn't there.
fn lone_call(
    alloc: Global,
    standing: &Standing,
    rank: u8,
    request: &Request,
) -> Result<Option<Step>, MoveFault>
    ensures { IfOk result (IsTurnIfSome rank) }
{
    if standing.cluster.hub.asks_in_vain(rank, request) {
        return Ok(None);
    }
    let mut turns = turns_of(alloc, &standing.cluster, rank, 0)?;
    let Some(turn) = turns.pop() else {
        return Ok(None);
    };
    Ok(Some(turn))
}

/// The call of the only rank that isn't still, if it makes one and may go first. One for what isn't there is left out: a
/// rank that goes on without it could ask for it over and over.
pub(crate) fn next_lone(
    alloc: Global,
    standing: &Standing,
    patterns: &Patterns,
) -> Result<Option<Step>, MoveFault>
    ensures { IfOk result (IsLoneNext patterns.now.may_wait standing.now) }
{
    let Some(rank) = lone_rank(standing)? else {
        return Ok(None);
    };
    let place = usize::from(rank);
    if place >= standing.cluster.ranks.len() {
        return Ok(None);
    }
    let own = &standing.cluster.ranks[place];
    if own.harts.len() == 0 || patterns.hold_back(standing, rank) {
        return Ok(None);
    }
    match own.ask(0)? {
        Ask::Hub(request) => lone_call(alloc, standing, rank, &request),
        _ => Ok(None),
    }
}
