//! Polls of what isn't there, one of each rank that is to wait.

ghost use Rattle.std.specs.Prelude.{IfOk};
ghost use Rattle.cl_contests.specs.Turns.{GoesInVain, IsVainCall, IsVainNext};

use crate::asking::{is_made_anew, is_vain_turn};
use cl_journal::CLOCK_MAX;
use cl_machine::Step;
use cl_moves::{MoveFault, Standing, is_in_vain, turns_of};
use cl_state::{Ask, RankState};
use cl_trace::Bare;
use mp_types::Request;
use rv_hart::Mode;
use rv_image_types::RANKS_MAX;
use std::alloc::Global;

/// The turn of a rank that makes this call, if nothing is there.
fn vain_call(
    alloc: Global,
    standing: &Standing,
    rank: u8,
    request: &Request,
) -> Result<Option<Step>, MoveFault>
    ensures { IfOk result (IsVainCall rank) }
{
    if !standing.cluster.hub.asks_in_vain(rank, request) {
        return Ok(None);
    }
    let mut turns = turns_of(alloc, &standing.cluster, rank, 0)?;
    let Some(turn) = turns.pop() else {
        return Ok(None);
    };
    if !is_vain_turn(&turn) {
        return Ok(None);
    }
    Ok(Some(turn))
}

/// The turn of a rank that looks at a box, if it isn't as it is asked for.
fn vain_look(
    standing: &Standing,
    rank: u8,
    own: &RankState,
    ask: &Ask,
) -> Result<Option<Step>, MoveFault>
    ensures { IfOk result (IsVainCall rank) }
{
    let looks = matches!(ask, Ask::Look { .. } | Ask::Freed { .. });
    if !looks || !is_in_vain(&standing.cluster, rank, ask) {
        return Ok(None);
    }
    if own.clock >= CLOCK_MAX {
        return Err(MoveFault::Clock);
    }
    Ok(Some(Step::bare(rank, 0, own.clock + 1, Bare::Miss)))
}

/// The next turn of a rank, if it is the first one of a call that is made anew until there is something, and nothing is there.
fn next_vain(alloc: Global, standing: &Standing, rank: u8) -> Result<Option<Step>, MoveFault>
    ensures { IfOk result (IsVainNext standing.now) }
{
    let place = usize::from(rank);
    if place >= standing.cluster.ranks.len() {
        return Ok(None);
    }
    let own = &standing.cluster.ranks[place];
    if own.harts.len() == 0 {
        return Ok(None);
    }
    if !matches!(own.harts[0].mode(), Mode::Running) {
        return Ok(None);
    }
    let doing = own.next(0);
    if !is_made_anew(&doing) {
        return Ok(None);
    }
    match own.ask_next(0, &doing)? {
        Ask::Hub(request) => vain_call(alloc, standing, rank, &request),
        ask => vain_look(standing, rank, own, &ask),
    }
}

/// Lets a rank poll once whose hart makes such a call for the first time. False where the machine has no such turn.
///
/// Refusals: Clock, Memory. Then, as where it answers false, the standing may be anything.
fn poll_once(alloc: Global, standing: &mut Standing, rank: u8) -> Result<bool, MoveFault>
    ensures { IfOk result (GoesInVain standing.old standing.new) }
{
    let Some(turn) = next_vain(alloc, standing, rank)? else {
        return Ok(true);
    };
    standing.take(turn)
}

/// The same of each rank.
pub(crate) fn poll_all(alloc: Global, standing: &mut Standing) -> Result<bool, MoveFault>
    ensures { IfOk result (GoesInVain standing.old standing.new) }
{
    for rank in 0..RANKS_MAX {
        if !poll_once(alloc, standing, rank)? {
            return Ok(false);
        }
    }
    Ok(true)
}
