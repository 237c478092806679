//! What is answered of ranks and their turns.

ghost use Rattle.std.specs.Prelude.{◌≡◌, ◌<◌, ◌+◌, ◌^◌, length, Err, IfOk, None, OnOk};
ghost use Rattle.mp_types.specs.declared.requests.Request.{Request};
ghost use Rattle.cl_state.specs.declared.asking.Ask.TheVariants as ask;
ghost use Rattle.cl_state.specs.Asked.{asked};
ghost use Rattle.cl_state.specs.Room.{rank_of};
ghost use Rattle.cl_deeds.specs.Turns.{AllStopped};
ghost use Rattle.cl_rank.specs.Views.{view_of};
ghost use Rattle.cl_trace.specs.declared.events.Kind.TheVariants as kind;
ghost use Rattle.test_cluster.specs.Boxes.{KeepsKeys, KeepsOthers, LooksInVain, MakesOne};
ghost use Rattle.test_cluster.specs.Ready.{IsReady};
ghost use Rattle.test_cluster.specs.Turns.{EndsWith, Enters, IsReplied, LeavesOne, StoppedRows};

use cl_journal::{Hub, HubFault};
use cl_rank::{Desk, LockedDesk, Rank, Stop};
use mp_types::{Reply, Request, Stamp};
use part_channel::Channel;
use std::sync::Wait;

/// A rank that has a turn, with the hub that it asks and the hart that goes.
#[derive(Drop)]
pub struct Seat {
    pub rank: Rank,
    pub hub: Hub,
    pub hart: u8,
}

/// A rank whose budget is used stops with Budget, and with no other cause, as long as some hart isn't stopped.
pub fn a_used_budget_stops(seat: &mut Seat, channels: &[Channel]) -> Result<(), Stop>
    requires ready { IsReady channels.now seat.old }
    requires runs { ¬ (AllStopped (rank_of seat.old.rank.state)) }
    requires used { seat.old.rank.budget ≡ length seat.old.rank.trace.events }
    ensures { result ≡ Err Stop.Budget }
{
    seat.rank.turn_plain(&mut seat.hub, channels, seat.hart)
}

/// A rank whose harts are all stopped stops with AllEnded, and with no other cause, whatever is left of its budget.
pub fn stopped_harts_stop_their_rank(seat: &mut Seat, channels: &[Channel]) -> Result<(), Stop>
    requires ready { IsReady channels.now seat.old }
    requires stopped { AllStopped (rank_of seat.old.rank.state) }
    ensures { result ≡ Err Stop.AllEnded }
{
    seat.rank.turn_plain(&mut seat.hub, channels, seat.hart)
}

/// A rank whose clock is 2^62 - 1 stops with that clock, where some hart isn't stopped and a turn is left.
pub fn a_full_clock_stops(seat: &mut Seat, channels: &[Channel]) -> Result<(), Stop>
    requires ready { IsReady channels.now seat.old }
    requires runs { ¬ (AllStopped (rank_of seat.old.rank.state)) }
    requires left { length seat.old.rank.trace.events < seat.old.rank.budget }
    requires full { seat.old.rank.state.clock + 1 ≡ 2 ^ 62 }
    ensures { result ≡ Err (Stop.ClockFull seat.old.rank.state.clock) }
{
    seat.rank.turn_plain(&mut seat.hub, channels, seat.hart)
}

/// A turn leaves one event: of its hart, with a stamp above the clock, which is the rank's clock from then on.
pub fn a_turn_leaves_one_event(seat: &mut Seat, channels: &[Channel]) -> Result<(), Stop>
    requires ready { IsReady channels.now seat.old }
    ensures { OnOk result (LeavesOne seat.old.hart (rank_of seat.old.rank.state) (rank_of seat.new.rank.state)
        seat.old.rank.trace.events seat.new.rank.trace.events) }
{
    seat.rank.turn_plain(&mut seat.hub, channels, seat.hart)
}

/// A turn of a stopped hart is recorded as idle, and the hub isn't asked.
pub fn a_stopped_hart_idles(seat: &mut Seat, channels: &[Channel]) -> Result<(), Stop>
    requires ready { IsReady channels.now seat.old }
    requires idles { asked (rank_of seat.old.rank.state) seat.old.hart ≡ ask.Idle }
    ensures recorded { OnOk result (EndsWith kind.Idle seat.old.rank.trace.events seat.new.rank.trace.events) }
    ensures hub { OnOk result (seat.new.hub ≡ seat.old.hub) }
{
    seat.rank.turn_plain(&mut seat.hub, channels, seat.hart)
}

/// A turn whose hart asks the hub enters one call, of that rank and hart at the rank's clock. Its event keeps the
/// request and the reply, and has the call's stamp.
pub fn a_call_is_entered(seat: &mut Seat, channels: &[Channel]) -> Result<(), Stop>
    requires ready { IsReady channels.now seat.old }
    ensures { (request : Request) → asked (rank_of seat.old.rank.state) seat.old.hart ≡ ask.Hub request
        → OnOk result (Enters request seat.old.hart (rank_of seat.old.rank.state) seat.old.rank.trace.events seat.new.rank.trace.events
        seat.old.hub seat.new.hub) }
{
    seat.rank.turn_plain(&mut seat.hub, channels, seat.hart)
}

/// A turn that asks no box moves no key.
pub fn a_turn_without_a_box_keeps_the_keys(
    seat: &mut Seat,
    channels: &[Channel],
) -> Result<(), Stop>
    requires ready { IsReady channels.now seat.old }
    ensures { OnOk result (seat.new.rank.asked_box ≡ None → KeepsKeys (view_of seat.old.rank).sides (view_of seat.new.rank).sides) }
{
    seat.rank.turn_plain(&mut seat.hub, channels, seat.hart)
}

/// A turn moves no key of a box that it didn't ask.
pub fn a_turn_keeps_the_keys_of_other_boxes(
    seat: &mut Seat,
    channels: &[Channel],
) -> Result<(), Stop>
    requires ready { IsReady channels.now seat.old }
    ensures { OnOk result (KeepsOthers (view_of seat.old.rank) (view_of seat.new.rank)) }
{
    seat.rank.turn_plain(&mut seat.hub, channels, seat.hart)
}

/// A turn that is recorded as a miss asked its box: its key there loaded one gate word, which shows nothing.
pub fn a_miss_asked_its_box(seat: &mut Seat, channels: &[Channel]) -> Result<(), Stop>
    requires ready { IsReady channels.now seat.old }
    ensures { OnOk result (EndsWith kind.Miss seat.old.rank.trace.events seat.new.rank.trace.events
        → LooksInVain (view_of seat.old.rank) (view_of seat.new.rank)) }
{
    seat.rank.turn_plain(&mut seat.hub, channels, seat.hart)
}

/// A turn that is recorded as ready made one thing, at the stamp above the clock, in a box whose key was open.
pub fn a_ready_makes_one_thing(seat: &mut Seat, channels: &[Channel]) -> Result<(), Stop>
    requires ready { IsReady channels.now seat.old }
    ensures { OnOk result (EndsWith kind.Ready seat.old.rank.trace.events seat.new.rank.trace.events
        → MakesOne (view_of seat.old.rank) (view_of seat.new.rank)) }
{
    seat.rank.turn_plain(&mut seat.hub, channels, seat.hart)
}

/// What is answered behind the lock was replied by a hub after some calls, to just this rank's request.
pub fn a_locked_hub_replies<R: Wait>(
    desk: &mut LockedDesk<'_>,
    rt: &R,
    rank: u8,
    hart: u8,
    clock: Stamp,
    request: Request,
) -> Result<(Reply, Stamp), HubFault>
    requires { clock < 2 ^ 62 }
    ensures { IfOk result (IsReplied rank clock request) }
{
    desk.call(rt, rank, hart, clock, request)
}

/// Harts that ended and harts that trapped are stopped; one hart that runs or waits keeps its rank going.
pub fn one_hart_keeps_going()
    ensures { StoppedRows }
{}
