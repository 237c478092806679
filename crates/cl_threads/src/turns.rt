//! All turns of a rank, on its own thread.

ghost use Rattle.std.specs.Prelude.{◌≡◌, List, None, Some, false, true};
ghost use Rattle.cl_deeds.specs.Deeds.{Deed};
ghost use Rattle.cl_rank.specs.RankSides.{AreChannelsOf};
ghost use Rattle.cl_deeds.specs.Turns.{AllStopped};
ghost use Rattle.cl_rank.specs.Views.{view_of};
ghost use Rattle.cl_rank.specs.declared.stops.Stop.{Stop};
ghost use Rattle.cl_record.specs.declared.plans.Plan.{Plan};
ghost use Rattle.cl_state.specs.Room.{rank_of};
ghost use Rattle.cl_threads.specs.Cuts.{IsBy};
ghost use Rattle.cl_threads.specs.Telling.{IsToldHere};
ghost use Rattle.cl_threads.specs.OnThreads.{IsDone, IsReady, WentBy};
ghost use Rattle.cl_threads.specs.declared.until.Until.TheVariants.{Told};

use crate::gates::{Gate, Passage};
use crate::lookout::Lookout;
use crate::rests::RestingDesk;
use crate::until::Until;
use cl_journal::Hub;
use cl_rank::{RankState, Stop};
use cl_record::{Done, Seat};
use part_channel::Channel;
use rv_hart::Mode;
use std::sync::{Mutex, Wait};

/// Whether a hart of the rank waits.
fn waits(state: &RankState) -> bool
    ensures { result ≡ true → ¬ (AllStopped (rank_of state.now)) }
{
    state
        .harts
        .iter()
        .any(|hart| matches!(hart.mode(), Mode::Waiting(_)))
}

/// Ends the turns of a rank that was told that nobody can go on, if it took some and has some left, and a hart of it
/// waits. Whether it did.
fn end_here(seat: &mut Seat) -> bool
    requires { seat.old.stop ≡ None }
    ensures told { result ≡ true → IsToldHere seat.old seat.new }
    ensures same { result ≡ false → seat.new ≡ seat.old }
{
    let turns = seat.rank.trace.len();
    if turns == 0 || turns >= seat.plan.budget || !waits(&seat.rank.state) {
        return false;
    }
    seat.stop = Some(Stop::Budget);
    true
}

/// What a rank does behind a turn once nobody can go on: it ends its turns, or it uses up those that it has left as soon as
/// the ranks have that came before it. Whether it ended them.
fn give_up<R: Wait>(
    rt: &R,
    until: Until,
    desk: &mut RestingDesk<'_>,
    lookout: &mut Lookout<'_>,
    seat: &mut Seat,
) -> bool
    requires { seat.old.stop ≡ None }
    ensures told { result ≡ true → (until ≡ Told) × IsToldHere seat.old seat.new }
    ensures same { result ≡ false → seat.new ≡ seat.old }
{
    if until == Until::Told && !lookout.is_cut() && end_here(seat) {
        return true;
    }
    desk.hurry();
    lookout.queue(rt);
    false
}

/// Looks at the seat behind its turn of this number, and gives up where nobody can go on. Whether it ended its turns.
fn attend<R: Wait>(
    rt: &R,
    until: Until,
    desk: &mut RestingDesk<'_>,
    lookout: &mut Lookout<'_>,
    seat: &mut Seat,
    number: u64,
) -> bool
    requires { seat.old.stop ≡ None }
    ensures told { result ≡ true → (until ≡ Told) × IsToldHere seat.old seat.new }
    ensures same { result ≡ false → seat.new ≡ seat.old }
{
    if !lookout.see(seat, desk, number) {
        return false;
    }
    give_up(rt, until, desk, lookout, seat)
}

/// Takes turns of the seat, until it has none, or is told to stop. Its calls of the hub go through the lock, with a rest
/// behind one in vain, and its steps on boxes to their channels.
fn take_turns<R: Wait, G: Gate + Drop>(
    rt: &R,
    hub: &Mutex<Hub>,
    channels: &[Channel],
    passage: &Passage<G>,
    until: Until,
    seat: &mut Seat,
)
    requires { IsReady channels.now seat.old }
    ensures went { (deeds : List Deed) × (stop : Stop) × (by : Plan) × (seat.new.stop ≡ Some stop)
        × IsBy until seat.old.plan.now by stop
        × WentBy by (view_of seat.old.rank) (view_of seat.new.rank) stop deeds }
    ensures over { AreChannelsOf (view_of seat.new.rank).rank.site.version channels.now (view_of seat.new.rank).sides }
{
    let mut desk = RestingDesk::new(hub);
    let mut lookout = passage.lookout(seat.plan.order.len());
    let mut number: u64 = 0;
    loop {
        if desk.is_due {
            desk.rest(passage);
        }
        passage.turn(number);
        let free = passage.free(number);
        let done = seat.run_plain(free);
        number = number.wrapping_add(done);
        if done > 0 && done >= free {
            continue;
        }
        number = number.wrapping_add(1);
        let goes_on = seat.turn(rt, &mut desk, channels);
        if !goes_on {
            lookout.leave(seat.stop);
            return;
        }
        if attend(rt, until, &mut desk, &mut lookout, seat, number) {
            return;
        }
    }
}

/// One rank, from its first turn to its stop.
pub(crate) fn run_rank<R: Wait, G: Gate + Drop>(
    rt: &R,
    hub: &Mutex<Hub>,
    channels: &[Channel],
    passage: Passage<G>,
    until: Until,
    seat: Seat,
) -> Done
    requires { IsReady channels.now seat }
    ensures { IsDone until channels.now seat.entry result }
{
    let mut seat = seat;
    passage.begin();
    take_turns(rt, hub, channels, &passage, until, &mut seat);
    drop(passage);
    seat.end()
}
