//! Seats at their ends.

ghost use Rattle.std.specs.Prelude.{◌≡◌};
ghost use Rattle.cl_deeds.specs.Turns.{all_stopped};
ghost use Rattle.cl_record.specs.Seats.{station};
ghost use Rattle.cl_run.specs.Driver.{last_stop, told_stop};
ghost use Rattle.cl_state.specs.Room.{rank_of};

use cl_rank::{RankState, Stop};
use cl_record::{Done, Seat};

/// Whether all harts of a rank are stopped for good.
fn all_stopped(state: &RankState) -> bool
    ensures { result ≡ all_stopped (rank_of state.now) }
{
    state.harts.iter().all(|hart| hart.mode().is_stopped())
}

/// Why a rank stops that is told to.
fn told_stop(state: &RankState) -> Stop
    ensures { result ≡ told_stop (rank_of state.now) }
{
    if all_stopped(state) {
        Stop::AllEnded
    } else {
        Stop::Budget
    }
}

/// The rank of a seat at its end, and why it stopped; or where it hasn't stopped, it is told to.
pub(crate) fn close(seat: Seat) -> Done
    ensures rank { result.rank ≡ seat.entry.rank }
    ensures stop { result.stop ≡ last_stop (station seat.entry).rank seat.entry.stop }
{
    let mut seat = seat;
    if seat.stop.is_none() {
        seat.stop = Some(told_stop(&seat.rank.state));
    }
    seat.end()
}
