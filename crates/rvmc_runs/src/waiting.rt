//! Runs that a budget cut short, and harts that wait.

ghost use Rattle.std.specs.Prelude.{◌≡◌};
ghost use Rattle.rvmc_runs.specs.Waiting.{any_waits, has_waiting, is_budget, is_spent, is_waiting};

use cl_rank::{RankState, Stop};
use cl_record::Record;
use rv_hart::{Hart, Mode};

fn is_waiting(hart: &Hart) -> bool
    ensures { result ≡ is_waiting hart.now.mode }
{
    matches!(hart.mode(), Mode::Waiting(_))
}

fn has_waiting(state: &RankState) -> bool
    ensures { result ≡ has_waiting state.now }
{
    state.harts.iter().any(|hart| is_waiting(hart))
}

fn is_budget(stop: Stop) -> bool
    ensures { result ≡ is_budget stop }
{
    matches!(stop, Stop::Budget)
}

/// Whether a rank was stopped by its budget.
pub(crate) fn is_spent(left: &Record) -> bool
    ensures { result ≡ is_spent left.now }
{
    let stops = left.stops.as_slice();
    stops.iter().any(|stop| is_budget(*stop))
}

/// Whether a hart waits.
pub(crate) fn any_waits(left: &Record) -> bool
    ensures { result ≡ any_waits left.now }
{
    let states = left.ranks.as_slice();
    states.iter().any(|state| has_waiting(state))
}
