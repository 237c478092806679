//! Whether a rank was told to stop, as what it left shows.

ghost use Rattle.std.specs.Prelude.{◌≡◌, ◌<◌, ◌≤◌, false, length, true};
ghost use Rattle.cl_rank.specs.declared.stops.Stop.TheVariants as stops;
ghost use Rattle.cl_threads.specs.Cuts.{IsSomeTold};
ghost use Rattle.cl_threads.specs.Telling.{IsNoneTold};

use cl_rank::Stop;
use cl_record::{Plan, Record};

/// Whether a rank that stopped so after these turns was told to: they are fewer than its plan gives.
fn was_told(plan: &Plan, stop: Stop, turns: u64) -> bool
    ensures other { result ≡ false → stop ≡ stops.Budget → plan.now.budget ≤ turns }
    ensures told { result ≡ true → stop ≡ stops.Budget }
    ensures fewer { result ≡ true → turns < plan.now.budget }
{
    matches!(stop, Stop::Budget) && turns < plan.budget
}

/// Whether a rank stopped before it used up its turns, and says Budget all the same.
pub(crate) fn has_told(plans: &[Plan], left: &Record) -> bool
    requires stops { length left.now.stops.items ≡ length plans.now }
    requires traces { length left.now.traces.items ≡ length plans.now }
    ensures none { result ≡ false → IsNoneTold plans.now left.now }
    ensures some { result ≡ true → IsSomeTold plans.now left.now }
{
    for rank in 0..plans.len() {
        if was_told(&plans[rank], left.stops[rank], left.traces[rank].len()) {
            return true;
        }
    }
    false
}
