//! What is answered of the one list of all events.

ghost use Rattle.std.specs.Prelude.{◌≡◌, ◌<◌, ◌≤◌, ◌∷◌, ℕ, [], All, IfOk, length, map};
ghost use Rattle.cl_record.specs.Records.{step_by};
ghost use Rattle.cl_trace.specs.declared.events.Event.{Event};
ghost use Rattle.test_cluster.specs.Merges.{SendAndReceive, one_of_each};

use cl_machine::Step;
use cl_merge::merge;
use cl_record::Record;
use cl_trace::Event;
use std::alloc::{AllocError, Global};

/// Of two ranks with one event each, the one of the lower stamp stands first, though its rank's number is higher.
pub fn the_earlier_comes_first(
    alloc: Global,
    left: &Record,
    early: &Event,
    late: &Event,
) -> Result<Vec<Step>, AllocError>
    requires stamps { early.now.stamp < late.now.stamp }
    requires traces { map (λ trace. trace.events) left.now.traces.items ≡ (late.now ∷ []) ∷ (early.now ∷ []) ∷ [] }
    ensures { IfOk result (λ steps. steps.items ≡ step_by 1 early.now ∷ step_by 0 late.now ∷ []) }
{
    merge(alloc, left)
}

/// Of two ranks with one event each of the same stamp, the one of the lower rank stands first.
pub fn the_lower_rank_comes_first(
    alloc: Global,
    left: &Record,
    low: &Event,
    high: &Event,
) -> Result<Vec<Step>, AllocError>
    requires stamps { low.now.stamp ≡ high.now.stamp }
    requires traces { map (λ trace. trace.events) left.now.traces.items ≡ (low.now ∷ []) ∷ (high.now ∷ []) ∷ [] }
    ensures { IfOk result (λ steps. steps.items ≡ step_by 0 low.now ∷ step_by 1 high.now ∷ []) }
{
    merge(alloc, left)
}

/// Of 256 ranks with one event each, all of the same stamp, the events stand by their ranks, and so of fewer ranks.
pub fn equal_stamps_come_by_rank(
    alloc: Global,
    left: &Record,
    events: &[Event],
) -> Result<Vec<Step>, AllocError>
    requires few { length events.now ≤ 256 }
    requires stamps { (stamp : ℕ) × All (λ event. event.stamp ≡ stamp) events.now }
    requires traces { map (λ trace. trace.events) left.now.traces.items ≡ map (λ event. event ∷ []) events.now }
    ensures { IfOk result (λ steps. steps.items ≡ one_of_each 0 events.now) }
{
    merge(alloc, left)
}

/// A receive is posted at stamp 1, the send has 4, and the receive is collected at 5. At stamp 1 the sender, rank 0,
/// stands first.
pub fn a_send_stands_between_post_and_collect(
    alloc: Global,
    left: &Record,
) -> Result<Vec<Step>, AllocError>
    ensures { (one two three send receive collect : Event) → SendAndReceive one two three send receive collect
        → map (λ trace. trace.events) left.now.traces.items
        ≡ (one ∷ two ∷ three ∷ send ∷ []) ∷ (receive ∷ collect ∷ []) ∷ []
        → IfOk result (λ steps. steps.items
        ≡ step_by 0 one ∷ step_by 1 receive ∷ step_by 0 two ∷ step_by 0 three ∷ step_by 0 send
        ∷ step_by 1 collect ∷ []) }
{
    merge(alloc, left)
}
