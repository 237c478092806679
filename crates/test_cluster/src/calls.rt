//! What is answered of the hub calls of traces.

ghost use Rattle.std.specs.Prelude.{◌≡◌, ◌∷◌, List, IsSomeAnd, true, false};
ghost use Rattle.cl_trace.specs.Calls.{is_hub};
ghost use Rattle.cl_trace.specs.Traces.{at_stamp};
ghost use Rattle.cl_trace.specs.declared.events.Event.{Event};

use cl_trace::{Called, Trace};
use std::alloc::Global;

/// A new trace has no calls.
pub fn a_new_trace_has_no_calls(alloc: Global) -> bool
    ensures { result ≡ true }
{
    let trace = Trace::new(alloc);
    let mut calls = trace.calls();
    calls.next().is_none()
}

/// A call is read with the stamp of the event before it, which may be one that is no call.
pub fn a_call_is_read_with_the_clock_before(trace: &Trace) -> Option<Called<'_>>
    ensures { (before call : Event) (rest : List Event) → trace.now.events ≡ before ∷ call ∷ rest
        → is_hub before.kind ≡ false → is_hub call.kind ≡ true
        → IsSomeAnd result (λ read. (read.clock ≡ before.stamp) × (at_stamp read.like.now read.stamp ≡ call)) }
{
    let mut calls = trace.calls();
    calls.next()
}

/// The clock before the first event is 0.
pub fn the_first_clock_is_0(trace: &Trace) -> Option<Called<'_>>
    ensures { (call : Event) (rest : List Event) → trace.now.events ≡ call ∷ rest → is_hub call.kind ≡ true
        → IsSomeAnd result (λ read. (read.clock ≡ 0) × (at_stamp read.like.now read.stamp ≡ call)) }
{
    let mut calls = trace.calls();
    calls.next()
}
