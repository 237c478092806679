//! What is answered of traces.

ghost use Rattle.std.specs.Prelude.{◌≡◌, ◌<◌, ◌+◌, ◌^◌, ◌++◌, ◌∷◌, List, [], length, IfOk, IfSome, OnOk, Ok, Some};
ghost use Rattle.std.specs.Prelude.{true, false};
ghost use Rattle.cl_trace.specs.declared.events.Bare.TheVariants.{Plain};
ghost use Rattle.cl_trace.specs.declared.events.Event.{Event};
ghost use Rattle.cl_trace.specs.Rising.{last_stamp};
ghost use Rattle.cl_trace.specs.Traces.{bare_event};
ghost use Rattle.cl_trace.specs.Carried.{carried_by_kind};
ghost use Rattle.test_cluster.specs.Reads.{Reads};

use cl_trace::{Bare, Cursor, Event, Kind, Seen, Trace};
use mp_types::Stamp;
use std::alloc::{AllocError, Global};

/// A new trace counts no event.
pub fn a_new_trace_counts_none(alloc: Global) -> u64
    ensures { result ≡ 0 }
{
    Trace::new(alloc).len()
}

/// A reader of a new trace meets nothing.
pub fn a_new_trace_shows_nothing(alloc: Global) -> bool
    ensures { result ≡ true }
{
    let trace = Trace::new(alloc);
    let mut cursor = trace.cursor();
    cursor.next().is_none()
}

/// Where room was made, one event more is counted.
pub fn a_push_counts_one(trace: &mut Trace, event: Event) -> Result<u64, AllocError>
    requires rises { last_stamp 0 trace.old.events < event.stamp }
    requires low { event.stamp < 2 ^ 62 }
    requires few { length trace.old.events + 1 < 2 ^ 64 }
    ensures { IfOk result (λ count. count ≡ length trace.old.events + 1) }
{
    trace.reserve()?;
    trace.push(event);
    Ok(trace.len())
}

/// An instruction and then any event stand behind those before as they were pushed: of whichever hart and kind they
/// are, whether their stamps follow one another or not, and whatever runs the trace keeps.
pub fn both_stand_as_pushed(
    trace: &mut Trace,
    hart: u8,
    stamp: Stamp,
    event: Event,
) -> Result<(), AllocError>
    requires first { last_stamp 0 trace.old.events < stamp }
    requires second { stamp < event.stamp }
    requires low { event.stamp < 2 ^ 62 }
    requires few { length trace.old.events + 2 < 2 ^ 64 }
    ensures { OnOk result (trace.new.events ≡ trace.old.events ++ bare_event hart Plain stamp ∷ event ∷ []) }
{
    trace.reserve()?;
    trace.push_plain(hart, stamp);
    trace.reserve()?;
    trace.push(event);
    Ok(())
}

/// No trace has an event whose stamp isn't above 0 and above that of each event before it.
pub fn stamps_rise(trace: &Trace)
    ensures first { (before after : List Event) (event : Event) → trace.now.events ≡ before ++ event ∷ after
        → 0 < event.stamp }
    ensures later { (before between after : List Event) (early late : Event)
        → trace.now.events ≡ before ++ early ∷ (between ++ late ∷ after) → early.stamp < late.stamp }
{
    let _cursor = trace.cursor();
}

/// Room that is there is found again without memory.
pub fn room_is_found_again(trace: &mut Trace) -> bool
    requires { 0 < trace.old.room }
    ensures { result ≡ true }
{
    trace.reserve().is_ok()
}

/// Two events are read one after the other, each once.
pub fn two_are_read_in_order<'a>(cursor: &mut Cursor<'a>) -> (Option<Seen<'a>>, Option<Seen<'a>>)
    ensures { (first second : Event) (rest : List Event) → cursor.old ≡ first ∷ second ∷ rest
        → Reads first result.0 × Reads second result.1 × (cursor.new ≡ rest) }
{
    (cursor.next(), cursor.next())
}

/// What is seen ahead is what is read next.
pub fn first_is_seen_ahead<'a>(cursor: &mut Cursor<'a>) -> (Option<Seen<'a>>, Option<Seen<'a>>)
    ensures { (first : Event) (rest : List Event) → cursor.old ≡ first ∷ rest
        → Reads first result.0 × Reads first result.1 × (cursor.new ≡ rest) }
{
    (cursor.peek(), cursor.next())
}

/// A reader begins with the first event, however few there are.
pub fn a_reader_begins_with_the_first(trace: &Trace) -> Option<Seen<'_>>
    ensures { (first : Event) (rest : List Event) → trace.now.events ≡ first ∷ rest → Reads first result }
{
    let mut cursor = trace.cursor();
    cursor.next()
}

/// A kind that carries no elements is copied whatever memory there is.
pub fn empty_kind_copied(alloc: Global, kind: &Kind) -> Result<Kind, AllocError>
    requires { carried_by_kind kind.now ≡ 0 }
    ensures { result ≡ Ok kind.now }
{
    kind.try_copy(alloc)
}

/// What carries nothing is found again in the kind that is made of it.
pub fn bare_is_found_again(bare: Bare) -> Option<Bare>
    ensures { result ≡ Some bare }
{
    Kind::from(bare).bare()
}

/// A look in vain is no look that found a partition taken.
pub fn a_miss_is_not_freed() -> bool
    ensures { result ≡ false }
{
    Kind::Miss.is_same(&Kind::Freed)
}

/// Two events that are read in the order of a trace have stamps in that order.
pub fn a_reader_sees_stamps_rise(trace: &Trace) -> Option<(Stamp, Stamp)>
    ensures { IfSome result (λ stamps. stamps.0 < stamps.1) }
{
    let mut cursor = trace.cursor();
    let first = cursor.next()?;
    let second = cursor.next()?;
    Some((first.stamp(), second.stamp()))
}
