//! The kinds of turns, as columns.

ghost use Rattle.std.specs.Prelude.{◌≡◌};
ghost use Rattle.cl_machine.specs.SameSteps.{kind_seen};
ghost use Rattle.rvmc_stats.specs.Counted.{is_call as is_call_of, is_stopped_turn as is_idle_of, is_wait as is_wait_of};
ghost use Rattle.rvmc_stats.specs.Counted.{kind_place as kind_place_of};

use cl_machine::KindRef;
use cl_trace::Bare;
use mp_types::Reply;

/// The column of a kind.
pub(crate) fn kind_place(kind: KindRef<'_>) -> usize
    ensures { result ≡ kind_place_of (kind_seen kind.entry) }
{
    match kind {
        KindRef::Bare(Bare::Plain) => 0,
        KindRef::Bare(Bare::Local) => 1,
        KindRef::Hub(_) => 2,
        KindRef::Bare(Bare::Ready) => 3,
        KindRef::Bare(Bare::Take) => 4,
        KindRef::Bare(Bare::Miss) => 5,
        KindRef::Bare(Bare::Freed) => 6,
        KindRef::Bare(Bare::Held) => 7,
        KindRef::Bare(Bare::Idle) => 8,
    }
}

/// Whether a turn found nothing new, of a hart that isn't stopped.
pub(crate) fn is_wait(kind: KindRef<'_>) -> bool
    ensures { result ≡ is_wait_of (kind_seen kind.entry) }
{
    match kind {
        KindRef::Hub(reply) => matches!(reply, Reply::NotYet),
        KindRef::Bare(kind) => match kind {
            Bare::Miss | Bare::Held => true,
            Bare::Plain | Bare::Local | Bare::Ready | Bare::Take | Bare::Freed | Bare::Idle => {
                false
            }
        },
    }
}

/// Whether a turn made a call: it was neither an instruction nor one of a stopped hart.
pub(crate) fn is_call(kind: KindRef<'_>) -> bool
    ensures { result ≡ is_call_of (kind_seen kind.entry) }
{
    match kind {
        KindRef::Hub(_) => true,
        KindRef::Bare(kind) => match kind {
            Bare::Plain | Bare::Idle => false,
            Bare::Local | Bare::Ready | Bare::Take | Bare::Miss | Bare::Freed | Bare::Held => true,
        },
    }
}

/// Whether a turn was one of a stopped hart.
pub(crate) fn is_idle(kind: KindRef<'_>) -> bool
    ensures { result ≡ is_idle_of (kind_seen kind.entry) }
{
    matches!(kind, KindRef::Bare(Bare::Idle))
}
