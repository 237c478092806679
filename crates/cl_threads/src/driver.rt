//! A thread for each rank.

ghost use Rattle.std.specs.Prelude.{◌≡◌, ◌≤◌, ◌⊎◌, IfErr, IfOk, length};
ghost use Rattle.std.specs.VecDeque.{deque_capacity};
ghost use Rattle.rv_image_types.specs.Limits.{most_ranks};
ghost use Rattle.cl_threads.specs.OnThreads.{AreDone, AreSeated, IsDone, IsReady};

use crate::gates::{Gate, Passage};
use crate::turns::run_rank;
use crate::until::Until;
use cl_journal::Hub;
use cl_record::{Done, RunFault, Seat};
use part_channel::Channel;
use std::alloc::{AllocError, Global};
use std::collections::VecDeque;
use std::snapshot::Snapshot;
use std::sync::{Mutex, Wait};
use std::thread;
use std::thread::{Promise, Scope, Threads};

/// A thread for a rank was refused.
#[derive(Clone, Copy, Drop, Debug)]
pub(crate) struct NoThread;

/// What the thread of a rank promises: the rank comes back as it went by itself.
#[derive(Drop)]
struct GoesAlone<'a, 'p> {
    until: Until,
    channels: &'a [Channel],
    seat: Snapshot<Seat<'p>>,
}

impl<'a, 'p> Promise<Done> for GoesAlone<'a, 'p> {
    ghost use Rattle.cl_threads.specs.OnThreads.{IsDone};

    ghost kept_by = { λ p done. IsDone p.until p.channels.now p.seat.value done };
}

/// The ranks' ways past the gate, by their numbers. Whoever drops one passes `End` for its rank.
fn passages<'g, G: Gate>(
    alloc: Global,
    gate: &'g G,
    ranks: u8,
) -> Result<VecDeque<Passage<&'g G>>, AllocError>
    ensures { IfOk result (λ all. length all.items ≡ ranks) }
{
    let mut all = VecDeque::new(alloc);
    for rank in 0..ranks {
        all.push_back(Passage::new(gate, rank))?;
    }
    Ok(all)
}

/// Starts the first of these ranks, does the ranks above it, and joins it. Where a thread is refused, the gate is
/// passed at once by the ranks that weren't started, and the others are joined.
fn run_from<'s, 'p: 's, E, R: Threads + Wait + Sync, G: Gate + Send + Drop + 's>(
    scope: &Scope<'s, E>,
    rt: &'s R,
    hub: &'s Mutex<Hub>,
    channels: &'s [Channel],
    mut passages: VecDeque<Passage<G>>,
    until: Until,
    mut seats: VecDeque<Seat<'p>>,
    done: VecDeque<Done>,
) -> Result<VecDeque<Done>, NoThread>
    requires seated { AreSeated channels.now seats.items (length passages.items) done.items (deque_capacity done) }
    ensures done { IfOk result (λ all. AreDone until channels.now seats.entry.items all.items) }
    ensures room { IfOk result (λ all. deque_capacity all ≡ deque_capacity done) }
{
    let Some(passage) = passages.pop_front() else {
        return Ok(done);
    };
    let Some(seat) = seats.pop_front() else {
        return Ok(done);
    };
    let promise = GoesAlone {
        until,
        channels,
        seat: Snapshot::of(&seat),
    };
    let started = scope.spawn_with(
        promise,
        move || -> Done
            requires { IsReady channels.now seat }
            ensures { IsDone until channels.entry.now seat.entry result }
        { run_rank(rt, hub, channels, passage, until, seat) },
    );
    match started {
        Err(refused) => {
            drop(refused);
            Err(NoThread)
        }
        Ok(thread) => {
            let others = run_from(scope, rt, hub, channels, passages, until, seats, done);
            let first = thread.join(rt);
            let Ok(mut all) = others else {
                drop(first);
                return Err(NoThread);
            };
            all.push_front_reserved(first);
            Ok(all)
        }
    }
}

/// All ranks, each on a thread of its own, past this gate, from their first turns to their stops.
///
/// Refusals: Memory for the ways past the gate, before the first turn; Spawn.
pub(crate) fn run_all<'e, 'p: 'e, R: Threads + Wait + Sync, G: Gate>(
    rt: &'e R,
    alloc: Global,
    hub: &'e Mutex<Hub>,
    channels: &'e [Channel],
    gate: &'e G,
    until: Until,
    seats: VecDeque<Seat<'p>>,
    done: VecDeque<Done>,
) -> Result<VecDeque<Done>, RunFault>
    requires few { length seats.items ≤ most_ranks }
    requires seated { AreSeated channels.now seats.items (length seats.items) done.items (deque_capacity done) }
    ensures done { IfOk result (λ all. AreDone until channels.now seats.entry.items all.items) }
    ensures fault { IfErr result (λ fault. (fault ≡ RunFault.Memory) ⊎ (fault ≡ RunFault.Spawn)) }
{
    let Ok(passages) = passages(alloc, gate, seats.len() as u8) else {
        return Err(RunFault::Memory);
    };
    let ran = thread::scope(
        thread::scope_env::<'e>(),
        rt,
        move |scope| -> Result<VecDeque<Done>, NoThread>
            requires { AreSeated channels.now seats.items (length passages.items) done.items (deque_capacity done) }
            ensures { IfOk result (λ all. AreDone until channels.entry.now seats.entry.items all.items) }
        { run_from(scope, rt, hub, channels, passages, until, seats, done) },
    );
    match ran {
        Ok(all) => Ok(all),
        Err(NoThread) => Err(RunFault::Spawn),
    }
}
