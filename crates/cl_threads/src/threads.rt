//! All ranks, each on a thread of its own.

ghost use Rattle.std.specs.Prelude.{◌≡◌, ◌↔◌, ◌≤◌, Err, IfErr, IfOk, OnOk, false, length, map, true};
ghost use Rattle.rv_image_types.specs.Limits.{most_ranks};
ghost use Rattle.cl_arrival_laws.specs.Runs.{IsArrivedRun};
ghost use Rattle.cl_journal.specs.Replaying.{Replays};
ghost use Rattle.cl_record.specs.Plans.{HasPlans};
ghost use Rattle.cl_record.specs.Records.{IsMergedRun};
ghost use Rattle.cl_record.specs.Settling.{MaySettle};
ghost use Rattle.cl_record.specs.Leaving.{HaveRoom, IsRecordOf, ends_of, trace_of};
ghost use Rattle.cl_threads.specs.Loading.{IsCluster};
ghost use Rattle.cl_threads.specs.Cuts.{IsEndedThreadRun, IsRunUntil, IsSomeTold};
ghost use Rattle.cl_threads.specs.CutRefusals.{IsEndedRefusal, IsRefusalUntil};
ghost use Rattle.cl_threads.specs.Refusals.{IsRefusal};
ghost use Rattle.cl_threads.specs.Runs.{IsThreadRun};
ghost use Rattle.cl_threads.specs.Callers.{AreOf};
ghost use Rattle.cl_threads.specs.Ties.{AreTied, IsUnlikeLeft};

use crate::driver::run_all;
use crate::gates::Gate;
use crate::leaving::leave;
use crate::loading::Cluster;
use crate::ties::{are_same_links, compare};
use crate::told::has_told;
use crate::until::Until;
use cl_journal::Hub;
use cl_record::{Done, Lists, Plan, Record, RunFault, has_plans};
use part_channel::Channel;
use rv_image_types::Image;
use std::alloc::Global;
use std::collections::VecDeque;
use std::sync::{Mutex, Wait};
use std::thread::Threads;

/// What the threads left, as a record, if it fits together: the hub has the image's links, and just the calls of these
/// ranks. Else Unlike.
fn gather(
    image: &Image,
    channels: Vec<Channel>,
    hub: Hub,
    done: VecDeque<Done>,
    lists: Lists,
) -> Result<Record, RunFault>
    requires settle { MaySettle image.now.links channels.items (map ends_of done.items) }
    requires room { HaveRoom (length done.items) (length image.now.links) lists }
    requires few { length done.items ≤ most_ranks }
    ensures links { OnOk result (hub.links ≡ image.now.links) }
    ensures replays { OnOk result (Replays hub) }
    ensures left { IfOk result (IsRecordOf image.now.links channels.items hub.entries done.items) }
    ensures tied { IfOk result (λ left. AreTied left.journal.items left.traces.items) }
    ensures of { IfOk result (λ left. AreOf image.now.ranks left.journal.items) }
    ensures unlike { IfErr result (IsUnlikeLeft image.now hub.links hub.entries (map trace_of done.items)) }
{
    let parts = image.parts();
    if !are_same_links(hub.links(), parts.links.as_slice()) {
        drop(hub);
        drop(lists);
        return Err(RunFault::Unlike {
            rank: 255,
            place: 0,
        });
    }
    // ghost: brings into scope that the entries replay; no effect at run time
    let _entries = hub.entries();
    let left = leave(channels, hub, done, lists);
    match compare(parts.ranks, left.traces.as_slice(), &left.journal) {
        Ok(()) => Ok(left),
        Err(fault) => {
            drop(left);
            Err(fault)
        }
    }
}

/// Runs ranks that are loaded, each on a thread of its own.
fn run_cluster<R: Threads + Wait + Sync, G: Gate>(
    rt: &R,
    alloc: Global,
    cluster: Cluster,
    image: &Image,
    plans: &[Plan],
    gate: &G,
    until: Until,
) -> Result<Record, RunFault>
    requires planned { HasPlans image.now plans.now }
    requires loaded { IsCluster image.now plans.now cluster }
    ensures run { IfOk result (IsRunUntil until image.now plans.now) }
    ensures fault { IfErr result (IsRefusalUntil until image.now plans.now) }
{
    // ghost: brings into scope that there are 8 ranks at most; no effect at run time
    let _parts = image.parts();
    let Cluster {
        seats,
        hub,
        channels,
        done,
        lists,
    } = cluster;
    let hub = Mutex::new(hub);
    let ran = run_all(
        rt,
        alloc,
        &hub,
        channels.as_slice(),
        gate,
        until,
        seats,
        done,
    );
    let hub = hub.into_inner();
    match ran {
        Ok(done) => gather(image, channels, hub, done, lists),
        Err(fault) => {
            drop(hub);
            drop(lists);
            Err(fault)
        }
    }
}

/// Runs each rank of the image on a thread of its own, until each is stopped, by its plan or because it was told to.
fn run_until<R: Threads + Wait + Sync, G: Gate>(
    rt: &R,
    alloc: Global,
    image: &Image,
    plans: &[Plan],
    gate: &G,
    until: Until,
) -> Result<Record, RunFault>
    ensures run { IfOk result (IsRunUntil until image.now plans.now) }
    ensures right { OnOk result (HasPlans image.now plans.now) }
    ensures plans { (result ≡ Err RunFault.Plans) ↔ ¬ HasPlans image.now plans.now }
    ensures fault { IfErr result (IsRefusalUntil until image.now plans.now) }
{
    if !has_plans(image, plans) {
        return Err(RunFault::Plans);
    }
    let Ok(cluster) = Cluster::load(alloc, image, plans) else {
        return Err(RunFault::Memory);
    };
    run_cluster(rt, alloc, cluster, image, plans, gate, until)
}

/// Runs each rank of the image on a thread of its own, by its plan, until each is stopped. All ranks call one hub,
/// behind a lock, and share the boxes of their links without one. Before each turn a rank passes the gate.
///
/// The record is of ranks that went alone, of a journal that has just their calls, and of boxes that have what they
/// made and took, so that what they did fits together.
/// Which of them went first where they met is known from the stamps alone.
///
/// Refusals: Plans where a plan is wrong (and just there); Memory where the ranks, the hub or the record find no room,
/// before the first turn; Spawn where a thread is refused; Unlike where what the threads left doesn't fit together. It
/// waits for the lock and for the threads, and what it promises holds if it returns.
pub fn run_threads<R: Threads + Wait + Sync, G: Gate>(
    rt: &R,
    alloc: Global,
    image: &Image,
    plans: &[Plan],
    gate: &G,
) -> Result<Record, RunFault>
    ensures run { IfOk result (IsThreadRun image.now plans.now) }
    ensures merged { IfOk result (IsMergedRun image.now) }
    ensures arrived { IfOk result (IsArrivedRun image.now) }
    ensures plans { (result ≡ Err RunFault.Plans) ↔ ¬ HasPlans image.now plans.now }
    ensures fault { IfErr result (IsRefusal image.now plans.now) }
{
    // ghost: brings into scope that the parts are those of an image; no effect at run time
    let _parts = image.parts();
    run_until(rt, alloc, image, plans, gate, Until::Planned)
}

/// What a run leaves, and how it came to its end.
#[derive(Drop)]
pub struct Ended {
    pub left: Record,
    /// A rank was told to stop. Of such a rank the record says Budget, with fewer turns than its plan gives.
    pub told: bool,
}

/// Runs each rank of the image on a thread of its own, as `run_threads` does, but that ranks are told to stop once all that
/// are left look in vain, by the gate's roll. Without a roll nobody is.
///
/// That nobody could go on is no part of the promise: it's to be asked of what the run left.
///
/// Refusals: those of `run_threads`.
pub fn run_threads_until_told<R: Threads + Wait + Sync, G: Gate>(
    rt: &R,
    alloc: Global,
    image: &Image,
    plans: &[Plan],
    gate: &G,
) -> Result<Ended, RunFault>
    ensures run { IfOk result (λ ended. IsEndedThreadRun image.now plans.now ended.left) }
    ensures whole { IfOk result (λ ended. ended.told ≡ false → IsThreadRun image.now plans.now ended.left) }
    ensures told { IfOk result (λ ended. ended.told ≡ true → IsSomeTold plans.now ended.left) }
    ensures merged { IfOk result (λ ended. IsMergedRun image.now ended.left) }
    ensures arrived { IfOk result (λ ended. IsArrivedRun image.now ended.left) }
    ensures right { OnOk result (HasPlans image.now plans.now) }
    ensures plans { (result ≡ Err RunFault.Plans) ↔ ¬ HasPlans image.now plans.now }
    ensures fault { IfErr result (IsEndedRefusal image.now plans.now) }
{
    // ghost: brings into scope that the parts are those of an image; no effect at run time
    let _parts = image.parts();
    let left = run_until(rt, alloc, image, plans, gate, Until::Told)?;
    let told = has_told(plans, &left);
    Ok(Ended { left, told })
}
