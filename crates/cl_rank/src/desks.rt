//! Where a rank makes its calls of the hub.

ghost use Rattle.std.specs.Prelude.{◌≡◌, ◌<◌, ◌^◌, IfOk, IfErr};
ghost use Rattle.cl_rank.specs.Turning.{Answered, IsFault};

use cl_journal::{Hub, HubFault};
use mp_types::{Reply, Request, Stamp};
use std::sync::{Mutex, Wait};

/// What a call of the hub gives: its reply with its stamp, or why it was refused.
pub type Replied = Result<(Reply, Stamp), HubFault>;

/// Where a rank makes its calls of the hub. `R` is the handle that a call is passed.
pub trait Desk<R> {
    ghost use Rattle.std.specs.Prelude.{ℕ, ◌<◌, ◌^◌, IfOk, IfErr, Result};
    ghost use Rattle.mp_types.specs.declared.requests.Request.{Request};
    ghost use Rattle.mp_types.specs.declared.replies.Reply.{Reply};
    ghost use Rattle.cl_journal.specs.declared.journal.HubFault.{HubFault};
    ghost use Rattle.cl_rank.specs.Turning.{IsFault};

    // the desk before, the rank, the hart, the rank's clock, the
    // request, what was answered with its stamp, the desk after
    ghost gives: { Self → ℕ → ℕ → ℕ → Request → Result (Reply × ℕ) HubFault → Self → Type 0 };

    /// Makes one call of a rank, whose clock is given. An answer's stamp is above that clock and below 2^62.
    fn call(&mut self, rt: &R, rank: u8, hart: u8, clock: Stamp, request: Request) -> Replied
        requires { clock < 2 ^ 62 }
        ensures gives { gives self.old rank hart clock request result self.new }
        ensures stamp { IfOk result (λ told. (clock < told.1) × (told.1 < 2 ^ 62)) }
        ensures refused { IfErr result IsFault };
}

/// The hub under its lock, for ranks on threads of their own. What the hub held can't be seen from outside.
#[derive(Clone, Copy)]
pub struct LockedDesk<'a> {
    pub hub: &'a Mutex<Hub>,
}

impl<'a, R: Wait> Desk<R> for LockedDesk<'a> {
    ghost use Rattle.cl_journal.specs.Replaying.{HubHistory};
    ghost use Rattle.cl_rank.specs.Turning.{Answered};

    // some journal before and one after answered just this call of just this rank and hart
    ghost gives = { λ before rank hart clock request told after. (j : HubHistory) ×
        (k : HubHistory) × Answered j rank hart clock request told k };

    #[inline(always)]
    fn call(&mut self, rt: &R, rank: u8, hart: u8, clock: Stamp, request: Request) -> Replied {
        let mut hub = self.hub.lock(rt);
        call_hub(&mut *hub, rank, hart, clock, request)
    }
}

/// The hub itself, for ranks on one thread.
#[derive(Drop)]
pub struct PlainDesk<'a> {
    pub hub: &'a mut Hub,
}

impl<'a, R> Desk<R> for PlainDesk<'a> {
    ghost use Rattle.cl_rank.specs.Turning.{Answered};

    // the desk keeps its reference to the hub, so that its owner learns what the hub became
    ghost gives = { λ before rank hart clock request told after. (after.hub.ghost_name
        ≡ before.hub.ghost_name) × Answered before.hub.now rank hart clock request told after.hub.now };

    #[inline(always)]
    fn call(&mut self, _rt: &R, rank: u8, hart: u8, clock: Stamp, request: Request) -> Replied {
        call_hub(self.hub, rank, hart, clock, request)
    }
}

/// A call of the hub itself.
#[tactic(auto, using(crate::proofs::Clocks::is_fault))]
#[inline(always)]
fn call_hub(hub: &mut Hub, rank: u8, hart: u8, clock: Stamp, request: Request) -> Replied
    requires { clock < 2 ^ 62 }
    ensures answered { Answered hub.old rank hart clock request result hub.new }
    ensures stamp { IfOk result (λ told. (clock < told.1) × (told.1 < 2 ^ 62)) }
    ensures refused { IfErr result IsFault }
{
    // ghost: brings into scope that the entries replay, so the hub's clock is below 2^62; no effect at run time
    let _entries = hub.entries();
    hub.call(rank, hart, clock, request)
}
