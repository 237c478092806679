//! Calls of `cl_journal`.

ghost use Rattle.std.specs.Prelude.{◌≡◌, ◌≢◌, ◌<◌, ◌^◌, ◌-◌, ℕ, length, IfOk};
ghost use Rattle.cl_journal.specs.Journal.{entries_by};
ghost use Rattle.cl_journal.specs.Replaying.{clock_of};

use cl_journal::{Hub, HubFault};
use mp_types::{Reply, Request, Stamp};

/// Where the hub's clock is full, it's the hub's clock that the refusal carries.
pub fn call_at_a_full_clock(
    hub: &mut Hub,
    rank: u8,
    clock: Stamp,
) -> Result<(Reply, Stamp), HubFault>
    requires few { length (entries_by rank hub.old.entries) < 1048576 }
    requires full { clock_of hub.old ≡ 2 ^ 62 - 1 }
    requires behind { clock < 2 ^ 62 - 1 }
    ensures { result ≡ Err (HubFault.ClockFull (2 ^ 62 - 1)) }
{
    hub.call(rank, 0, clock, Request::Finished { post: 1 })
}

/// One stamp is left where the greater clock is 2^62 - 2.
pub fn call_at_the_last_stamp(hub: &mut Hub, rank: u8) -> Result<(Reply, Stamp), HubFault>
    requires few { length (entries_by rank hub.old.entries) < 1048576 }
    requires last { clock_of hub.old ≡ 2 ^ 62 - 2 }
    ensures stamp { IfOk result (λ told. told.1 ≡ 2 ^ 62 - 1) }
    ensures refused { (c : ℕ) → result ≢ Err (HubFault.ClockFull c) }
{
    hub.call(rank, 0, 0, Request::Finished { post: 1 })
}

/// A rank that has made 1,048,575 calls may make one more.
pub fn the_last_call(hub: &mut Hub, rank: u8, clock: Stamp) -> Result<(Reply, Stamp), HubFault>
    requires { length (entries_by rank hub.old.entries) ≡ 1048575 }
    ensures { (n : ℕ) → result ≢ Err (HubFault.Calls n) }
{
    hub.call(rank, 0, clock, Request::Finished { post: 1 })
}

/// A rank that has made 1,048,576 calls makes no more.
pub fn one_call_too_many(hub: &mut Hub, rank: u8, clock: Stamp) -> Result<(Reply, Stamp), HubFault>
    requires { length (entries_by rank hub.old.entries) ≡ 1048576 }
    ensures { result ≡ Err (HubFault.Calls 1048576) }
{
    hub.call(rank, 0, clock, Request::Finished { post: 1 })
}
