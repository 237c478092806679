//! Calls of the hub that aren't refused memory, each proved from the contract alone.

ghost use Rattle.std.specs.Prelude.{◌≡◌, ◌≢◌, ◌+◌, ◌-◌, ◌<◌, ◌^◌, ◌∷◌, [], length, max, IfOk};
ghost use Rattle.mp_types.specs.Carried.{IsInPlace};
ghost use Rattle.mp_hub.specs.Hub.{reply_of, hub_at_start};
ghost use Rattle.cl_journal.specs.Journal.{calls_of, entries_by};
ghost use Rattle.cl_journal.specs.Replaying.{clock_of};

use cl_journal::{Hub, HubFault};
use mp_hub::{CallFault, HubState};
use mp_types::{Code, Reply, Request, Stamp};

/// A poll whose message isn't there yet is answered so, whatever memory there is: behind the entry that ends the first
/// block of the journal but one.
pub fn vain_poll(
    hub: &mut Hub,
    rank: u8,
    clock: Stamp,
    post: u64,
) -> Result<(Reply, Stamp), HubFault>
    requires begun { length hub.old.entries ≡ 1023 }
    requires few { length (entries_by rank hub.old.entries) < 1048576 }
    requires low { max clock (clock_of hub.old) + 1 < 2 ^ 62 }
    requires vain { reply_of hub.old.links (calls_of hub.old.entries) rank (Request.Collect post) ≡ Reply.NotYet }
    ensures { result ≡ Ok (Reply.NotYet, max clock (clock_of hub.old) + 1) }
{
    hub.call(rank, 0, clock, Request::Collect { post })
}

/// So is a probe that finds nothing, behind the first entry of a block.
pub fn vain_probe(hub: &mut Hub, rank: u8, clock: Stamp) -> Result<(Reply, Stamp), HubFault>
    requires begun { length hub.old.entries ≡ 1025 }
    requires few { length (entries_by rank hub.old.entries) < 1048576 }
    requires low { max clock (clock_of hub.old) + 1 < 2 ^ 62 }
    requires vain { reply_of hub.old.links (calls_of hub.old.entries) rank (Request.Probe 0 None None) ≡ Reply.NotYet }
    ensures { result ≡ Ok (Reply.NotYet, max clock (clock_of hub.old) + 1) }
{
    let probe = Request::Probe {
        comm: 0,
        source: None,
        tag: None,
    };
    hub.call(rank, 0, clock, probe)
}

/// So is a cut, also one that is told: the tenth call of a hub.
pub fn told_cut(hub: &mut Hub, rank: u8, clock: Stamp, link: u8) -> Result<(Reply, Stamp), HubFault>
    requires begun { length hub.old.entries ≡ 9 }
    requires few { length (entries_by rank hub.old.entries) < 1048576 }
    requires low { max clock (clock_of hub.old) + 1 < 2 ^ 62 }
    requires told { reply_of hub.old.links (calls_of hub.old.entries) rank (Request.Cut link) ≡ Reply.Cut 3 64 }
    ensures { result ≡ Ok (Reply.Cut 3 64, max clock (clock_of hub.old) + 1) }
{
    hub.call(rank, 0, clock, Request::Cut { link })
}

/// And several requests of which one isn't complete, however many they are.
pub fn vain_test_of_all(
    hub: &mut Hub,
    rank: u8,
    clock: Stamp,
    request: Request,
) -> Result<(Reply, Stamp), HubFault>
    requires begun { length hub.old.entries ≡ 1 }
    requires few { length (entries_by rank hub.old.entries) < 1048576 }
    requires low { max clock (clock_of hub.old) + 1 < 2 ^ 62 }
    requires all { request ≡ Request.All (1 ∷ 2 ∷ 3 ∷ []) }
    requires vain { reply_of hub.old.links (calls_of hub.old.entries) rank (Request.All (1 ∷ 2 ∷ 3 ∷ []))
        ≡ Reply.NotYet }
    ensures { result ≡ Ok (Reply.NotYet, max clock (clock_of hub.old) + 1) }
{
    hub.call(rank, 0, clock, request)
}

/// A refusal that isn't for memory is told whatever memory there is, also by the first call of a hub.
pub fn full_before_memory(hub: &mut Hub, rank: u8) -> Result<(Reply, Stamp), HubFault>
    requires { hub.old.entries ≡ [] }
    ensures { result ≡ Err (HubFault.ClockFull (2 ^ 62 - 1)) }
{
    hub.call(
        rank,
        0,
        0x3fff_ffff_ffff_ffff,
        Request::Finished { post: 1 },
    )
}

/// A hub that was never called knows no post 5, and tells it whatever memory there is.
pub fn unknown_post_told(hub: &mut HubState, rank: u8) -> Result<Reply, CallFault>
    requires { hub.old ≡ hub_at_start [] }
    ensures { result ≡ Ok (Reply.Code Code.BadRequest) }
{
    let mut twin = None;
    hub.answer_with(rank, &Request::Collect { post: 5 }, &mut twin)
}

/// A reply that doesn't stand in place is there once more.
pub fn long_reply_has_a_twin(
    hub: &mut HubState,
    rank: u8,
    request: &Request,
    twin: &mut Option<Reply>,
) -> Result<Reply, CallFault>
    requires none { twin.old ≡ None }
    requires few { length hub.old.board.lines < 2 ^ 64 - 1 }
    ensures { IfOk result (λ reply. ¬ (IsInPlace reply) → twin.new ≡ Some reply) }
{
    hub.answer_with(rank, request, twin)
}
