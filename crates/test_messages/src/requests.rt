//! The request table of `mp_request`: the six requests that its own worked rows speak of, and a table with none.

ghost use Rattle.std.specs.Prelude.{◌≡◌, ◌∷◌, [], true, false};
ghost use Rattle.mp_request.specs.Worked.{made, receive, six};
ghost use Rattle.mp_request.specs.Table.{no_requests, request_at};

use mp_request::{Refusal, Requests};

/// The lowest handle of a table in which none is open is 1.
pub fn first_handle(table: &Requests) -> Option<u8>
    requires { table.now ≡ no_requests }
    ensures { result ≡ Some 1 }
{
    table.lowest_free()
}

/// A persistent receive that completes stays, and is inactive.
pub fn persistent_completed(table: &mut Requests) -> Result<(), Refusal>
    requires { table.old ≡ six }
    ensures { request_at table.new 4 ≡ Some (made receive) }
{
    table.complete(4)
}

/// A persistent receive that is started isn't freed.
pub fn started_not_freed(table: &mut Requests) -> Result<(), Refusal>
    requires { table.old ≡ six }
    ensures refused { result ≡ Err Refusal.Active }
    ensures stays { table.new ≡ six }
{
    table.free(4)
}

/// A sent message is done, and a receive that waits behind it isn't.
pub fn second_not_done(table: &Requests, handles: &[u64]) -> Result<bool, Refusal>
    requires table { table.now ≡ six }
    requires handles { handles.now ≡ 2 ∷ 4 ∷ [] }
    ensures { result ≡ Ok false }
{
    table.all_done(handles)
}
