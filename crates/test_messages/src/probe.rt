//! Claims of `mp_probe`: here rank 1 has claimed the message 2, and nothing else is claimed.

ghost use Rattle.std.specs.Prelude.{◌≡◌, ◌↔◌, ◌∷◌, [], IsTrue};

use mp_probe::{ClaimFault, Claims};

/// Only the message that was claimed waits.
pub fn one_waits(claims: &Claims, message: u64) -> bool
    requires { claims.now ≡ record { message = 2; rank = 1 } ∷ [] }
    ensures { IsTrue result ↔ (message ≡ 2) }
{
    claims.is_waiting(message)
}

/// Another rank may not receive it, and it waits on.
pub fn received_by_another(claims: &mut Claims) -> Result<(), ClaimFault>
    requires { claims.old ≡ record { message = 2; rank = 1 } ∷ [] }
    ensures refused { result ≡ Err ClaimFault.BadMessage }
    ensures waits { claims.new ≡ claims.old }
{
    claims.receive_claimed(0, 2)
}

/// The rank that claimed it may receive it, and it waits no longer.
pub fn received_by_its_rank(claims: &mut Claims) -> Result<(), ClaimFault>
    requires { claims.old ≡ record { message = 2; rank = 1 } ∷ [] }
    ensures received { result ≡ Ok tt }
    ensures gone { claims.new ≡ [] }
{
    claims.receive_claimed(1, 2)
}
