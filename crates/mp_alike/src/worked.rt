//! Worked pairs of hubs: whether names are found is what the definitions give.

ghost use Rattle.std.specs.Prelude.{◌≡◌, ◌∷◌, [], None, IfOk, IsSome, false};
ghost use Rattle.mp_types.specs.declared.requests.Request.TheVariants as request;
ghost use Rattle.mp_hub.specs.RankRows.{sends_in};
ghost use Rattle.mp_alike_laws.specs.Rows.{after, claims_any, sends_sync};
ghost use Rattle.mp_source_laws.specs.Rows.{first_complete, sent_to_receive};

use crate::alike::alike_names;
use crate::live::live_names;
use crate::names::Names;
use crate::whole::WholeHub;
use std::alloc::{AllocError, Global};

/// Sends to two ranks, in either order: there are names.
pub fn to_two_ranks(alloc: Global, a: &WholeHub, b: &WholeHub) -> Result<Option<Names>, AllocError>
    requires first { a.now ≡ after (sends_in 0 0 2 7 97 ∷ sends_in 0 1 3 7 98 ∷ []) }
    requires second { b.now ≡ after (sends_in 0 1 3 7 98 ∷ sends_in 0 0 2 7 97 ∷ []) }
    ensures { IfOk result (λ found. IsSome found) }
{
    alike_names(alloc, a, b)
}

/// To one rank, there are none: the order of sends that wait is kept.
pub fn to_one_rank(alloc: Global, a: &WholeHub, b: &WholeHub) -> Result<Option<Names>, AllocError>
    requires first { a.now ≡ after (sends_in 0 0 2 7 97 ∷ sends_in 0 1 2 7 98 ∷ []) }
    requires second { b.now ≡ after (sends_in 0 1 2 7 98 ∷ sends_in 0 0 2 7 97 ∷ []) }
    ensures { IfOk result (λ found. found ≡ None) }
{
    alike_names(alloc, a, b)
}

/// Nor are there for two sends of one rank: messages are kept.
pub fn of_one_rank(alloc: Global, a: &WholeHub, b: &WholeHub) -> Result<Option<Names>, AllocError>
    requires first { a.now ≡ after (sends_in 0 0 2 7 97 ∷ sends_in 0 0 2 7 98 ∷ []) }
    requires second { b.now ≡ after (sends_in 0 0 2 7 98 ∷ sends_in 0 0 2 7 97 ∷ []) }
    ensures { IfOk result (λ found. found ≡ None) }
{
    alike_names(alloc, a, b)
}

/// Nor for two claims in the other order: their numbers are kept.
pub fn by_two_claims(alloc: Global, a: &WholeHub, b: &WholeHub) -> Result<Option<Names>, AllocError>
    requires first { a.now
        ≡ after (sends_in 0 0 2 7 97 ∷ sends_in 0 1 3 7 98 ∷ claims_any 2 ∷ claims_any 3 ∷ []) }
    requires second { b.now
        ≡ after (sends_in 0 0 2 7 97 ∷ sends_in 0 1 3 7 98 ∷ claims_any 3 ∷ claims_any 2 ∷ []) }
    ensures { IfOk result (λ found. found ≡ None) }
{
    alike_names(alloc, a, b)
}

/// Nor where a message was collected in one of the two.
pub fn one_collected(alloc: Global, a: &WholeHub, b: &WholeHub) -> Result<Option<Names>, AllocError>
    requires first { a.now ≡ after ((1, request.Recv false 0 None None) ∷ sends_in 0 0 1 7 97 ∷ []) }
    requires second { b.now
        ≡ after ((1, request.Recv false 0 None None) ∷ sends_in 0 0 1 7 97 ∷ (1, request.Collect 1) ∷ []) }
    ensures { IfOk result (λ found. found ≡ None) }
{
    alike_names(alloc, a, b)
}

/// Nor where another of two synchronous sends has the receive: partners are kept.
pub fn one_complete(alloc: Global, a: &WholeHub, b: &WholeHub) -> Result<Option<Names>, AllocError>
    requires first { a.now
        ≡ after ((1, request.Recv false 0 None None) ∷ sends_sync 0 97 ∷ sends_sync 2 98 ∷ []) }
    requires second { b.now
        ≡ after ((1, request.Recv false 0 None None) ∷ sends_sync 2 98 ∷ sends_sync 0 97 ∷ []) }
    ensures { IfOk result (λ found. found ≡ None) }
{
    alike_names(alloc, a, b)
}

/// Where posts that are over may be any that are, there are none either if a message is held in one of the two.
pub fn still_held(alloc: Global, a: &WholeHub, b: &WholeHub) -> Result<Option<Names>, AllocError>
    requires first { a.now ≡ sent_to_receive [] }
    requires second { b.now ≡ sent_to_receive ((1, request.Collect 1) ∷ []) }
    ensures { IfOk result (λ found. found ≡ None) }
{
    live_names(alloc, a, b, &[])
}

/// Nor where another of two synchronous sends is complete, though its message was collected: these are never over.
pub fn never_over(alloc: Global, a: &WholeHub, b: &WholeHub) -> Result<Option<Names>, AllocError>
    requires first { a.now ≡ first_complete 0 2 }
    requires second { b.now ≡ first_complete 2 0 }
    ensures { IfOk result (λ found. found ≡ None) }
{
    live_names(alloc, a, b, &[])
}
