//! Codes, requests and replies of `mp_types`.

ghost use Rattle.std.specs.Prelude.{◌≡◌, ◌↔◌, true, false, IsTrue};
ghost use Rattle.mp_types.specs.Carried.{carried_by_reply, carried_by_request};

use mp_types::{Bytes, Code, Reply, Request};
use std::alloc::{AllocError, Global};

/// A guest finds FULL as 8.
pub fn full_is_8() -> u8
    ensures { result ≡ 8 }
{
    Code::Full.number()
}

/// 16 is the last number of a code.
pub fn number_16_is_a_code() -> Option<Code>
    ensures { result ≡ Some Code.NotActive }
{
    Code::from_number(16)
}

/// Bytes are the same where they are the same list, and not where just their lengths are.
pub fn same_bytes(first: &Bytes, second: &Bytes) -> bool
    ensures { IsTrue result ↔ (first.now ≡ second.now) }
{
    first == second
}

/// Two requests to collect are the same where they name one post.
pub fn same_collects(first: u64, second: u64) -> bool
    ensures { IsTrue result ↔ (first ≡ second) }
{
    Request::Collect { post: first }.is_same(&Request::Collect { post: second })
}

/// Every reply is the same as itself.
pub fn reply_is_itself(reply: &Reply) -> bool
    ensures { result ≡ true }
{
    reply.is_same(reply)
}

/// What is done isn't what isn't there yet.
pub fn done_is_not_not_yet() -> bool
    ensures { result ≡ false }
{
    Reply::Done.is_same(&Reply::NotYet)
}

/// A request that carries no elements is copied whatever memory there is.
pub fn empty_request_copied(alloc: Global, request: &Request) -> Result<Request, AllocError>
    requires { carried_by_request request.now ≡ 0 }
    ensures { result ≡ Ok request.now }
{
    request.try_copy(alloc)
}

/// A reply that carries no elements is copied whatever memory there is.
pub fn empty_reply_copied(alloc: Global, reply: &Reply) -> Result<Reply, AllocError>
    requires { carried_by_reply reply.now ≡ 0 }
    ensures { result ≡ Ok reply.now }
{
    reply.try_copy(alloc)
}
