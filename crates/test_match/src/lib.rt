//! Tests and witnesses of the matching. `twin` asks the queues by key and plain lists, which search all posts, the same
//! questions; `order` says what must be found on a few boards, each fact proved from the contract alone.
#![tactic(auto)]

pub mod order;
#[cfg(test)]
mod plain;
#[cfg(test)]
mod twin;
