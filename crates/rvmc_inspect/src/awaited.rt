//! What a hart may wait for, and its text.

ghost use Rattle.std.specs.Prelude.{◌≡◌, ◌++◌, IfOk, OnOk, string_bytes};
ghost use Rattle.rvmc_inspect.specs.Texts.{asked_envelope_text, more_text, source_text, tag_text, wait_text, waits_text};

use std::alloc::{AllocError, Global};

/// The communicator that the library of rvmc-cc has for itself.
const LIBRARY: u8 = 1;

/// What a hart waits for. Ranks are ranks of the cluster, partitions those of the link's sender.
#[derive(Clone, Copy, Drop)]
pub enum Wait {
    /// A message of a communicator, from a rank or from any, with a tag or with any.
    Message {
        source: Option<u8>,
        tag: Option<u16>,
        comm: u8,
    },
    /// A rank that is to receive what was sent synchronously.
    Receiver {
        rank: u8,
    },
    /// A partition that the link's sender is to make ready.
    Partition {
        part: u8,
        link: u8,
        from: u8,
    },
    /// A partition that the link's receiver is to take.
    Taken {
        part: u8,
        link: u8,
        to: u8,
    },
    /// How the link's sender cuts the transfer.
    Shape {
        link: u8,
        from: u8,
    },
    /// A partition that its own rank is to make ready.
    OwnPartition {
        part: u8,
        link: u8,
    },
}

/// The rank, or any.
fn source_text(alloc: Global, source: Option<u8>) -> Result<String, AllocError>
    ensures { IfOk result (λ text. string_bytes text ≡ source_text source) }
{
    match source {
        None => format!(in alloc; "any rank"),
        Some(rank) => format!(in alloc; "rank {rank}"),
    }
}

/// The tag, or any.
fn tag_text(alloc: Global, tag: Option<u16>) -> Result<String, AllocError>
    ensures { IfOk result (λ text. string_bytes text ≡ tag_text tag) }
{
    match tag {
        None => format!(in alloc; "any tag"),
        Some(tag) => format!(in alloc; "tag {tag}"),
    }
}

/// A message's tag and communicator. Inside the library those of its own communicator are left out.
fn asked_envelope_text(
    alloc: Global,
    inside: bool,
    tag: Option<u16>,
    comm: u8,
) -> Result<String, AllocError>
    ensures { IfOk result (λ text. string_bytes text ≡ asked_envelope_text inside tag comm) }
{
    if inside && comm == LIBRARY {
        return Ok(String::new(alloc));
    }
    let tag = tag_text(alloc, tag)?;
    format!(in alloc; " {tag} comm {comm}")
}

/// What is waited for, as `a message from rank 1 tag 7 comm 0`, or inside the library `a message from rank 1`.
pub(crate) fn wait_text(alloc: Global, inside: bool, wait: Wait) -> Result<String, AllocError>
    ensures { IfOk result (λ text. string_bytes text ≡ wait_text inside wait) }
{
    match wait {
        Wait::Message { source, tag, comm } => {
            let source = source_text(alloc, source)?;
            let envelope = asked_envelope_text(alloc, inside, tag, comm)?;
            format!(in alloc; "a message from {source}{envelope}")
        }
        Wait::Receiver { rank } => format!(in alloc; "rank {rank} to receive"),
        Wait::Partition { part, link, from } => {
            format!(in alloc; "partition {part} of link {link} from rank {from}")
        }
        Wait::Taken { part, link, to } => {
            format!(in alloc; "rank {to} to take partition {part} of link {link}")
        }
        Wait::Shape { link, from } => {
            format!(in alloc; "the shape of link {link} from rank {from}")
        }
        Wait::OwnPartition { part, link } => {
            format!(in alloc; "its own partition {part} of link {link}")
        }
    }
}

/// Adds what is waited for behind other things: each with `; ` before it.
fn put_more(
    alloc: Global,
    text: &mut Vec<u8>,
    inside: bool,
    waits: &[Wait],
) -> Result<(), AllocError>
    ensures { OnOk result (text.new.items ≡ text.old.items ++ more_text inside waits.now) }
{
    for wait in waits {
        let more = wait_text(alloc, inside, *wait)?;
        text.extend_from_slice(b"; ")?;
        text.extend_from_slice(more.as_bytes())?;
    }
    Ok(())
}

/// Adds all that is waited for, each behind the other with `; ` between. What waits for nothing more goes on where it
/// takes its turn.
pub fn put_waits(
    alloc: Global,
    text: &mut Vec<u8>,
    inside: bool,
    waits: &[Wait],
) -> Result<(), AllocError>
    ensures { OnOk result (text.new.items ≡ text.old.items ++ waits_text inside waits.now) }
{
    match waits.split_first() {
        None => text.extend_from_slice(b"nothing more"),
        Some((first, rest)) => {
            let head = wait_text(alloc, inside, *first)?;
            text.extend_from_slice(head.as_bytes())?;
            put_more(alloc, text, inside, rest)
        }
    }
}
