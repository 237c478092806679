//! Messages that no receive and no claim has.

ghost use Rattle.std.specs.Prelude.{◌≡◌, ◌+◌, ◌++◌, ◌<◌, ◌≤◌, ◌-◌, ◌^◌, ℕ, cond, get_or, IfOk, OnOk, length};
ghost use Rattle.std.specs.Prelude.{option_to_list, set, string_bytes, vec_len};
ghost use Rattle.rvmc_inspect.specs.Unreceived.{is_of, message_word, messages_text, number_line, count_of_sends, sender_lines, sent_in};
ghost use Rattle.rvmc_inspect.specs.Unreceived.{sent_to, tag_count, unreceived, unreceived_head, unreceived_text};

use mp_hub::HubState;
use mp_match::{Post, Sent};
use std::alloc::{AllocError, Global};

/// The send, if it is one.
fn sent_in(post: Option<Post>) -> Option<Sent>
    ensures { option_to_list result ≡ sent_in post }
{
    match post {
        None => None,
        Some(Post::Send(sent)) => Some(sent),
        Some(Post::Receive(_)) => None,
        Some(Post::Claim(_)) => None,
    }
}

/// Adds a send, if there is one.
fn put_sent(sends: &mut Vec<Sent>, sent: Option<Sent>) -> Result<(), AllocError>
    ensures { OnOk result (sends.new.items ≡ sends.old.items ++ option_to_list sent) }
{
    if let Some(sent) = sent {
        sends.push(sent)?;
    }
    Ok(())
}

/// All of them, in the order of their sends.
#[tactic(auto, using(crate::proofs::Sends::one_more))]
fn unreceived(alloc: Global, hub: &HubState) -> Result<Vec<Sent>, AllocError>
    ensures { IfOk result (λ sends. sends.items ≡ unreceived hub.now.board.lines) }
{
    let mut sends = Vec::new(alloc);
    for place in 0..hub.posts() {
        let sent = sent_in(hub.free_post(place + 1));
        put_sent(&mut sends, sent)?;
    }
    Ok(sends)
}

/// Those to a rank.
fn sent_to(alloc: Global, rank: usize, sends: &[Sent]) -> Result<Vec<Sent>, AllocError>
    ensures { IfOk result (λ own. own.items ≡ sent_to rank sends.now) }
{
    let mut own = Vec::new(alloc);
    for sent in sends {
        if usize::from(sent.dest) == rank {
            own.push(*sent)?;
        }
    }
    Ok(own)
}

/// How many tags there are.
#[tactic(auto, unfolding(crate::specs::Unreceived::tag_count))]
fn tag_count() -> usize
    ensures count { result ≡ tag_count }
    ensures all { 2 ^ 16 ≤ result }
{
    65_536
}

/// One more with the tag.
fn add_one(numbers: &mut Vec<u64>, tag: u16)
    requires there { 2 ^ 16 ≤ vec_len numbers.old }
    requires fits { get_or numbers.old.items tag 0 < 2 ^ 64 - 1 }
    ensures items { numbers.new.items ≡ set numbers.old.items tag (get_or numbers.old.items tag 0 + 1) }
{
    numbers[usize::from(tag)] += 1;
}

/// How many there are from the source with each tag.
fn numbers_by_tag(
    alloc: Global,
    tags: usize,
    source: usize,
    sends: &[Sent],
) -> Result<Vec<u64>, AllocError>
    requires { 2 ^ 16 ≤ tags }
    ensures len { IfOk result (λ numbers. vec_len numbers ≡ tags) }
    ensures numbers { IfOk result
        (λ numbers. (tag : ℕ) → tag < tags → get_or numbers.items tag 0 ≡ count_of_sends source tag sends.now) }
{
    let mut numbers = Vec::from_elem(alloc, 0, tags)?;
    for sent in sends {
        if usize::from(sent.envelope.source) == source {
            add_one(&mut numbers, sent.envelope.tag);
        }
    }
    Ok(numbers)
}

/// `  from rank S tag T: N`, with a newline behind it.
fn number_line(alloc: Global, source: usize, tag: usize, number: u64) -> Result<String, AllocError>
    requires { 0 < number }
    ensures { IfOk result (λ text. string_bytes text ≡ number_line source tag number) }
{
    format!(in alloc; "  from rank {source} tag {tag}: {number}\n")
}

/// Adds the line of a source and a tag, if there are any.
fn put_number(
    alloc: Global,
    text: &mut Vec<u8>,
    source: usize,
    tag: usize,
    number: u64,
) -> Result<(), AllocError>
    ensures { OnOk result (text.new.items ≡ text.old.items ++ number_line source tag number) }
{
    if number == 0 {
        return Ok(());
    }
    let line = number_line(alloc, source, tag, number)?;
    text.extend_from_slice(line.as_bytes())
}

/// Adds the lines of a sender, in the order of the tags.
fn put_sender(
    alloc: Global,
    text: &mut Vec<u8>,
    tags: usize,
    source: usize,
    sends: &[Sent],
) -> Result<(), AllocError>
    requires { 2 ^ 16 ≤ tags }
    ensures { OnOk result (text.new.items ≡ text.old.items ++ sender_lines tags sends.now source) }
{
    let numbers = numbers_by_tag(alloc, tags, source, sends)?;
    for tag in 0..tags {
        put_number(alloc, text, source, tag, numbers[tag])?;
    }
    Ok(())
}

/// What stands behind a count of messages.
fn message_word(count: usize) -> &'static str
    ensures { result.now ≡ message_word count }
{
    if count == 1 { "message" } else { "messages" }
}

/// The line before those of a rank.
fn head(alloc: Global, rank: usize, count: usize) -> Result<String, AllocError>
    ensures { IfOk result (λ text. string_bytes text ≡ unreceived_head rank count) }
{
    let word = message_word(count);
    format!(in alloc; "rank {rank} unreceived: {count} {word}\n")
}

/// Adds what is told of these messages to a rank, by so many senders.
#[tactic(auto, unfolding(crate::specs::Unreceived::messages_text))]
fn put_messages(
    alloc: Global,
    text: &mut Vec<u8>,
    tags: usize,
    senders: usize,
    rank: usize,
    sends: &[Sent],
) -> Result<(), AllocError>
    requires { 2 ^ 16 ≤ tags }
    ensures { OnOk result (text.new.items ≡ text.old.items ++ messages_text tags senders rank sends.now) }
{
    if sends.is_empty() {
        return Ok(());
    }
    let head = head(alloc, rank, sends.len())?;
    text.extend_from_slice(head.as_bytes())?;
    for source in 0..senders {
        put_sender(alloc, text, tags, source, sends)?;
    }
    Ok(())
}

/// Adds of each rank how many messages were sent to it that no receive and no claim has, and of these how many there
/// are from each sender and with each tag. The only error is want of memory.
pub fn put_unreceived(
    alloc: Global,
    text: &mut Vec<u8>,
    ranks: usize,
    hub: &HubState,
) -> Result<(), AllocError>
    ensures { OnOk result (text.new.items ≡ text.old.items ++ unreceived_text ranks hub.now.board.lines) }
{
    let sends = unreceived(alloc, hub)?;
    let tags = tag_count();
    for rank in 0..ranks {
        let own = sent_to(alloc, rank, sends.as_slice())?;
        put_messages(alloc, text, tags, ranks, rank, own.as_slice())?;
    }
    Ok(())
}
