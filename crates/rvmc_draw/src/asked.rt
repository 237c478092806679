//! What a call of the hub made, and the numbers of the posts whose messages it brought.

ghost use Rattle.std.specs.Prelude.{◌≡◌, ◌++◌, ℕ, IfOk, OnOk, option_to_list};
ghost use Rattle.mp_hub.specs.Histories.{got_by as got_by_of, got_of, post_made};
ghost use Rattle.std.specs.List.{slice_get};
ghost use Rattle.rvmc_draw.specs.Asked.{got_at, got_if};
ghost use Rattle.mp_types.specs.declared.messages.Message.{Message as MessageView};

use mp_match::{Post, Selection, Sent};
use mp_types::{Envelope, Message, Reply, Request};
use std::alloc::{AllocError, Global};

/// The post that a call of this rank makes: a send that is posted, a receive, or a claim that holds a message (MPI 4.1,
/// chapters 3.2, 3.7 and 3.8).
pub fn made_by(rank: u8, request: &Request, reply: &Reply) -> Option<Post>
    ensures { option_to_list result ≡ post_made rank request.now reply.now }
{
    match request {
        Request::Send {
            comm,
            dest,
            tag,
            bytes,
            sync,
        } => match reply {
            Reply::Posted { .. } => Some(Post::Send(Sent {
                sync: *sync,
                dest: *dest,
                envelope: Envelope {
                    comm: *comm,
                    source: rank,
                    tag: *tag,
                    count: bytes.count(),
                },
            })),
            _ => None,
        },
        Request::Recv {
            comm,
            source,
            tag,
            ..
        } => Some(Post::Receive(Selection {
            rank,
            comm: *comm,
            source: *source,
            tag: *tag,
        })),
        Request::Claim { comm, source, tag } => match reply {
            Reply::Held(_, _) => Some(Post::Claim(Selection {
                rank,
                comm: *comm,
                source: *source,
                tag: *tag,
            })),
            _ => None,
        },
        _ => None,
    }
}

/// Adds the number of a post if it gave a message.
fn put_got(numbers: &mut Vec<u64>, number: u64, got: &Option<Message>) -> Result<(), AllocError>
    ensures { OnOk result (numbers.new.items ≡ numbers.old.items ++ got_if number got.now) }
{
    if got.is_some() {
        numbers.push(number)?;
    }
    Ok(())
}

/// Adds the number of the post at a place if it gave a message.
fn put_got_at(
    numbers: &mut Vec<u64>,
    posts: &[u64],
    gots: &[Option<Message>],
    place: usize,
) -> Result<(), AllocError>
    ensures { OnOk result (numbers.new.items
        ≡ numbers.old.items ++ got_at (slice_get posts.now place) (slice_get gots.now place)) }
{
    match posts.get(place) {
        None => Ok(()),
        Some(number) => match gots.get(place) {
            None => Ok(()),
            Some(got) => put_got(numbers, *number, got),
        },
    }
}

/// Adds the numbers of those of the posts that gave a message.
fn put_gots(
    numbers: &mut Vec<u64>,
    posts: &[u64],
    gots: &[Option<Message>],
) -> Result<(), AllocError>
    ensures { OnOk result (numbers.new.items ≡ numbers.old.items ++ got_of posts.now gots.now) }
{
    for place in 0..posts.len() {
        put_got_at(numbers, posts, gots, place)?;
    }
    Ok(())
}

/// The number of the post whose message a call brings that gets one.
fn number_of(next: u64, request: &Request) -> Option<u64>
    ensures { (m : MessageView) → option_to_list result ≡ got_by_of next request.now (Reply.Got m) }
{
    match request {
        Request::Recv { .. } => Some(next),
        Request::Collect { post } => Some(*post),
        Request::Claimed { message, .. } => Some(*message),
        _ => None,
    }
}

/// Adds it, if there is one.
fn put_number(numbers: &mut Vec<u64>, number: Option<u64>) -> Result<(), AllocError>
    ensures { OnOk result (numbers.new.items ≡ numbers.old.items ++ option_to_list number) }
{
    if let Some(number) = number {
        numbers.push(number)?;
    }
    Ok(())
}

/// Adds the numbers of the posts whose messages a call brings that asks for all.
fn put_all_got(
    numbers: &mut Vec<u64>,
    request: &Request,
    gots: &[Option<Message>],
) -> Result<(), AllocError>
    ensures { OnOk result ((next : ℕ) → numbers.new.items
        ≡ numbers.old.items ++ got_by_of next request.now (Reply.AllGot gots.now)) }
{
    match request {
        Request::All { posts } => put_gots(numbers, posts.as_slice(), gots),
        _ => Ok(()),
    }
}

/// The numbers of the posts whose messages the reply to a call brings; a receive's own is the next number. The only error
/// is want of memory.
pub fn got_by(
    alloc: Global,
    next: u64,
    request: &Request,
    reply: &Reply,
) -> Result<Vec<u64>, AllocError>
    ensures { IfOk result (λ numbers. numbers.items ≡ got_by_of next request.now reply.now) }
{
    let mut numbers = Vec::new(alloc);
    match reply {
        Reply::Got(_) => put_number(&mut numbers, number_of(next, request))?,
        Reply::AllGot(gots) => put_all_got(&mut numbers, request, gots.as_slice())?,
        _ => {}
    }
    Ok(numbers)
}
