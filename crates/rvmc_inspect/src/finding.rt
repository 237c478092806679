//! What a hart of a rank waits for: what it asks in its next turn, where that isn't there.

ghost use Rattle.std.specs.Prelude.{◌≡◌, ◌++◌, ◌<◌, IfOk, OnOk, option_to_list, vec_len};
ghost use Rattle.cl_state.specs.Asked.{asked as asked_of};
ghost use Rattle.cl_state.specs.Room.{rank_of};
ghost use Rattle.rvmc_inspect.specs.Waits.{asked_waits, box_is_full, hub_waits, own_wait, partition_wait, post_wait};
ghost use Rattle.rvmc_inspect.specs.Waits.{request_waits, shape_wait, side_wait, taken_wait, unready_wait};
ghost use Rattle.rvmc_inspect.specs.Waits.{unready_waits, waits};

use crate::awaited::Wait;
use cl_calls::{Call, Standing, sending_side};
use cl_state::{Ask, Doing, RankState};
use mp_hub::HubState;
use mp_match::Post;
use mp_request::Partitions;
use mp_types::Request;
use part_box::Settled;
use part_phase::Phases;
use rv_image_types::Link;
use std::alloc::{AllocError, Global};

/// What a post waits for that isn't ready.
fn post_wait(post: &Post) -> Wait
    ensures { result ≡ post_wait post.now }
{
    match post {
        Post::Send(sent) => Wait::Receiver { rank: sent.dest },
        Post::Receive(selection) | Post::Claim(selection) => Wait::Message {
            source: selection.source,
            tag: selection.tag,
            comm: selection.comm,
        },
    }
}

/// What the post waits for, if it isn't ready.
fn unready_wait(hub: &HubState, rank: u8, post: u64) -> Option<Wait>
    ensures { option_to_list result ≡ unready_wait hub.now rank post }
{
    if hub.is_ready(rank, post) {
        return None;
    }
    match hub.live_post(post) {
        None => None,
        Some(post) => Some(post_wait(&post)),
    }
}

/// Adds one thing that is waited for, if there is one.
fn put_wait(found: &mut Vec<Wait>, wait: Option<Wait>) -> Result<(), AllocError>
    ensures { OnOk result (found.new.items ≡ found.old.items ++ option_to_list wait) }
{
    if let Some(wait) = wait {
        found.push(wait)?;
    }
    Ok(())
}

/// What those of the posts wait for that aren't ready.
fn unready_waits(
    alloc: Global,
    hub: &HubState,
    rank: u8,
    posts: &[u64],
) -> Result<Vec<Wait>, AllocError>
    ensures { IfOk result (λ found. found.items ≡ unready_waits hub.now rank posts.now) }
{
    let mut found = Vec::new(alloc);
    for post in posts {
        put_wait(&mut found, unready_wait(hub, rank, *post))?;
    }
    Ok(found)
}

/// The link's shape, if there is such a link.
fn shape_wait(links: &[Link], link: u8) -> Option<Wait>
    ensures { result ≡ shape_wait links.now link }
{
    let from = links.get(usize::from(link))?.from;
    Some(Wait::Shape { link, from })
}

/// A partition that is to come over the link, if there is such a link.
fn partition_wait(links: &[Link], link: u8, part: u8) -> Option<Wait>
    ensures { result ≡ partition_wait links.now link part }
{
    let from = links.get(usize::from(link))?.from;
    Some(Wait::Partition { part, link, from })
}

/// A partition that is to be taken from the link, if there is such a link.
fn taken_wait(links: &[Link], link: u8, part: u8) -> Option<Wait>
    ensures { result ≡ taken_wait links.now link part }
{
    let to = links.get(usize::from(link))?.to;
    Some(Wait::Taken { part, link, to })
}

/// At most one thing that is waited for.
fn listed(alloc: Global, wait: Option<Wait>) -> Result<Vec<Wait>, AllocError>
    ensures { IfOk result (λ found. found.items ≡ option_to_list wait) }
{
    let mut found = Vec::new(alloc);
    put_wait(&mut found, wait)?;
    Ok(found)
}

/// What a request to the hub waits for that isn't answered yet.
fn request_waits(
    alloc: Global,
    hub: &HubState,
    rank: u8,
    request: &Request,
) -> Result<Vec<Wait>, AllocError>
    ensures { IfOk result (λ found. found.items ≡ request_waits hub.now rank request.now) }
{
    match request {
        Request::Collect { post } | Request::Finished { post } => {
            listed(alloc, unready_wait(hub, rank, *post))
        }
        Request::Probe { comm, source, tag } | Request::Claim { comm, source, tag } => listed(
            alloc,
            Some(Wait::Message {
                source: *source,
                tag: *tag,
                comm: *comm,
            }),
        ),
        Request::All { posts } => unready_waits(alloc, hub, rank, posts.as_slice()),
        Request::Cut { link } => listed(alloc, shape_wait(hub.links(), *link)),
        _ => Ok(Vec::new(alloc)),
    }
}

/// What a request to the hub waits for: nothing where it would be answered.
fn hub_waits(
    alloc: Global,
    hub: &HubState,
    rank: u8,
    request: &Request,
) -> Result<Vec<Wait>, AllocError>
    ensures { IfOk result (λ found. found.items ≡ hub_waits hub.now rank request.now) }
{
    if hub.asks_in_vain(rank, request) {
        request_waits(alloc, hub, rank, request)
    } else {
        Ok(Vec::new(alloc))
    }
}

/// Whether something stands in the box of a link's partition.
fn box_is_full(boxes: &[[Settled; 16]], link: u8, part: u8) -> bool
    ensures { result ≡ box_is_full boxes.now link part }
{
    match boxes.get(usize::from(link)) {
        None => false,
        Some(parts) => match parts.get(usize::from(part)) {
            None => false,
            Some(settled) => settled.full,
        },
    }
}

/// The partition of the side that its own rank is to make ready: the lowest of its phase that wasn't taken.
fn side_wait(phases: &Phases, side: Option<Partitions>) -> Option<Wait>
    ensures { result ≡ side_wait phases.now side }
{
    let link = side?.link;
    let part = phases.sending(link).next()?;
    Some(Wait::OwnPartition { part, link })
}

/// The partition of its own rank for which the call waits.
fn own_wait(own: &RankState, call: &Call) -> Option<Wait>
    ensures { result ≡ own_wait (rank_of own.now) call.now }
{
    match *call {
        Call::Wait(completing) => side_wait(
            &own.phases,
            sending_side(&own.requests, completing.handle),
        ),
        _ => None,
    }
}

/// What the hart asks in its next turn.
#[tactic(auto, unfolding(cl_state::specs::Asked::asked))]
fn asked(alloc: Global, own: &RankState, number: usize) -> Result<Ask, AllocError>
    requires { number < vec_len own.now.harts }
    ensures { IfOk result (λ ask. ask ≡ asked_of (rank_of own.now) number) }
{
    let standing = Standing {
        site: &own.site,
        memory: &own.memory,
        requests: &own.requests,
        phases: &own.phases,
        written: own.out.len(),
    };
    let doing = Doing::of(&standing, &own.harts[number]);
    doing.ask(alloc, &standing, None)
}

/// What a hart waits for that makes this call, and asks this.
fn asked_waits(
    alloc: Global,
    hub: &HubState,
    boxes: &[[Settled; 16]],
    own: &RankState,
    call: &Call,
    ask: &Ask,
) -> Result<Vec<Wait>, AllocError>
    ensures { IfOk result (λ found.
        found.items ≡ asked_waits hub.now boxes.now (rank_of own.now) call.now ask.now) }
{
    match ask {
        Ask::Hub(request) => hub_waits(alloc, hub, own.site.number, request),
        Ask::Look { link, part } => {
            if box_is_full(boxes, *link, *part) {
                return Ok(Vec::new(alloc));
            }
            listed(alloc, partition_wait(hub.links(), *link, *part))
        }
        Ask::Freed { link, part } => {
            if !box_is_full(boxes, *link, *part) {
                return Ok(Vec::new(alloc));
            }
            listed(alloc, taken_wait(hub.links(), *link, *part))
        }
        Ask::Held => listed(alloc, own_wait(own, call)),
        _ => Ok(Vec::new(alloc)),
    }
}

/// What a hart of the rank waits for: what it asks in its next turn, and isn't there now. The only error is want of
/// memory.
#[tactic(auto, unfolding(crate::specs::Waits::waits))]
pub fn waits(
    alloc: Global,
    hub: &HubState,
    boxes: &[[Settled; 16]],
    own: &RankState,
    number: usize,
) -> Result<Vec<Wait>, AllocError>
    requires { number < vec_len own.now.harts }
    ensures { IfOk result (λ found. found.items ≡ waits hub.now boxes.now (rank_of own.now) number) }
{
    let ask = asked(alloc, own, number)?;
    let call = Call::of(&own.harts[number]);
    asked_waits(alloc, hub, boxes, own, &call, &ask)
}
