//! What a step did, as far as a picture shows it.

ghost use Rattle.std.specs.Prelude.{◌≡◌, IfOk, option_to_list};
ghost use Rattle.cl_calls.specs.Calls.{call_named};
ghost use Rattle.cl_machine.specs.SameSteps.{kind_seen};
ghost use Rattle.rvmc_picture.specs.Deeds.{IsDeedBy, all_shape, done_shape, got_in, hub_shape, is_put as is_put_of};
ghost use Rattle.rvmc_picture.specs.Deeds.{is_talk as is_talk_of, is_vain as is_vain_of, is_in_wait as is_waiting_of};
ghost use Rattle.rvmc_picture.specs.Deeds.{local_shape, made_in, numbers_by, posted_shape, posts_by, ready_in, request_in};
ghost use Rattle.rvmc_picture.specs.Deeds.{is_vain_reply as is_vain_reply_of, shape_in, spot_of as spot_at, took_in, trap_shape as trap_shape_of};
ghost use Rattle.std.specs.List.{list_any};
ghost use Rattle.std.specs.Option.{is_some, option_map};

use cl_calls::Call;
use cl_machine::{KindRef, Step};
use cl_state::Ask;
use cl_trace::Bare;
use mp_match::Post;
use mp_types::{Message, Reply, Request};
use rv_hart::{Hart, Mode};
use rvmc_draw::{Deed, Shape, Spot, got_by, made_by};
use rvmc_sights::{BoxNumber, box_in, is_refused};
use std::alloc::{AllocError, Global};

/// What the hub is asked.
fn request_of(ask: &Ask) -> Option<&Request>
    ensures { option_map (λ q. q.now) result ≡ request_in ask.now }
{
    match ask {
        Ask::Hub(request) => Some(request),
        _ => None,
    }
}

/// The post that a call of the hub made.
fn post_by(rank: u8, reply: &Reply, request: Option<&Request>) -> Option<Post>
    ensures { option_to_list result ≡ posts_by rank reply.now (option_map (λ q. q.now) request.entry) }
{
    match request {
        None => None,
        Some(request) => made_by(rank, request, reply),
    }
}

/// The post that a step made.
fn made(step: &Step, ask: &Ask) -> Option<Post>
    ensures { option_to_list result ≡ made_in step.now.rank step.now.kind ask.now }
{
    match step.kind() {
        KindRef::Hub(reply) => post_by(step.rank(), reply, request_of(ask)),
        KindRef::Bare(_) => None,
    }
}

/// The numbers of the posts whose messages a call of the hub got.
fn numbers(
    alloc: Global,
    next: u64,
    reply: &Reply,
    request: Option<&Request>,
) -> Result<Vec<u64>, AllocError>
    ensures { IfOk result (λ got. got.items ≡ numbers_by next reply.now (option_map (λ q. q.now) request.entry)) }
{
    match request {
        None => Ok(Vec::new(alloc)),
        Some(request) => got_by(alloc, next, request, reply),
    }
}

/// The numbers of the posts whose messages a step got.
fn got(alloc: Global, next: u64, step: &Step, ask: &Ask) -> Result<Vec<u64>, AllocError>
    ensures { IfOk result (λ got. got.items ≡ got_in next step.now.kind ask.now) }
{
    match step.kind() {
        KindRef::Hub(reply) => numbers(alloc, next, reply, request_of(ask)),
        KindRef::Bare(_) => Ok(Vec::new(alloc)),
    }
}

/// The partition that a step made ready.
fn ready(step: &Step, ask: &Ask) -> Option<BoxNumber>
    ensures { result ≡ ready_in step.now.kind ask.now }
{
    match step.kind() {
        KindRef::Bare(Bare::Ready) => box_in(ask),
        _ => None,
    }
}

/// The partition that a step took.
fn taken(step: &Step, ask: &Ask) -> Option<BoxNumber>
    ensures { result ≡ took_in step.now.kind ask.now }
{
    match step.kind() {
        KindRef::Bare(Bare::Take) => box_in(ask),
        _ => None,
    }
}

/// Whether a hart waits.
pub(crate) fn is_waiting(mode: Mode) -> bool
    ensures { result ≡ is_waiting_of mode }
{
    matches!(mode, Mode::Waiting(_))
}

/// Whether a call of the hub looked in vain.
fn is_vain_reply(reply: &Reply, mode: Mode) -> bool
    ensures { result ≡ is_vain_reply_of reply.now mode }
{
    match reply {
        Reply::NotYet => true,
        Reply::Posted { .. } => is_waiting(mode),
        _ => false,
    }
}

/// Whether a step looked in vain.
fn is_vain(step: &Step, mode: Mode) -> bool
    ensures { result ≡ is_vain_of step.now.kind mode }
{
    match step.kind() {
        KindRef::Hub(reply) => is_vain_reply(reply, mode),
        KindRef::Bare(kind) => matches!(kind, Bare::Miss | Bare::Held),
    }
}

/// An instruction is shown where it traps.
fn trap_shape(mode: Mode) -> Option<Shape>
    ensures { result ≡ trap_shape_of mode }
{
    match mode {
        Mode::Trapped(_, _) => Some(Shape::Trap),
        _ => None,
    }
}

/// Whether a call talks to other ranks, or looks at what was begun with them.
fn is_talk(call: &Call) -> bool
    ensures { result ≡ is_talk_of call.now }
{
    matches!(
        call,
        Call::Send(_)
            | Call::Ssend(_)
            | Call::Recv { .. }
            | Call::Isend(_)
            | Call::Issend(_)
            | Call::Irecv(_)
            | Call::Test(_)
            | Call::Wait(_)
            | Call::Iprobe(_)
            | Call::Probe(_)
            | Call::Improbe(_)
            | Call::Mprobe(_)
            | Call::Imrecv(_)
            | Call::Mrecv { .. }
            | Call::Testall(_)
            | Call::Waitall(_)
            | Call::Pready { .. }
            | Call::Parrived { .. }
    )
}

/// Whether a call puts bytes out.
pub(crate) fn is_put(call: &Call) -> bool
    ensures { result ≡ is_put_of call.now }
{
    matches!(call, Call::Put { .. })
}

/// How a call is shown that needed only its rank, and wasn't refused.
fn done_shape_of(call: &Call) -> Option<Shape>
    ensures { result ≡ done_shape call.now }
{
    if is_put(call) {
        Some(Shape::Put)
    } else if is_talk(call) {
        Some(Shape::Other)
    } else {
        None
    }
}

/// How a call is shown that needed only its rank.
fn local_shape_of(call: &Call, after: &Hart) -> Option<Shape>
    ensures { result ≡ local_shape call.now after.now after.now.mode }
{
    match after.mode() {
        Mode::Ended(_) => Some(Shape::Exit),
        Mode::Trapped(_, _) => Some(Shape::Trap),
        Mode::Running | Mode::Waiting(_) => {
            if is_refused(after) {
                Some(Shape::Refused)
            } else {
                done_shape_of(call)
            }
        }
    }
}

/// How a post is shown.
fn posted_shape_of(request: Option<&Request>) -> Shape
    ensures { result ≡ posted_shape (option_map (λ q. q.now) request.entry) }
{
    match request {
        Some(Request::Send { sync, .. }) => { if *sync { Shape::SyncSend } else { Shape::Send } }
        Some(Request::Recv { .. }) => Shape::Posted,
        _ => Shape::Other,
    }
}

/// Whether several posts gave a message.
fn gave_any(gots: &[Option<Message>]) -> bool
    ensures { result ≡ list_any (λ got. is_some got) gots.now }
{
    gots.iter().any(|got| got.is_some())
}

/// How several posts that are complete are shown.
fn all_shape_of(gots: &[Option<Message>]) -> Shape
    ensures { result ≡ all_shape (list_any (λ got. is_some got) gots.now) }
{
    if gave_any(gots) {
        Shape::Got
    } else {
        Shape::Done
    }
}

/// How a call of the hub is shown.
fn hub_shape_of(request: Option<&Request>, reply: &Reply) -> Option<Shape>
    ensures { result ≡ hub_shape (option_map (λ q. q.now) request.entry) reply.now }
{
    match reply {
        Reply::Code(_) => Some(Shape::Refused),
        Reply::Posted { .. } => Some(posted_shape_of(request)),
        Reply::Got(_) => Some(Shape::Got),
        Reply::NotYet => Some(Shape::Look),
        Reply::Done => Some(Shape::Done),
        Reply::Seen(_) => Some(Shape::Seen),
        Reply::Held(_, _) => Some(Shape::Claimed),
        Reply::AllGot(gots) => Some(all_shape_of(gots.as_slice())),
        Reply::Link(_) | Reply::Cut { .. } => None,
    }
}

/// How a step is shown.
fn shape_of(step: &Step, ask: &Ask, call: &Call, after: &Hart) -> Option<Shape>
    ensures { result ≡ shape_in step.now.kind ask.now call.now after.now }
{
    match step.kind() {
        KindRef::Hub(reply) => hub_shape_of(request_of(ask), reply),
        KindRef::Bare(kind) => match kind {
            Bare::Plain => trap_shape(after.mode()),
            Bare::Local => local_shape_of(call, after),
            Bare::Ready => Some(Shape::Ready),
            Bare::Take => Some(Shape::Taken),
            Bare::Miss | Bare::Held => Some(Shape::Look),
            Bare::Freed => Some(Shape::Freed),
            Bare::Idle => None,
        },
    }
}

/// A step, by the place before it.
fn spot_of(place: u64, step: &Step) -> Spot
    ensures { result ≡ spot_at place step.now }
{
    Spot {
        place,
        rank: step.rank(),
        hart: step.hart(),
    }
}

/// What the step at a place did, whose hart asked this, and was so before it and so after it. The only error is want of
/// memory.
pub(crate) fn deed_of(
    alloc: Global,
    place: u64,
    step: &Step,
    ask: &Ask,
    before: &Hart,
    after: &Hart,
    next: u64,
) -> Result<Deed, AllocError>
    ensures { IfOk result (IsDeedBy place step.now ask.now before.now after.now next) }
{
    let call = Call::of(before);
    Ok(Deed {
        spot: spot_of(place, step),
        shape: shape_of(step, ask, &call, after),
        vain: is_vain(step, after.mode()),
        made: made(step, ask),
        got: got(alloc, next, step, ask)?,
        ready: ready(step, ask),
        taken: taken(step, ask),
    })
}
