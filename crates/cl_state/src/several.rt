//! Calls that complete several requests together.

ghost use Rattle.std.specs.Prelude.{◌≡◌, ◌<◌, ◌≤◌, ◌+◌, ◌∷◌, ◌↔◌, [], IsTrue, MatchResult, length};
ghost use Rattle.std.specs.List.{list_any};
ghost use Rattle.cl_calls.specs.Checks.{is_array, is_few};
ghost use Rattle.cl_calls.specs.Needs.{array_at};
ghost use Rattle.cl_state.specs.Asked.{asked_several};
ghost use Rattle.cl_state.specs.TurnRoom.{carried};
ghost use Rattle.cl_state.specs.Deals.{given_by, given_in};
ghost use Rattle.cl_state.specs.Pending.{pending_of};
ghost use Rattle.cl_state.specs.Several.{Given, are_fit, completed_each, fits_one, given_message, given_nothing};
ghost use Rattle.cl_state.specs.Several.{given_one, got_for_post, has_posts};
ghost use Rattle.cl_state.specs.Several.{left_of, pendings, post_of, posts_pending, bytes_of_status, statuses_of, with_all_bytes};
ghost use Rattle.cl_state.specs.Told.{completed_all, done, gathered};
ghost use Rattle.cl_state.specs.Turn.{Becomes, HasArray, HasPages, handles_of, part_in};
ghost use Rattle.cl_state.specs.Writes.{IsEnough, how_many, messages_into, several_into, statuses_from};
ghost use Rattle.cl_state.specs.declared.row.Outcome.TheVariants.{CompletesAll};
ghost use Rattle.mp_request.specs.Table.{request_at};

use crate::asking::Ask;
use crate::pending::Pending;
use crate::turn::{Turn, is_longer, kept, status_bytes, write_where_right};
use arrayvec::ArrayVec;
use cl_calls::{ANY, Array, NO_RANK, Several, Site, handles_at, position};
use mp_request::Requests;
use mp_types::{Code, Message, Posts, Request};
use rv_memory::{RankMemory, SparePages};
use std::alloc::{AllocError, Global};

/// The bytes of all statuses of an array.
type Statuses = ArrayVec<u8, 6120>;

/// What the request of a handle needs to complete.
pub(crate) fn pending(requests: &Requests, handle: u64) -> Pending
    ensures { result ≡ pending_of (request_at requests.now handle) }
{
    Pending::of(requests.get(handle))
}

/// The posts of those that need the hub, in the array's order. Their list takes memory where there is one.
#[tactic(auto, using(crate::proofs::Posts::posts_asked))]
fn posts(alloc: Global, requests: &Requests, handles: &[u64]) -> Result<Vec<u64>, AllocError>
    ensures { MatchResult result (λ posts. posts.items ≡ posts_pending (pendings requests.now handles.now))
        (λ e. IsTrue (has_posts (posts_pending (pendings requests.now handles.now)))) }
{
    let mut posts = Vec::new(alloc);
    let mut rest = handles;
    while let Some((handle, after)) = rest.split_first() {
        match pending(requests, *handle).post() {
            None => {}
            Some(post) => posts.push(post)?,
        }
        rest = after;
    }
    Ok(posts)
}

/// Whether these are the posts of those that need the hub, in the array's order.
fn are_posts(known: &[u64], requests: &Requests, handles: &[u64]) -> bool
    ensures { IsTrue result ↔ (known.now ≡ posts_pending (pendings requests.now handles.now)) }
{
    let mut left = known;
    let mut rest = handles;
    while let Some((handle, after)) = rest.split_first() {
        if let Some(post) = pending(requests, *handle).post() {
            match left.split_first() {
                Some((first, others)) if *first == post => left = others,
                _ => return false,
            }
        }
        rest = after;
    }
    left.is_empty()
}

/// The posts of those that need the hub, which share the list that is known where it is theirs: no memory is asked for
/// then. Else their list takes memory where there is one.
fn posts_like(
    alloc: Global,
    requests: &Requests,
    handles: &[u64],
    known: Option<&Posts>,
) -> Result<Posts, AllocError>
    ensures { MatchResult result (λ posts. posts ≡ posts_pending (pendings requests.now handles.now))
        (λ e. IsTrue (has_posts (posts_pending (pendings requests.now handles.now)))) }
{
    if let Some(known) = known {
        if are_posts(known.as_slice(), requests, handles) {
            return known.try_copy(alloc);
        }
    }
    Posts::from_vec(posts(alloc, requests, handles)?)
}

/// What is asked for several requests, of whose posts a list may be known. The list of their posts takes memory where
/// there is one, and none where it is the one that is known.
#[tactic(auto, using(crate::proofs::Posts::carries_posts))]
pub(crate) fn ask_several(
    alloc: Global,
    memory: &RankMemory,
    requests: &Requests,
    several: &Several,
    known: Option<&Posts>,
) -> Result<Ask, AllocError>
    requires few { IsTrue (is_few (array_at several.now.array several.now.count)) }
    requires inside { IsTrue (is_array memory.now (array_at several.now.array several.now.count)) }
    ensures { MatchResult result (λ ask. ask ≡ asked_several memory.now requests.now several.now)
        (λ e. 0 < carried (asked_several memory.now requests.now several.now)) }
{
    let handles = handles_at(memory, array(several));
    let posts = posts_like(alloc, requests, handles.as_slice(), known)?;
    if posts.as_slice().is_empty() {
        return Ok(Ask::Local);
    }
    Ok(Ask::Hub(Request::All { posts }))
}

/// What is left for the requests behind this one.
fn left(pending: Pending, gots: &[Option<Message>]) -> &[Option<Message>]
    ensures { result.now ≡ left_of (post_of pending) gots.now }
{
    match pending.post() {
        None => gots,
        Some(_) => match gots.split_first() {
            None => gots,
            Some((_, rest)) => rest,
        },
    }
}

/// Whether a request got what it needs.
fn fits(site: &Site, pending: Pending, gots: &[Option<Message>]) -> bool
    ensures { result ≡ fits_one site.now pending (got_for_post (post_of pending) gots.now) }
{
    match pending {
        Pending::Nothing => true,
        Pending::FromNull => true,
        Pending::Message {
            post: _,
            buffer: _,
            capacity: _,
        } => match gots.split_first() {
            None => false,
            Some((got, _)) => match got {
                None => false,
                Some(message) => {
                    let envelope = message.envelope;
                    position(envelope.source, site.members(u64::from(envelope.comm))).is_some()
                }
            },
        },
        Pending::Word(_) => match gots.split_first() {
            None => true,
            Some((got, _)) => got.is_none(),
        },
    }
}

/// How many requests need the hub.
fn count_posts(requests: &Requests, handles: &[u64]) -> usize
    ensures { result ≡ length (posts_pending (pendings requests.now handles.now)) }
{
    let mut count = 0;
    let mut rest = handles;
    while let Some((handle, after)) = rest.split_first() {
        match pending(requests, *handle).post() {
            None => {}
            Some(_) => count += 1,
        }
        rest = after;
    }
    count
}

/// Whether all requests got what they need.
fn all_fit(site: &Site, requests: &Requests, handles: &[u64], gots: &[Option<Message>]) -> bool
    ensures { result ≡ are_fit site.now (pendings requests.now handles.now) gots.now }
{
    if gots.len() != count_posts(requests, handles) {
        return false;
    }
    let mut rest = handles;
    let mut behind = gots;
    while let Some((handle, after)) = rest.split_first() {
        let pending = pending(requests, *handle);
        if !fits(site, pending, behind) {
            return false;
        }
        behind = left(pending, behind);
        rest = after;
    }
    true
}

/// What a request writes that completes: bytes for its buffer, and what its status tells.
#[derive(Drop)]
struct Giving<'a> {
    buffer: u64,
    bytes: &'a [u8],
    source: u64,
    tag: u64,
    truncated: bool,
}

impl<'a> Giving<'a> {
    /// No bytes, and a status of this source.
    fn nothing(source: u64) -> Giving<'a>
        ensures { given_by result ≡ given_nothing source }
    {
        Giving {
            buffer: 0,
            bytes: &[],
            source,
            tag: ANY,
            truncated: false,
        }
    }

    /// As many of a message's bytes as fit.
    fn message(site: &Site, buffer: u64, capacity: u16, message: &'a Message) -> Giving<'a>
        ensures { given_by result ≡ given_message site.now buffer capacity message.now }
    {
        let envelope = message.envelope;
        let bytes = message.bytes.as_slice();
        Giving {
            buffer,
            bytes: kept(u64::from(capacity), bytes),
            source: position(envelope.source, site.members(u64::from(envelope.comm))).unwrap_or(0),
            tag: u64::from(envelope.tag),
            truncated: is_longer(u64::from(capacity), bytes),
        }
    }

    /// What a request gives, by what the hub gave for it.
    fn one(site: &Site, pending: Pending, gots: &'a [Option<Message>]) -> Giving<'a>
        ensures { given_by result ≡ given_one site.now pending (got_for_post (post_of pending) gots.now) }
    {
        match pending {
            Pending::Message {
                post: _,
                buffer,
                capacity,
            } => match gots.split_first() {
                None => Giving::nothing(ANY),
                Some((got, _)) => match got {
                    None => Giving::nothing(ANY),
                    Some(message) => Giving::message(site, buffer, capacity, message),
                },
            },
            Pending::FromNull => Giving::nothing(NO_RANK),
            Pending::Nothing | Pending::Word(_) => Giving::nothing(ANY),
        }
    }

    /// The status of what is given.
    #[tactic(auto, unfolding(crate::specs::Several::bytes_of_status))]
    fn status(&self) -> [u8; 24]
        ensures { result ≡ bytes_of_status (given_by self.now) }
    {
        status_bytes(self.source, self.tag, self.bytes.len() as u64)
    }
}

/// The requests of an array that complete, and what the hub gave for them.
#[derive(Drop)]
struct Deal<'a> {
    site: &'a Site,
    handles: &'a [u64],
    gots: &'a [Option<Message>],
    /// Where the statuses are to stand, or 0.
    address: u64,
}

/// Writes all bytes, in the array's order, and gathers all statuses. The answer is whether a message was truncated.
fn write_all(
    deal: &Deal<'_>,
    requests: &Requests,
    memory: &mut RankMemory,
    spares: &mut SparePages,
    statuses: &mut Statuses,
) -> bool
    requires pages { IsEnough memory.old.pages spares.old
        (messages_into requests.now deal.now.handles.now deal.now.address) }
    requires few { length deal.now.handles.now ≤ 255 }
    requires empty { statuses.old.items ≡ [] }
    ensures memory { memory.new ≡ with_all_bytes memory.old (given_in deal.now requests.now) }
    ensures statuses { statuses.new.items ≡ statuses_of (given_in deal.now requests.now) }
    ensures truncated { result ≡ list_any (λ (g : Given). g.truncated) (given_in deal.now requests.now) }
    ensures pages { how_many memory.new.pages + spares.new ≡ how_many memory.old.pages + spares.old }
    ensures left { IsEnough memory.new.pages spares.new
        (statuses_from deal.now.address (length deal.now.handles.now) ∷ []) }
{
    let mut truncated = false;
    let mut rest = deal.handles;
    let mut behind = deal.gots;
    while let Some((handle, after)) = rest.split_first() {
        let pending = pending(requests, *handle);
        let given = Giving::one(deal.site, pending, behind);
        write_where_right(memory, spares, given.buffer, given.bytes);
        let Ok(()) = statuses.try_extend_from_slice(&given.status()) else {
            unreachable!()
        };
        truncated = truncated || given.truncated;
        behind = left(pending, behind);
        rest = after;
    }
    truncated
}

/// All requests complete.
fn close_all(requests: &mut Requests, handles: &[u64])
    ensures { requests.new ≡ completed_each requests.old handles.now }
{
    let mut rest = handles;
    while let Some((handle, after)) = rest.split_first() {
        let _ = requests.complete(*handle);
        rest = after;
    }
}

/// Whether one of several requests needs the hub.
pub(crate) fn needs_hub(requests: &Requests, handles: &[u64]) -> bool
    ensures { result ≡ has_posts (posts_pending (pendings requests.now handles.now)) }
{
    let mut rest = handles;
    while let Some((handle, after)) = rest.split_first() {
        if pending(requests, *handle).post().is_some() {
            return true;
        }
        rest = after;
    }
    false
}

/// The array of handles of a call.
pub(crate) fn array(several: &Several) -> Array
    ensures { result ≡ array_at several.now.array several.now.count }
{
    Array {
        address: several.array,
        count: several.count,
    }
}

impl<'a> Turn<'a> {
    /// All requests complete: all bytes are written, then all statuses.
    #[tactic(auto, unfolding(crate::specs::Told::completed_all))]
    fn complete_all(&mut self, value: u64, address: u64, handles: &[u64], gots: &[Option<Message>])
        requires few { length handles.now ≤ 255 }
        requires pages { HasPages self.old (messages_into self.old.requests.now handles.now address) }
        ensures { Becomes self.old self.new
            (completed_all self.old.site.now value address handles.now gots.now (part_in self.old)) }
    {
        let deal = Deal {
            site: self.site,
            handles,
            gots,
            address,
        };
        let mut statuses = ArrayVec::new();
        let truncated = write_all(
            &deal,
            self.requests,
            self.memory,
            self.spares,
            &mut statuses,
        );
        if address != 0 {
            write_where_right(self.memory, self.spares, address, statuses.as_slice());
        }
        let code = if truncated { Code::Truncated } else { Code::Ok };
        close_all(self.requests, handles);
        self.end(code, value);
    }

    /// All requests of an array complete, where none needs the hub.
    pub(crate) fn complete_several(&mut self, value: u64, several: Several)
        requires there { HasArray self.old several }
        requires pages { HasPages self.old (several_into (part_in self.old) several) }
        ensures { Becomes self.old self.new (done self.old.site.now (CompletesAll value several) (part_in self.old)) }
    {
        let handles = handles_at(self.memory, array(&several));
        self.complete_all(value, several.statuses, handles.as_slice(), &[])
    }

    /// All requests of an array complete, where each got what it needs.
    pub(crate) fn gather(&mut self, value: u64, several: Several, gots: &[Option<Message>])
        requires there { HasArray self.old several }
        requires pages { HasPages self.old (several_into (part_in self.old) several) }
        ensures { Becomes self.old self.new
            (gathered self.old.site.now value several.statuses (handles_of self.old several) gots.now
            (part_in self.old)) }
    {
        let handles = handles_at(self.memory, array(&several));
        if all_fit(self.site, self.requests, handles.as_slice(), gots) {
            self.complete_all(value, several.statuses, handles.as_slice(), gots)
        } else {
            self.end(Code::BadRequest, 0)
        }
    }
}
