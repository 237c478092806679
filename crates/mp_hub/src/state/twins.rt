//! A call answered with a reply that the hub keeps, of which whoever asked gets another.
//!
//! A reply that stands in place can be copied at any time. Of what carries more, its twin is made before the call, so that
//! nothing can fail after it: a message that shares its bytes, or a list of such messages.

ghost use Rattle.std.specs.Prelude.{◌≡◌, ◌-◌, ◌<◌, ◌≤◌, ◌^◌, ◌++◌, ◌∷◌, [], List, false, length, map, IfOk, IsOk, OnErr};
ghost use Rattle.std.specs.Prelude.{OnOk, true};
ghost use Rattle.mp_types.specs.Carried.{carried_by_message, carried_by_reply};
ghost use Rattle.mp_match.specs.Twins.{IsTwinOf};
ghost use Rattle.rv_image_types.specs.declared.images.Link.{Link};
ghost use Rattle.mp_hub.specs.Hub.{Call, got_or, all_collected, all_got, all_outcome};
ghost use Rattle.mp_hub.specs.Outcomes.{StandsFor};
ghost use Rattle.mp_hub.specs.InnerOutcomes.{IsOutcome};
ghost use Rattle.mp_hub.specs.Hub.{claimed_outcome, collect_outcome, message_or, one_got, outcome, recv_outcome};
ghost use Rattle.mp_hub.specs.Hub.{is_known, reply_of};
ghost use Rattle.std.specs.List.{list_all};
ghost use Rattle.mp_match.specs.Board.{collect};
ghost use Rattle.mp_hub.specs.Laws.{most_messages};
ghost use Rattle.mp_hub.specs.Made.{TakesNothing, makes};
ghost use Rattle.mp_hub.specs.Twins.{Covers, HasTwin};

use super::{CallFault, HubState, gather, has_distinct, selection_of, sent_of};
use mp_match::{Queues, Selection};
use mp_types::{Code, Gots, Message, Reply, Request};
use std::alloc::Global;

/// A reply once more: its twin, or a copy of what stands in place.
#[inline(always)]
pub fn twin_of(alloc: Global, reply: &Reply, twin: Option<Reply>) -> Reply
    requires { HasTwin reply.now twin }
    ensures { result ≡ reply.now }
{
    match twin {
        Some(twin) => twin,
        None => match reply.try_copy(alloc) {
            Ok(copy) => copy,
            Err(_) => unreachable!(),
        },
    }
}

// A message that was got, or else that reply.
#[inline(always)]
fn message_or(message: Option<Message>, other: Reply) -> Reply
    ensures { result ≡ message_or other message }
{
    match message {
        Some(message) => Reply::Got(message),
        None => other,
    }
}

// The copies of what was got, without those of posts that then gave nothing.
fn kept_copies(gots: &[Option<Message>], copies: Vec<Option<Message>>) -> Vec<Option<Message>>
    requires { Covers gots.now copies.items }
    ensures { result.items ≡ gots.now }
{
    let mut copies = copies;
    let mut place = 0;
    while place < gots.len() {
        if gots[place].is_none() {
            copies[place] = None;
        }
        place += 1;
    }
    copies
}

// The message of a post, or that it isn't there yet.
#[inline(always)]
fn taken_with(
    queues: &mut Queues,
    alloc: Global,
    post: u64,
    twin: &mut Option<Reply>,
) -> Result<Reply, CallFault>
    requires { twin.old ≡ None }
    ensures told { IfOk result (λ reply. reply ≡ message_or Reply.NotYet (collect queues.old post).0) }
    ensures after { OnOk result (queues.new ≡ (collect queues.old post).1) }
    ensures twin { IfOk result (λ reply. HasTwin reply twin.new) }
    ensures free { carried_by_reply (message_or Reply.NotYet (collect queues.old post).0) ≡ 0 → IsOk result }
    ensures err { OnErr result (queues.new ≡ queues.old) }
{
    let mut copy = None;
    let Ok(message) = queues.collect_with(alloc, post, &mut copy) else {
        return Err(CallFault::Memory);
    };
    if let Some(copy) = copy {
        *twin = Some(Reply::Got(copy));
    }
    Ok(message_or(message, Reply::NotYet))
}

impl HubState {
    #[inline(always)]
    fn recv_with(
        &mut self,
        selection: Selection,
        twin: &mut Option<Reply>,
    ) -> Result<Reply, CallFault>
        requires none { twin.old ≡ None }
        requires few { length self.old.board.lines < 2 ^ 64 - 1 }
        ensures ok { IfOk result (λ reply. IsOutcome (recv_outcome self.old true selection) reply self.new) }
        ensures twin { IfOk result (λ reply. HasTwin reply twin.new) }
        ensures err { OnErr result (self.new ≡ self.old) }
    {
        let post = self.queues.posts() + 1;
        let mut copy = None;
        let Ok(message) = self.queues.receive_with(self.alloc, selection, &mut copy) else {
            return Err(CallFault::Memory);
        };
        if let Some(copy) = copy {
            *twin = Some(Reply::Got(copy));
        }
        Ok(message_or(message, Reply::Posted { post, done: false }))
    }

    fn collect_with(
        &mut self,
        rank: u8,
        post: u64,
        twin: &mut Option<Reply>,
    ) -> Result<Reply, CallFault>
        requires { twin.old ≡ None }
        ensures ok { IfOk result (λ reply. IsOutcome (collect_outcome self.old rank post) reply self.new) }
        ensures twin { IfOk result (λ reply. HasTwin reply twin.new) }
        ensures free { carried_by_reply (collect_outcome self.old rank post).0 ≡ 0 → IsOk result }
        ensures err { OnErr result (self.new ≡ self.old) }
    {
        if !self.may_collect(rank, post) {
            return Ok(Reply::Code(Code::BadRequest));
        }
        taken_with(&mut self.queues, self.alloc, post, twin)
    }

    // The claim is marked as received after the twin was made, which may be refused.
    fn claimed_with(
        &mut self,
        rank: u8,
        message: u64,
        twin: &mut Option<Reply>,
    ) -> Result<Reply, CallFault>
        requires { twin.old ≡ None }
        ensures ok { IfOk result (λ reply. IsOutcome (claimed_outcome self.old rank true message) reply self.new) }
        ensures twin { IfOk result (λ reply. HasTwin reply twin.new) }
        ensures free { carried_by_reply (claimed_outcome self.old rank true message).0 ≡ 0 → IsOk result }
        ensures err { OnErr result (self.new ≡ self.old) }
    {
        if !self.claims.may_receive(rank, message) {
            return Ok(Reply::Code(Code::BadMessage));
        }
        let told = taken_with(&mut self.queues, self.alloc, message, twin)?;
        match self.claims.receive_claimed(rank, message) {
            Ok(()) => Ok(told),
            Err(_) => unreachable!(),
        }
    }

    fn all_with(
        &mut self,
        rank: u8,
        posts: &[u64],
        twin: &mut Option<Reply>,
    ) -> Result<Reply, CallFault>
        requires { twin.old ≡ None }
        ensures ok { IfOk result (λ reply. IsOutcome (all_outcome self.old rank posts.now) reply self.new) }
        ensures twin { IfOk result (λ reply. HasTwin reply twin.new) }
        ensures free { carried_by_reply (all_outcome self.old rank posts.now).0 ≡ 0 → IsOk result }
        ensures err { OnErr result (self.new ≡ self.old) }
    {
        if !has_distinct(posts) || !self.are_known(rank, posts) {
            return Ok(Reply::Code(Code::BadRequest));
        }
        if !self.are_ready(rank, posts) {
            return Ok(Reply::NotYet);
        }
        self.gather_with(rank, posts, twin)
    }

    #[tactic(auto, using(crate::proofs::Copied::got_no_posts, crate::proofs::Copied::covered))]
    fn gather_with(
        &mut self,
        rank: u8,
        posts: &[u64],
        twin: &mut Option<Reply>,
    ) -> Result<Reply, CallFault>
        requires none { twin.old ≡ None }
        requires known { list_all (λ n. is_known self.old rank n) posts.now ≡ true }
        ensures ok { IfOk result (λ reply.
            IsOutcome (all_collected self.old (all_got rank self.old.board posts.now)) reply self.new) }
        ensures twin { IfOk result (λ reply. HasTwin reply twin.new) }
        ensures free { carried_by_reply (all_collected self.old (all_got rank self.old.board posts.now)).0 ≡ 0
            → IsOk result }
        ensures err { OnErr result (self.new ≡ self.old) }
    {
        let mut gots = match Vec::with_capacity(self.alloc, posts.len()) {
            Ok(gots) => gots,
            Err(_) => return Err(CallFault::Memory),
        };
        let copies = self.copies(rank, posts)?;
        gather(&mut self.queues, rank, posts, &mut gots);
        let twins = kept_copies(gots.as_slice(), copies);
        *twin = Some(Reply::AllGot(Gots::from_vec(twins)));
        Ok(Reply::AllGot(Gots::from_vec(gots)))
    }

    // What each of the posts would give by itself.
    fn copies(&self, rank: u8, posts: &[u64]) -> Result<Vec<Option<Message>>, CallFault>
        ensures copies { IfOk result (λ copies. copies.items ≡ map (λ n. (one_got rank self.now.board n).0) posts.now) }
        ensures free { posts.now ≡ [] → IsOk result }
    {
        let mut copies = match Vec::with_capacity(self.alloc, posts.len()) {
            Ok(copies) => copies,
            Err(_) => return Err(CallFault::Memory),
        };
        let mut rest = posts;
        while let Some((post, after)) = rest.split_first() {
            let copy = self.copy_one(rank, *post)?;
            copies.push_reserved(copy);
            rest = after;
        }
        Ok(copies)
    }

    fn copy_one(&self, rank: u8, post: u64) -> Result<Option<Message>, CallFault>
        ensures copy { IfOk result (λ copy. copy ≡ (one_got rank self.now.board post).0) }
        ensures free { carried_by_message (one_got rank self.now.board post).0 ≡ 0 → IsOk result }
    {
        if self.queues.is_send_of(rank, post) {
            return Ok(None);
        }
        match self.queues.copy_of(self.alloc, post) {
            Ok(copy) => Ok(copy),
            Err(_) => Err(CallFault::Memory),
        }
    }

    /// Answers one call of a rank as `answer` does. Where the reply doesn't stand in place, it is put into `twin` once more,
    /// which shares the bytes of its messages. Else that stays None, and `twin_of` copies the reply.
    ///
    /// Refused for memory alone, and never where the call makes nothing, as `answer` has it, and the reply carries
    /// nothing; after a refusal all is as it was.
    #[inline(always)]
    pub fn answer_with(
        &mut self,
        rank: u8,
        request: &Request,
        twin: &mut Option<Reply>,
    ) -> Result<Reply, CallFault>
        requires none { twin.old ≡ None }
        requires few { length self.old.board.lines < 2 ^ 64 - 1 }
        ensures reply { (links : List Link) (calls : List Call) → StandsFor self.old links calls
            → IfOk result (λ reply. reply ≡ reply_of links calls rank request.now) }
        ensures stands { (links : List Link) (calls : List Call) → StandsFor self.old links calls
            → OnOk result (StandsFor self.new links (calls ++ (rank, request.now) ∷ [])) }
        ensures twin { IfOk result (λ reply. HasTwin reply twin.new) }
        ensures spared { (links : List Link) (calls : List Call) → StandsFor self.old links calls
            → TakesNothing request.now (reply_of links calls rank request.now) → IsOk result }
        ensures err { OnErr result (self.new ≡ self.old) }
    {
        self.reply_with(rank, request, twin)
    }

    #[inline(always)]
    fn reply_with(
        &mut self,
        rank: u8,
        request: &Request,
        twin: &mut Option<Reply>,
    ) -> Result<Reply, CallFault>
        requires none { twin.old ≡ None }
        requires few { length self.old.board.lines < 2 ^ 64 - 1 }
        ensures ok { IfOk result (λ reply. IsOutcome (outcome self.old rank request.now) reply self.new) }
        ensures twin { IfOk result (λ reply. HasTwin reply twin.new) }
        ensures free { TakesNothing request.now (outcome self.old rank request.now).0 → IsOk result }
        ensures err { OnErr result (self.new ≡ self.old) }
    {
        match request {
            Request::Send {
                sync,
                comm,
                dest,
                tag,
                bytes,
            } => self.send(sent_of(rank, *sync, *comm, *dest, *tag, bytes), bytes),
            Request::Recv {
                now: true,
                comm,
                source,
                tag,
            } => self.recv_with(selection_of(rank, *comm, *source, *tag), twin),
            Request::Collect { post } => self.collect_with(rank, *post, twin),
            Request::Claimed { now: true, message } => self.claimed_with(rank, *message, twin),
            Request::All { posts } => self.all_with(rank, posts.as_slice(), twin),
            _ => self.bare_with(rank, request, twin),
        }
    }

    // Of a request that brings no message: all of the reply stands in place. No SEND and no RECV goes this way. So it isn't
    // inlined, and leaves room for the hub's call inside the turn of a rank, where the compiler drops what grows too large.
    #[inline(never)]
    fn bare_with(
        &mut self,
        rank: u8,
        request: &Request,
        twin: &mut Option<Reply>,
    ) -> Result<Reply, CallFault>
        requires none { twin.old ≡ None }
        requires few { length self.old.board.lines < 2 ^ 64 - 1 }
        requires bare { most_messages request.now ≡ 0 }
        ensures ok { IfOk result (λ reply. IsOutcome (outcome self.old rank request.now) reply self.new) }
        ensures twin { IfOk result (λ reply. HasTwin reply twin.new) }
        ensures free { makes request.now (outcome self.old rank request.now).0 ≡ false → IsOk result }
        ensures err { OnErr result (self.new ≡ self.old) }
    {
        self.reply(rank, request)
    }
}
