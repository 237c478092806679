//! Calls that would be answered NotYet, told without making them, and what they wait for.

ghost use Rattle.std.specs.Prelude.{◌≡◌, None, Some};
ghost use Rattle.mp_hub.specs.Claimed.{is_only_claimed};
ghost use Rattle.mp_hub.specs.Vain.{asks_in_vain};
ghost use Rattle.mp_match.specs.Board.{is_receive_of};
ghost use Rattle.mp_match.specs.FreePosts.{free_post};
ghost use Rattle.mp_types.specs.declared.requests.Request.TheVariants.{Collect};

use super::{HubState, has_distinct, selection_of};
use mp_match::Post;
use mp_transfers::{find_sender, receives_over};
use mp_types::Request;
use rv_image_types::Link;

// Whether the post is a receive or a claim of the rank.
fn is_taken_by(rank: u8, post: Post) -> bool
    ensures { result ≡ is_receive_of rank (Some (record { post = post; partner = None })) }
{
    match post {
        Post::Send(_) => false,
        Post::Receive(selection) | Post::Claim(selection) => selection.rank == rank,
    }
}

impl HubState {
    /// Whether a call of the rank would be answered NotYet if it were made now. Changes nothing, and takes no memory.
    #[inline(always)]
    pub fn asks_in_vain(&self, rank: u8, request: &Request) -> bool
        ensures { result ≡ asks_in_vain self.now rank request.now }
    {
        match request {
            Request::Collect { post } => self.lacks_message(rank, *post),
            Request::Finished { post } => {
                self.queues.is_send_of(rank, *post) && !self.is_complete(*post)
            }
            Request::Probe { comm, source, tag } | Request::Claim { comm, source, tag } => self
                .queues
                .probe(selection_of(rank, *comm, *source, *tag))
                .is_none(),
            Request::All { posts } => {
                let posts = posts.as_slice();
                has_distinct(posts) && self.are_known(rank, posts) && !self.are_ready(rank, posts)
            }
            Request::Cut { link } => {
                receives_over(self.links.as_slice(), rank, *link)
                    && find_sender(self.sides.as_slice(), *link).is_none()
            }
            _ => false,
        }
    }

    // Whether the post is a receive of the rank that has no message. It's what is asked most: one look at the post tells.
    fn lacks_message(&self, rank: u8, post: u64) -> bool
        ensures { result ≡ asks_in_vain self.now rank (Collect post) }
    {
        match self.queues.free_post(post) {
            Some(free) => is_taken_by(rank, free) && !self.claims.is_waiting(post),
            None => false,
        }
    }

    /// The post of this number, where it has no partner: a receive or a claim without a message, or a send that no
    /// receive and no claim has.
    pub fn free_post(&self, post: u64) -> Option<Post>
        ensures { result ≡ free_post self.now.board post }
    {
        self.queues.free_post(post)
    }

    /// Whether a matched probe has the message of this send, and nobody received it yet (MPI 4.1, 3.8.2).
    pub fn is_only_claimed(&self, post: u64) -> bool
        ensures { result ≡ is_only_claimed self.now post }
    {
        match self.queues.claim_of(post) {
            None => false,
            Some(claim) => self.claims.is_waiting(claim),
        }
    }

    /// The image's links.
    pub fn links(&self) -> &[Link]
        ensures { result.now ≡ self.now.links }
    {
        self.links.as_slice()
    }
}
