//! Posts for which a rank may wait.

ghost use Rattle.std.specs.Prelude.{◌≡◌, Some, IfSome, IsNone};
ghost use Rattle.mp_match.specs.Board.{line_of};
ghost use Rattle.mp_match.specs.Live.{post_in};
ghost use Rattle.mp_hub.specs.Live.{IsReadyToAll};

use super::HubState;
use mp_match::Post;

impl HubState {
    /// What the post of this number was posted with, but its bytes. Where it isn't ready this tells what it waits for:
    /// a send, also one that was claimed and isn't received yet, for its destination, a receive for whom it selects.
    /// None where there is no such post, or one that is ready.
    pub fn live_post(&self, post: u64) -> Option<Post>
        ensures some { IfSome result (λ live. post_in (line_of self.now.board post) ≡ Some live) }
        ensures none { IsNone result → IsReadyToAll self.now post }
    {
        self.queues.live_post(post)
    }
}
