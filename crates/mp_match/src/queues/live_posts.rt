//! Posts that aren't over.

ghost use Rattle.std.specs.Prelude.{◌≡◌, Some, IfSome, IsNone};
ghost use Rattle.mp_match.specs.Board.{line_of};
ghost use Rattle.mp_match.specs.Live.{post_in};
ghost use Rattle.mp_match.specs.InnerLive.{IsPast};

use super::Queues;
use crate::posts::Post;

impl Queues {
    /// The post of this number, if there is one and it isn't over: all that it was posted with but its bytes.
    pub fn live_post(&self, post: u64) -> Option<Post>
        ensures some { IfSome result (λ live. post_in (line_of self.now post) ≡ Some live) }
        ensures none { IsNone result → IsPast self.now post }
    {
        match self.kept(post) {
            None => None,
            Some(line) => Some(line.post),
        }
    }
}
