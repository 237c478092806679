//! The board of all posts ever made, which clauses alone read: it takes no memory, and nothing is done for it when the
//! program runs.

ghost use Rattle.std.specs.Prelude.{◌≡◌};
ghost use Rattle.std.specs.Borrow.{ftrue};
ghost use Rattle.mp_match.specs.Board.{Board, no_posts, board_with, without};

use crate::posts::Post;
use mp_types::Bytes;
use std::marker::Model;

/// All posts with their pairs, and the messages that are held.
#[derive(Drop)]
pub struct History {
    pub ghost board: { Board },
}

impl Model for History {
    ghost also_owns = { λ _. ftrue };
}

// It owns nothing.
unsafe impl Send for History {}

impl History {
    /// No posts.
    pub fn new() -> History
        ensures { result.board ≡ no_posts }
    {
        History {}
    }

    /// One post more, and its message if any.
    pub fn with_post(&self, _new: &Post, _body: &Option<Bytes>) -> History
        ensures { result.board ≡ board_with self.now.board _new.now _body.now }
    {
        History {}
    }

    /// The message of the send at the place isn't held any more.
    pub fn without(&self, _place: &u64) -> History
        ensures { result.board ≡ without self.now.board _place.now }
    {
        History {}
    }

    /// The last send compared so many waiting receives.
    pub fn with_compared(&self, _compared: &u64) -> History
        ensures { result.board ≡ record self.now.board { compared = _compared.now } }
    {
        History {}
    }

    /// The same board.
    pub fn again(&self) -> History
        ensures { result.board ≡ self.now.board }
    {
        History {}
    }
}
