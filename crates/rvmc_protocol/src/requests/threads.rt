//! Threads, which are a rank's harts, and how they are to move.

ghost use Rattle.std.specs.Prelude.{◌≡◌, map};
ghost use Rattle.rvmc_protocol.specs.Requests.Threads.{action_in, chosen, move_in, moved, named, thread_in};

use crate::requests::pieces::{cut, is_word, number_in};

/// The thread that a request speaks of. Whether there is one is not known here.
#[derive(Clone, Copy)]
pub enum Thread {
    /// Every one.
    All,
    /// Any one.
    Any,
    /// The one of this number.
    One(u64),
}

/// How the threads are to move.
#[derive(Clone, Copy)]
pub enum Move {
    /// All go on.
    Go,
    /// This one makes a step.
    Step(Thread),
    /// None moves.
    Stop,
}

/// The thread of this number, of which 0 is any.
fn named(number: u64) -> Thread
    ensures { result ≡ named number }
{
    if number == 0 {
        Thread::Any
    } else {
        Thread::One(number)
    }
}

/// The thread that a text names: `-1`, or a number.
#[tactic(auto, unfolding(crate::specs::Requests::Threads::thread_in))]
pub(crate) fn thread_in(text: &[u8]) -> Option<Thread>
    ensures { result ≡ thread_in text.now }
{
    if is_word(text, b"-1") {
        return Some(Thread::All);
    }
    let number = number_in(text)?;
    Some(named(number))
}

/// The action of a letter for this thread.
#[tactic(auto, unfolding(crate::specs::Requests::Threads::move_in))]
fn move_in(letter: &[u8], thread: Thread) -> Option<Move>
    ensures { result ≡ move_in letter.now thread }
{
    if is_word(letter, b"c") {
        return Some(Move::Go);
    }
    if is_word(letter, b"s") {
        return Some(Move::Step(thread));
    }
    if is_word(letter, b"t") {
        return Some(Move::Stop);
    }
    None
}

/// The action that a text writes: a letter, alone or with a colon and a thread behind it.
#[tactic(auto, unfolding(crate::specs::Requests::Threads::action_in))]
pub(crate) fn action_in(text: &[u8]) -> Option<Move>
    ensures { result ≡ action_in text.now }
{
    let Some((letter, thread)) = cut(text, b':') else {
        return move_in(text, Thread::Any);
    };
    let thread = thread_in(thread)?;
    move_in(letter, thread)
}

/// Of two actions the one that is done: the first step, or else that something goes on.
fn chosen(first: Move, second: Move) -> Move
    ensures { result ≡ chosen first second }
{
    match (first, second) {
        (Move::Step(thread), _) => Move::Step(thread),
        (Move::Go, Move::Step(thread)) => Move::Step(thread),
        (Move::Go, _) => Move::Go,
        (Move::Stop, _) => second,
    }
}

/// What actions ask for together, where each text writes one.
pub(crate) fn moved(texts: &[&[u8]]) -> Option<Move>
    ensures { result ≡ moved Move.Stop (map (λ text. text.now) texts.now) }
{
    let mut all = Move::Stop;
    for text in texts {
        let Some(action) = action_in(text) else {
            return None;
        };
        all = chosen(all, action);
    }
    Some(all)
}
