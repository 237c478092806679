//! Whether a rank holds what it held before. Of what is the same this may say that it isn't: only time depends on that.

ghost use Rattle.std.specs.Prelude.{◌≡◌, IsTrue};
ghost use Rattle.cl_state.specs.Room.{rank_of};
ghost use Rattle.cl_moves.specs.Cycles.{IsSameRank};

use cl_state::{KeptRank, RankState};
use mp_request::{OpenRequest, Progress, State, is_same_transfer};
use rv_hart::{Hart, Mode, Wait};

fn is_same_wait(a: Wait, b: Wait) -> bool
    ensures { IsTrue result → a ≡ b }
{
    match (a, b) {
        (Wait::Post(post), Wait::Post(other)) => post == other,
        (Wait::Again, Wait::Again) => true,
        _ => false,
    }
}

fn is_same_mode(a: Mode, b: Mode) -> bool
    ensures { IsTrue result → a ≡ b }
{
    match (a, b) {
        (Mode::Running, Mode::Running) => true,
        (Mode::Waiting(wait), Mode::Waiting(other)) => is_same_wait(wait, other),
        (Mode::Ended(code), Mode::Ended(other)) => code == other,
        // where a hart trapped, the rank is taken for another one
        _ => false,
    }
}

fn is_same_hart(a: &Hart, b: &Hart) -> bool
    ensures { IsTrue result → a.now ≡ b.now }
{
    a.is_same_but_mode(b) && is_same_mode(a.mode(), b.mode())
}

/// Whether each hart is the other one of its number.
fn are_same_harts(harts: &[Hart], others: &[Hart]) -> bool
    ensures { IsTrue result → harts.now ≡ others.now }
{
    let mut left = harts;
    let mut right = others;
    while let Some((hart, after)) = left.split_first() {
        let Some((other, beyond)) = right.split_first() else {
            return false;
        };
        if !is_same_hart(hart, other) {
            return false;
        }
        left = after;
        right = beyond;
    }
    right.is_empty()
}

fn is_same_progress(a: Progress, b: Progress) -> bool
    ensures { IsTrue result → a ≡ b }
{
    match (a, b) {
        (Progress::Finished, Progress::Finished) => true,
        (Progress::Sent(post), Progress::Sent(other))
        | (Progress::OnPost(post), Progress::OnPost(other)) => post == other,
        (Progress::InPhase, Progress::InPhase) => true,
        _ => false,
    }
}

fn is_same_state(a: State, b: State) -> bool
    ensures { IsTrue result → a ≡ b }
{
    match (a, b) {
        (State::Ordinary(mine), State::Ordinary(theirs)) => is_same_progress(mine, theirs),
        (State::Inactive, State::Inactive) => true,
        (State::Active(mine), State::Active(theirs)) => is_same_progress(mine, theirs),
        _ => false,
    }
}

fn is_same_slot(a: &Option<OpenRequest>, b: &Option<OpenRequest>) -> bool
    ensures { IsTrue result → a.now ≡ b.now }
{
    match (a, b) {
        (None, None) => true,
        (Some(mine), Some(theirs)) => {
            is_same_transfer(&mine.transfer, &theirs.transfer)
                && is_same_state(mine.state, theirs.state)
        }
        _ => false,
    }
}

/// Whether each handle names the same request.
fn are_same_slots(slots: &[Option<OpenRequest>], others: &[Option<OpenRequest>]) -> bool
    ensures { IsTrue result → slots.now ≡ others.now }
{
    let mut left = slots;
    let mut right = others;
    while let Some((slot, after)) = left.split_first() {
        let Some((other, beyond)) = right.split_first() else {
            return false;
        };
        if !is_same_slot(slot, other) {
            return false;
        }
        left = after;
        right = beyond;
    }
    right.is_empty()
}

/// Whether a rank holds the same as a kept one: harts, memory, requests, phases and output. It takes no memory.
pub(crate) fn is_same_rank(kept: &KeptRank, own: &RankState) -> bool
    ensures { IsTrue result → IsSameRank kept.now (rank_of own.now) }
{
    are_same_harts(kept.harts(), own.harts.as_slice())
        && are_same_slots(kept.requests().front(), own.requests.front())
        && kept.is_same_beside(own)
}
