//! Tables of requests, compared.

ghost use Rattle.std.specs.Prelude.{◌≡◌, ◌↔◌, IsTrue};

use mp_request::{OpenRequest, Progress, State, is_same_transfer};

fn is_same_progress(a: Progress, b: Progress) -> bool
    ensures { IsTrue result ↔ (a ≡ b) }
{
    match (a, b) {
        (Progress::Finished, Progress::Finished) => true,
        (Progress::Sent(post), Progress::Sent(other))
        | (Progress::OnPost(post), Progress::OnPost(other)) => post == other,
        (Progress::InPhase, Progress::InPhase) => true,
        _ => false,
    }
}

fn is_same_state(a: State, b: State) -> bool
    ensures { IsTrue result ↔ (a ≡ b) }
{
    match (a, b) {
        (State::Ordinary(mine), State::Ordinary(theirs)) => is_same_progress(mine, theirs),
        (State::Inactive, State::Inactive) => true,
        (State::Active(mine), State::Active(theirs)) => is_same_progress(mine, theirs),
        _ => false,
    }
}

fn is_same_slot(a: &Option<OpenRequest>, b: &Option<OpenRequest>) -> bool
    ensures { IsTrue result ↔ (a.now ≡ b.now) }
{
    match (a, b) {
        (None, None) => true,
        (Some(mine), Some(theirs)) => {
            is_same_transfer(&mine.transfer, &theirs.transfer)
                && is_same_state(mine.state, theirs.state)
        }
        _ => false,
    }
}

/// Whether the slots name the same requests, in their order. It takes no memory.
pub(crate) fn are_same_slots(slots: &[Option<OpenRequest>], others: &[Option<OpenRequest>]) -> bool
    ensures { IsTrue result ↔ (slots.now ≡ others.now) }
{
    let mut left = slots;
    let mut right = others;
    while let Some((slot, after)) = left.split_first() {
        let Some((other, beyond)) = right.split_first() else {
            return false;
        };
        if !is_same_slot(slot, other) {
            return false;
        }
        left = after;
        right = beyond;
    }
    right.is_empty()
}
