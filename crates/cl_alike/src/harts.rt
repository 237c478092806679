//! Harts and requests, compared by the names of posts.

ghost use Rattle.std.specs.Prelude.{◌≡◌, ◌↔◌, IsTrue, map, option_map};
ghost use Rattle.mp_alike_laws.specs.Renaming.{Renaming};
ghost use Rattle.mp_alike.specs.Names.{IsListed};
ghost use Rattle.cl_names_laws.specs.Named.{hart_by, mode_by, open_by, progress_by, state_by, table_by, wait_by};

use mp_alike::Names;
use mp_request::{OpenRequest, Progress, State, is_same_transfer};
use rv_hart::{Hart, Mode, Wait};
use rv_memory::Cause;

#[tactic(auto, using(crate::proofs::Same::same_cause))]
fn is_same_cause(a: Cause, b: Cause) -> bool
    ensures { IsTrue result ↔ (b ≡ a) }
{
    b.number() == a.number()
}

fn is_alike_wait(names: &Names, a: Wait, b: Wait) -> bool
    ensures { (naming : Renaming) → IsListed naming names.now → IsTrue result → b ≡ wait_by naming a }
{
    match (a, b) {
        (Wait::Post(post), Wait::Post(other)) => names.is_named(post, other),
        (Wait::Again, Wait::Again) => true,
        _ => false,
    }
}

fn is_alike_mode(names: &Names, a: Mode, b: Mode) -> bool
    ensures { (naming : Renaming) → IsListed naming names.now → IsTrue result → b ≡ mode_by naming a }
{
    match (a, b) {
        (Mode::Running, Mode::Running) => true,
        (Mode::Waiting(wait), Mode::Waiting(other)) => is_alike_wait(names, wait, other),
        (Mode::Ended(code), Mode::Ended(other)) => code == other,
        (Mode::Trapped(cause, pc), Mode::Trapped(other, at)) => {
            pc == at && is_same_cause(cause, other)
        }
        _ => false,
    }
}

fn is_alike_hart(names: &Names, hart: &Hart, other: &Hart) -> bool
    ensures { (naming : Renaming) → IsListed naming names.now → IsTrue result → other.now ≡ hart_by naming hart.now }
{
    hart.is_same_but_mode(other) && is_alike_mode(names, hart.mode(), other.mode())
}

/// Whether each hart is the other one of its number, but for the names of posts.
pub fn are_alike_harts(names: &Names, harts: &[Hart], others: &[Hart]) -> bool
    ensures { (naming : Renaming) → IsListed naming names.now → IsTrue result → others.now ≡ map (hart_by naming) harts.now }
{
    if harts.len() != others.len() {
        return false;
    }
    for hart in 0..harts.len() {
        if !is_alike_hart(names, &harts[hart], &others[hart]) {
            return false;
        }
    }
    true
}

fn is_alike_progress(names: &Names, a: Progress, b: Progress) -> bool
    ensures { (naming : Renaming) → IsListed naming names.now → IsTrue result → b ≡ progress_by naming a }
{
    match (a, b) {
        (Progress::Finished, Progress::Finished) => true,
        (Progress::Sent(post), Progress::Sent(other))
        | (Progress::OnPost(post), Progress::OnPost(other)) => names.is_named(post, other),
        (Progress::InPhase, Progress::InPhase) => true,
        _ => false,
    }
}

fn is_alike_state(names: &Names, a: State, b: State) -> bool
    ensures { (naming : Renaming) → IsListed naming names.now → IsTrue result → b ≡ state_by naming a }
{
    match (a, b) {
        (State::Ordinary(mine), State::Ordinary(theirs)) => is_alike_progress(names, mine, theirs),
        (State::Inactive, State::Inactive) => true,
        (State::Active(mine), State::Active(theirs)) => is_alike_progress(names, mine, theirs),
        _ => false,
    }
}

fn is_alike_request(names: &Names, a: &OpenRequest, b: &OpenRequest) -> bool
    ensures { (naming : Renaming) → IsListed naming names.now → IsTrue result → b.now ≡ open_by naming a.now }
{
    is_same_transfer(&a.transfer, &b.transfer) && is_alike_state(names, a.state, b.state)
}

fn is_alike_slot(names: &Names, a: &Option<OpenRequest>, b: &Option<OpenRequest>) -> bool
    ensures { (naming : Renaming) → IsListed naming names.now → IsTrue result
        → b.now ≡ option_map (open_by naming) a.now }
{
    match (a, b) {
        (None, None) => true,
        (Some(mine), Some(theirs)) => is_alike_request(names, mine, theirs),
        _ => false,
    }
}

/// Whether each handle names the same request in both tables, but for the names of posts.
pub fn are_alike_slots(
    names: &Names,
    slots: &[Option<OpenRequest>],
    others: &[Option<OpenRequest>],
) -> bool
    ensures { (naming : Renaming) → IsListed naming names.now → IsTrue result → others.now ≡ table_by naming slots.now }
{
    if slots.len() != others.len() {
        return false;
    }
    for slot in 0..slots.len() {
        if !is_alike_slot(names, &slots[slot], &others[slot]) {
            return false;
        }
    }
    true
}
