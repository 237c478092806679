//! Phases, compared.

ghost use Rattle.std.specs.Prelude.{◌≡◌, ◌↔◌, IsTrue};

use crate::phases::Phase;
use crate::receiving::RecvPhase;
use crate::sending::SendPhase;

#[tactic(auto, using(crate::proofs::SameMarks::same_marks))]
fn are_same_marks(marks: &[bool; 16], others: &[bool; 16]) -> bool
    ensures { IsTrue result ↔ (marks.now ≡ others.now) }
{
    marks == others
}

fn is_same_sending(p: &SendPhase, q: &SendPhase) -> bool
    ensures { IsTrue result ↔ (p.now ≡ q.now) }
{
    p.parts == q.parts
        && p.size == q.size
        && p.freed == q.freed
        && are_same_marks(&p.ready, &q.ready)
}

fn is_same_receiving(p: &RecvPhase, q: &RecvPhase) -> bool
    ensures { IsTrue result ↔ (p.now ≡ q.now) }
{
    p.parts == q.parts
        && p.size == q.size
        && p.boxes == q.boxes
        && p.bytes == q.bytes
        && p.active == q.active
        && are_same_marks(&p.taken, &q.taken)
}

fn is_same_phase(p: &Phase, q: &Phase) -> bool
    ensures { IsTrue result ↔ (p.now ≡ q.now) }
{
    match (p, q) {
        (Phase::Apart, Phase::Apart) => true,
        (Phase::Sending(p), Phase::Sending(q)) => is_same_sending(p, q),
        (Phase::Receiving(p), Phase::Receiving(q)) => is_same_receiving(p, q),
        _ => false,
    }
}

// Whether both lists have the same phases in the same order.
pub(crate) fn are_same(all: &[Phase], others: &[Phase]) -> bool
    ensures { IsTrue result ↔ (all.now ≡ others.now) }
{
    let mut left = all;
    let mut right = others;
    while let Some((p, after)) = left.split_first() {
        let Some((q, beyond)) = right.split_first() else {
            return false;
        };
        if !is_same_phase(p, q) {
            return false;
        }
        left = after;
        right = beyond;
    }
    right.is_empty()
}
