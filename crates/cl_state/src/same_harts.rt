//! Harts, compared. What is the same may be told apart here, and is kept twice then: only memory hangs on it.

ghost use Rattle.std.specs.Prelude.{◌≡◌, IsTrue};

use rv_hart::{Hart, Mode, Wait};

fn is_same_wait(a: Wait, b: Wait) -> bool
    ensures { IsTrue result → a ≡ b }
{
    match (a, b) {
        (Wait::Post(post), Wait::Post(other)) => post == other,
        (Wait::Again, Wait::Again) => true,
        _ => false,
    }
}

fn is_same_mode(a: Mode, b: Mode) -> bool
    ensures { IsTrue result → a ≡ b }
{
    match (a, b) {
        (Mode::Running, Mode::Running) => true,
        (Mode::Waiting(wait), Mode::Waiting(other)) => is_same_wait(wait, other),
        (Mode::Ended(code), Mode::Ended(other)) => code == other,
        // a rank with a trapped hart is kept by itself
        _ => false,
    }
}

fn is_same_hart(a: &Hart, b: &Hart) -> bool
    ensures { IsTrue result → a.now ≡ b.now }
{
    a.is_same_but_mode(b) && is_same_mode(a.mode(), b.mode())
}

/// Whether each hart is the other one of its number. It takes no memory.
pub(crate) fn are_same_harts(harts: &[Hart], others: &[Hart]) -> bool
    ensures { IsTrue result → harts.now ≡ others.now }
{
    let mut left = harts;
    let mut right = others;
    while let Some((hart, after)) = left.split_first() {
        let Some((other, beyond)) = right.split_first() else {
            return false;
        };
        if !is_same_hart(hart, other) {
            return false;
        }
        left = after;
        right = beyond;
    }
    right.is_empty()
}
