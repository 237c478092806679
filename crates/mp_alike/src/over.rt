//! Posts that are over: no rank is told anything of them any more.

ghost use Rattle.std.specs.Prelude.{◌≡◌, ◌↔◌, IsTrue, None, Some, slice_get};
ghost use Rattle.mp_source_laws.specs.Alike.{IsOver, IsOverReceive, IsOverSend};
ghost use Rattle.mp_alike.specs.InnerOver.{HasCollected, IsPairedStandard};

use crate::board::{WholeBoard, line_at};
use crate::posts::has_body_at;
use mp_match::{Line, Post};

// Whether the message of the send at the place was collected.
fn is_collected(board: &WholeBoard, place: usize) -> bool
    ensures { IsTrue result ↔ (slice_get board.now.bodies place ≡ Some None) }
{
    has_body_at(board.bodies(), place, &None)
}

// Whether the line is of a standard send that has a partner.
fn is_paired_standard(line: &Line) -> bool
    ensures { IsTrue result ↔ IsPairedStandard line.now }
{
    match (line.post, line.partner) {
        (Post::Send(sent), Some(_)) => !sent.sync,
        _ => false,
    }
}

/// Whether a standard send stands at the place whose message was collected.
pub fn is_over_send(board: &WholeBoard, place: usize) -> bool
    ensures { IsTrue result ↔ IsOverSend board.now place }
{
    match line_at(board.lines(), place) {
        Some(line) => is_paired_standard(&line) && is_collected(board, place),
        None => false,
    }
}

// Whether the line is of a receive whose message was collected.
fn has_collected(board: &WholeBoard, line: &Line) -> bool
    ensures { IsTrue result ↔ HasCollected board.now line.now }
{
    match (line.post, line.partner) {
        (Post::Receive(_), Some(partner)) => is_collected(board, partner as usize),
        _ => false,
    }
}

/// Whether a receive stands at the place that was collected.
pub fn is_over_receive(board: &WholeBoard, place: usize) -> bool
    ensures { IsTrue result ↔ IsOverReceive board.now place }
{
    match line_at(board.lines(), place) {
        Some(line) => has_collected(board, &line),
        None => false,
    }
}

/// Whether the post at the place is over.
pub fn is_over(board: &WholeBoard, place: usize) -> bool
    ensures { IsTrue result ↔ IsOver board.now place }
{
    is_over_send(board, place) || is_over_receive(board, place)
}
