//! A number by which hubs that may be alike are found.

use crate::board::WholeBoard;
use crate::over::is_over;
use mp_match::{Line, Post, Selection};

// The multiplier is 2^64 over the golden ratio (Knuth, The Art of Computer Programming, 6.4).
fn mixed(key: u64, part: u64) -> u64 {
    let product = (key ^ part).wrapping_mul(0x9e37_79b9_7f4a_7c15);
    product ^ (product >> 32)
}

fn selection_key(kind: u64, selection: Selection) -> u64 {
    let source = match selection.source {
        Some(source) => 1 + u64::from(source),
        None => 0,
    };
    let tag = match selection.tag {
        Some(tag) => 1 + u64::from(tag),
        None => 0,
    };
    let asker = mixed(
        mixed(kind, u64::from(selection.rank)),
        u64::from(selection.comm),
    );
    mixed(mixed(asker, source), tag)
}

fn post_key(post: Post) -> u64 {
    match post {
        Post::Send(sent) => {
            let envelope = sent.envelope;
            let ends = mixed(mixed(1, u64::from(sent.dest)), u64::from(envelope.source));
            let told = mixed(
                mixed(ends, u64::from(envelope.comm)),
                u64::from(envelope.tag),
            );
            mixed(told, u64::from(envelope.count))
        }
        Post::Receive(selection) => selection_key(2, selection),
        Post::Claim(selection) => selection_key(3, selection),
    }
}

// Of a post whether it has a partner, and not which.
fn line_key(line: &Line) -> u64 {
    let paired = if line.partner.is_some() { 1 } else { 0 };
    mixed(post_key(line.post), paired)
}

/// The sum over all posts, in whatever order they stand, and how many messages are held.
pub fn board_key(board: &WholeBoard) -> u64 {
    let mut sum = mixed(4, board.held());
    for line in board.lines() {
        sum = sum.wrapping_add(line_key(line));
    }
    sum
}

/// The same but for posts that are over.
pub fn live_board_key(board: &WholeBoard) -> u64 {
    let mut sum = mixed(4, board.held());
    for (place, line) in board.lines().iter().enumerate() {
        if !is_over(board, place) {
            sum = sum.wrapping_add(line_key(line));
        }
    }
    sum
}
