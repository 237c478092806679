//! What is seen of a step of a record, and its line: how its hart was before it and is after it, what it did, and what that
//! gave.
#![tactic(auto)]

mod ahead;
mod arguments;
mod gave;
mod instructions;
mod lines;
mod pieces;
mod rows;

pub use ahead::{Ahead, ahead_of, put_rest};
pub use gave::{BoxNumber, is_refused};
pub use lines::{After, Seen, box_in, look, look_again, put_head, put_sight};
pub use pieces::put_piece;
pub use rvmc_inspect::{
    Wait, address_of, bytes_text, deadlock, faults, listing, place_text, put_company, put_harts,
    regs_text, tell_all, waits, why,
};
