//! A record as a drawing: what each of its steps did, and the picture of them as data; or its arrows alone.
//!
//! The meaning stands in specs/: what a step did (`Deeds`), the drawing of a record's steps and why there is none
//! (`Pictures`), and what is told of its end (`Ends`).
#![tactic(auto)]

mod deeds;
mod ends;
mod notes;
mod pictures;
mod walking;

pub use pictures::{DrawFault, arrows, drawing};
pub use rvmc_sights::{
    address_of, bytes_text, faults, listing, place_text, put_company, put_harts, put_piece,
    regs_text, tell_all, why,
};
