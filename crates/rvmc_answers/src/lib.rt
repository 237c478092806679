//! What an answer to a command is, and what several answers begin with: the image in the input, the plans that a command
//! line stands for, and what harts wait for at a place.
#![tactic(auto)]

mod answers;
mod images;
mod outputs;
pub mod plans;
mod whys;

pub use answers::{Answer, End};
pub use images::image_in;
pub use outputs::{Output, reported};
pub use rvmc_inspect::{faults, input, listing, recorded, report, stuck, tell_all};
pub use whys::told_at;
