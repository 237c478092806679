//! What a search of all orders tells, as text: each end, ranks that are stuck while others run on, ranks that need buffers, the
//! first message by which one differs from the first one, and whether these are all; and a record of one.
#![tactic(auto)]

mod alone;
mod asked;
mod closing;
mod counting;
mod differences;
mod ends;
mod going;
mod hang_texts;
mod hangs;
mod heads;
mod hearing;
mod judging;
pub mod laws;
mod marks;
mod needs;
mod outcomes;
mod patient;
mod putting;
mod recording;
mod splitting;
mod starting;
mod teller;
mod telling;
mod unending;

pub use asked::Asked;
pub use outcomes::Outcome;
pub use putting::{Searched, put_explored};
pub use recording::recorded;
pub use splitting::split;
pub use starting::{Reach, StartFault, explored_from, recorded_from};
pub use telling::Told;
