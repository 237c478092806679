//! Whether two hubs are alike, and a hub that forgets nothing, so that this can be seen.
#![tactic(auto)]

mod alike;
mod board;
mod hub;
mod key;
mod live;
mod live_naming;
mod names;
mod over;
mod pairing;
mod posts;
mod sides;
mod whole;
pub mod worked;

pub use alike::alike_names;
pub use board::WholeBoard;
pub use live::live_names;
pub use names::{Counterpart, Names};
pub use whole::WholeHub;
