//! What each command answers to its input, and the program over any reader and writers.
#![tactic(auto)]

pub mod answers;
mod exploring;
mod made;
mod program;
mod sessions;
mod starting;

pub use program::{tool, tool_plain};
pub use rvmc_advice::tell_wait;
pub use rvmc_serve::laws::answers_law;
pub use rvmc_serve::{Flow, Refused, Server, heard_law, serve};
