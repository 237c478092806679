//! Answers that `cl_calls` and `cl_state` owe: functions that call one of theirs, or none, and whose contracts say the
//! answer. Each rules out every body that answers otherwise there.
#![tactic(auto)]

pub mod calls;
pub mod state;
