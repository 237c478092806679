//! GDB's remote serial protocol (GDB manual, appendix 'Remote Protocol'): packets, the requests that they carry, the texts
//! of the replies, and what is typed behind gdb's `monitor`.
#![tactic(auto)]

pub mod monitor;
pub mod packets;
pub mod replies;
pub mod requests;
