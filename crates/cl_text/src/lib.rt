//! The bytes of a record: the image and the steps of its cluster as one text, and back.
//!
//! The meaning stands in specs/: the limits of what is spelled, its one text, what bytes are read as, the tests of all
//! their parts in order, and at which byte of a stream it is decided what record it begins with.
#![tactic(auto)]

mod faults;
pub mod front;
mod laws;
mod numbers;
mod opening;
mod reading;
mod replies;
mod writing;

pub use faults::RecordFault;
pub use laws::{first_fault_law, one_spelling_law};
pub use numbers::{u16_at, u32_at, u64_at};
pub use opening::{Opened, open_record};
pub use reading::{behind_plain, read_record, read_step};
pub use writing::{RecordText, write_record};
