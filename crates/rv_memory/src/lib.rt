//! The memory of a rank: bytes that every hart of the rank loads and stores, the first of them a text that is only
//! read. They stand in pages of 4,096 bytes, which are made at the first write; a page that isn't there reads as 0.
#![tactic(auto)]

pub mod fault;
mod kept;
pub mod memory;
mod page;
mod pages;
pub mod spares;
mod text;

pub use fault::{BytesFault, Cause, StoreFault};
pub use kept::KeptMemory;
pub use memory::{RankMemory, Width};
pub use spares::SparePages;
