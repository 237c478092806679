//! The state of a rank: what a hart of it asks in its next turn, and what the rank is once it was told the answer.
//!
//! The meaning stands in specs/: a rank as data, `asked` and `told`. Laws and worked rows stand in `cl_state_laws`.
#![tactic(auto)]

mod asking;
mod copies;
mod doing;
mod keeping;
mod loading;
mod partitions;
mod parts;
mod pending;
mod row;
mod same_harts;
mod same_requests;
mod several;
mod sides;
mod state;
mod table;
mod telling;
mod transfers;
mod turn;
mod writes;

pub use asking::{Answer, Ask, Doing};
pub use doing::is_ecall;
pub use keeping::KeptRank;
pub use partitions::{Awaited, part_contents, place_at};
pub use pending::{Manner, Pending, Target};
pub use row::{Outcome, Purpose, Row, Visit, Wanted};
pub use state::{RankParts, RankState};
pub use transfers::{source, tag};
pub use writes::Range;
