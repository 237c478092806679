//! What a command answers that takes a record: verdicts, reports, lists, tables, pictures, pages, and what harts wait for.
#![tactic(auto)]

mod checks;
mod debugging;
mod drawing;
mod explaining;
mod listing;
mod paging;
mod records;
mod reporting;
pub mod verdicts;

pub use listing::put_list;
pub use paging::put_page;
pub use records::answer_of_record;
pub use rvmc_list::Wanted;
