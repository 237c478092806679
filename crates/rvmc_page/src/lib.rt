//! A page that walks a record: one HTML file, which any browser opens from the disk, with nothing from outside.
//!
//! The page computes nothing: it holds what each step changed, old and new, and its script only assigns. Proved is what the
//! data are and how they are written, and that no byte of a guest ends the script or the markup. The script itself, which
//! page.js and show.js have too, and the browser are tried.
//!
//! The meaning stands in specs/: how bytes are written (`Escaped`), the machine at the first place (`Starts`), what each step
//! changed (`Steps`), what is told beside it (`Told`), the sources (`Texts`), the page's text (`Pages`), the law of its bytes
//! (`Plain`), the page of a record (`Records`), and what stands at a writer of it (`Written`).
#![tactic(auto)]

mod frame;
pub mod laws;
mod pages;
mod records;
mod safe;
mod script;
mod show;
mod starts;
mod steps;
mod texts;
mod told;
mod writing;

pub use pages::{Page, Part, Shown};
pub use records::page;
pub use rvmc_picture::{DrawFault, drawing};
pub use texts::SourceText;
