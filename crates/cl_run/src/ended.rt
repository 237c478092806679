//! A run that may have been ended early.

use cl_record::Record;

/// What a run leaves, and how it came to its end.
#[derive(Drop)]
pub struct Ended {
    pub left: Record,
    /// The run was ended where all that was left looked in vain, over and over. Else each rank stopped by its plan.
    pub quiet: bool,
}
