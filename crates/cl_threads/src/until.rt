//! How long a rank takes turns.

/// How long a rank takes turns.
#[derive(Clone, Copy, PartialEq, Eq, Drop, Debug)]
pub(crate) enum Until {
    /// Until it stops by its plan.
    Planned,
    /// Or until it is told that nobody can go on.
    Told,
}
