//! Witnesses of the partition boxes and of the phases over them: small functions whose contracts state what a box or a
//! side answers somewhere. Each is proved from the contracts of the calls alone, so it rules out every body that
//! answers otherwise there.
#![tactic(auto)]

pub mod boxes;
pub mod sides;
