//! Companies of ranks that are stuck.

ghost use Rattle.std.specs.Prelude.{OnOk};
ghost use Rattle.std.specs.Option.{option_map};
ghost use Rattle.cl_explore.specs.Companies.{NotesStuck};

use std::alloc::AllocError;

/// The ranks that are stuck in a node: some of their harts wait, and no run lets any of them go on.
#[derive(Drop)]
pub struct Company {
    /// The number of the node.
    pub node: usize,
    /// The most ranks that are stuck together there, in rising order. Those that have ended are among them.
    pub ranks: Vec<u8>,
}

/// Notes the ranks that are stuck in the node of this number, if there are any.
pub(crate) fn note_stuck(
    companies: &mut Vec<Company>,
    stuck: Option<Vec<u8>>,
    node: usize,
) -> Result<(), AllocError>
    ensures { OnOk result
        (NotesStuck companies.old.items (option_map (λ ranks. ranks.items) stuck) node companies.new.items) }
{
    match stuck {
        None => Ok(()),
        Some(ranks) => {
            companies.push(Company { node, ranks })?;
            Ok(())
        }
    }
}
