//! The sources that a page shows, as the command line names them.

ghost use Rattle.std.specs.Prelude.{◌≡◌, ◌++◌, ◌∷◌, [], OnErr, OnOk};

use rvmc_starts::Text;
use std::alloc::{AllocError, Global};
use std::marker::Model;

/// A source whose bytes stand behind a record: what it is called, and how many bytes it has.
#[derive(Drop)]
pub struct SourceSize {
    pub name: Text,
    pub size: u64,
}

/// Sources, in the order in which they were named. Contracts see a list of them.
#[derive(Drop)]
pub struct SourceSizes {
    items: Vec<SourceSize>,
}

impl Model for SourceSizes {
    ghost use Rattle.std.specs.Prelude.{List};
    ghost use Rattle.rvmc_line.specs.declared.texts.SourceSize.{SourceSize};

    ghost Value = { List SourceSize };

    ghost view = { λ sizes. sizes.items.items };
}

impl SourceSizes {
    /// No sources.
    pub fn new(alloc: Global) -> SourceSizes
        ensures { result ≡ [] }
    {
        SourceSizes {
            items: Vec::new(alloc),
        }
    }

    /// Adds a source behind the others. Where memory is refused they stay as they were.
    pub fn push(&mut self, size: SourceSize) -> Result<(), AllocError>
        ensures added { OnOk result (self.new ≡ self.old ++ size ∷ []) }
        ensures unchanged { OnErr result (self.new ≡ self.old) }
    {
        self.items.push(size)?;
        Ok(())
    }

    /// The sources, in order.
    pub fn as_slice(&self) -> &[SourceSize]
        ensures { result.now ≡ self.now }
    {
        self.items.as_slice()
    }
}
