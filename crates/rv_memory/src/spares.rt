//! Pages that are made ahead, for writes that are to take no memory.
ghost use Rattle.std.specs.Prelude.{◌≡◌, ◌≤◌, ◌-◌, ◌+◌, ◌<◌, ℕ, IsOk, OnOk, OnErr, max, OnSome, IfSome, MatchOption};
ghost use Rattle.rv_memory.specs.Held.{blank_page};

use crate::page::Page;
use std::alloc::{AllocError, Global};
use std::marker::Model;

/// Pages that are made ahead. Contracts see how many there are.
#[derive(Drop)]
pub struct SparePages {
    alloc: Global,
    pages: Vec<Page>,
}

impl Model for SparePages {
    ghost use Rattle.std.specs.Prelude.{ℕ, length};
    ghost use Rattle.rv_memory.specs.Held.{AreBlank};

    ghost Value = { ℕ };

    ghost view = { λ s. length s.pages.items };

    ghost invariant = { λ s. AreBlank s.pages.items };
}

impl SparePages {
    /// No spare pages. Takes no memory.
    pub fn new(alloc: Global) -> SparePages
        ensures { result ≡ 0 }
    {
        SparePages {
            alloc,
            pages: Vec::new(alloc),
        }
    }

    /// How many there are.
    pub fn len(&self) -> usize
        ensures { result ≡ self.now }
    {
        self.pages.len()
    }

    /// Makes one more.
    fn make(&mut self) -> Result<(), AllocError>
        ensures made { OnOk result (self.new ≡ self.old + 1) }
        ensures unchanged { OnErr result (self.new ≡ self.old) }
    {
        let page = Page::blank(self.alloc)?;
        self.pages.push(page)?;
        Ok(())
    }

    /// Takes one of them.
    pub(crate) fn take(&mut self) -> Option<Page>
        ensures { MatchOption result (self.old ≡ 0) (λ page. (page ≡ blank_page) × (self.new + 1 ≡ self.old)) }
    {
        self.pages.pop()
    }

    /// Lets the last ones go until there are so many.
    fn shrink(&mut self, count: usize)
        requires { count ≤ self.old }
        ensures { self.new ≡ count }
    {
        self.pages.truncate(count);
    }

    /// Makes pages until there are at least so many. Takes no memory where there are. The only error is want of memory,
    /// and leaves as many as there were.
    pub fn make_up_to(&mut self, count: usize) -> Result<(), AllocError>
        ensures made { OnOk result (self.new ≡ max self.old count) }
        ensures unchanged { OnErr result (self.new ≡ self.old) }
        ensures takes_no_memory { count ≤ self.old → IsOk result }
    {
        let before = self.len();
        for _made in before..count {
            if let Err(error) = self.make() {
                self.shrink(before);
                return Err(error);
            }
        }
        Ok(())
    }
}
