//! What the image fixes of a rank, in memory of its own.

ghost use Rattle.std.specs.Prelude.{◌≡◌, [], IfOk, IsOk};

use super::{Communicators, Site};
use std::alloc::{AllocError, Global};

impl Communicators {
    /// The same communicators in memory of their own. A copy of none takes no memory.
    pub fn try_copy(&self, alloc: Global) -> Result<Communicators, AllocError>
        ensures copy { IfOk result (λ copy. copy ≡ self.now) }
        ensures free { self.now ≡ [] → IsOk result }
    {
        let mut lists = Vec::with_capacity(alloc, self.lists.len())?;
        for members in &self.lists {
            lists.push(members.try_copy(alloc)?)?;
        }
        Ok(Communicators { lists })
    }
}

impl Site {
    /// The same site in memory of its own. Where the image has neither communicators nor links it takes none.
    pub fn try_copy(&self, alloc: Global) -> Result<Site, AllocError>
        ensures copy { IfOk result (λ copy. copy ≡ self.now) }
        ensures free { self.now.comms ≡ [] → self.now.links ≡ [] → IsOk result }
    {
        Ok(Site {
            number: self.number,
            ranks: self.ranks,
            comms: self.comms.try_copy(alloc)?,
            links: self.links.try_copy(alloc)?,
            version: self.version,
        })
    }
}
