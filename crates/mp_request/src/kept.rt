//! A table of requests that is kept as it was at one time, in no more memory than what its handles named.

ghost use Rattle.std.specs.Prelude.{◌≡◌, ◌≤◌, IfOk, None, length};
ghost use Rattle.mp_request.specs.Kept.{whole_table};

use crate::entries::OpenRequest;
use crate::table::{HANDLES, Requests};
use std::alloc::{AllocError, Global};
use std::marker::Model;

/// A table that is kept. Contracts see the list of what each of the 255 handles named.
#[derive(Drop)]
pub struct KeptRequests {
    // of handle 1 to the last one that was open
    slots: Vec<Option<OpenRequest>>,
}

impl Model for KeptRequests {
    ghost use Rattle.std.specs.Prelude.{◌≤◌, List, Option, length};
    ghost use Rattle.mp_request.specs.declared.entries.OpenRequest.{OpenRequest};
    ghost use Rattle.mp_request.specs.Kept.{whole_table};

    ghost Value = { List (Option OpenRequest) };

    ghost view = { λ kept. whole_table kept.slots.items };

    ghost invariant = { λ kept. length kept.slots.items ≤ 255 };
}

/// The slots up to the last one that names something.
fn up_to_last(slots: &[Option<OpenRequest>]) -> &[Option<OpenRequest>]
    requires { length slots.now ≤ 255 }
    ensures filled { whole_table result.now ≡ whole_table slots.now }
    ensures few { length result.now ≤ 255 }
{
    let mut left = slots;
    while let Some((last, before)) = left.split_last() {
        if last.is_some() {
            return left;
        }
        left = before;
    }
    left
}

impl Requests {
    /// What the handles name, from handle 1 up to the last that is open.
    pub fn front(&self) -> &[Option<OpenRequest>]
        ensures filled { whole_table result.now ≡ self.now }
        ensures few { length result.now ≤ 255 }
    {
        up_to_last(self.slots())
    }

    /// The table as it is now, kept. The only error is want of memory.
    pub fn keep(&self, alloc: Global) -> Result<KeptRequests, AllocError>
        ensures { IfOk result (λ kept. kept ≡ self.now) }
    {
        Ok(KeptRequests {
            slots: Vec::from_slice(alloc, self.front())?,
        })
    }
}

impl KeptRequests {
    /// What the handles named, from handle 1 up to the last that was open.
    pub fn front(&self) -> &[Option<OpenRequest>]
        ensures { whole_table result.now ≡ self.now }
    {
        self.slots.as_slice()
    }

    /// The same table in memory of its own, that goes on from here. The only error is want of memory.
    pub fn live(&self, alloc: Global) -> Result<Requests, AllocError>
        ensures { IfOk result (λ table. table ≡ self.now) }
    {
        let mut slots = Vec::with_capacity(alloc, HANDLES)?;
        slots.extend_from_slice(self.slots.as_slice())?;
        slots.resize(HANDLES, None)?;
        Ok(Requests { slots })
    }
}
