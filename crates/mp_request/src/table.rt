//! The table: what each handle names.

ghost use Rattle.std.specs.Prelude.{◌≡◌, ◌+◌, ◌↔◌, filter, IsSome, IfOk, IfErr, drop, length, is_none, position};
ghost use Rattle.std.specs.Prelude.{slice_index, ◌<◌, ◌==◌, IfSome, IsOk, IsErr, IsNone, Some, None, IsTrue, OnOk};
ghost use Rattle.std.specs.Prelude.{OnErr};
ghost use Rattle.std.specs.List.{list_all, list_any};
ghost use Rattle.mp_request.specs.Entries.{is_active};
ghost use Rattle.mp_request.specs.Awaited.{is_new};
ghost use Rattle.mp_request.specs.Handles.{IsActive, IsFull, IsHandle, IsInactive, IsLowestFree, IsOpen, IsPersistent};
ghost use Rattle.mp_request.specs.Table.{completed, has, is_distinct, is_testable, lowest_free};
ghost use Rattle.mp_request.specs.Handles.{is_done_at};
ghost use Rattle.mp_request.specs.Table.{may_be_tested, no_requests, request_at, started, with_request};

use crate::entries::{OpenRequest, Progress, State};
use crate::refusals::Refusal;
use mp_types::are_rising;
use std::alloc::{AllocError, Global};
use std::marker::Model;

/// How many handles a rank has. They are the numbers from 1 on.
pub const HANDLES: usize = 255;

/// The open requests of a rank, by handle. A handle is a number from 1 to 255 and belongs to the rank, for all its
/// harts; 0 is the null request, which is never open. Contracts see the list of what each handle names, from handle 1
/// on.
///
/// Nothing but `new` and `try_copy` takes memory, and a refusal leaves the table as it was.
#[derive(Drop)]
pub struct Requests {
    // handle h has slot h - 1
    pub(crate) slots: Vec<Option<OpenRequest>>,
}

impl Model for Requests {
    ghost use Rattle.std.specs.Prelude.{◌≡◌, List, Option, length};
    ghost use Rattle.mp_request.specs.declared.entries.OpenRequest.{OpenRequest};

    ghost Value = { List (Option OpenRequest) };

    ghost view = { λ table. table.slots.items };

    ghost invariant = { λ table. length table.slots.items ≡ 255 };
}

impl Requests {
    /// A table in which no handle is open.
    pub fn new(alloc: Global) -> Result<Requests, AllocError>
        ensures { IfOk result (λ table. table ≡ no_requests) }
    {
        let slots = vec![in alloc; None; HANDLES]?;
        Ok(Requests { slots })
    }

    /// The same requests under the same handles, in memory of their own. The only error is want of memory.
    pub fn try_copy(&self, alloc: Global) -> Result<Requests, AllocError>
        ensures { IfOk result (λ copy. copy ≡ self.now) }
    {
        let slots = Vec::from_slice(alloc, self.slots.as_slice())?;
        Ok(Requests { slots })
    }

    /// The least handle that isn't open. None where all are.
    pub fn lowest_free(&self) -> Option<u8>
        ensures lowest { IfSome result (IsLowestFree self.now) }
        ensures full { IsNone result ↔ IsFull self.now }
        ensures value { result ≡ lowest_free self.now }
    {
        let slot = self.free_slot()?;
        Some(slot as u8 + 1)
    }

    /// The request of a handle. None where the handle isn't open, as 0 and numbers above 255 never are.
    pub fn get(&self, handle: u64) -> Option<OpenRequest>
        ensures request { result ≡ request_at self.now handle }
        ensures handle { IsSome result → IsHandle handle }
    {
        let slots = self.slots();
        match slot_of(handle) {
            None => None,
            Some(slot) => slots[slot],
        }
    }

    /// Opens a request at the lowest free handle, which is the answer. A persistent one is inactive when it is made
    /// (MPI 4.1, chapter 3.9).
    ///
    /// `Full` exactly where all 255 handles are open.
    pub fn open(&mut self, request: OpenRequest) -> Result<u8, Refusal>
        requires { IsTrue (is_new request.state) }
        ensures lowest { IfOk result (IsLowestFree self.old) }
        ensures given { IfOk result (λ handle. lowest_free self.old ≡ Some handle) }
        ensures none { IsErr result ↔ (lowest_free self.old ≡ None) }
        ensures opened { IfOk result (λ handle. self.new ≡ with_request self.old handle (Some request)) }
        ensures full { (result ≡ Err Refusal.Full) ↔ IsFull self.old }
        ensures full_only { IfErr result (λ refusal. refusal ≡ Refusal.Full) }
        ensures unchanged { OnErr result (self.new ≡ self.old) }
    {
        let handle = self.lowest_free().ok_or(Refusal::Full)?;
        self.set(handle as u64, Some(request));
        Ok(handle)
    }

    /// Starts an inactive persistent request, which is then active with this progress (MPI 4.1, chapter 3.9).
    ///
    /// `BadRequest` exactly where the handle isn't open or its request is an ordinary one, `Active` exactly where the
    /// persistent request is active.
    pub fn start(&mut self, handle: u64, progress: Progress) -> Result<(), Refusal>
        ensures inactive { IsOk result ↔ IsInactive self.old handle }
        ensures started { OnOk result (self.new ≡ started self.old handle progress) }
        ensures bad_request { (result ≡ Err Refusal.BadRequest) ↔ ¬ IsPersistent self.old handle }
        ensures active { (result ≡ Err Refusal.Active) ↔ (IsPersistent self.old handle × IsActive self.old handle) }
        ensures unchanged { OnErr result (self.new ≡ self.old) }
    {
        let request = self.get(handle).ok_or(Refusal::BadRequest)?;
        match request.state {
            State::Ordinary(_) => Err(Refusal::BadRequest),
            State::Active(_) => Err(Refusal::Active),
            State::Inactive => {
                let state = State::Active(progress);
                self.set(handle, Some(OpenRequest { state, ..request }));
                Ok(())
            }
        }
    }

    /// Completes a request: an ordinary one is gone and its handle free (MPI 4.1, chapter 3.7.3), a persistent one is
    /// inactive (3.9). The null request and an inactive one are complete already, and nothing changes.
    ///
    /// `BadRequest` exactly where the handle is neither 0 nor open, and so names nothing that could complete.
    #[tactic(auto, using(crate::proofs::Maps::nothing_completes))]
    pub fn complete(&mut self, handle: u64) -> Result<(), Refusal>
        ensures completed { self.new ≡ completed self.old handle }
        ensures bad_request { (result ≡ Err Refusal.BadRequest) ↔ ((¬ (handle ≡ 0)) × (¬ IsOpen self.old handle)) }
        ensures bad_request_only { IfErr result (λ refusal. refusal ≡ Refusal.BadRequest) }
        ensures unchanged { OnErr result (self.new ≡ self.old) }
    {
        if handle == 0 {
            return Ok(());
        }
        let request = self.get(handle).ok_or(Refusal::BadRequest)?;
        self.set(handle, request.remainder());
        Ok(())
    }

    /// Frees an inactive persistent request, and with it its handle (MPI 4.1, chapter 3.7.3).
    ///
    /// `BadRequest` exactly where the handle isn't open, as 0 never is; `Active` exactly where its request is active,
    /// as an ordinary one always is.
    pub fn free(&mut self, handle: u64) -> Result<(), Refusal>
        ensures inactive { IsOk result ↔ IsInactive self.old handle }
        ensures freed { OnOk result (self.new ≡ with_request self.old handle None) }
        ensures bad_request { (result ≡ Err Refusal.BadRequest) ↔ ¬ IsOpen self.old handle }
        ensures active { (result ≡ Err Refusal.Active) ↔ IsActive self.old handle }
        ensures unchanged { OnErr result (self.new ≡ self.old) }
    {
        let request = self.get(handle).ok_or(Refusal::BadRequest)?;
        match request.state {
            State::Ordinary(_) | State::Active(_) => Err(Refusal::Active),
            State::Inactive => {
                self.set(handle, None);
                Ok(())
            }
        }
    }

    /// Whether each of these handles names the null request, an inactive one, or one that awaits nothing, so that all
    /// may complete at once (MPI 4.1, chapter 3.7.5).
    ///
    /// `BadRequest` exactly where a handle is neither 0 nor open, where one names a partitioned request, or where one
    /// of an active request stands twice.
    pub fn all_done(&self, handles: &[u64]) -> Result<bool, Refusal>
        ensures testable { IsOk result ↔ IsTrue (may_be_tested self.now handles.now) }
        ensures done { IfOk result (λ done. done ≡ list_all (is_done_at self.now) handles.now) }
        ensures bad_request_only { IfErr result (λ refusal. refusal ≡ Refusal.BadRequest) }
    {
        if !self.may_be_tested(handles) {
            return Err(Refusal::BadRequest);
        }
        Ok(handles.iter().all(|handle| self.is_done(*handle)))
    }

    /// What each of the 255 handles names, from handle 1 on.
    pub fn slots(&self) -> &[Option<OpenRequest>]
        ensures value { result.now ≡ self.now }
        ensures length { length self.now ≡ 255 }
    {
        self.slots.as_slice()
    }

    // The first slot that names nothing.
    fn free_slot(&self) -> Option<usize>
        ensures first { result ≡ position is_none self.now }
        ensures length { length self.now ≡ 255 }
    {
        self.slots.iter().position(|slot| slot.is_none())
    }

    /// Whether handles may be tested together: each is 0 or that of an open request which isn't partitioned, and no
    /// active request is named twice (MPI 4.1, chapter 3.7.5).
    pub fn may_be_tested(&self, handles: &[u64]) -> bool
        ensures { result ≡ may_be_tested self.now handles.now }
    {
        self.are_testable(handles) && self.names_active_once(handles)
    }

    fn are_testable(&self, handles: &[u64]) -> bool
        ensures { result ≡ list_all (is_testable self.now) handles.now }
    {
        handles.iter().all(|handle| self.is_testable(*handle))
    }

    fn is_testable(&self, handle: u64) -> bool
        ensures { result ≡ is_testable self.now handle }
    {
        handle == 0
            || match self.get(handle) {
                None => false,
                Some(request) => !request.transfer.is_partitioned(),
            }
    }

    // No handle of an active request stands twice.
    fn names_active_once(&self, handles: &[u64]) -> bool
        ensures { result ≡ is_distinct (filter (has is_active self.now) handles.now) }
    {
        if are_rising(handles) {
            return true;
        }
        for (place, handle) in handles.iter().enumerate() {
            if self.is_active(*handle) && stands_behind(handles, place) {
                return false;
            }
        }
        true
    }

    fn is_active(&self, handle: u64) -> bool
        ensures { result ≡ has is_active self.now handle }
    {
        match self.get(handle) {
            None => false,
            Some(request) => request.state.is_active(),
        }
    }

    fn is_done(&self, handle: u64) -> bool
        ensures { result ≡ is_done_at self.now handle }
    {
        handle == 0
            || match self.get(handle) {
                None => false,
                Some(request) => request.state.is_done(),
            }
    }

    // What a handle names from now on.
    fn set(&mut self, handle: u64, request: Option<OpenRequest>)
        requires { IsHandle handle }
        ensures { self.new ≡ with_request self.old handle request }
    {
        self.slots[handle as usize - 1] = request;
    }
}

// The number at a place stands behind it once more.
fn stands_behind(numbers: &[u64], place: usize) -> bool
    requires { place < length numbers.now }
    ensures { result ≡ list_any (λ y. y == slice_index numbers.now place) (drop (place + 1) numbers.now) }
{
    let behind = &numbers[place + 1..];
    behind.contains(&numbers[place])
}

// The slot of a handle. None for 0 and for numbers above 255.
fn slot_of(handle: u64) -> Option<usize>
    ensures found { IfSome result (λ slot. handle ≡ slot + 1) }
    ensures handle { IsSome result ↔ IsHandle handle }
{
    if handle == 0 || handle > HANDLES as u64 {
        return None;
    }
    Some(handle as usize - 1)
}
