//! Queues of posts by key, each a queue of places.

ghost use Rattle.std.specs.Prelude.{◌≡◌, [], IfOk, OnErr, OnOk, None, Some, cond, slice_get, true, ◌<◌};
ghost use Rattle.std.specs.BTreeMap as tree;
ghost use Rattle.mp_match.specs.declared.posts.Selection.{Selection};
ghost use Rattle.mp_match.specs.InnerQueued.{accepts_key, admits_key, first_key, least, least_accepted, next_key};
ghost use Rattle.mp_match.specs.Queued.{queue};
ghost use Rattle.mp_match.specs.Queued.{selection_cmp};
ghost use Rattle.mp_match.specs.InnerQueues.{popped, pushed};

use crate::posts::Selection;
use std::alloc::{AllocError, Global};
use std::collections::btree_map::Range;
use std::collections::{BTreeMap, VecDeque};

pub fn least_of(a: Option<u64>, b: Option<u64>) -> Option<u64>
    ensures { result ≡ least a b }
{
    match (a, b) {
        (None, b) => b,
        (Some(a), None) => Some(a),
        (Some(a), Some(b)) => Some(a.min(b)),
    }
}

fn admits_source(wanted: Option<u8>, source: Option<u8>) -> bool
    ensures { result ≡ admits_key wanted source }
{
    match (wanted, source) {
        (_, None) => false,
        (None, Some(_)) => true,
        (Some(wanted), Some(source)) => source == wanted,
    }
}

fn admits_tag(wanted: Option<u16>, tag: Option<u16>) -> bool
    ensures { result ≡ admits_key wanted tag }
{
    match (wanted, tag) {
        (_, None) => false,
        (None, Some(_)) => true,
        (Some(wanted), Some(tag)) => tag == wanted,
    }
}

fn does_accept(selection: Selection, key: Selection) -> bool
    ensures { result ≡ accepts_key selection key }
{
    key.rank == selection.rank
        && key.comm == selection.comm
        && admits_source(selection.source, key.source)
        && admits_tag(selection.tag, key.tag)
}

fn front_of(queue: &VecDeque<u64>) -> Option<u64>
    ensures { result ≡ slice_get queue.now.items 0 }
{
    match queue.front() {
        None => None,
        Some(place) => Some(*place),
    }
}

// The least of the place and the queue's first one, where its messages are accepted.
fn less_of(
    best: Option<u64>,
    selection: Selection,
    key: Selection,
    queue: &VecDeque<u64>,
) -> Option<u64>
    ensures { result ≡ cond (accepts_key selection key) (least best (slice_get queue.now.items 0)) best }
{
    if does_accept(selection, key) {
        least_of(best, front_of(queue))
    } else {
        best
    }
}

// The least of the first places of these queues, where their messages are accepted.
fn least_within(selection: Selection, rest: Range<'_, Selection, VecDeque<u64>>) -> Option<u64>
    ensures { result ≡ least_accepted selection None rest.entry }
{
    let mut best = None;
    for (key, queue) in rest {
        best = less_of(best, selection, *key, queue);
    }
    best
}

// The first of all keys of the selection's rank and communicator.
fn first_key(selection: Selection) -> Selection
    ensures { result ≡ first_key selection }
{
    Selection {
        source: None,
        tag: None,
        ..selection
    }
}

// The first of all keys of the rank and the next communicator.
fn next_key(selection: Selection) -> Selection
    requires { selection.comm < 255 }
    ensures { result ≡ next_key selection }
{
    Selection {
        comm: selection.comm + 1,
        ..first_key(selection)
    }
}

/// How many keys are kept though their queues are empty: who sends and receives with the same few keys again and again
/// makes and drops no queue. More would take memory, and time of receives of any source or tag.
const KEPT_MAX: usize = 32;

/// A queue of places for each key. A key whose queue is empty isn't kept where there are more than 32.
#[derive(Drop)]
pub struct PostQueues {
    alloc: Global,
    map: BTreeMap<Selection, VecDeque<u64>>,
}

impl PostQueues {
    /// Takes no memory.
    pub fn new(alloc: Global) -> PostQueues
        ensures { (k : Selection) → queue result.map k ≡ [] }
    {
        PostQueues {
            alloc,
            map: BTreeMap::new(alloc),
        }
    }

    /// The same queues in memory of their own.
    pub fn try_copy(&self) -> Result<PostQueues, AllocError>
        ensures { IfOk result (λ copy. (k : Selection) → queue copy.map k ≡ queue self.now.map k) }
    {
        Ok(PostQueues {
            alloc: self.alloc,
            map: self.map.clone()?,
        })
    }

    /// The first place of the key's queue.
    pub fn front(&self, key: Selection) -> Option<u64>
        ensures { result ≡ slice_get (queue self.now.map key) 0 }
    {
        match self.map.get(&key) {
            None => None,
            Some(queue) => front_of(queue),
        }
    }

    /// Puts a place behind the others of its key. After a refusal for memory all is as it was.
    pub fn push(&mut self, key: Selection, place: u64) -> Result<(), AllocError>
        ensures ok { OnOk result
            ((k : Selection) → queue self.new.map k ≡ pushed (queue self.old.map) (Some key) place k) }
        ensures err { OnErr result ((k : Selection) → queue self.new.map k ≡ queue self.old.map k) }
    {
        if let Some(queue) = self.map.get_mut(&key) {
            return match queue.push_back(place) {
                Ok(()) => Ok(()),
                Err(_) => Err(AllocError),
            };
        }
        self.push_first(key, place)
    }

    // Makes a queue of the place alone, for a key that has none.
    fn push_first(&mut self, key: Selection, place: u64) -> Result<(), AllocError>
        requires { tree.get selection_cmp self.old.map key ≡ None }
        ensures ok { OnOk result
            ((k : Selection) → queue self.new.map k ≡ pushed (queue self.old.map) (Some key) place k) }
        ensures err { OnErr result ((k : Selection) → queue self.new.map k ≡ queue self.old.map k) }
    {
        let mut queue = VecDeque::new(self.alloc);
        match queue.push_back(place) {
            Ok(()) => {}
            Err(_) => return Err(AllocError),
        }
        match self.map.insert(key, queue) {
            Ok(_) => Ok(()),
            Err(_) => Err(AllocError),
        }
    }

    // Takes out the first place of the key's queue; the answer is whether none is left.
    fn pop_front(&mut self, key: Selection) -> bool
        ensures popped { (k : Selection) → queue self.new.map k ≡ popped (queue self.old.map) (Some key) k }
        ensures none { result ≡ true → queue self.new.map key ≡ [] }
    {
        match self.map.get_mut(&key) {
            None => false,
            Some(queue) => {
                let _ = queue.pop_front();
                queue.is_empty()
            }
        }
    }

    /// Takes out the first place of the key's queue, if any.
    pub fn pop(&mut self, key: Selection)
        ensures { (k : Selection) → queue self.new.map k ≡ popped (queue self.old.map) (Some key) k }
    {
        if self.pop_front(key) && self.map.len() > KEPT_MAX {
            let _ = self.map.remove(&key);
        }
    }

    /// The least of the first places of the queues whose messages are accepted. Queues of other ranks and other
    /// communicators aren't looked at.
    pub fn least_accepted(&self, selection: Selection) -> Option<u64>
        ensures least { result ≡ least_accepted selection None self.now.map.entries }
        ensures ordered { tree.IsOrdered selection_cmp self.now.map }
    {
        let first = first_key(selection);
        if selection.comm == u8::MAX {
            return least_within(selection, self.map.range(first..));
        }
        let next = next_key(selection);
        least_within(selection, self.map.range(first..next))
    }
}
