//! The small lists that requests and replies carry, which contracts see as lists.

ghost use Rattle.std.specs.Prelude.{◌≡◌, ◌≤◌, ◌++◌, [], drop, length, nat_eq, IfOk, IsOk};
ghost use Rattle.std.specs.Cmp.{partial_equiv_from_equiv};
ghost use Rattle.std.specs.Cmp.Lexicographic.{nat_list_eq_equiv, pointwise};
ghost use Rattle.mp_types.specs.Lists.{IsBody, body_bytes};

use std::alloc::{AllocError, Global};
use std::marker::Model;
use std::sync::ArcSlice;

/// The most bytes that a message has.
pub const MESSAGE_MAX: usize = 4096;

/// The most bytes that stand in place, where they take no memory.
pub const SHORT_MAX: usize = 16;

/// How the bytes of a message stand.
#[derive(Drop)]
enum Body {
    /// In place: the first so many of these.
    Short { count: u8, bytes: [u8; 16] },
    /// More than 16, which copies share.
    Shared(ArcSlice<u8>),
}

/// The bytes of a message, at most 4,096 of them. Up to 16 stand in place and take no memory; copies share more than
/// that. Contracts see a list of numbers.
#[derive(Drop)]
pub struct Bytes {
    body: Body,
}

impl Model for Bytes {
    ghost use Rattle.std.specs.Prelude.{List, ℕ};
    ghost use Rattle.mp_types.specs.Lists.{IsBody, body_bytes};

    ghost Value = { List ℕ };

    ghost view = { λ bytes. body_bytes bytes.body };

    ghost invariant = { λ bytes. IsBody bytes.body };
}

impl PartialEq for Bytes {
    ghost eq = { pointwise nat_eq };

    ghost laws = { partial_equiv_from_equiv nat_list_eq_equiv };

    fn eq(&self, other: &Bytes) -> bool {
        self.as_slice() == other.as_slice()
    }
}

impl Eq for Bytes {
    ghost laws = { nat_list_eq_equiv };
}

// Puts other bytes at the beginning.
#[inline(always)]
fn put(bytes: &mut [u8], new: &[u8])
    requires { length new.now ≤ length bytes.old }
    ensures { bytes.new ≡ new.now ++ drop (length new.now) bytes.old }
{
    bytes[..new.len()].copy_from_slice(new);
}

impl Bytes {
    /// At most 16 bytes, in place.
    #[inline(always)]
    pub fn short(items: &[u8]) -> Bytes
        requires { length items.now ≤ 16 }
        ensures { result ≡ items.now }
    {
        let mut bytes = [0; SHORT_MAX];
        put(&mut bytes, items);
        let count = items.len() as u8;
        Bytes {
            body: Body::Short { count, bytes },
        }
    }

    /// A copy of the slice. One of at most 16 bytes takes no memory.
    pub fn from_slice(alloc: Global, items: &[u8]) -> Result<Bytes, AllocError>
        requires { length items.now ≤ 4096 }
        ensures copy { IfOk result (λ bytes. bytes ≡ items.now) }
        ensures free { length items.now ≤ 16 → IsOk result }
    {
        if items.len() <= SHORT_MAX {
            return Ok(Bytes::short(items));
        }
        Bytes::from_vec(Vec::from_slice(alloc, items)?)
    }

    /// The vector's bytes, which aren't copied where there are more than 16. The only error is want of memory, for the
    /// count of those who share them: at most 16 aren't shared.
    pub fn from_vec(items: Vec<u8>) -> Result<Bytes, AllocError>
        requires { length items.items ≤ 4096 }
        ensures bytes { IfOk result (λ bytes. bytes ≡ items.items) }
        ensures free { length items.items ≤ 16 → IsOk result }
    {
        if items.len() <= SHORT_MAX {
            return Ok(Bytes::short(items.as_slice()));
        }
        let shared = ArcSlice::from_vec(items)?;
        Ok(Bytes {
            body: Body::Shared(shared),
        })
    }

    /// How many bytes there are.
    pub fn count(&self) -> u16
        ensures count { result ≡ length self.now }
        ensures limit { result ≤ 4096 }
    {
        match &self.body {
            Body::Short { count, bytes: _ } => u16::from(*count),
            Body::Shared(shared) => shared.len() as u16,
        }
    }

    /// The bytes.
    pub fn as_slice(&self) -> &[u8]
        ensures { result.now ≡ self.now }
    {
        match &self.body {
            Body::Short { count, bytes } => &bytes[..usize::from(*count)],
            Body::Shared(shared) => shared.as_slice(),
        }
    }

    /// The same bytes once more. More than 16 are shared, so that no memory is taken: the only error is that 2^63 - 1
    /// share them already.
    #[inline(always)]
    pub fn try_copy(&self, _alloc: Global) -> Result<Bytes, AllocError>
        ensures copy { IfOk result (λ copy. copy ≡ self.now) }
        ensures free { length self.now ≤ 16 → IsOk result }
    {
        match &self.body {
            Body::Short { count, bytes } => Ok(Bytes {
                body: Body::Short {
                    count: *count,
                    bytes: *bytes,
                },
            }),
            Body::Shared(shared) => Ok(Bytes {
                body: Body::Shared(shared.clone()?),
            }),
        }
    }
}

/// Numbers of posts. Copies share them. Contracts see a list of numbers.
#[derive(Drop)]
pub struct Posts {
    // None where there are none, which takes no memory
    shared: Option<ArcSlice<u64>>,
}

impl Model for Posts {
    ghost use Rattle.std.specs.Prelude.{List, [], ℕ};
    ghost use Rattle.std.specs.Option.{option_map_or};
    ghost use Rattle.std.specs.Arc.{arc_slice_items};

    ghost Value = { List ℕ };

    ghost view = { λ posts. option_map_or arc_slice_items posts.shared [] };
}

impl PartialEq for Posts {
    ghost eq = { pointwise nat_eq };

    ghost laws = { partial_equiv_from_equiv nat_list_eq_equiv };

    fn eq(&self, other: &Posts) -> bool {
        self.as_slice() == other.as_slice()
    }
}

impl Eq for Posts {
    ghost laws = { nat_list_eq_equiv };
}

impl Posts {
    /// A copy of the slice. One of no numbers takes no memory.
    pub fn from_slice(alloc: Global, items: &[u64]) -> Result<Posts, AllocError>
        ensures copy { IfOk result (λ posts. posts ≡ items.now) }
        ensures free { items.now ≡ [] → IsOk result }
    {
        if items.is_empty() {
            return Ok(Posts { shared: None });
        }
        Posts::from_vec(Vec::from_slice(alloc, items)?)
    }

    /// The vector's numbers, which aren't copied. The only error is want of memory, for the count of those who share
    /// them: of no numbers there is none.
    pub fn from_vec(items: Vec<u64>) -> Result<Posts, AllocError>
        ensures posts { IfOk result (λ posts. posts ≡ items.items) }
        ensures free { items.items ≡ [] → IsOk result }
    {
        if items.is_empty() {
            return Ok(Posts { shared: None });
        }
        let shared = Some(ArcSlice::from_vec(items)?);
        Ok(Posts { shared })
    }

    /// The numbers.
    pub fn as_slice(&self) -> &[u64]
        ensures { result.now ≡ self.now }
    {
        match &self.shared {
            None => &[],
            Some(shared) => shared.as_slice(),
        }
    }

    /// The same numbers once more. They are shared, which takes no memory: the only error is that 2^63 - 1 share them
    /// already, and of no numbers there is none.
    pub fn try_copy(&self, _alloc: Global) -> Result<Posts, AllocError>
        ensures copy { IfOk result (λ copy. copy ≡ self.now) }
        ensures free { self.now ≡ [] → IsOk result }
    {
        match &self.shared {
            Some(shared) if shared.len() > 0 => Ok(Posts {
                shared: Some(shared.clone()?),
            }),
            _ => Ok(Posts { shared: None }),
        }
    }
}
