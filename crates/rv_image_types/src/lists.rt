//! The lists that an image holds, which contracts see as lists.

ghost use Rattle.std.specs.Prelude.{◌≡◌, [], IfOk, IsOk};
ghost use Rattle.std.specs.Arc.{arc_slice_items};

use crate::images::{Link, Symbol};
use std::alloc::{AllocError, Global};
use std::marker::Model;
use std::sync::ArcSlice;

/// Bytes that are loaded one after the other: the text, or the initial data. Contracts see a list of numbers.
#[derive(Drop)]
pub struct Segment {
    bytes: ArcSlice<u8>,
}

impl Model for Segment {
    ghost use Rattle.std.specs.Prelude.{List, ℕ};
    ghost use Rattle.std.specs.Arc.{arc_slice_items};

    ghost Value = { List ℕ };

    ghost view = { λ segment. arc_slice_items segment.bytes };
}

impl Segment {
    /// The vector's bytes, which aren't copied. The only error is want of memory, for their count of holders.
    pub fn from_vec(bytes: Vec<u8>) -> Result<Segment, AllocError>
        ensures { IfOk result (λ segment. segment ≡ bytes.items) }
    {
        Ok(Segment {
            bytes: ArcSlice::from_vec(bytes)?,
        })
    }

    /// The bytes.
    pub fn as_slice(&self) -> &[u8]
        ensures { result.now ≡ self.now }
    {
        self.bytes.as_slice()
    }

    /// The bytes once more, for who loads them: they aren't copied. The only error is that 2^63 - 1 hold them already.
    pub fn share(&self) -> Result<ArcSlice<u8>, AllocError>
        ensures { IfOk result (λ bytes. arc_slice_items bytes ≡ self.now) }
    {
        self.bytes.clone()
    }
}

/// The ranks of a communicator, in the order of their positions. Contracts see a list of numbers.
#[derive(Drop)]
pub struct Members {
    ranks: Vec<u8>,
}

impl Model for Members {
    ghost use Rattle.std.specs.Prelude.{List, ℕ};

    ghost Value = { List ℕ };

    ghost view = { λ members. members.ranks.items };
}

impl Members {
    /// The vector's ranks. Takes no memory.
    pub fn from_vec(ranks: Vec<u8>) -> Members
        ensures { result ≡ ranks.items }
    {
        Members { ranks }
    }

    /// The ranks.
    pub fn as_slice(&self) -> &[u8]
        ensures { result.now ≡ self.now }
    {
        self.ranks.as_slice()
    }

    /// The same ranks in memory of their own. A copy of none takes no memory.
    pub fn try_copy(&self, alloc: Global) -> Result<Members, AllocError>
        ensures copy { IfOk result (λ copy. copy ≡ self.now) }
        ensures free { self.now ≡ [] → IsOk result }
    {
        let mut ranks = Vec::with_capacity(alloc, self.ranks.len())?;
        ranks.extend_from_slice(self.ranks.as_slice())?;
        Ok(Members { ranks })
    }
}

/// Communicators, numbered from 1. Contracts see a list of lists of ranks.
#[derive(Drop)]
pub struct Comms {
    comms: Vec<Members>,
}

impl Model for Comms {
    ghost use Rattle.std.specs.Prelude.{List, ℕ};

    ghost Value = { List (List ℕ) };

    ghost view = { λ comms. comms.comms.items };
}

impl Comms {
    /// The vector's communicators; the one at index 0 has number 1. Takes no memory.
    pub fn from_vec(comms: Vec<Members>) -> Comms
        ensures { result ≡ comms.items }
    {
        Comms { comms }
    }

    /// The communicators; the one at index 0 has number 1.
    pub fn as_slice(&self) -> &[Members]
        ensures { result.now ≡ self.now }
    {
        self.comms.as_slice()
    }
}

/// Links, numbered from 0. Contracts see a list of links.
#[derive(Drop)]
pub struct Links {
    links: Vec<Link>,
}

impl Model for Links {
    ghost use Rattle.std.specs.Prelude.{List};
    ghost use Rattle.rv_image_types.specs.declared.images.Link.{Link};

    ghost Value = { List Link };

    ghost view = { λ links. links.links.items };
}

impl Links {
    /// The vector's links. Takes no memory.
    pub fn from_vec(links: Vec<Link>) -> Links
        ensures { result ≡ links.items }
    {
        Links { links }
    }

    /// The links.
    pub fn as_slice(&self) -> &[Link]
        ensures { result.now ≡ self.now }
    {
        self.links.as_slice()
    }

    /// The same links in memory of their own. A copy of none takes no memory.
    pub fn try_copy(&self, alloc: Global) -> Result<Links, AllocError>
        ensures copy { IfOk result (λ copy. copy ≡ self.now) }
        ensures free { self.now ≡ [] → IsOk result }
    {
        let mut links = Vec::with_capacity(alloc, self.links.len())?;
        links.extend_from_slice(self.links.as_slice())?;
        Ok(Links { links })
    }
}

/// The bytes of a symbol's name. Contracts see a list of numbers.
#[derive(Drop)]
pub struct SymbolName {
    bytes: Vec<u8>,
}

impl Model for SymbolName {
    ghost use Rattle.std.specs.Prelude.{List, ℕ};

    ghost Value = { List ℕ };

    ghost view = { λ name. name.bytes.items };
}

impl SymbolName {
    /// The vector's bytes. Takes no memory.
    pub fn from_vec(bytes: Vec<u8>) -> SymbolName
        ensures { result ≡ bytes.items }
    {
        SymbolName { bytes }
    }

    /// The bytes.
    pub fn as_slice(&self) -> &[u8]
        ensures { result.now ≡ self.now }
    {
        self.bytes.as_slice()
    }
}

/// Symbols, numbered from 0. Contracts see a list of symbols.
#[derive(Drop)]
pub struct Symbols {
    symbols: Vec<Symbol>,
}

impl Model for Symbols {
    ghost use Rattle.std.specs.Prelude.{List};
    ghost use Rattle.rv_image_types.specs.declared.images.Symbol.{Symbol};

    ghost Value = { List Symbol };

    ghost view = { λ symbols. symbols.symbols.items };
}

impl Symbols {
    /// The vector's symbols. Takes no memory.
    pub fn from_vec(symbols: Vec<Symbol>) -> Symbols
        ensures { result ≡ symbols.items }
    {
        Symbols { symbols }
    }

    /// The symbols.
    pub fn as_slice(&self) -> &[Symbol]
        ensures { result.now ≡ self.now }
    {
        self.symbols.as_slice()
    }
}
