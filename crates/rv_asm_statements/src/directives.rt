//! What directives say.

use crate::data_lists::{Bytes, Integers, Items};
use crate::limited::Limited;
use crate::values::{Integer, Label};
use rv_image_types::{HARTS_MAX, MEMORY_MAX, PAGE, RANKS_MAX};

/// How many bytes an item of data takes: 1, 2, 4 or 8.
#[derive(Clone, Copy)]
pub enum Width {
    Byte,
    Half,
    Word,
    Double,
}

/// To how many bytes data is aligned: 1, 2, 4, 8 or 16.
#[derive(Clone, Copy)]
pub enum Alignment {
    One,
    Two,
    Four,
    Eight,
    Sixteen,
}

const RANKS: u32 = RANKS_MAX as u32;

const HARTS: u32 = HARTS_MAX as u32;

/// How many ranks an image has.
pub type RankCount = Limited<1, RANKS, 1>;

/// How many harts each rank has.
pub type HartCount = Limited<1, HARTS, 1>;

/// How many bytes of memory each rank has.
pub type MemorySize = Limited<PAGE, MEMORY_MAX, PAGE>;

/// How many zero bytes stand in one place: as many as fit the largest memory.
pub type ZeroCount = Limited<0, MEMORY_MAX, 1>;

/// A directive with its operands, whose numbers keep the limits of the line.
#[derive(Drop)]
pub enum Directive {
    /// `.ranks n`
    Ranks(RankCount),
    /// `.harts n`
    Harts(HartCount),
    /// `.memory n`, in bytes.
    Memory(MemorySize),
    /// `.entry label`
    Entry(Label),
    /// `.comm r, r, ..`: one rank or more.
    Comm(Integers),
    /// `.link from, to`
    Link(Integer, Integer),
    /// `.text`
    Text,
    /// `.data`
    Data,
    /// `.byte`, `.half`, `.word` and `.dword`: one item or more.
    Items(Width, Items),
    /// `.ascii` and `.asciz`
    Bytes(Bytes),
    /// `.zero n`: so many zero bytes.
    Zero(ZeroCount),
    /// `.balign n`: zero bytes to a multiple of n.
    Align(Alignment),
    /// `.globl name`: a name that a symbol may have, of at most 31 bytes.
    Global(Label),
}
