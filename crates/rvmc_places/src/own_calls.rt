//! The call by which the program itself came to where a hart is in the library.

ghost use Rattle.std.specs.Prelude.{◌≡◌, ◌++◌, OnOk};
ghost use Rattle.std.specs.Option.{option_copied};
ghost use Rattle.rvmc_places.specs.OwnCalls.{has_line, inner_text, is_in_library, made_text, own_call as own_call_of};
ghost use Rattle.rvmc_places.specs.OwnCalls.{own_call_from, own_call_text, own_place_text};
ghost use Rattle.rvmc_places.specs.Frames.{frames};

use crate::callers::MOST;
use crate::frames::{frame_above, own_frame};
use crate::near::{line_at, nearest_label};
use crate::texts::{put_name, put_place};
use crate::ways::called_at;
use rv_hart::Hart;
use rv_image_types::Symbol;
use rv_memory::RankMemory;
use std::alloc::AllocError;

/// A call by the program itself.
#[derive(Clone, Copy, Drop)]
struct OwnCall {
    /// Its address, which has a line.
    at: u64,
    /// An address in the function of the library that it called.
    inner: u64,
}

/// Whether an address belongs to a line of the program's own sources.
fn has_line(symbols: &[Symbol], at: u64) -> bool
    ensures { result ≡ has_line symbols.now at }
{
    line_at(symbols, at).is_some()
}

/// The innermost call by the program itself, above a place in the library.
fn own_call_above(symbols: &[Symbol], memory: &RankMemory, hart: &Hart) -> Option<OwnCall>
    ensures { result ≡ own_call_from symbols.now hart.now.pc (frames symbols.now memory.now hart.now) }
{
    let mut inner = hart.pc();
    let mut next = own_frame(symbols, memory, hart);
    for _number in 0..MOST {
        match next {
            None => return None,
            Some(frame) => {
                let at = called_at(frame);
                if has_line(symbols, at) {
                    return Some(OwnCall { at, inner });
                }
                inner = at;
                next = frame_above(symbols, memory, frame);
            }
        }
    }
    None
}

/// That of a hart, unless it is in the program itself.
#[tactic(auto, unfolding(crate::specs::OwnCalls::own_call))]
fn own_call(symbols: &[Symbol], memory: &RankMemory, hart: &Hart) -> Option<OwnCall>
    ensures { result ≡ own_call_of symbols.now memory.now hart.now }
{
    if has_line(symbols, hart.pc()) {
        return None;
    }
    own_call_above(symbols, memory, hart)
}

/// Whether the hart is in the library, and the program's own call that led there is known.
#[tactic(auto, unfolding(crate::specs::OwnCalls::is_in_library))]
pub fn is_in_library(symbols: &[Symbol], memory: &RankMemory, hart: &Hart) -> bool
    ensures { result ≡ is_in_library symbols.now memory.now hart.now }
{
    own_call(symbols, memory, hart).is_some()
}

/// Adds where a call is made: `first.c:7 in main,`, or by the name that the machine has for the call
/// `meet+0x20 [0x30] in RECV`.
#[tactic(auto, unfolding(crate::specs::OwnCalls::made_text))]
pub fn put_made(
    text: &mut Vec<u8>,
    symbols: &[Symbol],
    at: u64,
    name: &str,
) -> Result<(), AllocError>
    ensures { OnOk result (text.new.items ≡ text.old.items ++ made_text symbols.now at name.now) }
{
    if has_line(symbols, at) {
        put_name(text, symbols, at)?;
        return text.extend_from_slice(b",");
    }
    put_place(text, symbols, at)?;
    text.extend_from_slice(b" in ")?;
    text.extend_from_slice(name.as_bytes())
}

/// Adds a function of the library, as `, in MPI_Barrier,`, if its label is known.
fn put_inner(text: &mut Vec<u8>, label: Option<&Symbol>) -> Result<(), AllocError>
    ensures { OnOk result (text.new.items ≡ text.old.items ++ inner_text (option_copied label.entry)) }
{
    let Some(label) = label else {
        return text.extend_from_slice(b",");
    };
    text.extend_from_slice(b", in ")?;
    text.extend_from_slice(label.name.as_slice())?;
    text.extend_from_slice(b",")
}

/// Adds the place of a call, and what it called; where there is none the place of a pc, at which a call of this name is made.
fn put_call(
    text: &mut Vec<u8>,
    symbols: &[Symbol],
    pc: u64,
    name: &str,
    call: Option<OwnCall>,
) -> Result<(), AllocError>
    ensures { OnOk result (text.new.items ≡ text.old.items ++ own_call_text symbols.now pc name.now call) }
{
    match call {
        None => put_made(text, symbols, pc, name),
        Some(call) => {
            put_name(text, symbols, call.at)?;
            put_inner(text, nearest_label(symbols, call.inner))
        }
    }
}

/// Adds where the program itself called the function of the library in which the hart is, and that function, as
/// `coll.c:15 in main, in MPI_Barrier,`; or where the hart makes a call of this name itself.
#[tactic(auto, unfolding(crate::specs::OwnCalls::own_place_text))]
pub fn put_own_place(
    text: &mut Vec<u8>,
    symbols: &[Symbol],
    memory: &RankMemory,
    hart: &Hart,
    name: &str,
) -> Result<(), AllocError>
    ensures { OnOk result
        (text.new.items ≡ text.old.items ++ own_place_text symbols.now memory.now hart.now name.now) }
{
    let found = own_call(symbols, memory, hart);
    put_call(text, symbols, hart.pc(), name, found)
}
