//! The calls that led to where a hart is, as text.

ghost use Rattle.std.specs.Prelude.{◌≡◌, ◌++◌, OnOk};
ghost use Rattle.rvmc_places.specs.Callers.{call_place, callers_text, calls_text};
ghost use Rattle.rvmc_places.specs.Frames.{frames};
ghost use Rattle.rvmc_places.specs.Ways.{called_at};

use crate::frames::{Frame, frame_above, own_frame};
use crate::texts::put_name;
use crate::ways::called_at;
use rv_hart::Hart;
use rv_image_types::Symbol;
use rv_memory::RankMemory;
use std::alloc::AllocError;

/// The most calls that are told of a hart.
pub(crate) const MOST: usize = 64;

/// Adds a call, between two texts.
fn put_call(
    text: &mut Vec<u8>,
    symbols: &[Symbol],
    frame: Frame,
    before: &[u8],
    behind: &[u8],
) -> Result<(), AllocError>
    ensures { OnOk result
        (text.new.items
        ≡ text.old.items ++ (before.now ++ (call_place symbols.now (called_at frame) ++ behind.now))) }
{
    text.extend_from_slice(before)?;
    put_name(text, symbols, called_at(frame))?;
    text.extend_from_slice(behind)
}

/// Adds the calls that led to where the hart is, the last one first and at most 64, each between the same texts.
pub fn put_calls(
    text: &mut Vec<u8>,
    symbols: &[Symbol],
    memory: &RankMemory,
    hart: &Hart,
    before: &[u8],
    behind: &[u8],
) -> Result<(), AllocError>
    ensures { OnOk result
        (text.new.items
        ≡ text.old.items ++ calls_text before.now behind.now symbols.now (frames symbols.now memory.now hart.now)) }
{
    let mut next = own_frame(symbols, memory, hart);
    for _number in 0..MOST {
        match next {
            None => return Ok(()),
            Some(frame) => {
                put_call(text, symbols, frame, before, behind)?;
                next = frame_above(symbols, memory, frame);
            }
        }
    }
    Ok(())
}

/// Adds the calls that led to where the hart is, a line each, if they are asked for.
#[tactic(auto, unfolding(crate::specs::Callers::callers_text))]
pub fn put_callers(
    text: &mut Vec<u8>,
    symbols: &[Symbol],
    memory: &RankMemory,
    hart: &Hart,
    framed: bool,
) -> Result<(), AllocError>
    ensures { OnOk result
        (text.new.items ≡ text.old.items ++ callers_text framed symbols.now memory.now hart.now) }
{
    if !framed {
        return Ok(());
    }
    put_calls(text, symbols, memory, hart, b"  called from ", b"\n")
}
