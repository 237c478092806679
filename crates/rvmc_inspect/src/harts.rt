//! The lines of harts.

ghost use Rattle.std.specs.Prelude.{◌≡◌, ◌++◌, IfOk, OnOk, string_bytes};
ghost use Rattle.cl_state.specs.Room.{rank_of};
ghost use Rattle.rvmc_inspect.specs.Texts.{doing_text, ended_text, hart_head, hart_line, hart_waits_text, has_ended};
ghost use Rattle.rvmc_inspect.specs.Texts.{waiting_place, waiting_text};

use crate::awaited::{Wait, put_waits};
use crate::finding::waits;
use cl_calls::{call_name, called_number};
use cl_state::RankState;
use mp_hub::HubState;
use part_box::Settled;
use rv_hart::{Hart, Mode};
use rv_image_types::Symbol;
use rv_memory::RankMemory;
use rvmc_places::{is_in_library, put_callers, put_made, put_own_place, put_place, put_trap};
use std::alloc::{AllocError, Global};

/// `rank R hart H `, before how the hart stands.
fn hart_head(alloc: Global, rank: usize, number: usize) -> Result<String, AllocError>
    ensures { IfOk result (λ text. string_bytes text ≡ hart_head rank number) }
{
    format!(in alloc; "rank {rank} hart {number} ")
}

/// What the lines of a rank's harts are told by.
#[derive(Clone, Copy, Drop)]
struct Setting<'a> {
    symbols: &'a [Symbol],
    memory: &'a RankMemory,
    /// Whether the calls that led to where a hart is are told too.
    framed: bool,
}

/// The code of a hart that ended.
fn ended_text(alloc: Global, code: u64) -> Result<String, AllocError>
    ensures { IfOk result (λ text. string_bytes text ≡ ended_text code) }
{
    format!(in alloc; "ended {code}")
}

/// Adds where a hart makes the call in which it waits: at the program's own call, or where all calls are told where it is
/// itself.
fn put_waiting_place(
    text: &mut Vec<u8>,
    setting: &Setting<'_>,
    hart: &Hart,
) -> Result<(), AllocError>
    ensures { OnOk result (text.new.items
        ≡ text.old.items
        ++ waiting_place setting.now.framed setting.now.symbols.now setting.now.memory.now hart.now) }
{
    let name = call_name(called_number(hart));
    if setting.framed {
        put_made(text, setting.symbols, hart.pc(), name)
    } else {
        put_own_place(text, setting.symbols, setting.memory, hart, name)
    }
}

/// Adds that place, and what the hart waits for.
#[tactic(auto, unfolding(crate::specs::Texts::waiting_text))]
fn put_waiting(
    alloc: Global,
    text: &mut Vec<u8>,
    setting: &Setting<'_>,
    hart: &Hart,
    found: &[Wait],
) -> Result<(), AllocError>
    ensures { OnOk result (text.new.items
        ≡ text.old.items
        ++ waiting_text setting.now.framed setting.now.symbols.now setting.now.memory.now hart.now found.now) }
{
    text.extend_from_slice(b"waits at ")?;
    put_waiting_place(text, setting, hart)?;
    text.extend_from_slice(b" for ")?;
    let inside = !setting.framed && is_in_library(setting.symbols, setting.memory, hart);
    put_waits(alloc, text, inside, found)
}

/// Adds how a hart stands, and of one that waits for what.
fn put_mode(
    alloc: Global,
    text: &mut Vec<u8>,
    setting: &Setting<'_>,
    hart: &Hart,
    found: &[Wait],
) -> Result<(), AllocError>
    ensures { OnOk result (text.new.items
        ≡ text.old.items
        ++ doing_text setting.now.framed setting.now.symbols.now setting.now.memory.now hart.now found.now hart.now.mode) }
{
    match hart.mode() {
        Mode::Running => {
            text.extend_from_slice(b"runs at ")?;
            put_place(text, setting.symbols, hart.pc())
        }
        Mode::Waiting(_) => put_waiting(alloc, text, setting, hart, found),
        Mode::Ended(code) => {
            let ended = ended_text(alloc, code)?;
            text.extend_from_slice(ended.as_bytes())
        }
        Mode::Trapped(cause, at) => {
            put_trap(text, setting.memory, hart, cause)?;
            put_place(text, setting.symbols, at)
        }
    }
}

fn has_ended(hart: &Hart) -> bool
    ensures { result ≡ has_ended hart.now.mode }
{
    matches!(hart.mode(), Mode::Ended(_))
}

/// Adds the line of a hart that waits for this, if it waits, and below it the calls that led to where it is, if they are
/// asked for.
#[tactic(auto, unfolding(crate::specs::Texts::hart_line))]
fn put_hart(
    alloc: Global,
    text: &mut Vec<u8>,
    setting: &Setting<'_>,
    rank: usize,
    number: usize,
    hart: &Hart,
    found: &[Wait],
) -> Result<(), AllocError>
    ensures { OnOk result (text.new.items
        ≡ text.old.items
        ++ hart_line setting.now.framed setting.now.symbols.now setting.now.memory.now rank number hart.now found.now) }
{
    let head = hart_head(alloc, rank, number)?;
    text.extend_from_slice(head.as_bytes())?;
    put_mode(alloc, text, setting, hart, found)?;
    text.push(b'\n')?;
    let framed = setting.framed && !has_ended(hart);
    put_callers(text, setting.symbols, setting.memory, hart, framed)
}

/// Adds the lines of a rank's harts, in their order: how each stands, what one that waits is waiting for, and with
/// `framed` the calls that led there. The only error is want of memory.
pub fn put_harts(
    alloc: Global,
    text: &mut Vec<u8>,
    symbols: &[Symbol],
    hub: &HubState,
    boxes: &[[Settled; 16]],
    rank: usize,
    own: &RankState,
    framed: bool,
) -> Result<(), AllocError>
    ensures { OnOk result
        (text.new.items
        ≡ text.old.items ++ hart_waits_text framed symbols.now hub.now boxes.now rank (rank_of own.now)) }
{
    let setting = Setting {
        symbols,
        memory: &own.memory,
        framed,
    };
    for number in 0..own.harts.len() {
        let found = waits(alloc, hub, boxes, own, number)?;
        let hart = &own.harts[number];
        put_hart(alloc, text, &setting, rank, number, hart, found.as_slice())?;
    }
    Ok(())
}
