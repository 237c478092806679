//! The frames of the functions that a hart is in: by frame pointers, or by the way out of those that keep none.

ghost use Rattle.std.specs.Prelude.{◌≡◌};
ghost use Rattle.rvmc_places.specs.Frames.{caller_frame, frame_above, frame_at, leaf_frame, of_leaf, own_frame};
ghost use Rattle.rvmc_places.specs.Frames.{own_frame_by, returned, risen, way_of};
ghost use Rattle.rvmc_places.specs.Pointers.{is_text};
ghost use Rattle.rv_memory.specs.Access.{word_at};

use crate::pointers::{Keeps, kept_pointer};
use crate::ways::{called_at, led, way_out};
use rv_decode::Reg;
use rv_hart::{Hart, Mode};
use rv_image_types::Symbol;
use rv_memory::RankMemory;

/// The frame of a function: the part of the stack that it has for itself.
#[derive(Clone, Copy, Drop)]
pub struct Frame {
    /// The address behind the frame, on a stack that grows down. A frame pointer is that.
    pub pointer: u64,
    /// Where the function returns to.
    pub back: u64,
    /// The register s0 of its caller, which is the frame pointer of one that keeps one.
    pub above: u64,
}

/// The frame that ends at a frame pointer: none where that is no multiple of 8, or where one of the two words below it
/// is outside the memory.
fn frame_at(memory: &RankMemory, pointer: u64) -> Option<Frame>
    ensures { result ≡ frame_at memory.now pointer }
{
    if pointer % 8 != 0 || pointer < 16 || memory.size() < pointer {
        return None;
    }
    Some(Frame {
        pointer,
        back: memory.word(pointer - 8),
        above: memory.word(pointer - 16),
    })
}

/// The frame of a function that calls no other: its return address is in x1 alone, and the caller's frame pointer in the
/// place of it.
fn leaf_frame(hart: &Hart, frame: Frame) -> Frame
    ensures { result ≡ leaf_frame hart.now frame }
{
    Frame {
        pointer: frame.pointer,
        back: hart.get(Reg::new(1)),
        above: frame.back,
    }
}

/// The frame of a function that may call no other.
fn of_leaf(hart: &Hart, frame: Frame) -> Frame
    ensures { result ≡ of_leaf hart.now frame }
{
    if frame.back <= frame.pointer {
        return frame;
    }
    leaf_frame(hart, frame)
}

/// The hart when the function of a frame has returned, as far as it is known.
fn returned(frame: Frame) -> Hart
    ensures { result ≡ returned frame }
{
    let mut hart = Hart::start(frame.back, 0, 0, 0);
    hart.set(Reg::new(1), frame.back);
    hart.set(Reg::new(2), frame.pointer);
    hart.set(Reg::new(8), frame.above);
    hart
}

/// The frame of the caller, by its frame pointer or its way out.
fn caller_frame(symbols: &[Symbol], memory: &RankMemory, frame: Frame) -> Option<Frame>
    ensures { result ≡ caller_frame symbols.now memory.now frame }
{
    if let Keeps::Without = kept_pointer(symbols, memory, called_at(frame)) {
        let found = way_out(memory, &returned(frame));
        if found.is_some() {
            return found;
        }
    }
    frame_at(memory, frame.above)
}

/// A frame that is higher.
fn risen(frame: Frame, next: Option<Frame>) -> Option<Frame>
    ensures { result ≡ risen frame next }
{
    let next = next?;
    if next.pointer <= frame.pointer {
        return None;
    }
    Some(next)
}

/// The frame of the caller: none where it is no higher.
pub fn frame_above(symbols: &[Symbol], memory: &RankMemory, frame: Frame) -> Option<Frame>
    ensures { result ≡ frame_above symbols.now memory.now frame }
{
    risen(frame, caller_frame(symbols, memory, frame))
}

/// The frame of the function that the hart is in, by a way out. A hart that has jumped out of the text is at its end.
fn way_of(memory: &RankMemory, hart: &Hart) -> Option<Frame>
    ensures { result ≡ way_of memory.now hart.now (is_text (word_at memory.now hart.now.pc)) }
{
    if memory.text_word(hart.pc()).is_none() {
        return led(memory, hart);
    }
    way_out(memory, hart)
}

/// The frame of the function that a running hart is in, by whether it keeps a frame pointer.
fn own_frame_by(keeps: Keeps, memory: &RankMemory, hart: &Hart) -> Option<Frame>
    ensures { result ≡ own_frame_by keeps memory.now hart.now }
{
    let pointed = frame_at(memory, hart.get(Reg::new(8)));
    match keeps {
        Keeps::Stored => pointed,
        Keeps::Leaf => Some(leaf_frame(hart, pointed?)),
        Keeps::Unknown => Some(of_leaf(hart, pointed?)),
        Keeps::Without => {
            let found = way_of(memory, hart);
            if found.is_some() {
                return found;
            }
            pointed
        }
    }
}

/// The frame of the function that the hart is in, whatever its mode: by its frame pointer, or by a way out of it.
pub fn own_frame(symbols: &[Symbol], memory: &RankMemory, hart: &Hart) -> Option<Frame>
    ensures { result ≡ own_frame symbols.now memory.now hart.now }
{
    let keeps = kept_pointer(symbols, memory, hart.pc());
    let mut running = *hart;
    running.set_mode(Mode::Running);
    own_frame_by(keeps, memory, &running)
}
