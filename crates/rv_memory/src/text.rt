//! A program's text in one piece.
ghost use Rattle.std.specs.Prelude.{◌≡◌, ◌+◌, ◌↔◌, if◌then◌else◌, length, nat_le, IfOk, IfSome, IsTrue, None, Some};
ghost use Rattle.std.specs.Arc.{arc_slice_items};
ghost use Rattle.rv_memory.specs.Readings.{AreReadings, IsReading};
ghost use Rattle.rv_memory.specs.Memory.{value_at};

use crate::page::value;
use rv_decode::{Instr, decode};
use std::alloc::{AllocError, Global};
use std::marker::Model;
use std::sync::ArcSlice;

/// The bytes of a program's text, which stand once for all memories that share them.
#[derive(Drop)]
pub(crate) struct Text {
    bytes: ArcSlice<u8>,
    /// How many addresses a word can be fetched from: all but the last three.
    fetchable: u64,
    /// What each word stands for, from the first on; none of them until the words are decoded.
    readings: ArcSlice<Option<Instr>>,
}

impl Model for Text {
    ghost use Rattle.std.specs.Prelude.{◌≡◌, ◌-◌, ℕ, List, length};
    ghost use Rattle.std.specs.Arc.{arc_slice_items};
    ghost use Rattle.rv_memory.specs.Readings.{AreReadings};

    ghost Value = { List ℕ };

    ghost view = { λ t. arc_slice_items t.bytes };

    ghost invariant = { λ t. (t.fetchable ≡ length (arc_slice_items t.bytes) - 3)
        × AreReadings (arc_slice_items t.bytes) (arc_slice_items t.readings) };
}

/// What each word of a text stands for. The only error is want of memory.
fn readings(alloc: Global, text: &[u8]) -> Result<Vec<Option<Instr>>, AllocError>
    ensures { IfOk result (λ readings. AreReadings text.now readings.items) }
{
    let count = text.len() / 4;
    let mut readings = Vec::with_capacity(alloc, count)?;
    for k in 0..count {
        readings.push(decode(value(text, 4 * k, 4) as u32))?;
    }
    Ok(readings)
}

impl Text {
    /// A text of these bytes, whose words aren't decoded. The only error is want of memory.
    pub(crate) fn new(alloc: Global, bytes: ArcSlice<u8>) -> Result<Text, AllocError>
        ensures { IfOk result (λ text. text ≡ arc_slice_items bytes) }
    {
        let fetchable = (bytes.len() as u64).saturating_sub(3);
        let readings = ArcSlice::from_vec(Vec::new(alloc))?;
        Ok(Text {
            bytes,
            fetchable,
            readings,
        })
    }

    /// Decodes the words, each once. The only error is want of memory.
    pub(crate) fn decode(&mut self, alloc: Global) -> Result<(), AllocError>
        ensures { self.new ≡ self.old }
    {
        let readings = readings(alloc, self.bytes.as_slice())?;
        self.readings = ArcSlice::from_vec(readings)?;
        Ok(())
    }

    /// Takes what the words of another text stand for, where both have the same bytes. It isn't copied: the only error is
    /// that 2^63 - 1 hold it already.
    pub(crate) fn decode_as(&mut self, other: &Text) -> Result<(), AllocError>
        ensures { self.new ≡ self.old }
    {
        if self.is_same(other) {
            self.readings = other.readings.clone()?;
        }
        Ok(())
    }

    /// The same text once more. It isn't copied: the only error is that 2^63 - 1 hold it already.
    pub(crate) fn share(&self) -> Result<Text, AllocError>
        ensures { IfOk result (λ text. text ≡ self.now) }
    {
        Ok(Text {
            bytes: self.bytes.clone()?,
            fetchable: self.fetchable,
            readings: self.readings.clone()?,
        })
    }

    /// Whether another text has the same bytes.
    pub(crate) fn is_same(&self, other: &Text) -> bool
        ensures { IsTrue result ↔ (self.now ≡ other.now) }
    {
        self.bytes.as_slice() == other.bytes.as_slice()
    }

    /// The bytes.
    pub(crate) fn as_slice(&self) -> &[u8]
        ensures { result.now ≡ self.now }
    {
        self.bytes.as_slice()
    }

    /// How many bytes there are.
    #[inline(always)]
    pub(crate) fn len(&self) -> usize
        ensures { result ≡ length self.now }
    {
        self.bytes.len()
    }

    /// The instruction of the word at a pc, where the words are decoded. `None` where they aren't, where the pc is no
    /// multiple of 4 or one of its four bytes isn't there, and where the word stands for none.
    #[inline(always)]
    pub(crate) fn instruction(&self, pc: u64) -> Option<Instr>
        ensures { IfSome result (λ i. IsReading self.now pc (Some i)) }
    {
        let readings = self.readings.as_slice();
        let at = pc / 4;
        if pc % 4 != 0 || at >= readings.len() as u64 {
            return None;
        }
        readings[at as usize]
    }

    /// The word at a pc, or `None` where one of its four bytes isn't there.
    #[inline(always)]
    pub(crate) fn word(&self, pc: u64) -> Option<u32>
        ensures { result ≡ (if nat_le (pc + 4) (length self.now) then Some (value_at self.now pc 4) else None) }
    {
        if pc < self.fetchable {
            Some(value(self.bytes.as_slice(), pc as usize, 4) as u32)
        } else {
            None
        }
    }
}
