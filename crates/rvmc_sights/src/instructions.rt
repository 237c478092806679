//! What instructions left, as text.

ghost use Rattle.std.specs.Prelude.{◌≡◌, ◌++◌, OnOk, codes, false};
ghost use Rattle.rv_decode.specs.Decoded.{decoded};
ghost use Rattle.rv_memory.specs.declared.fault.Cause.TheVariants.{IllegalInstruction};
ghost use Rattle.rvmc_places.specs.Causes.{trapped_text};
ghost use Rattle.rvmc_places.specs.Places.{hex_text};
ghost use Rattle.rvmc_sights.specs.Instructions.{instruction_text, outcome_text, word_text};

use crate::ahead::{ahead_of, put_rest};
use rv_decode::{Instr, decode};
use rv_hart::Hart;
use rv_memory::Cause;
use rvmc_places::put_trapped;
use std::io;
use std::io::Write;

/// Adds what an instruction left, or that it trapped.
#[tactic(auto, using(crate::proofs::Aheads::outcome_is))]
fn put_outcome(
    text: &mut Vec<u8>,
    instr: &Instr,
    before: &Hart,
    after: &Hart,
    overflow: bool,
) -> io::Result<()>
    ensures { OnOk result (text.new.items
        ≡ text.old.items ++ outcome_text instr.now before.now after.now overflow after.now.mode) }
{
    put_rest(text, Some(ahead_of(instr, before)), after, overflow)
}

/// Adds a word that is no instruction, and that it trapped.
fn put_no_instruction(text: &mut Vec<u8>, word: u32) -> io::Result<()>
    ensures { OnOk result (text.new.items
        ≡ text.old.items
        ++ (codes ".word " ++ (hex_text word ++ (codes " " ++ trapped_text false IllegalInstruction)))) }
{
    write!(text, ".word 0x{word:x} ")?;
    put_trapped(text, false, Cause::IllegalInstruction)?;
    Ok(())
}

/// Adds a word's instruction, and what it left.
fn put_word(
    text: &mut Vec<u8>,
    word: u32,
    before: &Hart,
    after: &Hart,
    overflow: bool,
) -> io::Result<()>
    ensures { OnOk result (text.new.items
        ≡ text.old.items ++ word_text word (decoded word) before.now after.now overflow) }
{
    match decode(word) {
        None => put_no_instruction(text, word),
        Some(instr) => {
            write!(text, "{instr}")?;
            put_outcome(text, &instr, before, after, overflow)
        }
    }
}

/// Adds the instruction at a hart's pc, and what it left: perhaps a hart whose stack is full.
pub(crate) fn put_instruction(
    text: &mut Vec<u8>,
    word: Option<u32>,
    before: &Hart,
    after: &Hart,
    overflow: bool,
) -> io::Result<()>
    ensures { OnOk result (text.new.items ≡ text.old.items ++ instruction_text word before.now after.now overflow) }
{
    match word {
        None => {
            put_trapped(text, false, Cause::InstructionAccess)?;
            Ok(())
        }
        Some(word) => put_word(text, word, before, after, overflow),
    }
}
