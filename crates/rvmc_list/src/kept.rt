//! The texts of instructions, each kept for the next time that it is done.

ghost use Rattle.std.specs.Prelude.{◌≡◌, ◌++◌, ◌<◌, IfOk, List, None, OnOk};
ghost use Rattle.std.specs.Option.{option_copied};
ghost use Rattle.rv_decode.specs.Decoded.{decoded};
ghost use Rattle.rv_image_types.specs.declared.images.Symbol.{Symbol as SymbolOf};
ghost use Rattle.rvmc_list.specs.Keeping.{AreKept, IsFound, IsKept, spot_text, word_spot};

use rv_decode::{Instr, decode};
use rv_image_types::Symbol;
use rv_memory::Cause;
use rvmc_places::{put_place, put_trapped};
use std::alloc::{AllocError, Global};
use std::io;
use std::io::Write;

/// An instruction behind its address, as text.
#[derive(Drop)]
pub(crate) struct Kept {
    pub(crate) at: u64,
    pub(crate) word: u32,
    pub(crate) instr: Instr,
    pub(crate) text: Vec<u8>,
}

/// Texts, each at a place that its address gives. One that comes to the same place takes it.
#[derive(Drop)]
pub(crate) struct Texts {
    pub(crate) alloc: Global,
    pub(crate) kept: Vec<Option<Kept>>,
}

/// The place of an address: 1,024 words that follow one another have places of their own.
fn place_of(at: u64) -> usize
    ensures { result < 1024 }
{
    (at / 4 % 1024) as usize
}

impl Texts {
    /// No texts. The only error is want of memory.
    pub(crate) fn new(alloc: Global) -> Result<Texts, AllocError>
        ensures { IfOk result (λ texts. (symbols : List SymbolOf) → AreKept symbols texts) }
    {
        let mut kept = Vec::new(alloc);
        for _n in 0..1024_usize {
            kept.push(None)?;
        }
        Ok(Texts { alloc, kept })
    }

    /// What is kept of the word at an address.
    fn find(&self, at: u64, word: u32) -> Option<&Kept>
        ensures { IsFound at word self.now (option_copied result) }
    {
        match self.kept.get(place_of(at)) {
            Some(Some(kept)) => {
                if kept.at == at && kept.word == word {
                    Some(kept)
                } else {
                    None
                }
            }
            _ => None,
        }
    }

    /// Keeps a text, unless it is long: so all of them together are short.
    fn keep(&mut self, kept: Kept)
        ensures { (symbols : List SymbolOf) → AreKept symbols self.old → IsKept symbols kept → AreKept symbols self.new }
    {
        if kept.text.len() > 256 {
            return;
        }
        let place = place_of(kept.at);
        if place < self.kept.len() {
            self.kept[place] = Some(kept);
        }
    }
}

/// An instruction behind its address, as text. The only error is want of memory.
fn spot(alloc: Global, symbols: &[Symbol], at: u64, instr: &Instr) -> io::Result<Vec<u8>>
    ensures { IfOk result (λ text. text.items ≡ spot_text symbols.now at instr.now) }
{
    let mut text = Vec::new(alloc);
    put_place(&mut text, symbols, at)?;
    write!(text, ": {instr}")?;
    Ok(text)
}

/// Adds a word that is no instruction, behind its address.
fn put_no_instruction(text: &mut Vec<u8>, symbols: &[Symbol], at: u64, word: u32) -> io::Result<()>
    requires { decoded word ≡ None }
    ensures { OnOk result (text.new.items ≡ text.old.items ++ word_spot symbols.now at word (decoded word)) }
{
    put_place(text, symbols, at)?;
    write!(text, ": .word 0x{word:x} ")?;
    put_trapped(text, false, Cause::IllegalInstruction)?;
    Ok(())
}

/// Adds a word behind its address, and keeps the text of its instruction.
fn put_new(
    text: &mut Vec<u8>,
    texts: &mut Texts,
    at: u64,
    word: u32,
    symbols: &[Symbol],
) -> io::Result<Option<Instr>>
    requires kept { AreKept symbols.now texts.old }
    ensures text { OnOk result (text.new.items ≡ text.old.items ++ word_spot symbols.now at word (decoded word)) }
    ensures instr { IfOk result (λ instr. instr ≡ decoded word) }
    ensures kept { OnOk result (AreKept symbols.now texts.new) }
{
    let Some(instr) = decode(word) else {
        put_no_instruction(text, symbols, at, word)?;
        return Ok(None);
    };
    let spot = spot(texts.alloc, symbols, at, &instr)?;
    text.extend_from_slice(spot.as_slice())?;
    let kept = Kept {
        at,
        word,
        instr,
        text: spot,
    };
    texts.keep(kept);
    Ok(Some(instr))
}

/// Adds a word behind its address, and gives its instruction. None where it is none: then it is told that it traps.
pub(crate) fn put_spot(
    text: &mut Vec<u8>,
    texts: &mut Texts,
    symbols: &[Symbol],
    at: u64,
    word: u32,
) -> io::Result<Option<Instr>>
    requires kept { AreKept symbols.now texts.old }
    ensures text { OnOk result (text.new.items ≡ text.old.items ++ word_spot symbols.now at word (decoded word)) }
    ensures instr { IfOk result (λ instr. instr ≡ decoded word) }
    ensures kept { OnOk result (AreKept symbols.now texts.new) }
{
    match texts.find(at, word) {
        Some(kept) => {
            text.extend_from_slice(kept.text.as_slice())?;
            Ok(Some(kept.instr))
        }
        None => put_new(text, texts, at, word, symbols),
    }
}
