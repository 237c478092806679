//! The words, done one after another.

ghost use Rattle.std.specs.Prelude.{◌≡◌, ◌≢◌, ◌<◌, ◌++◌, IfErr, IfOk, List, OnErr, OnOk, length, ℕ};
ghost use Rattle.rvmc_report.specs.Below.{Memory, NoSymbol};
ghost use Rattle.rvmc_words.specs.declared.debug.DebugWord.TheVariants as word;
ghost use Rattle.rvmc_inspect.specs.Words.{AddsBreak, AreStops, Does, IsSpot, IsTextOfWords, IsUnknown, Refuses, StopsAt, TellsBytes};
ghost use Rattle.rvmc_inspect.specs.Words.{TellsFrames, TellsOutput, TellsPlace, TellsRegs, WantsMemory, with_breaks};
ghost use Rattle.rvmc_places.specs.Places.{line_start, line_starts};

use crate::word_texts::{bytes_text, frames_text, output_text, place_text, regs_text};
use rv_image_types::Symbol;
use rvmc_places::{line_start, line_starts};
use rvmc_report::{DebugFault, Debugger};
use rvmc_words::{DebugWord, Name, Spot};
use std::alloc::{AllocError, Global};

/// What the words printed, and why one of them was refused, if one was: the text is then that of the words before it.
#[derive(Drop)]
pub struct Told {
    pub text: Vec<u8>,
    pub fault: Option<DebugFault>,
}

/// The text of the place where the debugger is.
fn tell_place(alloc: Global, debugger: &Debugger) -> Result<Vec<u8>, AllocError>
    ensures { IfOk result (λ text. TellsPlace debugger.now text.items) }
{
    let (n, len) = debugger.place();
    Ok(place_text(alloc, n, len)?.into_bytes())
}

/// Goes to a place.
fn go(alloc: Global, debugger: &mut Debugger, n: u64) -> Result<Vec<u8>, DebugFault>
    ensures does { IfOk result (λ text. Does debugger.old (word.Go n) debugger.new text.items) }
    ensures wanted { IfOk result (λ text. 0 < length text.items → WantsMemory debugger.old (word.Go n)) }
    ensures fault { IfErr result (λ fault. Refuses debugger.old fault (word.Go n)) }
    ensures stays { IfErr result (λ fault. fault ≢ Memory → debugger.new ≡ debugger.old) }
{
    debugger.go(n)?;
    Ok(tell_place(alloc, debugger)?)
}

/// Goes a step on, or stays at the end.
fn step(alloc: Global, debugger: &mut Debugger) -> Result<Vec<u8>, DebugFault>
    ensures does { IfOk result (λ text. Does debugger.old word.Step debugger.new text.items) }
    ensures fault { IfErr result (λ fault. Refuses debugger.old fault word.Step) }
    ensures stays { IfErr result (λ fault. fault ≢ Memory → debugger.new ≡ debugger.old) }
{
    debugger.step()?;
    Ok(tell_place(alloc, debugger)?)
}

/// Goes a step back, or stays at the start.
fn back(alloc: Global, debugger: &mut Debugger) -> Result<Vec<u8>, DebugFault>
    ensures does { IfOk result (λ text. Does debugger.old word.Back debugger.new text.items) }
    ensures fault { IfErr result (λ fault. Refuses debugger.old fault word.Back) }
    ensures stays { IfErr result (λ fault. fault ≢ Memory → debugger.new ≡ debugger.old) }
{
    debugger.back()?;
    Ok(tell_place(alloc, debugger)?)
}

/// Runs to the next break, or to the end.
fn run(alloc: Global, debugger: &mut Debugger) -> Result<Vec<u8>, DebugFault>
    ensures does { IfOk result (λ text. Does debugger.old word.Run debugger.new text.items) }
    ensures fault { IfErr result (λ fault. Refuses debugger.old fault word.Run) }
    ensures stays { IfErr result (λ fault. fault ≢ Memory → debugger.new ≡ debugger.old) }
{
    debugger.run()?;
    Ok(tell_place(alloc, debugger)?)
}

/// The symbols of the image.
fn symbols_of(debugger: &Debugger) -> &[Symbol]
    ensures { result.now ≡ debugger.now.image.symbols }
{
    debugger.image().parts().symbols.as_slice()
}

/// The address at which a line begins, or the first of several.
fn line_start_of(debugger: &Debugger, file: &Name, number: &Name) -> Option<u64>
    ensures { result ≡ line_start file.now number.now debugger.now.image.symbols }
{
    let symbols = symbols_of(debugger);
    line_start(
        symbols,
        file.as_str().as_bytes(),
        number.as_str().as_bytes(),
    )
}

/// The address that a word names, of a line the first at which it begins.
pub fn address_of(debugger: &Debugger, at: &Spot) -> Result<u64, DebugFault>
    ensures found { IfOk result (IsSpot debugger.now.image at.now) }
    ensures unknown { IfErr result (λ fault. (fault ≡ NoSymbol) × IsUnknown debugger.now.image at.now) }
{
    let found = match at {
        Spot::Address(address) => Some(*address),
        Spot::Name(name) => debugger.symbol(name.as_str()),
        Spot::Line { file, number } => line_start_of(debugger, file, number),
    };
    match found {
        Some(address) => Ok(address),
        None => Err(DebugFault::NoSymbol),
    }
}

/// The addresses at which a line begins.
fn line_starts_of(
    alloc: Global,
    debugger: &Debugger,
    file: &Name,
    number: &Name,
) -> Result<Vec<u64>, AllocError>
    ensures { IfOk result (λ found. found.items ≡ line_starts file.now number.now debugger.now.image.symbols) }
{
    let symbols = symbols_of(debugger);
    let (file, number) = (file.as_str().as_bytes(), number.as_str().as_bytes());
    line_starts(alloc, symbols, file, number)
}

/// Sets a break of a hart at each of these addresses. The only fault is want of memory.
fn set_breaks(debugger: &mut Debugger, rank: u8, hart: u8, pcs: &[u64]) -> Result<(), DebugFault>
    requires rank { rank < debugger.old.image.ranks }
    requires hart { hart < debugger.old.image.harts }
    ensures set { OnOk result (debugger.new ≡ with_breaks debugger.old rank hart pcs.now) }
    ensures fault { IfErr result (λ fault. fault ≡ Memory) }
{
    for pc in pcs {
        debugger.set_break(rank, hart, *pc)?;
    }
    Ok(())
}

/// The addresses at which a break stops: that which the word names, or each at which the line begins.
fn stops_of(alloc: Global, debugger: &Debugger, at: &Spot, pc: u64) -> Result<Vec<u64>, AllocError>
    requires { IsSpot debugger.now.image at.now pc }
    ensures { IfOk result (λ pcs. AreStops debugger.now.image at.now pcs.items) }
{
    if let Spot::Line { file, number } = at {
        return line_starts_of(alloc, debugger, file, number);
    }
    let mut pcs = Vec::new(alloc);
    pcs.push(pc)?;
    Ok(pcs)
}

/// Sets a break, of a line one at each address at which it begins, and prints nothing.
fn set_break(
    alloc: Global,
    debugger: &mut Debugger,
    rank: u8,
    hart: u8,
    at: &Spot,
) -> Result<Vec<u8>, DebugFault>
    ensures does { IfOk result (λ text. AddsBreak debugger.old rank hart at.now debugger.new text.items) }
    ensures wanted { IfOk result
        (λ text. 0 < length text.items → WantsMemory debugger.old (word.Break rank hart at.now)) }
    ensures fault { IfErr result (λ fault. Refuses debugger.old fault (word.Break rank hart at.now)) }
    ensures stays { IfErr result (λ fault. fault ≢ Memory → debugger.new ≡ debugger.old) }
{
    let pc = address_of(debugger, at)?;
    debugger.regs(rank, hart)?;
    let pcs = stops_of(alloc, debugger, at, pc)?;
    set_breaks(debugger, rank, hart, &pcs)?;
    Ok(Vec::new(alloc))
}

/// Shows a hart.
fn regs(alloc: Global, debugger: &Debugger, rank: u8, hart: u8) -> Result<Vec<u8>, DebugFault>
    ensures does { IfOk result (λ text. TellsRegs debugger.now rank hart debugger.now text.items) }
    ensures wanted { IfOk result (λ text. 0 < length text.items → WantsMemory debugger.now (word.Regs rank hart)) }
    ensures fault { IfErr result (λ fault. Refuses debugger.now fault (word.Regs rank hart)) }
{
    let shown = debugger.regs(rank, hart)?;
    Ok(regs_text(alloc, rank, hart, shown)?)
}

/// Shows a hart, and the calls that led to where it is.
fn frames(alloc: Global, debugger: &Debugger, rank: u8, hart: u8) -> Result<Vec<u8>, DebugFault>
    ensures does { IfOk result (λ text. TellsFrames debugger.now rank hart debugger.now text.items) }
    ensures wanted { IfOk result
        (λ text. 0 < length text.items → WantsMemory debugger.now (word.Frames rank hart)) }
    ensures fault { IfErr result (λ fault. Refuses debugger.now fault (word.Frames rank hart)) }
{
    let shown = debugger.regs(rank, hart)?;
    let owner = debugger.rank(rank)?;
    let symbols = debugger.image().parts().symbols.as_slice();
    Ok(frames_text(alloc, symbols, rank, hart, &owner.memory, shown)?)
}

/// Shows what a rank has put out.
fn output(alloc: Global, debugger: &Debugger, rank: u8) -> Result<Vec<u8>, DebugFault>
    ensures does { IfOk result (λ text. TellsOutput debugger.now rank debugger.now text.items) }
    ensures wanted { IfOk result (λ text. 0 < length text.items → WantsMemory debugger.now (word.Output rank)) }
    ensures fault { IfErr result (λ fault. Refuses debugger.now fault (word.Output rank)) }
{
    let owner = debugger.rank(rank)?;
    Ok(output_text(alloc, rank, owner.out.as_slice())?)
}

/// Shows bytes of a rank's memory.
fn bytes(
    alloc: Global,
    debugger: &Debugger,
    rank: u8,
    at: &Spot,
    count: u64,
) -> Result<Vec<u8>, DebugFault>
    ensures does { IfOk result (λ text. TellsBytes debugger.now rank at.now count debugger.now text.items) }
    ensures wanted { IfOk result
        (λ text. 0 < length text.items → WantsMemory debugger.now (word.Bytes rank at.now count)) }
    ensures fault { IfErr result (λ fault. Refuses debugger.now fault (word.Bytes rank at.now count)) }
{
    let address = address_of(debugger, at)?;
    let shown = debugger.bytes(rank, address, count)?;
    if count == 0 {
        return Ok(Vec::new(alloc));
    }
    Ok(bytes_text(alloc, &shown)?)
}

/// Does a word, and gives its text. One that is refused changes nothing, unless memory was refused.
fn tell(alloc: Global, debugger: &mut Debugger, word: &DebugWord) -> Result<Vec<u8>, DebugFault>
    ensures does { IfOk result (λ text. Does debugger.old word.now debugger.new text.items) }
    ensures wanted { IfOk result (λ text. 0 < length text.items → WantsMemory debugger.old word.now) }
    ensures fault { IfErr result (λ fault. Refuses debugger.old fault word.now) }
    ensures stays { IfErr result (λ fault. fault ≢ Memory → debugger.new ≡ debugger.old) }
{
    match word {
        DebugWord::Go(n) => go(alloc, debugger, *n),
        DebugWord::Step => step(alloc, debugger),
        DebugWord::Back => back(alloc, debugger),
        DebugWord::Run => run(alloc, debugger),
        DebugWord::Place => Ok(tell_place(alloc, debugger)?),
        DebugWord::Break { rank, hart, at } => set_break(alloc, debugger, *rank, *hart, at),
        DebugWord::Regs { rank, hart } => regs(alloc, debugger, *rank, *hart),
        DebugWord::Frames { rank, hart } => frames(alloc, debugger, *rank, *hart),
        DebugWord::Output(rank) => output(alloc, debugger, *rank),
        DebugWord::Bytes { rank, at, count } => bytes(alloc, debugger, *rank, at, *count),
    }
}

/// Does a word, and adds its text. After a refusal the text is as it was.
fn put_word(
    alloc: Global,
    debugger: &mut Debugger,
    text: &mut Vec<u8>,
    word: &DebugWord,
) -> Result<(), DebugFault>
    ensures does { OnOk result ((more : List ℕ) × Does debugger.old word.now debugger.new more
        × (text.new.items ≡ text.old.items ++ more)) }
    ensures unchanged { OnErr result (text.new.items ≡ text.old.items) }
    ensures fault { IfErr result (λ fault. Refuses debugger.old fault word.now) }
    ensures stays { IfErr result (λ fault. fault ≢ Memory → debugger.new ≡ debugger.old) }
{
    let more = tell(alloc, debugger, word)?;
    text.extend_from_slice(&more)?;
    Ok(())
}

/// Does words one after another, up to the first that is refused. The debugger stays where that word was refused; only where
/// memory was refused it may be anywhere.
pub fn tell_all(alloc: Global, debugger: &mut Debugger, words: &[DebugWord]) -> Told
    ensures text { IsTextOfWords debugger.old words.now result.text.items result.fault }
    ensures stops { StopsAt debugger.old words.now debugger.new result.text.items result.fault }
{
    let mut text = Vec::new(alloc);
    for word in words {
        if let Err(fault) = put_word(alloc, debugger, &mut text, word) {
            return Told {
                text,
                fault: Some(fault),
            };
        }
    }
    Told { text, fault: None }
}
