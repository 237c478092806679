//! The session of a record and of lines behind it.

ghost use Rattle.std.specs.Prelude.{◌≡◌, ◌≢◌, ◌+◌, ◌++◌, IfErr, IfOk, List, None, Option, Some, ⊤, ℕ};
ghost use Rattle.std.specs.Io.KnownBytes.{Appends};
ghost use Rattle.cl_text.specs.Reading.{reading_record};
ghost use Rattle.rvmc_gdb.specs.Below.{TakesAtMost};
ghost use Rattle.rvmc_gdb.specs.Below.faults;
ghost use Rattle.rvmc_serve.specs.Lines.{IsWordSession};
ghost use Rattle.rvmc_serve.specs.Serving.{CutsShort, IsFaultOf};
ghost use Rattle.rvmc_serve.specs.Typing.{HearsAll, HearsSome, IsBegunAs};

use crate::serving::{MOST, Refused, front_of};
use crate::typing::Typing;
use cl_debug::Debugger;
use cl_text::front::Front;
use cl_text::read_record;
use rvmc_gdb::faults::Fault;
use std::alloc::Global;
use std::io::{Read, Write};

/// The record that bytes spell, before its first step. The fault is that of the record, `NotARun` where its steps are no run
/// of its image, or `Memory`.
#[tactic(auto, using(crate::proofs::Typed::is_begun, crate::proofs::Opening::no_run, crate::proofs::Opening::unread))]
fn begun(alloc: Global, bytes: &[u8]) -> Result<Typing, Fault>
    ensures begun { IfOk result (IsBegunAs (reading_record bytes.now)) }
    ensures fault { IfErr result (IsFaultOf None (reading_record bytes.now)) }
{
    let (image, steps) = read_record(alloc, bytes)?;
    let debugger = Debugger::open(alloc, image, steps)?;
    Ok(Typing::new(alloc, debugger))
}

/// The same, with the bytes beside the fault.
fn begun_or_kept(alloc: Global, bytes: Vec<u8>) -> Result<Typing, Refused>
    ensures begun { IfOk result (IsBegunAs (reading_record bytes.items)) }
    ensures fault { IfErr result (λ refused. IsFaultOf None (reading_record bytes.items) refused.fault) }
    ensures kept { IfErr result (λ refused. refused.bytes.items ≡ bytes.items) }
{
    match begun(alloc, bytes.as_slice()) {
        Ok(typing) => Ok(typing),
        Err(fault) => Err(Refused { fault, bytes }),
    }
}

/// Answers what was read already, and then the rest of an input, which is read in pieces of 4,096 bytes at most, to its end,
/// which ends the last line. `Read` comes where a read fails, and where more bytes than `most` are read, or more than
/// 67,108,865 times.
fn answered<I: Read, O: Write>(
    typing: &mut Typing,
    first: &[u8],
    most: usize,
    input: &mut I,
    out: &mut O,
) -> Result<(), Fault>
    ensures whole { (bytes : List ℕ) → I.remaining input.old ≡ Some bytes → IfOk result (λ _.
        (text : List ℕ) × HearsAll typing.old (first.now ++ bytes) text
        × Appends (O.contents out.old) (O.contents out.new) text) }
    ensures cut { (bytes : List ℕ) → I.remaining input.old ≡ Some bytes → IfErr result (λ fault.
        CutsShort fault ((text : List ℕ) × HearsSome typing.old (first.now ++ bytes) text
        × Appends (O.contents out.old) (O.contents out.new) text)) }
    ensures fault { IfErr result (λ fault. CutsShort fault ⊤) }
    ensures front { TakesAtMost (most + 4096) (I.remaining input.old) (I.remaining input.new) }
{
    typing.take_all(first, out)?;
    let mut left = most;
    let mut buffer = [0u8; 4096];
    for _ in 0..=MOST {
        let Ok(count) = input.read(&mut buffer) else {
            return Err(Fault::Read);
        };
        if count == 0 {
            return typing.end_line(out);
        }
        if count > left {
            return Err(Fault::Read);
        }
        left -= count;
        typing.take_all(&buffer[..count], out)?;
    }
    Err(Fault::Read)
}

/// The same; a fault stands beside no bytes.
fn answered_or_refused<I: Read, O: Write>(
    alloc: Global,
    typing: &mut Typing,
    first: &[u8],
    most: usize,
    input: &mut I,
    out: &mut O,
) -> Result<(), Refused>
    ensures whole { (bytes : List ℕ) → I.remaining input.old ≡ Some bytes → IfOk result (λ _.
        (text : List ℕ) × HearsAll typing.old (first.now ++ bytes) text
        × Appends (O.contents out.old) (O.contents out.new) text) }
    ensures cut { (bytes : List ℕ) → I.remaining input.old ≡ Some bytes → IfErr result (λ refused.
        CutsShort refused.fault ((text : List ℕ) × HearsSome typing.old (first.now ++ bytes) text
        × Appends (O.contents out.old) (O.contents out.new) text)) }
    ensures fault { IfErr result (λ refused. CutsShort refused.fault ⊤) }
    ensures front { TakesAtMost (most + 4096) (I.remaining input.old) (I.remaining input.new) }
{
    match answered(typing, first, most, input, out) {
        Ok(()) => Ok(()),
        Err(fault) => Err(Refused {
            fault,
            bytes: Vec::new(alloc),
        }),
    }
}

/// Serves a person who walks through a record by the words of `debug`: the input is a record, and behind it lines of words.
/// Each line is answered on the output at once, with what `debug` prints for its words from where the line before left off;
/// breaks stay. Where a word is refused, its fault is the last line of the answer; a line with a text that is no word does
/// nothing, and its answer says so. The session ends with the input, whose last line needs no newline.
///
/// The fault is that of the record, which decides at the byte where it is known; `Debug` with `NotARun`, where its steps are
/// no run of its image; `Memory` where memory is refused; `Read` where a read fails, where there are more than 67,108,864
/// bytes, the record's among them, or more reads than so many and one; and `Write` where a write fails.
pub fn serve_words<I: Read, O: Write>(
    alloc: Global,
    input: &mut I,
    out: &mut O,
) -> Result<(), Refused>
    // What is written is the answers to all lines.
    ensures served { (bytes : List ℕ) → I.remaining input.old ≡ Some bytes → IfOk result (λ _.
        (text : List ℕ) × IsWordSession bytes text None
        × Appends (O.contents out.old) (O.contents out.new) text) }
    // Nothing, where there is no session; or the answers to the first lines, where it was cut short.
    ensures refused { (bytes : List ℕ) → I.remaining input.old ≡ Some bytes → IfErr result (λ refused.
        refused.fault ≢ faults.Write → (text : List ℕ) × IsWordSession bytes text (Some refused.fault)
        × Appends (O.contents out.old) (O.contents out.new) text) }
    // The bytes beside a fault of a record are those that have it.
    ensures hint { IfErr result (λ refused. IsFaultOf None (reading_record refused.bytes.items) refused.fault) }

    // Whatever is answered: bytes are taken from the front alone, and 4,096 beyond the limit at most.
    ensures front { TakesAtMost 67112960 (I.remaining input.old) (I.remaining input.new) }
{
    let Front { record, behind } = match front_of(alloc, input) {
        Ok(front) => front,
        Err(refused) => return Err(refused),
    };
    let most = MOST - record.len() - behind.len();
    let mut typing = match begun_or_kept(alloc, record) {
        Ok(typing) => typing,
        Err(refused) => return Err(refused),
    };
    answered_or_refused(alloc, &mut typing, behind.as_slice(), most, input, out)
}
