//! Lines of words: what is typed, and what is answered.

ghost use Rattle.std.specs.Prelude.{◌≡◌, IfErr, IfOk, List, OnOk, ℕ};
ghost use Rattle.std.specs.Io.KnownBytes.{Appends, Keeps};
ghost use Rattle.rvmc_serve.specs.Lines.{AnswersLine, DebugsLine, IsTold, refusal_text, typed_byte, unknown_words_text};
ghost use Rattle.rvmc_serve.specs.Serving.{CutsShort};

use crate::serving::put;
use cl_debug::{DebugFault, Debugger};
use rvmc_gdb::faults::Fault;
use rvmc_gdb::{refusal, tell_all};
use rvmc_protocol::monitor::words_in;
use rvmc_words::DebugWords;
use std::alloc::{AllocError, Global};
use std::io::Write;
use std::marker::Model;

/// What is printed for a line with a text that is no word.
const UNKNOWN: &[u8] = b"rvmc: no such word: rvmc debug --help lists them\n";

/// A byte as it is taken: a tab and a carriage return are blanks.
fn typed_byte(byte: u8) -> u8
    ensures { result ≡ typed_byte byte }
{
    if byte == b'\t' || byte == b'\r' {
        b' '
    } else {
        byte
    }
}

/// What is printed behind the texts of the words.
fn refusal_text(alloc: Global, fault: Option<DebugFault>) -> Result<Vec<u8>, AllocError>
    ensures told { IfOk result (λ text. text.items ≡ refusal_text fault) }
    ensures answer { OnOk result (IsTold fault) }
{
    match fault {
        None => Ok(Vec::new(alloc)),
        Some(fault) => refusal(alloc, fault),
    }
}

/// Does the words of a line, and gives what they print.
fn debugged(
    alloc: Global,
    debugger: &mut Debugger,
    words: &DebugWords,
) -> Result<Vec<u8>, AllocError>
    ensures { IfOk result (λ text. DebugsLine debugger.old words.now debugger.new text.items) }
{
    let told = tell_all(alloc, debugger, words.as_slice());
    let mut text = told.text;
    let refused = refusal_text(alloc, told.fault)?;
    text.extend_from_slice(&refused)?;
    Ok(text)
}

/// Answers a line.
fn answer(alloc: Global, debugger: &mut Debugger, line: &[u8]) -> Result<Vec<u8>, AllocError>
    ensures { IfOk result (λ text. AnswersLine debugger.old line.now debugger.new text.items) }
{
    match words_in(alloc, line)? {
        Some(words) => debugged(alloc, debugger, &words),
        None => Vec::from_slice(alloc, UNKNOWN),
    }
}

/// A record that is walked through by lines, and what there is of a line. Contracts see the debugger and these bytes.
#[derive(Drop)]
pub(crate) struct Typing {
    alloc: Global,
    debugger: Debugger,
    line: Vec<u8>,
}

impl Model for Typing {
    ghost use Rattle.rvmc_serve.specs.Typing.{Typed};

    ghost Value = { Typed };

    ghost view = { λ t. record { debugging = t.debugger; line = t.line.items } };
}

impl Typing {
    ghost use Rattle.rvmc_serve.specs.Typing.{EndsLine, HearsSome, Takes, TakesAll, begun};

    /// A debugger, with nothing typed yet.
    pub(crate) fn new(alloc: Global, debugger: Debugger) -> Typing
        ensures { result ≡ begun debugger }
    {
        Typing {
            alloc,
            debugger,
            line: Vec::new(alloc),
        }
    }

    /// Ends the line, and writes its answer at once.
    pub(crate) fn end_line<W: Write>(&mut self, out: &mut W) -> Result<(), Fault>
        ensures ends { OnOk result ((text : List ℕ) × EndsLine self.old self.new text
            × Appends (W.contents out.old) (W.contents out.new) text) }
        ensures cut { IfErr result (λ fault. CutsShort fault (Keeps (W.contents out.old) (W.contents out.new))) }
    {
        let text = answer(self.alloc, &mut self.debugger, self.line.as_slice())?;
        self.line.clear();
        put(out, text.as_slice())
    }

    /// Takes a byte: a newline ends the line.
    fn take<W: Write>(&mut self, byte: u8, out: &mut W) -> Result<(), Fault>
        ensures takes { OnOk result ((text : List ℕ) × Takes self.old byte self.new text
            × Appends (W.contents out.old) (W.contents out.new) text) }
        ensures cut { IfErr result (λ fault. CutsShort fault (Keeps (W.contents out.old) (W.contents out.new))) }
    {
        let byte = typed_byte(byte);
        if byte == b'\n' {
            return self.end_line(out);
        }
        self.line.push(byte)?;
        Ok(())
    }

    /// Takes further bytes, and writes the answer to each line that ends in them at once.
    pub(crate) fn take_all<W: Write>(&mut self, bytes: &[u8], out: &mut W) -> Result<(), Fault>
        ensures takes { OnOk result ((text : List ℕ) × TakesAll self.old bytes.now self.new text
            × Appends (W.contents out.old) (W.contents out.new) text) }
        ensures cut { IfErr result (λ fault. CutsShort fault ((text : List ℕ) × HearsSome self.old bytes.now text
            × Appends (W.contents out.old) (W.contents out.new) text)) }
    {
        for byte in bytes {
            self.take(*byte, out)?;
        }
        Ok(())
    }
}
