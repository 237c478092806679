//! The program over any reader and writers.

ghost use Rattle.std.specs.Prelude.{◌≡◌, ◌≢◌, IfErr, IfOk, List, OnOk, ℕ, None, Ok, Some, false, map, true};
ghost use Rattle.std.specs.Io.KnownBytes.{Appends, Keeps};
ghost use Rattle.rvmc_tool.specs.Made.{is_written_as_made};
ghost use Rattle.rvmc_tool.specs.Making.{needs_threads};
ghost use Rattle.rvmc_answers.specs.Outputs.{output_bytes};
ghost use Rattle.rvmc_cli.specs.Meaning.{meaning_of};
ghost use Rattle.rvmc_line.specs.declared.line.CommandLine.{CommandLine as Line};
ghost use Rattle.rvmc_tool.specs.Tool.{Answers, RefusesWords, ShowsFault};
ghost use Rattle.rvmc_advice.specs.Quiet.{is_quiet};
ghost use Rattle.rvmc_tool.specs.Plain.{IsWhole, plain_meaning_of, RefusesPlain, Tells};
ghost use Rattle.rvmc_tool.specs.Progress.{TellsQuietly, want_progress, wants_progress};
ghost use Rattle.rvmc_hints.specs.HintLines.{AppendsHint};
ghost use Rattle.rvmc_answers.specs.Below.{TakesAtMost};

use crate::answers::answer;
use crate::exploring::Search;
use crate::made::{explored, listed, paged};
use crate::sessions::{served, served_words};
use rvmc_advice::{fail, fail_to_read, fail_with_hint, hint_words, tell_run_hint};
use rvmc_answers::faults::Fault;
use rvmc_answers::input::{InputFault, read_input};
use rvmc_answers::{Answer, End, Output};
use rvmc_cli::parse;
use rvmc_line::{CommandLine, ImageCommand, ParseFault, RecordCommand};
use rvmc_runs::{MaybeThreads, NoThreads};
use rvmc_views::Wanted;
use std::alloc::Global;
use std::io::{Read, Write};
use std::sync::Wait;
use std::thread::Threads;

/// Writes a text, and tells whether the writer took all of it.
fn put<W: Write>(out: &mut W, text: &[u8]) -> bool
    ensures { result ≡ true → Appends (W.contents out.old) (W.contents out.new) text.now }
{
    out.write_all(text).is_ok() && out.flush().is_ok()
}

/// Writes a text on standard output with this status, or else tells that a write failed.
fn finish<O: Write, E: Write>(text: &[u8], status: u8, out: &mut O, err: &mut E) -> u8
    ensures written { result ≢ 6 → Appends (O.contents out.old) (O.contents out.new) text.now }
    ensures status { result ≢ 6 → result ≡ status }
    ensures quiet { is_quiet result ≡ true → Keeps (E.contents err.old) (E.contents err.new) }
{
    if put(out, text) {
        status
    } else {
        fail(err, Fault::Write)
    }
}

/// Writes an output, and tells whether the writer took all of it. No memory is asked for here: a record is written in
/// pieces.
fn put_output<W: Write>(out: &mut W, output: &Output) -> bool
    ensures { result ≡ true → Appends (W.contents out.old) (W.contents out.new) (output_bytes output.now) }
{
    match output {
        Output::Text(text) | Output::Waiting(text) | Output::Spent(text) => put(out, text),
        Output::Record(text) | Output::SpentRecord(text) => text.put(out).is_ok()
            && out.flush().is_ok(),
    }
}

/// The status of an output that a writer took, with a hint beside it where there is one, or else tells that a write
/// failed. A hint changes no status.
fn ended_with_hint<E: Write>(
    alloc: Global,
    line: &CommandLine,
    output: &Output,
    taken: bool,
    status: u8,
    err: &mut E,
) -> u8
    ensures taken { result ≢ 6 → taken ≡ true }
    ensures status { result ≢ 6 → result ≡ status }
    ensures quiet { is_quiet result ≡ true → AppendsHint (E.contents err.old) (E.contents err.new) }
{
    if taken {
        tell_run_hint(alloc, line, output, status, err);
        status
    } else {
        fail(err, Fault::Write)
    }
}

/// All bytes of the input, or the status of the fault that was told in their place.
pub(crate) fn take<I: Read, E: Write>(
    alloc: Global,
    input: &mut I,
    err: &mut E,
) -> Result<Vec<u8>, u8>
    ensures whole { IfOk result (λ bytes. IsWhole (I.remaining input.old) bytes.items) }
    ensures status { IfErr result (λ status. status ≢ 6 → status ≡ 5) }
    ensures loud { IfErr result (λ status. is_quiet status ≡ false) }
    ensures quiet { OnOk result (Keeps (E.contents err.old) (E.contents err.new)) }
    ensures front { TakesAtMost 67112960 (I.remaining input.old) (I.remaining input.new) }
{
    match read_input(alloc, input) {
        Ok(bytes) => Ok(bytes),
        Err(InputFault::Read) => Err(fail_to_read(err)),
        Err(InputFault::Memory) => Err(fail(err, Fault::Memory)),
    }
}

/// Writes an answer to what stands in the input on standard output, and tells on standard error the fault that cuts it
/// short.
fn tell_answer<O: Write, E: Write>(
    alloc: Global,
    line: &CommandLine,
    bytes: &[u8],
    answer: &Answer,
    out: &mut O,
    err: &mut E,
) -> u8
    ensures told { result ≢ 6 → Tells (Ok answer.now) result (O.contents out.old) (O.contents out.new) }
    ensures quiet { is_quiet result ≡ true → AppendsHint (E.contents err.old) (E.contents err.new) }
{
    let taken = put_output(out, &answer.output);
    match answer.end {
        End::Status(status) => { ended_with_hint(alloc, line, &answer.output, taken, status, err) }
        End::Cut(fault) => {
            if taken {
                fail_with_hint(alloc, line, bytes, fault, err)
            } else {
                fail(err, Fault::Write)
            }
        }
    }
}

/// Writes such an answer, or tells the fault that is in its place.
fn tell<O: Write, E: Write>(
    alloc: Global,
    line: &CommandLine,
    bytes: &[u8],
    answer: Result<Answer, Fault>,
    out: &mut O,
    err: &mut E,
) -> u8
    ensures told { result ≢ 6 → Tells answer result (O.contents out.old) (O.contents out.new) }
    ensures quiet { is_quiet result ≡ true → AppendsHint (E.contents err.old) (E.contents err.new) }
{
    match answer {
        Ok(answer) => tell_answer(alloc, line, bytes, &answer, out, err),
        Err(fault) => fail_with_hint(alloc, line, bytes, fault, err),
    }
}

/// Reads all of the input, and writes what a command line answers to it.
#[tactic(auto, using(crate::proofs::Aloud::hint_alone, crate::proofs::Aloud::hint_behind))]
fn answered<R: MaybeThreads, I: Read, O: Write, E: Write>(
    rt: &R,
    alloc: Global,
    line: &CommandLine,
    input: &mut I,
    out: &mut O,
    err: &mut E,
) -> u8
    requires threads { R.may_ask }
    requires whole { is_written_as_made line.now ≡ false }
    ensures answers { (bytes : List ℕ) → I.remaining input.old ≡ Some bytes → result ≢ 6
        → Answers line.now bytes result (O.contents out.old) (O.contents out.new) }
    ensures front { TakesAtMost 67112960 (I.remaining input.old) (I.remaining input.new) }
    ensures quiet { is_quiet result ≡ true
        → TellsQuietly (wants_progress line.now) (E.contents err.old) (E.contents err.new) }
{
    match take(alloc, input, err) {
        Ok(bytes) => {
            let whole = bytes.as_slice();
            let answer = answer(rt, alloc, line, whole, err);
            tell(alloc, line, whole, answer, out, err)
        }
        Err(status) => status,
    }
}

/// Does what a command line asks for. A session is answered as its input comes, a list and a page are written step by step,
/// and outcomes as they are found; what else is answered is read first, and written as a whole.
#[tactic(auto, using(crate::proofs::Aloud::hint_alone))]
fn obey<R: MaybeThreads, I: Read, O: Write, E: Write>(
    rt: &R,
    alloc: Global,
    line: &CommandLine,
    input: &mut I,
    out: &mut O,
    err: &mut E,
) -> u8
    requires { R.may_ask }
    ensures answers { (bytes : List ℕ) → I.remaining input.old ≡ Some bytes → result ≢ 6
        → Answers line.now bytes result (O.contents out.old) (O.contents out.new) }
    ensures front { TakesAtMost 67112960 (I.remaining input.old) (I.remaining input.new) }
    ensures quiet { is_quiet result ≡ true
        → TellsQuietly (wants_progress line.now) (E.contents err.old) (E.contents err.new) }
{
    match line {
        CommandLine::OfImage {
            source,
            command: ImageCommand::Explore {
                plan,
                states,
                turns,
                record: None,
                buffered,
                progress,
            },
        } => {
            let wanted = Search {
                harts: plan,
                states: *states,
                turns: *turns,
                buffered: *buffered,
                progress: *progress,
            };
            explored(alloc, line, *source, &wanted, input, out, err)
        }
        CommandLine::Session { rank } => served(alloc, line, *rank, input, out, err),
        CommandLine::WordSession => served_words(alloc, line, input, out, err),
        CommandLine::OfRecord(
            RecordCommand::List {
                from,
                to,
                rank,
                calls,
            },
        ) => {
            let wanted = Wanted {
                from: *from,
                to: *to,
                rank: *rank,
                calls: *calls,
            };
            listed(alloc, line, &wanted, input, out, err)
        }
        CommandLine::OfRecord(RecordCommand::Page { from, to, texts }) => {
            paged(alloc, line, *from, *to, texts, input, out, err)
        }
        _ => answered(rt, alloc, line, input, out, err),
    }
}

/// Tells why words are refused, with a hint behind it where there is one.
fn refuse<E: Write>(alloc: Global, words: &[&str], text: &str, err: &mut E) -> u8
    ensures status { result ≢ 6 → result ≡ 2 }
    ensures loud { is_quiet result ≡ false }
{
    if !put(err, text.as_bytes()) {
        return Fault::Write.status();
    }
    hint_words(alloc, words, text, err);
    2
}

/// Shows what there is in place of a command line.
#[tactic(auto, using(rvmc_advice::proofs::Quiet::unhinted))]
fn show<O: Write, E: Write>(
    alloc: Global,
    words: &[&str],
    fault: &ParseFault,
    out: &mut O,
    err: &mut E,
) -> u8
    ensures shows { result ≢ 6 → ShowsFault fault.now result (O.contents out.old) (O.contents out.new) }
    ensures quiet { is_quiet result ≡ true → AppendsHint (E.contents err.old) (E.contents err.new) }
{
    match fault {
        ParseFault::Memory => fail(err, Fault::Memory),
        ParseFault::Asked(text) => finish(text.as_bytes(), 0, out, err),
        ParseFault::Refused(text) => refuse(alloc, words, text, err),
    }
}

/// Whether a command line needs threads: `run` does.
fn needs_threads(line: &CommandLine) -> bool
    ensures { result ≡ needs_threads line.now }
{
    matches!(
        line,
        CommandLine::OfImage {
            command: ImageCommand::Run { .. } | ImageCommand::RunUntilStuck { .. },
            ..
        }
    )
}

/// Refuses a command that needs threads.
fn refuse_threads<E: Write>(err: &mut E) -> u8
    ensures status { result ≢ 6 → result ≡ 2 }
    ensures loud { is_quiet result ≡ false }
{
    let line = b"error: 'run' needs threads, and there are none here; `rvmc one` needs none\n";
    if put(err, line) {
        2
    } else {
        Fault::Write.status()
    }
}

/// The whole program: `words` are those of the command line after the program's name. The result is its status:
/// 0 done, 1 a fault of the input, 2 of the command line, 3 a hart trapped, 4 a rank was stopped by its budget, a full
/// clock or too many calls, 5 memory or a thread was refused, 6 a read or a write failed. A fault stands as one line on
/// `err`, behind which a hint may stand, or as much of it as could be written: it changes nothing else.
///
/// `run` waits for its threads and for the lock between them: what is promised of it holds if it returns. Any other
/// command does as `tool_plain` does.
pub fn tool<'a, R: Threads + Wait + Sync, I: Read, O: Write, E: Write>(
    rt: &R,
    alloc: Global,
    words: &'a [&'a str],
    input: &mut I,
    out: &mut O,
    err: &mut E,
) -> u8
    // The words mean a command line: what it says of all the bytes stands on the output, or nothing: for want of memory
    // or of a thread, or where the threads left what doesn't fit together; for want of memory also, of `list` and `page` a
    // beginning, and of `explore` the outcomes that were found.
    ensures answers { (line : Line) (bytes : List ℕ) → meaning_of (map (λ w. w.now) words.entry.now) ≡ Some line
        → I.remaining input.old ≡ Some bytes → result ≢ 6
        → Answers line bytes result (O.contents out.old) (O.contents out.new) }

    // They mean none: nothing is read, and the output is as it was but for help and the version.
    ensures refuses { meaning_of (map (λ w. w.now) words.entry.now) ≡ None → result ≢ 6
        → RefusesWords (map (λ w. w.now) words.entry.now) result (O.contents out.old) (O.contents out.new) }
    ensures unread { meaning_of (map (λ w. w.now) words.entry.now) ≡ None
        → Keeps (I.remaining input.old) (I.remaining input.new) }

    // Whatever is answered: the input loses bytes from its front alone, and 4,096 beyond the limit at most; and with
    // the statuses 0, 3, 4 and 7 standard error gets nothing but one line that begins with `hint: `, or none, and before it
    // the lines that say how far a search came, where those are asked for.
    ensures front { TakesAtMost 67112960 (I.remaining input.old) (I.remaining input.new) }
    ensures quiet { is_quiet result ≡ true
        → TellsQuietly (want_progress (meaning_of (map (λ w. w.now) words.entry.now))) (E.contents err.old) (E.contents err.new) }
{
    match parse(alloc, words) {
        Ok(line) => obey(rt, alloc, &line, input, out, err),
        Err(fault) => show(alloc, words, &fault, out, err),
    }
}

/// The whole program without threads: it never waits, and `run` is a fault of the command line (status 2), found before
/// anything is read.
pub fn tool_plain<'a, I: Read, O: Write, E: Write>(
    alloc: Global,
    words: &'a [&'a str],
    input: &mut I,
    out: &mut O,
    err: &mut E,
) -> u8
    // As `tool` does, where the words mean a command line that needs no threads.
    ensures answers { (line : Line) (bytes : List ℕ) → plain_meaning_of (map (λ w. w.now) words.entry.now) ≡ Some line
        → I.remaining input.old ≡ Some bytes → result ≢ 6
        → Answers line bytes result (O.contents out.old) (O.contents out.new) }

    // They mean none: nothing is read, and the output is as it was but for help and the version.
    ensures refuses { plain_meaning_of (map (λ w. w.now) words.entry.now) ≡ None → result ≢ 6
        → RefusesPlain (map (λ w. w.now) words.entry.now) result (O.contents out.old) (O.contents out.new) }
    ensures unread { plain_meaning_of (map (λ w. w.now) words.entry.now) ≡ None
        → Keeps (I.remaining input.old) (I.remaining input.new) }

    // Whatever is answered.
    ensures front { TakesAtMost 67112960 (I.remaining input.old) (I.remaining input.new) }
    ensures quiet { is_quiet result ≡ true
        → TellsQuietly (want_progress (plain_meaning_of (map (λ w. w.now) words.entry.now))) (E.contents err.old) (E.contents err.new) }
{
    match parse(alloc, words) {
        Ok(line) => {
            if needs_threads(&line) {
                refuse_threads(err)
            } else {
                obey(&NoThreads, alloc, &line, input, out, err)
            }
        }
        Err(fault) => show(alloc, words, &fault, out, err),
    }
}
