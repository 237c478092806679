//! rvmc: an emulator of a small cluster of RISC-V machines that pass messages.
#![tactic(auto)]

mod reading;
mod writing;

use crate::reading::{Source, opened};
use crate::writing::{Output, Sink, created};
use rvmc_cli::{Named, named_in, parse};
use rvmc_line::{CommandLine, ParseFault, RecordCommand};
use rvmc_tool::{tell_wait, tool};
use std::alloc::{AllocError, Global};
use std::io::{self, BufWriter, IsTerminal};
use std::process::ExitCode;
use std::sync::Wait;
use std::thread::Threads;

/// The words after the program's name.
fn words(rt: &HostRuntime) -> io::Result<Vec<String>> {
    Ok(std::env::args(rt)?.skip(1).collect(rt.alloc())?)
}

/// The words as they are passed on.
fn texts<'a>(alloc: Global, words: &'a [String]) -> Result<Vec<&'a str>, AllocError> {
    let mut texts = Vec::new(alloc);
    for word in words {
        texts.push(word.as_str())?;
    }
    Ok(texts)
}

/// The program on these words, with threads of this runtime. The room in which its output is gathered is taken before
/// anything is read, so that a record, which is written in small pieces, asks for none.
fn answered<R: Threads + Wait + Sync>(
    rt: &HostRuntime,
    threads: &R,
    words: &[&str],
    input: Source,
    sink: Sink,
) -> io::Result<u8> {
    let mut input = input;
    let mut out = BufWriter::new(rt.alloc(), sink)?;
    Ok(tool(
        threads,
        rt.alloc(),
        words,
        &mut input,
        &mut out,
        &mut rt.stderr(),
    ))
}

/// Whether a command goes on to read standard input behind a file that is named for it.
fn reads_on(line: &CommandLine) -> bool {
    matches!(line, CommandLine::Session { .. } | CommandLine::WordSession)
}

/// Whether a command answers with status 1 where there is no fault, as `check` does by `bad N`.
fn may_answer_bad(line: &CommandLine) -> bool {
    matches!(line, CommandLine::OfRecord(RecordCommand::Check))
}

/// Tells on a terminal what a command that reads it waits for.
fn tell_terminal(rt: &HostRuntime, line: &CommandLine, input: &Source) {
    if input.reads_on() && rt.stdin().is_terminal() {
        tell_wait(line, input.is_file(), &mut rt.stderr());
    }
}

/// Tells that a file can't be opened or written, and why, and gives the status of that.
fn refuse_file(rt: &HostRuntime, name: &str, error: &io::Error) -> u8 {
    match eprintln!(rt; "rvmc: {name}: {error}") {
        Ok(()) => 6,
        Err(_) => 6,
    }
}

/// The program on words that are a command line, with the file that is to be written.
fn run_into<R: Threads + Wait + Sync>(
    rt: &HostRuntime,
    threads: &R,
    words: &[&str],
    line: &CommandLine,
    input: Source,
    name: &str,
) -> io::Result<u8> {
    let (output, sink) = match created(rt, name) {
        Ok(created) => created,
        Err(error) => return Ok(refuse_file(rt, name, &error)),
    };
    let status = answered(rt, threads, words, input, sink);
    let kept = match &status {
        Ok(status) => output.done(rt, *status, may_answer_bad(line)),
        Err(_) => output.done(rt, 5, false),
    };
    match kept {
        Ok(()) => status,
        Err(error) => Ok(refuse_file(rt, name, &error)),
    }
}

/// The program on words that are a command line, with the files that were named beside it.
fn run_line<R: Threads + Wait + Sync>(
    rt: &HostRuntime,
    threads: &R,
    named: &Named<'_>,
    line: &CommandLine,
) -> io::Result<u8> {
    let words = named.words.as_slice();
    let input = match opened(rt, named.file, reads_on(line)) {
        Ok(input) => input,
        Err(error) => return Ok(refuse_file(rt, named.file.unwrap_or(""), &error)),
    };
    tell_terminal(rt, line, &input);
    match named.output {
        Some(name) => run_into(rt, threads, words, line, input, name),
        None => answered(rt, threads, words, input, Sink::Output(rt.stdout())),
    }
}

/// The program on the process's words, streams and files, with threads of this runtime. A file is opened only for words
/// that are a command line.
fn run<R: Threads + Wait + Sync>(rt: &HostRuntime, threads: &R) -> io::Result<u8> {
    let words = words(rt)?;
    let texts = texts(rt.alloc(), &words)?;
    let named = named_in(rt.alloc(), &texts)?;
    match parse(rt.alloc(), named.words.as_slice()) {
        Ok(line) => run_line(rt, threads, &named, &line),
        // without memory it isn't known what the words are, and nothing may be read in place of a file
        Err(ParseFault::Memory) => Err(io::Error::from(io::ErrorKind::OutOfMemory)),
        Err(_) => answered(
            rt,
            threads,
            named.words.as_slice(),
            Source::Input(rt.stdin()),
            Sink::Output(rt.stdout()),
        ),
    }
}

/// Tells on standard error why the program couldn't begin, and gives the status: 2 where a word isn't UTF-8, which no
/// command line takes, 5 for want of memory, 6 where the line can't be written.
fn refuse_to_begin(rt: &HostRuntime, error: &io::Error) -> u8 {
    let (line, status) = match error.kind() {
        io::ErrorKind::InvalidData => (
            "error: invalid UTF-8 was detected in one or more arguments",
            2,
        ),
        _ => ("rvmc: memory", 5),
    };
    match eprintln!(rt; "{line}") {
        Ok(()) => status,
        Err(_) => 6,
    }
}

fn main(rt: HostRuntime) -> ExitCode {
    let status = match run(&rt, &rt) {
        Ok(status) => status,
        Err(error) => refuse_to_begin(&rt, &error),
    };
    ExitCode::from(status)
}
