//! Why threads stand.

ghost use Rattle.std.specs.Prelude.{◌≡◌, ◌++◌, OnOk, codes, false};
ghost use Rattle.std.specs.Fmt.{digits};
ghost use Rattle.rvmc_protocol.specs.Replies.Stops.{cause_text, signal_text, stop_text};
ghost use Rattle.rvmc_protocol.specs.Replies.Threads.{thread_number};

use crate::replies::threads::put_thread;
use std::io;
use std::io::Write;

/// Why the threads stand.
#[derive(Clone, Copy)]
pub enum Stop {
    /// A step is done, or nothing moved.
    Step,
    /// A breakpoint.
    Before,
    /// A breakpoint of hardware.
    HardwareBefore,
    /// Bytes at this address were changed.
    Written(u64),
    /// Bytes at this address were read.
    Read(u64),
    /// Bytes at this address were read or changed.
    Touched(u64),
    /// The record's first place.
    Begin,
    /// The record's last place.
    End,
    /// A place that was asked for.
    There,
}

/// Adds a word.
pub(crate) fn put_word(text: &mut Vec<u8>, word: &[u8]) -> io::Result<()>
    ensures { OnOk result (text.new.items ≡ text.old.items ++ word.now) }
{
    text.extend_from_slice(word)?;
    Ok(())
}

/// Adds a word and the address of which it tells.
fn put_touched(text: &mut Vec<u8>, word: &[u8], address: u64) -> io::Result<()>
    ensures { OnOk result (text.new.items
        ≡ text.old.items ++ (word.now ++ digits 16 false address ++ codes ";")) }
{
    text.extend_from_slice(word)?;
    write!(text, "{address:x};")
}

/// Adds why, if there is a cause to tell.
fn put_cause(text: &mut Vec<u8>, stop: Stop) -> io::Result<()>
    ensures { OnOk result (text.new.items ≡ text.old.items ++ cause_text stop) }
{
    match stop {
        Stop::Step | Stop::There => Ok(()),
        Stop::Before => put_word(text, b"swbreak:;"),
        Stop::HardwareBefore => put_word(text, b"hwbreak:;"),
        Stop::Written(address) => put_touched(text, b"watch:", address),
        Stop::Read(address) => put_touched(text, b"rwatch:", address),
        Stop::Touched(address) => put_touched(text, b"awatch:", address),
        Stop::Begin => put_word(text, b"replaylog:begin;"),
        Stop::End => put_word(text, b"replaylog:end;"),
    }
}

/// Adds which thread is meant.
fn put_meant(text: &mut Vec<u8>, thread: u64) -> io::Result<()>
    ensures { OnOk result (text.new.items
        ≡ text.old.items ++ (codes "thread:" ++ thread_number thread ++ codes ";")) }
{
    text.extend_from_slice(b"thread:")?;
    put_thread(text, thread)?;
    text.extend_from_slice(b";")?;
    Ok(())
}

/// Adds the signal: a trap, or none where nothing but a place was asked for.
fn put_signal(text: &mut Vec<u8>, stop: Stop) -> io::Result<()>
    ensures { OnOk result (text.new.items ≡ text.old.items ++ signal_text stop) }
{
    match stop {
        Stop::There => put_word(text, b"T00"),
        Stop::Step
        | Stop::Before
        | Stop::HardwareBefore
        | Stop::Written(_)
        | Stop::Read(_)
        | Stop::Touched(_)
        | Stop::Begin
        | Stop::End => put_word(text, b"T05"),
    }
}

/// Adds that the threads stand, why, and which of them is meant from now on.
pub fn put_stop(text: &mut Vec<u8>, stop: Stop, thread: u64) -> io::Result<()>
    ensures { OnOk result (text.new.items ≡ text.old.items ++ stop_text stop thread) }
{
    put_signal(text, stop)?;
    put_cause(text, stop)?;
    put_meant(text, thread)
}
