//! Threads, and what the server can do.

ghost use Rattle.std.specs.Prelude.{◌≡◌, ◌++◌, OnOk, codes};
ghost use Rattle.std.specs.List.{flat_map};
ghost use Rattle.rvmc_protocol.specs.Replies.Threads.{current_text, host_text, most_text, name_text, named_head, named_text, names_text, process_text};
ghost use Rattle.rvmc_protocol.specs.Replies.Threads.{supported_text, thread_number, threads_text, xml_byte};

use crate::replies::stops::put_word;
use std::io;
use std::io::Write;

/// Adds what any server of a record can do, and how long the text of a packet may be.
fn put_most(text: &mut Vec<u8>, most: u64) -> io::Result<()>
    ensures { OnOk result (text.new.items ≡ text.old.items ++ most_text most) }
{
    write!(
        text,
        "PacketSize={most:x};qXfer:features:read+;ReverseStep+;ReverseContinue+;vContSupported+;QStartNoAckMode+;swbreak+;hwbreak+"
    )
}

/// Adds that threads are listed by names, if they are.
fn put_names(text: &mut Vec<u8>, named: bool) -> io::Result<()>
    ensures { OnOk result (text.new.items ≡ text.old.items ++ names_text named) }
{
    match named {
        true => put_word(text, b";qXfer:threads:read+"),
        false => Ok(()),
    }
}

/// Adds what the server can do, how long the text of a packet may be, and with `named` that it lists threads by names.
pub fn put_supported(text: &mut Vec<u8>, most: u64, named: bool) -> io::Result<()>
    ensures { OnOk result (text.new.items ≡ text.old.items ++ supported_text most named) }
{
    put_most(text, most)?;
    put_names(text, named)
}

/// Adds what the threads run on, as LLDB asks for it.
pub fn put_host(text: &mut Vec<u8>) -> io::Result<()>
    ensures { OnOk result (text.new.items ≡ text.old.items ++ host_text) }
{
    put_word(
        text,
        b"triple:726973637636342d756e6b6e6f776e2d656c66;endian:little;ptrsize:8;",
    )
}

/// Adds the process, and what it runs on, as LLDB asks for it.
pub fn put_process(text: &mut Vec<u8>) -> io::Result<()>
    ensures { OnOk result (text.new.items ≡ text.old.items ++ process_text) }
{
    put_word(text, b"pid:1;")?;
    put_host(text)
}

/// Adds the number of a thread.
pub(crate) fn put_thread(text: &mut Vec<u8>, thread: u64) -> io::Result<()>
    ensures { OnOk result (text.new.items ≡ text.old.items ++ thread_number thread) }
{
    write!(text, "{thread:x}")
}

/// Adds the thread that is meant.
pub fn put_current(text: &mut Vec<u8>, thread: u64) -> io::Result<()>
    ensures { OnOk result (text.new.items ≡ text.old.items ++ current_text thread) }
{
    text.extend_from_slice(b"QC")?;
    put_thread(text, thread)
}

/// Adds so many threads, from 1 on.
pub fn put_threads(text: &mut Vec<u8>, count: u64) -> io::Result<()>
    ensures { OnOk result (text.new.items ≡ text.old.items ++ threads_text count) }
{
    text.extend_from_slice(b"m1")?;
    for further in 0..count.saturating_sub(1) {
        text.extend_from_slice(b",")?;
        put_thread(text, further + 2)?;
    }
    Ok(())
}

/// Adds the name of a hart's thread.
pub fn put_name(text: &mut Vec<u8>, rank: u8, hart: u8) -> io::Result<()>
    ensures { OnOk result (text.new.items ≡ text.old.items ++ name_text rank hart) }
{
    write!(text, "rank {rank} hart {hart}")
}

/// Adds a byte as it stands in a text of XML.
#[tactic(auto, unfolding(crate::specs::Replies::Threads::xml_byte))]
fn put_xml_byte(text: &mut Vec<u8>, byte: u8) -> io::Result<()>
    ensures { OnOk result (text.new.items ≡ text.old.items ++ xml_byte byte) }
{
    match byte {
        b'<' => put_word(text, b"&lt;"),
        b'>' => put_word(text, b"&gt;"),
        b'&' => put_word(text, b"&amp;"),
        b' '..=b'~' => put_word(text, &[byte]),
        _ => put_word(text, b"."),
    }
}

/// Adds bytes as they stand in a text of XML.
fn put_xml(text: &mut Vec<u8>, bytes: &[u8]) -> io::Result<()>
    ensures { OnOk result (text.new.items ≡ text.old.items ++ flat_map xml_byte bytes.now) }
{
    for byte in bytes {
        put_xml_byte(text, *byte)?;
    }
    Ok(())
}

/// Adds what stands before that which is told of a thread: its number, and the name of its hart.
fn put_named_head(text: &mut Vec<u8>, thread: u64, rank: u8, hart: u8) -> io::Result<()>
    ensures { OnOk result (text.new.items ≡ text.old.items ++ named_head thread rank hart) }
{
    write!(
        text,
        "<thread id=\"{thread:x}\" name=\"rank {rank} hart {hart}\">"
    )
}

/// Adds a thread of a list by names: its number, the name of its hart, and what is told of it.
pub fn put_named(text: &mut Vec<u8>, thread: u64, rank: u8, hart: u8, told: &[u8]) -> io::Result<()>
    ensures { OnOk result (text.new.items ≡ text.old.items ++ named_text thread rank hart told.now) }
{
    put_named_head(text, thread, rank, hart)?;
    put_xml(text, told)?;
    put_word(text, b"</thread>")
}
