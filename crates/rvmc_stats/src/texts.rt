//! The text of tables: a head, and a line for each number that isn't 0.

ghost use Rattle.std.specs.Prelude.{◌≡◌, ◌++◌, OnOk};
ghost use Rattle.rvmc_stats.specs.Texts.{all_call_lines, all_pair_lines, call_lines, calls_head, calls_table};
ghost use Rattle.rvmc_stats.specs.Texts.{messages_head, messages_table, pair_lines, turn_lines, turns_head, turns_table};

use crate::calls::CALL_ROWS;
use crate::lines::{put_call_line, put_pair_line, put_turn_line};
use crate::mail::Mail;
use crate::tables::Tables;
use std::io;

/// Adds the lines of ranks.
fn put_turn_lines(text: &mut Vec<u8>, tables: &Tables) -> io::Result<()>
    ensures { OnOk result (text.new.items ≡ text.old.items ++ turn_lines tables.now) }
{
    for rank in 0..tables.taken.len() {
        put_turn_line(text, tables, rank)?;
    }
    Ok(())
}

/// Adds the head of the turns.
#[tactic(auto, unfolding(crate::specs::Texts::turns_head))]
fn put_turns_head(text: &mut Vec<u8>) -> io::Result<()>
    ensures { OnOk result (text.new.items ≡ text.old.items ++ turns_head) }
{
    text.extend_from_slice(b"rank turns waited plain local hub ready take miss freed held idle\n")?;
    Ok(())
}

/// Adds the turns of each rank that took one. The only error is want of memory.
pub fn put_turns(text: &mut Vec<u8>, tables: &Tables) -> io::Result<()>
    ensures { OnOk result (text.new.items ≡ text.old.items ++ turns_table tables.now) }
{
    put_turns_head(text)?;
    put_turn_lines(text, tables)
}

/// Adds the lines of a call.
#[tactic(auto, unfolding(crate::specs::Texts::call_lines))]
fn put_call_lines(text: &mut Vec<u8>, tables: &Tables, number: usize) -> io::Result<()>
    ensures { OnOk result (text.new.items ≡ text.old.items ++ call_lines tables.now number) }
{
    for outcome in 0..21 {
        put_call_line(text, tables, number, outcome)?;
    }
    Ok(())
}

/// Adds the lines of all calls.
fn put_all_call_lines(text: &mut Vec<u8>, tables: &Tables) -> io::Result<()>
    ensures { OnOk result (text.new.items ≡ text.old.items ++ all_call_lines tables.now) }
{
    for number in 0..CALL_ROWS {
        put_call_lines(text, tables, number)?;
    }
    Ok(())
}

/// Adds the head of the calls.
#[tactic(auto, unfolding(crate::specs::Texts::calls_head))]
fn put_calls_head(text: &mut Vec<u8>) -> io::Result<()>
    ensures { OnOk result (text.new.items ≡ text.old.items ++ calls_head) }
{
    text.extend_from_slice(b"\nturns call and how it ended\n")?;
    Ok(())
}

/// Adds the calls that were made, by how they ended. The only error is want of memory.
pub fn put_calls(text: &mut Vec<u8>, tables: &Tables) -> io::Result<()>
    ensures { OnOk result (text.new.items ≡ text.old.items ++ calls_table tables.now) }
{
    put_calls_head(text)?;
    put_all_call_lines(text, tables)
}

/// Adds the lines of a sender.
#[tactic(auto, unfolding(crate::specs::Texts::pair_lines))]
fn put_pair_lines(text: &mut Vec<u8>, mail: &Mail, from: usize) -> io::Result<()>
    ensures { OnOk result (text.new.items ≡ text.old.items ++ pair_lines mail.now from) }
{
    for to in 0..mail.messages.len() {
        put_pair_line(text, mail, from, to)?;
    }
    Ok(())
}

/// Adds the lines of all senders.
fn put_all_pair_lines(text: &mut Vec<u8>, mail: &Mail) -> io::Result<()>
    ensures { OnOk result (text.new.items ≡ text.old.items ++ all_pair_lines mail.now) }
{
    for from in 0..mail.messages.len() {
        put_pair_lines(text, mail, from)?;
    }
    Ok(())
}

/// Adds the head of the messages.
#[tactic(auto, unfolding(crate::specs::Texts::messages_head))]
fn put_messages_head(text: &mut Vec<u8>) -> io::Result<()>
    ensures { OnOk result (text.new.items ≡ text.old.items ++ messages_head) }
{
    text.extend_from_slice(b"\nmessages bytes from to\n")?;
    Ok(())
}

/// Adds the messages that were received, by sender and receiver.
fn put_mail(text: &mut Vec<u8>, mail: &Mail) -> io::Result<()>
    ensures { OnOk result (text.new.items ≡ text.old.items ++ messages_table mail.now) }
{
    put_messages_head(text)?;
    put_all_pair_lines(text, mail)
}

/// Adds the messages that were received. The only error is want of memory.
pub fn put_messages(text: &mut Vec<u8>, tables: &Tables) -> io::Result<()>
    ensures { OnOk result (text.new.items ≡ text.old.items ++ messages_table tables.now.mail) }
{
    put_mail(text, &tables.mail)
}
