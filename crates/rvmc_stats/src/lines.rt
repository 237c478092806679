//! The lines of tables.

ghost use Rattle.std.specs.Prelude.{◌≡◌, ◌++◌, OnOk, codes};
ghost use Rattle.std.specs.Fmt.{decimal};
ghost use Rattle.rvmc_stats.specs.Tallies.{count_at};
ghost use Rattle.rvmc_stats.specs.Texts.{call_line, column_text, columns_text, pair_line, turn_line};

use crate::mail::Mail;
use crate::names::outcome_name;
use crate::tables::Tables;
use cl_calls::call_name;
use std::io;
use std::io::Write;

/// Adds the turns of a kind that a rank took.
fn put_column(text: &mut Vec<u8>, tables: &Tables, rank: usize, column: usize) -> io::Result<()>
    ensures { OnOk result (text.new.items ≡ text.old.items ++ column_text tables.now rank column) }
{
    let turns = tables.turns.get(rank, column);
    write!(text, " {turns}")
}

/// Adds the turns of each kind.
fn put_columns(text: &mut Vec<u8>, tables: &Tables, rank: usize) -> io::Result<()>
    ensures { OnOk result (text.new.items ≡ text.old.items ++ columns_text tables.now rank) }
{
    for column in 0..9 {
        put_column(text, tables, rank, column)?;
    }
    Ok(())
}

/// Adds the line of a rank that took so many turns.
fn put_taken_line(text: &mut Vec<u8>, tables: &Tables, rank: usize, taken: u64) -> io::Result<()>
    ensures { OnOk result (text.new.items
        ≡ text.old.items
        ++ (decimal rank
        ++ (codes " "
        ++ (decimal taken
        ++ (codes " " ++ (decimal (count_at tables.now.waits rank) ++ (columns_text tables.now rank ++ codes "\n"))))))) }
{
    let waits = tables.waits.get(rank);
    write!(text, "{rank} {taken} {waits}")?;
    put_columns(text, tables, rank)?;
    text.extend_from_slice(b"\n")?;
    Ok(())
}

/// Adds the line of a rank, if it took a turn.
#[tactic(auto, unfolding(crate::specs::Texts::turn_line))]
pub(crate) fn put_turn_line(text: &mut Vec<u8>, tables: &Tables, rank: usize) -> io::Result<()>
    ensures { OnOk result (text.new.items ≡ text.old.items ++ turn_line tables.now rank) }
{
    let taken = tables.taken.get(rank);
    if taken == 0 {
        return Ok(());
    }
    put_taken_line(text, tables, rank, taken)
}

/// Adds the line of a call that ended so, if there was one.
#[tactic(auto, unfolding(crate::specs::Texts::call_line))]
pub(crate) fn put_call_line(
    text: &mut Vec<u8>,
    tables: &Tables,
    number: usize,
    outcome: usize,
) -> io::Result<()>
    ensures { OnOk result (text.new.items ≡ text.old.items ++ call_line tables.now number outcome) }
{
    let turns = tables.calls.get(number, outcome);
    if turns == 0 {
        return Ok(());
    }
    let call = call_name(number as u64);
    let ended = outcome_name(outcome);
    write!(text, "{turns} {call} {ended}\n")
}

/// Adds the line of a sender and a receiver, if there was a message.
#[tactic(auto, unfolding(crate::specs::Texts::pair_line))]
pub(crate) fn put_pair_line(
    text: &mut Vec<u8>,
    mail: &Mail,
    from: usize,
    to: usize,
) -> io::Result<()>
    ensures { OnOk result (text.new.items ≡ text.old.items ++ pair_line mail.now from to) }
{
    let messages = mail.messages.get(from, to);
    if messages == 0 {
        return Ok(());
    }
    let bytes = mail.bytes.get(from, to);
    write!(text, "{messages} {bytes} {from} {to}\n")
}
