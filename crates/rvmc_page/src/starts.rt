//! The machine at the first place.

ghost use Rattle.std.specs.Prelude.{◌≡◌, ◌==◌, ◌*◌, ◌++◌, OnOk, codes};
ghost use Rattle.std.specs.List.{flat_map, list_all};
ghost use Rattle.rvmc_page.specs.Starts.{hart_start_text, hex, memory_text, mode_letter, rank_start_text, row_line, row_text, stand_text};
ghost use Rattle.rvmc_page.specs.Starts.{starts_text};

use crate::safe::put_bytes;
use rv_hart::Mode;
use rvmc_changes::{HartStart, RankStart, Stand};
use std::io;
use std::io::Write;

/// How many bytes a row of the memory has.
const ROW: usize = 32;

/// Adds how a hart stands that doesn't run.
fn put_mode(text: &mut Vec<u8>, mode: Mode) -> io::Result<()>
    ensures { OnOk result (text.new.items ≡ text.old.items ++ mode_letter mode) }
{
    match mode {
        Mode::Running => Ok(()),
        Mode::Waiting(_) => {
            text.extend_from_slice(b"w")?;
            Ok(())
        }
        Mode::Ended(code) => write!(text, "x{code}"),
        Mode::Trapped(cause, at) => {
            let number = cause.number();
            write!(text, "t{number}.{at:x}")
        }
    }
}

/// Adds where a hart stands.
pub(crate) fn put_stand(text: &mut Vec<u8>, stand: Stand) -> io::Result<()>
    ensures { OnOk result (text.new.items ≡ text.old.items ++ stand_text stand) }
{
    let pc = stand.pc;
    write!(text, "{pc:x}")?;
    put_mode(text, stand.mode)
}

/// Adds what a register reads.
fn put_value(text: &mut Vec<u8>, value: u64) -> io::Result<()>
    ensures { OnOk result (text.new.items ≡ text.old.items ++ (codes " " ++ hex value)) }
{
    write!(text, " {value:x}")
}

/// Adds what the registers read.
fn put_values(text: &mut Vec<u8>, values: &[u64]) -> io::Result<()>
    ensures { OnOk result (text.new.items ≡ text.old.items ++ flat_map (λ value. codes " " ++ hex value) values.now) }
{
    for value in values {
        put_value(text, *value)?;
    }
    Ok(())
}

/// Adds a hart.
#[tactic(auto, unfolding(crate::specs::Starts::hart_start_text))]
fn put_hart(text: &mut Vec<u8>, hart: &HartStart) -> io::Result<()>
    ensures { OnOk result (text.new.items ≡ text.old.items ++ hart_start_text hart.now) }
{
    text.extend_from_slice(b"h ")?;
    let stand = Stand {
        pc: hart.pc,
        mode: hart.mode,
    };
    put_stand(text, stand)?;
    put_values(text, hart.registers.as_slice())?;
    text.extend_from_slice(b"\n")?;
    Ok(())
}

/// Adds harts.
fn put_harts(text: &mut Vec<u8>, harts: &[HartStart]) -> io::Result<()>
    ensures { OnOk result (text.new.items ≡ text.old.items ++ flat_map hart_start_text harts.now) }
{
    for hart in harts {
        put_hart(text, hart)?;
    }
    Ok(())
}

/// Whether all bytes are 0.
fn are_zeros(row: &[u8]) -> bool
    ensures { result ≡ list_all (λ byte. byte == 0) row.now }
{
    row.iter().all(|byte| *byte == 0)
}

/// Adds the row at an address, unless it is of zeros.
fn put_row(text: &mut Vec<u8>, at: u64, row: &[u8]) -> io::Result<()>
    ensures { OnOk result (text.new.items ≡ text.old.items ++ row_text at row.now) }
{
    if are_zeros(row) {
        return Ok(());
    }
    write!(text, "m {at:x} ")?;
    put_bytes(text, row)?;
    text.extend_from_slice(b"\n")?;
    Ok(())
}

/// Adds the memory, row by row.
fn put_memory(text: &mut Vec<u8>, bytes: &[u8]) -> io::Result<()>
    ensures { OnOk result (text.new.items ≡ text.old.items ++ memory_text bytes.now) }
{
    let len = bytes.len();
    for number in 0..len.div_ceil(ROW) {
        let from = ROW * number;
        put_row(text, from as u64, &bytes[from..len.min(from + ROW)])?;
    }
    Ok(())
}

/// Adds a rank.
#[tactic(auto, unfolding(crate::specs::Starts::rank_start_text))]
fn put_rank(text: &mut Vec<u8>, rank: &RankStart) -> io::Result<()>
    ensures { OnOk result (text.new.items ≡ text.old.items ++ rank_start_text rank.now) }
{
    let size = rank.bytes.len();
    write!(text, "r {size}\n")?;
    put_harts(text, rank.harts.as_slice())?;
    put_memory(text, rank.bytes.as_slice())?;
    text.extend_from_slice(b"o ")?;
    put_bytes(text, rank.out.as_slice())?;
    text.extend_from_slice(b"\n")?;
    Ok(())
}

/// Adds all ranks.
pub(crate) fn put_starts(text: &mut Vec<u8>, ranks: &[RankStart]) -> io::Result<()>
    ensures { OnOk result (text.new.items ≡ text.old.items ++ starts_text ranks.now) }
{
    for rank in ranks {
        put_rank(text, rank)?;
    }
    Ok(())
}
