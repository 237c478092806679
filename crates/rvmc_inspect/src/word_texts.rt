//! What the words of `debug` print.

ghost use Rattle.std.specs.Prelude.{◌≡◌, ◌++◌, ◌<◌, IfOk, OnOk, length, string_bytes};
ghost use Rattle.rvmc_inspect.specs.WordTexts.{bytes_line, bytes_text, frames_text, padded_hex, place_text};
ghost use Rattle.rvmc_report.specs.Report.{output_text};
ghost use Rattle.rvmc_inspect.specs.WordTexts.{register_line, regs_text, registers_text};

use rv_decode::Reg;
use rv_hart::Hart;
use rv_image_types::Symbol;
use rv_memory::RankMemory;
use rvmc_places::put_calls;
use rvmc_report::report::{hart_line, put_output};
use std::alloc::{AllocError, Global};

/// Where the debugger stands: `at N of LEN`, with a newline behind it.
pub fn place_text(alloc: Global, n: u64, len: u64) -> Result<String, AllocError>
    ensures { IfOk result (λ text. string_bytes text ≡ place_text n len) }
{
    format!(in alloc; "at {n} of {len}\n")
}

/// The line of a register, as `x5 00000000000a6968`.
fn register_line(alloc: Global, number: u8, value: u64) -> Result<String, AllocError>
    ensures { IfOk result (λ text. string_bytes text ≡ register_line number value) }
{
    format!(in alloc; "x{number} {value:016x}\n")
}

/// Adds the registers x0 to x31, a line each.
fn put_registers(alloc: Global, text: &mut Vec<u8>, hart: &Hart) -> Result<(), AllocError>
    ensures { OnOk result (text.new.items ≡ text.old.items ++ registers_text hart.now) }
{
    for number in 0..32 {
        let value = hart.get(Reg::new(number));
        let line = register_line(alloc, number, value)?;
        text.extend_from_slice(line.as_bytes())?;
    }
    Ok(())
}

/// The hart's line of the report, and 32 lines of what its registers x0 to x31 read.
pub fn regs_text(alloc: Global, rank: u8, number: u8, hart: &Hart) -> Result<Vec<u8>, AllocError>
    ensures { IfOk result (λ text. text.items ≡ regs_text rank number hart.now) }
{
    let line = hart_line(alloc, usize::from(rank), usize::from(number), hart)?;
    let mut text = line.into_bytes();
    put_registers(alloc, &mut text, hart)?;
    Ok(text)
}

/// The hart's line of the report, and a line for each call that led to where it is.
pub fn frames_text(
    alloc: Global,
    symbols: &[Symbol],
    rank: u8,
    number: u8,
    memory: &RankMemory,
    hart: &Hart,
) -> Result<Vec<u8>, AllocError>
    ensures { IfOk result (λ text. text.items ≡ frames_text symbols.now rank number memory.now hart.now) }
{
    let line = hart_line(alloc, usize::from(rank), usize::from(number), hart)?;
    let mut text = line.into_bytes();
    put_calls(&mut text, symbols, memory, hart, b"called from ", b"\n")?;
    Ok(text)
}

/// What a rank has put out, as in a report.
pub fn output_text(alloc: Global, rank: u8, output: &[u8]) -> Result<Vec<u8>, AllocError>
    ensures { IfOk result (λ text. text.items ≡ output_text rank output.now) }
{
    let mut text = Vec::new(alloc);
    put_output(alloc, &mut text, usize::from(rank), output)?;
    Ok(text)
}

/// Two hex digits in lower case.
fn hex_2(alloc: Global, byte: u8) -> Result<String, AllocError>
    ensures { IfOk result (λ text. string_bytes text ≡ padded_hex 2 byte) }
{
    format!(in alloc; "{byte:02x}")
}

/// Adds a line of bytes.
fn put_bytes_line(alloc: Global, text: &mut Vec<u8>, bytes: &[u8]) -> Result<(), AllocError>
    requires { 0 < length bytes.now }
    ensures { OnOk result (text.new.items ≡ text.old.items ++ bytes_line bytes.now) }
{
    let first = hex_2(alloc, bytes[0])?;
    text.extend_from_slice(first.as_bytes())?;
    for byte in &bytes[1..] {
        let digits = hex_2(alloc, *byte)?;
        text.push(b' ')?;
        text.extend_from_slice(digits.as_bytes())?;
    }
    text.push(b'\n')?;
    Ok(())
}

/// Bytes in lines of at most 16, two hex digits each, one space between; of no bytes no line.
pub fn bytes_text(alloc: Global, bytes: &[u8]) -> Result<Vec<u8>, AllocError>
    ensures { IfOk result (λ text. text.items ≡ bytes_text bytes.now) }
{
    let len = bytes.len();
    let mut text = Vec::new(alloc);
    for number in 0..len.div_ceil(16) {
        let from = 16 * number;
        put_bytes_line(alloc, &mut text, &bytes[from..len.min(from + 16)])?;
    }
    Ok(text)
}
