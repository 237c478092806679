//! What an instruction leaves, in two parts: what its hart tells before it is done, and what it left. So its hart isn't copied.

ghost use Rattle.std.specs.Prelude.{◌≡◌, ◌++◌, OnOk};
ghost use Rattle.rv_hart.specs.Effect.{offset as offset_of};
ghost use Rattle.rv_hart.specs.Results.{is_taken as is_taken_of};
ghost use Rattle.rvmc_sights.specs.Ahead.{ahead_of as ahead_of_instr, ahead_text, rest_text, taken_text};
ghost use Rattle.rvmc_sights.specs.Instructions.{store_text, stored_value as stored_value_of, value_text};

use crate::rows::{write_hex, write_word};
use rv_decode::{BranchOp, Instr, Reg, StoreOp};
use rv_hart::{Hart, Mode};
use rvmc_places::put_trapped;
use std::io;

/// What an instruction leaves unless it traps, as its hart tells before it is done.
#[derive(Clone, Copy, Drop)]
pub enum Ahead {
    /// A new value of this register.
    Value(Reg),
    /// A branch that is taken, or isn't.
    Branches(bool),
    /// An address, and the value that is stored there.
    Stores(u64, u64),
    /// Nothing that is told.
    Nothing,
}

/// Whether a branch is taken, for what its registers read.
#[tactic(auto, unfolding(rv_hart::specs::Results::is_taken))]
fn is_taken(op: BranchOp, a: u64, b: u64) -> bool
    ensures { result ≡ is_taken_of op a b }
{
    match op {
        BranchOp::Beq => a == b,
        BranchOp::Bne => a != b,
        BranchOp::Blt => a.cast_signed() < b.cast_signed(),
        BranchOp::Bge => a.cast_signed() >= b.cast_signed(),
        BranchOp::Bltu => a < b,
        BranchOp::Bgeu => a >= b,
    }
}

/// What a store writes of a register.
fn stored_value(op: StoreOp, value: u64) -> u64
    ensures { result ≡ stored_value_of op value }
{
    match op {
        StoreOp::Sb => value % 0x100,
        StoreOp::Sh => value % 0x1_0000,
        StoreOp::Sw => value % 0x1_0000_0000,
        StoreOp::Sd => value,
    }
}

/// The address of a signed offset from a number.
fn offset(base: u64, off: i32) -> u64
    ensures { result ≡ offset_of base off }
{
    base.wrapping_add_signed(off as i64)
}

/// What an instruction leaves unless it traps.
pub fn ahead_of(instr: &Instr, before: &Hart) -> Ahead
    ensures { result ≡ ahead_of_instr instr.now before.now }
{
    match *instr {
        Instr::Upper { rd, .. }
        | Instr::Jal { rd, .. }
        | Instr::Jalr { rd, .. }
        | Instr::Load { rd, .. }
        | Instr::Imm { rd, .. }
        | Instr::Shift { rd, .. }
        | Instr::Arith { rd, .. } => Ahead::Value(rd),
        Instr::Branch { op, rs1, rs2, .. } => {
            Ahead::Branches(is_taken(op, before.get(rs1), before.get(rs2)))
        }
        Instr::Store { op, rs1, rs2, off } => {
            let address = offset(before.get(rs1), off);
            Ahead::Stores(address, stored_value(op, before.get(rs2)))
        }
        Instr::Fence | Instr::Ecall | Instr::Ebreak => Ahead::Nothing,
    }
}

/// Adds a register's new value.
fn put_value(text: &mut Vec<u8>, register: Reg, after: &Hart) -> io::Result<()>
    ensures { OnOk result (text.new.items ≡ text.old.items ++ value_text register after.now) }
{
    if register.number() == 0 {
        return Ok(());
    }
    let mut row = [0; 24];
    let at = write_hex(after.get(register), &mut row, 24);
    let at = write_word(b" = ", &mut row, at);
    text.extend_from_slice(&row[at..])?;
    Ok(())
}

/// Adds an address and the value that is stored there.
fn put_stored(text: &mut Vec<u8>, address: u64, value: u64) -> io::Result<()>
    ensures { OnOk result (text.new.items ≡ text.old.items ++ store_text address value) }
{
    let mut row = [0; 48];
    let at = write_hex(value, &mut row, 48);
    let at = write_word(b"] = ", &mut row, at);
    let at = write_hex(address, &mut row, at);
    let at = write_word(b" [", &mut row, at);
    text.extend_from_slice(&row[at..])?;
    Ok(())
}

/// Adds whether a branch was taken.
fn put_taken(text: &mut Vec<u8>, taken: bool) -> io::Result<()>
    ensures { OnOk result (text.new.items ≡ text.old.items ++ taken_text taken) }
{
    if taken {
        text.extend_from_slice(b" taken")?;
    } else {
        text.extend_from_slice(b" not taken")?;
    }
    Ok(())
}

/// Adds what an instruction left that was done.
fn put_left(text: &mut Vec<u8>, ahead: Ahead, after: &Hart) -> io::Result<()>
    ensures { OnOk result (text.new.items ≡ text.old.items ++ ahead_text ahead after.now) }
{
    match ahead {
        Ahead::Value(register) => put_value(text, register, after),
        Ahead::Branches(taken) => put_taken(text, taken),
        Ahead::Stores(address, value) => put_stored(text, address, value),
        Ahead::Nothing => Ok(()),
    }
}

/// Adds what an instruction left, or that it trapped, perhaps because its hart's stack is full.
pub fn put_rest(
    text: &mut Vec<u8>,
    ahead: Option<Ahead>,
    after: &Hart,
    overflow: bool,
) -> io::Result<()>
    ensures { OnOk result (text.new.items ≡ text.old.items ++ rest_text ahead after.now overflow after.now.mode) }
{
    let Some(ahead) = ahead else {
        return Ok(());
    };
    match after.mode() {
        Mode::Trapped(cause, _) => {
            text.extend_from_slice(b" ")?;
            put_trapped(text, overflow, cause)?;
            Ok(())
        }
        _ => put_left(text, ahead, after),
    }
}
