//! From words to instructions.
ghost use Rattle.std.specs.Prelude.{◌≡◌, ◌↔◌, IsNone, IfSome, find};
ghost use Rattle.rv_decode.specs.Decoded.{decoded, same_pair, same_triple, branches, loads, stores, imms, shifts};
ghost use Rattle.rv_decode.specs.Decoded.{ariths};
ghost use Rattle.rv_decode.specs.Fields.{imm_i as imm_i_of, imm_s as imm_s_of, imm_b as imm_b_of, imm_u as imm_u_of};
ghost use Rattle.rv_decode.specs.Fields.{imm_j as imm_j_of, bits};
ghost use Rattle.rv_decode.specs.Table.{branch_row, load_row, store_row, imm_row, shift_row, arith_row};
ghost use Rattle.rv_decode.specs.WordOf.{IsWordOf, Fits};
ghost use Rattle.rv_decode.specs.declared.instruction.Instr.{Instr};

use crate::instruction::{ArithOp, BranchOp, ImmOp, Instr, LoadOp, ShiftOp, StoreOp, UpperOp};
use crate::register::Reg;

// The fields, as quotients and remainders: the compiler makes shifts and masks of them.

#[inline(always)]
fn rd(word: u32) -> Reg
    ensures { result ≡ bits word 11 7 }
{
    Reg::new((word / 0x80 % 0x20) as u8)
}

#[inline(always)]
fn rs1(word: u32) -> Reg
    ensures { result ≡ bits word 19 15 }
{
    Reg::new((word / 0x8000 % 0x20) as u8)
}

#[inline(always)]
fn rs2(word: u32) -> Reg
    ensures { result ≡ bits word 24 20 }
{
    Reg::new((word / 0x10_0000 % 0x20) as u8)
}

#[inline(always)]
fn funct3(word: u32) -> u32
    ensures { result ≡ bits word 14 12 }
{
    word / 0x1000 % 8
}

#[inline(always)]
fn imm_i(word: u32) -> i32
    ensures { result ≡ imm_i_of word }
{
    ((word / 0x10_0000 + 0x800) % 0x1000) as i32 - 0x800
}

#[inline(always)]
fn imm_s(word: u32) -> i32
    ensures { result ≡ imm_s_of word }
{
    ((word / 0x200_0000 * 0x20 + word / 0x80 % 0x20 + 0x800) % 0x1000) as i32 - 0x800
}

#[inline(always)]
fn imm_b(word: u32) -> i32
    ensures { result ≡ imm_b_of word }
{
    let value = word / 0x8000_0000 * 0x1000
        + word / 0x80 % 2 * 0x800
        + word / 0x200_0000 % 0x40 * 0x20
        + word / 0x100 % 0x10 * 2;
    ((value + 0x1000) % 0x2000) as i32 - 0x1000
}

#[inline(always)]
fn imm_u(word: u32) -> i32
    ensures { result ≡ imm_u_of word }
{
    (word / 0x1000 * 0x1000).cast_signed()
}

#[inline(always)]
fn imm_j(word: u32) -> i32
    ensures { result ≡ imm_j_of word }
{
    let value = word / 0x8000_0000 * 0x10_0000
        + word / 0x1000 % 0x100 * 0x1000
        + word / 0x10_0000 % 2 * 0x800
        + word / 0x20_0000 % 0x400 * 2;
    ((value + 0x10_0000) % 0x20_0000) as i32 - 0x10_0000
}

// The table's rows of one opcode, by funct3 and funct7.

#[inline(always)]
fn branch_op(funct3: u32) -> Option<BranchOp>
    ensures { result ≡ find (λ op. same_pair (0x63, funct3) (branch_row op)) branches }
{
    match funct3 {
        0 => Some(BranchOp::Beq),
        1 => Some(BranchOp::Bne),
        4 => Some(BranchOp::Blt),
        5 => Some(BranchOp::Bge),
        6 => Some(BranchOp::Bltu),
        7 => Some(BranchOp::Bgeu),
        _ => None,
    }
}

#[inline(always)]
fn load_op(funct3: u32) -> Option<LoadOp>
    ensures { result ≡ find (λ op. same_pair (0x03, funct3) (load_row op)) loads }
{
    match funct3 {
        0 => Some(LoadOp::Lb),
        1 => Some(LoadOp::Lh),
        2 => Some(LoadOp::Lw),
        3 => Some(LoadOp::Ld),
        4 => Some(LoadOp::Lbu),
        5 => Some(LoadOp::Lhu),
        6 => Some(LoadOp::Lwu),
        _ => None,
    }
}

#[inline(always)]
fn store_op(funct3: u32) -> Option<StoreOp>
    ensures { result ≡ find (λ op. same_pair (0x23, funct3) (store_row op)) stores }
{
    match funct3 {
        0 => Some(StoreOp::Sb),
        1 => Some(StoreOp::Sh),
        2 => Some(StoreOp::Sw),
        3 => Some(StoreOp::Sd),
        _ => None,
    }
}

#[inline(always)]
fn imm_op(funct3: u32) -> Option<ImmOp>
    ensures { result ≡ find (λ op. same_pair (0x13, funct3) (imm_row op)) imms }
{
    match funct3 {
        0 => Some(ImmOp::Addi),
        2 => Some(ImmOp::Slti),
        3 => Some(ImmOp::Sltiu),
        4 => Some(ImmOp::Xori),
        6 => Some(ImmOp::Ori),
        7 => Some(ImmOp::Andi),
        _ => None,
    }
}

#[inline(always)]
fn word_imm_op(funct3: u32) -> Option<ImmOp>
    ensures { result ≡ find (λ op. same_pair (0x1b, funct3) (imm_row op)) imms }
{
    match funct3 {
        0 => Some(ImmOp::Addiw),
        _ => None,
    }
}

// opcode 0010011, funct6 000000
#[inline(always)]
fn logical_shift_op(funct3: u32) -> Option<ShiftOp>
    ensures { result ≡ find (λ op. same_triple (0x13, funct3, 0x00) (shift_row op)) shifts }
{
    match funct3 {
        1 => Some(ShiftOp::Slli),
        5 => Some(ShiftOp::Srli),
        _ => None,
    }
}

// opcode 0010011, funct6 010000
#[inline(always)]
fn arithmetic_shift_op(funct3: u32) -> Option<ShiftOp>
    ensures { result ≡ find (λ op. same_triple (0x13, funct3, 0x10) (shift_row op)) shifts }
{
    match funct3 {
        5 => Some(ShiftOp::Srai),
        _ => None,
    }
}

#[inline(always)]
fn shift_op(funct3: u32, funct6: u32) -> Option<ShiftOp>
    ensures { result ≡ find (λ op. same_triple (0x13, funct3, funct6) (shift_row op)) shifts }
{
    match funct6 {
        0x00 => logical_shift_op(funct3),
        0x10 => arithmetic_shift_op(funct3),
        _ => None,
    }
}

// opcode 0011011, funct7 0000000
#[inline(always)]
fn logical_word_shift_op(funct3: u32) -> Option<ShiftOp>
    ensures { result ≡ find (λ op. same_triple (0x1b, funct3, 0x00) (shift_row op)) shifts }
{
    match funct3 {
        1 => Some(ShiftOp::Slliw),
        5 => Some(ShiftOp::Srliw),
        _ => None,
    }
}

// opcode 0011011, funct7 0100000
#[inline(always)]
fn arithmetic_word_shift_op(funct3: u32) -> Option<ShiftOp>
    ensures { result ≡ find (λ op. same_triple (0x1b, funct3, 0x20) (shift_row op)) shifts }
{
    match funct3 {
        5 => Some(ShiftOp::Sraiw),
        _ => None,
    }
}

#[inline(always)]
fn word_shift_op(funct3: u32, funct7: u32) -> Option<ShiftOp>
    ensures { result ≡ find (λ op. same_triple (0x1b, funct3, funct7) (shift_row op)) shifts }
{
    match funct7 {
        0x00 => logical_word_shift_op(funct3),
        0x20 => arithmetic_word_shift_op(funct3),
        _ => None,
    }
}

// opcode 0110011, funct7 0000000
#[inline(always)]
fn base_op(funct3: u32) -> Option<ArithOp>
    ensures { result ≡ find (λ op. same_triple (0x33, funct3, 0x00) (arith_row op)) ariths }
{
    match funct3 {
        0 => Some(ArithOp::Add),
        1 => Some(ArithOp::Sll),
        2 => Some(ArithOp::Slt),
        3 => Some(ArithOp::Sltu),
        4 => Some(ArithOp::Xor),
        5 => Some(ArithOp::Srl),
        6 => Some(ArithOp::Or),
        7 => Some(ArithOp::And),
        _ => None,
    }
}

// opcode 0110011, funct7 0100000
#[inline(always)]
fn alternate_op(funct3: u32) -> Option<ArithOp>
    ensures { result ≡ find (λ op. same_triple (0x33, funct3, 0x20) (arith_row op)) ariths }
{
    match funct3 {
        0 => Some(ArithOp::Sub),
        5 => Some(ArithOp::Sra),
        _ => None,
    }
}

// opcode 0110011, funct7 0000001
#[inline(always)]
fn product_op(funct3: u32) -> Option<ArithOp>
    ensures { result ≡ find (λ op. same_triple (0x33, funct3, 0x01) (arith_row op)) ariths }
{
    match funct3 {
        0 => Some(ArithOp::Mul),
        1 => Some(ArithOp::Mulh),
        2 => Some(ArithOp::Mulhsu),
        3 => Some(ArithOp::Mulhu),
        4 => Some(ArithOp::Div),
        5 => Some(ArithOp::Divu),
        6 => Some(ArithOp::Rem),
        7 => Some(ArithOp::Remu),
        _ => None,
    }
}

#[inline(always)]
fn arith_op(funct3: u32, funct7: u32) -> Option<ArithOp>
    ensures { result ≡ find (λ op. same_triple (0x33, funct3, funct7) (arith_row op)) ariths }
{
    match funct7 {
        0x00 => base_op(funct3),
        0x20 => alternate_op(funct3),
        0x01 => product_op(funct3),
        _ => None,
    }
}

// opcode 0111011, funct7 0000000
#[inline(always)]
fn base_word_op(funct3: u32) -> Option<ArithOp>
    ensures { result ≡ find (λ op. same_triple (0x3b, funct3, 0x00) (arith_row op)) ariths }
{
    match funct3 {
        0 => Some(ArithOp::Addw),
        1 => Some(ArithOp::Sllw),
        5 => Some(ArithOp::Srlw),
        _ => None,
    }
}

// opcode 0111011, funct7 0100000
#[inline(always)]
fn alternate_word_op(funct3: u32) -> Option<ArithOp>
    ensures { result ≡ find (λ op. same_triple (0x3b, funct3, 0x20) (arith_row op)) ariths }
{
    match funct3 {
        0 => Some(ArithOp::Subw),
        5 => Some(ArithOp::Sraw),
        _ => None,
    }
}

// opcode 0111011, funct7 0000001
#[inline(always)]
fn product_word_op(funct3: u32) -> Option<ArithOp>
    ensures { result ≡ find (λ op. same_triple (0x3b, funct3, 0x01) (arith_row op)) ariths }
{
    match funct3 {
        0 => Some(ArithOp::Mulw),
        4 => Some(ArithOp::Divw),
        5 => Some(ArithOp::Divuw),
        6 => Some(ArithOp::Remw),
        7 => Some(ArithOp::Remuw),
        _ => None,
    }
}

#[inline(always)]
fn word_arith_op(funct3: u32, funct7: u32) -> Option<ArithOp>
    ensures { result ≡ find (λ op. same_triple (0x3b, funct3, funct7) (arith_row op)) ariths }
{
    match funct7 {
        0x00 => base_word_op(funct3),
        0x20 => alternate_word_op(funct3),
        0x01 => product_word_op(funct3),
        _ => None,
    }
}

// The instruction of a word, by its opcode.

#[inline(always)]
#[tactic(auto, using(crate::proofs::Lookup::decoded_jalr))]
fn jalr(word: u32) -> Option<Instr>
    requires { bits word 6 0 ≡ 0x67 }
    ensures { result ≡ decoded word }
{
    match funct3(word) {
        0 => Some(Instr::Jalr {
            rd: rd(word),
            rs1: rs1(word),
            off: imm_i(word),
        }),
        _ => None,
    }
}

#[inline(always)]
#[tactic(auto, using(crate::proofs::Lookup::decoded_branch))]
fn branch(word: u32) -> Option<Instr>
    requires { bits word 6 0 ≡ 0x63 }
    ensures { result ≡ decoded word }
{
    let op = branch_op(funct3(word))?;
    Some(Instr::Branch {
        op,
        rs1: rs1(word),
        rs2: rs2(word),
        off: imm_b(word),
    })
}

#[inline(always)]
#[tactic(auto, using(crate::proofs::Lookup::decoded_load))]
fn load(word: u32) -> Option<Instr>
    requires { bits word 6 0 ≡ 0x03 }
    ensures { result ≡ decoded word }
{
    let op = load_op(funct3(word))?;
    Some(Instr::Load {
        op,
        rd: rd(word),
        rs1: rs1(word),
        off: imm_i(word),
    })
}

#[inline(always)]
#[tactic(auto, using(crate::proofs::Lookup::decoded_store))]
fn store(word: u32) -> Option<Instr>
    requires { bits word 6 0 ≡ 0x23 }
    ensures { result ≡ decoded word }
{
    let op = store_op(funct3(word))?;
    Some(Instr::Store {
        op,
        rs1: rs1(word),
        rs2: rs2(word),
        off: imm_s(word),
    })
}

#[inline(always)]
#[tactic(auto, using(crate::proofs::Lookup::decoded_imm))]
fn imm(word: u32) -> Option<Instr>
    requires { bits word 6 0 ≡ 0x13 }
    ensures { result ≡ decoded word }
{
    if let Some(op) = imm_op(funct3(word)) {
        return Some(Instr::Imm {
            op,
            rd: rd(word),
            rs1: rs1(word),
            imm: imm_i(word),
        });
    }
    let op = shift_op(funct3(word), word / 0x400_0000)?;
    Some(Instr::Shift {
        op,
        rd: rd(word),
        rs1: rs1(word),
        amount: (word / 0x10_0000 % 0x40) as u8,
    })
}

#[inline(always)]
#[tactic(auto, using(crate::proofs::Lookup::decoded_word_imm))]
fn word_imm(word: u32) -> Option<Instr>
    requires { bits word 6 0 ≡ 0x1b }
    ensures { result ≡ decoded word }
{
    if let Some(op) = word_imm_op(funct3(word)) {
        return Some(Instr::Imm {
            op,
            rd: rd(word),
            rs1: rs1(word),
            imm: imm_i(word),
        });
    }
    let op = word_shift_op(funct3(word), word / 0x200_0000)?;
    Some(Instr::Shift {
        op,
        rd: rd(word),
        rs1: rs1(word),
        amount: (word / 0x10_0000 % 0x20) as u8,
    })
}

#[inline(always)]
#[tactic(auto, using(crate::proofs::Lookup::decoded_arith))]
fn arith(word: u32) -> Option<Instr>
    requires { bits word 6 0 ≡ 0x33 }
    ensures { result ≡ decoded word }
{
    let op = arith_op(funct3(word), word / 0x200_0000)?;
    Some(Instr::Arith {
        op,
        rd: rd(word),
        rs1: rs1(word),
        rs2: rs2(word),
    })
}

#[inline(always)]
#[tactic(auto, using(crate::proofs::Lookup::decoded_word_arith))]
fn word_arith(word: u32) -> Option<Instr>
    requires { bits word 6 0 ≡ 0x3b }
    ensures { result ≡ decoded word }
{
    let op = word_arith_op(funct3(word), word / 0x200_0000)?;
    Some(Instr::Arith {
        op,
        rd: rd(word),
        rs1: rs1(word),
        rs2: rs2(word),
    })
}

#[inline(always)]
#[tactic(auto, using(crate::proofs::Lookup::decoded_fence))]
fn fence(word: u32) -> Option<Instr>
    requires { bits word 6 0 ≡ 0x0f }
    ensures { result ≡ decoded word }
{
    match funct3(word) {
        0 => Some(Instr::Fence),
        _ => None,
    }
}

#[inline(always)]
#[tactic(auto, using(crate::proofs::Lookup::decoded_system))]
fn system(word: u32) -> Option<Instr>
    requires { bits word 6 0 ≡ 0x73 }
    ensures { result ≡ decoded word }
{
    match word {
        0x0000_0073 => Some(Instr::Ecall),
        0x0010_0073 => Some(Instr::Ebreak),
        _ => None,
    }
}

#[inline(always)]
#[tactic(auto, using(crate::proofs::Lookup::decoded_jal, crate::proofs::Lookup::decoded_lui, crate::proofs::Lookup::decoded_auipc))]
fn by_opcode(word: u32) -> Option<Instr>
    ensures { result ≡ decoded word }
{
    // The order of the tests is free. Where the compiler makes a chain of compares, the first arms cost least, so that
    // the commonest opcodes stand first; a jump table is as fast here, as was measured.
    match word % 0x80 {
        0x13 => imm(word),
        0x33 => arith(word),
        0x03 => load(word),
        0x23 => store(word),
        0x63 => branch(word),
        0x1b => word_imm(word),
        0x3b => word_arith(word),
        0x6f => Some(Instr::Jal {
            rd: rd(word),
            off: imm_j(word),
        }),
        0x67 => jalr(word),
        0x37 => Some(Instr::Upper {
            op: UpperOp::Lui,
            rd: rd(word),
            imm: imm_u(word),
        }),
        0x17 => Some(Instr::Upper {
            op: UpperOp::Auipc,
            rd: rd(word),
            imm: imm_u(word),
        }),
        0x73 => system(word),
        0x0f => fence(word),
        _ => None,
    }
}

/// The instruction that a word stands for, by the table; `None` for an illegal word, which no row has.
#[inline(always)]
pub fn decode(word: u32) -> Option<Instr>
    ensures value { result ≡ decoded word }
    ensures found { (i : Instr) → (result ≡ Some i) ↔ IsWordOf word i }
    ensures fits { IfSome result Fits }
    ensures none { IsNone result ↔ ((i : Instr) → ¬ (IsWordOf word i)) }
{
    by_opcode(word)
}
