//! Words and instructions (rv_decode).
ghost use Rattle.std.specs.Prelude.{◌≡◌, ◌<◌, false, true, Some, None, IfOk, pos, negsuc, codes, string_bytes};
ghost use Rattle.rv_decode.specs.declared.instruction.ArithOp.TheVariants.{Addw};
ghost use Rattle.rv_decode.specs.declared.instruction.ImmOp.TheVariants.{Addi};
ghost use Rattle.rv_decode.specs.declared.instruction.Instr.TheVariants.{Arith, Imm, Shift, Fence};
ghost use Rattle.rv_decode.specs.declared.instruction.ShiftOp.TheVariants.{Srai};

use rv_decode::{
    ArithOp, BranchOp, ImmOp, Instr, Reg, StoreOp, UpperOp, decode, encode, print_instr,
};
use std::alloc::{AllocError, Global};

/// A register has the number that it was made with.
pub fn register_keeps_its_number(number: u8) -> u8
    requires { number < 32 }
    ensures { result ≡ number }
{
    Reg::new(number).number()
}

/// An immediate is signed: fff00293 is `addi x5, x0, -1`.
#[tactic(auto, unfolding(rv_decode::specs::Decoded::decoded))]
pub fn immediate_is_signed() -> Option<Instr>
    ensures { result ≡ Some (Imm Addi 5 0 (negsuc 0)) }
{
    decode(0xfff0_0293)
}

/// Bit 30 makes an arithmetic shift: 4012d293 is `srai x5, x5, 1`.
#[tactic(auto, unfolding(rv_decode::specs::Decoded::decoded))]
pub fn bit_30_makes_an_arithmetic_shift() -> Option<Instr>
    ensures { result ≡ Some (Shift Srai 5 5 1) }
{
    decode(0x4012_d293)
}

/// Arithmetic on words is read: 007302bb is `addw x5, x6, x7`.
#[tactic(auto, unfolding(rv_decode::specs::Decoded::decoded))]
pub fn word_arithmetic_is_read() -> Option<Instr>
    ensures { result ≡ Some (Arith Addw 5 6 7) }
{
    decode(0x0073_02bb)
}

/// A word of the control registers is no instruction: 00001073 would be `csrrw x0, 0, x0`.
#[tactic(auto, unfolding(rv_decode::specs::Decoded::decoded))]
pub fn csr_word_is_no_instruction() -> Option<Instr>
    ensures { result ≡ None }
{
    decode(0x0000_1073)
}

/// Words are shifted by less than 32: 0202929b would be `slliw x5, x5, 32`.
#[tactic(auto, unfolding(rv_decode::specs::Decoded::decoded))]
pub fn word_shift_with_bit_25_is_no_instruction() -> Option<Instr>
    ensures { result ≡ None }
{
    decode(0x0202_929b)
}

/// A fence is one whatever its other fields say: 0ff2828f has registers set, which the manual reserves.
#[tactic(auto, unfolding(rv_decode::specs::Decoded::decoded))]
pub fn fence_with_registers_is_a_fence() -> Option<Instr>
    ensures { result ≡ Some Fence }
{
    decode(0x0ff2_828f)
}

/// A fence is written as `fence iorw, iorw`.
#[tactic(auto, unfolding(rv_decode::specs::Table::written_word))]
pub fn fence_is_written_in_full() -> u32
    ensures { result ≡ 0x0ff0000f }
{
    encode(&Instr::Fence)
}

/// Bit 11 of a branch's offset stands in bit 7 of the word: `beq x0, x0, 2048` is 000000e3.
#[tactic(auto, unfolding(rv_decode::specs::Table::written_word))]
pub fn bit_11_of_a_branch_stands_in_bit_7() -> u32
    ensures { result ≡ 0x000000e3 }
{
    encode(&Instr::Branch {
        op: BranchOp::Beq,
        rs1: Reg::new(0),
        rs2: Reg::new(0),
        off: 2048,
    })
}

/// The second source stands above the first: `sub x1, x2, x3` is 403100b3.
#[tactic(auto, unfolding(rv_decode::specs::Table::written_word))]
pub fn sources_stand_in_their_order() -> u32
    ensures { result ≡ 0x403100b3 }
{
    encode(&Instr::Arith {
        op: ArithOp::Sub,
        rd: Reg::new(1),
        rs1: Reg::new(2),
        rs2: Reg::new(3),
    })
}

/// An immediate of 2047 fits its word.
pub fn immediate_2047_fits() -> bool
    ensures { result ≡ true }
{
    let least = Instr::Imm {
        op: ImmOp::Addi,
        rd: Reg::new(1),
        rs1: Reg::new(2),
        imm: 2047,
    };
    least.fits()
}

/// One of 2048 fits none.
pub fn immediate_2048_does_not_fit() -> bool
    ensures { result ≡ false }
{
    let more = Instr::Imm {
        op: ImmOp::Addi,
        rd: Reg::new(1),
        rs1: Reg::new(2),
        imm: 2048,
    };
    more.fits()
}

/// A branch by an odd offset fits no word.
pub fn odd_branch_does_not_fit() -> bool
    ensures { result ≡ false }
{
    let branch = Instr::Branch {
        op: BranchOp::Beq,
        rs1: Reg::new(0),
        rs2: Reg::new(0),
        off: 3,
    };
    branch.fits()
}

/// An offset is printed with its sign.
pub fn offset_is_printed_with_its_sign(alloc: Global) -> Result<String, AllocError>
    ensures { IfOk result (λ text. string_bytes text ≡ codes "jal x1, -4") }
{
    print_instr(
        alloc,
        &Instr::Jal {
            rd: Reg::new(1),
            off: -4,
        },
    )
}

/// What a store stores is printed first, and then where.
pub fn store_is_printed_with_its_value_first(alloc: Global) -> Result<String, AllocError>
    ensures { IfOk result (λ text. string_bytes text ≡ codes "sd x5, -8(x2)") }
{
    print_instr(
        alloc,
        &Instr::Store {
            op: StoreOp::Sd,
            rs1: Reg::new(2),
            rs2: Reg::new(5),
            off: -8,
        },
    )
}

/// An upper immediate is printed in hexadecimal digits.
pub fn upper_immediate_is_printed_in_hexadecimal(alloc: Global) -> Result<String, AllocError>
    ensures { IfOk result (λ text. string_bytes text ≡ codes "lui x5, 0xa7") }
{
    print_instr(
        alloc,
        &Instr::Upper {
            op: UpperOp::Lui,
            rd: Reg::new(5),
            imm: 0xa7000,
        },
    )
}
