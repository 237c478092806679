//! What the type of instructions holds.

ghost use Rattle.std.specs.Prelude.{All};
ghost use Rattle.rv_asm_print_laws.specs.Range.{IsInRange};

use rv_decode::Instr;

/// An instruction's registers have numbers below 32, and an upper immediate has 32 bits: the types say so.
pub fn in_range(instr: &Instr)
    ensures { IsInRange instr.now }
{
    match *instr {
        Instr::Upper { rd, imm: _imm, .. } => {
            rd.number();
        }
        Instr::Jal { rd, .. } => {
            rd.number();
        }
        Instr::Jalr { rd, rs1, .. }
        | Instr::Load { rd, rs1, .. }
        | Instr::Imm { rd, rs1, .. }
        | Instr::Shift { rd, rs1, .. } => {
            rd.number();
            rs1.number();
        }
        Instr::Branch { rs1, rs2, .. } | Instr::Store { rs1, rs2, .. } => {
            rs1.number();
            rs2.number();
        }
        Instr::Arith { rd, rs1, rs2, .. } => {
            rd.number();
            rs1.number();
            rs2.number();
        }
        Instr::Fence | Instr::Ecall | Instr::Ebreak => {}
    }
}

/// So have all of a program.
pub fn all_in_range(instrs: &[Instr])
    ensures { All IsInRange instrs.now }
{
    for instr in instrs {
        in_range(instr);
    }
}
