//! The table of mnemonics: which operands each takes, and which instruction it is.

use rv_decode::{ArithOp, BranchOp, ImmOp, LoadOp, ShiftOp, StoreOp, UpperOp};

/// Which operands stand behind a mnemonic, in order.
#[derive(Clone, Copy)]
pub enum Shape {
    Nothing,
    /// `iorw, iorw`
    Orders,
    Reg,
    RegReg,
    RegRegReg,
    RegNumber,
    RegRegNumber,
    /// A register and `number(register)`.
    RegPlace,
    Target,
    RegTarget,
    RegRegTarget,
    RegLabel,
}

/// Which register stands in a field of the instruction: an operand, x0, or x1.
#[derive(Clone, Copy)]
pub enum Slot {
    First,
    Second,
    Third,
    Zero,
    Link,
}

/// The immediate: the operand's number, or one of the mnemonic's own.
#[derive(Clone, Copy)]
pub enum Amount {
    Written,
    Given(i8),
}

/// The instruction of a mnemonic, its registers in the order of rd, rs1 and rs2.
#[derive(Clone, Copy)]
pub enum Template {
    Upper(UpperOp, Slot),
    Jal(Slot),
    Jalr(Slot, Slot, Amount),
    Branch(BranchOp, Slot, Slot),
    Load(LoadOp, Slot, Slot),
    Store(StoreOp, Slot, Slot),
    Imm(ImmOp, Slot, Slot, Amount),
    Shift(ShiftOp, Slot, Slot),
    Arith(ArithOp, Slot, Slot, Slot),
    Fence,
    Ecall,
    Ebreak,
    /// `li`: one instruction or two, by the number.
    LoadImmediate(Slot),
    /// `la`: two instructions.
    LoadAddress(Slot),
}

/// One mnemonic with the operands that it takes. A mnemonic that takes two kinds of operands has two rows.
#[derive(Clone, Copy)]
pub struct Row {
    pub name: &'static [u8],
    pub shape: Shape,
    pub template: Template,
}

/// The table of rows, one line a row: a mnemonic, the operands that it takes, and its instruction.
macro_rules! rows {
    ($($name:literal $shape:ident $template:expr;)*) => {
        [$(Row { name: $name, shape: Shape::$shape, template: $template }),*]
    };
}

// The rows by the first letter of their names, of a letter real instructions first and then those that stand for others.

pub static A_ROWS: [Row; 7] = rows! {
    b"auipc" RegNumber Template::Upper(UpperOp::Auipc, Slot::First);
    b"addi" RegRegNumber Template::Imm(ImmOp::Addi, Slot::First, Slot::Second, Amount::Written);
    b"andi" RegRegNumber Template::Imm(ImmOp::Andi, Slot::First, Slot::Second, Amount::Written);
    b"addiw" RegRegNumber Template::Imm(ImmOp::Addiw, Slot::First, Slot::Second, Amount::Written);
    b"add" RegRegReg Template::Arith(ArithOp::Add, Slot::First, Slot::Second, Slot::Third);
    b"and" RegRegReg Template::Arith(ArithOp::And, Slot::First, Slot::Second, Slot::Third);
    b"addw" RegRegReg Template::Arith(ArithOp::Addw, Slot::First, Slot::Second, Slot::Third);
};

pub static B_ROWS: [Row; 16] = rows! {
    b"beq" RegRegTarget Template::Branch(BranchOp::Beq, Slot::First, Slot::Second);
    b"bne" RegRegTarget Template::Branch(BranchOp::Bne, Slot::First, Slot::Second);
    b"blt" RegRegTarget Template::Branch(BranchOp::Blt, Slot::First, Slot::Second);
    b"bge" RegRegTarget Template::Branch(BranchOp::Bge, Slot::First, Slot::Second);
    b"bltu" RegRegTarget Template::Branch(BranchOp::Bltu, Slot::First, Slot::Second);
    b"bgeu" RegRegTarget Template::Branch(BranchOp::Bgeu, Slot::First, Slot::Second);
    b"beqz" RegTarget Template::Branch(BranchOp::Beq, Slot::First, Slot::Zero);
    b"bnez" RegTarget Template::Branch(BranchOp::Bne, Slot::First, Slot::Zero);
    b"blez" RegTarget Template::Branch(BranchOp::Bge, Slot::Zero, Slot::First);
    b"bgez" RegTarget Template::Branch(BranchOp::Bge, Slot::First, Slot::Zero);
    b"bltz" RegTarget Template::Branch(BranchOp::Blt, Slot::First, Slot::Zero);
    b"bgtz" RegTarget Template::Branch(BranchOp::Blt, Slot::Zero, Slot::First);
    b"bgt" RegRegTarget Template::Branch(BranchOp::Blt, Slot::Second, Slot::First);
    b"ble" RegRegTarget Template::Branch(BranchOp::Bge, Slot::Second, Slot::First);
    b"bgtu" RegRegTarget Template::Branch(BranchOp::Bltu, Slot::Second, Slot::First);
    b"bleu" RegRegTarget Template::Branch(BranchOp::Bgeu, Slot::Second, Slot::First);
};

pub static D_ROWS: [Row; 4] = rows! {
    b"div" RegRegReg Template::Arith(ArithOp::Div, Slot::First, Slot::Second, Slot::Third);
    b"divu" RegRegReg Template::Arith(ArithOp::Divu, Slot::First, Slot::Second, Slot::Third);
    b"divw" RegRegReg Template::Arith(ArithOp::Divw, Slot::First, Slot::Second, Slot::Third);
    b"divuw" RegRegReg Template::Arith(ArithOp::Divuw, Slot::First, Slot::Second, Slot::Third);
};

pub static E_ROWS: [Row; 2] = rows! {
    b"ecall" Nothing Template::Ecall;
    b"ebreak" Nothing Template::Ebreak;
};

pub static F_ROWS: [Row; 2] = rows! {
    b"fence" Nothing Template::Fence;
    b"fence" Orders Template::Fence;
};

pub static J_ROWS: [Row; 6] = rows! {
    b"jal" RegTarget Template::Jal(Slot::First);
    b"jal" Target Template::Jal(Slot::Link);
    b"jalr" RegPlace Template::Jalr(Slot::First, Slot::Second, Amount::Written);
    b"jalr" Reg Template::Jalr(Slot::Link, Slot::First, Amount::Given(0));
    b"j" Target Template::Jal(Slot::Zero);
    b"jr" Reg Template::Jalr(Slot::Zero, Slot::First, Amount::Given(0));
};

pub static L_ROWS: [Row; 10] = rows! {
    b"lui" RegNumber Template::Upper(UpperOp::Lui, Slot::First);
    b"lb" RegPlace Template::Load(LoadOp::Lb, Slot::First, Slot::Second);
    b"lh" RegPlace Template::Load(LoadOp::Lh, Slot::First, Slot::Second);
    b"lw" RegPlace Template::Load(LoadOp::Lw, Slot::First, Slot::Second);
    b"ld" RegPlace Template::Load(LoadOp::Ld, Slot::First, Slot::Second);
    b"lbu" RegPlace Template::Load(LoadOp::Lbu, Slot::First, Slot::Second);
    b"lhu" RegPlace Template::Load(LoadOp::Lhu, Slot::First, Slot::Second);
    b"lwu" RegPlace Template::Load(LoadOp::Lwu, Slot::First, Slot::Second);
    b"li" RegNumber Template::LoadImmediate(Slot::First);
    b"la" RegLabel Template::LoadAddress(Slot::First);
};

pub static M_ROWS: [Row; 6] = rows! {
    b"mul" RegRegReg Template::Arith(ArithOp::Mul, Slot::First, Slot::Second, Slot::Third);
    b"mulh" RegRegReg Template::Arith(ArithOp::Mulh, Slot::First, Slot::Second, Slot::Third);
    b"mulhsu" RegRegReg Template::Arith(ArithOp::Mulhsu, Slot::First, Slot::Second, Slot::Third);
    b"mulhu" RegRegReg Template::Arith(ArithOp::Mulhu, Slot::First, Slot::Second, Slot::Third);
    b"mulw" RegRegReg Template::Arith(ArithOp::Mulw, Slot::First, Slot::Second, Slot::Third);
    b"mv" RegReg Template::Imm(ImmOp::Addi, Slot::First, Slot::Second, Amount::Given(0));
};

pub static N_ROWS: [Row; 4] = rows! {
    b"nop" Nothing Template::Imm(ImmOp::Addi, Slot::Zero, Slot::Zero, Amount::Given(0));
    b"not" RegReg Template::Imm(ImmOp::Xori, Slot::First, Slot::Second, Amount::Given(-1));
    b"neg" RegReg Template::Arith(ArithOp::Sub, Slot::First, Slot::Zero, Slot::Second);
    b"negw" RegReg Template::Arith(ArithOp::Subw, Slot::First, Slot::Zero, Slot::Second);
};

pub static O_ROWS: [Row; 2] = rows! {
    b"ori" RegRegNumber Template::Imm(ImmOp::Ori, Slot::First, Slot::Second, Amount::Written);
    b"or" RegRegReg Template::Arith(ArithOp::Or, Slot::First, Slot::Second, Slot::Third);
};

pub static R_ROWS: [Row; 5] = rows! {
    b"rem" RegRegReg Template::Arith(ArithOp::Rem, Slot::First, Slot::Second, Slot::Third);
    b"remu" RegRegReg Template::Arith(ArithOp::Remu, Slot::First, Slot::Second, Slot::Third);
    b"remw" RegRegReg Template::Arith(ArithOp::Remw, Slot::First, Slot::Second, Slot::Third);
    b"remuw" RegRegReg Template::Arith(ArithOp::Remuw, Slot::First, Slot::Second, Slot::Third);
    b"ret" Nothing Template::Jalr(Slot::Zero, Slot::Link, Amount::Given(0));
};

pub static SL_ROWS: [Row; 9] = rows! {
    b"slti" RegRegNumber Template::Imm(ImmOp::Slti, Slot::First, Slot::Second, Amount::Written);
    b"sltiu" RegRegNumber Template::Imm(ImmOp::Sltiu, Slot::First, Slot::Second, Amount::Written);
    b"slli" RegRegNumber Template::Shift(ShiftOp::Slli, Slot::First, Slot::Second);
    b"slliw" RegRegNumber Template::Shift(ShiftOp::Slliw, Slot::First, Slot::Second);
    b"sll" RegRegReg Template::Arith(ArithOp::Sll, Slot::First, Slot::Second, Slot::Third);
    b"slt" RegRegReg Template::Arith(ArithOp::Slt, Slot::First, Slot::Second, Slot::Third);
    b"sltu" RegRegReg Template::Arith(ArithOp::Sltu, Slot::First, Slot::Second, Slot::Third);
    b"sllw" RegRegReg Template::Arith(ArithOp::Sllw, Slot::First, Slot::Second, Slot::Third);
    b"sltz" RegReg Template::Arith(ArithOp::Slt, Slot::First, Slot::Second, Slot::Zero);
};

pub static SR_ROWS: [Row; 8] = rows! {
    b"srli" RegRegNumber Template::Shift(ShiftOp::Srli, Slot::First, Slot::Second);
    b"srai" RegRegNumber Template::Shift(ShiftOp::Srai, Slot::First, Slot::Second);
    b"srliw" RegRegNumber Template::Shift(ShiftOp::Srliw, Slot::First, Slot::Second);
    b"sraiw" RegRegNumber Template::Shift(ShiftOp::Sraiw, Slot::First, Slot::Second);
    b"srl" RegRegReg Template::Arith(ArithOp::Srl, Slot::First, Slot::Second, Slot::Third);
    b"sra" RegRegReg Template::Arith(ArithOp::Sra, Slot::First, Slot::Second, Slot::Third);
    b"srlw" RegRegReg Template::Arith(ArithOp::Srlw, Slot::First, Slot::Second, Slot::Third);
    b"sraw" RegRegReg Template::Arith(ArithOp::Sraw, Slot::First, Slot::Second, Slot::Third);
};

pub static S_ROWS: [Row; 10] = rows! {
    b"sb" RegPlace Template::Store(StoreOp::Sb, Slot::Second, Slot::First);
    b"sh" RegPlace Template::Store(StoreOp::Sh, Slot::Second, Slot::First);
    b"sw" RegPlace Template::Store(StoreOp::Sw, Slot::Second, Slot::First);
    b"sd" RegPlace Template::Store(StoreOp::Sd, Slot::Second, Slot::First);
    b"sub" RegRegReg Template::Arith(ArithOp::Sub, Slot::First, Slot::Second, Slot::Third);
    b"subw" RegRegReg Template::Arith(ArithOp::Subw, Slot::First, Slot::Second, Slot::Third);
    b"sext.w" RegReg Template::Imm(ImmOp::Addiw, Slot::First, Slot::Second, Amount::Given(0));
    b"seqz" RegReg Template::Imm(ImmOp::Sltiu, Slot::First, Slot::Second, Amount::Given(1));
    b"snez" RegReg Template::Arith(ArithOp::Sltu, Slot::First, Slot::Zero, Slot::Second);
    b"sgtz" RegReg Template::Arith(ArithOp::Slt, Slot::First, Slot::Zero, Slot::Second);
};

pub static X_ROWS: [Row; 2] = rows! {
    b"xori" RegRegNumber Template::Imm(ImmOp::Xori, Slot::First, Slot::Second, Amount::Written);
    b"xor" RegRegReg Template::Arith(ArithOp::Xor, Slot::First, Slot::Second, Slot::Third);
};
