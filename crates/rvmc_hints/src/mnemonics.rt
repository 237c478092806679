//! The mnemonics and the directives, and what each takes, as docs/ASSEMBLER.md lists them.

ghost use Rattle.std.specs.Prelude.{◌≡◌, IfSome, option_map};
ghost use Rattle.rvmc_hints.specs.Sources.{here_for};

use crate::hint::Place;

/// A mnemonic or a directive, the kinds of its operands, each register and number by itself, and what it takes.
#[derive(Clone, Copy)]
pub struct Row {
    pub name: &'static str,
    pub places: &'static [Place],
    pub operands: &'static str,
}

/// The table of rows, one line a row.
macro_rules! rows {
    ($($name:literal [$($place:ident)*] $operands:literal;)*) => {
        [$(Row { name: $name, places: &[$(Place::$place),*], operands: $operands }),*]
    };
}

/// The mnemonics, each once.
static MNEMONICS: [Row; 90] = rows! {
    "lui" [Register Number] "rd, n with n from 0 to 1048575";
    "auipc" [Register Number] "rd, n with n from 0 to 1048575";
    "jal" [Register Target] "rd, target or target alone";
    "jalr" [Register Number Register] "rd, n(rs1), with n never left out, or rs1 alone";
    "beq" [Register Register Target] "rs1, rs2, target";
    "bne" [Register Register Target] "rs1, rs2, target";
    "blt" [Register Register Target] "rs1, rs2, target";
    "bge" [Register Register Target] "rs1, rs2, target";
    "bltu" [Register Register Target] "rs1, rs2, target";
    "bgeu" [Register Register Target] "rs1, rs2, target";
    "lb" [Register Number Register] "rd, n(rs1) with n from -2048 to 2047, never left out";
    "lh" [Register Number Register] "rd, n(rs1) with n from -2048 to 2047, never left out";
    "lw" [Register Number Register] "rd, n(rs1) with n from -2048 to 2047, never left out";
    "ld" [Register Number Register] "rd, n(rs1) with n from -2048 to 2047, never left out";
    "lbu" [Register Number Register] "rd, n(rs1) with n from -2048 to 2047, never left out";
    "lhu" [Register Number Register] "rd, n(rs1) with n from -2048 to 2047, never left out";
    "lwu" [Register Number Register] "rd, n(rs1) with n from -2048 to 2047, never left out";
    "sb" [Register Number Register] "rs2, n(rs1) with n from -2048 to 2047, never left out";
    "sh" [Register Number Register] "rs2, n(rs1) with n from -2048 to 2047, never left out";
    "sw" [Register Number Register] "rs2, n(rs1) with n from -2048 to 2047, never left out";
    "sd" [Register Number Register] "rs2, n(rs1) with n from -2048 to 2047, never left out";
    "addi" [Register Register Number] "rd, rs1, n with n from -2048 to 2047";
    "slti" [Register Register Number] "rd, rs1, n with n from -2048 to 2047";
    "sltiu" [Register Register Number] "rd, rs1, n with n from -2048 to 2047";
    "xori" [Register Register Number] "rd, rs1, n with n from -2048 to 2047";
    "ori" [Register Register Number] "rd, rs1, n with n from -2048 to 2047";
    "andi" [Register Register Number] "rd, rs1, n with n from -2048 to 2047";
    "addiw" [Register Register Number] "rd, rs1, n with n from -2048 to 2047";
    "slli" [Register Register Number] "rd, rs1, n with n from 0 to 63";
    "srli" [Register Register Number] "rd, rs1, n with n from 0 to 63";
    "srai" [Register Register Number] "rd, rs1, n with n from 0 to 63";
    "slliw" [Register Register Number] "rd, rs1, n with n from 0 to 31";
    "srliw" [Register Register Number] "rd, rs1, n with n from 0 to 31";
    "sraiw" [Register Register Number] "rd, rs1, n with n from 0 to 31";
    "add" [Register Register Register] "rd, rs1, rs2";
    "sub" [Register Register Register] "rd, rs1, rs2";
    "sll" [Register Register Register] "rd, rs1, rs2";
    "slt" [Register Register Register] "rd, rs1, rs2";
    "sltu" [Register Register Register] "rd, rs1, rs2";
    "xor" [Register Register Register] "rd, rs1, rs2";
    "srl" [Register Register Register] "rd, rs1, rs2";
    "sra" [Register Register Register] "rd, rs1, rs2";
    "or" [Register Register Register] "rd, rs1, rs2";
    "and" [Register Register Register] "rd, rs1, rs2";
    "addw" [Register Register Register] "rd, rs1, rs2";
    "subw" [Register Register Register] "rd, rs1, rs2";
    "sllw" [Register Register Register] "rd, rs1, rs2";
    "srlw" [Register Register Register] "rd, rs1, rs2";
    "sraw" [Register Register Register] "rd, rs1, rs2";
    "mul" [Register Register Register] "rd, rs1, rs2";
    "mulh" [Register Register Register] "rd, rs1, rs2";
    "mulhsu" [Register Register Register] "rd, rs1, rs2";
    "mulhu" [Register Register Register] "rd, rs1, rs2";
    "div" [Register Register Register] "rd, rs1, rs2";
    "divu" [Register Register Register] "rd, rs1, rs2";
    "rem" [Register Register Register] "rd, rs1, rs2";
    "remu" [Register Register Register] "rd, rs1, rs2";
    "mulw" [Register Register Register] "rd, rs1, rs2";
    "divw" [Register Register Register] "rd, rs1, rs2";
    "divuw" [Register Register Register] "rd, rs1, rs2";
    "remw" [Register Register Register] "rd, rs1, rs2";
    "remuw" [Register Register Register] "rd, rs1, rs2";
    "fence" [Orders Orders] "nothing, or iorw, iorw";
    "ecall" [] "nothing";
    "ebreak" [] "nothing";
    "nop" [] "nothing";
    "ret" [] "nothing";
    "mv" [Register Register] "rd, rs";
    "not" [Register Register] "rd, rs";
    "neg" [Register Register] "rd, rs";
    "negw" [Register Register] "rd, rs";
    "sext.w" [Register Register] "rd, rs";
    "seqz" [Register Register] "rd, rs";
    "snez" [Register Register] "rd, rs";
    "sltz" [Register Register] "rd, rs";
    "sgtz" [Register Register] "rd, rs";
    "beqz" [Register Target] "rs, target";
    "bnez" [Register Target] "rs, target";
    "blez" [Register Target] "rs, target";
    "bgez" [Register Target] "rs, target";
    "bltz" [Register Target] "rs, target";
    "bgtz" [Register Target] "rs, target";
    "bgt" [Register Register Target] "rs1, rs2, target";
    "ble" [Register Register Target] "rs1, rs2, target";
    "bgtu" [Register Register Target] "rs1, rs2, target";
    "bleu" [Register Register Target] "rs1, rs2, target";
    "j" [Target] "target";
    "jr" [Register] "rs";
    "li" [Register Number] "rd, n with n from -2147483648 to 2147483647";
    "la" [Register Label] "rd, label";
};

/// The directives. What stands behind one is no list of kinds.
static DIRECTIVES: [Row; 17] = rows! {
    ".ranks" [] "a number from 1 to 8, once";
    ".harts" [] "a number from 1 to 4, once";
    ".memory" [] "a number from 4096 to 1048576 in whole 4096s, once";
    ".entry" [] "the label of a word of the text, once";
    ".comm" [] "ranks of the image, none twice";
    ".link" [] "two ranks of the image that differ";
    ".text" [] "nothing";
    ".data" [] "nothing";
    ".byte" [] "numbers from -128 to 255, in the data part";
    ".half" [] "numbers from -32768 to 65535, in the data part";
    ".word" [] "numbers from -2147483648 to 4294967295, and labels";
    ".dword" [] "numbers and labels, in the data part";
    ".ascii" [] "one string, in the data part";
    ".asciz" [] "one string, in the data part";
    ".zero" [] "a number from 0 to 1048576, in the data part";
    ".balign" [] "1, 2, 4, 8 or 16, in the data part";
    ".globl" [] "one name of at most 31 bytes";
};

/// The rows of the mnemonics.
pub fn mnemonics() -> &'static [Row] {
    &MNEMONICS
}

/// The rows of the directives.
pub fn directives() -> &'static [Row] {
    &DIRECTIVES
}

/// The row of a name.
pub fn row_of<'a>(table: &'a [Row], name: &[u8]) -> Option<&'a Row>
    ensures { IfSome result (λ row. row.now.name.now ≡ name.now) }
{
    for row in table {
        if row.name.as_bytes() == name {
            return Some(row);
        }
    }
    None
}

/// What does the same here as a mnemonic of GNU as.
pub fn here_for(name: &[u8]) -> Option<&'static str>
    ensures { option_map (λ here. here.now) result ≡ here_for name.now }
{
    if name == b"call".as_slice() {
        Some("jal")
    } else if name == b"tail".as_slice() {
        Some("j")
    } else {
        None
    }
}
