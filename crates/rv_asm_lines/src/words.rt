//! The words of instructions.

ghost use Rattle.std.specs.Prelude.{◌≡◌, ◌∷◌, []};
ghost use Rattle.rv_decode.specs.Table.{written_word};
ghost use Rattle.rv_decode.specs.WordOf.{Fits};
ghost use Rattle.rv_asm_lines.specs.Places.{IsWritten};
ghost use Rattle.rv_asm_lines.specs.WordsView.{words_list};

use rv_decode::{Instr, encode};

/// The words of one instruction or two.
#[derive(Clone, Copy)]
pub struct Words {
    pub first: u32,
    pub second: Option<u32>,
}

pub fn one(instr: Instr) -> Words
    requires { Fits instr }
    ensures words { words_list result ≡ written_word instr ∷ [] }
    ensures written { IsWritten instr }
{
    Words {
        first: encode(&instr),
        second: None,
    }
}

pub fn two(first: Instr, second: Instr) -> Words
    requires first_fits { Fits first }
    requires second_fits { Fits second }
    ensures words { words_list result ≡ written_word first ∷ written_word second ∷ [] }
    ensures first { IsWritten first }
    ensures second { IsWritten second }
{
    Words {
        first: encode(&first),
        second: Some(encode(&second)),
    }
}
