//! Laws of printed instructions. The functions do nothing; their contracts are the laws.

ghost use Rattle.std.specs.Prelude.{◌≡◌, ◌≤◌, ◌<◌, ◌∷◌, [], All, Ok, length};
ghost use Rattle.rv_decode.specs.WordOf.{Fits};
ghost use Rattle.rv_decode.specs.Text.{instr_text};
ghost use Rattle.rv_asm.specs.Source.{meaning};
ghost use Rattle.rv_asm_print_laws.specs.Read.{StandsAnywhere, printed_lines, image_of};

use crate::range::{all_in_range, in_range};
use rv_decode::Instr;

/// The text that `rv_decode::print_instr` writes of an instruction that fits is, as a line of a source's text part,
/// that instruction, wherever it stands: the first pass places it, and the second writes its word.
pub fn printed_line_stands_anywhere(instr: Instr)
    requires { Fits instr }
    ensures { StandsAnywhere (instr_text instr) instr }
{
    in_range(&instr);
}

/// The text that `rv_decode::print_instr` writes of an instruction that fits, taken as a whole source, means the
/// image of that instruction alone.
pub fn printed_text_gives_back(instr: Instr)
    requires { Fits instr }
    ensures { meaning (instr_text instr) ≡ Ok (image_of (instr ∷ [])) }
{
    in_range(&instr);
}

/// A program of instructions that fit, printed with each on a line of its own, means the image of these
/// instructions: there is one at least, and they fit the 65,536 bytes of memory that such an image has.
pub fn printed_listing_gives_back(instrs: &[Instr])
    requires fit { All Fits instrs.now }
    requires any { 0 < length instrs.now }
    requires room { length instrs.now ≤ 16384 }
    ensures { meaning (printed_lines instrs.now) ≡ Ok (image_of instrs.now) }
{
    all_in_range(instrs);
}
