//! Laws of the definitions, in the subject's own words. The functions do nothing; their clauses are the laws.

ghost use Rattle.std.specs.Prelude.{◌≡◌, ℕ, List};
ghost use Rattle.rv_asm_tokens.specs.Escapes.{text_of};
ghost use Rattle.rv_asm_tokens.specs.Grammar.{IsText, TokensAreSpelled};

/// A line has tokens exactly where it is blanks and these tokens, each spelled as the language has it and as long as it
/// can be, and a comment at the end. It has one reading at most, and a line with none is refused with Token.
pub fn tokens_are_spelled()
    ensures { TokensAreSpelled }
{}

/// What stands between the quotes of a string stands for the bytes that its characters and escapes spell.
pub fn texts_are_spelled()
    ensures { (raw bytes : List ℕ) → IsText raw bytes → text_of raw ≡ bytes }
{}
