//! The bytes of instructions.

ghost use Rattle.std.specs.Prelude.{◌≡◌, ◌++◌, OnOk, MatchResult, Ok, Err};
ghost use Rattle.std.specs.List.{flat_map};
ghost use Rattle.std.specs.Int.{w32, to_le_bytes};
ghost use Rattle.rv_asm_tokens.specs.declared.fault.AsmFaultKind.TheVariants as kinds;
ghost use Rattle.rv_asm_tokens.specs.Returned.{Fails};
ghost use Rattle.rv_asm_lines.specs.Refused.{NoFault};
ghost use Rattle.rv_asm_lines.specs.LayoutView.{addresses_view};
ghost use Rattle.rv_asm_lines.specs.WordsView.{words_list};
ghost use Rattle.rv_asm_lines.specs.Resolved.{instrs_of};
ghost use Rattle.rv_asm_lines.specs.Places.{AllWritten, IfRight};
ghost use Rattle.rv_asm_lines.specs.Output.{with_use};

use crate::layout::Layout;
use crate::resolved::words_of;
use crate::words::Words;
use rv_asm_statements::Use;
use rv_asm_tokens::AsmFaultKind;
use std::alloc::AllocError;

fn put_word(text: &mut Vec<u8>, word: u32) -> Result<(), AllocError>
    ensures { OnOk result (text.new.items ≡ text.old.items ++ to_le_bytes w32 word) }
{
    text.extend_from_slice(&word.to_le_bytes())
}

fn put_words(text: &mut Vec<u8>, words: &Words) -> Result<(), AllocError>
    ensures { OnOk result (text.new.items ≡ text.old.items ++ flat_map (to_le_bytes w32) (words_list words.now)) }
{
    put_word(text, words.first)?;
    match words.second {
        None => Ok(()),
        Some(second) => put_word(text, second),
    }
}

/// Adds the instructions of a mnemonic and its operands at an address.
#[tactic(auto, unfolding(crate::specs::Output::with_use))]
pub fn put_use(
    layout: &Layout<'_>,
    at: u64,
    found: &Use,
    text: &mut Vec<u8>,
) -> Result<(), AsmFaultKind>
    ensures text { MatchResult result
        (λ _. with_use (addresses_view layout.now) at found.now text.old.items ≡ Ok text.new.items)
        (λ e. Fails e (with_use (addresses_view layout.now) at found.now text.old.items)) }
    ensures memory { result ≡ Err kinds.Memory
        → NoFault (with_use (addresses_view layout.now) at found.now text.old.items) }
    ensures written { OnOk result
        (IfRight (instrs_of (addresses_view layout.now) at found.now.template found.now.filled) AllWritten) }
{
    let words = words_of(layout, at, found.template, &found.filled)?;
    put_words(text, &words)?;
    Ok(())
}
