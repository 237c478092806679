//! What several texts have in common: decimal numbers, lists with commas, and the parts between separators.

ghost use Rattle.std.specs.Prelude.{◌≡◌, ◌++◌, ◌∷◌, ◌<◌, ◌==◌, [], IfOk, OnOk, map};
ghost use Rattle.std.specs.List.{join_by, slice_split};
ghost use Rattle.std.specs.Fmt.{decimal};

use std::alloc::{AllocError, Global};

/// What stands before, between and behind the separators, each of which is this ASCII character.
pub(crate) fn parts<'a>(
    alloc: Global,
    separator: char,
    text: &'a str,
) -> Result<Vec<&'a str>, AllocError>
    requires { separator < 128 }
    ensures { IfOk result
        (λ parts. map (λ part. part.now) parts.items ≡ slice_split (λ byte. byte == separator) text.now) }
{
    text.split(separator).collect(alloc)
}

/// Adds a number in decimal.
pub(crate) fn put_number(alloc: Global, text: &mut Vec<u8>, number: u64) -> Result<(), AllocError>
    ensures { OnOk result (text.new.items ≡ text.old.items ++ decimal number) }
{
    let digits = format!(in alloc; "{number}")?;
    text.extend_from_slice(digits.as_bytes())?;
    Ok(())
}

/// Adds numbers in decimal, with one comma between each two.
pub(crate) fn put_numbers(
    alloc: Global,
    text: &mut Vec<u8>,
    numbers: &[u8],
) -> Result<(), AllocError>
    ensures { OnOk result (text.new.items ≡ text.old.items ++ join_by decimal (44 ∷ []) numbers.now) }
{
    let Some((first, others)) = numbers.split_first() else {
        return Ok(());
    };
    put_number(alloc, text, u64::from(*first))?;
    for number in others {
        text.push(b',')?;
        put_number(alloc, text, u64::from(*number))?;
    }
    Ok(())
}
