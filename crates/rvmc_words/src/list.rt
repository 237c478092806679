//! Lists of small decimal numbers.

ghost use Rattle.std.specs.Prelude.{◌≡◌, ◌<◌, ◌==◌, IfOk, map, nat_eq};
ghost use Rattle.std.specs.List.{slice_split};
ghost use Rattle.std.specs.Cmp.{partial_equiv_from_equiv};
ghost use Rattle.std.specs.Cmp.Lexicographic.{nat_list_eq_equiv, pointwise};
ghost use Rattle.rvmc_words.specs.Number.{each_number, numbers_in};

use crate::number::number_in;
use std::alloc::{AllocError, Global};
use std::marker::Model;

/// Numbers from 0 to 255, as a list of harts or of ranks names them. Contracts see a list of numbers.
#[derive(Drop)]
pub struct Numbers {
    items: Vec<u8>,
}

impl Model for Numbers {
    ghost use Rattle.std.specs.Prelude.{List, ℕ};

    ghost Value = { List ℕ };

    ghost view = { λ numbers. numbers.items.items };
}

impl PartialEq for Numbers {
    ghost eq = { pointwise nat_eq };

    ghost laws = { partial_equiv_from_equiv nat_list_eq_equiv };

    fn eq(&self, other: &Numbers) -> bool {
        self.as_slice() == other.as_slice()
    }
}

impl Eq for Numbers {
    ghost laws = { nat_list_eq_equiv };
}

impl Numbers {
    /// The numbers of a vector. Takes no memory.
    pub fn from_vec(items: Vec<u8>) -> Numbers
        ensures { result ≡ items.items }
    {
        Numbers { items }
    }

    /// The numbers, in the order in which they were written.
    pub fn as_slice(&self) -> &[u8]
        ensures { result.now ≡ self.now }
    {
        self.items.as_slice()
    }
}

/// What stands before, between and behind the separators, each of which is this ASCII character.
pub(crate) fn parts<'a>(
    alloc: Global,
    separator: char,
    text: &'a str,
) -> Result<Vec<&'a str>, AllocError>
    requires { separator < 128 }
    ensures { IfOk result
        (λ parts. map (λ part. part.now) parts.items ≡ slice_split (λ byte. byte == separator) text.now) }
{
    text.split(separator).collect(alloc)
}

/// The number of each text, or None where one of them is none.
fn each_number(alloc: Global, texts: &[&str]) -> Result<Option<Numbers>, AllocError>
    ensures { IfOk result (λ found. found ≡ each_number (map (λ text. text.now) texts.now)) }
{
    let mut items = Vec::new(alloc);
    for text in texts {
        let Some(number) = number_in(0, 255, text) else {
            return Ok(None);
        };
        items.push(number as u8)?;
    }
    Ok(Some(Numbers { items }))
}

/// The numbers that a text writes: decimal numbers from 0 to 255, with one comma between them. Anything else in it, a
/// blank too, is no such list, nor is a text with no number.
#[tactic(auto, unfolding(crate::specs::Number::numbers_in))]
pub fn numbers_in(alloc: Global, text: &str) -> Result<Option<Numbers>, AllocError>
    ensures { IfOk result (λ found. found ≡ numbers_in text.now) }
{
    let parts = parts(alloc, ',', text)?;
    each_number(alloc, &parts)
}
