//! Numbers and lists of a command line.

ghost use Rattle.std.specs.Prelude.{◌≡◌, [], ◌∷◌, IfOk, None, Some, true};

use rvmc_words::{Numbers, number_in, numbers_in};
use std::alloc::{AllocError, Global};

/// 0 is no budget.
#[tactic(auto, unfolding(rvmc_words::specs::Number::number_in))]
pub fn number_below_its_least() -> Option<u64>
    ensures { result ≡ None }
{
    number_in(1, 16_777_216, "0")
}

/// The greatest budget is a budget, with zeros before it too.
#[tactic(auto, unfolding(rvmc_words::specs::Number::number_in))]
pub fn number_at_its_most() -> Option<u64>
    ensures { result ≡ Some 16777216 }
{
    number_in(1, 16_777_216, "0016777216")
}

/// One more is none.
#[tactic(auto, unfolding(rvmc_words::specs::Number::number_in))]
pub fn number_beyond_its_most() -> Option<u64>
    ensures { result ≡ None }
{
    number_in(1, 16_777_216, "16777217")
}

/// A plus before the digits is no digit.
#[tactic(auto, unfolding(rvmc_words::specs::Number::number_in))]
pub fn number_with_a_plus() -> Option<u64>
    ensures { result ≡ None }
{
    number_in(0, 255, "+5")
}

/// Hex digits are none.
#[tactic(auto, unfolding(rvmc_words::specs::Number::number_in))]
pub fn number_in_hex() -> Option<u64>
    ensures { result ≡ None }
{
    number_in(0, 255, "1f")
}

/// No digit is no number.
#[tactic(auto, unfolding(rvmc_words::specs::Number::number_in))]
pub fn number_of_nothing() -> Option<u64>
    ensures { result ≡ None }
{
    number_in(0, 255, "")
}

/// A list has its numbers in order, with zeros before them too.
#[tactic(auto, unfolding(rvmc_words::specs::Number::numbers_in, rvmc_words::specs::Number::number_in))]
pub fn list_in_its_order(alloc: Global) -> Result<Option<Numbers>, AllocError>
    ensures { IfOk result (λ found. found ≡ Some (255 ∷ 0 ∷ 17 ∷ [])) }
{
    numbers_in(alloc, "255,00,017")
}

/// A blank parts no numbers.
#[tactic(auto, unfolding(rvmc_words::specs::Number::numbers_in, rvmc_words::specs::Number::number_in))]
pub fn list_with_a_blank(alloc: Global) -> Result<Option<Numbers>, AllocError>
    ensures { IfOk result (λ found. found ≡ None) }
{
    numbers_in(alloc, "0 1")
}

/// Nothing between two commas is no number, and such a list is none.
#[tactic(auto, unfolding(rvmc_words::specs::Number::numbers_in, rvmc_words::specs::Number::number_in))]
pub fn list_with_two_commas(alloc: Global) -> Result<Option<Numbers>, AllocError>
    ensures { IfOk result (λ found. found ≡ None) }
{
    numbers_in(alloc, "0,,1")
}

/// 256 is in no list.
#[tactic(auto, unfolding(rvmc_words::specs::Number::numbers_in, rvmc_words::specs::Number::number_in))]
pub fn list_with_256(alloc: Global) -> Result<Option<Numbers>, AllocError>
    ensures { IfOk result (λ found. found ≡ None) }
{
    numbers_in(alloc, "1,256")
}

/// Lists are equal where they have the same numbers in the same order.
pub fn lists_are_equal(a: &Numbers, b: &Numbers) -> bool
    ensures { a.now ≡ b.now → result ≡ true }
{
    a == b
}
