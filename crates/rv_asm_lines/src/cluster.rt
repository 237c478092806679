//! Communicators and links.

ghost use Rattle.std.specs.Prelude.{◌≡◌, ◌≤◌};
ghost use Rattle.rv_asm_tokens.specs.Returned.{Gives, Is};
ghost use Rattle.rv_image.specs.Reading.{is_new_rank};
ghost use Rattle.rv_asm_lines.specs.Data.{new_rank as rank_meant, members_from, members_of as members_meant};
ghost use Rattle.rv_asm_lines.specs.Data.{link_between as link_meant};

use rv_asm_statements::Integer;
use rv_asm_tokens::AsmFaultKind;
use rv_image_types::{Link, RANKS_MAX};
use std::alloc::Global;

/// A rank of the image that was not named before, else `Directive`.
fn new_rank(ranks: u8, named: &[u8], number: &Integer) -> Result<u8, AsmFaultKind>
    ensures { Is (λ rank. rank) result (rank_meant ranks named.now number.now) }
{
    let value = number.value();
    if value < 0 || value >= i128::from(ranks) {
        return Err(AsmFaultKind::Directive);
    }
    let rank = value as u8;
    if named.contains(&rank) {
        return Err(AsmFaultKind::Directive);
    }
    Ok(rank)
}

/// The ranks of a communicator: 1 to 8 of the image, none twice, else `Directive`.
#[tactic(auto, unfolding(crate::specs::Data::members_of, crate::specs::Data::members_from))]
pub fn members_of(alloc: Global, ranks: u8, numbers: &[Integer]) -> Result<Vec<u8>, AsmFaultKind>
    ensures { Gives (λ members. members.items) result (members_meant ranks numbers.now) }
{
    if numbers.is_empty() || numbers.len() > RANKS_MAX as usize {
        return Err(AsmFaultKind::Directive);
    }
    let mut named = Vec::new(alloc);
    let mut rest = numbers;
    while let [number, after @ ..] = rest {
        let rank = new_rank(ranks, named.as_slice(), number)?;
        named.push(rank)?;
        rest = after;
    }
    Ok(named)
}

/// A link between two ranks of the image, one not the other, else `Directive`.
#[tactic(auto, unfolding(crate::specs::Data::link_between))]
pub fn link_of(ranks: u8, from: &Integer, to: &Integer) -> Result<Link, AsmFaultKind>
    ensures { Is (λ link. link) result (link_meant ranks from.now to.now) }
{
    let from = new_rank(ranks, &[], from)?;
    let to = new_rank(ranks, &[from], to)?;
    Ok(Link { from, to })
}
