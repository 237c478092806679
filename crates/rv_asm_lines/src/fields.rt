//! What a source says of the whole image, each thing once; and how many communicators and links it has.

ghost use Rattle.std.specs.Prelude.{◌≡◌, ◌≤◌, ◌%◌, MatchResult, Ok, Err};
ghost use Rattle.rv_image_types.specs.Limits.{most_ranks, most_harts, memory_page, most_memory_bytes};
ghost use Rattle.rv_asm_tokens.specs.Returned.{Is};
ghost use Rattle.rv_asm_lines.specs.Fields.{ranks_of as ranks_meant, harts_of as harts_meant};
ghost use Rattle.rv_asm_lines.specs.Fields.{memory_of as memory_meant, counted_on as counted, fields_after};
ghost use Rattle.rv_asm_lines.specs.Fields.{fields_behind};

use rv_asm_statements::{Directive, HartCount, MemorySize, RankCount, Statement};
use rv_asm_tokens::AsmFaultKind;
use rv_image_types::{COMMS_MAX, LINKS_MAX};

/// The directives so far that say something of the whole image.
#[derive(Clone, Copy)]
pub struct Fields {
    pub ranks: Option<RankCount>,
    pub harts: Option<HartCount>,
    pub memory: Option<MemorySize>,
    /// Whether `.entry` was given.
    pub has_entry: bool,
    /// How many communicators, at most 7.
    pub comms: u8,
    /// How many links, at most 32.
    pub links: u8,
}

/// What a source that says nothing says.
pub const NO_FIELDS: Fields = Fields {
    ranks: None,
    harts: None,
    memory: None,
    has_entry: false,
    comms: 0,
    links: 0,
};

/// How many ranks the image has.
pub fn ranks_of(fields: &Fields) -> u8
    ensures value { result ≡ ranks_meant fields.now }
    ensures least { 1 ≤ result }
    ensures most { result ≤ most_ranks }
{
    match &fields.ranks {
        None => 1,
        Some(ranks) => ranks.number() as u8,
    }
}

/// How many harts each rank has.
pub fn harts_of(fields: &Fields) -> u8
    ensures value { result ≡ harts_meant fields.now }
    ensures least { 1 ≤ result }
    ensures most { result ≤ most_harts }
{
    match &fields.harts {
        None => 1,
        Some(harts) => harts.number() as u8,
    }
}

/// How many bytes of memory each rank has.
pub fn memory_of(fields: &Fields) -> u32
    ensures value { result ≡ memory_meant fields.now }
    ensures least { memory_page ≤ result }
    ensures most { result ≤ most_memory_bytes }
    ensures pages { result % memory_page ≡ 0 }
{
    match &fields.memory {
        None => 65_536,
        Some(memory) => memory.number(),
    }
}

/// One more of at most so many.
fn one_more(most: u8, count: u8) -> Result<u8, AsmFaultKind>
    ensures { Is (λ n. n) result (counted most count) }
{
    if count < most {
        Ok(count + 1)
    } else {
        Err(AsmFaultKind::Limit)
    }
}

/// Takes what a directive says of the whole image: `Directive` where it was said before, and `Limit`.
#[tactic(auto, unfolding(crate::specs::Fields::fields_after))]
fn take_directive(fields: &mut Fields, directive: &Directive) -> Result<(), AsmFaultKind>
    ensures { MatchResult result
        (λ _. fields_after directive.now fields.old ≡ Ok fields.new)
        (λ e. fields_after directive.now fields.old ≡ Err e) }
{
    match directive {
        Directive::Ranks(_) if fields.ranks.is_some() => return Err(AsmFaultKind::Directive),
        Directive::Harts(_) if fields.harts.is_some() => return Err(AsmFaultKind::Directive),
        Directive::Memory(_) if fields.memory.is_some() => return Err(AsmFaultKind::Directive),
        Directive::Entry(_) if fields.has_entry => return Err(AsmFaultKind::Directive),
        Directive::Ranks(ranks) => fields.ranks = Some(*ranks),
        Directive::Harts(harts) => fields.harts = Some(*harts),
        Directive::Memory(memory) => fields.memory = Some(*memory),
        Directive::Entry(_) => fields.has_entry = true,
        Directive::Comm(_) => fields.comms = one_more(COMMS_MAX, fields.comms)?,
        Directive::Link(_, _) => fields.links = one_more(LINKS_MAX, fields.links)?,
        _ => {}
    }
    Ok(())
}

/// Takes what a statement says of the whole image.
pub fn take_fields(fields: &mut Fields, statement: &Statement) -> Result<(), AsmFaultKind>
    ensures { MatchResult result
        (λ _. fields_behind statement.now fields.old ≡ Ok fields.new)
        (λ e. fields_behind statement.now fields.old ≡ Err e) }
{
    match statement {
        Statement::Directive(directive) => take_directive(fields, directive),
        _ => Ok(()),
    }
}
