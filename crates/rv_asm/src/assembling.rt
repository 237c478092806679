//! Both passes, and what is tested of the whole.

ghost use Rattle.std.specs.Prelude.{◌≡◌, ◌≤◌, ◌<◌, ◌+◌, ◌*◌, ◌^◌, ◌&&◌, length, nat_le, if◌then◌else◌, MatchResult};
ghost use Rattle.std.specs.Prelude.{IfOk, IfErr, OnOk, Ok, Err, Some, List, ℕ, [], true};
ghost use Rattle.std.specs.Str.Lines.{lines};
ghost use Rattle.rv_image_types.specs.Image.{data_start};
ghost use Rattle.rv_asm_tokens.specs.declared.fault.AsmFaultKind.TheVariants as kinds;
ghost use Rattle.rv_asm_tokens.specs.Returned.{Fails};
ghost use Rattle.rv_asm_lines.specs.Refused.{NoFault};
ghost use Rattle.rv_asm_lines.specs.Layout.{Layout as Laid, addresses, at_end, with_item, placed, line_step, lines_from, layout_of};
ghost use Rattle.rv_asm_lines.specs.Layout.{next_place as next_place_meant};
ghost use Rattle.rv_asm_lines.specs.StatementStep.{statement_step};
ghost use Rattle.rv_asm_lines.specs.Parts.{data_may_stand, length_of};
ghost use Rattle.rv_asm_lines.specs.LayoutView.{addresses_view, layout_view, names_view};
ghost use Rattle.rv_asm_lines.specs.Fields.{ranks_of as ranks_meant};
ghost use Rattle.rv_asm_lines.specs.Output.{items_from, empty_output};
ghost use Rattle.rv_asm_lines.specs.OutputView.{output_view};
ghost use Rattle.rv_asm_lines.specs.Places.{AreSound, HoldCode};
ghost use Rattle.rv_image_types.specs.declared.images.Symbol.{Symbol};
ghost use Rattle.rv_image_types.specs.Limits.{most_harts, memory_page};
ghost use Rattle.rv_asm.specs.Source.{finished, fits_memory, meaning, parts_of};
ghost use Rattle.rv_asm.specs.Made.{FailsAt, IsWhole};

use crate::symbols::symbols_of;
use indexmap::IndexMap;
use rv_asm_lines::{
    Fields, Item, Layout, NO_FIELDS, Output, Part, Place, harts_of, length_of_statement, may_stand,
    memory_of, next_place, part_after, ranks_of, take_fields, take_global, take_item, take_labels,
};
use rv_asm_statements::{Statement, Width, long_data, parse_statement};
use rv_asm_tokens::{AsmFault, AsmFaultKind, Tokens};
use rv_image_types::{
    Comms, Image, ImageParts, ImageVersion, Links, MEMORY_MAX, PAGE, Segment, Symbols,
};
use std::alloc::{AllocError, Global};
use std::collections::BTreeSet;

/// Takes what a statement at a place says of the image, and the name that it gives. Tells where its part ends behind it.
/// `Directive` where the statement may not stand there, and `Limit` where the part grows past 1,048,576 bytes, and for one
/// name of `.globl` too many.
#[tactic(auto, unfolding(rv_asm_lines::specs::Layout::placed))]
fn admit(
    alloc: Global,
    place: Place,
    fields: &mut Fields,
    globals: &mut BTreeSet<Vec<u8>>,
    statement: &Statement,
) -> Result<u32, AsmFaultKind>
    ensures value { (line : ℕ) (s : Laid)
        → next_place_meant s ≡ place → s.fields ≡ fields.old → s.globals ≡ names_view globals.old → MatchResult result
        (λ _. placed line s (Some statement.now)
        ≡ Ok (with_item line s statement.now fields.new (names_view globals.new)))
        (λ e. Fails e (placed line s (Some statement.now))) }
    ensures memory { result ≡ Err kinds.Memory → (line : ℕ) (s : Laid)
        → next_place_meant s ≡ place → s.fields ≡ fields.old → s.globals ≡ names_view globals.old
        → NoFault (placed line s (Some statement.now)) }
    ensures end { IfOk result (λ end. end ≡ place.at + length_of place.at statement.now) }
{
    if !may_stand(place.part, statement) {
        return Err(AsmFaultKind::Directive);
    }
    take_fields(fields, statement)?;
    let end = u128::from(place.at) + length_of_statement(place.at, statement);
    if end > u128::from(MEMORY_MAX) {
        return Err(AsmFaultKind::Limit);
    }
    take_global(alloc, globals, statement)?;
    Ok(end as u32)
}

/// Puts a statement behind all others. Its part then ends there.
fn put_item(
    alloc: Global,
    line: u64,
    layout: &mut Layout<'_>,
    end: u32,
    statement: Statement,
) -> Result<(), AllocError>
    requires { end ≡ at_end (layout_view layout.old) + length_of (at_end (layout_view layout.old)) statement }
    ensures { OnOk result (layout_view layout.new
        ≡ with_item line (layout_view layout.old) statement layout.old.fields (names_view layout.old.globals)) }
{
    let place = next_place(layout);
    let next = part_after(place.part, &statement);
    let item = Item::stated(alloc, line, place, statement)?;
    layout.items.push(item)?;
    match place.part {
        Part::Text => layout.text = end,
        Part::Data => layout.init = end,
    }
    layout.part = next;
    Ok(())
}

/// Adds the statement of a line, if it has one.
#[tactic(auto, unfolding(rv_asm_lines::specs::Layout::placed))]
fn place(
    alloc: Global,
    line: u64,
    layout: &mut Layout<'_>,
    statement: Option<Statement>,
) -> Result<(), AsmFaultKind>
    ensures value { MatchResult result
        (λ _. placed line (layout_view layout.old) statement ≡ Ok (layout_view layout.new))
        (λ e. Fails e (placed line (layout_view layout.old) statement)) }
    ensures memory { result ≡ Err kinds.Memory → NoFault (placed line (layout_view layout.old) statement) }
{
    let Some(statement) = statement else {
        return Ok(());
    };
    let at = next_place(layout);
    let end = admit(
        alloc,
        at,
        &mut layout.fields,
        &mut layout.globals,
        &statement,
    )?;
    put_item(alloc, line, layout, end, statement)?;
    Ok(())
}

/// Why a line with more data than a part can hold is refused.
fn too_long(part: Part, width: Width) -> AsmFaultKind
    ensures { result ≡ (if data_may_stand part width then kinds.Limit else kinds.Directive) }
{
    if matches!(part, Part::Data) || matches!(width, Width::Word) {
        AsmFaultKind::Limit
    } else {
        AsmFaultKind::Directive
    }
}

/// The most items that a part can hold.
const MOST_ITEMS: u32 = MEMORY_MAX;

/// Adds the statement behind a line's labels. Data that no part can hold is refused before memory is asked for it.
#[tactic(auto, using(crate::proofs::LongLines::long_fails))]
fn take_statement(
    alloc: Global,
    number: u64,
    layout: &mut Layout<'_>,
    tokens: &Tokens<'_>,
) -> Result<(), AsmFaultKind>
    ensures { MatchResult result
        (λ _. statement_step number (layout_view layout.old) tokens.now ≡ Ok (layout_view layout.new))
        (λ e. Fails e (statement_step number (layout_view layout.old) tokens.now)) }
{
    if let Some(width) = long_data(MOST_ITEMS, tokens) {
        return Err(too_long(layout.part, width));
    }
    let statement = parse_statement(alloc, tokens)?;
    place(alloc, number, layout, statement)
}

/// Adds one line.
#[tactic(auto, unfolding(rv_asm_lines::specs::Layout::line_step))]
fn take_line<'a>(
    alloc: Global,
    number: u64,
    layout: &mut Layout<'a>,
    line: &'a [u8],
) -> Result<(), AsmFaultKind>
    ensures { MatchResult result
        (λ _. line_step number (layout_view layout.old) line.now ≡ Ok (layout_view layout.new))
        (λ e. Fails e (line_step number (layout_view layout.old) line.now)) }
{
    let mut tokens = Tokens::of_line(line)?;
    take_labels(number, layout, &mut tokens)?;
    take_statement(alloc, number, layout, &tokens)
}

/// Adds all lines of a source.
fn take_lines<'a>(alloc: Global, layout: &mut Layout<'a>, source: &'a str) -> Result<(), AsmFault>
    ensures { MatchResult result
        (λ _. lines_from 1 (layout_view layout.old) (lines source.now) ≡ Ok (layout_view layout.new))
        (λ fault. FailsAt fault (lines_from 1 (layout_view layout.old) (lines source.now))) }
{
    // the text fits the memory, so that its lines can be counted
    let text = source.as_bytes();
    let mut number: u64 = 0;
    for line in source.lines() {
        number += 1;
        match take_line(alloc, number, layout, line.as_bytes()) {
            Ok(()) => {}
            Err(kind) => return Err(AsmFault { line: number, kind }),
        }
    }
    Ok(())
}

/// Where everything of a source stands, or the first fault of the first pass.
fn layout_source<'a>(alloc: Global, source: &'a str) -> Result<Layout<'a>, AsmFault>
    ensures { MatchResult result
        (λ layout. layout_of source.now ≡ Ok (layout_view layout))
        (λ fault. FailsAt fault (layout_of source.now)) }
{
    let mut layout = Layout {
        text: 0,
        init: 0,
        part: Part::Text,
        fields: NO_FIELDS,
        globals: BTreeSet::new(alloc),
        labels: IndexMap::new(alloc),
        items: Vec::new(alloc),
    };
    match take_lines(alloc, &mut layout, source) {
        Ok(()) => Ok(layout),
        Err(fault) => Err(fault),
    }
}

/// Adds what all items are.
fn take_items(alloc: Global, layout: &Layout<'_>, output: &mut Output) -> Result<(), AsmFault>
    ensures output { MatchResult result
        (λ _. items_from (layout_view layout.now) (output_view output.old) layout.now.items.items
        ≡ Ok (output_view output.new))
        (λ fault. FailsAt fault
        (items_from (layout_view layout.now) (output_view output.old) layout.now.items.items)) }
    ensures sound { OnOk result (AreSound (addresses_view layout.now) layout.now.items.items) }
{
    for item in &layout.items {
        match take_item(alloc, layout, item, output) {
            Ok(()) => {}
            Err(kind) => return Err(AsmFault {
                line: item.line(),
                kind,
            }),
        }
    }
    Ok(())
}

/// The text and the entry, or the first fault of the second pass.
fn make_output(alloc: Global, layout: &Layout<'_>) -> Result<Output, AsmFault>
    ensures output { MatchResult result
        (λ output. items_from (layout_view layout.now) empty_output layout.now.items.items ≡ Ok (output_view output))
        (λ fault. FailsAt fault (items_from (layout_view layout.now) empty_output layout.now.items.items)) }
    ensures sound { OnOk result (AreSound (addresses_view layout.now) layout.now.items.items) }
{
    let mut output = Output {
        text: Vec::new(alloc),
        init: Vec::new(alloc),
        entry: None,
        comms: Vec::new(alloc),
        links: Vec::new(alloc),
    };
    match take_items(alloc, layout, &mut output) {
        Ok(()) => Ok(output),
        Err(fault) => Err(fault),
    }
}

/// Whether harts, text and data fit the memory.
fn fits(harts: u32, memory: u32, text: usize, init: usize) -> bool
    requires { harts ≤ most_harts }
    ensures { result
        ≡ (nat_le (memory_page * harts) memory && (nat_le text memory && nat_le (data_start text + init) memory)) }
{
    if PAGE * harts > memory || text as u64 > u64::from(memory) {
        return false;
    }
    let start = (text as u64 + 15) / 16 * 16;
    u128::from(start) + init as u128 <= u128::from(memory)
}

/// The bytes of a part, as an image has them. The only fault is `Memory`, of no line.
fn segment(bytes: Vec<u8>) -> Result<Segment, AsmFault>
    ensures bytes { IfOk result (λ segment. segment ≡ bytes.items) }
    ensures memory { IfErr result (λ fault. fault.kind ≡ kinds.Memory) }
{
    match Segment::from_vec(bytes) {
        Ok(segment) => Ok(segment),
        Err(_) => Err(AsmFault {
            line: 0,
            kind: AsmFaultKind::Memory,
        }),
    }
}

/// The bytes of both parts.
fn segments(text: Vec<u8>, init: Vec<u8>) -> Result<(Segment, Segment), AsmFault>
    ensures text { IfOk result (λ both. both.0 ≡ text.items) }
    ensures init { IfOk result (λ both. both.1 ≡ init.items) }
    ensures memory { IfErr result (λ fault. fault.kind ≡ kinds.Memory) }
{
    let text = segment(text)?;
    let init = segment(init)?;
    Ok((text, init))
}

/// Tests that there is text, else `Directive`, and that all fits the memory, else `Limit`.
#[tactic(auto, unfolding(crate::specs::Source::finished))]
fn test_size(fields: &Fields, output: &Output) -> Result<(), AsmFault>
    ensures some { OnOk result (0 < length output.now.text.items) }
    ensures fits { OnOk result (fits_memory (parts_of fields.now (output_view output.now) []) ≡ true) }
    ensures finished { (symbols : List Symbol) → MatchResult result
        (λ _. finished fields.now (output_view output.now) symbols
        ≡ Ok (parts_of fields.now (output_view output.now) symbols))
        (λ fault. finished fields.now (output_view output.now) symbols ≡ Err fault) }
{
    if output.text.is_empty() {
        return Err(AsmFault {
            line: 0,
            kind: AsmFaultKind::Directive,
        });
    }
    let harts = u32::from(harts_of(fields));
    if !fits(
        harts,
        memory_of(fields),
        output.text.len(),
        output.init.len(),
    ) {
        return Err(AsmFault {
            line: 0,
            kind: AsmFaultKind::Limit,
        });
    }
    Ok(())
}

/// The image of what was made, with what the fields say and the symbols. `Memory` is answered only for an image, where
/// the system refused memory.
#[tactic(auto, unfolding(crate::specs::Source::finished))]
fn finish(fields: &Fields, output: Output, symbols: Symbols) -> Result<Image, AsmFault>
    requires { IsWhole (ranks_meant fields.now) (output_view output) symbols }
    ensures image { IfOk result (λ image. finished fields.now (output_view output) symbols ≡ Ok image) }
    ensures fault { IfErr result (λ fault. FailsAt fault (finished fields.now (output_view output) symbols)) }
    ensures told { (fault : AsmFault) → finished fields.now (output_view output) symbols ≡ Err fault
        → result ≡ Err fault }
{
    test_size(fields, &output)?;
    let entry = match output.entry {
        None => 0,
        Some(at) => at,
    };
    let (text, init) = segments(output.text, output.init)?;
    Ok(Image::new(ImageParts {
        version: ImageVersion::Two,
        ranks: ranks_of(fields),
        harts: harts_of(fields),
        memory: memory_of(fields),
        entry,
        text,
        init,
        comms: Comms::from_vec(output.comms),
        links: Links::from_vec(output.links),
        symbols,
    }))
}

/// The image of a source, or its first fault.
///
/// The faults, their order, and the language are in docs/ASSEMBLER.md. `Memory` is answered where the system
/// refused memory, and says nothing of the source.
#[tactic(auto, unfolding(crate::specs::Source::meaning))]
pub fn assemble(alloc: Global, source: &str) -> Result<Image, AsmFault>
    ensures image { IfOk result (λ image. meaning source.now ≡ Ok image) }
    ensures fault { IfErr result (λ fault. FailsAt fault (meaning source.now)) }

    // Each instruction of the source stands at its address: the words there decode to it.
    ensures decodes { IfOk result
        (λ image. (s : Laid) → layout_of source.now ≡ Ok s
        → HoldCode (addresses s.text s.labels) image.text image.init s.items) }
{
    let layout = layout_source(alloc, source)?;
    let output = make_output(alloc, &layout)?;
    let symbols = match symbols_of(alloc, &layout) {
        Ok(symbols) => symbols,
        Err(_) => return Err(AsmFault {
            line: 0,
            kind: AsmFaultKind::Memory,
        }),
    };
    finish(&layout.fields, output, symbols)
}
