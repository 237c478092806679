//! What is told beside the machine: names, the program, what is on its way, and whom harts wait for at the end.

ghost use Rattle.std.specs.Prelude.{◌≡◌, ◌++◌, OnOk, codes};
ghost use Rattle.std.specs.Fmt.{decimal};
ghost use Rattle.std.specs.List.{flat_map};
ghost use Rattle.rvmc_page.specs.Told.{arrow_text, arrows_text, arrival_text, symbol_entry, names_text, program_text, told_text};
ghost use Rattle.rvmc_page.specs.Told.{wait_entry, wait_entries, way_text};

use crate::safe::{put_escaped, put_lines};
use rv_image_types::{Image, Symbol};
use rvmc_draw::{Arrow, Carried, Row, Spot};
use rvmc_picture::listing::listing;
use std::alloc::Global;
use std::io;
use std::io::Write;

/// Adds a symbol.
#[tactic(auto, unfolding(crate::specs::Told::symbol_entry))]
fn put_name(text: &mut Vec<u8>, symbol: &Symbol) -> io::Result<()>
    ensures { OnOk result (text.new.items ≡ text.old.items ++ symbol_entry symbol.now) }
{
    let address = symbol.address;
    write!(text, "{address:x} ")?;
    put_escaped(text, symbol.name.as_slice())?;
    text.extend_from_slice(b"\n")?;
    Ok(())
}

/// Adds all symbols.
pub(crate) fn put_names(text: &mut Vec<u8>, symbols: &[Symbol]) -> io::Result<()>
    ensures { OnOk result (text.new.items ≡ text.old.items ++ names_text symbols.now) }
{
    for symbol in symbols {
        put_name(text, symbol)?;
    }
    Ok(())
}

/// Adds the program.
pub(crate) fn put_program(alloc: Global, text: &mut Vec<u8>, image: &Image) -> io::Result<()>
    ensures { OnOk result (text.new.items ≡ text.old.items ++ program_text image.now) }
{
    let lines = listing(alloc, image)?;
    put_lines(text, lines.as_slice())
}

/// Adds the step that got it, if one did.
fn put_got(text: &mut Vec<u8>, to: Option<Spot>) -> io::Result<()>
    ensures { OnOk result (text.new.items ≡ text.old.items ++ arrival_text to) }
{
    match to {
        None => {
            text.extend_from_slice(b"-")?;
            Ok(())
        }
        Some(spot) => {
            let place = spot.place;
            write!(text, "{place}")
        }
    }
}

/// Adds from which step to which, and from which rank to which.
fn put_way(text: &mut Vec<u8>, arrow: &Arrow) -> io::Result<()>
    ensures { OnOk result (text.new.items ≡ text.old.items ++ way_text arrow.now) }
{
    let Spot { place, rank, .. } = arrow.from;
    let dest = arrow.dest;
    write!(text, "{place} ")?;
    put_got(text, arrow.to)?;
    write!(text, " {rank} {dest}")
}

/// Adds what was sent or made ready and is got later, or never.
#[tactic(auto, unfolding(crate::specs::Told::arrow_text))]
fn put_arrow(text: &mut Vec<u8>, arrow: &Arrow) -> io::Result<()>
    ensures { OnOk result (text.new.items ≡ text.old.items ++ arrow_text arrow.now) }
{
    match arrow.carried {
        Carried::Message { tag, count } => {
            text.extend_from_slice(b"m ")?;
            put_way(text, arrow)?;
            write!(text, " {tag} {count}\n")
        }
        Carried::Partition { link, part, phase } => {
            text.extend_from_slice(b"p ")?;
            put_way(text, arrow)?;
            write!(text, " {link} {part} {phase}\n")
        }
        Carried::Claim { .. } | Carried::Could { .. } => Ok(()),
    }
}

/// Adds all that is on its way at some place.
pub(crate) fn put_arrows(text: &mut Vec<u8>, arrows: &[Arrow]) -> io::Result<()>
    ensures { OnOk result (text.new.items ≡ text.old.items ++ arrows_text arrows.now) }
{
    for arrow in arrows {
        put_arrow(text, arrow)?;
    }
    Ok(())
}

/// Adds a rank that is waited for.
fn put_awaited(text: &mut Vec<u8>, rank: u8) -> io::Result<()>
    ensures { OnOk result (text.new.items ≡ text.old.items ++ (codes " " ++ decimal rank)) }
{
    write!(text, " {rank}")
}

/// Adds the ranks that are waited for.
fn put_all_awaited(text: &mut Vec<u8>, ranks: &[u8]) -> io::Result<()>
    ensures { OnOk result (text.new.items ≡ text.old.items ++ flat_map (λ rank. codes " " ++ decimal rank) ranks.now) }
{
    for rank in ranks {
        put_awaited(text, *rank)?;
    }
    Ok(())
}

/// Adds a hart that waits at the end.
#[tactic(auto, unfolding(crate::specs::Told::wait_entry))]
fn put_wait(text: &mut Vec<u8>, row: &Row) -> io::Result<()>
    ensures { OnOk result (text.new.items ≡ text.old.items ++ wait_entry row.now) }
{
    let Row { rank, hart, .. } = row;
    write!(text, "{rank} {hart} ")?;
    let word = if row.stuck { "s" } else { "w" };
    text.extend_from_slice(word.as_bytes())?;
    put_all_awaited(text, row.awaited.as_slice())?;
    text.extend_from_slice(b"\n")?;
    Ok(())
}

/// Adds all harts that wait at the end.
pub(crate) fn put_waits(text: &mut Vec<u8>, rows: &[Row]) -> io::Result<()>
    ensures { OnOk result (text.new.items ≡ text.old.items ++ wait_entries rows.now) }
{
    for row in rows {
        put_wait(text, row)?;
    }
    Ok(())
}

/// Adds what `why` tells.
pub(crate) fn put_told(text: &mut Vec<u8>, told: &[u8]) -> io::Result<()>
    ensures { OnOk result (text.new.items ≡ text.old.items ++ told_text told.now) }
{
    put_lines(text, told)
}
