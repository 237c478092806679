//! The places of the text with most turns, as text.

ghost use Rattle.std.specs.Prelude.{◌≡◌, ◌++◌, ◌<◌, ◌^◌, OnOk, length};
ghost use Rattle.rvmc_list.specs.Places.{HasPlaceLines, HasPlaces, place_line, places_head};

use rv_image_types::Symbol;
use rvmc_places::put_place;
use rvmc_stats::{Tally, next_hottest};
use std::io;
use std::io::Write;

/// Adds the line of a word of the text: how many turns were there, and its place.
#[tactic(auto, unfolding(crate::specs::Places::place_line))]
fn put_place_line(
    text: &mut Vec<u8>,
    symbols: &[Symbol],
    places: &Tally,
    word: usize,
) -> io::Result<()>
    requires small { word < 2 ^ 62 }
    ensures { OnOk result (text.new.items ≡ text.old.items ++ place_line symbols.now places.now word) }
{
    let turns = places.get(word);
    write!(text, "{turns} ")?;
    put_place(text, symbols, 4 * word as u64)?;
    text.extend_from_slice(b"\n")?;
    Ok(())
}

/// Adds the lines of the ten words with most turns.
#[tactic(auto, using(crate::proofs::Hottest::placed_none))]
fn put_place_lines(text: &mut Vec<u8>, symbols: &[Symbol], places: &Tally) -> io::Result<()>
    requires small { length places.now < 2 ^ 62 }
    ensures { OnOk result (HasPlaceLines symbols.now places.now text.old.items text.new.items) }
{
    let mut last = None;
    for _n in 0..10_usize {
        let Some(word) = next_hottest(places, last) else {
            return Ok(());
        };
        put_place_line(text, symbols, places, word)?;
        last = Some(word);
    }
    Ok(())
}

/// Adds the head of the places.
#[tactic(auto, unfolding(crate::specs::Places::places_head))]
fn put_places_head(text: &mut Vec<u8>) -> io::Result<()>
    ensures { OnOk result (text.new.items ≡ text.old.items ++ places_head) }
{
    text.extend_from_slice(b"\nturns place\n")?;
    Ok(())
}

/// Adds the ten words of the text with most turns.
pub(crate) fn put_places(text: &mut Vec<u8>, symbols: &[Symbol], places: &Tally) -> io::Result<()>
    requires small { length places.now < 2 ^ 62 }
    ensures { OnOk result (HasPlaces symbols.now places.now text.old.items text.new.items) }
{
    put_places_head(text)?;
    put_place_lines(text, symbols, places)
}
