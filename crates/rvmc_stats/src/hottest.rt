//! The place of a list whose number is greatest.

ghost use Rattle.std.specs.Prelude.{◌≡◌, ◌<◌, ◌+◌, length};
ghost use Rattle.rvmc_stats.specs.Hottest.{IsNextBelow, is_hotter as is_hotter_of, is_yet_left as is_left_of};

use crate::tally::Tally;

/// Whether a place comes before another: its number is greater, or as great and it is the lower place.
fn is_hotter(tally: &Tally, a: usize, b: usize) -> bool
    ensures { result ≡ is_hotter_of tally.now a b }
{
    let of_a = tally.get(a);
    let of_b = tally.get(b);
    of_b < of_a || (of_a == of_b && a < b)
}

/// Whether a place's number isn't 0, and it comes behind the last one.
fn is_left(tally: &Tally, last: Option<usize>, place: usize) -> bool
    ensures { result ≡ is_left_of tally.now last place }
{
    if tally.get(place) == 0 {
        return false;
    }
    match last {
        None => true,
        Some(last) => is_hotter(tally, last, place),
    }
}

/// The first of the places up to this one, of which the first before it was found.

fn better(tally: &Tally, last: Option<usize>, found: Option<usize>, place: usize) -> Option<usize>
    requires { IsNextBelow tally.now last place found }
    ensures { IsNextBelow tally.now last (place + 1) result }
{
    if !is_left(tally, last, place) {
        return found;
    }
    let Some(best) = found else {
        return Some(place);
    };
    if is_hotter(tally, place, best) {
        Some(place)
    } else {
        Some(best)
    }
}

/// Of the places whose number isn't 0 and which come behind the last one, the first: that of the greatest number, and of
/// equal numbers the lowest place. None where there is no such place.
pub fn next_hottest(tally: &Tally, last: Option<usize>) -> Option<usize>
    ensures { IsNextBelow tally.now last (length tally.now) result }
{
    let mut found = None;
    for place in 0..tally.len() {
        found = better(tally, last, found, place);
    }
    found
}
