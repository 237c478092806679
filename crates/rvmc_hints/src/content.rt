//! An input of another kind than the command takes.

ghost use Rattle.std.specs.Prelude.{◌≡◌};
ghost use Rattle.rvmc_hints.specs.Content.{c_in, content_in, text_in};
ghost use Rattle.rvmc_hints.specs.Seen.{seen_in};

use crate::hint::{Hint, Wanted};
use crate::seen::{Seen, seen_in};

/// What a text is to one who wants something else. `source` tells whether the assembler makes an image of it.
fn text_hint<'a>(wanted: Wanted, source: bool) -> Option<Hint<'a>>
    ensures { result ≡ text_in wanted source }
{
    match wanted {
        Wanted::Source | Wanted::Told => None,
        _ => {
            if source {
                Some(Hint::Source(wanted))
            } else {
                Some(Hint::Text(wanted))
            }
        }
    }
}

/// What a text is that has a line of C, which is a comment to the assembler. `source` tells the same.
fn c_hint<'a>(wanted: Wanted, source: bool) -> Option<Hint<'a>>
    ensures { result ≡ c_in wanted source }
{
    if source {
        text_hint(wanted, source)
    } else {
        Some(Hint::C)
    }
}

/// What stands in an input where a command takes another kind. `source` tells whether the assembler makes an image of
/// the bytes. None where they begin as what is wanted does, or as nothing that is known.
pub fn content_hint<'a>(wanted: Wanted, source: bool, bytes: &[u8]) -> Option<Hint<'a>>
    ensures { result ≡ content_in wanted source (seen_in bytes.now) }
{
    match (seen_in(bytes), wanted) {
        (Seen::Nothing, _) => Some(Hint::Nothing(wanted)),
        (Seen::Image, Wanted::Source | Wanted::Record | Wanted::Told) => Some(Hint::Image),
        (Seen::Record, Wanted::Record) => None,
        (Seen::Record, _) => Some(Hint::Record),
        (Seen::Elf, _) => Some(Hint::Elf),
        (Seen::C, _) => c_hint(wanted, source),
        (Seen::Text, _) => text_hint(wanted, source),
        _ => None,
    }
}
