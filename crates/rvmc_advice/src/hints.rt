//! What is told behind a fault's line.

ghost use Rattle.std.specs.Prelude.{◌≡◌, ◌≢◌, IfSome, Some, option_map, true};
ghost use Rattle.rvmc_advice.specs.Hints.{IsAbsent, IsBytesHint, IsContentHint, IsFaultHint, IsPlansHint, has_symbol};
ghost use Rattle.rvmc_advice.specs.Hints.{plans_of, spot_in, wanted_by};
ghost use Rattle.rvmc_hints.specs.Near.{is_near};
ghost use Rattle.rvmc_words.specs.declared.debug.Spot.{Spot};

use cl_debug::DebugFault;
use cl_text::RecordFault;
use rv_image::read_image;
use rv_image_types::{Image, Symbol};
use rvmc_answers::faults::{DrawRefusal, ExploreRefusal, Fault};
use rvmc_answers::image_in;
use rvmc_hints::{
    Hint, Wanted, content_hint, is_near, magic_hint, plans_hint, short_hint, source_hint,
};
use rvmc_line::{CommandLine, ImageCommand, RecordCommand};
use rvmc_places::{line_named, line_start};
use rvmc_words::{DebugWord, DebugWords, Numbers, Spot};
use std::alloc::Global;
use std::io::Write;

/// Writes a hint's line. One that can't be written changes nothing else.
pub(crate) fn put_hint<E: Write>(err: &mut E, hint: Hint<'_>) {
    match writeln!(err, "hint: {hint}") {
        Ok(()) => {}
        Err(_) => {}
    }
}

/// What a command takes from its input.
pub(crate) fn wanted_by(line: &CommandLine) -> Wanted
    ensures { result ≡ wanted_by line.now }
{
    match line {
        CommandLine::OfImage { source: true, .. } => Wanted::Source,
        CommandLine::OfImage {
            command: ImageCommand::Asm { .. },
            ..
        } => Wanted::Rewritten,
        CommandLine::OfImage {
            command: ImageCommand::Dis,
            ..
        } => Wanted::Listed,
        CommandLine::OfImage { .. } => Wanted::Image,
        CommandLine::OfRecord(_) | CommandLine::Session { .. } | CommandLine::WordSession => {
            Wanted::Record
        }
        CommandLine::Join => Wanted::Told,
    }
}

/// Whether the assembler makes an image of the bytes.
fn is_source(alloc: Global, bytes: &[u8]) -> bool {
    match image_in(alloc, true, bytes) {
        Ok(_) => true,
        Err(_) => false,
    }
}

/// What stands in the input where the command takes something else. Only a text, in place of an image or a record, is
/// given to the assembler.
fn content<'a>(alloc: Global, line: &CommandLine, bytes: &[u8]) -> Option<Hint<'a>>
    ensures { IfSome result (IsContentHint line.now bytes.now) }
{
    let wanted = wanted_by(line);
    match content_hint(wanted, false, bytes) {
        Some(Hint::Text(_) | Hint::C) => content_hint(wanted, is_source(alloc, bytes), bytes),
        other => other,
    }
}

/// The numbers of a list, if one was given.
fn numbers(list: &Option<Numbers>) -> Option<&[u8]>
    ensures { option_map (λ numbers. numbers.now) result ≡ list.now }
{
    match list {
        Some(numbers) => Some(numbers.as_slice()),
        None => None,
    }
}

/// What is wrong with the plan or the order of a run of this image.
fn plans_of<'a>(command: &ImageCommand, image: &Image) -> Option<Hint<'a>>
    ensures { result ≡ plans_of command.now image.now }
{
    let parts = image.parts();
    match command {
        ImageCommand::Run { plan, .. } | ImageCommand::RunUntilStuck { plan, .. } => {
            plans_hint(parts.ranks, parts.harts, numbers(plan), None)
        }
        ImageCommand::One { plan, order, .. } | ImageCommand::OneUntilStuck { plan, order, .. } => {
            plans_hint(parts.ranks, parts.harts, numbers(plan), numbers(order))
        }
        _ => None,
    }
}

/// What is wrong with the plan or the order of a run.
fn plans<'a>(alloc: Global, line: &CommandLine, bytes: &[u8]) -> Option<Hint<'a>>
    ensures { IfSome result (IsPlansHint line.now bytes.now) }
{
    let CommandLine::OfImage { source, command } = line else {
        return None;
    };
    match image_in(alloc, *source, bytes) {
        Ok(image) => plans_of(command, &image),
        Err(_) => None,
    }
}

/// What a fault of the input's own bytes is about.
fn of_bytes<'a>(bytes: &'a [u8], fault: &Fault) -> Option<Hint<'a>>
    ensures { IfSome result (IsBytesHint bytes.now fault.now) }
{
    match *fault {
        Fault::Source(fault) => source_hint(bytes, fault),
        Fault::Record(RecordFault::Short(_)) => short_hint(bytes),
        Fault::Record(RecordFault::Magic) => magic_hint(bytes),
        _ => None,
    }
}

/// How a record with more marks than a picture may have is drawn.
const FEWER: &str = "a picture has at most 5000 marks: --from and --to draw a part of the record";

/// What can be told of a fault, of what stands in the input.
fn hint_of<'a>(
    alloc: Global,
    line: &CommandLine,
    bytes: &'a [u8],
    fault: &Fault,
) -> Option<Hint<'a>>
    ensures { IfSome result (IsFaultHint line.now bytes.now fault.now) }
{
    match fault {
        Fault::Source(_) | Fault::Image(_) | Fault::Record(_) => match content(alloc, line, bytes) {
            Some(hint) => Some(hint),
            None => of_bytes(bytes, fault),
        },
        Fault::Plans => plans(alloc, line, bytes),
        Fault::Explore(ExploreRefusal::NotAText(1)) => content(alloc, line, bytes),
        Fault::Draw(DrawRefusal::TooMany(_)) => Some(Hint::Most(FEWER)),
        _ => None,
    }
}

/// The image of a record: how many bytes it has stands at byte 8, and the image at byte 12.
fn image_of_record(alloc: Global, bytes: &[u8]) -> Option<Image> {
    let [_, _, _, _, _, _, _, _, a, b, c, d, rest @ ..] = bytes else {
        return None;
    };
    let count = u32::from_le_bytes([*a, *b, *c, *d]) as usize;
    read_image(alloc, rest.get(..count)?).ok()
}

/// What a word of `debug` names in place of an address.
fn spot_in(word: &DebugWord) -> Option<&Spot>
    ensures { option_map (λ spot. spot.now) result ≡ spot_in word.now }
{
    match word {
        DebugWord::Break { at, .. } | DebugWord::Bytes { at, .. } => Some(at),
        _ => None,
    }
}

/// Whether a symbol has this name.
fn has_symbol(symbols: &[Symbol], name: &str) -> bool
    ensures { result ≡ has_symbol symbols.now name.now }
{
    for symbol in symbols {
        if symbol.name.as_slice() == name.as_bytes() {
            return true;
        }
    }
    false
}

/// The first symbol whose name is near to this one.
fn near_symbol<'a>(symbols: &'a [Symbol], name: &str) -> Option<&'a [u8]>
    ensures { IfSome result (λ near. is_near near.now name.now ≡ true) }
{
    for symbol in symbols {
        if is_near(symbol.name.as_slice(), name.as_bytes()) {
            return Some(symbol.name.as_slice());
        }
    }
    None
}

/// Whether a number stands before another, in decimal and without zeros in front.
fn is_before(number: &[u8], other: &[u8]) -> bool {
    number.len() < other.len() || number.len() == other.len() && number < other
}

/// The next line of a file at which code begins.
fn next_line<'a>(symbols: &'a [Symbol], file: &str, number: &str) -> Option<&'a [u8]> {
    let mut found = None;
    for symbol in symbols {
        if let Some(line) = line_named(symbol.name.as_slice()) {
            let is_nearer = match found {
                None => true,
                Some(nearest) => is_before(line.number, nearest),
            };
            if line.file == file.as_bytes()
                && is_before(number.as_bytes(), line.number)
                && is_nearer
            {
                found = Some(line.number);
            }
        }
    }
    found
}

/// What can be told of a spot that isn't there: a name that no symbol has, and one that is near to it; or a line
/// without code, and the next one with code.
fn absent<'a>(symbols: &'a [Symbol], at: &'a Spot) -> Option<Hint<'a>>
    ensures { IfSome result (IsAbsent symbols.now at.now) }
{
    match at {
        Spot::Address(_) => None,
        Spot::Name(name) => {
            let word = name.as_str();
            if has_symbol(symbols, word) {
                return None;
            }
            let near = near_symbol(symbols, word);
            Some(Hint::NoSymbol { word, near })
        }
        Spot::Line { file, number } => {
            let (file, number) = (file.as_str(), number.as_str());
            if line_start(symbols, file.as_bytes(), number.as_bytes()).is_some() {
                return None;
            }
            let next = next_line(symbols, file, number);
            Some(Hint::NoLine { file, number, next })
        }
    }
}

/// What can be told of the first of the words that names what isn't there.
fn symbol_hint<'a>(symbols: &'a [Symbol], words: &'a [DebugWord]) -> Option<Hint<'a>>
    ensures { IfSome result (λ hint. (at : Spot) × IsAbsent symbols.now at hint) }
{
    for word in words {
        if let Some(at) = spot_in(word) {
            if let Some(hint) = absent(symbols, at) {
                return Some(hint);
            }
        }
    }
    None
}

/// Writes what can be told of a name or a line in the words that the record's image hasn't.
fn hint_symbol<E: Write>(alloc: Global, words: &DebugWords, bytes: &[u8], err: &mut E) {
    let Some(image) = image_of_record(alloc, bytes) else {
        return;
    };
    if let Some(hint) = symbol_hint(image.parts().symbols.as_slice(), words.as_slice()) {
        put_hint(err, hint);
    }
}

/// Writes what can be told of a fault, if there is anything. No more is read for it.
pub(crate) fn tell_hint<E: Write>(
    alloc: Global,
    line: &CommandLine,
    bytes: &[u8],
    fault: &Fault,
    err: &mut E,
) {
    if let CommandLine::OfRecord(RecordCommand::Debug { words }) = line {
        if let Fault::Debug(DebugFault::NoSymbol) = fault {
            return hint_symbol(alloc, words, bytes, err);
        }
    }
    if let Some(hint) = hint_of(alloc, line, bytes, fault) {
        put_hint(err, hint);
    }
}
