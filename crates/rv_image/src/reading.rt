//! From bytes to an image, or to the first fault.

ghost use Rattle.std.specs.Prelude.{◌≡◌, [], ◌∷◌, ◌++◌, ◌≤◌, None, length, Ok, Err, OnOk, IfOk, IsOk};
ghost use Rattle.rv_image.specs.declared.faults.ImageFault.{ImageFault};
ghost use Rattle.rv_image_types.specs.declared.images.ImageParts.{ImageParts};
ghost use Rattle.rv_image_types.specs.Image.{IsImage};
ghost use Rattle.rv_image.specs.Text.{image_text};
ghost use Rattle.rv_image.specs.Reading.{next_byte, next_bytes};
ghost use Rattle.rv_image.specs.ReadingAnswers.{GivesBy, rest_of, AnswersBy, IsReadAs, Accepts};
ghost use Rattle.rv_image.specs.Reading.{first_fault, number_tests, header_tests, repeated, is_new_rank, next_member};
ghost use Rattle.rv_image.specs.Reading.{comm_at, next_comm, second_rank, link_at, next_link, is_next_symbol};
ghost use Rattle.rv_image.specs.Reading.{named_at, symbol_at, next_symbol, body_at, reading};

use crate::faults::ImageFault;
use crate::header::{HEADER_LENGTH, Header, header_fault, header_of, u32_at};
use rv_image_types::{
    Comms, Image, ImageParts, Link, Links, Members, RANKS_MAX, Segment, Symbol, SymbolName,
    Symbols, is_symbol_name, name_before,
};
use std::alloc::{AllocError, Global};

// Below, `total` is the length of the whole input, which Short carries, and `bytes` what is left of it. What is handed
// no allocator answers just what is read, value or fault. All tests stand there, and are done before anything is
// copied.

/// The next byte and what follows.
fn take_byte(total: usize, bytes: &[u8]) -> Result<(u8, &[u8]), ImageFault>
    ensures { GivesBy (λ x. (x.0, x.1.now)) result (next_byte total bytes.now) }
{
    match bytes {
        [] => Err(ImageFault::Short(total)),
        [first, rest @ ..] => Ok((*first, rest)),
    }
}

/// The next bytes, `length` of them, and what follows.
fn take_bytes(length: u32, total: usize, bytes: &[u8]) -> Result<(&[u8], &[u8]), ImageFault>
    ensures { GivesBy (λ x. (x.0.now, x.1.now)) result (next_bytes length total bytes.now) }
{
    let length = length as usize;
    if bytes.len() < length {
        return Err(ImageFault::Short(total));
    }
    Ok(bytes.split_at(length))
}

/// Whether the rank is one of the image's and wasn't named before.
fn may_be_named(ranks: u8, named: &[u8], rank: u8) -> bool
    ensures { result ≡ is_new_rank ranks named.now rank }
{
    rank < ranks && !named.contains(&rank)
}

/// The members of communicator `n`, `count` of them, and what follows.
fn take_members(
    total: usize,
    ranks: u8,
    n: usize,
    count: u8,
    bytes: &[u8],
) -> Result<(&[u8], &[u8]), ImageFault>
    ensures { GivesBy (λ x. (x.0.now, x.1.now)) result (repeated (next_member total ranks n) count [] bytes.now) }
{
    let count = usize::from(count);
    for k in 0..count {
        if k >= bytes.len() {
            return Err(ImageFault::Short(total));
        }
        if !may_be_named(ranks, &bytes[..k], bytes[k]) {
            return Err(ImageFault::Comm(n));
        }
    }
    Ok(bytes.split_at(count))
}

/// The members of communicator `n`, whose number stands before them, and what follows.
#[tactic(auto, unfolding(crate::specs::Reading::comm_at))]
fn take_comm(total: usize, ranks: u8, n: usize, bytes: &[u8]) -> Result<(&[u8], &[u8]), ImageFault>
    ensures { GivesBy (λ x. (x.0.now, x.1.now)) result (comm_at total ranks n bytes.now) }
{
    let (count, rest) = take_byte(total, bytes)?;
    if count < 1 || count > RANKS_MAX {
        return Err(ImageFault::Comm(n));
    }
    take_members(total, ranks, n, count, rest)
}

/// What follows the communicators, `count` of them.
fn skip_comms(total: usize, ranks: u8, count: u8, bytes: &[u8]) -> Result<&[u8], ImageFault>
    ensures { GivesBy (λ x. x.now) result (rest_of (repeated (next_comm total ranks) count [] bytes.now)) }
{
    let mut rest = bytes;
    for before in 0..usize::from(count) {
        let (_, after) = take_comm(total, ranks, before + 1, rest)?;
        rest = after;
    }
    Ok(rest)
}

/// Adds a copy of the members of one more communicator.
fn push_members(alloc: Global, done: &mut Vec<Members>, members: &[u8]) -> Result<(), AllocError>
    ensures { OnOk result (done.new.items ≡ done.old.items ++ members.now ∷ []) }
{
    done.push(Members::from_vec(Vec::from_slice(alloc, members)?))?;
    Ok(())
}

/// A copy of the communicators, `count` of them, and what follows.
fn take_comms(
    alloc: Global,
    total: usize,
    ranks: u8,
    count: u8,
    bytes: &[u8],
) -> Result<(Vec<Members>, &[u8]), ImageFault>
    ensures { AnswersBy (λ x. (x.0.items, x.1.now)) result (repeated (next_comm total ranks) count [] bytes.now) }
{
    let mut done = Vec::new(alloc);
    let mut rest = bytes;
    for _ in 0..count {
        let (members, after) = take_comm(total, ranks, done.len() + 1, rest)?;
        push_members(alloc, &mut done, members)?;
        rest = after;
    }
    Ok((done, rest))
}

/// Link `n`, of which the sending rank is read, and what follows.
fn take_receiver(
    total: usize,
    ranks: u8,
    n: usize,
    from: u8,
    bytes: &[u8],
) -> Result<(Link, &[u8]), ImageFault>
    ensures { GivesBy (λ x. (x.0, x.1.now)) result (second_rank total ranks n from bytes.now) }
{
    let (to, rest) = take_byte(total, bytes)?;
    if to >= ranks || to == from {
        return Err(ImageFault::Link(n));
    }
    Ok((Link { from, to }, rest))
}

/// Link `n` and what follows.
#[tactic(auto, unfolding(crate::specs::Reading::link_at))]
fn take_link(total: usize, ranks: u8, n: usize, bytes: &[u8]) -> Result<(Link, &[u8]), ImageFault>
    ensures { GivesBy (λ x. (x.0, x.1.now)) result (link_at total ranks n bytes.now) }
{
    let (from, rest) = take_byte(total, bytes)?;
    if from >= ranks {
        return Err(ImageFault::Link(n));
    }
    take_receiver(total, ranks, n, from, rest)
}

/// What follows the links, `count` of them.
fn skip_links(total: usize, ranks: u8, count: u8, bytes: &[u8]) -> Result<&[u8], ImageFault>
    ensures { GivesBy (λ x. x.now) result (rest_of (repeated (next_link total ranks) count [] bytes.now)) }
{
    let mut rest = bytes;
    for n in 0..usize::from(count) {
        let (_, after) = take_link(total, ranks, n, rest)?;
        rest = after;
    }
    Ok(rest)
}

/// A copy of the links, `count` of them, and what follows.
fn take_links(
    alloc: Global,
    total: usize,
    ranks: u8,
    count: u8,
    bytes: &[u8],
) -> Result<(Vec<Link>, &[u8]), ImageFault>
    ensures { AnswersBy (λ x. (x.0.items, x.1.now)) result (repeated (next_link total ranks) count [] bytes.now) }
{
    let mut done = Vec::new(alloc);
    let mut rest = bytes;
    for _ in 0..count {
        let (link, after) = take_link(total, ranks, done.len(), rest)?;
        done.push(link)?;
        rest = after;
    }
    Ok((done, rest))
}

/// Whether a symbol of the name and address may stand behind one of the name `last`.
fn may_follow(memory: u32, last: &[u8], name: &[u8], address: u32) -> bool
    ensures { result ≡ is_next_symbol memory last.now (record { name = name.now; address = address }) }
{
    is_symbol_name(name) && name_before(last, name) && address <= memory
}

/// The name, of `size` bytes, and the address of symbol `n`, behind one of the name `last`, and what follows.
fn take_named<'a>(
    total: usize,
    memory: u32,
    n: usize,
    last: &[u8],
    address: u32,
    size: u8,
    bytes: &'a [u8],
) -> Result<(&'a [u8], u32, &'a [u8]), ImageFault>
    ensures { GivesBy (λ x. (record { name = x.0.now; address = x.1 }, x.2.now)) result
        (named_at total memory n last.now address size bytes.now) }
{
    let (name, rest) = take_bytes(u32::from(size), total, bytes)?;
    if !may_follow(memory, last, name, address) {
        return Err(ImageFault::Symbol(n));
    }
    Ok((name, address, rest))
}

/// The name and address of symbol `n`, behind one of the name `last`, and what follows.
#[tactic(auto, unfolding(crate::specs::Reading::symbol_at))]
fn take_symbol<'a>(
    total: usize,
    memory: u32,
    n: usize,
    last: &[u8],
    bytes: &'a [u8],
) -> Result<(&'a [u8], u32, &'a [u8]), ImageFault>
    ensures { GivesBy (λ x. (record { name = x.0.now; address = x.1 }, x.2.now)) result
        (symbol_at total memory n last.now bytes.now) }
{
    let (front, rest) = take_bytes(5, total, bytes)?;
    let size = front[4];
    if size < 1 || size > 31 {
        return Err(ImageFault::Symbol(n));
    }
    take_named(total, memory, n, last, u32_at(front, 0), size, rest)
}

/// What follows the symbols, `count` of them.
fn skip_symbols(total: usize, memory: u32, count: u16, bytes: &[u8]) -> Result<&[u8], ImageFault>
    ensures { GivesBy (λ x. x.now) result (rest_of (repeated (next_symbol total memory) count [] bytes.now)) }
{
    let mut rest = bytes;
    let mut last: &[u8] = &[];
    for n in 0..usize::from(count) {
        let (name, _, after) = take_symbol(total, memory, n, last, rest)?;
        last = name;
        rest = after;
    }
    Ok(rest)
}

/// Adds a copy of one more symbol.
fn push_symbol(
    alloc: Global,
    done: &mut Vec<Symbol>,
    name: &[u8],
    address: u32,
) -> Result<(), AllocError>
    ensures { OnOk result (done.new.items ≡ done.old.items ++ record { name = name.now; address = address } ∷ []) }
{
    let name = SymbolName::from_vec(Vec::from_slice(alloc, name)?);
    done.push(Symbol { name, address })?;
    Ok(())
}

/// A copy of the symbols, `count` of them, and what follows.
fn take_symbols(
    alloc: Global,
    total: usize,
    memory: u32,
    count: u16,
    bytes: &[u8],
) -> Result<(Vec<Symbol>, &[u8]), ImageFault>
    ensures { AnswersBy (λ x. (x.0.items, x.1.now)) result (repeated (next_symbol total memory) count [] bytes.now) }
{
    let mut done = Vec::new(alloc);
    let mut rest = bytes;
    let mut last: &[u8] = &[];
    for _ in 0..count {
        let (name, address, after) = take_symbol(total, memory, done.len(), last, rest)?;
        push_symbol(alloc, &mut done, name, address)?;
        last = name;
        rest = after;
    }
    Ok((done, rest))
}

/// What follows the next bytes, `length` of them.
fn skip_bytes(length: u32, total: usize, bytes: &[u8]) -> Result<&[u8], ImageFault>
    ensures { GivesBy (λ x. x.now) result (rest_of (next_bytes length total bytes.now)) }
{
    let (_, rest) = take_bytes(length, total, bytes)?;
    Ok(rest)
}

/// Tests all that stands behind a right header.
#[tactic(auto, unfolding(crate::specs::Reading::body_at))]
fn test_body(total: usize, h: &Header, bytes: &[u8]) -> Result<(), ImageFault>
    ensures { Accepts result (body_at total h.now bytes.now) }
{
    let rest = skip_comms(total, h.ranks, h.comms, bytes)?;
    let rest = skip_links(total, h.ranks, h.links, rest)?;
    let rest = skip_bytes(h.text_length, total, rest)?;
    let rest = skip_bytes(h.init_length, total, rest)?;
    let rest = skip_symbols(total, h.memory, h.symbols, rest)?;
    if !rest.is_empty() {
        // It never saturates: what is left is the input's end.
        return Err(ImageFault::Long(total.saturating_sub(rest.len())));
    }
    Ok(())
}

/// A copy of the next bytes, `length` of them, and what follows.
fn take_segment(
    alloc: Global,
    length: u32,
    total: usize,
    bytes: &[u8],
) -> Result<(Segment, &[u8]), ImageFault>
    ensures { AnswersBy (λ x. (x.0, x.1.now)) result (next_bytes length total bytes.now) }
{
    let (front, rest) = take_bytes(length, total, bytes)?;
    Ok((Segment::from_vec(Vec::from_slice(alloc, front)?)?, rest))
}

/// The parts of a header's numbers and of what stands behind it.
fn parts_from(
    h: &Header,
    text: Segment,
    init: Segment,
    comms: Vec<Members>,
    links: Vec<Link>,
    symbols: Vec<Symbol>,
) -> ImageParts
    ensures { result ≡ record {
      version = h.now.version;
      ranks = h.now.ranks;
      harts = h.now.harts;
      memory = h.now.memory;
      entry = h.now.entry;
      text = text;
      init = init;
      comms = comms.items;
      links = links.items;
      symbols = symbols.items;
    } }
{
    ImageParts {
        version: h.version,
        ranks: h.ranks,
        harts: h.harts,
        memory: h.memory,
        entry: h.entry,
        text,
        init,
        comms: Comms::from_vec(comms),
        links: Links::from_vec(links),
        symbols: Symbols::from_vec(symbols),
    }
}

/// A copy of the parts that a right header and the bytes behind it make, which are tested.
#[tactic(auto, unfolding(crate::specs::Reading::body_at))]
fn take_body(
    alloc: Global,
    total: usize,
    h: &Header,
    bytes: &[u8],
) -> Result<ImageParts, ImageFault>
    requires { IsOk (body_at total h.now bytes.now) }
    ensures { IsReadAs result (body_at total h.now bytes.now) }
{
    let (comms, rest) = take_comms(alloc, total, h.ranks, h.comms, bytes)?;
    let (links, rest) = take_links(alloc, total, h.ranks, h.links, rest)?;
    let (text, rest) = take_segment(alloc, h.text_length, total, rest)?;
    let (init, rest) = take_segment(alloc, h.init_length, total, rest)?;
    let (symbols, _) = take_symbols(alloc, total, h.memory, h.symbols, rest)?;
    Ok(parts_from(h, text, init, comms, links, symbols))
}

/// The parts that the bytes spell.
fn parts_of(alloc: Global, bytes: &[u8]) -> Result<ImageParts, ImageFault>
    ensures exact { IsReadAs result (reading bytes.now) }
    ensures fault { (fault : ImageFault) → reading bytes.now ≡ Err fault → result ≡ Err fault }
{
    if let Some(fault) = header_fault(bytes) {
        return Err(fault);
    }
    let header = header_of(bytes);
    let (_, rest) = bytes.split_at(HEADER_LENGTH);
    test_body(bytes.len(), &header, rest)?;
    take_body(alloc, bytes.len(), &header, rest)
}

/// The image whose text the bytes are, or the first fault in the order of the tests, which
/// [`first_fault_law`](crate::laws::first_fault_law) has as one table.
///
/// [`ImageFault::Memory`] is answered only for the bytes of an image, and only where memory ran out: its text, its
/// initial data and its lists are copied. Bytes that are no image get their fault without any memory.
pub fn read_image(alloc: Global, bytes: &[u8]) -> Result<Image, ImageFault>
    // What is read is spelled so, byte for byte.
    ensures found { IfOk result (λ image. bytes.now ≡ image_text image) }
    // What is spelled so is read, unless memory runs out.
    ensures only { (image : ImageParts) → IsImage image → bytes.now ≡ image_text image → IsReadAs result (Ok image) }
    // Which fault it is.
    ensures exact { IsReadAs result (reading bytes.now) }
    // A fault of the bytes is told whatever memory there is.
    ensures fault { (fault : ImageFault) → reading bytes.now ≡ Err fault → result ≡ Err fault }
{
    let parts = parts_of(alloc, bytes)?;
    Ok(Image::new(parts))
}
