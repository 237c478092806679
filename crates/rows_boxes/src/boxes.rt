//! What a box shows, from look to freed, and what it is left with.
ghost use Rattle.std.specs.Prelude.{◌≡◌, ◌⊎◌, ℕ, ◌+◌, ◌^◌, ◌<◌, ◌≤◌, [], length, take, Some, IsTrue};
ghost use Rattle.part_box.specs.Keys.{new_sender, new_receiver, after_ready, after_empty};

use part_box::{PartBox, RecvKey, SendKey, Settled};
use std::alloc::{AllocError, Global};
use std::io;
use std::io::Write;

const WORDS: [u64; 16] = [
    1,
    2,
    3,
    4,
    5,
    6,
    7,
    u64::MAX,
    9,
    10,
    11,
    12,
    13,
    14,
    15,
    1 << 63,
];

/// Makes a thing of the first words ready.
fn make(place: &PartBox, key: &mut SendKey, width: usize, words: &[u64; 16], stamp: u64)
    requires own { (key.old.at ≡ place.now.at) × (place.now.width ≡ width) × (width ≤ 16) }
    requires open { IsTrue key.old.view.is_open × (key.old.view.filled ≡ []) }
    requires stamp { (key.old.view.front < stamp) × (stamp < 2 ^ 62) }
    ensures { key.new
        ≡ after_ready (record key.old { view = record key.old.view { filled = take width words.now } }) stamp }
{
    for i in 0..width {
        place.fill(key, words[i]);
    }
    place.ready(key, stamp);
}

/// Takes the thing that was seen. The words past the width are 0.
fn take(place: &PartBox, key: &mut RecvKey, width: usize, stamp: u64) -> [u64; 16]
    requires own { (key.old.at ≡ place.now.at) × (place.now.width ≡ width) × (width ≤ 16) }
    requires seen { (n : ℕ) × (key.old.view.seen ≡ Some n) × (n < stamp) × (stamp < 2 ^ 62) }
    requires fresh { key.old.view.copied ≡ [] }
    ensures { key.new
        ≡ after_empty (record key.old { view = record key.old.view { copied = take width result } }) stamp }
{
    let mut words = [0; 16];
    for i in 0..width {
        words[i] = place.copy(key);
    }
    place.empty(key, stamp);
    words
}

fn settled_new(alloc: Global, width: usize) -> Result<Settled, AllocError>
    requires { (width ≡ 8) ⊎ (width ≡ 16) }
{
    let (place, send, recv) = PartBox::new(alloc, width)?;
    Ok(place.settle(send, recv))
}

fn settled_after_three_fills(alloc: Global, width: usize) -> Result<Settled, AllocError>
    requires { (width ≡ 8) ⊎ (width ≡ 16) }
{
    let (place, mut send, recv) = PartBox::new(alloc, width)?;
    place.fill(&mut send, 7);
    place.fill(&mut send, 8);
    place.fill(&mut send, 9);
    Ok(place.settle(send, recv))
}

fn settled_after_ready(alloc: Global, width: usize, stamp: u64) -> Result<Settled, AllocError>
    requires wide { (width ≡ 8) ⊎ (width ≡ 16) }
    requires stamp { (0 < stamp) × (stamp < 2 ^ 62) }
{
    let (place, mut send, recv) = PartBox::new(alloc, width)?;
    make(&place, &mut send, width, &WORDS, stamp);
    Ok(place.settle(send, recv))
}

/// What one thing showed on its way, made ready under stamp 5 and taken under stamp 9.
#[derive(Drop)]
struct Showed {
    early_look: Option<u64>,
    early_freed: Option<u64>,
    look: Option<u64>,
    words: [u64; 16],
    freed: Option<u64>,
}

/// What one thing showed, and what its box is left with.
#[derive(Drop)]
struct Way {
    showed: Showed,
    left: Settled,
}

/// Makes a thing of the first words ready under stamp 5. The keys agree before and after it.
fn make_agreed(place: &PartBox, send: &mut SendKey, recv: &mut RecvKey, width: usize)
    requires wide { (place.now.width ≡ width) × (width ≤ 16) }
    requires sender { send.old ≡ new_sender place.now.at }
    requires receiver { recv.old.at ≡ place.now.at }
    ensures sender { send.new.at ≡ place.now.at }
    ensures made { 0 < length send.new.view.made }
    ensures receiver { recv.new ≡ recv.old }
{
    place.agree(send, recv);
    make(place, send, width, &WORDS, 5);
    place.agree(send, recv);
}

/// The words of the thing that a look showed, taken under stamp 9; all 0 where it showed none.
fn words_of(place: &PartBox, key: &mut RecvKey, width: usize, look: Option<u64>) -> [u64; 16]
    requires own { (key.old.at ≡ place.now.at) × (place.now.width ≡ width) × (width ≤ 16) }
    requires seen { key.old.view.seen ≡ look }
    requires fresh { key.old.view.copied ≡ [] }
    ensures { key.new.at ≡ place.now.at }
{
    match look {
        Some(seen) if seen < 9 => take(place, key, width, 9),
        _ => [0; 16],
    }
}

/// What a thing shows on its way through a new box. Whenever the two keys agree nothing changes.
fn show(place: &PartBox, send: &mut SendKey, recv: &mut RecvKey, width: usize) -> Showed
    requires wide { (place.now.width ≡ width) × (width ≤ 16) }
    requires sender { send.old ≡ new_sender place.now.at }
    requires receiver { recv.old ≡ new_receiver place.now.at }
    ensures sender { send.new.at ≡ place.now.at }
    ensures receiver { recv.new.at ≡ place.now.at }
{
    let early_look = place.look(recv);
    if early_look.is_some() {
        return Showed {
            early_look,
            early_freed: None,
            look: None,
            words: [0; 16],
            freed: None,
        };
    }
    make_agreed(place, send, recv, width);
    let early_freed = place.freed(send);
    let look = place.look(recv);
    place.agree(send, recv);
    let words = words_of(place, recv, width, look);
    place.agree(send, recv);
    let freed = place.freed(send);
    Showed {
        early_look,
        early_freed,
        look,
        words,
        freed,
    }
}

fn settled_after_way(alloc: Global, width: usize) -> Result<Way, AllocError>
    requires { (width ≡ 8) ⊎ (width ≡ 16) }
{
    let (place, mut send, mut recv) = PartBox::new(alloc, width)?;
    let showed = show(&place, &mut send, &mut recv, width);
    let left = place.settle(send, recv);
    Ok(Way { showed, left })
}

fn look_at_the_greatest(alloc: Global, width: usize) -> Result<(Option<u64>, Settled), AllocError>
    requires { (width ≡ 8) ⊎ (width ≡ 16) }
{
    let (place, mut send, mut recv) = PartBox::new(alloc, width)?;
    make(
        &place,
        &mut send,
        width,
        &[0; 16],
        4_611_686_018_427_387_903,
    );
    let look = place.look(&mut recv);
    Ok((look, place.settle(send, recv)))
}

/// Prints words behind a beginning, and ends the line.
fn print_words<W: Write>(out: &mut W, words: &[u64; 16]) -> io::Result<()> {
    for word in words {
        write!(out, " {word:x}")?;
    }
    writeln!(out)
}

/// Prints what a box is left with.
pub fn print_left<W: Write>(out: &mut W, left: &Settled) -> io::Result<()> {
    let state = if left.full { "full" } else { "empty" };
    write!(out, "{state} {}", left.stamp)?;
    print_words(out, &left.words)
}

/// Prints a stamp, or `nothing`.
fn print_stamp<W: Write>(out: &mut W, what: &str, stamp: Option<u64>) -> io::Result<()> {
    match stamp {
        Some(stamp) => writeln!(out, "{what} {stamp}"),
        None => writeln!(out, "{what} nothing"),
    }
}

/// Prints what was looked for before there was a thing, and what the look at it showed.
fn print_looks<W: Write>(out: &mut W, showed: &Showed) -> io::Result<()> {
    print_stamp(out, "early look", showed.early_look)?;
    print_stamp(out, "early freed", showed.early_freed)?;
    print_stamp(out, "look", showed.look)
}

/// Prints what one thing showed. A look that loaded another word than the gate would be found out here: it would miss
/// the thing, or show another stamp.
fn print_showed<W: Write>(out: &mut W, showed: &Showed) -> io::Result<()> {
    print_looks(out, showed)?;
    out.write_all(b"words")?;
    print_words(out, &showed.words)?;
    print_stamp(out, "freed", showed.freed)
}

/// Prints what one thing showed, and what its box is left with.
fn print_way<W: Write>(alloc: Global, out: &mut W, width: usize) -> io::Result<()>
    requires { (width ≡ 8) ⊎ (width ≡ 16) }
{
    let way = settled_after_way(alloc, width)?;
    print_showed(out, &way.showed)?;
    print_left(out, &way.left)
}

/// Prints what a box is left with that was made.
fn print_made<W: Write>(out: &mut W, left: Result<Settled, AllocError>) -> io::Result<()> {
    print_left(out, &left?)
}

/// Prints what boxes are left with: a new one, one in which three words were filled, and one that is full.
fn print_settled<W: Write>(alloc: Global, out: &mut W, width: usize) -> io::Result<()>
    requires { (width ≡ 8) ⊎ (width ≡ 16) }
{
    print_made(out, settled_new(alloc, width))?;
    print_made(out, settled_after_three_fills(alloc, width))?;
    print_made(out, settled_after_ready(alloc, width, 5))
}

/// Prints what a look showed at the greatest stamp, and what the box is left with.
fn print_greatest<W: Write>(alloc: Global, out: &mut W, width: usize) -> io::Result<()>
    requires { (width ≡ 8) ⊎ (width ≡ 16) }
{
    let (look, left) = look_at_the_greatest(alloc, width)?;
    print_stamp(out, "look", look)?;
    print_left(out, &left)
}

/// Prints what boxes of this width show.
pub fn print_boxes<W: Write>(alloc: Global, out: &mut W, width: usize) -> io::Result<()>
    requires { (width ≡ 8) ⊎ (width ≡ 16) }
{
    writeln!(out, "boxes of {width} words")?;
    print_settled(alloc, out, width)?;
    print_way(alloc, out, width)?;
    print_greatest(alloc, out, width)
}
