//! The sides of partitioned transfers, as ranks initialise them.

ghost use Rattle.std.specs.Prelude.{◌≡◌, ◌==◌, ◌≤◌, ◌+◌, length, filter, slice_get};
ghost use Rattle.rv_image_types.specs.Limits.{most_links};
ghost use Rattle.mp_transfers.specs.Inits.{is_for, is_other_side, is_receiver, is_reserved, is_same_side, lowest_link};
ghost use Rattle.mp_transfers.specs.Inits.{peer_of, same_total, same_transfer, sender_over, total_bytes};

use rv_image_types::Link;

/// One side of a partitioned transfer as a rank asks for it (MPI 4.1, chapter 4.2).
#[derive(Clone, Copy)]
pub struct Setup {
    /// Whether it is the sender's side.
    pub sending: bool,
    /// The communicator's number, from 0 to 7.
    pub comm: u8,
    /// The sender's and the receiver's rank in the cluster.
    pub from: u8,
    pub to: u8,
    /// From 0 to 32,767.
    pub tag: u16,
    /// The number of partitions, and the bytes of each.
    pub parts: u8,
    pub size: u8,
}

/// A side that was initialised.
#[derive(Clone, Copy)]
pub struct Side {
    pub setup: Setup,
    /// The number of its link in the image.
    pub link: u8,
}

fn has_same_transfer(new: Setup, setup: Setup) -> bool
    ensures { result ≡ same_transfer new setup }
{
    setup.comm == new.comm && setup.from == new.from && setup.to == new.to && setup.tag == new.tag
}

fn is_same(new: Setup, side: Side) -> bool
    ensures { result ≡ is_same_side new side }
{
    has_same_transfer(new, side.setup)
        && if new.sending {
            side.setup.sending
        } else {
            !side.setup.sending
        }
}

fn is_other(new: Setup, side: Side) -> bool
    ensures { result ≡ is_other_side new side }
{
    has_same_transfer(new, side.setup)
        && if new.sending {
            !side.setup.sending
        } else {
            side.setup.sending
        }
}

// The bytes of all partitions.
fn total(setup: Setup) -> u32
    ensures { result ≡ total_bytes setup }
{
    u32::from(setup.parts) * u32::from(setup.size)
}

/// Whether the two sides have as many bytes in all, however each cuts them.
pub fn has_same_total(new: Setup, peer: Setup) -> bool
    ensures { result ≡ same_total new peer }
{
    total(peer) == total(new)
}

fn count_same(sides: &[Side], new: Setup) -> u64
    ensures { result ≡ length (filter (is_same_side new) sides.now) }
{
    let mut rest = sides;
    let mut count = 0;
    while let Some((side, after)) = rest.split_first() {
        if is_same(new, *side) {
            count += 1;
        }
        rest = after;
    }
    count
}

fn nth_other(sides: &[Side], new: Setup, n: u64) -> Option<Side>
    ensures { result ≡ slice_get (filter (is_other_side new) sides.now) n }
{
    let mut rest = sides;
    let mut left = n;
    while let Some((side, after)) = rest.split_first() {
        if is_other(new, *side) {
            if left == 0 {
                return Some(*side);
            }
            left -= 1;
        }
        rest = after;
    }
    None
}

/// The side that the new one is paired with, if it was initialised before.
pub fn find_peer(sides: &[Side], new: Setup) -> Option<Side>
    ensures { result ≡ peer_of sides.now new }
{
    nth_other(sides, new, count_same(sides, new))
}

fn has_link(sides: &[Side], link: u8) -> bool
    ensures { result ≡ is_reserved sides.now link }
{
    sides.iter().any(|side| side.link == link)
}

/// The lowest link that joins the two ranks and that no side has.
pub fn find_link(links: &[Link], sides: &[Side], new: Setup) -> Option<u8>
    requires { length links.now ≤ most_links }
    ensures { result ≡ lowest_link links.now sides.now new }
{
    let mut rest = links;
    let mut number = 0;
    while let Some((link, after)) = rest.split_first() {
        if link.from == new.from && link.to == new.to && !has_link(sides, number) {
            return Some(number);
        }
        rest = after;
        number += 1;
    }
    None
}

/// The side that sends over the link, if it was initialised.
pub fn find_sender(sides: &[Side], link: u8) -> Option<Side>
    ensures { result ≡ sender_over sides.now link }
{
    sides
        .iter()
        .copied()
        .find(|side| side.link == link && side.setup.sending)
}

/// Whether the image has the link and the rank receives over it.
pub fn receives_over(links: &[Link], rank: u8, link: u8) -> bool
    ensures { result ≡ is_receiver links.now rank link }
{
    match links.get(usize::from(link)) {
        Some(link) => link.to == rank,
        None => false,
    }
}
