//! Whether a standing is alike a node that is kept.

ghost use Rattle.std.specs.Prelude.{◌≡◌, ℕ, Bool, IfOk, IfSome, IsTrue, List, map, true};
ghost use Rattle.mp_alike_laws.specs.Renaming.{Renaming};
ghost use Rattle.mp_alike.specs.Names.{IsListed};
ghost use Rattle.cl_state.specs.Room.{rank_of};
ghost use Rattle.cl_order_laws.specs.Alike.{AlikeRanks, AreEach};
ghost use Rattle.cl_contests.specs.declared.patterns.AskedBy.{AskedBy};
ghost use Rattle.cl_explore.specs.How.{how_of};
ghost use Rattle.cl_explore.specs.Kept.{IsAlikeKept};
ghost use Rattle.cl_explore.specs.Likeness.{AreNamedIn, HaveSameSites};

use crate::course::Way;
use crate::kept::KeptNode;
use cl_alike::{are_alike_boxes, are_alike_harts, are_alike_slots};
use cl_moves::Standing;
use cl_replay::SharedRank;
use cl_rests::post_of_send;
use cl_state::{KeptRank, RankState};
use mp_alike::{Counterpart, Names, WholeHub, alike_names, live_names};
use mp_request::OpenRequest;
use rv_decode::Reg;
use rv_hart::{Hart, Mode};
use rv_memory::RankMemory;
use std::alloc::{AllocError, Global};

/// What a key is with one more number.
fn mixed(key: u64, number: u64) -> u64 {
    let sum = (key ^ number).wrapping_mul(0x9e37_79b9_7f4a_7c15);
    sum ^ (sum >> 29)
}

/// A number of a hart that changes with its registers and what it is at.
fn key_of_hart(hart: &Hart) -> u64 {
    let mode = match hart.mode() {
        Mode::Running => 0,
        Mode::Waiting(_) => 1,
        Mode::Ended(_) => 2,
        Mode::Trapped(_, _) => 3,
    };
    let mut key = mixed(hart.pc(), mode);
    for register in 1..32u8 {
        key = mixed(key, hart.get(Reg::new(register)));
    }
    key
}

/// How many bytes of a memory are looked at together: those of a page.
const PAGE: u64 = 4096;

/// A number of a page that changes with its bytes.
fn key_of_page(bytes: &[u8; PAGE as usize]) -> u64 {
    let mut key = 0;
    for word in 0..PAGE as usize / 8 {
        let at = 8 * word;
        let front = [bytes[at], bytes[at + 1], bytes[at + 2], bytes[at + 3]];
        let back = [bytes[at + 4], bytes[at + 5], bytes[at + 6], bytes[at + 7]];
        let low = u64::from(u32::from_le_bytes(front));
        let high = u64::from(u32::from_le_bytes(back));
        key = mixed(key, high << 32 | low);
    }
    key
}

/// A number of a memory that changes with the bytes of the pages that it holds.
fn key_of_memory(memory: &RankMemory) -> u64 {
    let mut bytes = [0; PAGE as usize];
    let mut key = 0;
    for page in 0..memory.size() / PAGE {
        if memory.present(page * PAGE, PAGE) {
            memory.read_into(page * PAGE, &mut bytes);
            key = mixed(mixed(key, page), key_of_page(&bytes));
        }
    }
    key
}

/// A number of a rank that changes with its harts and how much it wrote.
fn key_of_state(rank: &RankState) -> u64 {
    let mut key = rank.out.len() as u64;
    for hart in rank.harts.iter() {
        key = mixed(key, key_of_hart(hart));
    }
    key
}

/// The same of the rank of this number, with its number. Nothing depends on it but time and memory.
pub(crate) fn key_of_rank(standing: &Standing, rank: usize) -> u64 {
    match standing.cluster.ranks.get(rank) {
        Some(state) => mixed(rank as u64, key_of_state(state)),
        None => 0,
    }
}

/// A number of a hub that changes with what is compared of it in this way.
fn key_of_hub(way: Way, whole: &WholeHub) -> u64 {
    match way {
        Way::Plainly | Way::AtOnce => whole.key(),
        Way::First => whole.live_key(),
    }
}

/// A number of a rank in a node. Where turns go first that nobody contests, it changes with its memory too: the messages that a
/// rank received aren't compared there, so that many nodes differ in what it keeps of them alone.
fn key_of_state_in(way: Way, rank: &RankState) -> u64 {
    match way {
        Way::Plainly | Way::AtOnce => key_of_state(rank),
        Way::First => mixed(key_of_state(rank), key_of_memory(&rank.memory)),
    }
}

/// A number by which nodes are found that may be alike, as they are compared in this way: those that are have the same one,
/// and others mostly have another. Nothing depends on it but time.
pub(crate) fn key_of(way: Way, standing: &Standing) -> u64 {
    let mut key = key_of_hub(way, &standing.whole);
    for rank in standing.cluster.ranks.iter() {
        key = mixed(key, key_of_state_in(way, rank));
    }
    key
}

fn is_alike_rank(names: &Names, rank: &RankState, kept: &KeptRank) -> bool
    ensures { (naming : Renaming) → IsListed naming names.now → IsTrue result
        → kept.now.site ≡ (rank_of rank.now).site → AlikeRanks naming (rank_of rank.now) kept.now }
{
    kept.is_same_beside(rank)
        && are_alike_harts(names, rank.harts.as_slice(), kept.harts())
        && are_alike_slots(names, rank.requests.front(), kept.requests().front())
}

fn are_alike_ranks(names: &Names, ranks: &[RankState], kept: &[SharedRank]) -> bool
    ensures { (naming : Renaming) → IsListed naming names.now → IsTrue result
        → HaveSameSites (map rank_of ranks.now) kept.now
        → AreEach (AlikeRanks naming) (map rank_of ranks.now) kept.now }
{
    if ranks.len() != kept.len() {
        return false;
    }
    for rank in 0..ranks.len() {
        if !is_alike_rank(names, &ranks[rank], kept[rank].rank()) {
            return false;
        }
    }
    true
}

/// Adds the posts of the standard sends that a handle names in both tables. The only error is want of memory.
fn add_counterparts(
    counterparts: &mut Vec<Counterpart>,
    slots: &[Option<OpenRequest>],
    others: &[Option<OpenRequest>],
) -> Result<(), AllocError> {
    for (slot, other) in slots.iter().zip(others.iter()) {
        if let (Some(mine), Some(theirs)) = (post_of_send(slot), post_of_send(other)) {
            counterparts.push(Counterpart { mine, theirs })?;
        }
    }
    Ok(())
}

/// The posts of standard sends that a handle of a rank names both in a standing and in a node that is kept. Nothing depends on
/// them but which names are tried. The only error is want of memory.
fn counterparts(
    alloc: Global,
    ranks: &[RankState],
    kept: &[SharedRank],
) -> Result<Vec<Counterpart>, AllocError> {
    let mut counterparts = Vec::new(alloc);
    for (rank, other) in ranks.iter().zip(kept.iter()) {
        let theirs = other.rank().requests();
        add_counterparts(&mut counterparts, rank.requests.front(), theirs.front())?;
    }
    Ok(counterparts)
}

/// Names by which the hub of a standing is alike that of a node, as they are compared in this way. The only error is want of
/// memory.
fn hub_names(
    alloc: Global,
    way: Way,
    standing: &Standing,
    kept: &KeptNode,
) -> Result<Option<Names>, AllocError>
    ensures { IfOk result (λ found. IfSome found (λ names. (may_wait : Bool) (asked : List AskedBy)
        → AreNamedIn (how_of way may_wait asked) names standing.now.whole kept.now.whole)) }
{
    match way {
        Way::Plainly | Way::AtOnce => alike_names(alloc, &standing.whole, &kept.whole),
        Way::First => {
            let ranks = standing.cluster.ranks.as_slice();
            let sends = counterparts(alloc, ranks, kept.cluster.ranks())?;
            live_names(alloc, &standing.whole, &kept.whole, sends.as_slice())
        }
    }
}

/// Whether they are alike, as they are compared in this way, places in the order aside. The only error is want of memory.
pub(crate) fn is_alike(
    alloc: Global,
    way: Way,
    standing: &Standing,
    kept: &KeptNode,
) -> Result<bool, AllocError>
    ensures { IfOk result (λ alike. alike ≡ true → (may_wait : Bool) (asked : List AskedBy) (order : List ℕ)
        → IsAlikeKept (how_of way may_wait asked) order standing.now kept.now) }
{
    let Some(names) = hub_names(alloc, way, standing, kept)? else {
        return Ok(false);
    };
    let boxes = standing.cluster.boxes.as_slice();
    Ok(
        are_alike_boxes(boxes, kept.cluster.boxes())
            && are_alike_ranks(
                &names,
                standing.cluster.ranks.as_slice(),
                kept.cluster.ranks(),
            ),
    )
}
