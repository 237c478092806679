//! What the next step stores.
ghost use Rattle.std.specs.Prelude.{◌≡◌};
ghost use Rattle.rv_hart.specs.Stores.{store_range as store_range_of, store_at as store_at_of};
ghost use Rattle.rv_hart.specs.Stores.{stored_by as stored_by_of};
ghost use Rattle.rv_memory.specs.Access.{size_of};

use crate::results;
use crate::state::Hart;
use rv_decode::{Instr, decode};
use rv_memory::{RankMemory, Width};

/// A range of bytes that an instruction stores.
#[derive(Clone, Copy, Drop)]
pub struct StoreRange {
    /// The address of the first byte.
    pub address: u64,
    /// How many bytes there are; 0 where nothing is stored.
    pub count: u64,
}

const NOTHING: StoreRange = StoreRange {
    address: 0,
    count: 0,
};

/// The bytes of a store at an address, or none where it traps.
fn store_at(memory: &RankMemory, address: u64, width: Width) -> StoreRange
    ensures { result ≡ store_at_of memory.now address (size_of width) }
{
    match memory.store_trap(address, width) {
        Some(_) => NOTHING,
        None => StoreRange {
            address,
            count: width.size(),
        },
    }
}

/// The bytes that an instruction stores.
fn stored_by(hart: &Hart, memory: &RankMemory, instr: &Instr) -> StoreRange
    ensures { result ≡ stored_by_of instr.now hart.now memory.now }
{
    match *instr {
        Instr::Store { op, rs1, off, .. } => {
            let address = results::add_signed(hart.get(rs1), off);
            store_at(memory, address, results::store_width(op))
        }
        _ => NOTHING,
    }
}

/// The bytes that the next step of a running hart stores: none where its instruction isn't a store, or traps. A step
/// takes no memory where their pages are there.
#[tactic(auto, unfolding(crate::specs::Stores::store_range))]
pub fn store_range(hart: &Hart, memory: &RankMemory) -> StoreRange
    ensures { result ≡ store_range_of hart.now memory.now }
{
    let Some(word) = memory.text_word(hart.pc()) else {
        return NOTHING;
    };
    let Some(instr) = decode(word) else {
        return NOTHING;
    };
    stored_by(hart, memory, &instr)
}
