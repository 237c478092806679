//! The bytes of a rank (rv_memory).
ghost use Rattle.std.specs.Prelude.{◌≡◌, ◌+◌, ◌-◌, ◌*◌, ◌^◌, ◌<◌, ◌≤◌, [], ◌∷◌, length, slice_index, true, false, Some};
ghost use Rattle.std.specs.Prelude.{None, Err, IsOk, IfOk};
ghost use Rattle.rv_memory.specs.Memory.{bytes_at, init_start, value_at, with_bytes};

use rv_memory::{BytesFault, Cause, KeptMemory, RankMemory, StoreFault, Width};
use std::alloc::{AllocError, Global};

/// A range of no bytes may be read wherever it is said to be.
pub fn no_bytes_may_be_read(memory: &RankMemory, address: u64) -> bool
    ensures { result ≡ true }
{
    memory.in_range(address, 0, false)
}

/// A range of no bytes may be written wherever it is said to be.
pub fn no_bytes_may_be_written(memory: &RankMemory, address: u64) -> bool
    ensures { result ≡ true }
{
    memory.in_range(address, 0, true)
}

/// All of the memory may be read, its text with it.
pub fn all_bytes_may_be_read(memory: &RankMemory) -> bool
    ensures { result ≡ true }
{
    memory.in_range(0, memory.size(), false)
}

/// A range doesn't go on at address 0 behind the greatest address.
pub fn range_does_not_wrap(memory: &RankMemory) -> bool
    ensures { result ≡ false }
{
    memory.in_range(u64::MAX, memory.size(), false)
}

/// No bytes are written wherever that is said to be: no fault, and no want of memory.
pub fn no_bytes_are_written_anywhere(
    memory: &mut RankMemory,
    address: u64,
) -> Result<(), BytesFault>
    ensures { IsOk result }
{
    memory.write_bytes(address, &[])
}

/// No bytes are read wherever that is said to be, and no memory is asked for.
pub fn no_bytes_are_read_anywhere(
    memory: &RankMemory,
    alloc: Global,
    address: u64,
) -> Result<Vec<u8>, BytesFault>
    ensures read { IfOk result (λ bytes. bytes.items ≡ []) }
    ensures always { IsOk result }
{
    memory.read_bytes(alloc, address, 0)
}

/// Bytes are read from where they stand: the third and the fourth of these four.
pub fn bytes_are_read_from_their_address()
    ensures { bytes_at (record { bytes = 1 ∷ 2 ∷ 3 ∷ 4 ∷ []; text = 0; pages = [] }) 2 2 ≡ 3 ∷ 4 ∷ [] }
{}

/// A write that begins in the text writes nothing, not even what lies behind the text.
pub fn write_into_the_text_writes_nothing(
    memory: &mut RankMemory,
    address: u64,
    bytes: &[u8],
) -> Result<(), BytesFault>
    requires text { address < memory.old.text }
    requires some { 0 < length bytes.now }
    ensures range { result ≡ Err BytesFault.Range }
    ensures unchanged { memory.new ≡ memory.old }
{
    memory.write_bytes(address, bytes)
}

/// A store into the text traps, and changes nothing.
pub fn store_into_the_text_traps(
    memory: &mut RankMemory,
    address: u64,
    value: u64,
) -> Result<(), StoreFault>
    requires { address < memory.old.text }
    ensures trap { result ≡ Err (StoreFault.Trap Cause.StoreAccess) }
    ensures unchanged { memory.new ≡ memory.old }
{
    memory.store(address, Width::Byte, value)
}

/// A store to an odd address outside the memory is misaligned, before it is outside.
pub fn store_is_misaligned_first(memory: &mut RankMemory, value: u64) -> Result<(), StoreFault>
    ensures { result ≡ Err (StoreFault.Trap Cause.StoreMisaligned) }
{
    memory.store(u64::MAX, Width::Half, value)
}

/// A load from an odd address outside the memory is misaligned, before it is outside.
pub fn load_is_misaligned_first(memory: &RankMemory) -> Result<u64, Cause>
    ensures { result ≡ Err Cause.LoadMisaligned }
{
    memory.load(u64::MAX, Width::Half)
}

/// The lower byte of a half stands first.
pub fn half_has_its_lower_byte_first(memory: &RankMemory, address: u64) -> Result<u64, Cause>
    ensures { IfOk result
        (λ v. v ≡ slice_index memory.now.bytes address + slice_index memory.now.bytes (address + 1) * 256) }
{
    memory.load(address, Width::Half)
}

/// The eighth byte of a word counts.
pub fn word_has_eight_bytes()
    ensures { value_at (0 ∷ 0 ∷ 0 ∷ 0 ∷ 0 ∷ 0 ∷ 0 ∷ 1 ∷ []) 0 8 ≡ 2 ^ 56 }
{}

/// The last eight bytes are loaded like any others.
pub fn the_last_bytes_are_loaded(memory: &RankMemory) -> Result<u64, Cause>
    requires { length memory.now.bytes ≡ 8192 }
    ensures { IsOk result }
{
    memory.load(8184, Width::Double)
}

/// The last word of the text is fetched, and no word behind it.
pub fn the_last_word_is_fetched(memory: &RankMemory) -> (Option<u32>, Option<u32>)
    requires { memory.now.text ≡ 8 }
    ensures last { result.0 ≡ Some (value_at memory.now.bytes 4 4) }
    ensures behind { result.1 ≡ None }
{
    (memory.text_word(4), memory.text_word(8))
}

/// The initial data stands at a multiple of 16, and not right behind the text.
pub fn data_stands_at_a_multiple_of_16()
    ensures { init_start (0x13 ∷ 0 ∷ 0 ∷ 0 ∷ []) ≡ 16 }
{}

/// The size counts the text.
pub fn size_counts_the_text(alloc: Global) -> Result<u64, AllocError>
    ensures { IfOk result (λ size. size ≡ 4096) }
{
    let memory = RankMemory::new(alloc, 4096, &[0x13, 0, 0, 0], &[])?;
    Ok(memory.size())
}

/// What is kept stays as it was while its original is written: what goes on from it is what the original was.
pub fn kept_stays_as_it_was(
    memory: &mut RankMemory,
    alloc: Global,
    address: u64,
    bytes: &[u8],
) -> Result<RankMemory, BytesFault>
    ensures { IfOk result (λ again. again ≡ memory.old) }
{
    let Ok(kept) = memory.keep(alloc, None) else {
        return Err(BytesFault::Memory);
    };
    memory.write_bytes(address, bytes)?;
    match kept.live(alloc) {
        Ok(again) => Ok(again),
        Err(_) => Err(BytesFault::Memory),
    }
}

/// What is kept later has what was written since the earlier one was kept.
pub fn kept_later_has_what_was_written(
    memory: &mut RankMemory,
    alloc: Global,
    earlier: &KeptMemory,
    address: u64,
    bytes: &[u8],
) -> Result<KeptMemory, BytesFault>
    requires { memory.old ≡ earlier.now }
    ensures { IfOk result (λ later. later ≡ with_bytes earlier.now address bytes.now) }
{
    memory.write_bytes(address, bytes)?;
    match memory.keep(alloc, Some(earlier)) {
        Ok(later) => Ok(later),
        Err(_) => Err(BytesFault::Memory),
    }
}

/// A load of what isn't there is trap 5, one of a misaligned address trap 4.
pub fn load_traps_have_their_numbers() -> (u8, u8)
    ensures access { result.0 ≡ 5 }
    ensures misaligned { result.1 ≡ 4 }
{
    (Cause::LoadAccess.number(), Cause::LoadMisaligned.number())
}
