//! The handles of an array in the memory.

ghost use Rattle.std.specs.Prelude.{◌≡◌, IsTrue};
ghost use Rattle.cl_calls.specs.Checks.{is_array, is_few};
ghost use Rattle.cl_calls.specs.Handles.{handles_in};

use crate::needs::Array;
use arrayvec::ArrayVec;
use mp_request::HANDLES;
use rv_memory::RankMemory;

/// The handles of an array, of which there are at most 255. They take no memory.
pub type Handles = ArrayVec<u64, HANDLES>;

/// The handles of an array, which lies in the memory and has at most 255 of them.
pub fn handles_at(memory: &RankMemory, array: Array) -> Handles
    requires few { IsTrue (is_few array) }
    requires inside { IsTrue (is_array memory.now array) }
    ensures { result.items ≡ handles_in memory.now array }
{
    // no address of the array is beyond the memory
    prove!(memory.size() <= 1048576);
    let mut handles = ArrayVec::new();
    for i in 0..array.count {
        handles.push(memory.word(array.address + 8 * i));
    }
    handles
}
