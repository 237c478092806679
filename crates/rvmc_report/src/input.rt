//! The whole input, of a bounded length in a bounded number of reads.

ghost use Rattle.std.specs.Prelude.{◌≡◌, ◌≢◌, ◌≤◌, [], Err, IfOk, Some, length};
ghost use Rattle.std.specs.Io.KnownBytes.{Consumes, IsAtEnd};
ghost use Rattle.rvmc_report.specs.Input.{TakesAtMost};
ghost use Rattle.rvmc_report.specs.declared.input.InputFault.TheVariants as faults;

use std::alloc::{AllocError, Global};
use std::io::Read;

/// Why the input isn't there as a whole.
#[derive(Clone, Copy)]
pub enum InputFault {
    /// A read failed, or the input is too long.
    Read,
    /// Memory was refused.
    Memory,
}

impl From<AllocError> for InputFault {
    ghost from_gives = { λ _ e. e ≡ faults.Memory };

    fn from(_e: AllocError) -> InputFault {
        InputFault::Memory
    }
}

/// How many bytes are read at most, and how many reads but one.
const MOST: usize = 67_108_864;

/// All bytes of the input. `Read` comes where a read fails, where there are more than 67,108,864 bytes, and where
/// as many reads and one more don't come to the end. `Memory` comes only where a byte was read.
pub fn read_input<R: Read>(alloc: Global, input: &mut R) -> Result<Vec<u8>, InputFault>
    ensures taken { IfOk result (λ bytes. Consumes (R.remaining input.old) (R.remaining input.new) bytes.items) }
    ensures end { IfOk result (λ _. IsAtEnd (R.remaining input.new)) }
    ensures short { IfOk result (λ bytes. length bytes.items ≤ 67108864) }

    // Whatever is answered: bytes are taken from the front alone, 4,096 beyond the limit at most, and an empty input
    // needs no memory.
    ensures front { TakesAtMost 67112960 (R.remaining input.old) (R.remaining input.new) }
    ensures empty { R.remaining input.old ≡ Some [] → result ≢ Err faults.Memory }
{
    let mut bytes = Vec::new(alloc);
    let mut buffer = [0u8; 4096];
    for _ in 0..=MOST {
        let Ok(count) = input.read(&mut buffer) else {
            return Err(InputFault::Read);
        };
        if count == 0 {
            return Ok(bytes);
        }
        if count > MOST - bytes.len() {
            return Err(InputFault::Read);
        }
        bytes.extend_from_slice(&buffer[..count])?;
    }
    Err(InputFault::Read)
}
