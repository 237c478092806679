//! Bytes and registers in hexadecimal digits.

ghost use Rattle.std.specs.Prelude.{◌≡◌, ◌++◌, OnOk};
ghost use Rattle.hex.specs.Hex.{encode_lower};
ghost use Rattle.rvmc_protocol.specs.Replies.Digits.{register_text};

use std::alloc::{AllocError, Global};

/// Adds two digits for each byte.
pub fn put_bytes(alloc: Global, text: &mut Vec<u8>, bytes: &[u8]) -> Result<(), AllocError>
    ensures { OnOk result (text.new.items ≡ text.old.items ++ encode_lower bytes.now) }
{
    let digits = hex::encode(alloc, bytes)?;
    text.extend_from_slice(digits.as_bytes())?;
    Ok(())
}

/// Adds a register of 64 bits, the low byte first.
pub fn put_register(alloc: Global, text: &mut Vec<u8>, value: u64) -> Result<(), AllocError>
    ensures { OnOk result (text.new.items ≡ text.old.items ++ register_text value) }
{
    let bytes = value.to_le_bytes();
    put_bytes(alloc, text, &bytes)
}
