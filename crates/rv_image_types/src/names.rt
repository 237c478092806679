//! The names of symbols, and their order.

ghost use Rattle.std.specs.Prelude.{◌≡◌};
ghost use Rattle.std.specs.List.{list_all};
ghost use Rattle.rv_image_types.specs.Names as names;

/// Whether the byte is a letter, a digit, `_`, `.` or `$`.
fn is_name_byte(byte: u8) -> bool
    ensures { result ≡ names.is_name_byte byte }
{
    byte.is_ascii_alphanumeric() || byte == b'_' || byte == b'.' || byte == b'$'
}

fn are_name_bytes(bytes: &[u8]) -> bool
    ensures { result ≡ list_all names.is_name_byte bytes.now }
{
    let mut rest = bytes;
    while let Some((byte, after)) = rest.split_first() {
        if !is_name_byte(*byte) {
            return false;
        }
        rest = after;
    }
    true
}

/// Whether the bytes are a symbol's name: 1 to 31 letters, digits, `_`, `.` and `$`, of which the first is no digit.
pub fn is_symbol_name(name: &[u8]) -> bool
    ensures { result ≡ names.is_symbol_name name.now }
{
    if name.len() < 1 || name.len() > 31 {
        return false;
    }
    are_name_bytes(name) && !name[0].is_ascii_digit()
}

/// Whether a name stands before another in the order of their bytes: at the first byte that differs it has the lower
/// one, or it ends where the other goes on.
pub fn name_before(earlier: &[u8], later: &[u8]) -> bool
    ensures { result ≡ names.name_before earlier.now later.now }
{
    earlier.cmp(&later).is_lt()
}
