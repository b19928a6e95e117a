ghost use Rattle.std.specs.Prelude.{◌≡◌, [], length, IsTrue};
ghost use Rattle.pur_base.specs.Bytes.{zeros};
ghost use Rattle.boot_codec.specs.Reading.{Gives, padding};

use crate::bad_record::ReadError;
use crate::front::fault_at;

/// The bytes that are judged at once.
const BLOCK_BYTES: usize = 512;

/// Whether all bytes are zero. It reads many at a time.
fn is_zero(bytes: &[u8]) -> bool
    ensures { IsTrue result → (bytes.now ≡ zeros (length bytes.now)) }
{
    let mut any = 0;
    for byte in bytes {
        any |= *byte;
    }
    any == 0
}

/// The first byte that is not zero fails.
fn first_fault(bytes: &[u8]) -> Result<(), ReadError>
    ensures { Gives (λ _. (tt, [])) result (padding bytes.now) }
{
    for i in 0..bytes.len() {
        if bytes[i] != 0 {
            return Err(fault_at(&bytes[i..]));
        }
    }
    Ok(())
}

/// Nothing but zeros, up to the end. It passes over whole blocks of them.
pub fn padding(bytes: &[u8]) -> Result<(), ReadError>
    ensures { Gives (λ _. (tt, [])) result (padding bytes.now) }
{
    let mut rest = bytes;
    for _ in 0..bytes.len() / BLOCK_BYTES {
        let (block, after) = rest.split_at(BLOCK_BYTES);
        if !is_zero(block) {
            return first_fault(rest);
        }
        rest = after;
    }
    first_fault(rest)
}
