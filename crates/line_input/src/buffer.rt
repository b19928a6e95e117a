// Buffers on the heap.
ghost use Rattle.std.specs.Prelude.{◌≡◌, IfOk, vec_len};

use pur_base::NoMemory;
use std::alloc::Global;

/// The bytes of a reader's buffer, and of a writer's.
pub const BUFFER_BYTES: usize = 65_536;

/// That many bytes.
pub fn zeros(alloc: Global, count: usize) -> Result<Vec<u8>, NoMemory>
    ensures { IfOk result (λ buffer. vec_len buffer ≡ count) }
{
    Ok(vec![in alloc; 0u8; count]?)
}
