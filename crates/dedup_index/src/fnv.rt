ghost use Rattle.std.specs.Prelude.{◌≡◌, [], ◌∷◌, length};
ghost use Rattle.dedup_index.specs.Fnv.{mixed, hash_of};

use crate::hint::Hint;
use pur_base::{SECTOR_BYTES, Sector};

/// FNV-1a of 64 bits, after Fowler, Noll and Vo: from a start, for each byte, exclusive or and then times a prime.
#[derive(Clone, Copy, PartialEq, Eq)]
pub struct Fnv;

const START: u64 = 0xcbf29ce484222325;

const PRIME: u64 = 0x100000001b3;

/// The state after one more byte.
fn mix(state: u64, byte: u8) -> u64
    ensures { result ≡ mixed state byte }
{
    (state ^ byte as u64).wrapping_mul(PRIME)
}

/// The hash of bytes.
pub fn hash(bytes: &[u8]) -> u64
    ensures { result ≡ hash_of bytes.now }
{
    let mut state = START;
    for byte in bytes {
        state = mix(state, *byte);
    }
    state
}

/// The hashes of the bytes of four sectors. They go side by side, since each waits for its own multiplications alone.
fn hash_four(a: &[u8], b: &[u8], c: &[u8], d: &[u8]) -> [u64; 4]
    requires a_whole { length a.now ≡ SECTOR_BYTES }
    requires b_whole { length b.now ≡ SECTOR_BYTES }
    requires c_whole { length c.now ≡ SECTOR_BYTES }
    requires d_whole { length d.now ≡ SECTOR_BYTES }
    ensures { result ≡ hash_of a.now ∷ hash_of b.now ∷ hash_of c.now ∷ hash_of d.now ∷ [] }
{
    let (mut g, mut h, mut i, mut j) = (START, START, START, START);
    for k in 0..SECTOR_BYTES {
        g = mix(g, a[k]);
        h = mix(h, b[k]);
        i = mix(i, c[k]);
        j = mix(j, d[k]);
    }
    [g, h, i, j]
}

impl Hint for Fnv {
    ghost hint = { hash_of };

    fn of(sector: &Sector) -> u64 {
        hash(sector.as_bytes())
    }

    fn of_four(sectors: [&Sector; 4]) -> [u64; 4] {
        let [a, b, c, d] = sectors;
        hash_four(a.as_bytes(), b.as_bytes(), c.as_bytes(), d.as_bytes())
    }
}
