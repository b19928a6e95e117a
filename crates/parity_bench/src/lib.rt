// Keeps nothing: `encode` and `recover` of parity72 under C names, for the measurements of bench/kernels.
// Promises what they promise.
#![tactic(auto)]

ghost use Rattle.std.specs.Prelude.{◌≡◌, ◌≢◌, ℕ, ◌<◌, ◌++◌, ◌∷◌, [], List};
ghost use Rattle.parity72.specs.Parity.{IsCodeword};
ghost use Rattle.parity72.specs.Recovery.{AgreesOutside};

use arrayvec::ArrayVec;
use parity72::{DATA_SHARDS, SHARD_BYTES, SHARDS};

/// `parity72::encode`.
#[unsafe(no_mangle)]
pub extern "C" fn parity_bench_encode(
    shards: &[[u8; SHARD_BYTES]; DATA_SHARDS],
    p: &mut [u8; SHARD_BYTES],
    q: &mut [u8; SHARD_BYTES],
)
    ensures { IsCodeword (shards.now ++ p.new ∷ q.new ∷ []) }
{
    parity72::encode(shards, p, q);
}

/// `parity72::recover` of two shards.
#[unsafe(no_mangle)]
pub extern "C" fn parity_bench_recover(shards: &mut [[u8; SHARD_BYTES]; SHARDS], i: u8, j: u8)
    requires i_in { i < SHARDS }
    requires j_in { j < SHARDS }
    requires apart { i ≢ j }
    ensures { (whole : List (List ℕ)) → IsCodeword whole → AgreesOutside (i ∷ j ∷ []) shards.old whole
        → shards.new ≡ whole }
{
    let mut lost: ArrayVec<u8, 2> = ArrayVec::new();
    lost.push(i);
    lost.push(j);
    parity72::recover(shards, &lost);
}
