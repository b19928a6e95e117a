// P and Q from the data shards.

ghost use Rattle.std.specs.Prelude.{◌≡◌, ℕ, ◌<◌, ◌++◌, ◌∷◌, [], slice_index};
ghost use Rattle.parity72.specs.Parity.{p_of, q_of, IsCodeword};
ghost use Rattle.parity72.specs.Recovery.{Encodes};

use crate::columns::parities_at;
use crate::lanes::{LANES, put_lanes};
use crate::layout::{BLOCKS, DATA_SHARDS, P, Q, SHARD_BYTES, SHARDS};

/// Writes P and Q of seven data shards of 4096 bytes, in one pass over them.
/// H. P. Anvin, "The mathematics of RAID-6".
pub fn encode(
    shards: &[[u8; SHARD_BYTES]; DATA_SHARDS],
    p: &mut [u8; SHARD_BYTES],
    q: &mut [u8; SHARD_BYTES],
)
    ensures { IsCodeword (shards.now ++ p.new ∷ q.new ∷ []) }
{
    for block in 0..BLOCKS {
        let at = block * LANES;
        let (p_lanes, q_lanes) = parities_at(shards, at);
        put_lanes(p_lanes, p, at);
        put_lanes(q_lanes, q, at);
    }
}

/// Writes P and Q of the first seven of nine shards to the last two.
pub fn encode_again(shards: &mut [[u8; SHARD_BYTES]; SHARDS])
    ensures { Encodes shards.old shards.new SHARD_BYTES }
{
    for block in 0..BLOCKS {
        let at = block * LANES;
        let (p_lanes, q_lanes) = parities_at(shards, at);
        put_lanes(p_lanes, &mut shards[P], at);
        put_lanes(q_lanes, &mut shards[Q], at);
    }
}
