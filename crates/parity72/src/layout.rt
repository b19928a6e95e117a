// Which shard is which, and how long they are.

use crate::lanes::LANES;

/// The bytes of a shard.
pub const SHARD_BYTES: usize = 4096;
/// The data shards, which come first.
pub const DATA_SHARDS: usize = 7;
/// The shard that is P.
pub const P: usize = 7;
/// The shard that is Q.
pub const Q: usize = 8;
/// The data shards, P and Q.
pub const SHARDS: usize = 9;

/// The vectors of a shard.
pub const BLOCKS: usize = SHARD_BYTES / LANES;
