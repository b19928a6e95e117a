ghost use Rattle.std.specs.Prelude.{◌≡◌, replicate, IfOk};
ghost use Rattle.parity72.specs.declared.layout.TheConstants.{SHARD_BYTES, SHARDS};

use parity72::{SHARD_BYTES, SHARDS};
use pur_base::NoMemory;
use segment_io::StripeBuffer;
use std::alloc::Global;

/// Room for a stripe, of which shards are made again, which is lent and used again. `new` takes all memory.
#[derive(Drop)]
pub struct ReadRoom {
    pub(crate) shards: Box<StripeBuffer>,
}

impl ReadRoom {
    /// Room for a stripe. `NoMemory` comes only where there is no memory for it.
    pub fn new(alloc: Global) -> Result<ReadRoom, NoMemory>
        ensures { IfOk result (λ room. room.shards.value ≡ replicate SHARDS (replicate SHARD_BYTES 0)) }
    {
        let shards = Box::new(alloc, [[0; SHARD_BYTES]; SHARDS])?;
        Ok(ReadRoom { shards })
    }
}
