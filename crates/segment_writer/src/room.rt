// Memory that is taken before the first write.
ghost use Rattle.std.specs.Prelude.{◌≡◌, ◌*◌, ◌≤◌, [], length, IfOk, OnOk};
ghost use Rattle.segment_codec.specs.declared.position.TheConstants.{STRIPES};
ghost use Rattle.segment_io.specs.declared.open.TheConstants.{RUN_ROOM};
ghost use Rattle.segment_writer.specs.CheckpointStoring.{HaveRoomFor};

use boot_codec::Patches;
use parity72::{DATA_SHARDS, SHARD_BYTES};
use pur_base::NoMemory;
use segment_codec::STRIPES;
use segment_io::{Open, RUN_ROOM, StripeData};
use std::alloc::Global;

/// Room for the stripes of a segment.
fn stripe_room(alloc: Global) -> Result<Vec<StripeData>, NoMemory>
    ensures { IfOk result (λ stripes. STRIPES ≤ length stripes.items) }
{
    Ok(vec![in alloc; [[0; SHARD_BYTES]; DATA_SHARDS]; STRIPES as usize]?)
}

/// Room for the write units that are written with one call.
fn unit_room(alloc: Global) -> Result<Vec<[u8; SHARD_BYTES]>, NoMemory>
    ensures { IfOk result (λ room. RUN_ROOM * STRIPES ≤ length room.items) }
{
    Ok(vec![in alloc; [0; SHARD_BYTES]; RUN_ROOM * STRIPES as usize]?)
}

/// Room in which segments are put together, which is lent and used again. It is taken where it is first wanted.
#[derive(Drop)]
pub struct WriteRoom {
    /// For the stripes of a segment.
    pub stripes: Vec<StripeData>,
    /// For the write units that are written with one call.
    pub units: Vec<[u8; SHARD_BYTES]>,
}

impl WriteRoom {
    /// No room yet.
    pub fn new(alloc: Global) -> WriteRoom
        ensures { (result.stripes.items ≡ []) × (result.units.items ≡ []) }
    {
        WriteRoom {
            stripes: Vec::new(alloc),
            units: Vec::new(alloc),
        }
    }

    /// Takes what of the room isn't there yet.
    pub fn reserve(&mut self, alloc: Global) -> Result<(), NoMemory>
        ensures { OnOk result ((STRIPES ≤ length self.new.stripes.items) × (RUN_ROOM * STRIPES ≤ length self.new.units.items)) }
    {
        if self.stripes.len() < STRIPES as usize {
            self.stripes = stripe_room(alloc)?;
        }
        if self.units.len() < RUN_ROOM * STRIPES as usize {
            self.units = unit_room(alloc)?;
        }
        Ok(())
    }
}

/// A list for each patch, with room for its segments.
pub(crate) fn lists_for(alloc: Global, patches: &Patches) -> Result<Vec<Vec<Open>>, NoMemory>
    ensures { IfOk result (λ lists. HaveRoomFor patches.now lists.items) }
{
    let mut lists = Vec::with_capacity(alloc, patches.len())?;
    for index in 0..patches.len() {
        let patch = patches.at(index);
        let list = Vec::with_capacity(alloc, patch.segments.as_slice().len())?;
        lists.push(list)?;
    }
    Ok(lists)
}
