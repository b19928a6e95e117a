// Sectors in a segment of memory are read.
ghost use Rattle.std.specs.Prelude.{◌≡◌, ℕ, ◌+◌, ◌*◌, ◌<◌, ◌≤◌, length, IfErr, OnOk};
ghost use Rattle.pur_base.specs.Bytes.{bytes_at};
ghost use Rattle.pur_base.specs.declared.limits.TheConstants.{SECTOR_BYTES};
ghost use Rattle.pur_base.specs.Devices.{View};
ghost use Rattle.memory_spec.specs.Memory.{Contents};
ghost use Rattle.memory_spec.specs.Tables.{facts};
ghost use Rattle.memory_spec.specs.Contents.{ContentsStand};
ghost use Rattle.target_io.specs.Reading.{AreReadable, ShowsDrives, ReadsOnly, AreDrivesLost};
ghost use Rattle.target_io.specs.Targets.{IsRun};

use array_memory::Memory;
use pur_base::{Location, Lost, SECTOR_BYTES};
use segment_io::{StripeBuffer, read_sectors};
use world::Shelf;

/// Reads so many sectors from that location on in its segment straight into the first places of their bytes, with one call for each shard that they touch.
/// `Lost` names drives that are each missing or failed in this call, three of the segment's at least.
pub fn read_segment<S: Shelf>(
    memory: &Memory,
    at: Location,
    count: usize,
    missing: &[bool],
    shards: &mut StripeBuffer,
    out: &mut [u8],
    shelf: &mut S,
) -> Result<(), Lost>
    requires places { AreReadable (S.shelf shelf.old) (facts memory.now.memory.tables) }
    requires run { IsRun memory.now.memory at count }
    requires size { SECTOR_BYTES * count ≤ length out.old }
    ensures reads { ReadsOnly (S.shelf shelf.old) (S.shelf shelf.new) }
    ensures rest { S.shelf_rest shelf.old shelf.new }
    ensures sectors { (S.shelf shelf.old).honest → OnOk result ((contents : Contents) (view : View) → ShowsDrives (S.shelf shelf.old) missing.now view → ContentsStand contents view (facts memory.now.memory.tables)
        → (j : ℕ) → j < count → bytes_at (SECTOR_BYTES * j) SECTOR_BYTES out.new ≡ contents at.segment.0 (at.index + j)) }
    ensures lost { IfErr result (λ lost. AreDrivesLost (S.shelf shelf.old) (S.shelf shelf.new) (facts memory.now.memory.tables) missing.now lost.drives) }
{
    let Some(places) = memory.places(at.segment) else {
        unreachable!()
    };
    let run = &mut out[..SECTOR_BYTES * count];
    read_sectors(shelf, &places, at.index, missing, shards, run)
}
