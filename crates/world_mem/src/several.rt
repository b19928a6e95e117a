// The three calls on one of several devices in memory.
ghost use Rattle.std.specs.Prelude.{◌≡◌, ◌+◌, ◌<◌, length, slice_range, true, OnOk};
ghost use Rattle.world.specs.Shelf.{WasWritten, WasSynced, IsSame, ReadCounts, WriteCounts};
ghost use Rattle.world_mem.specs.Called.{HasRange, WasCalledIn};
ghost use Rattle.world_mem.specs.Parts.{disks_of, disk_at, bytes_at};

use crate::calls::{read_part, sync_part, write_part};
use crate::part::Part;
use crate::record::Call;
use pur_base::Device;
use std::alloc::Global;
use world::Failed;

pub(crate) fn write_in(
    alloc: Global,
    parts: &mut Vec<Part>,
    k: usize,
    calls: &mut Vec<Call>,
    starved: &mut bool,
    device: Device,
    at: usize,
    from: &[u8],
) -> Result<(), Failed>
    requires { HasRange parts.old.items k at (length from.now) }
    ensures device { WasWritten result (starved.new ≡ true) at from.now (disk_at (disks_of parts.old.items) k) (disk_at (disks_of parts.new.items) k) }
    ensures counts { WriteCounts result (disk_at (disks_of parts.old.items) k) (disk_at (disks_of parts.new.items) k) }
    ensures called { WasCalledIn device k result starved.old starved.new calls.old.items calls.new.items parts.old.items parts.new.items }
{
    write_part(alloc, &mut parts[k], calls, starved, device, at, from)
}

pub(crate) fn sync_in(
    alloc: Global,
    parts: &mut Vec<Part>,
    k: usize,
    calls: &mut Vec<Call>,
    starved: &mut bool,
    device: Device,
) -> Result<(), Failed>
    requires { k < length parts.old.items }
    ensures device { WasSynced result (disk_at (disks_of parts.old.items) k) (disk_at (disks_of parts.new.items) k) }
    ensures counts { WriteCounts result (disk_at (disks_of parts.old.items) k) (disk_at (disks_of parts.new.items) k) }
    ensures called { WasCalledIn device k result starved.old starved.new calls.old.items calls.new.items parts.old.items parts.new.items }
{
    sync_part(alloc, &mut parts[k], calls, starved, device)
}

pub(crate) fn read_in(
    parts: &mut Vec<Part>,
    k: usize,
    calls: &mut Vec<Call>,
    starved: &mut bool,
    device: Device,
    at: usize,
    into: &mut [u8],
) -> Result<(), Failed>
    requires { HasRange parts.old.items k at (length into.old) }
    ensures bytes { OnOk result (into.new ≡ slice_range (bytes_at parts.old.items k) at (at + length into.old)) }
    ensures device { IsSame (disk_at (disks_of parts.old.items) k) (disk_at (disks_of parts.new.items) k) }
    ensures counts { ReadCounts result (disk_at (disks_of parts.old.items) k) (disk_at (disks_of parts.new.items) k) }
    ensures called { WasCalledIn device k result starved.old starved.new calls.old.items calls.new.items parts.old.items parts.new.items }
{
    read_part(&mut parts[k], calls, starved, device, at, into)
}
