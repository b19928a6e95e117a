// The sectors of targets are read.
ghost use Rattle.std.specs.Prelude.{◌≡◌, ◌*◌, ◌<◌, ◌≤◌, All, length, IfOk, IfErr, OnOk};
ghost use Rattle.pur_base.specs.declared.limits.TheConstants.{REQUEST_SECTORS, SECTOR_BYTES};
ghost use Rattle.pur_base.specs.Devices.{View};
ghost use Rattle.memory_spec.specs.Memory.{Contents};
ghost use Rattle.memory_spec.specs.Tables.{facts};
ghost use Rattle.memory_spec.specs.Contents.{ContentsStand};
ghost use Rattle.volume_ops.specs.Targets.{Stands};
ghost use Rattle.target_io.specs.Reading.{AreReadable, ShowsDrives, ReadsOnly, AreDrivesLost};
ghost use Rattle.target_io.specs.Targets.{AreSectorsOf};

use crate::following::run_length;
use crate::segments::read_segment;
use array_memory::Memory;
use pur_base::{Lost, SECTOR_BYTES, Target};
use segment_io::StripeBuffer;
use volume_ops::fetch;
use world::Shelf;

// Reads the sector of the first target, where memory has it, and else all that follow it in its segment. Gives how many were read.
fn read_next<S: Shelf>(
    memory: &Memory,
    targets: &[Target],
    missing: &[bool],
    shards: &mut StripeBuffer,
    out: &mut [u8],
    shelf: &mut S,
) -> Result<usize, Lost>
    requires places { AreReadable (S.shelf shelf.old) (facts memory.now.memory.tables) }
    requires stand { All (Stands memory.now.memory) targets.now }
    requires some { 0 < length targets.now }
    requires few { length targets.now ≤ REQUEST_SECTORS }
    requires size { length out.old ≡ SECTOR_BYTES * length targets.now }
    ensures reads { ReadsOnly (S.shelf shelf.old) (S.shelf shelf.new) }
    ensures rest { S.shelf_rest shelf.old shelf.new }
    ensures some { IfOk result (λ count. (1 ≤ count) × (count ≤ length targets.now)) }
    ensures sectors { (S.shelf shelf.old).honest → IfOk result (λ count. (contents : Contents) (view : View) → ShowsDrives (S.shelf shelf.old) missing.now view → ContentsStand contents view (facts memory.now.memory.tables)
        → AreSectorsOf contents memory.now.memory.staged targets.now count out.new) }
    ensures lost { IfErr result (λ lost. AreDrivesLost (S.shelf shelf.old) (S.shelf shelf.new) (facts memory.now.memory.tables) missing.now lost.drives) }
{
    let first = &mut out[..SECTOR_BYTES];
    let Some(at) = fetch(memory, targets[0], first) else {
        return Ok(1);
    };
    let count = run_length(at, targets);
    read_segment(memory, at, count, missing, shards, out, shelf)?;
    Ok(count)
}

/// Reads the sectors of all targets, their bytes one behind another. `Lost` names drives that are each missing or failed in this call, three of one segment's at least.
pub fn read_targets<S: Shelf>(
    memory: &Memory,
    targets: &[Target],
    missing: &[bool],
    shards: &mut StripeBuffer,
    out: &mut [u8],
    shelf: &mut S,
) -> Result<(), Lost>
    requires places { AreReadable (S.shelf shelf.old) (facts memory.now.memory.tables) }
    requires stand { All (Stands memory.now.memory) targets.now }
    requires few { length targets.now ≤ REQUEST_SECTORS }
    requires size { length out.old ≡ SECTOR_BYTES * length targets.now }
    ensures reads { ReadsOnly (S.shelf shelf.old) (S.shelf shelf.new) }
    ensures rest { S.shelf_rest shelf.old shelf.new }
    ensures sectors { (S.shelf shelf.old).honest → OnOk result ((contents : Contents) (view : View) → ShowsDrives (S.shelf shelf.old) missing.now view → ContentsStand contents view (facts memory.now.memory.tables)
        → AreSectorsOf contents memory.now.memory.staged targets.now (length targets.now) out.new) }
    ensures lost { IfErr result (λ lost. AreDrivesLost (S.shelf shelf.old) (S.shelf shelf.new) (facts memory.now.memory.tables) missing.now lost.drives) }
{
    let mut done = 0;
    while done < targets.len() {
        let part = &mut out[SECTOR_BYTES * done..];
        let count = read_next(memory, &targets[done..], missing, shards, part, shelf)?;
        done += count;
    }
    Ok(())
}
