// A write that lasts.
ghost use Rattle.std.specs.Prelude.{◌≡◌, [], length, OnOk};
ghost use Rattle.world.specs.Shelf.{Has, Continues, Written, OthersStay, WriteCounts};
ghost use Rattle.world.specs.Writes.{OneRange, WritesOnly};
ghost use Rattle.world.specs.Ran.{Only, Ran};

use crate::{Failed, Shelf};
use pur_base::Device;

/// Writes and syncs. Where it answers Ok, no stop takes the bytes away.
pub fn write_synced<S: Shelf>(
    shelf: &mut S,
    device: Device,
    at: u64,
    from: &[u8],
) -> Result<(), Failed>
    requires { Has (S.shelf shelf.old) device at (length from.now) }
    ensures continues { Continues (S.shelf shelf.old) (S.shelf shelf.new) }
    ensures written { (S.shelf shelf.old).honest → OnOk result (Written at from.now ((S.shelf shelf.old).disk device).bytes ((S.shelf shelf.new).disk device).bytes) }
    ensures clean { (S.shelf shelf.old).honest → OnOk result (((S.shelf shelf.new).disk device).dirty ≡ []) }
    ensures writes { (S.shelf shelf.old).honest → WritesOnly (OneRange device at (length from.now)) (S.shelf shelf.old) (S.shelf shelf.new) }
    ensures others { OthersStay device (S.shelf shelf.old) (S.shelf shelf.new) }
    ensures counts { WriteCounts result ((S.shelf shelf.old).disk device) ((S.shelf shelf.new).disk device) }
    ensures rest { S.shelf_rest shelf.old shelf.new }
    ensures ran { Ran S.shelf S.shelf_rest (Only device) (OneRange device at (length from.now)) shelf.old shelf.new }
{
    shelf.write(device, at, from)?;
    shelf.sync(device)
}
