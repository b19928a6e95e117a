// Two writes on one device, the second behind the first.
ghost use Rattle.std.specs.Prelude.{◌≡◌, ◌⊎◌, ◌+◌, ◌≤◌, [], length, slice_range, OnOk};
ghost use Rattle.world.specs.Shelf.{Has, Continues, WriteCounts, LeavesOnly};
ghost use Rattle.world.specs.Writes.{WritesOnly};
ghost use Rattle.world_clients.specs.Turns.{TwoRanges, IsInTurn};

use pur_base::Device;
use world::{Failed, Shelf, write_synced};

/// Writes `first` and then `second`, each synced.
pub fn write_in_turn<S: Shelf>(
    shelf: &mut S,
    device: Device,
    at: u64,
    first: &[u8],
    then: u64,
    second: &[u8],
) -> Result<(), Failed>
    requires first_fits { Has (S.shelf shelf.old) device at (length first.now) }
    requires second_fits { Has (S.shelf shelf.old) device then (length second.now) }
    requires apart { (at + length first.now ≤ then) ⊎ (then + length second.now ≤ at) }
    ensures continues { Continues (S.shelf shelf.old) (S.shelf shelf.new) }
    ensures writes { (S.shelf shelf.old).honest → WritesOnly (TwoRanges device at (length first.now) then (length second.now)) (S.shelf shelf.old) (S.shelf shelf.new) }
    ensures written { (S.shelf shelf.old).honest → OnOk result (slice_range ((S.shelf shelf.new).disk device).bytes then (then + length second.now) ≡ second.now) }
    ensures counts { WriteCounts result ((S.shelf shelf.old).disk device) ((S.shelf shelf.new).disk device) }
    // A stop at any moment: where the second is there in part, the first is there whole.
    ensures in_turn { (S.shelf shelf.old).honest → ((S.shelf shelf.old).disk device).dirty ≡ [] → LeavesOnly (S.shelf shelf.old) (S.shelf shelf.new) (IsInTurn (S.shelf shelf.old) device at first.now then (length second.now)) }
    ensures rest { S.shelf_rest shelf.old shelf.new }
{
    write_synced(shelf, device, at, first)?;
    write_synced(shelf, device, then, second)
}
