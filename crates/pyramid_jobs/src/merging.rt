// Two patches are merged.
ghost use Rattle.std.specs.Prelude.{◌≡◌, [], OnOk, OnErr, IfErr};
ghost use Rattle.world.specs.Losing.{geometry_of};
ghost use Rattle.world.specs.Shelf.{Continues, LeavesOnly, IsCountedBy};
ghost use Rattle.array_core.specs.Ready.{IsArrayOf};
ghost use Rattle.array_core.specs.Going.{by_faults};
ghost use Rattle.array_core.specs.Goes.{Goes};
ghost use Rattle.array_checkpoint.specs.Room.{IsRoomOf};
ghost use Rattle.pyramid_jobs.specs.Made.{HasMerged, IsFaultOf, MayMerge};

use crate::checking::check_merge;
use crate::preparing::{Prepared, prepare};
use crate::writing::write_prepared;
use array_checkpoint::Room;
use array_core::{Array, switch_tables};
use pur_base::{Refusal, Table};
use segment_writer::WriteRoom;
use std::alloc::Global;
use world::Shelf;

/// Merges a table's patch of that index, from 0, the oldest first, and the next one into one, or none where no fact is left: all memory is taken first, then the one patch is written to free units,
/// and a record that names it in the place of the two is stored. The log goes on; the units of the two are free afterwards. `room` is what the array leaves, and is counted again; `writing` is room that is lent and used again.
/// After `Device` more devices failed than are borne: memory is as it was, and the array is to halt. After any other cause nothing has changed: `Spent` where too few numbers are left,
/// `NothingThere` where the table has no patch of that index or none behind it, `Space` where there are free units for fewer segments than the two have and twelve more, `Memory` where that is wanted.
pub fn merge<S: Shelf>(
    alloc: Global,
    array: &mut Array,
    room: &mut Room,
    writing: &mut WriteRoom,
    table: Table,
    index: u64,
    shelf: &mut S,
) -> Result<(), Refusal>
    requires is_of { IsArrayOf (geometry_of (S.shelf shelf.old)) array.old }
    requires room { IsRoomOf array.old room.old }
    ensures continues { Continues (S.shelf shelf.old) (S.shelf shelf.new) }
    ensures rest { S.shelf_rest shelf.old shelf.new }
    ensures moments { (S.shelf shelf.old).honest → LeavesOnly (S.shelf shelf.old) (S.shelf shelf.new) (IsCountedBy (S.shelf shelf.old)) }
    // The array has gone on as the same one, by the new tables and with the same log.
    ensures goes { OnOk result (Goes by_faults (S.shelf shelf.old) (S.shelf shelf.new) array.old array.new []) }
    ensures made { OnOk result (MayMerge table index array.old × HasMerged (geometry_of (S.shelf shelf.old)) table index array.old array.new) }
    ensures room { OnOk result (IsRoomOf array.new room.new) }
    ensures fault { IfErr result (λ e. IsFaultOf table index (S.shelf shelf.old) (S.shelf shelf.new) array.old ((array.new ≡ array.old) × (room.new ≡ room.old) × (shelf.new ≡ shelf.old)) e) }
    ensures kept { OnErr result (array.new.memory ≡ array.old.memory) }
{
    let pair = check_merge(array, room, table, index)?;
    let prepared = prepare(alloc, array, table, index, pair)?;
    let lost = write_prepared(alloc, array, &prepared, writing, shelf)?;
    let Prepared {
        merged,
        tables,
        segments,
        ..
    } = prepared;
    switch_tables(&mut array.register, &array.log, tables, &lost.drives, shelf)?;
    array.memory.put_merged(index as usize, merged, segments);
    *room = Room::of(array);
    Ok(())
}
