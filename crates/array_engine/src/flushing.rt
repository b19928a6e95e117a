// A checkpoint is made that was asked for.
ghost use Rattle.std.specs.Prelude.{◌≡◌, [], OnOk, IfErr};
ghost use Rattle.world.specs.Losing.{geometry_of};
ghost use Rattle.world.specs.Shelf.{Continues, LeavesOnly, IsCountedBy};
ghost use Rattle.array_core.specs.Ready.{IsArrayOf};
ghost use Rattle.array_core.specs.Going.{by_faults};
ghost use Rattle.array_core.specs.Goes.{Goes};
ghost use Rattle.array_checkpoint.specs.Made.{HasFlushed};
ghost use Rattle.array_checkpoint.specs.Prepared.{IsLike};
ghost use Rattle.array_checkpoint.specs.Room.{IsRoomOf, MayFlush};
ghost use Rattle.array_engine.specs.Appending.{IsFlushFault};

use array_checkpoint::{Room, check_checkpoint, checkpoint};
use array_core::Array;
use pur_base::Refusal;
use segment_writer::WriteRoom;
use std::alloc::Global;
use world::Shelf;

/// Makes a checkpoint, where there is room for it. After `Device` more devices failed than are borne, and the array is to halt. After any other cause nothing has changed but room in memory:
/// `Limit`, `Spent` or `Space`, as `check_checkpoint` tells them, or `Memory`, which is wanted.
pub(crate) fn flush<S: Shelf>(
    alloc: Global,
    array: &mut Array,
    room: &mut Room,
    writing: &mut WriteRoom,
    shelf: &mut S,
) -> Result<(), Refusal>
    requires is_of { IsArrayOf (geometry_of (S.shelf shelf.old)) array.old }
    requires room { IsRoomOf array.old room.old }
    ensures continues { Continues (S.shelf shelf.old) (S.shelf shelf.new) }
    ensures rest { S.shelf_rest shelf.old shelf.new }
    ensures moments { (S.shelf shelf.old).honest → LeavesOnly (S.shelf shelf.old) (S.shelf shelf.new) (IsCountedBy (S.shelf shelf.old)) }
    ensures counted { OnOk result (IsRoomOf array.new room.new) }
    ensures made { OnOk result (MayFlush array.old × HasFlushed array.old array.new) }
    ensures goes { OnOk result (Goes by_faults (S.shelf shelf.old) (S.shelf shelf.new) array.old array.new []) }
    ensures fault { IfErr result (λ e. IsFlushFault (S.shelf shelf.old) (S.shelf shelf.new) array.old (IsLike array.old array.new × (room.new ≡ room.old) × (shelf.new ≡ shelf.old)) e) }
{
    check_checkpoint(array, room)?;
    checkpoint(alloc, array, writing, shelf)?;
    *room = Room::of(array);
    Ok(())
}
