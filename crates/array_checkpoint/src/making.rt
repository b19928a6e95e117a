// A checkpoint is made.
ghost use Rattle.std.specs.Prelude.{◌≡◌, ◌<◌, ◌≤◌, ℕ, [], false, OnOk, OnErr, IfErr};
ghost use Rattle.boot_codec.specs.Record.{patch_segments};
ghost use Rattle.world.specs.Losing.{geometry_of};
ghost use Rattle.world.specs.Shelf.{Continues, LeavesOnly, IsCountedBy};
ghost use Rattle.array_memory.specs.Plan.{with_patch_rooms};
ghost use Rattle.array_core.specs.Ready.{IsArrayOf, is_spent};
ghost use Rattle.array_core.specs.Going.{by_faults};
ghost use Rattle.array_core.specs.Goes.{Goes};
ghost use Rattle.array_checkpoint.specs.declared.limits.TheConstants.{CHECKPOINT_GROUPS, SEGMENTS_END};
ghost use Rattle.array_checkpoint.specs.Prepared.{IsLike};
ghost use Rattle.memory_spec.specs.Tables.{patches};
ghost use Rattle.session_spec.specs.Numbers.{HasGroups};
ghost use Rattle.array_checkpoint.specs.Made.{HasFlushed, IsFaultOf};

use crate::preparing::{Prepared, prepare};
use crate::writing::write_prepared;
use array_core::{Array, NOTHING_BEHIND, switch};
use pur_base::Refusal;
use segment_writer::WriteRoom;
use std::alloc::Global;
use table_planner::laws_of_elidings;
use world::Shelf;

/// Brings what is staged and unflushed to the drives, and clears the log: all memory is taken first, then the new segments and patches are written to free units, then a record that names them is stored.
/// After `Memory`, which is wanted, nothing was written and all is as it was, but for room in memory. After `Device` more devices failed than are borne: memory is as it was, and the array is to halt. There is no other cause.
/// `writing` is room that is lent and used again.
pub fn checkpoint<S: Shelf>(
    alloc: Global,
    array: &mut Array,
    writing: &mut WriteRoom,
    shelf: &mut S,
) -> Result<(), Refusal>
    requires is_of { IsArrayOf (geometry_of (S.shelf shelf.old)) array.old }
    requires unspent { is_spent array.old ≡ false }
    requires groups { (g : ℕ) → HasGroups array.old.register.record (patches array.old.memory.memory.tables) g → CHECKPOINT_GROUPS ≤ g }
    requires few { patch_segments array.old.register.record.patches < SEGMENTS_END }
    ensures continues { Continues (S.shelf shelf.old) (S.shelf shelf.new) }
    ensures rest { S.shelf_rest shelf.old shelf.new }
    ensures moments { (S.shelf shelf.old).honest → LeavesOnly (S.shelf shelf.old) (S.shelf shelf.new) (IsCountedBy (S.shelf shelf.old)) }
    // The array has gone on as the same one, by the new tables and with an empty log.
    ensures goes { OnOk result (Goes by_faults (S.shelf shelf.old) (S.shelf shelf.new) array.old array.new []) }
    ensures flushed { OnOk result (HasFlushed array.old array.new) }
    ensures objects { array.new.memory.objects ≡ array.old.memory.objects }
    ensures fault { IfErr result (λ e. IsFaultOf (S.shelf shelf.old) (S.shelf shelf.new) array.old (IsLike array.old array.new × (shelf.new ≡ shelf.old)) e) }
    ensures kept { OnErr result (array.new.memory ≡ with_patch_rooms array.old.memory array.new.memory) }
{
    laws_of_elidings();
    let prepared = prepare(alloc, array)?;
    let lost = write_prepared(alloc, array, &prepared, writing, shelf)?;
    let Prepared { plan, tables, .. } = prepared;
    switch(
        &mut array.register,
        &mut array.log,
        tables,
        &lost.drives,
        shelf,
    )?;
    array.memory.finish(plan);
    array.background = NOTHING_BEHIND;
    Ok(())
}
