// Whether two patches may be merged.
ghost use Rattle.std.specs.Prelude.{◌≡◌, IfOk, IfErr};
ghost use Rattle.pur_base.specs.Devices.{Geometry};
ghost use Rattle.memory_spec.specs.Merging.{pair_segments, place_in};
ghost use Rattle.array_core.specs.Ready.{IsArrayOf};
ghost use Rattle.array_checkpoint.specs.Room.{IsRoomOf};
ghost use Rattle.pyramid_jobs.specs.Made.{IsCheckFault, MayMerge};

use array_checkpoint::{Room, is_spent};
use array_core::Array;
use pur_base::{Refusal, Table};
use record_tables::{Pair, pair_of};
use session_spec::MERGE_GROUPS;

/// The two patches, where numbers are left, else `Spent`; the table has them, else `NothingThere`; and there are free units for as many segments as they have and twelve more, else `Space`. It takes no memory.
pub(crate) fn check_merge(
    array: &Array,
    room: &Room,
    table: Table,
    index: u64,
) -> Result<Pair, Refusal>
    requires is_of { (shelf : Geometry) × IsArrayOf shelf array.now }
    requires room { IsRoomOf array.now room.now }
    ensures may { IfOk result (λ _. MayMerge table index array.now) }
    ensures place { IfOk result (λ pair. pair.place ≡ place_in table index array.now.register.record.patches) }
    ensures segments { IfOk result (λ pair. pair.segments ≡ pair_segments table index array.now.register.record.patches) }
    ensures fault { IfErr result (λ e. IsCheckFault table index array.now e) }
{
    if is_spent(array) {
        return Err(Refusal::Spent);
    }
    let Some(pair) = pair_of(&array.register.record().patches, table, index) else {
        return Err(Refusal::NothingThere);
    };
    if (room.groups as usize) < MERGE_GROUPS as usize + pair.segments {
        return Err(Refusal::Space);
    }
    Ok(pair)
}
