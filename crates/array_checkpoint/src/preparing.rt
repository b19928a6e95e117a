// All that a checkpoint writes is planned, and all memory taken, before anything is written.
ghost use Rattle.std.specs.Prelude.{◌≡◌, ◌+◌, ◌*◌, ◌≤◌, ℕ, false, length, IfOk};
ghost use Rattle.pur_base.specs.Devices.{Geometry};
ghost use Rattle.pur_base.specs.Facts.{Facts};
ghost use Rattle.boot_codec.specs.Record.{IsBootRecord};
ghost use Rattle.boot_codec.specs.declared.record.BootRecord.{BootRecord};
ghost use Rattle.pyramid.specs.Layers.{facts_of};
ghost use Rattle.unit_map.specs.Map.{IsGroups};
ghost use Rattle.free_space.specs.Map.{IsMapOf};
ghost use Rattle.memory_spec.specs.Memory.{IsSound};
ghost use Rattle.table_plan.specs.Planned.{AreStored};
ghost use Rattle.command_spec.specs.declared.limits.TheConstants.{ELIDED_MEDIUMS, ELIDED_SEGMENTS, STAGED_SECTORS};
ghost use Rattle.array_memory.specs.Eliding.{eliding_by};
ghost use Rattle.array_memory.specs.Plan.{next_past, units_of, with_patch_rooms, AreLeftFor, IsPlanOf};
ghost use Rattle.record_tables.specs.Units.{IsMapAfter};
ghost use Rattle.array_checkpoint.specs.declared.limits.TheConstants.{CHECKPOINT_GROUPS, DATA_SEGMENTS};
ghost use Rattle.array_core.specs.Ready.{IsArrayOf, is_spent};
ghost use Rattle.array_checkpoint.specs.Prepared.{IsLike, IsPreparedFor};
ghost use Rattle.memory_spec.specs.Tables.{patches};
ghost use Rattle.session_spec.specs.Numbers.{HasGroups};

use array_core::Array;
use array_memory::{Memory, Plan};
use boot_codec::Patches;
use free_space::map_of;
use pur_base::NoMemory;
use record_tables::{next_patches, patches_have_facts, segments_of, take_units};
use register::Tables;
use std::alloc::Global;
use table_plan::segments_for;
use table_planner::{eliding, placing};
use unit_map::UnitMap;

/// What a checkpoint writes and stores.
#[derive(Drop)]
pub struct Prepared {
    /// The elided segments, the new ones, the facts of the new patches, and all that memory is afterwards.
    pub plan: Plan,
    /// The new patches, by tag.
    pub added: Patches,
    /// What the next record says of the tables.
    pub tables: Tables,
}

/// Plans which segments are elided, and new segments for the staged sectors that an address names, on units of the map.
fn plan(alloc: Global, memory: &mut Memory, map: &mut UnitMap) -> Result<Plan, NoMemory>
    requires sound { IsSound memory.old.memory }
    requires stored { AreStored (facts_of memory.old.memory.tables.addresses.patches) }
    requires few { length memory.old.memory.staged ≤ STAGED_SECTORS }
    requires left { AreLeftFor (record memory.old.memory.next { sequence = memory.old.memory.next.sequence + (2 * ELIDED_MEDIUMS + ELIDED_SEGMENTS) }) DATA_SEGMENTS }
    requires groups { (g : ℕ) → IsGroups map.old g → DATA_SEGMENTS ≤ g }
    requires of { (boot : BootRecord) × (facts : Facts) × IsBootRecord boot × IsMapOf boot facts map.old }
    ensures plan { IfOk result (IsPlanOf memory.new) }
    ensures few { IfOk result (λ p. length p.segments.items ≤ DATA_SEGMENTS) }
    ensures next { IfOk result (λ p. p.next ≡ next_past (eliding_by memory.old.memory p.eliding).next (length p.segments.items)) }
    ensures units { IfOk result (λ p. (boot : BootRecord) (facts : Facts) → IsMapOf boot facts map.old → IsMapAfter boot facts (units_of p) map.new) }
    ensures left { IfOk result (λ p. (g h : ℕ) → IsGroups map.old g → IsGroups map.new h → g ≤ h + length p.segments.items) }
    ensures rest { memory.new ≡ with_patch_rooms memory.old memory.new }
    ensures names { memory.old.name_room ≤ memory.new.name_room }
{
    let eliding = eliding(alloc, memory)?;
    let placing = placing(alloc, memory)?;
    let units = take_units(alloc, map, segments_for(placing.order.len()))?;
    let plan = table_planner::plan(alloc, memory, eliding, placing, &units)?;
    Ok(plan)
}

/// Plans a checkpoint. It fails for want of memory only, and the array is as it was then, but for room.
pub fn prepare(alloc: Global, array: &mut Array) -> Result<Prepared, NoMemory>
    requires is_of { (shelf : Geometry) × IsArrayOf shelf array.old }
    requires unspent { is_spent array.old ≡ false }
    requires groups { (g : ℕ) → HasGroups array.old.register.record (patches array.old.memory.memory.tables) g → CHECKPOINT_GROUPS ≤ g }
    ensures prepared { IfOk result (IsPreparedFor array.new) }
    ensures like { IsLike array.old array.new }
{
    let record = array.register.record();
    let mut map = map_of(alloc, record, array.memory.segments())?;
    let mut plan = plan(alloc, &mut array.memory, &mut map)?;
    patches_have_facts(&plan);
    let counts = plan.counts();
    let units = take_units(alloc, &mut map, segments_of(&counts))?;
    let patches = next_patches(
        alloc,
        &record.patches,
        &counts,
        plan.next.patch_segment,
        &units,
    )?;
    plan.number_patches(units.len());
    let tables = Tables {
        patches: patches.all,
        next: plan.next,
        flushed: record.flushed + array.log.count() as u64,
    };
    Ok(Prepared {
        plan,
        added: patches.added,
        tables,
    })
}
