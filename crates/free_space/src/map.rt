ghost use Rattle.std.specs.Prelude.{◌≡◌, IfOk};
ghost use Rattle.pur_base.specs.Facts.{Facts};
ghost use Rattle.pur_base.specs.Visible.{segments as visible};
ghost use Rattle.boot_codec.specs.Record.{IsBootRecord};
ghost use Rattle.free_space.specs.Map.{AreDataSegments, IsMapOf};

use crate::marking::{mark_data, mark_patches};
use crate::members::set_members;
use boot_codec::BootRecord;
use pur_base::{NoMemory, SegmentFact};
use std::alloc::Global;
use unit_map::UnitMap;

/// The map of a lawful record and the visible data segments of its tables, which are sound.
/// It fails for want of memory only.
pub fn map_of(
    alloc: Global,
    boot: &BootRecord,
    segments: &[SegmentFact],
) -> Result<UnitMap, NoMemory>
    requires lawful { IsBootRecord boot.now }
    requires sound { AreDataSegments boot.now segments.now }
    ensures { IfOk result (λ map. (facts : Facts) → visible facts boot.now.next.segment ≡ segments.now → IsMapOf boot.now facts map) }
{
    let mut map = UnitMap::new(alloc, boot.slots, boot.units)?;
    set_members(&mut map, boot.slots, &boot.members.drives);
    mark_patches(&mut map, &boot.patches);
    mark_data(&mut map, segments);
    Ok(map)
}
