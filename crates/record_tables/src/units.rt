ghost use Rattle.std.specs.Prelude.{◌≡◌, ℕ, ◌+◌, ◌≤◌, List, ◌++◌, length, IfOk, OnErr};
ghost use Rattle.pur_base.specs.declared.place.Place.{Place};
ghost use Rattle.pur_base.specs.Facts.{Facts};
ghost use Rattle.boot_codec.specs.declared.record.BootRecord.{BootRecord};
ghost use Rattle.unit_map.specs.Map.{IsGroups};
ghost use Rattle.free_space.specs.Map.{IsMapOf};
ghost use Rattle.record_tables.specs.Units.{AreNewUnits, IsMapAfter};

use pur_base::{NoMemory, Places};
use std::alloc::Global;
use unit_map::UnitMap;

/// Takes the units of so many new segments of the map. It fails for want of memory only, and takes none then.
pub fn take_units(alloc: Global, map: &mut UnitMap, count: usize) -> Result<Vec<Places>, NoMemory>
    requires enough { (g : ℕ) → IsGroups map.old g → count ≤ g }
    ensures err { OnErr result (map.new ≡ map.old) }
    ensures count { IfOk result (λ v. length v.items ≡ count) }
    ensures left { IfOk result (λ _. (g h : ℕ) → IsGroups map.old g → IsGroups map.new h → g ≤ h + count) }
    ensures units { IfOk result (λ v. (boot : BootRecord) (facts : Facts) → IsMapOf boot facts map.old → AreNewUnits boot facts v.items) }
    ensures more { IfOk result (λ v. (boot : BootRecord) (facts : Facts) (before : List (List Place)) → IsMapAfter boot facts before map.old
        → IsMapAfter boot facts (before ++ v.items) map.new) }
{
    let mut units = Vec::with_capacity(alloc, count)?;
    for _segment in 0..count {
        let Some(places) = map.take() else {
            unreachable!()
        };
        if units.push(places).is_err() {
            unreachable!()
        }
    }
    Ok(units)
}
