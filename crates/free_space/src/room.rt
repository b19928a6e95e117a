ghost use Rattle.std.specs.Prelude.{◌≡◌, ◌≤◌, ◌*◌, length};
ghost use Rattle.pur_base.specs.Facts.{Facts};
ghost use Rattle.pur_base.specs.Visible.{segments as visible};
ghost use Rattle.boot_codec.specs.Record.{IsBootRecord};
ghost use Rattle.array_spec.specs.Counts.{free_of_members, units_for, IsGroups};
ghost use Rattle.free_space.specs.Map.{AreDataSegments};

use crate::counting::{count_members, take_data, take_patches};
use boot_codec::{BootRecord, DRIVE_FLAGS};
use pur_base::{BOOT_UNITS, SEGMENT_SHARDS, SLOTS_MAX, SegmentFact};

const SHARDS: u32 = SEGMENT_SHARDS as u32;

/// The units that drives with so many free ones give to so many groups.
fn units_for(free: &[u16], groups: u32) -> u32
    requires { length free.now ≤ SLOTS_MAX }
    ensures units { result ≡ units_for groups free.now }
    ensures limit { result ≤ SLOTS_MAX * u16.MAX }
{
    let mut units = 0;
    for count in free {
        units += groups.min(u32::from(*count));
    }
    units
}

/// The most groups of nine units that such drives have room for.
fn groups_of(free: &[u16]) -> u32
    requires { length free.now ≤ SLOTS_MAX }
    ensures { IsGroups free.now result }
{
    let mut low = 0;
    let mut high = units_for(free, u32::MAX) / SHARDS + 1;
    while low + 1 < high {
        let middle = (low + high) / 2;
        if SHARDS * middle <= units_for(free, middle) {
            low = middle;
        } else {
            high = middle;
        }
    }
    low
}

/// The most segments that the free units of the members can hold. It takes no memory.
pub fn groups_left(boot: &BootRecord, segments: &[SegmentFact]) -> u32
    requires lawful { IsBootRecord boot.now }
    requires sound { AreDataSegments boot.now segments.now }
    ensures { (facts : Facts) → visible facts boot.now.next.segment ≡ segments.now → IsGroups (free_of_members boot.now facts) result }
{
    // No unit stands in two segments, so a drive has lost one for each place on it.
    let mut free = [boot.units - BOOT_UNITS; DRIVE_FLAGS];
    take_patches(&mut free, &boot.patches);
    take_data(&mut free, segments);
    // A drive without a free unit gives none to any number of groups, so counting it changes nothing.
    count_members(&mut free, &boot.members.drives);
    groups_of(&free[..boot.slots as usize])
}
