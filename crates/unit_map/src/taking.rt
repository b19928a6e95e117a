ghost use Rattle.std.specs.Prelude.{◌≡◌, ◌<◌, ◌≤◌, length, false};
ghost use Rattle.unit_map.specs.Units.{IsLowestFree};
ghost use Rattle.unit_map.specs.Map.{with_unit_of, free_count};
ghost use Rattle.unit_map.specs.Choice.{IsChoice, TakesChosen};
ghost use Rattle.pur_base.specs.declared.limits.TheConstants.{BOOT_UNITS};

use crate::choice::SLOTS;
use crate::drive::Drive;
use pur_base::{Place, Places, SEGMENT_SHARDS, SLOTS_MAX};

/// Takes a drive's lowest free unit.
fn take_lowest(drive: &mut Drive) -> u16
    requires { 0 < free_count drive.old }
    ensures lowest { IsLowestFree drive.old.free result }
    ensures boot { BOOT_UNITS ≤ result }
    ensures new { drive.new ≡ with_unit_of false result drive.old }
{
    let unit = drive.free.lowest();
    drive.free.remove(unit);
    unit
}

/// Takes the lowest free unit of each drive that is chosen.
pub fn take_chosen(drives: &mut [Drive], chosen: &[bool; SLOTS]) -> Places
    requires slots { length drives.old ≤ SLOTS_MAX }
    requires nine { IsChoice drives.old chosen.now SEGMENT_SHARDS }
    ensures { TakesChosen drives.old drives.new chosen.now result }
{
    let mut places = [Place { slot: 0, unit: 0 }; SEGMENT_SHARDS];
    let mut shard = 0;
    for slot in 0..drives.len() {
        if !chosen[slot] {
            continue;
        }
        let unit = take_lowest(&mut drives[slot]);
        places[shard] = Place {
            slot: slot as u8,
            unit,
        };
        shard += 1;
    }
    places
}
