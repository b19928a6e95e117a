ghost use Rattle.std.specs.Prelude.{◌≡◌, ◌≤◌, ◌*◌, length};
ghost use Rattle.unit_map.specs.Map.{total_at, IsGroups};

use crate::drive::Drive;
use pur_base::{SEGMENT_SHARDS, SLOTS_MAX, UNITS_MAX};

const SHARDS: u32 = SEGMENT_SHARDS as u32;

/// The units that the drives give to so many groups.
pub fn total_at(drives: &[Drive], groups: u32) -> u32
    requires { length drives.now ≤ SLOTS_MAX }
    ensures total { result ≡ total_at drives.now groups }
    ensures limit { result ≤ SLOTS_MAX * UNITS_MAX }
{
    let mut total = 0;
    for drive in drives {
        total += drive.share(groups);
    }
    total
}

/// The most groups that the drives have room for.
pub fn groups_of(drives: &[Drive]) -> u32
    requires { length drives.now ≤ SLOTS_MAX }
    ensures { IsGroups drives.now result }
{
    let mut low = 0;
    let mut high = total_at(drives, u32::MAX) / SHARDS + 1;
    while low + 1 < high {
        let middle = (low + high) / 2;
        if SHARDS * middle <= total_at(drives, middle) {
            low = middle;
        } else {
            high = middle;
        }
    }
    low
}
