ghost use Rattle.std.specs.Prelude.{◌≡◌, ◌≤◌, length};
ghost use Rattle.free_space.specs.Marking.{SetsMembers};

use boot_codec::DRIVE_FLAGS;
use unit_map::UnitMap;

/// Makes each drive a member whose flag is set, and the others none.
pub fn set_members(map: &mut UnitMap, slots: u8, flags: &[bool; DRIVE_FLAGS])
    requires slots { length map.old ≡ slots }
    requires flags { slots ≤ DRIVE_FLAGS }
    ensures { SetsMembers map.old map.new flags.now }
{
    for slot in 0..slots {
        map.set_member(slot, flags[slot as usize]);
    }
}
