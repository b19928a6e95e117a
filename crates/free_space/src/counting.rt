ghost use Rattle.free_space.specs.Left.{CountsMembers, HasUnits, LosesUnits};
ghost use Rattle.free_space.specs.Marking.{data_units, patch_units, patches_units};

use boot_codec::{DRIVE_FLAGS, PatchSegment, Patches};
use pur_base::{Places, SegmentFact};

/// Takes the units of a segment from what each drive has free.
fn take_places(free: &mut [u16; DRIVE_FLAGS], places: &Places)
    requires { HasUnits free.old places.now }
    ensures { LosesUnits free.old free.new places.now }
{
    for place in places {
        free[place.slot as usize] -= 1;
    }
}

/// Takes the units of data segments.
pub fn take_data(free: &mut [u16; DRIVE_FLAGS], segments: &[SegmentFact])
    requires { HasUnits free.old (data_units segments.now) }
    ensures { LosesUnits free.old free.new (data_units segments.now) }
{
    for segment in segments {
        take_places(free, &segment.places);
    }
}

/// Takes the units of a patch's segments.
fn take_patch(free: &mut [u16; DRIVE_FLAGS], segments: &[PatchSegment])
    requires { HasUnits free.old (patch_units segments.now) }
    ensures { LosesUnits free.old free.new (patch_units segments.now) }
{
    for segment in segments {
        take_places(free, &segment.places);
    }
}

/// Takes the units of the segments of patches.
pub fn take_patches(free: &mut [u16; DRIVE_FLAGS], patches: &Patches)
    requires { HasUnits free.old (patches_units patches.now) }
    ensures { LosesUnits free.old free.new (patches_units patches.now) }
{
    for index in 0..patches.len() {
        let patch = patches.at(index);
        take_patch(free, patch.segments.as_slice());
    }
}

/// Leaves no unit free on the drives that are no members.
pub fn count_members(free: &mut [u16; DRIVE_FLAGS], members: &[bool; DRIVE_FLAGS])
    ensures { CountsMembers free.old free.new members.now }
{
    for slot in 0..DRIVE_FLAGS {
        if !members[slot] {
            free[slot] = 0;
        }
    }
}
