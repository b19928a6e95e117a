ghost use Rattle.std.specs.Prelude.{◌≡◌, false};
ghost use Rattle.unit_map.specs.Map.{with_units};
ghost use Rattle.free_space.specs.Marking.{CanMark, data_units, patch_units, patches_units};

use boot_codec::{PatchSegment, Patches};
use pur_base::{Places, SegmentFact};
use unit_map::UnitMap;

/// Makes the units of a segment used.
fn mark_places(map: &mut UnitMap, places: &Places)
    requires { CanMark map.old places.now }
    ensures { map.new ≡ with_units false map.old places.now }
{
    for place in places {
        map.mark_used(place);
    }
}

/// Makes the units of data segments used.
pub fn mark_data(map: &mut UnitMap, segments: &[SegmentFact])
    requires { CanMark map.old (data_units segments.now) }
    ensures { map.new ≡ with_units false map.old (data_units segments.now) }
{
    for segment in segments {
        mark_places(map, &segment.places);
    }
}

/// Makes the units of a patch's segments used.
fn mark_patch(map: &mut UnitMap, segments: &[PatchSegment])
    requires { CanMark map.old (patch_units segments.now) }
    ensures { map.new ≡ with_units false map.old (patch_units segments.now) }
{
    for segment in segments {
        mark_places(map, &segment.places);
    }
}

/// Makes the units of the segments of patches used.
pub fn mark_patches(map: &mut UnitMap, patches: &Patches)
    requires { CanMark map.old (patches_units patches.now) }
    ensures { map.new ≡ with_units false map.old (patches_units patches.now) }
{
    for index in 0..patches.len() {
        let patch = patches.at(index);
        mark_patch(map, patch.segments.as_slice());
    }
}
