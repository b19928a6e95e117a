ghost use Rattle.std.specs.Prelude.{◌≡◌, true, false};
ghost use Rattle.unit_map.specs.Map.{is_free, with_unit, with_units, IsHeld, IsPlace};

use crate::drive::Drive;
use pur_base::{Place, Places};

/// Makes a unit used that is free.
pub fn mark_used(drives: &mut [Drive], place: &Place)
    requires within { IsPlace drives.old place.now }
    requires free { is_free drives.old place.now ≡ true }
    ensures { drives.new ≡ with_unit false drives.old place.now }
{
    drives[place.slot as usize].free.remove(place.unit);
}

/// Makes a unit free that is used.
fn mark_free(drives: &mut [Drive], place: &Place)
    requires within { IsPlace drives.old place.now }
    requires used { is_free drives.old place.now ≡ false }
    ensures { drives.new ≡ with_unit true drives.old place.now }
{
    drives[place.slot as usize].free.insert(place.unit);
}

/// Makes the units of a segment free.
pub fn mark_all_free(drives: &mut [Drive], places: &Places)
    requires { IsHeld drives.old places.now }
    ensures { drives.new ≡ with_units true drives.old places.now }
{
    for place in places {
        mark_free(drives, place);
    }
}
