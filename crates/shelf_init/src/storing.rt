// The first record is stored.
ghost use Rattle.std.specs.Prelude.{◌≡◌, OnOk, length};
ghost use Rattle.boot_codec.specs.declared.limits.TheConstants.{RECORD_BYTES};
ghost use Rattle.boot_codec.specs.Region.{B};
ghost use Rattle.boot_codec.specs.Spelling.{spelling};
ghost use Rattle.world.specs.Losing.{geometry_of};
ghost use Rattle.world.specs.Shelf.{LeavesOnly};
ghost use Rattle.world.specs.Ran.{Ran};
ghost use Rattle.boot_region.specs.Members.{IsDrive, OnSlot};
ghost use Rattle.shelf_init.specs.Blank.{IsEmptied};
ghost use Rattle.shelf_init.specs.Counted.{TellsFailed};
ghost use Rattle.session_spec.specs.First.{all_drives, first_record};
ghost use Rattle.shelf_init.specs.Made.{HasFirst};
ghost use Rattle.session_spec.specs.Making.{IsNoneOrEmpty};

use crate::calls::write_chosen;
use crate::record::all_drives;
use boot_codec::gate_sector;
use boot_region::Slot;
use world::{Failed, Shelf};

/// Stores the first record in slot B of all drives: its body goes behind the closed gates, which are opened then.
pub fn store_first<S: Shelf>(shelf: &mut S, body: &[u8]) -> Result<(), Failed>
    requires { length body.now ≡ RECORD_BYTES }
    ensures ran { Ran S.shelf S.shelf_rest IsDrive (OnSlot (all_drives (S.shelf shelf.old).drives) B) shelf.old shelf.new }
    ensures any_moment { (S.shelf shelf.old).honest → IsEmptied (S.shelf shelf.old) → body.now ≡ spelling (first_record (geometry_of (S.shelf shelf.old)))
        → LeavesOnly (S.shelf shelf.old) (S.shelf shelf.new) (λ stop. IsNoneOrEmpty (geometry_of (S.shelf shelf.old)) stop.image) }
    ensures made { (S.shelf shelf.old).honest → IsEmptied (S.shelf shelf.old) → body.now ≡ spelling (first_record (geometry_of (S.shelf shelf.old)))
        → OnOk result (HasFirst (S.shelf shelf.new)) }
    ensures counts { TellsFailed result (S.shelf shelf.old) (S.shelf shelf.new) }
{
    let drives = all_drives(shelf.drives());
    write_chosen(shelf, &drives, Slot::B.body(), body)?;
    let opened = gate_sector(true);
    write_chosen(shelf, &drives, Slot::B.gate(), opened.as_bytes())
}
