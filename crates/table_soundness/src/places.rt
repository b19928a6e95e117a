ghost use Rattle.std.specs.Prelude.{◌≡◌, ◌≤◌, ◌++◌, ◌↔◌, IsTrue, OnOk, map};
ghost use Rattle.std.specs.List.{flat_map};
ghost use Rattle.boot_codec.specs.Record.{AscendFrom, IsPlace};
ghost use Rattle.table_soundness.specs.Places.{code_of};

use boot_codec::PatchSegment;
use pur_base::{BOOT_UNITS, NoMemory, Place, SegmentFact};

/// No drive has that many units.
const UNIT_LIMIT: u64 = 65_536;

/// Whether the place is a data unit of the shelf, on that slot or a later one.
fn is_next(place: &Place, least: u16, slots: u8, units: u16) -> bool
    ensures { IsTrue result ↔ ((least ≤ place.now.slot) × IsPlace slots units place.now) }
{
    least <= u16::from(place.slot)
        && place.slot < slots
        && BOOT_UNITS <= place.unit
        && place.unit < units
}

/// Whether these are data units of the shelf on ascending slots.
pub fn ascend(places: &[Place], slots: u8, units: u16) -> bool
    ensures { IsTrue result ↔ AscendFrom slots units 0 places.now }
{
    let mut least = 0;
    for place in places {
        if !is_next(place, least, slots, units) {
            return false;
        }
        least = u16::from(place.slot) + 1;
    }
    true
}

/// The place as one number.
fn code_of(place: &Place) -> u64
    ensures { result ≡ code_of place.now }
{
    u64::from(place.slot) * UNIT_LIMIT + u64::from(place.unit)
}

/// Puts the numbers of places behind the others.
fn push_places(codes: &mut Vec<u64>, places: &[Place]) -> Result<(), NoMemory>
    ensures { OnOk result (codes.new.items ≡ codes.old.items ++ map code_of places.now) }
{
    for place in places {
        codes.push(code_of(place))?;
    }
    Ok(())
}

/// Puts the numbers of all places of the segments behind the others.
pub fn push_named(codes: &mut Vec<u64>, named: &[PatchSegment]) -> Result<(), NoMemory>
    ensures { OnOk result (codes.new.items ≡ codes.old.items ++ map code_of (flat_map (λ s. s.places) named.now)) }
{
    for segment in named {
        push_places(codes, &segment.places)?;
    }
    Ok(())
}

/// The same of segments of data.
pub fn push_visible(codes: &mut Vec<u64>, shown: &[SegmentFact]) -> Result<(), NoMemory>
    ensures { OnOk result (codes.new.items ≡ codes.old.items ++ map code_of (flat_map (λ d. d.places) shown.now)) }
{
    for segment in shown {
        push_places(codes, &segment.places)?;
    }
    Ok(())
}
