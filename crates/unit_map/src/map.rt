ghost use Rattle.std.specs.Prelude.{◌≡◌, ◌<◌, ◌≤◌, ◌↔◌, true, false, length, replicate, IsTrue, IsNone, IfSome, IfNone, IfOk};
ghost use Rattle.unit_map.specs.Units.{fresh};
ghost use Rattle.unit_map.specs.Map.{drive_at, free_count, is_free, with_unit, with_units, with_member, IsPlace, IsHeld, IsGroups, IsTaken, LowersByOne};

use crate::choice::most_free;
use crate::drive::Drive;
use crate::free_units::FreeUnits;
use crate::groups::groups_of;
use crate::marks::{mark_all_free, mark_used};
use crate::taking::take_chosen;
use pur_base::{NoMemory, Place, Places, SLOTS_MAX, SLOTS_MIN, UNITS_MAX, UNITS_MIN};
use std::alloc::Global;
use std::marker::Model;

/// Which units of a shelf's drives are free, and which drives are members. Contracts see the drives, by slot.
#[derive(Drop)]
pub struct UnitMap {
    drives: Vec<Drive>,
}

impl Model for UnitMap {
    ghost use Rattle.std.specs.Prelude.{List, length, ◌≤◌};
    ghost use Rattle.pur_base.specs.declared.limits.TheConstants.{SLOTS_MAX};
    ghost use Rattle.unit_map.specs.declared.drive.Drive.{Drive};

    ghost Value = { List Drive };

    ghost view = { λ m. m.drives.items };

    ghost invariant = { λ m. length m.drives.items ≤ SLOTS_MAX };
}

impl UnitMap {
    /// The map of so many drives of so many units: all are members, and all units are free but those of the boot regions.
    pub fn new(alloc: Global, slots: u8, units: u16) -> Result<UnitMap, NoMemory>
        requires slots_low { SLOTS_MIN ≤ slots }
        requires slots_high { slots ≤ SLOTS_MAX }
        requires units_low { UNITS_MIN ≤ units }
        requires units_high { units ≤ UNITS_MAX }
        ensures { IfOk result (λ map. map ≡ replicate slots (record { member = true; free = fresh units })) }
    {
        let mut drives = Vec::with_capacity(alloc, slots as usize)?;
        for _slot in 0..slots {
            let drive = Drive {
                member: true,
                free: FreeUnits::new(units),
            };
            drives.push(drive)?;
        }
        Ok(UnitMap { drives })
    }

    /// The number of a drive's free units, whether or not it is a member.
    pub fn free(&self, slot: u8) -> u16
        requires { slot < length self.now }
        ensures { result ≡ free_count (drive_at self.now slot) }
    {
        self.drives[slot as usize].free.count()
    }

    /// Whether a unit is free. One outside the map, or of a boot region, isn't.
    pub fn is_free(&self, place: &Place) -> bool
        ensures free { result ≡ is_free self.now place.now }
        ensures place { IsTrue result → IsPlace self.now place.now }
    {
        match self.drives.get(place.slot as usize) {
            Some(drive) => drive.free.is_free(place.unit),
            None => false,
        }
    }

    /// The most groups of nine units on nine members that can be taken.
    pub fn groups(&self) -> u32
        ensures { IsGroups self.now result }
    {
        groups_of(&self.drives)
    }

    /// Takes a segment's units: the lowest free one of each of the nine members with the most free.
    /// `None` leaves the map, and comes exactly where there is room for no group.
    pub fn take(&mut self) -> Option<Places>
        ensures none { IsNone result ↔ IsGroups self.old 0 }
        ensures left { IfNone result (self.new ≡ self.old) }

        ensures taken { IfSome result (λ places. IsTaken self.old places) }
        ensures used { IfSome result (λ places. self.new ≡ with_units false self.old places) }
        ensures held { IfSome result (λ places. IsHeld self.new places) }
        ensures lowers { IfSome result (λ _. LowersByOne self.old self.new) }
    {
        let chosen = most_free(&self.drives)?;
        Some(take_chosen(&mut self.drives, &chosen))
    }

    /// Makes the units of a segment free.
    pub fn give_back(&mut self, places: &Places)
        requires { IsHeld self.old places.now }
        ensures { self.new ≡ with_units true self.old places.now }
    {
        mark_all_free(&mut self.drives, places);
    }

    /// Makes a unit used that a stored record names.
    pub fn mark_used(&mut self, place: &Place)
        requires within { IsPlace self.old place.now }
        requires free { is_free self.old place.now ≡ true }
        ensures { self.new ≡ with_unit false self.old place.now }
    {
        mark_used(&mut self.drives, place);
    }

    /// Makes a drive a member or not. Its units stay as they are.
    pub fn set_member(&mut self, slot: u8, member: bool)
        requires { slot < length self.old }
        ensures { self.new ≡ with_member self.old slot member }
    {
        self.drives[slot as usize].member = member;
    }
}
