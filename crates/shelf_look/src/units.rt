// What stands in each unit of each drive.
use crate::Opening;
use boot_codec::Patches;
use pur_base::{BOOT_UNITS, NoMemory, Places};
use std::alloc::Global;

/// What stands in a unit of a drive.
#[derive(Clone, Copy, PartialEq)]
pub enum Unit {
    Boot,
    Data,
    Patch,
    Free,
}

/// The units of a shelf's drives, one drive behind another.
#[derive(Drop)]
pub struct Units {
    pub units: Vec<Unit>,
    pub each: u16,
}

impl Units {
    /// Marks a unit of a drive.
    fn mark(&mut self, slot: u8, unit: u16, kind: Unit) {
        let at = usize::from(slot) * usize::from(self.each) + usize::from(unit);
        if let Some(marked) = self.units.get_mut(at) {
            *marked = kind;
        }
    }

    /// Marks the units of a segment.
    fn mark_places(&mut self, places: &Places, kind: Unit) {
        for place in places {
            self.mark(place.slot, place.unit, kind);
        }
    }

    /// Marks those of all patches.
    fn mark_patches(&mut self, patches: &Patches) {
        for index in 0..patches.len() {
            for segment in patches.at(index).segments.as_slice() {
                self.mark_places(&segment.places, Unit::Patch);
            }
        }
    }

    /// Marks what stands in each unit, by the patches of the record and the data segments of the tables.
    fn mark_all(&mut self, opening: &Opening) {
        let record = &opening.loaded.record;
        for slot in 0..record.slots {
            for unit in 0..BOOT_UNITS {
                self.mark(slot, unit, Unit::Boot);
            }
        }
        self.mark_patches(&record.patches);
        for segment in opening.memory.segments() {
            self.mark_places(&segment.places, Unit::Data);
        }
    }

    /// The units of a drive.
    pub fn of_drive(&self, slot: u8) -> &[Unit] {
        let each = usize::from(self.each);
        let from = usize::from(slot) * each;
        self.units.get(from..from + each).unwrap_or(&[])
    }
}

/// What stands in each unit of the drives of an opening.
pub fn units_of(alloc: Global, opening: &Opening) -> Result<Units, NoMemory> {
    let record = &opening.loaded.record;
    let count = usize::from(record.slots) * usize::from(record.units);
    let mut units = Units {
        units: vec![in alloc; Unit::Free; count]?,
        each: record.units,
    };
    units.mark_all(opening);
    Ok(units)
}
