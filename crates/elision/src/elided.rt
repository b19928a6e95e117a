ghost use Rattle.std.specs.Prelude.{◌≡◌, ◌≢◌, ◌⊎◌, ◌↔◌, ℕ, ◌+◌, ◌<◌, ◌≤◌, [], IsTrue, IsOk, OnOk, OnErr};
ghost use Rattle.pur_base.specs.declared.request.Table.{Table};
ghost use Rattle.pur_base.specs.Visible.{is_within};
ghost use Rattle.elision.specs.Ranges.{AreApart, ranges_of};

use crate::ranges::Ranges;
use crate::search::is_within;
use pur_base::{NoMemory, Table};
use std::alloc::Global;
use std::marker::Model;

/// The elided ids of each table but that of elisions, as ranges. Contracts see the ranges of each table, and for how many more ids of objects there is room.
pub struct Elided {
    objects: Ranges,
    mediums: Ranges,
    addresses: Ranges,
    segments: Ranges,
}

// Where one is dropped that is one call, and not one of each list.
impl Drop for Elided {
    fn drop(self) {
        let Elided {
            objects: _,
            mediums: _,
            addresses: _,
            segments: _,
        } = self;
    }
}

impl Model for Elided {
    ghost use Rattle.elision.specs.Ranges.{ElidedRanges};

    ghost Value = { ElidedRanges };

    ghost view = { λ e. record { objects = e.objects.ranges; mediums = e.mediums.ranges; addresses = e.addresses.ranges; segments = e.segments.ranges; object_room = e.objects.room } };
}

impl Elided {
    /// No id of any table is elided.
    pub fn new(alloc: Global) -> Elided
        ensures { (table : Table) → ranges_of result table ≡ [] }
    {
        Elided {
            objects: Ranges::new(alloc),
            mediums: Ranges::new(alloc),
            addresses: Ranges::new(alloc),
            segments: Ranges::new(alloc),
        }
    }

    /// The ranges of a table's elided ids, in order, of which none touch. Elisions themselves are never elided.
    pub fn ranges(&self, table: Table) -> &[(u64, u64)]
        ensures value { result.now ≡ ranges_of self.now table }
        ensures apart { AreApart result.now }
    {
        match table {
            Table::Object => self.objects.ranges(),
            Table::Medium => self.mediums.ranges(),
            Table::Address => self.addresses.ranges(),
            Table::Segment => self.segments.ranges(),
            Table::Elision => &[],
        }
    }

    /// Whether an id of a table is elided. It takes no memory.
    pub fn is_elided(&self, table: Table, id: u64) -> bool
        ensures { result ≡ is_within (ranges_of self.now table) id }
    {
        is_within(self.ranges(table), id)
    }

    /// Reserves room for so many more ids of objects. Nothing else changes, whatever is answered.
    pub fn reserve_objects(&mut self, additional: usize) -> Result<(), NoMemory>
        ensures room { OnOk result (additional ≤ self.new.object_room) }
        ensures room_left { self.old.object_room ≤ self.new.object_room }
        ensures rest { self.new ≡ record self.old { object_room = self.new.object_room } }
    {
        self.objects.reserve(additional)
    }

    /// Elides one id of a table. It takes no memory where that is an object and there is room for it, and an `Err` changes nothing.
    pub fn elide(&mut self, table: Table, id: u64) -> Result<(), NoMemory>
        requires { table ≢ Table.Elision }
        ensures ids { OnOk result ((i : ℕ) → IsTrue (is_within (ranges_of self.new table) i) ↔ (IsTrue (is_within (ranges_of self.old table) i) ⊎ (i ≡ id))) }
        ensures others { (t : Table) → t ≢ table → ranges_of self.new t ≡ ranges_of self.old t }
        ensures refused { OnErr result (self.new ≡ self.old) }
        ensures room { table ≡ Table.Object → 0 < self.old.object_room → IsOk result }
        ensures room_left { self.old.object_room ≤ self.new.object_room + 1 }
    {
        self.elide_range(table, id, id)
    }

    /// Elides the ids of a table from the first to the last. It takes no memory where these are objects and there is room, and an `Err` changes nothing.
    pub fn elide_range(&mut self, table: Table, first: u64, last: u64) -> Result<(), NoMemory>
        requires order { first ≤ last }
        requires table { table ≢ Table.Elision }
        ensures ids { OnOk result ((id : ℕ) → IsTrue (is_within (ranges_of self.new table) id) ↔ (IsTrue (is_within (ranges_of self.old table) id) ⊎ ((first ≤ id) × (id ≤ last)))) }
        ensures others { (t : Table) → t ≢ table → ranges_of self.new t ≡ ranges_of self.old t }
        ensures refused { OnErr result (self.new ≡ self.old) }
        ensures room { table ≡ Table.Object → 0 < self.old.object_room → IsOk result }
        ensures room_left { self.old.object_room ≤ self.new.object_room + 1 }
    {
        match table {
            Table::Object => self.objects.insert(first, last),
            Table::Medium => self.mediums.insert(first, last),
            Table::Address => self.addresses.insert(first, last),
            Table::Segment => self.segments.insert(first, last),
            Table::Elision => unreachable!(),
        }
    }
}
