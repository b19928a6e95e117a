ghost use Rattle.std.specs.Prelude.{◌≡◌, ◌≢◌, ◌<◌, IfSome, IfNone, All, Contains, Some, length, slice_get};
ghost use Rattle.pur_base.specs.Facts.{object_key, medium_key, address_key, segment_key, elision_key};
ghost use Rattle.pyramid.specs.Layers.{IsLayered};
ghost use Rattle.object_table.specs.Objects.{AreNamesDistinct};
ghost use Rattle.command_spec.specs.Kept.{IsKept};

use address_table::AddressTable;
use boot_codec::NextNumbers;
use elision::Elided;
use medium_table::MediumTable;
use object_table::ObjectTable;
use pur_base::{ElisionFact, Name, ObjectFact, Sector};
use pyramid::Pyramid;
use segment_table::SegmentTable;
use std::marker::Model;
use table_plan::Witness;

/// What an array keeps in memory beside its log. Contracts see its tables with the staged sectors and the next numbers,
/// what is visible, and the room that there is.
pub struct Memory {
    pub(crate) objects: ObjectTable,
    pub(crate) mediums: MediumTable,
    pub(crate) addresses: AddressTable,
    pub(crate) segments: SegmentTable,
    pub(crate) elisions: Pyramid<ElisionFact>,
    pub(crate) elided: Elided,
    pub(crate) staged: Vec<Sector>,
    pub(crate) next: NextNumbers,
    /// By ascending id of the visible data segments, an address that named a sector of each when it was last looked at. Each is checked where it is used.
    pub(crate) witnesses: Vec<Witness>,
}

// It has a drop of its own, and none that is derived: where one is dropped that is one call, and not one of each table.
impl Drop for Memory {
    fn drop(self) {
        let Memory {
            objects: _,
            mediums: _,
            addresses: _,
            segments: _,
            elisions: _,
            elided: _,
            staged: _,
            next: _,
            witnesses: _,
        } = self;
    }
}

impl Model for Memory {
    ghost use Rattle.std.specs.Prelude.{◌-◌};
    ghost use Rattle.std.specs.Vec.{vec_len, vec_capacity};
    ghost use Rattle.command_spec.specs.Kept.{Kept, kept_of, IsKept};

    ghost Value = { Kept };

    ghost view = { λ m. kept_of m.objects m.mediums.facts m.addresses.facts m.segments m.elisions m.elided m.staged.items (vec_capacity m.staged - vec_len m.staged) m.next };

    ghost invariant = { λ m. IsKept (kept_of m.objects m.mediums.facts m.addresses.facts m.segments m.elisions m.elided m.staged.items (vec_capacity m.staged - vec_len m.staged) m.next) };
}

impl Memory {
    /// What holds of each memory.
    pub fn kept(&self)
        ensures { IsKept self.now }
    {
        let _staged = &self.staged;
    }

    /// What holds of the layers of its tables.
    pub fn layered(&self)
        ensures objects { IsLayered object_key (λ f. f.seq.0) self.now.memory.tables.objects.patches self.now.memory.tables.objects.unflushed }
        ensures mediums { IsLayered medium_key (λ f. f.seq.0) self.now.memory.tables.mediums.patches self.now.memory.tables.mediums.unflushed }
        ensures addresses { IsLayered address_key (λ f. f.seq.0) self.now.memory.tables.addresses.patches self.now.memory.tables.addresses.unflushed }
        ensures segments { IsLayered segment_key (λ f. f.seq.0) self.now.memory.tables.segments.patches self.now.memory.tables.segments.unflushed }
        ensures elisions { IsLayered elision_key (λ f. f.seq.0) self.now.memory.tables.elisions.patches self.now.memory.tables.elisions.unflushed }
    {
        self.objects.facts().layers();
        self.mediums.facts.layers();
        self.addresses.facts.layers();
        self.segments.facts().layers();
        self.elisions.layers();
    }

    /// How many objects are visible, each of a name of its own.
    pub fn len(&self) -> usize
        ensures len { result ≡ length self.now.objects }
        ensures distinct { AreNamesDistinct self.now.objects }
    {
        self.objects.len()
    }

    /// The visible object at a place in order of creation, or `None` past the last.
    pub fn at(&self, index: usize) -> Option<ObjectFact>
        ensures { result ≡ slice_get self.now.objects index }
    {
        self.objects.at(index)
    }

    /// The visible object of a name, or `None` where no object has it.
    pub fn get(&self, name: &Name) -> Option<ObjectFact>
        ensures some { IfSome result (λ x. Contains self.now.objects x × (x.name ≡ name.now)) }
        ensures none { IfNone result (All (λ x. x.name ≢ name.now) self.now.objects) }
    {
        self.objects.get(name)
    }

    /// The table of objects.
    pub fn objects(&self) -> &ObjectTable
        ensures { result.now ≡ record { facts = self.now.memory.tables.objects; visible = self.now.objects; name_room = self.now.name_room } }
    {
        &self.objects
    }

    /// The table of mediums.
    pub fn mediums(&self) -> &MediumTable
        ensures { result.now.facts ≡ self.now.memory.tables.mediums }
    {
        &self.mediums
    }

    /// The table of addresses.
    pub fn addresses(&self) -> &AddressTable
        ensures { result.now.facts ≡ self.now.memory.tables.addresses }
    {
        &self.addresses
    }

    /// The table of data segments.
    pub fn segment_table(&self) -> &SegmentTable
        ensures { result.now ≡ record { facts = self.now.memory.tables.segments; visible = self.now.segments; visible_room = self.now.segment_room } }
    {
        &self.segments
    }

    /// The facts of elisions.
    pub fn elisions(&self) -> &Pyramid<ElisionFact>
        ensures { result.now ≡ self.now.memory.tables.elisions }
    {
        &self.elisions
    }

    /// The elided ids of each table.
    pub fn elided(&self) -> &Elided
        ensures { result.now ≡ self.now.elided }
    {
        &self.elided
    }

    /// How many sectors are staged.
    pub fn staged_len(&self) -> usize
        ensures { result ≡ length self.now.memory.staged }
    {
        self.staged.len()
    }

    /// The staged sector of an index: what an address of segment 0 names.
    pub fn staged(&self, index: u16) -> &Sector
        requires { index < length self.now.memory.staged }
        ensures { slice_get self.now.memory.staged index ≡ Some result.now }
    {
        &self.staged[usize::from(index)]
    }

    /// All staged sectors, in order of staging.
    pub fn all_staged(&self) -> &[Sector]
        ensures { result.now ≡ self.now.memory.staged }
    {
        &self.staged
    }

    /// The numbers that are given next.
    pub fn next(&self) -> NextNumbers
        ensures { result ≡ self.now.memory.next }
    {
        self.next
    }
}
