ghost use Rattle.std.specs.Prelude.{◌≡◌, ◌<◌, ◌+◌, ◌≤◌, Some, None, [], false, length, replicate, slice_get, IfOk, IfErr, IfSome, IfNone, OnOk, OnErr, option_map};
ghost use Rattle.pur_base.specs.Sectors.{filled};
ghost use Rattle.pur_base.specs.declared.request.Request.TheVariants.{Copy as CopyForm};
ghost use Rattle.pur_base.specs.Plain.{entry, has, sectors_of, span, with_span, without, appended, refusal, overwrite_causes, read_causes, first_cause};
ghost use Rattle.array_model.specs.Held.{IsPlace, sectors_at, snapshot_at, with_sectors_at, line_of, IsHeld, IsOf};

use indexmap::IndexMap;
use pur_base::{Name, NoMemory, Refusal, Sector};
use std::alloc::Global;
use std::marker::Model;
use std::mem;

/// A volume or snapshot.
#[derive(Drop)]
pub struct Object {
    pub snapshot: bool,
    pub sectors: Vec<Sector>,
}

/// Volumes and snapshots by name, in order of creation. Contracts see the plain array.
#[derive(Drop)]
pub struct Plain {
    alloc: Global,
    objects: IndexMap<Name, Object>,
}

impl Model for Plain {
    ghost use Rattle.pur_base.specs.Plain.{Array};
    ghost use Rattle.array_model.specs.Objects.{array_of};

    ghost Value = { Array };

    ghost view = { λ p. array_of p.objects.entries };
}

/// Where an array holds sectors: `count` of them from `lba` on, of the object that stands at `object` in order of creation.
#[derive(Clone, Copy, PartialEq, Eq)]
pub struct Held {
    pub object: usize,
    pub lba: usize,
    pub count: usize,
}

/// A line of the list of names.
#[derive(Clone, Copy, Drop)]
pub struct ObjectEntry {
    pub name: Name,
    pub snapshot: bool,
    pub sectors: u64,
}

impl Plain {
    /// The empty array.
    pub fn new(alloc: Global) -> Plain
        ensures { result ≡ [] }
    {
        Plain {
            alloc,
            objects: IndexMap::new(alloc),
        }
    }

    /// The number of volumes and snapshots.
    pub fn len(&self) -> usize
        ensures { result ≡ length self.now }
    {
        self.objects.len()
    }

    /// The name, kind and size of the object at a place in order of creation, or `None` past the last.
    pub fn object_at(&self, index: usize) -> Option<ObjectEntry>
        ensures { result ≡ option_map line_of (slice_get self.now index) }
    {
        match self.objects.get_index(index) {
            Some((name, object)) => Some(ObjectEntry {
                name: *name,
                snapshot: object.snapshot,
                sectors: object.sectors.len() as u64,
            }),
            None => None,
        }
    }

    /// The sectors of the object at a place in order of creation, none past the last.
    fn sectors_at(&self, index: usize) -> &[Sector]
        ensures { result.now ≡ sectors_at self.now index }
    {
        match self.objects.get_index(index) {
            Some((_, object)) => object.sectors.as_slice(),
            None => &[],
        }
    }

    /// The sectors that stand at a place.
    pub fn held(&self, place: &Held) -> &[Sector]
        requires { IsHeld self.now place.now }
        ensures { result.now ≡ span place.now.lba place.now.count (sectors_at self.now place.now.object) }
    {
        let sectors = self.sectors_at(place.object);
        &sectors[place.lba..][..place.count]
    }

    /// The sectors of the object of a name, none where it isn't there.
    fn sectors_of(&self, name: &Name) -> &[Sector]
        ensures { result.now ≡ sectors_of self.now name.now }
    {
        match self.place_of(name) {
            Some(object) => self.sectors_at(object),
            None => &[],
        }
    }

    /// Where the object of a name stands.
    fn place_of(&self, name: &Name) -> Option<usize>
        ensures some { IfSome result (λ at. (at < length self.now) × IsPlace name.now self.now at) }
        ensures none { IfNone result (entry self.now name.now ≡ None) }
    {
        self.objects.get_index_of(name)
    }

    /// Where a volume of a name has sectors to be replaced, or why it hasn't.
    pub fn writable(&self, name: &Name, lba: u64, count: usize) -> Result<Held, Refusal>
        ensures ok { IfOk result (λ place. (first_cause (overwrite_causes self.now name.now lba count) ≡ None) × IsOf self.now name.now lba count place) }
        ensures err { IfErr result (λ why. first_cause (overwrite_causes self.now name.now lba count) ≡ Some why) }
    {
        let Some(object) = self.place_of(name) else {
            return Err(Refusal::Unknown);
        };
        if self.is_snapshot_at(object) {
            return Err(Refusal::ReadOnly);
        }
        match self.span_at(object, lba, count) {
            Some(place) => Ok(place),
            None => Err(Refusal::Range),
        }
    }

    /// Where an object of a name has sectors to be read, or why it hasn't.
    pub fn readable(&self, name: &Name, lba: u64, count: usize) -> Result<Held, Refusal>
        ensures ok { IfOk result (λ place. (first_cause (read_causes self.now name.now lba count) ≡ None) × IsOf self.now name.now lba count place) }
        ensures err { IfErr result (λ why. first_cause (read_causes self.now name.now lba count) ≡ Some why) }
    {
        let Some(object) = self.place_of(name) else {
            return Err(Refusal::Unknown);
        };
        match self.span_at(object, lba, count) {
            Some(place) => Ok(place),
            None => Err(Refusal::Range),
        }
    }

    /// Where sectors to be copied stand, and behind that those of a volume that they replace, or why they aren't copied.
    pub fn copyable(
        &self,
        name: &Name,
        lba: u64,
        to: &Name,
        to_lba: u64,
        count: usize,
    ) -> Result<(Held, Held), Refusal>
        ensures ok { IfOk result (λ places. (refusal self.now (CopyForm name.now lba to.now to_lba count) ≡ None) × IsOf self.now name.now lba count places.0 × IsOf self.now to.now to_lba count places.1) }
        ensures err { IfErr result (λ why. refusal self.now (CopyForm name.now lba to.now to_lba count) ≡ Some why) }
    {
        let Some(object) = self.place_of(name) else {
            return Err(Refusal::Unknown);
        };
        let Some(target) = self.place_of(to) else {
            return Err(Refusal::Unknown);
        };
        if self.is_snapshot_at(target) {
            return Err(Refusal::ReadOnly);
        }
        let Some(from) = self.span_at(object, lba, count) else {
            return Err(Refusal::Range);
        };
        match self.span_at(target, to_lba, count) {
            Some(place) => Ok((from, place)),
            None => Err(Refusal::Range),
        }
    }

    /// Whether the object at a place is a snapshot.
    fn is_snapshot_at(&self, object: usize) -> bool
        ensures { result ≡ snapshot_at self.now object }
    {
        match self.objects.get_index(object) {
            Some((_, object)) => object.snapshot,
            None => false,
        }
    }

    /// The sectors from `lba` on of the object at a place, or `None` where they pass its end.
    fn span_at(&self, object: usize, lba: u64, count: usize) -> Option<Held>
        ensures some { IfSome result (λ place. (lba + count ≤ length (sectors_at self.now object)) × (place ≡ record { object = object; lba = lba; count = count })) }
        ensures none { IfNone result (length (sectors_at self.now object) < lba + count) }
    {
        let size = self.sectors_at(object).len();
        if size < count || ((size - count) as u64) < lba {
            return None;
        }
        let lba = lba as usize;
        Some(Held { object, lba, count })
    }

    /// Replaces the sectors at a place, as many as are given.
    pub fn write(&mut self, place: &Held, sectors: &[Sector])
        requires there { IsHeld self.old place.now }
        requires all { length sectors.now ≡ place.now.count }
        ensures { self.new ≡ with_sectors_at self.old place.now.object (with_span place.now.lba sectors.now (sectors_at self.old place.now.object)) }
    {
        let object = &mut self.objects[place.object];
        write_span(&mut object.sectors, place.lba, sectors);
    }

    /// Fills the sectors at a place with a byte.
    pub fn fill(&mut self, place: &Held, byte: u8)
        requires { IsHeld self.old place.now }
        ensures { self.new ≡ with_sectors_at self.old place.now.object (with_span place.now.lba (replicate place.now.count (filled byte)) (sectors_at self.old place.now.object)) }
    {
        let object = &mut self.objects[place.object];
        fill_span(&mut object.sectors, place.lba, place.count, byte);
    }

    /// Gives the object at a place other sectors, for those that it had.
    fn exchange(&mut self, object: usize, sectors: Vec<Sector>) -> Vec<Sector>
        requires { object < length self.old }
        ensures before { result.items ≡ sectors_at self.old object }
        ensures after { self.new ≡ with_sectors_at self.old object sectors.items }
    {
        let object = &mut self.objects[object];
        mem::replace(&mut object.sectors, sectors)
    }

    /// Replaces the sectors at a place by as many that stand at another, which may share sectors with it: by what stood there before.
    /// It takes no memory: an object that is copied to another one is without its sectors meanwhile.
    pub fn copy(&mut self, from: &Held, to: &Held)
        requires from { IsHeld self.old from.now }
        requires to { IsHeld self.old to.now }
        requires all { from.now.count ≡ to.now.count }
        ensures { self.new ≡ with_sectors_at self.old to.now.object (with_span to.now.lba (span from.now.lba from.now.count (sectors_at self.old from.now.object)) (sectors_at self.old to.now.object)) }
    {
        if from.object == to.object {
            let object = &mut self.objects[to.object];
            copy_span(&mut object.sectors, from.lba, to.lba, from.count);
            return;
        }
        let sectors = self.exchange(from.object, Vec::new(self.alloc));
        self.write(to, &sectors.as_slice()[from.lba..][..from.count]);
        let _ = self.exchange(from.object, sectors);
    }

    /// Appends an object, where its name isn't there. An error leaves the array.
    fn push(&mut self, name: &Name, object: Object) -> Result<(), NoMemory>
        requires { has self.old name.now ≡ false }
        ensures ok { OnOk result (self.new ≡ appended self.old name.now object.snapshot object.sectors.items) }
        ensures err { OnErr result (self.new ≡ self.old) }
    {
        self.objects.insert(*name, object)?;
        Ok(())
    }

    /// Appends a volume of so many zero sectors, where its name isn't there. An error leaves the array.
    pub fn append(&mut self, name: &Name, sectors: usize) -> Result<(), NoMemory>
        requires { has self.old name.now ≡ false }
        ensures ok { OnOk result (self.new ≡ appended self.old name.now false (replicate sectors (filled 0))) }
        ensures err { OnErr result (self.new ≡ self.old) }
    {
        let sectors = Vec::from_elem(self.alloc, Sector::filled(0), sectors)?;
        let object = Object {
            snapshot: false,
            sectors,
        };
        self.push(name, object)
    }

    /// Appends a snapshot or a volume with the sectors of the object of a name, where its own name isn't there. An error leaves the array.
    pub fn append_copy(&mut self, name: &Name, new: &Name, snapshot: bool) -> Result<(), NoMemory>
        requires { has self.old new.now ≡ false }
        ensures ok { OnOk result (self.new ≡ appended self.old new.now snapshot (sectors_of self.old name.now)) }
        ensures err { OnErr result (self.new ≡ self.old) }
    {
        let sectors = self.sectors_of(name).to_vec(self.alloc)?;
        self.push(new, Object { snapshot, sectors })
    }

    /// Takes the object of a name away, if it is there. It takes no memory.
    pub fn remove(&mut self, name: &Name)
        ensures { self.new ≡ without self.old name.now }
    {
        let _ = self.objects.shift_remove(name);
    }

    /// Whether a name is there.
    pub fn has(&self, name: &Name) -> bool
        ensures { result ≡ has self.now name.now }
    {
        match self.place_of(name) {
            Some(_) => true,
            None => false,
        }
    }
}

/// Puts sectors in the place of those from `lba` on.
fn write_span(sectors: &mut [Sector], lba: usize, new: &[Sector])
    requires { lba + length new.now ≤ length sectors.old }
    ensures { sectors.new ≡ with_span lba new.now sectors.old }
{
    sectors[lba..lba + new.len()].copy_from_slice(new);
}

/// Puts sectors of a byte in the place of those from `lba` on.
fn fill_span(sectors: &mut [Sector], lba: usize, count: usize, byte: u8)
    requires { lba + count ≤ length sectors.old }
    ensures { sectors.new ≡ with_span lba (replicate count (filled byte)) sectors.old }
{
    sectors[lba..lba + count].fill(Sector::filled(byte));
}

/// Puts the sectors from `from` on in the place of those from `to` on, as they stood before.
fn copy_span(sectors: &mut [Sector], from: usize, to: usize, count: usize)
    requires from { from + count ≤ length sectors.old }
    requires to { to + count ≤ length sectors.old }
    ensures { sectors.new ≡ with_span to (span from count sectors.old) sectors.old }
{
    sectors.copy_within(from..from + count, to);
}
