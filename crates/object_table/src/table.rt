ghost use Rattle.std.specs.Prelude.{◌≡◌, ◌≢◌, ◌⊎◌, ◌↔◌, ◌+◌, ◌<◌, ◌≤◌, ◌==◌, ◌∷◌, ◌++◌, [], ℕ, Bool, false, not, IsTrue, IsOk, IfOk, IfSome, IfNone, OnOk, OnErr, All, AllPairs, Contains, filter, length, map, slice_get};
ghost use Rattle.pur_base.specs.Facts.{object_key, never};
ghost use Rattle.pur_base.specs.Says.{says};
ghost use Rattle.pur_base.specs.Visible.{is_within};
ghost use Rattle.elision.specs.Ranges.{AreApart};
ghost use Rattle.pyramid.specs.Layers.{AreDistinct, facts_in};
ghost use Rattle.object_table.specs.Objects.{AreNamesDistinct, AreVisible, number, with_medium};

mod flush;

use crate::named::{by_name, place_of};
use indexmap::IndexMap;
use pur_base::{MediumId, Name, NoMemory, OBJECTS, ObjectFact, ObjectId, Seq};
use pyramid::Pyramid;
use std::alloc::Global;
use std::marker::Model;

/// The facts of objects, and the visible objects by name in order of creation. Contracts see both.
#[derive(Drop)]
pub struct ObjectTable {
    facts: Pyramid<ObjectFact>,
    named: IndexMap<Name, ObjectFact>,
}

impl Model for ObjectTable {
    ghost use Rattle.indexmap.specs.IndexMap.{spare};
    ghost use Rattle.object_table.specs.Objects.{Objects, AreListed, objects_of};

    ghost Value = { Objects };

    ghost view = { λ t. record { facts = t.facts; visible = objects_of t.named.entries; name_room = spare t.named } };

    ghost invariant = { λ t. AreListed t.named.entries };
}

impl ObjectTable {
    /// The table of these facts, where those ids are elided, with room for the names of as many objects as there may be.
    /// The objects that the facts say have names of their own.
    pub fn from_facts(
        alloc: Global,
        facts: Pyramid<ObjectFact>,
        elided: &[(u64, u64)],
    ) -> Result<ObjectTable, NoMemory>
        requires apart { AreApart elided.now }
        requires names { (x y : ObjectFact) → says object_key number never (facts_in facts) (is_within elided.now) (object_key x) ≡ Some x
            → says object_key number never (facts_in facts) (is_within elided.now) (object_key y) ≡ Some y → x.name ≡ y.name → x ≡ y }
        ensures facts { IfOk result (λ t. t.facts ≡ facts) }
        ensures visible { IfOk result (AreVisible (is_within elided.now)) }
        ensures name_room { IfOk result (λ t. OBJECTS ≤ length t.visible + t.name_room) }
    {
        let visible = facts.range(alloc, 0, u128::MAX, elided)?;
        let named = by_name(alloc, &visible)?;
        Ok(ObjectTable { facts, named })
    }

    /// The facts of all objects.
    pub fn facts(&self) -> &Pyramid<ObjectFact>
        ensures { result.now ≡ self.now.facts }
    {
        &self.facts
    }

    /// How many objects are visible, each of a name of its own.
    pub fn len(&self) -> usize
        ensures len { result ≡ length self.now.visible }
        ensures distinct { AreNamesDistinct self.now.visible }
    {
        self.named.len()
    }

    /// The visible object at a place in order of creation, or `None` past the last.
    pub fn at(&self, index: usize) -> Option<ObjectFact>
        ensures { result ≡ slice_get self.now.visible index }
    {
        match self.named.get_index(index) {
            Some((_, object)) => Some(*object),
            None => None,
        }
    }

    /// The visible object of a name, or `None` where no object has it.
    pub fn get(&self, name: &Name) -> Option<ObjectFact>
        ensures some { IfSome result (λ x. Contains self.now.visible x × (x.name ≡ name.now)) }
        ensures none { IfNone result (All (λ x. x.name ≢ name.now) self.now.visible) }
    {
        self.named.get(name).copied()
    }

    /// Reserves room for the names of so many more objects. Nothing else changes, whatever is answered.
    pub fn reserve(&mut self, additional: usize) -> Result<(), NoMemory>
        ensures room { OnOk result (additional ≤ self.new.name_room) }
        ensures room_left { self.old.name_room ≤ self.new.name_room }
        ensures rest { self.new ≡ record self.old { name_room = self.new.name_room } }
    {
        self.named.reserve(additional)?;
        Ok(())
    }

    /// Reserves room for so many more unflushed facts. Nothing else changes, whatever is answered.
    pub fn reserve_facts(&mut self, additional: usize) -> Result<(), NoMemory>
        ensures room { OnOk result (additional ≤ self.new.facts.room) }
        ensures room_left { self.old.facts.room ≤ self.new.facts.room }
        ensures facts { self.new.facts ≡ record self.old.facts { room = self.new.facts.room } }
        ensures rest { self.new ≡ record self.old { facts = self.new.facts } }
    {
        self.facts.reserve(additional)
    }

    /// Adds an object whose id is above all others, whose number is above all others and whose name is new.
    /// It takes no memory where there is room, and an `Err` changes nothing.
    pub fn add(&mut self, object: ObjectFact) -> Result<(), NoMemory>
        requires newer { All (λ f. f.seq.0 < object.seq.0) (facts_in self.old.facts) }
        requires last { All (λ x. x.object.0 < object.object.0) self.old.visible }
        requires name { All (λ x. x.name ≢ object.name) self.old.visible }
        ensures visible { OnOk result (self.new.visible ≡ self.old.visible ++ object ∷ []) }
        ensures facts { OnOk result ((f : ObjectFact) → Contains self.new.facts.unflushed f ↔ (Contains self.old.facts.unflushed f ⊎ (f ≡ object))) }
        ensures says { OnOk result ((elided : ℕ → Bool) → AreDistinct number (facts_in self.old.facts) → elided object.object.0 ≡ false → AreVisible elided self.old → AreVisible elided self.new) }
        ensures patches { self.new.facts.patches ≡ self.old.facts.patches }
        ensures refused { OnErr result ((self.new.visible ≡ self.old.visible) × (self.new.facts.unflushed ≡ self.old.facts.unflushed)) }
        ensures room { 0 < self.old.facts.room → 0 < self.old.name_room → IsOk result }
        ensures room_left { self.old.facts.room ≤ self.new.facts.room + 1 }
        ensures name_room_left { self.old.name_room ≤ self.new.name_room + 1 }
        ensures patch_room { self.new.facts.patch_room ≡ self.old.facts.patch_room }
    {
        self.named.reserve(1)?;
        let run = [object];
        self.facts.insert_run(&run)?;
        match self.named.insert(run[0].name, run[0]) {
            Ok(_) => Ok(()),
            Err(_) => unreachable!(),
        }
    }

    /// Gives the object of an id another medium, by a fact whose number is above all others.
    /// It takes no memory where there is room, and an `Err` changes nothing.
    pub fn set_medium(&mut self, id: ObjectId, medium: MediumId, seq: Seq) -> Result<(), NoMemory>
        requires newer { All (λ f. f.seq.0 < seq.0) (facts_in self.old.facts) }
        requires there { (x : ObjectFact) × Contains self.old.visible x × (x.object.0 ≡ id.0) }
        ensures visible { OnOk result (self.new.visible ≡ map (with_medium id.0 medium seq) self.old.visible) }
        ensures facts { OnOk result ((x : ObjectFact) → Contains self.old.visible x → x.object.0 ≡ id.0
            → (f : ObjectFact) → Contains self.new.facts.unflushed f ↔ (Contains self.old.facts.unflushed f ⊎ (f ≡ with_medium id.0 medium seq x))) }
        ensures says { OnOk result ((elided : ℕ → Bool) → AreDistinct number (facts_in self.old.facts) → AreVisible elided self.old → AreVisible elided self.new) }
        ensures patches { self.new.facts.patches ≡ self.old.facts.patches }
        ensures refused { OnErr result ((self.new.visible ≡ self.old.visible) × (self.new.facts.unflushed ≡ self.old.facts.unflushed)) }
        ensures room { 0 < self.old.facts.room → IsOk result }
        ensures room_left { self.old.facts.room ≤ self.new.facts.room + 1 }
        ensures name_room_left { self.old.name_room ≤ self.new.name_room }
        ensures patch_room { self.new.facts.patch_room ≡ self.old.facts.patch_room }
    {
        let Some(at) = place_of(&self.named, id) else {
            unreachable!()
        };
        let fact = ObjectFact {
            medium,
            seq,
            ..self.named[at]
        };
        let run = [fact];
        self.facts.insert_run(&run)?;
        self.named[at] = run[0];
        Ok(())
    }

    /// Takes the object of an id out of those that are visible, once its id is elided. It takes no memory.
    pub fn remove(&mut self, id: ObjectId)
        ensures visible { self.new.visible ≡ filter (λ x. not (x.object.0 == id.0)) self.old.visible }
        ensures says { (elided wider : ℕ → Bool) → ((i : ℕ) → IsTrue (wider i) ↔ (IsTrue (elided i) ⊎ (i ≡ id.0))) → AreVisible elided self.old → AreVisible wider self.new }
        ensures facts { self.new.facts ≡ self.old.facts }
        ensures name_room { self.old.name_room ≤ self.new.name_room }
    {
        if let Some(at) = place_of(&self.named, id) {
            self.named.shift_remove_index(at);
        }
    }
}
