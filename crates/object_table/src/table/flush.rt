ghost use Rattle.std.specs.Prelude.{◌≡◌, ◌+◌, ◌<◌, ◌≤◌, ◌==◌, ◌++◌, [], ℕ, Bool, true, IsTrue, IfOk, OnOk, Contains, length, take, drop};
ghost use Rattle.pur_base.specs.Facts.{apart, object_key, never};
ghost use Rattle.pur_base.specs.Says.{Ascends};
ghost use Rattle.pyramid.specs.Layers.{IsFlushed, IsMerged, patch_at, patch_facts, patches_of};
ghost use Rattle.object_table.specs.Objects.{AreVisible, number};

use crate::table::ObjectTable;
use pur_base::{NoMemory, ObjectFact};
use pyramid::Patch;
use std::alloc::Global;

impl ObjectTable {
    /// The first half of a flush: the patch of the unflushed facts, or `None` where there is none, and room for one patch more.
    pub fn flushed(&mut self, alloc: Global) -> Result<Option<Patch<ObjectFact>>, NoMemory>
        ensures patch { IfOk result (λ patch. IsFlushed object_key number self.old.facts.unflushed (patch_facts patch)) }
        ensures patch_room { OnOk result (0 < self.new.facts.patch_room) }
        ensures patch_room_left { self.old.facts.patch_room ≤ self.new.facts.patch_room }
        ensures facts { self.new.facts ≡ record self.old.facts { patch_room = self.new.facts.patch_room } }
        ensures rest { self.new ≡ record self.old { facts = self.new.facts } }
    {
        self.facts.flushed(alloc)
    }

    /// Reserves room for one patch more. Nothing else changes, whatever is answered.
    pub fn reserve_patch(&mut self) -> Result<(), NoMemory>
        ensures room { OnOk result (0 < self.new.facts.patch_room) }
        ensures room_left { self.old.facts.patch_room ≤ self.new.facts.patch_room }
        ensures facts { self.new.facts ≡ record self.old.facts { patch_room = self.new.facts.patch_room } }
        ensures rest { self.new ≡ record self.old { facts = self.new.facts } }
    {
        self.facts.reserve_patch()
    }

    /// The second half of a flush: the patch is the newest one, and no fact is unflushed. It takes no memory.
    pub fn put_flushed(&mut self, patch: Option<Patch<ObjectFact>>)
        requires patch_room { 0 < self.old.facts.patch_room }
        requires patch { IsFlushed object_key number self.old.facts.unflushed (patch_facts patch) }
        ensures patches { self.new.facts.patches ≡ self.old.facts.patches ++ patches_of patch }
        ensures unflushed { self.new.facts.unflushed ≡ [] }
        ensures room { self.new.facts.room ≡ self.old.facts.room + length self.old.facts.unflushed }
        ensures rest { self.new ≡ record self.old { facts = self.new.facts } }
        ensures says { (elided : ℕ → Bool) → AreVisible elided self.old → AreVisible elided self.new }
    {
        self.facts.put_flushed(patch);
    }

    /// The second half of a merge: the patch stands in the place of the two that it is made of. It takes no memory.
    pub fn put_merged(&mut self, i: usize, patch: Option<Patch<ObjectFact>>)
        requires there { i + 1 < length self.old.facts.patches }
        requires ascends { Ascends object_key (patch_facts patch) }
        requires source { (f : ObjectFact) → Contains (patch_facts patch) f → Contains (patch_at self.old.facts i ++ patch_at self.old.facts (i + 1)) f }
        ensures patches { self.new.facts.patches ≡ take i self.old.facts.patches ++ (patches_of patch ++ drop (i + 2) self.old.facts.patches) }
        ensures unflushed { self.new.facts.unflushed ≡ self.old.facts.unflushed }
        ensures room { self.new.facts.room ≡ self.old.facts.room }
        ensures patch_room { self.old.facts.patch_room < self.new.facts.patch_room }
        ensures rest { self.new ≡ record self.old { facts = self.new.facts } }
        ensures says { (stored : ℕ → Bool) → IsMerged object_key number never apart (i == 0) stored (patch_at self.old.facts i) (patch_at self.old.facts (i + 1)) (patch_facts patch)
            → (elided : ℕ → Bool) → ((id : ℕ) → IsTrue (stored id) → IsTrue (elided id)) → AreVisible elided self.old → AreVisible elided self.new }
    {
        self.facts.put_merged(i, patch);
    }

    /// The second half of a rewriting: the patch stands in the place of the only one. It takes no memory.
    pub fn put_rewritten(&mut self, patch: Option<Patch<ObjectFact>>)
        requires only { length self.old.facts.patches ≡ 1 }
        requires ascends { Ascends object_key (patch_facts patch) }
        requires source { (f : ObjectFact) → Contains (patch_facts patch) f → Contains (patch_at self.old.facts 0) f }
        ensures patches { self.new.facts.patches ≡ patches_of patch }
        ensures unflushed { self.new.facts.unflushed ≡ self.old.facts.unflushed }
        ensures room { self.new.facts.room ≡ self.old.facts.room }
        ensures patch_room { self.old.facts.patch_room ≤ self.new.facts.patch_room }
        ensures rest { self.new ≡ record self.old { facts = self.new.facts } }
        ensures says { (stored : ℕ → Bool) → IsMerged object_key number never apart true stored [] (patch_at self.old.facts 0) (patch_facts patch)
            → (elided : ℕ → Bool) → ((id : ℕ) → IsTrue (stored id) → IsTrue (elided id)) → AreVisible elided self.old → AreVisible elided self.new }
    {
        self.facts.put_rewritten(patch);
    }
}
