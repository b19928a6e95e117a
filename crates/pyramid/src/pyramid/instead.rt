ghost use Rattle.std.specs.Prelude.{◌≡◌, ◌+◌, ◌<◌, ◌≤◌, ◌++◌, [], IfOk, OnOk, length};
ghost use Rattle.pur_base.specs.Says.{Ascends};
ghost use Rattle.pyramid.specs.Layers.{facts_of, patch_facts, patches_of, AreBelow, IsFlushed};

use crate::patch::{Patch, push_patch};
use crate::pyramid::Pyramid;
use elision::newest_of_each;
use pur_base::{Fact, NoMemory};
use std::alloc::Global;

impl<F: Fact + Drop> Pyramid<F> {
    /// The patch that a flush makes: of each key the newest unflushed fact. `None` where no fact is unflushed.
    pub fn newest_unflushed(&self, alloc: Global) -> Result<Option<Patch<F>>, NoMemory>
        ensures { IfOk result (λ patch. IsFlushed F.key F.number self.now.unflushed (patch_facts patch)) }
    {
        let newest = newest_of_each(alloc, &self.unflushed)?;
        Ok(Patch::from_facts(newest))
    }

    /// Reserves room for one patch more. Nothing else changes, whatever is answered.
    pub fn reserve_patch(&mut self) -> Result<(), NoMemory>
        ensures room { OnOk result (0 < self.new.patch_room) }
        ensures room_left { self.old.patch_room ≤ self.new.patch_room }
        ensures rest { self.new ≡ record self.old { patch_room = self.new.patch_room } }
    {
        self.patches.reserve(1)?;
        Ok(())
    }

    /// Puts a patch that is newer than all others in the place of all unflushed facts, whatever it says. It takes no memory.
    pub fn put_instead(&mut self, patch: Option<Patch<F>>)
        requires patch_room { 0 < self.old.patch_room }
        requires ascends { Ascends F.key (patch_facts patch) }
        requires rising { AreBelow F.number (facts_of self.old.patches) (patch_facts patch) }
        ensures patches { self.new.patches ≡ self.old.patches ++ patches_of patch }
        ensures unflushed { self.new.unflushed ≡ [] }
        ensures room { self.new.room ≡ self.old.room + length self.old.unflushed }
    {
        push_patch(&mut self.patches, patch);
        self.unflushed.clear();
    }
}
