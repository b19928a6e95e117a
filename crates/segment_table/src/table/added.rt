ghost use Rattle.std.specs.Prelude.{◌≡◌, ◌+◌, ◌<◌, ◌≤◌, ◌++◌, [], ℕ, Bool, false, IfOk, OnOk, All, Contains, length};
ghost use Rattle.std.specs.Vec.{vec_len, vec_capacity};
ghost use Rattle.pur_base.specs.Facts.{segment_key};
ghost use Rattle.pur_base.specs.Says.{Ascends};
ghost use Rattle.pyramid.specs.Layers.{facts_in, patch_facts, patches_of, AreBelow, AreDistinct, IsFlushed};
ghost use Rattle.segment_table.specs.Segments.{AreVisible, number};

use crate::table::SegmentTable;
use pur_base::{NoMemory, SegmentFact};
use pyramid::Patch;
use std::alloc::Global;

/// The facts of a patch, if there is one, and segments behind them.
fn behind(
    alloc: Global,
    patch: &Option<Patch<SegmentFact>>,
    segments: &[SegmentFact],
) -> Result<Vec<SegmentFact>, NoMemory>
    ensures { IfOk result (λ v. v.items ≡ patch_facts patch.now ++ segments.now) }
{
    let mut out = Vec::new(alloc);
    if let Some(patch) = patch {
        out.extend_from_slice(patch.facts())?;
    }
    out.extend_from_slice(segments)?;
    Ok(out)
}

/// Puts segments behind the others. It takes no memory.
fn push_all(visible: &mut Vec<SegmentFact>, segments: &[SegmentFact])
    requires { vec_len visible.old + length segments.now ≤ vec_capacity visible.old }
    ensures items { visible.new.items ≡ visible.old.items ++ segments.now }
    ensures len { vec_len visible.new ≡ vec_len visible.old + length segments.now }
    ensures capacity { vec_capacity visible.old ≤ vec_capacity visible.new }
{
    if visible.extend_from_slice(segments).is_err() {
        unreachable!()
    }
}

impl SegmentTable {
    /// Reserves room for one patch more. Nothing else changes, whatever is answered.
    pub fn reserve_patch(&mut self) -> Result<(), NoMemory>
        ensures room { OnOk result (0 < self.new.facts.patch_room) }
        ensures room_left { self.old.facts.patch_room ≤ self.new.facts.patch_room }
        ensures facts { self.new.facts ≡ record self.old.facts { patch_room = self.new.facts.patch_room } }
        ensures rest { self.new ≡ record self.old { facts = self.new.facts } }
    {
        self.facts.reserve_patch()
    }

    /// The first half of a flush with segments that are added: the patch of the unflushed facts and of these segments, whose ids are above theirs.
    pub fn newest_with(
        &self,
        alloc: Global,
        segments: &[SegmentFact],
    ) -> Result<Option<Patch<SegmentFact>>, NoMemory>
        requires ascends { Ascends segment_key segments.now }
        requires last { (f d : SegmentFact) → Contains self.now.facts.unflushed f → Contains segments.now d → f.segment.0 < d.segment.0 }
        ensures { IfOk result (λ patch. IsFlushed segment_key number (self.now.facts.unflushed ++ segments.now) (patch_facts patch)) }
    {
        let newest = self.facts.newest_unflushed(alloc)?;
        let facts = behind(alloc, &newest, segments)?;
        Ok(Patch::from_facts(facts))
    }

    /// The second half: the segments are visible, the patch is the newest one, and no fact is unflushed. It takes no memory.
    pub fn put_with(&mut self, segments: &[SegmentFact], patch: Option<Patch<SegmentFact>>)
        requires patch_room { 0 < self.old.facts.patch_room }
        requires visible_room { length segments.now ≤ self.old.visible_room }
        requires patch { IsFlushed segment_key number (self.old.facts.unflushed ++ segments.now) (patch_facts patch) }
        requires ascends { Ascends segment_key segments.now }
        requires last { (d e : SegmentFact) → Contains self.old.visible d → Contains segments.now e → d.segment.0 < e.segment.0 }
        requires newer { AreBelow number (facts_in self.old.facts) segments.now }
        ensures patches { self.new.facts.patches ≡ self.old.facts.patches ++ patches_of patch }
        ensures unflushed { self.new.facts.unflushed ≡ [] }
        ensures room { self.new.facts.room ≡ self.old.facts.room + length self.old.facts.unflushed }
        ensures visible { self.new.visible ≡ self.old.visible ++ segments.now }
        ensures visible_room { self.old.visible_room ≤ self.new.visible_room + length segments.now }
        ensures says { (elided : ℕ → Bool) → AreDistinct number (facts_in self.old.facts) → Ascends number segments.now → All (λ d. elided d.segment.0 ≡ false) segments.now
            → AreVisible elided self.old → AreVisible elided self.new }
    {
        self.facts.layers();
        push_all(&mut self.visible, segments);
        self.facts.put_instead(patch);
    }
}
