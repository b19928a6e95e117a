ghost use Rattle.std.specs.Prelude.{◌≡◌, ◌≢◌, ◌⊎◌, ◌↔◌, ◌+◌, ◌<◌, ◌≤◌, ◌∷◌, ◌++◌, [], ℕ, Bool, false, not, IsTrue, IsOk, IfOk, IfSome, IfNone, OnOk, OnErr, All, Contains, filter, nat_lt, slice_get};
ghost use Rattle.pur_base.specs.Visible.{is_within};
ghost use Rattle.elision.specs.Ranges.{AreApart};
ghost use Rattle.pyramid.specs.Layers.{AreDistinct, facts_in, facts_of};
ghost use Rattle.segment_table.specs.Segments.{AreOwnFrom, AreVisible, number};

mod added;
mod flush;

use crate::search::find;
use elision::is_within;
use pur_base::{NoMemory, Places, SegmentFact, SegmentId, Seq};
use pyramid::Pyramid;
use std::alloc::Global;
use std::marker::Model;

/// The facts of data segments, and the visible segments by ascending id. Contracts see both.
#[derive(Drop)]
pub struct SegmentTable {
    facts: Pyramid<SegmentFact>,
    visible: Vec<SegmentFact>,
}

impl Model for SegmentTable {
    ghost use Rattle.std.specs.Prelude.{◌-◌};
    ghost use Rattle.std.specs.Vec.{vec_len, vec_capacity};
    ghost use Rattle.pur_base.specs.Says.{Ascends};
    ghost use Rattle.pur_base.specs.Facts.{segment_key};
    ghost use Rattle.segment_table.specs.Segments.{Segments};

    ghost Value = { Segments };

    ghost view = { λ t. record { facts = t.facts; visible = t.visible.items; visible_room = vec_capacity t.visible - vec_len t.visible } };

    ghost invariant = { λ t. Ascends segment_key t.visible.items };
}

impl SegmentTable {
    /// The table of these facts, where those ids are elided.
    pub fn from_facts(
        alloc: Global,
        facts: Pyramid<SegmentFact>,
        elided: &[(u64, u64)],
    ) -> Result<SegmentTable, NoMemory>
        requires { AreApart elided.now }
        ensures facts { IfOk result (λ t. t.facts ≡ facts) }
        ensures visible { IfOk result (AreVisible (is_within elided.now)) }
    {
        let visible = facts.range(alloc, 0, u128::MAX, elided)?;
        Ok(SegmentTable { facts, visible })
    }

    /// The facts of all data segments.
    pub fn facts(&self) -> &Pyramid<SegmentFact>
        ensures { result.now ≡ self.now.facts }
    {
        &self.facts
    }

    /// All visible segments, by ascending id.
    pub fn all(&self) -> &[SegmentFact]
        ensures { result.now ≡ self.now.visible }
    {
        &self.visible
    }

    /// The visible segment at a place by ascending id, or `None` past the last.
    pub fn nth(&self, p: usize) -> Option<SegmentFact>
        ensures { result ≡ slice_get self.now.visible p }
    {
        self.visible.get(p).copied()
    }

    /// The units of the visible segment of an id, or `None` where there is none.
    pub fn places(&self, id: SegmentId) -> Option<Places>
        ensures some { IfSome result (λ places. (d : SegmentFact) × Contains self.now.visible d × (d.segment.0 ≡ id.0) × (d.places ≡ places)) }
        ensures none { IfNone result (All (λ d. d.segment.0 ≢ id.0) self.now.visible) }
    {
        match find(&self.visible, id) {
            Some(segment) => Some(segment.places),
            None => None,
        }
    }

    /// Reserves room for so many more visible segments. Nothing else changes, whatever is answered.
    pub fn reserve(&mut self, additional: usize) -> Result<(), NoMemory>
        ensures room { OnOk result (additional ≤ self.new.visible_room) }
        ensures room_left { self.old.visible_room ≤ self.new.visible_room }
        ensures rest { self.new ≡ record self.old { visible_room = self.new.visible_room } }
    {
        self.visible.reserve(additional)?;
        Ok(())
    }

    /// Reserves room for so many more unflushed facts. Nothing else changes, whatever is answered.
    pub fn reserve_facts(&mut self, additional: usize) -> Result<(), NoMemory>
        ensures room { OnOk result (additional ≤ self.new.facts.room) }
        ensures room_left { self.old.facts.room ≤ self.new.facts.room }
        ensures facts { self.new.facts ≡ record self.old.facts { room = self.new.facts.room } }
        ensures rest { self.new ≡ record self.old { facts = self.new.facts } }
    {
        self.facts.reserve(additional)
    }

    /// Adds a segment whose id is above all others and whose number is above all others.
    /// It takes no memory where there is room, and an `Err` changes nothing.
    pub fn add(&mut self, segment: SegmentFact) -> Result<(), NoMemory>
        requires newer { All (λ f. f.seq.0 < segment.seq.0) (facts_in self.old.facts) }
        requires last { All (λ d. d.segment.0 < segment.segment.0) self.old.visible }
        ensures visible { OnOk result (self.new.visible ≡ self.old.visible ++ segment ∷ []) }
        ensures facts { OnOk result ((f : SegmentFact) → Contains self.new.facts.unflushed f ↔ (Contains self.old.facts.unflushed f ⊎ (f ≡ segment))) }
        ensures says { OnOk result ((elided : ℕ → Bool) → AreDistinct number (facts_in self.old.facts) → elided segment.segment.0 ≡ false → AreVisible elided self.old → AreVisible elided self.new) }
        ensures patches { self.new.facts.patches ≡ self.old.facts.patches }
        ensures refused { OnErr result ((self.new.visible ≡ self.old.visible) × (self.new.facts.unflushed ≡ self.old.facts.unflushed)) }
        ensures room { 0 < self.old.facts.room → 0 < self.old.visible_room → IsOk result }
        ensures room_left { self.old.facts.room ≤ self.new.facts.room + 1 }
        ensures visible_room_left { self.old.visible_room ≤ self.new.visible_room + 1 }
        ensures patch_room { self.new.facts.patch_room ≡ self.old.facts.patch_room }
    {
        self.visible.reserve(1)?;
        self.facts.insert_run(&[segment])?;
        match self.visible.push(segment) {
            Ok(()) => Ok(()),
            Err(_) => unreachable!(),
        }
    }

    /// Takes the segments back that have that number or a greater one, out of the unflushed facts and out of those that are visible.
    /// It takes no memory.
    pub fn take_back(&mut self, from: Seq)
        ensures patches { self.new.facts.patches ≡ self.old.facts.patches }
        ensures unflushed { self.new.facts.unflushed ≡ filter (λ f. nat_lt (number f) from.0) self.old.facts.unflushed }
        ensures visible { self.new.visible ≡ filter (λ d. nat_lt (number d) from.0) self.old.visible }
        ensures says { (elided : ℕ → Bool) → All (λ f. number f < from.0) (facts_of self.old.facts.patches) → AreOwnFrom from.0 (facts_in self.old.facts)
            → AreVisible elided self.old → AreVisible elided self.new }
        ensures room { self.old.facts.room ≤ self.new.facts.room }
        ensures visible_room { self.old.visible_room ≤ self.new.visible_room }
        ensures patch_room { self.new.facts.patch_room ≡ self.old.facts.patch_room }
    {
        self.facts.take_back(from);
        self.visible.retain(|segment| segment.seq.0 < from.0);
    }

    /// Takes the segments of elided ids out of those that are visible, in one pass. It takes no memory.
    pub fn remove_elided(&mut self, elided: &[(u64, u64)])
        requires { AreApart elided.now }
        ensures visible { self.new.visible ≡ filter (λ d. not (is_within elided.now d.segment.0)) self.old.visible }
        ensures says { (before : ℕ → Bool) → ((id : ℕ) → IsTrue (before id) → IsTrue (is_within elided.now id)) → AreVisible before self.old → AreVisible (is_within elided.now) self.new }
        ensures facts { self.new.facts ≡ self.old.facts }
        ensures visible_room { self.old.visible_room ≤ self.new.visible_room }
    {
        self.visible
            .retain(|segment| !is_within(elided, segment.segment.0));
    }
}
