ghost use Rattle.std.specs.Prelude.{◌≡◌, ◌⊎◌, ◌↔◌, ℕ, ◌+◌, ◌-◌, ◌<◌, ◌≤◌, ◌^◌, Bool, false, nat_lt, filter, [], ◌++◌, length, All, Contains, None, IfOk, IfSome, IfNone, IsOk, OnOk, OnErr};
ghost use Rattle.std.specs.Option.{option_or};
ghost use Rattle.pur_base.specs.Facts.{medium_key};
ghost use Rattle.pur_base.specs.Says.{Ascends};
ghost use Rattle.pur_base.specs.Visible.{is_within};
ghost use Rattle.elision.specs.Ranges.{AreApart};
ghost use Rattle.pyramid.specs.Layers.{facts_in, AreBelow};
ghost use Rattle.medium_table.specs.Ranges.{after_cut, cut_facts, number, range_from, said, AreDisjoint, IsCut, IsLowest, IsNext, IsRangeOver};

use crate::cut::{emptied, rest_of};
use pur_base::{MediumFact, MediumId, NoMemory, Seq};
use pyramid::{Pyramid, key_of};
use std::alloc::Global;

/// Sectors of a medium that read as those of a target: what a fact of its table says.
pub type Range = MediumFact;

/// The facts of mediums. They are flushed, merged and rewritten as those of any table.
/// Calls take the ranges of mediums that are elided in it.
#[derive(Drop)]
pub struct MediumTable {
    pub facts: Pyramid<MediumFact>,
}

impl MediumTable {
    /// No facts, and room for so many unflushed ones.
    pub fn new(alloc: Global, room: usize) -> Result<MediumTable, NoMemory>
        ensures { IfOk result (λ t. (t.facts.patches ≡ []) × (t.facts.unflushed ≡ []) × (t.facts.room ≡ room)) }
    {
        let facts = Pyramid::new(alloc, room)?;
        Ok(MediumTable { facts })
    }

    /// The table of these facts, as of patches that were loaded. It takes no memory.
    pub fn from_facts(facts: Pyramid<MediumFact>) -> MediumTable
        ensures { result.facts ≡ facts }
    {
        MediumTable { facts }
    }

    /// Reserves room for so many more unflushed facts. Nothing else changes, whatever is answered.
    pub fn reserve_facts(&mut self, additional: usize) -> Result<(), NoMemory>
        ensures room { OnOk result (additional ≤ self.new.facts.room) }
        ensures room_left { self.old.facts.room ≤ self.new.facts.room }
        ensures rest { self.new.facts ≡ record self.old.facts { room = self.new.facts.room } }
    {
        self.facts.reserve(additional)
    }

    /// Takes in ranges of ascending mediums and starts that are newer than all others.
    /// It takes no memory where there is room for them, and an `Err` changes nothing.
    pub fn over(&mut self, ranges: &[Range]) -> Result<(), NoMemory>
        requires ascends { Ascends medium_key ranges.now }
        requires whole { All (λ r. r.start < r.end) ranges.now }
        requires newest { AreBelow number (facts_in self.old.facts) ranges.now }
        ensures says { OnOk result ((elided : ℕ → Bool) (medium start : ℕ) → range_from (facts_in self.new.facts) elided medium start
            ≡ option_or (range_from ranges.now elided medium start) (range_from (facts_in self.old.facts) elided medium start)) }
        ensures facts { OnOk result ((f : MediumFact) → Contains self.new.facts.unflushed f ↔ (Contains self.old.facts.unflushed f ⊎ Contains ranges.now f)) }
        ensures patches { self.new.facts.patches ≡ self.old.facts.patches }
        ensures refused { OnErr result (self.new.facts.unflushed ≡ self.old.facts.unflushed) }
        ensures room { length ranges.now ≤ self.old.facts.room → IsOk result }
        ensures room_left { self.old.facts.room ≤ self.new.facts.room + length ranges.now }
        ensures patch_room { self.new.facts.patch_room ≡ self.old.facts.patch_room }
    {
        self.put_run(ranges)
    }

    /// Takes in facts of ascending mediums and starts that are newer than all others.
    fn put_run(&mut self, run: &[MediumFact]) -> Result<(), NoMemory>
        requires ascends { Ascends medium_key run.now }
        requires newest { AreBelow number (facts_in self.old.facts) run.now }
        ensures says { OnOk result ((elided : ℕ → Bool) (k : ℕ) → said (facts_in self.new.facts) elided k ≡ said (facts_in self.old.facts ++ run.now) elided k) }
        ensures facts { OnOk result ((f : MediumFact) → Contains self.new.facts.unflushed f ↔ (Contains self.old.facts.unflushed f ⊎ Contains run.now f)) }
        ensures patches { self.new.facts.patches ≡ self.old.facts.patches }
        ensures refused { OnErr result (self.new.facts.unflushed ≡ self.old.facts.unflushed) }
        ensures room { length run.now ≤ self.old.facts.room → IsOk result }
        ensures room_left { self.old.facts.room ≤ self.new.facts.room + length run.now }
        ensures patch_room { self.new.facts.patch_room ≡ self.old.facts.patch_room }
    {
        self.facts.insert_run(run)
    }

    /// Takes the unflushed facts out that have that number or a greater one. It takes no memory.
    pub fn take_back(&mut self, from: Seq)
        ensures patches { self.new.facts.patches ≡ self.old.facts.patches }
        ensures unflushed { self.new.facts.unflushed ≡ filter (λ f. nat_lt (number f) from.0) self.old.facts.unflushed }
        ensures room { self.old.facts.room ≤ self.new.facts.room }
        ensures patch_room { self.new.facts.patch_room ≡ self.old.facts.patch_room }
    {
        self.facts.take_back(from);
    }

    /// The visible range that has a sector of a medium, or `None` where none has: a search for the last start up to the sector.
    /// It takes no memory.
    pub fn step(&self, medium: MediumId, sector: u32, elided: &[(u64, u64)]) -> Option<Range>
        requires apart { AreApart elided.now }
        requires disjoint { AreDisjoint (facts_in self.now.facts) (is_within elided.now) medium.0 }
        ensures found { IfSome result (IsRangeOver (facts_in self.now.facts) (is_within elided.now) medium.0 sector) }
        ensures absent { IfNone result ((r : MediumFact) → ¬ (IsRangeOver (facts_in self.now.facts) (is_within elided.now) medium.0 sector r)) }
    {
        let from = key_of(medium.0, 0);
        let to = key_of(medium.0, u64::from(sector));
        match self.facts.last_between(from, to, elided) {
            Some(range) => if u64::from(sector) < range.end {
                Some(range)
            } else {
                None
            },
            None => None,
        }
    }

    /// The visible range of a medium in front of which none begins, or `None` where it has none. It takes no memory.
    pub fn lowest(&self, medium: MediumId, elided: &[(u64, u64)]) -> Option<Range>
        requires { AreApart elided.now }
        ensures found { IfSome result (IsLowest (facts_in self.now.facts) (is_within elided.now) medium.0) }
        ensures absent { IfNone result ((start : ℕ) → start < 2 ^ 64 → range_from (facts_in self.now.facts) (is_within elided.now) medium.0 start ≡ None) }
    {
        self.next(medium, 0, elided)
    }

    /// The visible range of a medium that begins first from a sector on, or `None` where none begins there or behind it.
    /// It takes no memory.
    pub fn next(&self, medium: MediumId, sector: u32, elided: &[(u64, u64)]) -> Option<Range>
        requires { AreApart elided.now }
        ensures found { IfSome result (IsNext (facts_in self.now.facts) (is_within elided.now) medium.0 sector) }
        ensures absent { IfNone result ((start : ℕ) → sector ≤ start → start < 2 ^ 64 → range_from (facts_in self.now.facts) (is_within elided.now) medium.0 start ≡ None) }
    {
        let from = key_of(medium.0, u64::from(sector));
        let to = key_of(medium.0, u64::MAX);
        self.facts.first_between(from, to, elided)
    }

    /// Takes the front of a medium's lowest range away: it then begins at `to`, or is gone where it ends there.
    /// The fact that nothing begins where it began has that number, and what is left of it the next one.
    /// It takes no memory where there is room for these facts, and an `Err` changes nothing.
    pub fn cut_front(
        &mut self,
        medium: MediumId,
        to: u32,
        seq: Seq,
        elided: &[(u64, u64)],
    ) -> Result<(), NoMemory>
        requires apart { AreApart elided.now }
        requires lowest { (r : MediumFact) × IsCut (facts_in self.old.facts) (is_within elided.now) medium.0 to r × (r.target_start + (to - r.start) < 2 ^ 64) }
        requires newest { All (λ f. number f < seq.0) (facts_in self.old.facts) }
        requires number { seq.0 + 1 < 2 ^ 64 }
        ensures says { (r : MediumFact) → IsLowest (facts_in self.old.facts) (is_within elided.now) medium.0 r
            → OnOk result ((k : ℕ) → said (facts_in self.new.facts) (is_within elided.now) k ≡ after_cut r to seq.0 (said (facts_in self.old.facts) (is_within elided.now)) k) }
        ensures facts { (r : MediumFact) → IsLowest (facts_in self.old.facts) (is_within elided.now) medium.0 r
            → OnOk result ((f : MediumFact) → Contains self.new.facts.unflushed f ↔ (Contains self.old.facts.unflushed f ⊎ Contains (cut_facts r to seq.0) f)) }
        ensures patches { self.new.facts.patches ≡ self.old.facts.patches }
        ensures refused { OnErr result (self.new.facts.unflushed ≡ self.old.facts.unflushed) }
        ensures room { (r : MediumFact) → IsLowest (facts_in self.old.facts) (is_within elided.now) medium.0 r → length (cut_facts r to seq.0) ≤ self.old.facts.room → IsOk result }
        ensures room_left { (r : MediumFact) → IsLowest (facts_in self.old.facts) (is_within elided.now) medium.0 r → self.old.facts.room ≤ self.new.facts.room + length (cut_facts r to seq.0) }
        ensures patch_room { self.new.facts.patch_room ≡ self.old.facts.patch_room }
    {
        match self.lowest(medium, elided) {
            Some(range) => self.put_cut(&range, u64::from(to), seq),
            None => unreachable!(),
        }
    }

    /// Takes in that a range begins at `to`, or is gone where it ends there.
    fn put_cut(&mut self, range: &Range, to: u64, seq: Seq) -> Result<(), NoMemory>
        requires order { range.now.start < to }
        requires within { to ≤ range.now.end }
        requires fits { range.now.target_start + (to - range.now.start) < 2 ^ 64 }
        requires newest { All (λ f. number f < seq.0) (facts_in self.old.facts) }
        requires number { seq.0 + 1 < 2 ^ 64 }
        ensures says { OnOk result ((elided : ℕ → Bool) (k : ℕ) → elided range.now.medium.0 ≡ false
            → said (facts_in self.new.facts) elided k ≡ after_cut range.now to seq.0 (said (facts_in self.old.facts) elided) k) }
        ensures facts { OnOk result ((f : MediumFact) → Contains self.new.facts.unflushed f ↔ (Contains self.old.facts.unflushed f ⊎ Contains (cut_facts range.now to seq.0) f)) }
        ensures patches { self.new.facts.patches ≡ self.old.facts.patches }
        ensures refused { OnErr result (self.new.facts.unflushed ≡ self.old.facts.unflushed) }
        ensures room { length (cut_facts range.now to seq.0) ≤ self.old.facts.room → IsOk result }
        ensures room_left { self.old.facts.room ≤ self.new.facts.room + length (cut_facts range.now to seq.0) }
        ensures patch_room { self.new.facts.patch_room ≡ self.old.facts.patch_room }
    {
        let empty = emptied(range, seq);
        if to == range.end {
            self.put_run(&[empty])
        } else {
            let rest = rest_of(range, to, Seq(seq.0 + 1));
            self.put_run(&[empty, rest])
        }
    }
}
