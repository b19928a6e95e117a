ghost use Rattle.std.specs.Prelude.{◌≡◌, ◌⊎◌, ◌↔◌, ℕ, ◌+◌, ◌<◌, ◌≤◌, ◌^◌, Bool, nat_lt, [], ◌∷◌, filter, length, slice_index_or, All, Contains, None, IfNone, IfOk, IfSome, IsOk, OnOk, OnErr};
ghost use Rattle.std.specs.Option.{option_or};
ghost use Rattle.pur_base.specs.Facts.{address_key};
ghost use Rattle.pur_base.specs.Says.{Ascends};
ghost use Rattle.pur_base.specs.Visible.{is_within};
ghost use Rattle.elision.specs.Ranges.{AreApart};
ghost use Rattle.pyramid.specs.Layers.{facts_in, AreBelow};
ghost use Rattle.address_table.specs.Addresses.{number, target_of, visible, IsVisibleRun, NoneHasVisibleRun};

use elision::is_within;
use pur_base::{AddressFact, MediumId, NoMemory, Seq, Target};
use pyramid::{Pyramid, key_of};
use std::alloc::Global;

/// For how many unflushed facts room is reserved: 64 for each of the 64 slots of the log, and 2,048 for what works in the background.
pub const UNFLUSHED_ADDRESSES: usize = 6_144;

/// The facts of addresses. They are flushed, merged and rewritten as those of any table.
/// Calls take the ranges of mediums that are elided in it.
#[derive(Drop)]
pub struct AddressTable {
    pub facts: Pyramid<AddressFact>,
}

/// Empties each place.
fn empty_all(out: &mut [Option<AddressFact>])
    ensures { (i : ℕ) → i < length out.new → slice_index_or out.new i None ≡ None }
{
    for place in out.iter_mut() {
        *place = None;
    }
}

impl AddressTable {
    /// No facts, and room for 6,144 unflushed ones.
    pub fn new(alloc: Global) -> Result<AddressTable, NoMemory>
        ensures { IfOk result (λ t. (t.facts.patches ≡ []) × (t.facts.unflushed ≡ []) × (t.facts.room ≡ UNFLUSHED_ADDRESSES)) }
    {
        let facts = Pyramid::new(alloc, UNFLUSHED_ADDRESSES)?;
        Ok(AddressTable { facts })
    }

    /// The table of these facts, as of patches that were loaded. It takes no memory.
    pub fn from_facts(facts: Pyramid<AddressFact>) -> AddressTable
        ensures { result.facts ≡ facts }
    {
        AddressTable { facts }
    }

    /// Reserves room for so many more unflushed facts. Nothing else changes, whatever is answered.
    pub fn reserve_facts(&mut self, additional: usize) -> Result<(), NoMemory>
        ensures room { OnOk result (additional ≤ self.new.facts.room) }
        ensures room_left { self.old.facts.room ≤ self.new.facts.room }
        ensures rest { self.new.facts ≡ record self.old.facts { room = self.new.facts.room } }
    {
        self.facts.reserve(additional)
    }

    /// Where a sector of a medium stands, or `None` where the medium itself doesn't say it. It takes no memory.
    pub fn at(&self, medium: MediumId, sector: u32, elided: &[(u64, u64)]) -> Option<Target>
        requires { AreApart elided.now }
        ensures { result ≡ target_of (facts_in self.now.facts) (is_within elided.now) medium.0 sector }
    {
        match self
            .facts
            .newest(key_of(medium.0, u64::from(sector)), elided)
        {
            Some(fact) => Some(fact.target),
            None => None,
        }
    }

    /// The visible facts of as many sectors of a medium as there are places, from the first one on:
    /// one search a patch, and a walk. It takes no memory.
    pub fn span(
        &self,
        medium: MediumId,
        first: u32,
        elided: &[(u64, u64)],
        out: &mut [Option<AddressFact>],
    )
        requires apart { AreApart elided.now }
        requires sectors { first + length out.old ≤ 2 ^ 32 }
        ensures { (i : ℕ) → i < length out.new → slice_index_or out.new i None ≡ visible (facts_in self.now.facts) (is_within elided.now) medium.0 (first + i) }
    {
        if is_within(elided, medium.0) {
            empty_all(out);
        } else {
            self.facts
                .newest_from(key_of(medium.0, u64::from(first)), out);
        }
    }

    /// The visible facts of so many sectors of a medium, from the first one on, as they lie in one patch: a search a patch.
    /// `None` where no patch has them all, and for no sector.
    pub fn run(
        &self,
        medium: MediumId,
        first: u32,
        len: usize,
        elided: &[(u64, u64)],
    ) -> Option<&[AddressFact]>
        requires apart { AreApart elided.now }
        requires sectors { first + len ≤ 2 ^ 32 }
        ensures some { IfSome result (λ run. IsVisibleRun (facts_in self.now.facts) (is_within elided.now) medium.0 first len run.now) }
        ensures none { IfNone result (0 < len → NoneHasVisibleRun self.now.facts (is_within elided.now) medium.0 first len) }
    {
        if is_within(elided, medium.0) {
            None
        } else {
            self.facts.run_from(key_of(medium.0, u64::from(first)), len)
        }
    }

    /// Takes in a fact that is newer than all others. It takes no memory where there is room, and an `Err` changes nothing.
    pub fn put(&mut self, fact: AddressFact) -> Result<(), NoMemory>
        requires { All (λ f. number f < fact.seq.0) (facts_in self.old.facts) }
        ensures says { OnOk result ((elided : ℕ → Bool) (medium sector : ℕ) → visible (facts_in self.new.facts) elided medium sector
            ≡ option_or (visible (fact ∷ []) elided medium sector) (visible (facts_in self.old.facts) elided medium sector)) }
        ensures facts { OnOk result ((f : AddressFact) → Contains self.new.facts.unflushed f ↔ (Contains self.old.facts.unflushed f ⊎ (f ≡ fact))) }
        ensures patches { self.new.facts.patches ≡ self.old.facts.patches }
        ensures refused { OnErr result (self.new.facts.unflushed ≡ self.old.facts.unflushed) }
        ensures room { 0 < self.old.facts.room → IsOk result }
        ensures room_left { self.old.facts.room ≤ self.new.facts.room + 1 }
        ensures patch_room { self.new.facts.patch_room ≡ self.old.facts.patch_room }
    {
        self.put_run(&[fact])
    }

    /// Takes in facts of ascending sectors that are newer than all others: the same as one by one, but each fact moves once.
    /// It takes no memory where there is room for them, and an `Err` changes nothing.
    pub fn put_run(&mut self, run: &[AddressFact]) -> Result<(), NoMemory>
        requires ascends { Ascends address_key run.now }
        requires newest { AreBelow number (facts_in self.old.facts) run.now }
        ensures says { OnOk result ((elided : ℕ → Bool) (medium sector : ℕ) → visible (facts_in self.new.facts) elided medium sector
            ≡ option_or (visible run.now elided medium sector) (visible (facts_in self.old.facts) elided medium sector)) }
        ensures facts { OnOk result ((f : AddressFact) → Contains self.new.facts.unflushed f ↔ (Contains self.old.facts.unflushed f ⊎ Contains run.now f)) }
        ensures patches { self.new.facts.patches ≡ self.old.facts.patches }
        ensures refused { OnErr result (self.new.facts.unflushed ≡ self.old.facts.unflushed) }
        ensures room { length run.now ≤ self.old.facts.room → IsOk result }
        ensures room_left { self.old.facts.room ≤ self.new.facts.room + length run.now }
        ensures patch_room { self.new.facts.patch_room ≡ self.old.facts.patch_room }
    {
        self.facts.insert_run(run)
    }

    /// Takes the unflushed facts out that have that number or a greater one. It takes no memory.
    pub fn take_back(&mut self, from: Seq)
        ensures patches { self.new.facts.patches ≡ self.old.facts.patches }
        ensures unflushed { self.new.facts.unflushed ≡ filter (λ f. nat_lt (number f) from.0) self.old.facts.unflushed }
        ensures room { self.old.facts.room ≤ self.new.facts.room }
        ensures patch_room { self.new.facts.patch_room ≡ self.old.facts.patch_room }
    {
        self.facts.take_back(from);
    }
}
