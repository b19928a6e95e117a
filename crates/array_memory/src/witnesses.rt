// Which visible data segments an address names, where the addresses of some mediums are elided: the witnesses are asked first, and the facts of addresses
// only for segments that have lost theirs.
ghost use Rattle.std.specs.Prelude.{◌≡◌, ℕ, ◌<◌, ◌||◌, true, length, map, slice_index, slice_index_or, AllPairs, IfOk, None};
ghost use Rattle.std.specs.List.{list_any};
ghost use Rattle.std.specs.Option.{is_some};
ghost use Rattle.pur_base.specs.Facts.{Facts, segment_key};
ghost use Rattle.pur_base.specs.Says.{Ascends};
ghost use Rattle.pyramid.specs.Layers.{facts_in};
ghost use Rattle.memory_spec.specs.Tables.{facts as all_facts};
ghost use Rattle.array_memory.specs.Eliding.{AreLowestUnused};
ghost use Rattle.array_memory.specs.Named.{is_hidden, is_named, names, names_at, unnamed, SayAddresses};
ghost use Rattle.array_memory.specs.Saying.{AreSaid, HasSector};

use crate::memory::Memory;
use crate::said::{SaidRun, run_length};
use command_spec::ELIDED_SEGMENTS;
use elision::Elided;
use pur_base::{AddressFact, MediumId, NoMemory, SegmentFact, Table, Target};
use pyramid::Patch;
use std::alloc::Global;
use table_plan::{Witness, place_in, place_of, stands_in, unfound, witness_of};

/// Which data segments no visible address names, and of the others an address each that does.
#[derive(Drop)]
pub struct Looked {
    pub ids: Vec<u64>,
    pub witnesses: Vec<Witness>,
}

/// In the place of a segment that has none: a hint as any other, that is found not to hold.
const NO_WITNESS: Witness = Witness {
    medium: MediumId(0),
    sector: 0,
};

/// Where the segment of an id stands by ascending id, if there is one: near the last place where that has it, as neighbouring addresses mostly name one segment.
fn place_near(segments: &[SegmentFact], id: u64, last: usize) -> usize
    requires { Ascends segment_key segments.now }
{
    match segments.get(last) {
        Some(segment) => if segment.segment.0 == id {
            return last;
        },
        None => {}
    }
    segments.partition_point(|segment| segment.segment.0 < id)
}

/// For each of these segments the last of the addresses that names it, or none that is.
pub fn witnesses_among(
    alloc: Global,
    segments: &[SegmentFact],
    visible: &[AddressFact],
) -> Result<Vec<Witness>, NoMemory>
    requires { Ascends segment_key segments.now }
{
    let mut witnesses = vec![in alloc; NO_WITNESS; segments.len()]?;
    let mut last = 0;
    for fact in visible {
        if let Target::Stored(at) = fact.target {
            last = place_near(segments, at.segment.0, last);
            if let Some(witness) = witnesses.get_mut(last) {
                *witness = witness_of(fact);
            }
        }
    }
    Ok(witnesses)
}

impl Memory {
    /// Whether the witness's address names a sector of the segment.
    fn names_at(&self, witness: Witness, segment: u64, elided: &Elided) -> bool
        ensures { result ≡ names_at (facts_in self.now.memory.tables.addresses) (is_hidden elided.now) segment witness.medium.0 witness.sector }
    {
        let hidden = elided.ranges(Table::Address);
        match self.addresses.at(witness.medium, witness.sector, hidden) {
            Some(target) => stands_in(&target, segment),
            None => false,
        }
    }

    /// Whether the witness at a place holds of the segment.
    fn is_witnessed(&self, place: usize, segment: u64, elided: &Elided) -> bool
        ensures { result ≡ true → is_named (facts_in self.now.memory.tables.addresses) (is_hidden elided.now) segment ≡ true }
    {
        match self.witnesses.get(place) {
            Some(witness) => self.names_at(*witness, segment, elided),
            None => false,
        }
    }

    /// The visible segments whose witness doesn't hold, by ascending id: no other is unnamed.
    fn lost(&self, alloc: Global, elided: &Elided) -> Result<Vec<u64>, NoMemory>
        ensures ascending { IfOk result (λ v. AllPairs (λ i j. i < j) v.items) }
        ensures unnamed { IfOk result (λ v. unnamed (facts_in self.now.memory.tables.addresses) (is_hidden elided.now) v.items
            ≡ unnamed (facts_in self.now.memory.tables.addresses) (is_hidden elided.now) (map (λ d. d.segment.0) self.now.segments)) }
    {
        let segments = self.segments.all();
        let mut ids = Vec::new(alloc);
        for (i, segment) in segments.iter().enumerate() {
            let id = segment.segment.0;
            if !self.is_witnessed(i, id, elided) {
                ids.push(id)?;
            }
        }
        Ok(ids)
    }

    /// Lets the run have what the addresses say of the fact's sector, by one search for it and the sectors that the facts behind it are of.
    fn say(&self, fact: &AddressFact, behind: &[AddressFact], elided: &Elided, said: &mut SaidRun)
        requires { AreSaid (facts_in self.now.memory.tables.addresses) (is_hidden elided.now) said.old }
        ensures said { AreSaid (facts_in self.now.memory.tables.addresses) (is_hidden elided.now) said.new }
        ensures has { HasSector said.new fact.now.medium.0 fact.now.sector }
    {
        if said.has(fact) {
            return;
        }
        let count = run_length(fact.medium, fact.sector, behind);
        said.medium = fact.medium;
        said.first = fact.sector;
        said.count = count;
        let hidden = elided.ranges(Table::Address);
        self.addresses
            .span(fact.medium, fact.sector, hidden, &mut said.said[..count]);
    }

    /// Puts the address of a fact in the place of the segment that it names, if that is one of these, has none yet, and the address names it still.
    /// `behind` are facts behind it, as they may be asked for next.
    fn find_by(
        &self,
        fact: &AddressFact,
        behind: &[AddressFact],
        elided: &Elided,
        ids: &[u64],
        found: &mut [Option<Witness>],
        said: &mut SaidRun,
    )
        requires ascending { AllPairs (λ i j. i < j) ids.now }
        requires len { length found.old ≡ length ids.now }
        requires said { AreSaid (facts_in self.now.memory.tables.addresses) (is_hidden elided.now) said.old }
        ensures said { AreSaid (facts_in self.now.memory.tables.addresses) (is_hidden elided.now) said.new }
        ensures found { (i : ℕ) → i < length ids.now → is_some (slice_index_or found.new i None)
            ≡ (is_some (slice_index_or found.old i None) || names (facts_in self.now.memory.tables.addresses) (is_hidden elided.now) (slice_index ids.now i) fact.now) }
    {
        if let Some(place) = place_in(&fact.target, ids) {
            if found[place].is_none() {
                self.say(fact, behind, elided, said);
                found[place] = said.witness(fact, ids[place]);
            }
        }
    }

    /// The same for each of these facts.
    fn find_among(
        &self,
        facts: &[AddressFact],
        elided: &Elided,
        ids: &[u64],
        found: &mut [Option<Witness>],
    )
        requires ascending { AllPairs (λ i j. i < j) ids.now }
        requires len { length found.old ≡ length ids.now }
        ensures { (i : ℕ) → i < length ids.now → is_some (slice_index_or found.new i None)
            ≡ (is_some (slice_index_or found.old i None) || list_any (names (facts_in self.now.memory.tables.addresses) (is_hidden elided.now) (slice_index ids.now i)) facts.now) }
    {
        let mut said = SaidRun::NOTHING;
        for (at, fact) in facts.iter().enumerate() {
            self.find_by(fact, &facts[at + 1..], elided, ids, found, &mut said);
        }
    }

    /// The same for each fact of a patch. One that points to none of the segments isn't read.
    fn find_in(
        &self,
        patch: &Patch<AddressFact>,
        elided: &Elided,
        ids: &[u64],
        found: &mut [Option<Witness>],
    )
        requires ascending { AllPairs (λ i j. i < j) ids.now }
        requires len { length found.old ≡ length ids.now }
        ensures { (i : ℕ) → i < length ids.now → is_some (slice_index_or found.new i None)
            ≡ (is_some (slice_index_or found.old i None) || list_any (names (facts_in self.now.memory.tables.addresses) (is_hidden elided.now) (slice_index ids.now i)) patch.now) }
    {
        if patch.may_point(ids) {
            self.find_among(patch.facts(), elided, ids, found);
        }
    }

    /// Of each of these segments an address that names a sector of it, or `None` where no visible address does: one pass over the patches that may point to one of them.
    fn find(
        &self,
        alloc: Global,
        elided: &Elided,
        ids: &[u64],
    ) -> Result<Vec<Option<Witness>>, NoMemory>
        requires { AllPairs (λ i j. i < j) ids.now }
        ensures len { IfOk result (λ v. length v.items ≡ length ids.now) }
        ensures found { IfOk result (λ v. (i : ℕ) → i < length ids.now → is_some (slice_index_or v.items i None) ≡ is_named (facts_in self.now.memory.tables.addresses) (is_hidden elided.now) (slice_index ids.now i)) }
    {
        let mut found = vec![in alloc; None; ids.len()]?;
        if ids.is_empty() {
            return Ok(found);
        }
        for patch in self.addresses.facts.patches() {
            self.find_in(patch, elided, ids, &mut found);
        }
        self.find_among(self.addresses.facts.unflushed(), elided, ids, &mut found);
        Ok(found)
    }

    /// The witnesses of the visible segments: those that hold, and those that were found for the others.
    fn renewed(
        &self,
        alloc: Global,
        lost: &[u64],
        found: &[Option<Witness>],
    ) -> Result<Vec<Witness>, NoMemory>
        requires ascending { AllPairs (λ i j. i < j) lost.now }
        requires len { length found.now ≡ length lost.now }
    {
        let segments = self.segments.all();
        let mut out = Vec::with_capacity(alloc, segments.len())?;
        for (i, segment) in segments.iter().enumerate() {
            let witness = match place_of(lost, segment.segment.0) {
                Some(place) => found[place],
                None => self.witnesses.get(i).copied(),
            };
            if let Some(witness) = witness {
                out.push(witness)?;
            }
        }
        Ok(out)
    }

    /// Looks for the segments of the lowest ids that are unused where these ids are elided. Where each segment's witness still holds there is none, and no fact is read but theirs.
    pub fn looked(&self, alloc: Global, elided: &Elided) -> Result<Looked, NoMemory>
        ensures { IfOk result (λ l. (now : Facts) → SayAddresses (facts_in self.now.memory.tables.addresses) (is_hidden elided.now) now → AreLowestUnused (all_facts self.now.memory.tables) now l.ids.items) }
    {
        self.kept();
        let lost = self.lost(alloc, elided)?;
        let found = self.find(alloc, elided, &lost)?;
        let mut ids = unfound(alloc, &lost, &found)?;
        ids.truncate(ELIDED_SEGMENTS);
        let witnesses = self.renewed(alloc, &lost, &found)?;
        Ok(Looked { ids, witnesses })
    }
}
