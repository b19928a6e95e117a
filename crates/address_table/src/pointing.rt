ghost use Rattle.std.specs.Prelude.{◌≡◌, ◌≢◌, ◌↔◌, ◌++◌, IsTrue, AllPairs, Contains, IfOk, filter};
ghost use Rattle.pur_base.specs.Facts.{address_key};
ghost use Rattle.pur_base.specs.Visible.{is_within};
ghost use Rattle.elision.specs.Ranges.{AreApart};
ghost use Rattle.pyramid.specs.Layers.{facts_in, facts_of};
ghost use Rattle.address_table.specs.Addresses.{is_current, is_pointing, stands_in, IsVisible};

use crate::table::AddressTable;
use pur_base::{AddressFact, Fact, NoMemory, SegmentId, Target};
use std::alloc::Global;

/// Whether a sector stands in the segment.
fn stands_in(target: Target, segment: SegmentId) -> bool
    ensures { result ≡ stands_in segment.0 target }
{
    match target {
        Target::Stored(location) => location.segment.0 == segment.0,
        Target::Zero => false,
    }
}

impl AddressTable {
    /// Whether what is said at the fact's key has its number.
    fn is_current(&self, fact: &AddressFact, elided: &[(u64, u64)]) -> bool
        requires { AreApart elided.now }
        ensures { result ≡ is_current (facts_in self.now.facts) (is_within elided.now) fact.now }
    {
        match self.facts.newest(fact.key(), elided) {
            Some(newest) => newest.seq.0 == fact.seq.0,
            None => false,
        }
    }

    /// Puts those of the facts behind the others that are visible and point to the segment.
    fn push_pointing(
        &self,
        facts: &[AddressFact],
        segment: SegmentId,
        elided: &[(u64, u64)],
        found: &mut Vec<AddressFact>,
    ) -> Result<(), NoMemory>
        requires { AreApart elided.now }
        ensures { IfOk result (λ _. found.new.items ≡ found.old.items ++ filter (is_pointing (facts_in self.now.facts) (is_within elided.now) segment.0) facts.now) }
    {
        for fact in facts {
            if stands_in(fact.target, segment) && self.is_current(fact, elided) {
                found.push(*fact)?;
            }
        }
        Ok(())
    }

    /// The same of all facts that are flushed.
    fn flushed_pointing(
        &self,
        alloc: Global,
        segment: SegmentId,
        elided: &[(u64, u64)],
    ) -> Result<Vec<AddressFact>, NoMemory>
        requires { AreApart elided.now }
        ensures { IfOk result (λ v. v.items ≡ filter (is_pointing (facts_in self.now.facts) (is_within elided.now) segment.0) (facts_of self.now.facts.patches)) }
    {
        let mut found = Vec::new(alloc);
        for patch in self.facts.patches() {
            self.push_pointing(patch.facts(), segment, elided, &mut found)?;
        }
        Ok(found)
    }

    /// The visible facts that point to a segment, each once, in no order that is promised.
    /// There is no index by segment: each fact of the table is read, and looked up if it points there.
    pub fn pointing_to(
        &self,
        alloc: Global,
        segment: SegmentId,
        elided: &[(u64, u64)],
    ) -> Result<Vec<AddressFact>, NoMemory>
        requires { AreApart elided.now }
        ensures facts { IfOk result (λ v. (f : AddressFact) → Contains v.items f ↔ (IsVisible (facts_in self.now.facts) (is_within elided.now) f × IsTrue (stands_in segment.0 f.target))) }
        ensures once { IfOk result (λ v. AllPairs (λ f g. address_key f ≢ address_key g) v.items) }
    {
        self.facts.layers();
        let mut found = self.flushed_pointing(alloc, segment, elided)?;
        self.push_pointing(self.facts.unflushed(), segment, elided, &mut found)?;
        Ok(found)
    }
}
