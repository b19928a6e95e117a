ghost use Rattle.std.specs.Prelude.{◌≡◌, ◌+◌, ◌<◌};
ghost use Rattle.fact_codec.specs.declared.limits.TheConstants.{NUMBER_LIMIT};
ghost use Rattle.memory_spec.specs.Memory.{Memory};
ghost use Rattle.array_memory.specs.Plan.{AreCounts, IsPlanFor};

use boot_codec::NextNumbers;
use elision::Elided;
use pur_base::{AddressFact, ElisionFact, MediumFact, ObjectFact, SegmentFact};
use pyramid::Patch;
use table_plan::{Witness, facts_of};

/// Which staged sectors a checkpoint places: those that a newest unflushed address names.
pub struct Placing {
    /// The indices of the sectors that are placed, ascending.
    pub order: Vec<u16>,
    /// For each staged sector whether it is placed.
    pub flags: Vec<bool>,
    /// Of each address the newest unflushed fact.
    pub newest: Option<Patch<AddressFact>>,
}

// Where one is dropped that is one call, and not one of each list.
impl Drop for Placing {
    fn drop(self) {
        let Placing {
            order: _,
            flags: _,
            newest: _,
        } = self;
    }
}

/// What a checkpoint elides: the mediums that no object reaches, and the data segments that no address names any more.
#[derive(Drop)]
pub struct Eliding {
    /// The ids of the mediums, ascending.
    pub mediums: Vec<u64>,
    /// The ids of the segments, ascending.
    pub segments: Vec<u64>,
    /// The elisions of each medium, of its ranges and of its addresses, and behind them one of each segment.
    pub facts: Vec<ElisionFact>,
    /// The elided ids of each table then.
    pub elided: Elided,
    /// For each data segment that was found to be named an address that names a sector of it. Unused segments that wait for another checkpoint have none.
    pub witnesses: Vec<Witness>,
}

/// What a checkpoint makes of memory: the elided mediums and segments, the new segments, the new patch of each table, and the next numbers.
#[derive(Drop)]
pub struct Plan {
    pub eliding: Eliding,
    pub placing: Placing,
    pub segments: Vec<SegmentFact>,
    pub objects: Option<Patch<ObjectFact>>,
    pub mediums: Option<Patch<MediumFact>>,
    pub addresses: Option<Patch<AddressFact>>,
    pub segment_facts: Option<Patch<SegmentFact>>,
    pub elisions: Option<Patch<ElisionFact>>,
    pub next: NextNumbers,
    /// The witnesses that are kept then: those of the segments that were looked at, and behind them one for each new segment.
    pub witnesses: Vec<Witness>,
}

/// How many facts the new patch of each table has, or 0 where there is none.
#[derive(Clone, Copy, PartialEq, Eq)]
pub struct Counts {
    pub objects: usize,
    pub mediums: usize,
    pub addresses: usize,
    pub segments: usize,
    pub elisions: usize,
}

impl Plan {
    /// How many facts the new patch of each table has: so many are written.
    pub fn counts(&self) -> Counts
        ensures { AreCounts self.now result }
    {
        Counts {
            objects: facts_of(&self.objects).len(),
            mediums: facts_of(&self.mediums).len(),
            addresses: facts_of(&self.addresses).len(),
            segments: facts_of(&self.segment_facts).len(),
            elisions: facts_of(&self.elisions).len(),
        }
    }

    /// Gives ids to so many segments of the new patches: the next one is behind them.
    pub fn number_patches(&mut self, count: usize)
        requires { self.old.next.patch_segment + count < NUMBER_LIMIT }
        ensures next { self.new.next ≡ record self.old.next { patch_segment = self.old.next.patch_segment + count } }
        ensures rest { self.new ≡ record self.old { next = self.new.next } }
        ensures plan { (m : Memory) → IsPlanFor m self.old → IsPlanFor m self.new }
    {
        self.next.patch_segment += count as u64;
    }
}
