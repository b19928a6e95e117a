// What was looked up of addresses.
ghost use Rattle.std.specs.Prelude.{◌≡◌, ◌↔◌, ℕ, ◌+◌, ◌-◌, ◌<◌, ◌≤◌, ◌^◌, IsTrue};
ghost use Rattle.pur_base.specs.declared.limits.TheConstants.{REQUEST_SECTORS};
ghost use Rattle.array_memory.specs.Saying.{HasBehind, IsBehind};

use pur_base::{AddressFact, MediumId, REQUEST_SECTORS};
use table_plan::{Witness, stands_in, witness_of};

/// What the addresses say of sectors of a medium that lie one behind another.
#[derive(Drop)]
pub struct SaidRun {
    pub medium: MediumId,
    pub first: u32,
    pub count: usize,
    pub said: [Option<AddressFact>; REQUEST_SECTORS],
}

impl SaidRun {
    ghost use Rattle.std.specs.Prelude.{ℕ, ◌-◌, Bool, List, None, slice_index_or};
    ghost use Rattle.std.specs.Option.{is_some};
    ghost use Rattle.pur_base.specs.declared.facts.AddressFact.{AddressFact};
    ghost use Rattle.array_memory.specs.Named.{names_at};
    ghost use Rattle.array_memory.specs.Saying.{AreSaid, HasSector};

    /// Of no sector.
    pub const NOTHING: SaidRun = SaidRun {
        medium: MediumId(0),
        first: 0,
        count: 0,
        said: [None; REQUEST_SECTORS],
    };

    /// Whether the fact's sector is one of these.
    pub fn has(&self, fact: &AddressFact) -> bool
        ensures { IsTrue result ↔ HasSector self.now fact.now.medium.0 fact.now.sector }
    {
        fact.medium == self.medium
            && fact.sector >= self.first
            && ((fact.sector - self.first) as usize) < self.count
    }

    /// What is said of a sector, or `None` behind these.
    fn at(&self, sector: u32) -> Option<AddressFact>
        requires { self.now.first ≤ sector }
        ensures { result ≡ slice_index_or self.now.said (sector - self.now.first) None }
    {
        match self.said.get((sector - self.first) as usize) {
            Some(said) => *said,
            None => None,
        }
    }

    /// The address of a fact whose sector is one of these, if it names a sector of the segment.
    pub fn witness(&self, fact: &AddressFact, segment: u64) -> Option<Witness>
        requires { HasSector self.now fact.now.medium.0 fact.now.sector }
        ensures { (addresses : List AddressFact) (hidden : ℕ → Bool) → AreSaid addresses hidden self.now
            → is_some result ≡ names_at addresses hidden segment fact.now.medium.0 fact.now.sector }
    {
        match self.at(fact.sector) {
            Some(newest) if stands_in(&newest.target, segment) => Some(witness_of(fact)),
            _ => None,
        }
    }
}

// Whether a fact is of the sector so many behind the one that follows the first.
fn follows(medium: MediumId, first: u32, n: usize, fact: &AddressFact) -> bool
    requires { n < REQUEST_SECTORS }
    ensures fits { IsTrue result → first + n + 1 < 2 ^ 32 }
    ensures behind { IsTrue result ↔ IsBehind medium.0 first n fact.now }
{
    fact.medium == medium && u64::from(fact.sector) == u64::from(first) + n as u64 + 1
}

/// How many sectors of a medium lie one behind another, from one on, of which the facts behind that of the first are, one after another: at most as many as a request asks for.
pub fn run_length(medium: MediumId, first: u32, behind: &[AddressFact]) -> usize
    ensures some { 1 ≤ result }
    ensures few { result ≤ REQUEST_SECTORS }
    ensures fits { first + result ≤ 2 ^ 32 }
    ensures follow { (j : ℕ) → j + 1 < result → HasBehind medium.0 first behind.now j }
    ensures longest { result < REQUEST_SECTORS → HasBehind medium.0 first behind.now (result - 1) → ⊥ }
{
    let most = behind.len().min(REQUEST_SECTORS - 1);
    for n in 0..most {
        if !follows(medium, first, n, &behind[n]) {
            return n + 1;
        }
    }
    most + 1
}
