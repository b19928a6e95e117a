ghost use Rattle.std.specs.Prelude.{◌≡◌, ℕ, ◌+◌, ◌<◌, ◌≤◌, length, slice_index_or};
ghost use Rattle.pur_base.specs.Mediums.{Reads};
ghost use Rattle.memory_spec.specs.Memory.{IsSound};
ghost use Rattle.memory_spec.specs.Tables.{facts};

use crate::memory::Memory;
use pur_base::{MediumId, OBJECT_SECTORS, REQUEST_SECTORS, Target};

impl Memory {
    /// What as many sectors of a medium as there are places read as, from the first one on, through mediums that are reached by ranges:
    /// one search of addresses a medium on the way, and one step a range. It takes no memory.
    pub fn resolve(&self, medium: MediumId, first: u32, out: &mut [Target])
        requires sound { IsSound self.now.memory }
        requires few { length out.old ≤ REQUEST_SECTORS }
        requires sectors { first + length out.old ≤ OBJECT_SECTORS }
        ensures { (i : ℕ) → i < length out.new → Reads (facts self.now.memory.tables) medium.0 (first + i) (slice_index_or out.new i Target.Zero) }
    {
        chain_reads::translate(
            &self.mediums,
            &self.addresses,
            &self.elided,
            medium,
            first,
            out,
        );
    }
}
