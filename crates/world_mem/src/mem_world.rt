// All that is outside, in memory.
ghost use Rattle.std.specs.Prelude.{◌≡◌, ◌<◌, ◌≤◌, ◌*◌, ℕ, length};
ghost use Rattle.pur_base.specs.declared.limits.TheConstants.{UNIT_BYTES, NVRAM_BYTES, NVRAM_DEVICES, SLOTS_MIN, SLOTS_MAX, UNITS_MIN, UNITS_MAX};
ghost use Rattle.world_mem.specs.Parts.{bytes_at};

use crate::part::Part;
use crate::record::Call;
use crate::turns::Turns;
use std::alloc::Global;

/// A shelf, an input and an output in memory. It tells all that it holds.
pub struct MemWorld {
    pub(crate) alloc: Global,
    pub(crate) drives: Vec<Part>,
    pub(crate) nvram: Vec<Part>,
    pub(crate) units: u16,
    pub(crate) input: Vec<u8>,
    pub(crate) taken: usize,
    pub(crate) takes: Turns,
    pub(crate) source_faults: u64,
    pub(crate) output: Vec<u8>,
    pub(crate) gives: Turns,
    pub(crate) sink_faults: u64,
    pub(crate) piece: usize,
    pub(crate) calls: Vec<Call>,
    pub(crate) starved: bool,
    ghost drives_in: { (SLOTS_MIN ≤ length drives.items) × (length drives.items ≤ SLOTS_MAX) },
    ghost units_in: { (UNITS_MIN ≤ units) × (units ≤ UNITS_MAX) },
    ghost taken_in: { taken ≤ length input.items },
    ghost piece_in: { 0 < piece },
    ghost nvram_two: { length nvram.items ≡ NVRAM_DEVICES },
    ghost drive_sizes: { (k : ℕ) → k < length drives.items → length (bytes_at drives.items k) ≡ UNIT_BYTES * units },
    ghost nvram_sizes: { (k : ℕ) → k < NVRAM_DEVICES → length (bytes_at nvram.items k) ≡ NVRAM_BYTES },
}

// It has a drop of its own, and none that is derived: where a test ends early that is one call, and not one of each list.
impl Drop for MemWorld {
    fn drop(self) {
        let MemWorld {
            alloc: _,
            drives: _,
            nvram: _,
            units: _,
            input: _,
            taken: _,
            takes: _,
            source_faults: _,
            output: _,
            gives: _,
            sink_faults: _,
            piece: _,
            calls: _,
            starved: _,
        } = self;
    }
}
