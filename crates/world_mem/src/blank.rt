// Devices of zero bytes.
ghost use Rattle.std.specs.Prelude.{◌≡◌, ◌<◌, ◌≤◌, ◌*◌, [], ℕ, length, slice_index, IfOk};
ghost use Rattle.world_mem.specs.Parts.{disk_of, disks_of, disk_at, bytes_at, plan_of, plans_of, plan_at, sound, IsBlank, IsNew};

use crate::MemWorld;
use crate::part::Part;
use crate::turns::Turns;
use pur_base::{NVRAM_BYTES, NVRAM_DEVICES, NoMemory, UNIT_BYTES};
use std::alloc::Global;

fn blank(alloc: Global, size: usize) -> Result<Part, NoMemory>
    ensures disk { IfOk result (λ part. IsNew size (disk_of part)) }
    ensures plan { IfOk result (λ part. plan_of part ≡ sound) }
{
    Ok(Part {
        bytes: vec![in alloc; 0; size]?,
        dirty: Vec::new(alloc),
        faults: 0,
        write_faults: 0,
        pulled: false,
        turns: Turns::new(alloc),
    })
}

fn blanks(alloc: Global, count: usize, size: usize) -> Result<Vec<Part>, NoMemory>
    ensures len { IfOk result (λ parts. length parts.items ≡ count) }
    ensures disks { IfOk result (λ parts. (k : ℕ) → k < count → IsNew size (disk_at (disks_of parts.items) k)) }
    ensures plans { IfOk result (λ parts. (k : ℕ) → plan_at (plans_of parts.items) k ≡ sound) }
{
    let mut parts = Vec::new(alloc);
    for _ in 0..count {
        parts.push(blank(alloc, size)?)?;
    }
    Ok(parts)
}

impl MemWorld {
    ghost use Rattle.std.specs.Prelude.{false};
    ghost use Rattle.pur_base.specs.declared.limits.TheConstants.{UNIT_BYTES, NVRAM_BYTES, NVRAM_DEVICES, SLOTS_MIN, SLOTS_MAX, UNITS_MIN, UNITS_MAX};
    ghost use Rattle.pur_base.specs.declared.device.Device.{Device};
    ghost use Rattle.world.specs.Shelf.{IsOf, size_of};
    ghost use Rattle.world_mem.specs.Past.{shelved, sourced, sunk, view, IsSound};

    /// A world of devices of zero bytes, with this input. No call is to fail.
    pub fn new(alloc: Global, drives: u8, units: u16, input: Vec<u8>) -> Result<MemWorld, NoMemory>
        requires drives { (SLOTS_MIN ≤ drives) × (drives ≤ SLOTS_MAX) }
        requires units { (UNITS_MIN ≤ units) × (units ≤ UNITS_MAX) }
        ensures shape { IfOk result (λ w. ((shelved w).drives ≡ drives) × ((shelved w).units ≡ units)) }
        ensures disks { IfOk result (λ w. (d : Device) → IsOf (shelved w) d → IsNew (size_of (shelved w) d) ((shelved w).disk d)) }
        ensures sound { IfOk result IsSound }
        ensures input { IfOk result (λ w. ((sourced w).bytes ≡ input.items) × ((sourced w).faults ≡ 0)) }
        ensures output { IfOk result (λ w. ((sunk w).bytes ≡ []) × ((sunk w).faults ≡ 0)) }
        ensures starts { IfOk result (λ w. ((shelved w).taken ≡ 0) × ((view w).calls ≡ []) × ((view w).starved ≡ false)) }
    {
        let drives = blanks(alloc, drives as usize, UNIT_BYTES * units as usize)?;
        let nvram = blanks(alloc, NVRAM_DEVICES as usize, NVRAM_BYTES)?;
        Ok(MemWorld::over(alloc, drives, nvram, units, input))
    }

    /// A world of these devices, with this input, of which no call was made yet.
    pub(crate) fn over(
        alloc: Global,
        drives: Vec<Part>,
        nvram: Vec<Part>,
        units: u16,
        input: Vec<u8>,
    ) -> MemWorld
        requires drives_in { (SLOTS_MIN ≤ length drives.items) × (length drives.items ≤ SLOTS_MAX) }
        requires units_in { (UNITS_MIN ≤ units) × (units ≤ UNITS_MAX) }
        requires nvram_two { length nvram.items ≡ NVRAM_DEVICES }
        requires drive_sizes { (k : ℕ) → k < length drives.items → length (bytes_at drives.items k) ≡ UNIT_BYTES * units }
        requires nvram_sizes { (k : ℕ) → k < NVRAM_DEVICES → length (bytes_at nvram.items k) ≡ NVRAM_BYTES }
        ensures view { view result ≡ record { now = record { drives = disks_of drives.items; nvram = disks_of nvram.items; output = []; taken = 0 }; units = units; calls = []; starved = false } }
        ensures input { (sourced result).bytes ≡ input.items }
        ensures faults { ((sourced result).faults ≡ 0) × ((sunk result).faults ≡ 0) }
        ensures sound { ((k : ℕ) → plan_at (plans_of drives.items) k ≡ sound) → ((k : ℕ) → plan_at (plans_of nvram.items) k ≡ sound) → IsSound result }
    {
        MemWorld {
            alloc,
            drives,
            nvram,
            units,
            input,
            taken: 0,
            takes: Turns::new(alloc),
            source_faults: 0,
            output: Vec::new(alloc),
            gives: Turns::new(alloc),
            sink_faults: 0,
            piece: usize::MAX,
            calls: Vec::new(alloc),
            starved: false,
        }
    }
}
