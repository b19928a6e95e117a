// Gates and slots of one device, some of them.
ghost use Rattle.std.specs.Prelude.{◌≡◌, ℕ, ◌<◌, [], length, OnOk, slice_index};
ghost use Rattle.pur_base.specs.Devices.{nvram};
ghost use Rattle.pur_base.specs.declared.limits.TheConstants.{NVRAM_DEVICES};
ghost use Rattle.log_codec.specs.declared.limits.TheConstants.{LOG_SLOTS, SLOT_BYTES};
ghost use Rattle.log_codec.specs.Log.{slot_at};
ghost use Rattle.world.specs.Shelf.{WriteCounts};
ghost use Rattle.world.specs.Ran.{Only, Ran};
ghost use Rattle.world.specs.Writes.{OneRange};
ghost use Rattle.nvram_log.specs.Logged.{SpellsAs};
ghost use Rattle.nvram_log.specs.Records.{slot_place};
ghost use Rattle.nvram_log.specs.Settling.{OnGates, OnSlots, GatesAre, SlotsAre};

use crate::Logged;
use crate::log::SLOT;
use crate::seen::Flags;
use log_codec::{LOG_SLOTS, SLOTS_START};
use pur_base::{Device, NvId};
use world::{Failed, Shelf};

// Writes a slot's gate. It isn't synced.
fn write_gate<S: Shelf>(shelf: &mut S, device: NvId, slot: usize, gate: u8) -> Result<(), Failed>
    requires device { device.0 < NVRAM_DEVICES }
    requires slot { slot < LOG_SLOTS }
    ensures ran { Ran S.shelf S.shelf_rest (Only (nvram device.0)) (OneRange (nvram device.0) slot 1) shelf.old shelf.new }
    ensures written { (S.shelf shelf.old).honest → OnOk result (slice_index ((S.shelf shelf.new).disk (nvram device.0)).bytes slot ≡ gate) }
    ensures counts { WriteCounts result ((S.shelf shelf.old).disk (nvram device.0)) ((S.shelf shelf.new).disk (nvram device.0)) }
{
    shelf.write(Device::Nv(device), slot as u64, &[gate])
}

// Copies a record to its slot on the device. It isn't synced.
fn write_record<S: Shelf>(
    shelf: &mut S,
    device: NvId,
    logged: &Logged,
    slot: usize,
) -> Result<(), Failed>
    requires device { device.0 < NVRAM_DEVICES }
    requires slot { slot < LOG_SLOTS }
    ensures ran { Ran S.shelf S.shelf_rest (Only (nvram device.0)) (OneRange (nvram device.0) (slot_place slot) SLOT_BYTES) shelf.old shelf.new }
    ensures written { (S.shelf shelf.old).honest → OnOk result (SpellsAs (slot_at slot ((S.shelf shelf.new).disk (nvram device.0)).bytes) logged.now) }
    ensures counts { WriteCounts result ((S.shelf shelf.old).disk (nvram device.0)) ((S.shelf shelf.new).disk (nvram device.0)) }
{
    let at = SLOTS_START + (SLOT * slot) as u64;
    shelf.write(Device::Nv(device), at, &logged.bytes)
}

/// Writes the flagged gates, and syncs.
pub fn write_some_gates<S: Shelf>(
    shelf: &mut S,
    device: NvId,
    flags: &Flags,
    gate: u8,
) -> Result<(), Failed>
    requires device { device.0 < NVRAM_DEVICES }
    ensures ran { Ran S.shelf S.shelf_rest (Only (nvram device.0)) (OnGates (nvram device.0) flags.now) shelf.old shelf.new }
    ensures written { (S.shelf shelf.old).honest → OnOk result (GatesAre flags.now gate ((S.shelf shelf.new).disk (nvram device.0)).bytes) }
    ensures clean { (S.shelf shelf.old).honest → OnOk result (((S.shelf shelf.new).disk (nvram device.0)).dirty ≡ []) }
    ensures counts { WriteCounts result ((S.shelf shelf.old).disk (nvram device.0)) ((S.shelf shelf.new).disk (nvram device.0)) }
{
    for i in 0..LOG_SLOTS {
        if !flags[i] {
            continue;
        }
        write_gate(shelf, device, i, gate)?;
    }
    shelf.sync(Device::Nv(device))
}

/// Copies the records of the flagged slots to the device, and syncs.
pub fn write_some_slots<S: Shelf>(
    shelf: &mut S,
    device: NvId,
    flags: &Flags,
    records: &[Logged],
) -> Result<(), Failed>
    requires device { device.0 < NVRAM_DEVICES }
    ensures ran { Ran S.shelf S.shelf_rest (Only (nvram device.0)) (OnSlots (nvram device.0) flags.now) shelf.old shelf.new }
    ensures written { (S.shelf shelf.old).honest → OnOk result (SlotsAre flags.now records.now ((S.shelf shelf.new).disk (nvram device.0)).bytes) }
    ensures clean { (S.shelf shelf.old).honest → OnOk result (((S.shelf shelf.new).disk (nvram device.0)).dirty ≡ []) }
    ensures counts { WriteCounts result ((S.shelf shelf.old).disk (nvram device.0)) ((S.shelf shelf.new).disk (nvram device.0)) }
{
    for i in 0..records.len().min(LOG_SLOTS) {
        if !flags[i] {
            continue;
        }
        write_record(shelf, device, &records[i], i)?;
    }
    shelf.sync(Device::Nv(device))
}
