// The slots of the log on one NVRAM device.
ghost use Rattle.std.specs.Prelude.{◌≡◌, ◌<◌, ℕ, List, IsTrue, IfOk, IfErr, length, slice_index, slice_range, take};
ghost use Rattle.pur_base.specs.Bytes.{IsBytesOf};
ghost use Rattle.pur_base.specs.Devices.{nvram};
ghost use Rattle.pur_base.specs.Gates.{is_open};
ghost use Rattle.pur_base.specs.declared.device.Device.{Device};
ghost use Rattle.pur_base.specs.declared.limits.TheConstants.{NVRAM_BYTES, NVRAM_DEVICES, SECTOR_BYTES};
ghost use Rattle.log_codec.specs.declared.limits.TheConstants.{LOG_SLOTS};
ghost use Rattle.log_codec.specs.Log.{slot_at};
ghost use Rattle.world.specs.Counts.{Rises};
ghost use Rattle.world.specs.Ran.{Only, Ran};
ghost use Rattle.world.specs.Shelf.{IsSame};
ghost use Rattle.nvram_log.specs.Read.{OnNothing};
ghost use Rattle.shelf_look.specs.Slots.{AreShown, IsShownAt};

use log_codec::{LOG_SLOTS, SLOT_BYTES, SLOTS_START, read_head};
use pur_base::{Device, NvId, SECTOR_BYTES, Sector};
use world::{Failed, Shelf};

/// The gate of a slot that counts.
const OPEN: u8 = 1;

/// In which slots of the log a device shows a command behind what is flushed.
#[derive(Clone, Copy)]
pub struct SlotsSeen {
    pub shown: [bool; LOG_SLOTS],
}

/// Whether a slot that begins so shows the command that belongs there, if its gate is open.
fn is_of_log(sector: &Sector, flushed: u64, slot: usize) -> bool
    requires { slot < LOG_SLOTS }
    ensures { (bytes : List ℕ) → IsBytesOf NVRAM_BYTES bytes → IsTrue (is_open slot bytes) → take SECTOR_BYTES (slot_at slot bytes) ≡ sector.now → IsShownAt bytes flushed slot result }
{
    match read_head(sector) {
        Ok(head) => head.number > flushed && head.number - flushed == 1 + slot as u64,
        Err(_) => false,
    }
}

/// Whether a device shows in a slot with this gate the command that belongs there.
fn shows<S: Shelf>(
    shelf: &mut S,
    device: NvId,
    gate: u8,
    flushed: u64,
    slot: usize,
) -> Result<bool, Failed>
    requires device { device.0 < NVRAM_DEVICES }
    requires slot { slot < LOG_SLOTS }
    ensures same { (S.shelf shelf.old).honest → (d : Device) → IsSame ((S.shelf shelf.old).disk d) ((S.shelf shelf.new).disk d) }
    ensures ran { Ran S.shelf S.shelf_rest (Only (nvram device.0)) OnNothing shelf.old shelf.new }
    ensures shown { (S.shelf shelf.old).honest → slice_index ((S.shelf shelf.old).disk (nvram device.0)).bytes slot ≡ gate
        → IfOk result (IsShownAt ((S.shelf shelf.old).disk (nvram device.0)).bytes flushed slot) }
    ensures failed { IfErr result (λ _. Rises ((S.shelf shelf.old).disk (nvram device.0)).faults ((S.shelf shelf.new).disk (nvram device.0)).faults) }
{
    if gate == OPEN {
        let mut bytes = [0; SECTOR_BYTES];
        let at = SLOTS_START + SLOT_BYTES * slot as u64;
        shelf.read(Device::Nv(device), at, &mut bytes)?;
        Ok(is_of_log(&Sector::new(bytes), flushed, slot))
    } else {
        Ok(false)
    }
}

/// In which slots a device with these gates shows commands behind what is flushed. Of a slot under a closed gate nothing is read.
fn slots_under<S: Shelf>(
    shelf: &mut S,
    device: NvId,
    gates: &[u8; LOG_SLOTS],
    flushed: u64,
) -> Result<SlotsSeen, Failed>
    requires { device.0 < NVRAM_DEVICES }
    ensures same { (S.shelf shelf.old).honest → (d : Device) → IsSame ((S.shelf shelf.old).disk d) ((S.shelf shelf.new).disk d) }
    ensures ran { Ran S.shelf S.shelf_rest (Only (nvram device.0)) OnNothing shelf.old shelf.new }
    ensures shown { (S.shelf shelf.old).honest → gates.now ≡ slice_range ((S.shelf shelf.old).disk (nvram device.0)).bytes 0 LOG_SLOTS
        → IfOk result (λ s. AreShown ((S.shelf shelf.old).disk (nvram device.0)).bytes flushed s.shown) }
    ensures failed { IfErr result (λ _. Rises ((S.shelf shelf.old).disk (nvram device.0)).faults ((S.shelf shelf.new).disk (nvram device.0)).faults) }
{
    let mut shown = [false; LOG_SLOTS];
    for slot in 0..LOG_SLOTS {
        shown[slot] = shows(shelf, device, gates[slot], flushed, slot)?;
    }
    Ok(SlotsSeen { shown })
}

/// In which slots a device shows commands behind what is flushed. Its gates are read, and the first sectors of the slots whose gates are open.
pub fn read_slots<S: Shelf>(shelf: &mut S, device: NvId, flushed: u64) -> Result<SlotsSeen, Failed>
    requires { device.0 < NVRAM_DEVICES }
    ensures same { (S.shelf shelf.old).honest → (d : Device) → IsSame ((S.shelf shelf.old).disk d) ((S.shelf shelf.new).disk d) }
    ensures ran { Ran S.shelf S.shelf_rest (Only (nvram device.0)) OnNothing shelf.old shelf.new }
    ensures shown { (S.shelf shelf.old).honest → IfOk result (λ s. AreShown ((S.shelf shelf.old).disk (nvram device.0)).bytes flushed s.shown) }
    ensures failed { IfErr result (λ _. Rises ((S.shelf shelf.old).disk (nvram device.0)).faults ((S.shelf shelf.new).disk (nvram device.0)).faults) }
{
    let mut gates = [0; LOG_SLOTS];
    shelf.read(Device::Nv(device), 0, &mut gates)?;
    slots_under(shelf, device, &gates, flushed)
}
