// What each NVRAM device shows by itself.
ghost use Rattle.std.specs.Prelude.{◌≡◌, ◌<◌};
ghost use Rattle.pur_base.specs.Devices.{nvram};
ghost use Rattle.pur_base.specs.declared.device.Device.{Device};
ghost use Rattle.pur_base.specs.declared.limits.TheConstants.{NVRAM_DEVICES};
ghost use Rattle.world.specs.Ran.{Only, Ran};
ghost use Rattle.world.specs.Shelf.{IsSame};
ghost use Rattle.nvram_log.specs.Members.{IsNvram};
ghost use Rattle.nvram_log.specs.Read.{OnNothing};
ghost use Rattle.shelf_look.specs.Sides.{AreSides, IsSide};

use crate::RecordSeen;
use crate::slots::{SlotsSeen, read_slots};
use boot_codec::NVRAM_FLAGS;
use pur_base::NvId;
use world::Shelf;

/// In which slots an NVRAM device shows commands, or `None` where it isn't named or a read of it fails.
fn read_side<S: Shelf>(
    shelf: &mut S,
    device: NvId,
    is_named: bool,
    flushed: u64,
) -> Option<SlotsSeen>
    requires { device.0 < NVRAM_DEVICES }
    ensures same { (S.shelf shelf.old).honest → (d : Device) → IsSame ((S.shelf shelf.old).disk d) ((S.shelf shelf.new).disk d) }
    ensures ran { Ran S.shelf S.shelf_rest (Only (nvram device.0)) OnNothing shelf.old shelf.new }
    ensures side { (S.shelf shelf.old).honest → IsSide ((S.shelf shelf.old).disk (nvram device.0)) ((S.shelf shelf.new).disk (nvram device.0)) is_named flushed result }
{
    if !is_named {
        return None;
    }
    match read_slots(shelf, device, flushed) {
        Ok(slots) => Some(slots),
        Err(_) => None,
    }
}

/// In which slots of the log each NVRAM device shows commands behind what the record's tables hold, or `None` where the record doesn't name it or a read of it fails.
pub fn read_sides<S: Shelf>(
    shelf: &mut S,
    seen: &Option<RecordSeen>,
) -> [Option<SlotsSeen>; NVRAM_FLAGS]
    ensures same { (S.shelf shelf.old).honest → (d : Device) → IsSame ((S.shelf shelf.old).disk d) ((S.shelf shelf.new).disk d) }
    ensures ran { Ran S.shelf S.shelf_rest IsNvram OnNothing shelf.old shelf.new }
    ensures sides { (S.shelf shelf.old).honest → AreSides (S.shelf shelf.old) (S.shelf shelf.new) seen.now result }
{
    let Some(record) = seen else {
        return [None; NVRAM_FLAGS];
    };
    let named = record.members.nvrams;
    let first = read_side(shelf, NvId(0), named[0], record.flushed);
    let second = read_side(shelf, NvId(1), named[1], record.flushed);
    [first, second]
}
