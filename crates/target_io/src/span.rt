ghost use Rattle.std.specs.Prelude.{◌≡◌, ◌*◌, ◌≤◌, None, Some, length, IfErr, OnOk};
ghost use Rattle.pur_base.specs.Grammar.{sectors_in};
ghost use Rattle.pur_base.specs.declared.limits.TheConstants.{REQUEST_SECTORS, SECTOR_BYTES};
ghost use Rattle.pur_base.specs.Devices.{View};
ghost use Rattle.pur_base.specs.Plain.{first_cause, read_causes, sectors_of, span, Array};
ghost use Rattle.memory_spec.specs.Memory.{Contents, IsSound, ReadsAs};
ghost use Rattle.memory_spec.specs.Tables.{facts};
ghost use Rattle.memory_spec.specs.Contents.{ContentsStand};
ghost use Rattle.volume_ops.specs.OfArray.{OfArray};
ghost use Rattle.target_io.specs.Reading.{AreReadable, ReadsOnly, ShowsDrives, LosesThree};
ghost use Rattle.target_io.specs.Targets.{IfRefused, IfLost};

use crate::fault::ReadFault;
use crate::room::ReadRoom;
use crate::targets::read_targets;
use array_memory::Memory;
use pur_base::{Name, REQUEST_SECTORS, SECTOR_BYTES, Target};
use volume_ops::read;
use world::Shelf;

/// Reads so many sectors of an object from `lba` on, their bytes one behind another, or says why not. Which drives are missing is given by slot.
/// Sectors that stand one behind another in a segment are read in one run, straight into their places: one call for each shard that it touches. It takes no memory.
/// After a fault any bytes may stand in the places.
pub fn read_span<S: Shelf>(
    memory: &Memory,
    name: &Name,
    lba: u64,
    count: u8,
    missing: &[bool],
    room: &mut ReadRoom,
    out: &mut [u8],
    shelf: &mut S,
) -> Result<(), ReadFault>
    requires sound { IsSound memory.now.memory }
    requires places { AreReadable (S.shelf shelf.old) (facts memory.now.memory.tables) }
    requires few { count ≤ REQUEST_SECTORS }
    requires size { length out.old ≡ SECTOR_BYTES * count }
    ensures reads { ReadsOnly (S.shelf shelf.old) (S.shelf shelf.new) }
    ensures rest { S.shelf_rest shelf.old shelf.new }
    ensures size { length out.new ≡ length out.old }

    // What the plain array refuses is refused for its cause, and then no device is called and nothing changes.
    ensures accepted { OnOk result (OfArray memory.now.memory (λ array. first_cause (read_causes array name.now lba count) ≡ None)) }
    ensures refused { IfErr result (λ fault. IfRefused fault (λ why. OfArray memory.now.memory (λ array. first_cause (read_causes array name.now lba count) ≡ Some why))) }
    ensures unchanged { IfErr result (λ fault. IfRefused fault (λ _why. (shelf.new ≡ shelf.old) × (out.new ≡ out.old))) }

    // The sectors are those of each array that memory reads as, where those of segments stand in a view that shows the drives that aren't missing.
    ensures sectors { (S.shelf shelf.old).honest → OnOk result ((contents : Contents) (array : Array) (view : View) → ReadsAs contents memory.now.memory array
        → ShowsDrives (S.shelf shelf.old) missing.now view → ContentsStand contents view (facts memory.now.memory.tables) → sectors_in count out.new ≡ span lba count (sectors_of array name.now)) }
    // `Lost` comes only of a read that the plain array accepts.
    ensures accepted_where_lost { IfErr result (λ fault. IfLost fault (OfArray memory.now.memory (λ array. first_cause (read_causes array name.now lba count) ≡ None))) }
    // Of a segment three drives are each missing or failed.
    ensures lost { IfErr result (λ fault. IfLost fault (LosesThree (S.shelf shelf.old) (S.shelf shelf.new) (facts memory.now.memory.tables) missing.now)) }
{
    let mut targets = [Target::Zero; REQUEST_SECTORS];
    let targets = &mut targets[..count as usize];
    if let Err(why) = read(memory, name, lba, targets) {
        return Err(ReadFault::Refused(why));
    }
    match read_targets(memory, targets, missing, &mut room.shards, out, shelf) {
        Ok(()) => Ok(()),
        Err(_lost) => Err(ReadFault::Lost),
    }
}
