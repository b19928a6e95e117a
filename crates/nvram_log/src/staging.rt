// A record as it stands in its slot.
ghost use Rattle.std.specs.Prelude.{◌≡◌, ◌*◌, ◌≤◌, ◌++◌, length, drop};
ghost use Rattle.std.specs.List.{AllByRecursion, concat};
ghost use Rattle.pur_base.specs.Bytes.{IsBytesOf};
ghost use Rattle.log_codec.specs.declared.limits.TheConstants.{SLOT_BYTES};
ghost use Rattle.log_codec.specs.Log.{Spells};
ghost use Rattle.nvram_log.specs.Records.{IsRecord, command_of};
ghost use Rattle.pur_base.specs.declared.limits.TheConstants.{SECTOR_BYTES};

use crate::Record;
use log_codec::{Head, write_head};
use pur_base::{SECTOR_BYTES, Sector};

// Copies the sectors, one behind another.
fn put_sectors(into: &mut [u8], sectors: &[Sector])
    requires { SECTOR_BYTES * length sectors.now ≤ length into.old }
    ensures bytes { into.new ≡ concat sectors.now ++ drop (SECTOR_BYTES * length sectors.now) into.old }
    ensures sectors { AllByRecursion (IsBytesOf SECTOR_BYTES) sectors.now }
{
    for (i, sector) in sectors.iter().enumerate() {
        let at = SECTOR_BYTES * i;
        into[at..at + SECTOR_BYTES].copy_from_slice(sector.as_bytes());
    }
}

/// Puts a record into its slot: its head, and its sectors behind it.
pub fn stage(slot: &mut [u8], number: u64, logged: &Record)
    requires size { length slot.old ≡ SLOT_BYTES }
    requires lawful { IsRecord logged.now }
    ensures { Spells slot.new number (command_of logged.now) }
{
    let command = *logged.request;
    let head = write_head(&Head { number, command });
    let (front, behind) = slot.split_at_mut(SECTOR_BYTES);
    front.copy_from_slice(head.as_bytes());
    put_sectors(behind, logged.sectors);
}
