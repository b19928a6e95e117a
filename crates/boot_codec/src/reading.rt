ghost use Rattle.std.specs.Prelude.{◌≡◌, length, IfOk, Ok};
ghost use Rattle.boot_codec.specs.declared.record.BootRecord.{BootRecord};
ghost use Rattle.boot_codec.specs.Record.{IsBootRecord};
ghost use Rattle.boot_codec.specs.Spelling.{spelling};
ghost use Rattle.boot_codec.specs.Reading.{Gives, read_record};

use crate::bad_record::ReadError;
use crate::header::{flushed_number, members, next_number, next_numbers, opening};
use crate::limits::RECORD_BYTES;
use crate::lists::lists;
use crate::padding::padding;
use crate::record::BootRecord;
use std::alloc::Global;

/// What reading gives, fault and all.
#[tactic(auto, unfolding(crate::specs::Reading::read_record, crate::specs::Reading::boot_record))]
fn whole(alloc: Global, bytes: &[u8], slots: u8, units: u16) -> Result<BootRecord, ReadError>
    ensures { Gives (λ r. r) result (read_record slots units bytes.now) }
{
    let rest = opening(bytes, slots, units)?;
    let (generation, rest) = next_number(rest)?;
    let (members, rest) = members(rest, slots)?;
    let (next, rest) = next_numbers(rest)?;
    let (flushed, rest) = flushed_number(rest)?;
    let (patches, rest) = lists(alloc, rest, slots, units)?;
    padding(rest)?;
    Ok(BootRecord {
        slots,
        units,
        generation,
        members,
        next,
        flushed,
        patches,
    })
}

/// The record that the bytes spell on a shelf of so many slots and units.
/// A fault is the first field, from the front, that fails.
pub fn read_record(
    alloc: Global,
    bytes: &[u8],
    slots: u8,
    units: u16,
) -> Result<BootRecord, ReadError>
    requires { length bytes.now ≡ RECORD_BYTES }
    // What is read is lawful, of this shelf, and spelled so.
    ensures lawful { IfOk result (λ r. IsBootRecord r) }
    ensures shelf { IfOk result (λ r. (r.slots ≡ slots) × (r.units ≡ units)) }
    ensures spelled { IfOk result (λ r. bytes.now ≡ spelling r) }
    // What a lawful record of this shelf spells is read as that record, unless memory runs out.
    ensures only { (r : BootRecord) → IsBootRecord r → r.slots ≡ slots → r.units ≡ units → bytes.now ≡ spelling r → Gives (λ x. x) result (Ok r) }
    // Which fault it is.
    ensures exact { Gives (λ r. r) result (read_record slots units bytes.now) }
{
    whole(alloc, bytes, slots, units)
}
