// Keeps nothing: `read_record` of boot_codec under a C name, for the measurements of bench/records.
// Promises what it promises of the record, which is dropped.
#![tactic(auto)]

ghost use Rattle.std.specs.Prelude.{◌≡◌, ◌≢◌, ◌≤◌};
ghost use Rattle.boot_codec.specs.declared.record.BootRecord.{BootRecord};
ghost use Rattle.boot_codec.specs.Record.{IsBootRecord};
ghost use Rattle.boot_codec.specs.Spelling.{spelling};

use boot_codec::{RECORD_BYTES, ReadError, read_record};
use std::alloc::Global;

/// `boot_codec::read_record`: 0 where the bytes are a record of the shelf, 1 where they are none, and 2 where memory ran out.
#[unsafe(no_mangle)]
pub extern "C" fn boot_bench_read(
    alloc: Global,
    bytes: &[u8; RECORD_BYTES],
    slots: u8,
    units: u16,
) -> u8
    ensures record { result ≡ 0 → (r : BootRecord) × IsBootRecord r × (r.slots ≡ slots) × (r.units ≡ units) × (bytes.now ≡ spelling r) }
    ensures none { result ≡ 1 → (r : BootRecord) → IsBootRecord r → r.slots ≡ slots → r.units ≡ units → bytes.now ≢ spelling r }
    ensures most { result ≤ 2 }
{
    match read_record(alloc, bytes, slots, units) {
        Ok(_) => 0,
        Err(ReadError::Bad(_)) => 1,
        Err(ReadError::Memory(_)) => 2,
    }
}
