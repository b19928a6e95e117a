// The three calls on one device in memory, each of them recorded.
ghost use Rattle.std.specs.Prelude.{◌≡◌, ◌⊎◌, ◌+◌, ◌≤◌, [], ◌∷◌, ◌++◌, length, slice_range, true, false, OnOk};
ghost use Rattle.world.specs.Shelf.{WasWritten, WasSynced, IsSame, ReadCounts, WriteCounts};
ghost use Rattle.world.specs.Counts.{Rises};
ghost use Rattle.world_mem.specs.Called.{HasFailed, WasCalled};
ghost use Rattle.world_mem.specs.Parts.{disk_of};

use crate::part::Part;
use crate::record::{Call, What};
use pur_base::Device;
use std::alloc::Global;
use std::mem;
use world::Failed;

/// Records a call, and says whether there was memory for that.
pub(crate) fn record(calls: &mut Vec<Call>, starved: &mut bool, call: Call) -> bool
    ensures recorded { result ≡ true → (calls.new.items ≡ calls.old.items ++ call ∷ []) × (starved.new ≡ starved.old) }
    ensures gap { result ≡ false → (calls.new.items ≡ calls.old.items) × (starved.new ≡ true) }
{
    match calls.push(call) {
        Ok(()) => true,
        Err(_) => {
            *starved = true;
            false
        }
    }
}

/// Writes, with what stood there in the record. A write that fails leaves its range dirty, where memory is found for that.
pub(crate) fn write_part(
    alloc: Global,
    part: &mut Part,
    calls: &mut Vec<Call>,
    starved: &mut bool,
    device: Device,
    at: usize,
    from: &[u8],
) -> Result<(), Failed>
    requires { at + length from.now ≤ length part.old.bytes.items }
    ensures device { WasWritten result (starved.new ≡ true) at from.now (disk_of part.old) (disk_of part.new) }
    ensures counts { WriteCounts result (disk_of part.old) (disk_of part.new) }
    ensures called { WasCalled device result starved.old starved.new calls.old.items calls.new.items part.old part.new }
{
    if part.is_failing() {
        fail_write(part, calls, starved, device, at, from.len());
        return Err(Failed);
    }
    if calls.reserve(1).is_err() {
        *starved = true;
        part.count_write();
        return Err(Failed);
    }
    match part.put(alloc, at, from) {
        Ok(was) => match calls.push(Call::On(device, What::Write(at, was))) {
            Ok(()) => Ok(()),
            Err(_) => unreachable!(),
        },
        Err(_) => {
            *starved = true;
            part.count_write();
            Err(Failed)
        }
    }
}

fn fail_write(
    part: &mut Part,
    calls: &mut Vec<Call>,
    starved: &mut bool,
    device: Device,
    at: usize,
    size: usize,
)
    requires { at + size ≤ length part.old.bytes.items }
    ensures dirty { (part.new.dirty.items ≡ part.old.dirty.items ++ record { start = at; size = size } ∷ []) ⊎ ((starved.new ≡ true) × (part.new.dirty.items ≡ part.old.dirty.items)) }
    ensures write_rises { Rises part.old.write_faults part.new.write_faults }
    ensures failed { HasFailed device starved.old starved.new calls.old.items calls.new.items part.old part.new }
{
    let before = part.counts();
    part.count_write();
    if calls.reserve(1).is_err() || !part.mark(at, size) {
        *starved = true;
        return;
    }
    match calls.push(Call::On(device, What::FailedWrite(before))) {
        Ok(()) => {}
        Err(_) => unreachable!(),
    }
}

/// Syncs, with the ranges that were dirty in the record.
pub(crate) fn sync_part(
    alloc: Global,
    part: &mut Part,
    calls: &mut Vec<Call>,
    starved: &mut bool,
    device: Device,
) -> Result<(), Failed>
    ensures device { WasSynced result (disk_of part.old) (disk_of part.new) }
    ensures counts { WriteCounts result (disk_of part.old) (disk_of part.new) }
    ensures called { WasCalled device result starved.old starved.new calls.old.items calls.new.items part.old part.new }
{
    if part.is_failing() {
        fail_sync(part, calls, starved, device);
        return Err(Failed);
    }
    if calls.reserve(1).is_err() {
        *starved = true;
        part.count_write();
        return Err(Failed);
    }
    let dirty = mem::replace(&mut part.dirty, Vec::new(alloc));
    match calls.push(Call::On(device, What::Sync(dirty))) {
        Ok(()) => Ok(()),
        Err(_) => unreachable!(),
    }
}

fn fail_sync(part: &mut Part, calls: &mut Vec<Call>, starved: &mut bool, device: Device)
    ensures dirty { part.new.dirty.items ≡ part.old.dirty.items }
    ensures write_rises { Rises part.old.write_faults part.new.write_faults }
    ensures failed { HasFailed device starved.old starved.new calls.old.items calls.new.items part.old part.new }
{
    let before = part.counts();
    part.count_write();
    record(calls, starved, Call::On(device, What::FailedSync(before)));
}

/// Reads.
pub(crate) fn read_part(
    part: &mut Part,
    calls: &mut Vec<Call>,
    starved: &mut bool,
    device: Device,
    at: usize,
    into: &mut [u8],
) -> Result<(), Failed>
    requires { at + length into.old ≤ length part.old.bytes.items }
    ensures bytes { OnOk result (into.new ≡ slice_range part.old.bytes.items at (at + length into.old)) }
    ensures device { IsSame (disk_of part.old) (disk_of part.new) }
    ensures counts { ReadCounts result (disk_of part.old) (disk_of part.new) }
    ensures called { WasCalled device result starved.old starved.new calls.old.items calls.new.items part.old part.new }
{
    if part.is_failing() {
        fail_read(part, calls, starved, device);
        return Err(Failed);
    }
    if !record(calls, starved, Call::On(device, What::Read)) {
        part.count_read();
        return Err(Failed);
    }
    into.copy_from_slice(&part.bytes[at..at + into.len()]);
    Ok(())
}

fn fail_read(part: &mut Part, calls: &mut Vec<Call>, starved: &mut bool, device: Device)
    ensures dirty { part.new.dirty.items ≡ part.old.dirty.items }
    ensures write_stays { part.new.write_faults ≡ part.old.write_faults }
    ensures failed { HasFailed device starved.old starved.new calls.old.items calls.new.items part.old part.new }
{
    let before = part.counts();
    part.count_read();
    record(calls, starved, Call::On(device, What::FailedRead(before)));
}
