// The log is read from the devices.
ghost use Rattle.std.specs.Prelude.{◌≡◌, IfOk, IfErr};
ghost use Rattle.pur_base.specs.declared.device.Device.{Device};
ghost use Rattle.world.specs.Shelf.{IsSame};
ghost use Rattle.world.specs.Ran.{Ran};
ghost use Rattle.nvram_log.specs.Members.{DroppedCounted, IsFewer, IsSome, IsNvram};
ghost use Rattle.nvram_log.specs.Views.{AreNumbered, AreReadOf, IsLogOf, members_of};
ghost use Rattle.nvram_log.specs.Read.{OnNothing, OnlyReads};
ghost use Rattle.nvram_log.specs.declared.read.ReadFault.TheVariants as fault;

use crate::NvLog;
use crate::gather::gather;
use crate::log::{DEVICES, SLOT};
use crate::reading::{DeviceRead, read_device};
use crate::seen::seen_of;
use log_codec::LOG_SLOTS;
use pur_base::{NoMemory, NvId};
use std::alloc::Global;
use world::Shelf;

/// Why the log wasn't read.
#[derive(Clone, Copy, PartialEq, Eq)]
pub enum ReadFault {
    NoMemory,
    BothLost,
}

impl From<NoMemory> for ReadFault {
    ghost from_gives = { λ e r. r ≡ fault.NoMemory };

    fn from(_error: NoMemory) -> ReadFault {
        ReadFault::NoMemory
    }
}

/// What was read of both devices.
#[derive(Drop)]
pub struct Reads {
    pub first: DeviceRead,
    pub second: DeviceRead,
}

// Reads both devices, those that are members. Which are so still.
fn read_both<S: Shelf>(
    alloc: Global,
    shelf: &mut S,
    members: [bool; DEVICES],
    flushed: u64,
) -> Result<Reads, NoMemory>
    ensures reads { OnlyReads S.shelf S.shelf_rest shelf.old shelf.new }
    ensures fewer { IfOk result (λ reads. IsFewer members (members_of reads)) }
    ensures dropped { IfOk result (λ reads. DroppedCounted (S.shelf shelf.old) (S.shelf shelf.new) members (members_of reads)) }
    ensures read { IfOk result (AreReadOf (S.shelf shelf.old).honest (S.shelf shelf.new) flushed) }
{
    let first = read_device(alloc, shelf, NvId(0), members[0], flushed)?;
    let second = read_device(alloc, shelf, NvId(1), members[1], flushed)?;
    Ok(Reads { first, second })
}

// The log that was read.
fn log_of(alloc: Global, mut reads: Reads, flushed: u64) -> Result<NvLog, NoMemory>
    requires first { AreNumbered flushed reads.first.records.items }
    requires second { AreNumbered flushed reads.second.records.items }
    ensures log { IfOk result (IsLogOf reads flushed) }
{
    let slot = Vec::from_elem(alloc, 0, SLOT)?;
    let mut records = Vec::with_capacity(alloc, LOG_SLOTS)?;
    let seen = [seen_of(&reads.first), seen_of(&reads.second)];
    let count = gather(
        &mut records,
        &mut reads.first.records,
        &mut reads.second.records,
    );
    Ok(NvLog {
        members: [reads.first.is_member, reads.second.is_member],
        flushed,
        count,
        records,
        slot,
        seen,
    })
}

impl NvLog {
    ghost use Rattle.nvram_log.specs.Held.{shown_by};
    ghost use Rattle.nvram_log.specs.Read.{IsReadFrom, AllFailed};
    ghost use Rattle.nvram_log.specs.Settling.{AreAsSeen};

    /// Reads the log that the member devices show behind the flushed commands: of each device its gates, of each slot whose gate is open the head, and
    /// the sectors of those that show a command. A device that fails is dropped. It takes memory for what it reads, and for one slot.
    pub fn read<S: Shelf>(
        alloc: Global,
        shelf: &mut S,
        members: [bool; DEVICES],
        flushed: u64,
    ) -> Result<NvLog, ReadFault>
        ensures same { (S.shelf shelf.old).honest → (d : Device) → IsSame ((S.shelf shelf.old).disk d) ((S.shelf shelf.new).disk d) }
        ensures looks { (d : Device) → ((S.shelf shelf.new).disk d).write_faults ≡ ((S.shelf shelf.old).disk d).write_faults }
        ensures ran { Ran S.shelf S.shelf_rest IsNvram OnNothing shelf.old shelf.new }
        ensures flushed { IfOk result (λ log. log.flushed ≡ flushed) }
        ensures members { IfOk result (λ log. IsFewer members log.members × IsSome log.members) }
        ensures dropped { IfOk result (λ log. DroppedCounted (S.shelf shelf.old) (S.shelf shelf.new) members log.members) }
        ensures log { IfOk result (λ log. IsReadFrom (S.shelf shelf.old).honest (shown_by (S.shelf shelf.new) log.members) log) }
        ensures seen { (S.shelf shelf.old).honest → IfOk result (λ log. AreAsSeen (S.shelf shelf.new) log) }
        ensures err { IfErr result (λ fault. AllFailed fault (S.shelf shelf.old) (S.shelf shelf.new) members) }
    {
        let reads = read_both(alloc, shelf, members, flushed)?;
        if !reads.first.is_member && !reads.second.is_member {
            return Err(ReadFault::BothLost);
        }
        Ok(log_of(alloc, reads, flushed)?)
    }
}
