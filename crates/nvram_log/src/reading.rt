// A device is read: its gates, and of each slot whose gate is open the head, and the sectors where it shows a command.
ghost use Rattle.std.specs.Prelude.{◌≡◌, ◌≢◌, ◌⊎◌, ◌+◌, ◌*◌, ◌<◌, ◌≤◌, ◌^◌, ℕ, [], length, slice_range, take, slice_index_or, true, false, Some, None, IfOk, IfSome, IfNone, OnOk, OnErr, Err};
ghost use Rattle.pur_base.specs.Devices.{nvram};
ghost use Rattle.pur_base.specs.Gates.{is_open};
ghost use Rattle.pur_base.specs.Grammar.{data_count};
ghost use Rattle.pur_base.specs.declared.limits.TheConstants.{NVRAM_BYTES, NVRAM_DEVICES, REQUEST_SECTORS, SECTOR_BYTES};
ghost use Rattle.log_codec.specs.declared.limits.TheConstants.{LOG_SLOTS, SLOT_BYTES};
ghost use Rattle.log_codec.specs.declared.head.Head.{Head};
ghost use Rattle.log_codec.specs.Head.{Decodes, IsHead};
ghost use Rattle.world.specs.Counts.{Rises};
ghost use Rattle.nvram_log.specs.Read.{OnlyReads};
ghost use Rattle.nvram_log.specs.Logged.{IsLogged};
ghost use Rattle.nvram_log.specs.Records.{slot_place};
ghost use Rattle.nvram_log.specs.Views.{AreNumbered, AreShownAs, IsDeviceRead, IsShownAs};
ghost use Rattle.nvram_log.specs.declared.reading.SlotFault.TheVariants as slot_fault;

use crate::Logged;
use crate::gates::OPEN;
use crate::log::SLOT;
use crate::seen::Flags;
use log_codec::{Head, LOG_SLOTS, SLOTS_START, read_head};
use pur_base::{Device, NoMemory, NvId, SECTOR_BYTES, Sector};
use std::alloc::{AllocError, Global};
use world::{Failed, Shelf};

/// What was read of a device: whether it is a member still, and, where it is, which of its gates are open and what each of its slots shows.
#[derive(Drop)]
pub struct DeviceRead {
    pub is_member: bool,
    pub open: Flags,
    pub records: Vec<Option<Logged>>,
}

// Why a slot wasn't read.
#[derive(Clone, Copy, Drop)]
enum SlotFault {
    NoMemory,
    Failed,
}

impl From<AllocError> for SlotFault {
    ghost from_gives = { λ e r. r ≡ slot_fault.NoMemory };

    fn from(_error: AllocError) -> SlotFault {
        SlotFault::NoMemory
    }
}

impl From<Failed> for SlotFault {
    ghost from_gives = { λ e r. r ≡ slot_fault.Failed };

    fn from(_error: Failed) -> SlotFault {
        SlotFault::Failed
    }
}

// Reads so many bytes of a device from a place on.
fn read_at<S: Shelf>(shelf: &mut S, device: NvId, at: u64, into: &mut [u8]) -> Result<(), Failed>
    requires device { device.0 < NVRAM_DEVICES }
    requires size { at + length into.old ≤ NVRAM_BYTES }
    ensures reads { OnlyReads S.shelf S.shelf_rest shelf.old shelf.new }
    ensures failed { OnErr result (Rises ((S.shelf shelf.old).disk (nvram device.0)).faults ((S.shelf shelf.new).disk (nvram device.0)).faults) }
    ensures bytes { (S.shelf shelf.old).honest → OnOk result (into.new ≡ slice_range ((S.shelf shelf.old).disk (nvram device.0)).bytes at (at + length into.old)) }
{
    shelf.read(Device::Nv(device), at, into)
}

// Reads the gates of a device, where it is a member. Whether it is one still.
fn read_gates<S: Shelf>(
    shelf: &mut S,
    device: NvId,
    is_member: bool,
    gates: &mut [u8; LOG_SLOTS],
) -> bool
    requires device { device.0 < NVRAM_DEVICES }
    ensures reads { OnlyReads S.shelf S.shelf_rest shelf.old shelf.new }
    ensures before { result ≡ true → is_member ≡ true }
    ensures dropped { is_member ≡ true → (result ≡ true) ⊎ Rises ((S.shelf shelf.old).disk (nvram device.0)).faults ((S.shelf shelf.new).disk (nvram device.0)).faults }
    ensures gates { (S.shelf shelf.old).honest → result ≡ true → gates.new ≡ slice_range ((S.shelf shelf.old).disk (nvram device.0)).bytes 0 LOG_SLOTS }
{
    is_member && read_at(shelf, device, 0, gates).is_ok()
}

// Which gates are open.
fn open_in(gates: &[u8; LOG_SLOTS]) -> Flags
    ensures { (i : ℕ) → i < LOG_SLOTS → slice_index_or result i false ≡ is_open i gates.now }
{
    let mut open = [false; LOG_SLOTS];
    for i in 0..LOG_SLOTS {
        open[i] = gates[i] == OPEN;
    }
    open
}

// The head of a command that a slot shows by its first sector: one that is spelled, under the number that belongs there.
fn shown_head(sector: &Sector, flushed: u64, i: usize) -> Option<Head>
    requires slot { i < LOG_SLOTS }
    ensures some { IfSome result (λ head. Decodes sector.now head × (head.number ≡ flushed + 1 + i)) }
    ensures none { IfNone result ((head : Head) → Decodes sector.now head → head.number ≢ flushed + 1 + i) }
{
    let Ok(head) = read_head(sector) else {
        return None;
    };
    if head.number > flushed && head.number - flushed == 1 + i as u64 {
        Some(head)
    } else {
        None
    }
}

// Reads the first sector of a slot.
fn read_first<S: Shelf>(shelf: &mut S, device: NvId, i: usize) -> Result<Sector, Failed>
    requires device { device.0 < NVRAM_DEVICES }
    requires slot { i < LOG_SLOTS }
    ensures reads { OnlyReads S.shelf S.shelf_rest shelf.old shelf.new }
    ensures failed { OnErr result (Rises ((S.shelf shelf.old).disk (nvram device.0)).faults ((S.shelf shelf.new).disk (nvram device.0)).faults) }
    ensures sector { (S.shelf shelf.old).honest → IfOk result (λ sector. sector ≡ slice_range ((S.shelf shelf.old).disk (nvram device.0)).bytes (slot_place i) (slot_place i + SECTOR_BYTES)) }
{
    let mut bytes = [0; SECTOR_BYTES];
    let at = SLOTS_START + (SLOT * i) as u64;
    read_at(shelf, device, at, &mut bytes)?;
    Ok(Sector::new(bytes))
}

// Reads what is behind the first sector of a record, where there is more.
fn read_behind<S: Shelf>(
    shelf: &mut S,
    device: NvId,
    i: usize,
    text: &mut [u8],
) -> Result<(), Failed>
    requires device { device.0 < NVRAM_DEVICES }
    requires slot { i < LOG_SLOTS }
    requires size { (SECTOR_BYTES ≤ length text.old) × (length text.old ≤ SLOT_BYTES) }
    ensures reads { OnlyReads S.shelf S.shelf_rest shelf.old shelf.new }
    ensures failed { OnErr result (Rises ((S.shelf shelf.old).disk (nvram device.0)).faults ((S.shelf shelf.new).disk (nvram device.0)).faults) }
    ensures first { take SECTOR_BYTES text.new ≡ take SECTOR_BYTES text.old }
    ensures behind { (S.shelf shelf.old).honest → OnOk result (slice_range text.new SECTOR_BYTES (length text.old) ≡ slice_range ((S.shelf shelf.old).disk (nvram device.0)).bytes (slot_place i + SECTOR_BYTES) (slot_place i + length text.old)) }
{
    if text.len() == SECTOR_BYTES {
        return Ok(());
    }
    let at = SLOTS_START + (SLOT * i + SECTOR_BYTES) as u64;
    read_at(shelf, device, at, &mut text[SECTOR_BYTES..])
}

// The first sector, and zeros for so many behind it.
fn room_behind(alloc: Global, first: &Sector, count: usize) -> Result<Vec<u8>, AllocError>
    requires { count ≤ REQUEST_SECTORS }
    ensures size { IfOk result (λ bytes. length bytes.items ≡ SECTOR_BYTES * (1 + count)) }
    ensures first { IfOk result (λ bytes. take SECTOR_BYTES bytes.items ≡ first.now) }
{
    let size = SECTOR_BYTES * (1 + count);
    let mut bytes = Vec::with_capacity(alloc, size)?;
    bytes.extend_from_slice(first.as_bytes())?;
    bytes.resize(size, 0)?;
    Ok(bytes)
}

// The record of a head, and the bytes that begin with it.
fn logged_of(head: Head, bytes: Vec<u8>) -> Logged
    requires size { length bytes.items ≡ SECTOR_BYTES * (1 + data_count head.command) }
    requires head { Decodes (take SECTOR_BYTES bytes.items) head }
    ensures logged { IsLogged head.number result }
    ensures head { result.head ≡ head }
    ensures bytes { result.bytes.items ≡ bytes.items }
{
    Logged { head, bytes }
}

// Reads a slot, where its gate is open: the command that it shows, where it shows one.
fn read_slot<S: Shelf>(
    alloc: Global,
    shelf: &mut S,
    device: NvId,
    flag: bool,
    flushed: u64,
    i: usize,
) -> Result<Option<Logged>, SlotFault>
    requires device { device.0 < NVRAM_DEVICES }
    requires slot { i < LOG_SLOTS }
    ensures reads { OnlyReads S.shelf S.shelf_rest shelf.old shelf.new }
    ensures failed { result ≡ Err slot_fault.Failed → Rises ((S.shelf shelf.old).disk (nvram device.0)).faults ((S.shelf shelf.new).disk (nvram device.0)).faults }
    ensures numbered { IfOk result (λ read. IfSome read (IsLogged (flushed + 1 + i))) }
    ensures shown { (S.shelf shelf.old).honest → flag ≡ is_open i ((S.shelf shelf.old).disk (nvram device.0)).bytes → IfOk result (IsShownAs ((S.shelf shelf.old).disk (nvram device.0)).bytes flushed i) }
{
    if !flag {
        return Ok(None);
    }
    let first = read_first(shelf, device, i)?;
    let Some(head) = shown_head(&first, flushed, i) else {
        return Ok(None);
    };
    let mut bytes = room_behind(alloc, &first, head.command.data_sectors() as usize)?;
    read_behind(shelf, device, i, &mut bytes)?;
    Ok(Some(logged_of(head, bytes)))
}

// Reads the slots whose gates are open, one after another.
fn read_slots<S: Shelf>(
    alloc: Global,
    shelf: &mut S,
    device: NvId,
    flags: &Flags,
    flushed: u64,
    records: &mut Vec<Option<Logged>>,
) -> Result<(), SlotFault>
    requires device { device.0 < NVRAM_DEVICES }
    requires empty { records.old.items ≡ [] }
    ensures reads { OnlyReads S.shelf S.shelf_rest shelf.old shelf.new }
    ensures failed { result ≡ Err slot_fault.Failed → Rises ((S.shelf shelf.old).disk (nvram device.0)).faults ((S.shelf shelf.new).disk (nvram device.0)).faults }
    ensures size { OnOk result (length records.new.items ≡ LOG_SLOTS) }
    ensures numbered { OnOk result (AreNumbered flushed records.new.items) }
    ensures shows { (S.shelf shelf.old).honest → ((i : ℕ) → i < LOG_SLOTS → slice_index_or flags.now i false ≡ is_open i ((S.shelf shelf.old).disk (nvram device.0)).bytes)
        → OnOk result (AreShownAs ((S.shelf shelf.old).disk (nvram device.0)).bytes flushed records.new.items) }
{
    for i in 0..LOG_SLOTS {
        let record = read_slot(alloc, shelf, device, flags[i], flushed, i)?;
        if records.push(record).is_err() {
            return Err(SlotFault::NoMemory);
        }
    }
    Ok(())
}

// Reads the slots of a device, where it is a member. Whether it is one still: where not, nothing was read.
fn read_member<S: Shelf>(
    alloc: Global,
    shelf: &mut S,
    device: NvId,
    is_member: bool,
    flags: &Flags,
    flushed: u64,
    records: &mut Vec<Option<Logged>>,
) -> Result<bool, NoMemory>
    requires device { device.0 < NVRAM_DEVICES }
    requires empty { records.old.items ≡ [] }
    ensures reads { OnlyReads S.shelf S.shelf_rest shelf.old shelf.new }
    ensures before { IfOk result (λ is. is ≡ true → is_member ≡ true) }
    ensures dropped { IfOk result (λ is. is_member ≡ true → (is ≡ true) ⊎ Rises ((S.shelf shelf.old).disk (nvram device.0)).faults ((S.shelf shelf.new).disk (nvram device.0)).faults) }
    ensures size { IfOk result (λ is. is ≡ true → length records.new.items ≡ LOG_SLOTS) }
    ensures none { IfOk result (λ is. is ≡ false → records.new.items ≡ []) }
    ensures numbered { IfOk result (λ is. AreNumbered flushed records.new.items) }
    ensures shows { (S.shelf shelf.old).honest → ((i : ℕ) → i < LOG_SLOTS → slice_index_or flags.now i false ≡ is_open i ((S.shelf shelf.old).disk (nvram device.0)).bytes)
        → IfOk result (λ is. is ≡ true → AreShownAs ((S.shelf shelf.old).disk (nvram device.0)).bytes flushed records.new.items) }
{
    if !is_member {
        return Ok(false);
    }
    match read_slots(alloc, shelf, device, flags, flushed, records) {
        Ok(()) => Ok(true),
        Err(SlotFault::Failed) => {
            records.clear();
            Ok(false)
        }
        Err(SlotFault::NoMemory) => Err(NoMemory),
    }
}

/// Reads a device where it is a member: its gates, and the slots whose gates are open.
pub fn read_device<S: Shelf>(
    alloc: Global,
    shelf: &mut S,
    device: NvId,
    is_member: bool,
    flushed: u64,
) -> Result<DeviceRead, NoMemory>
    requires device { device.0 < NVRAM_DEVICES }
    ensures reads { OnlyReads S.shelf S.shelf_rest shelf.old shelf.new }
    ensures before { IfOk result (λ read. read.is_member ≡ true → is_member ≡ true) }
    ensures dropped { IfOk result (λ read. is_member ≡ true → (read.is_member ≡ true) ⊎ Rises ((S.shelf shelf.old).disk (nvram device.0)).faults ((S.shelf shelf.new).disk (nvram device.0)).faults) }
    ensures read { IfOk result (IsDeviceRead (S.shelf shelf.old).honest ((S.shelf shelf.old).disk (nvram device.0)).bytes flushed) }
{
    let mut gates = [0; LOG_SLOTS];
    let has_gates = read_gates(shelf, device, is_member, &mut gates);
    let open = open_in(&gates);
    let mut records = Vec::with_capacity(alloc, LOG_SLOTS)?;
    let is_member = read_member(
        alloc,
        shelf,
        device,
        has_gates,
        &open,
        flushed,
        &mut records,
    )?;
    Ok(DeviceRead {
        is_member,
        open,
        records,
    })
}
