// What happens to the devices.
ghost use Rattle.std.specs.Prelude.{◌≡◌, ◌<◌, IsTrue};
ghost use Rattle.world.specs.Shelf.{Has, IsAligned, IsOf, size_of};
ghost use Rattle.world_mem.specs.Past.{shelved};

use crate::random::Random;
use pur_base::{
    BOOT_UNITS, Device, DriveId, NVRAM_BYTES, NVRAM_DEVICES, NoMemory, NvId, SECTOR_BYTES,
    UNIT_BYTES,
};
use std::alloc::Global;
use world::Shelf;
use world_mem::{Call, MemWorld, What};

/// The drives of the shelf.
pub const DRIVES: u8 = 11;

/// The units of a drive.
pub const UNITS: u16 = 64;

/// A failing is named so many calls ahead at most.
pub const FAIL_AHEAD: u64 = 100;

/// How many devices there are.
const DEVICES: u8 = DRIVES + NVRAM_DEVICES;

/// The drives, and then the NVRAM devices.
fn device_at(place: u8) -> Device {
    if place < DRIVES {
        Device::Drive(DriveId(place))
    } else {
        Device::Nv(NvId(place - DRIVES))
    }
}

/// A drive by chance.
pub fn any_drive(random: &mut Random) -> Device {
    Device::Drive(DriveId(random.byte_below(DRIVES)))
}

/// Where it stands among them.
fn place_of(device: Device) -> usize
    ensures { result < 13 }
{
    match device {
        Device::Drive(drive) => (drive.0 % DRIVES) as usize,
        Device::Nv(nvram) => (DRIVES + nvram.0 % NVRAM_DEVICES) as usize,
    }
}

/// Whether the shelf has the device.
fn is_there(world: &MemWorld, device: Device) -> bool
    ensures { IsTrue result → IsOf (shelved world.now) device }
{
    match device {
        Device::Drive(drive) => drive.0 < world.drives(),
        Device::Nv(nvram) => nvram.0 < NVRAM_DEVICES,
    }
}

/// The bytes of a device.
fn bytes_of(world: &MemWorld, device: Device) -> u64
    ensures { result ≡ size_of (shelved world.now) device }
{
    match device {
        Device::Drive(_) => UNIT_BYTES as u64 * world.units() as u64,
        Device::Nv(_) => NVRAM_BYTES as u64,
    }
}

/// Whether the device is read and written there by so many bytes.
fn is_aligned(device: Device, at: u64, count: u64) -> bool
    ensures { IsTrue result → IsAligned device at count }
{
    match device {
        Device::Drive(_) => at % SECTOR_BYTES as u64 == 0 && count % SECTOR_BYTES as u64 == 0,
        Device::Nv(_) => true,
    }
}

/// Whether the device has that range, which may be read and written at once.
fn has(world: &MemWorld, device: Device, at: u64, count: usize) -> bool
    ensures { IsTrue result → Has (shelved world.now) device at count }
{
    let size = bytes_of(world, device);
    if !is_there(world, device) || at > size || count as u64 > size - at {
        return false;
    }
    is_aligned(device, at, count as u64)
}

/// Reads, where the device has that range. False where it fails.
fn read(world: &mut MemWorld, device: Device, at: u64, into: &mut [u8]) -> bool {
    if has(world, device, at, into.len()) {
        world.read(device, at, into).is_ok()
    } else {
        false
    }
}

/// Writes, where the device has that range. A device that fails is missing.
fn write(world: &mut MemWorld, device: Device, at: u64, from: &[u8]) {
    if has(world, device, at, from.len()) {
        let _ = world.write(device, at, from);
    }
}

/// Pulls a device.
pub fn pull(world: &mut MemWorld, device: Device) {
    if is_there(world, device) {
        world.pull(device);
    }
}

/// Puts a device back.
pub fn put_back(world: &mut MemWorld, device: Device) {
    if is_there(world, device) {
        world.put_back(device);
    }
}

/// Lets the nth next call on a device fail, counted from 0.
pub fn fail(world: &mut MemWorld, device: Device, nth: u64) -> Result<(), NoMemory> {
    if is_there(world, device) && nth < FAIL_AHEAD {
        world.fail(device, nth + 1)
    } else {
        Ok(())
    }
}

/// Syncs a device. What isn't synced then is missing.
fn sync(world: &mut MemWorld, device: Device) {
    if is_there(world, device) {
        let _ = world.sync(device);
    }
}

/// Makes calls on a device until none is to fail.
pub fn let_fail(world: &mut MemWorld, device: Device) {
    for _ in 0..FAIL_AHEAD {
        sync(world, device);
    }
}

/// A device that doesn't answer any more fails at so many calls.
const SILENT: u64 = 16;

/// Lets a device answer no more from its nth next call on, counted from 0.
pub fn silence(world: &mut MemWorld, device: Device, nth: u64) -> Result<(), NoMemory> {
    for later in 0..SILENT {
        fail(world, device, nth.saturating_add(later))?;
    }
    Ok(())
}

/// Lets a device answer again with what it holds, which isn't synced by that.
fn bring_back(world: &mut MemWorld, device: Device) {
    let mut bytes = [0; SECTOR_BYTES];
    put_back(world, device);
    for _ in 0..FAIL_AHEAD {
        let _ = read(world, device, 0, &mut bytes);
    }
}

/// Lets all devices answer again.
pub fn bring_all_back(world: &mut MemWorld) {
    for place in 0..DEVICES {
        bring_back(world, device_at(place));
    }
    world.forget();
}

/// Puts a blank device in its place. No call on it is to fail then.
pub fn blank(world: &mut MemWorld, device: Device) {
    let_fail(world, device);
    if is_there(world, device) {
        world.put_blank(device);
    }
}

/// Blanks the drives alone.
pub fn blank_drives(world: &mut MemWorld) {
    for place in 0..DRIVES {
        blank(world, device_at(place));
    }
}

/// Blanks all devices.
pub fn blank_all(world: &mut MemWorld) {
    for place in 0..DEVICES {
        blank(world, device_at(place));
    }
}

/// Whether a device was synced in one of these calls.
pub fn was_synced(calls: &[Call], device: Device) -> bool {
    for call in calls {
        match call {
            Call::On(on, What::Sync(_)) => if *on == device {
                return true;
            },
            _ => {}
        }
    }
    false
}

/// Where the boot units of a drive end.
const BOOT_END: usize = BOOT_UNITS as usize * UNIT_BYTES;

/// Whether a drive was written behind its boot units in one of these calls, as a checkpoint does.
pub fn was_data_written(calls: &[Call]) -> bool {
    for call in calls {
        match call {
            Call::On(Device::Drive(_), What::Write(at, was)) => if at.saturating_add(was.len())
                > BOOT_END
            {
                return true;
            },
            _ => {}
        }
    }
    false
}

/// On which devices calls failed, and which of them lost a write or a sync by that.
#[derive(Clone, Copy)]
pub struct Failures {
    failed: [bool; DEVICES as usize],
    lost: [bool; DEVICES as usize],
}

/// How many of the flags are set.
fn set_flags(flags: &[bool]) -> u64 {
    let mut count = 0u64;
    for flag in flags {
        count = count.saturating_add(u64::from(*flag));
    }
    count
}

impl Failures {
    /// On none.
    pub fn new() -> Failures {
        Failures {
            failed: [false; DEVICES as usize],
            lost: [false; DEVICES as usize],
        }
    }

    /// Sees those among the calls. What lost a write or a sync is noted as lost where that is told.
    pub fn note(&mut self, calls: &[Call], lose: bool) {
        for call in calls {
            match call {
                Call::On(device, what) => self.note_call(*device, what, lose),
                _ => {}
            }
        }
    }

    fn note_call(&mut self, device: Device, what: &What, lose: bool) {
        let place = place_of(device);
        match what {
            What::FailedWrite(_) | What::FailedSync(_) => {
                self.failed[place] = true;
                self.lost[place] = self.lost[place] || lose;
            }
            What::FailedRead(_) => self.failed[place] = true,
            _ => {}
        }
    }

    /// Another device is in its place: it may be left out.
    pub fn replace(&mut self, device: Device) {
        self.failed[place_of(device)] = true;
    }

    /// Drives that may be left out, and that must be.
    pub fn drives(&self) -> (u64, u64) {
        (set_flags(&self.failed[..11]), set_flags(&self.lost[..11]))
    }

    /// NVRAM devices that may be left out, and that must be.
    pub fn nvrams(&self) -> (u64, u64) {
        (set_flags(&self.failed[11..]), set_flags(&self.lost[11..]))
    }
}

/// A write that no sync has followed.
#[derive(Clone, Copy)]
struct Unsynced {
    device: Device,
    at: u64,
    count: usize,
}

/// The write of that call, unless it is another one or its device is synced behind it. Calls are looked at from the last one on.
fn unsynced_at(
    calls: &[Call],
    at: usize,
    synced: &mut [bool; DEVICES as usize],
) -> Option<Unsynced> {
    match calls.get(at) {
        Some(Call::On(device, What::Sync(_))) => {
            synced[place_of(*device)] = true;
            None
        }
        Some(Call::On(device, What::Write(at, was))) => {
            if synced[place_of(*device)] {
                return None;
            }
            Some(Unsynced {
                device: *device,
                at: *at as u64,
                count: was.len(),
            })
        }
        _ => None,
    }
}

/// The bytes that a call wrote over.
fn bytes_before(calls: &[Call], at: usize) -> &[u8] {
    match calls.get(at) {
        Some(Call::On(_, What::Write(_, was))) => was,
        _ => &[],
    }
}

/// What a stop makes of unsynced bytes, or of a part of them.
#[derive(Clone, Copy)]
enum Tear {
    Kept,
    Undone,
    Random,
    /// Zeros and ones, as gates are.
    Gates,
}

fn tear_by(random: &mut Random) -> Tear {
    match random.below(6) {
        0 | 1 => Tear::Kept,
        2 | 3 => Tear::Undone,
        4 => Tear::Random,
        _ => Tear::Gates,
    }
}

/// A byte that is left.
fn byte_left(random: &mut Random, tear: Tear, now: u8, was: u8) -> u8 {
    match tear {
        Tear::Kept => now,
        Tear::Undone => was,
        Tear::Random => random.any_byte(),
        Tear::Gates => random.byte_below(2),
    }
}

/// Tears the bytes: all in one way, or each piece of so many in its own.
fn tear_bytes(random: &mut Random, now: &mut [u8], was: &[u8]) {
    let piece = match random.below(4) {
        0 => (random.below(64) as usize).saturating_add(1),
        1 => SECTOR_BYTES,
        _ => usize::MAX,
    };
    let mut tear = tear_by(random);
    let mut left = piece;
    for place in 0..now.len().min(was.len()) {
        if left == 0 {
            tear = tear_by(random);
            left = piece;
        }
        left = left.saturating_sub(1);
        now[place] = byte_left(random, tear, now[place], was[place]);
    }
}

/// Leaves of a call's write what a stop may leave. A device that fails is missing.
fn tear_write(
    alloc: Global,
    world: &mut MemWorld,
    random: &mut Random,
    call: usize,
    unsynced: Unsynced,
) -> Result<(), NoMemory> {
    let Unsynced { device, at, count } = unsynced;
    let mut bytes = vec![in alloc; 0; count]?;
    if read(world, device, at, &mut bytes) {
        tear_bytes(random, &mut bytes, bytes_before(world.calls(), call));
        write(world, device, at, &bytes);
    }
    Ok(())
}

/// Leaves of the devices what a stop may leave: each byte that isn't synced may be any.
pub fn stop(alloc: Global, world: &mut MemWorld, random: &mut Random) -> Result<(), NoMemory> {
    let mut synced = [false; DEVICES as usize];
    let calls = world.calls().len();
    for behind in 0..calls {
        let call = calls - 1 - behind;
        if let Some(unsynced) = unsynced_at(world.calls(), call, &mut synced) {
            tear_write(alloc, world, random, call, unsynced)?;
        }
    }
    for place in 0..DEVICES {
        sync(world, device_at(place));
    }
    world.forget();
    Ok(())
}

/// The calls on devices before some of the input was taken, if some was.
pub fn calls_before_input(world: &MemWorld) -> Option<u64> {
    let mut count = 0u64;
    for call in world.calls() {
        match call {
            Call::Take(_) => return Some(count),
            Call::On(_, _) => count = count.saturating_add(1),
            Call::Give(_) => {}
        }
    }
    None
}
