// The devices of a shelf, and calls on them.
ghost use Rattle.std.specs.Prelude.{◌≡◌, ◌<◌, IsTrue};
ghost use Rattle.world.specs.Shelf.{Has, IsAligned, IsOf, size_of};
ghost use Rattle.world_mem.specs.Past.{shelved};

use pur_base::{Device, DriveId, NVRAM_BYTES, NVRAM_DEVICES, NvId, SECTOR_BYTES, UNIT_BYTES};
use world::{Shelf, write_synced};
use world_mem::MemWorld;

/// The drives of the shelf.
pub const DRIVES: u8 = 11;

/// The units of a drive.
pub const UNITS: u16 = 64;

/// All devices.
pub const DEVICES: u8 = DRIVES + NVRAM_DEVICES;

/// Some devices that follow each other: drives, and then NVRAM devices.
#[derive(Clone, Copy)]
pub struct Devices {
    pub first: u8,
    pub last: u8,
}

/// The device of that number among all.
pub fn device_at(place: u8) -> Device {
    if place < DRIVES {
        Device::Drive(DriveId(place))
    } else {
        Device::Nv(NvId(place - DRIVES))
    }
}

/// Whether the shelf has the device.
pub fn is_there(world: &MemWorld, device: Device) -> bool
    ensures { IsTrue result → IsOf (shelved world.now) device }
{
    match device {
        Device::Drive(drive) => drive.0 < world.drives(),
        Device::Nv(nvram) => nvram.0 < NVRAM_DEVICES,
    }
}

/// The bytes of a device.
fn bytes_of(world: &MemWorld, device: Device) -> u64
    ensures { result ≡ size_of (shelved world.now) device }
{
    match device {
        Device::Drive(_) => UNIT_BYTES as u64 * world.units() as u64,
        Device::Nv(_) => NVRAM_BYTES as u64,
    }
}

/// Whether the device is read and written there by so many bytes.
fn is_aligned(device: Device, at: u64, count: u64) -> bool
    ensures { IsTrue result → IsAligned device at count }
{
    match device {
        Device::Drive(_) => at % SECTOR_BYTES as u64 == 0 && count % SECTOR_BYTES as u64 == 0,
        Device::Nv(_) => true,
    }
}

/// Whether the device has that range, which may be read and written at once.
fn has(world: &MemWorld, device: Device, at: u64, count: usize) -> bool
    ensures { IsTrue result → Has (shelved world.now) device at count }
{
    let size = bytes_of(world, device);
    if !is_there(world, device) || at > size || count as u64 > size - at {
        return false;
    }
    is_aligned(device, at, count as u64)
}

/// Reads, where the device has that range. False where it fails.
pub fn read(world: &mut MemWorld, device: Device, at: u64, into: &mut [u8]) -> bool {
    has(world, device, at, into.len()) && world.read(device, at, into).is_ok()
}

/// Writes and syncs, where the device has that range. False where it fails.
pub fn put(world: &mut MemWorld, device: Device, at: u64, from: &[u8]) -> bool {
    has(world, device, at, from.len()) && write_synced(world, device, at, from).is_ok()
}

fn sync(world: &mut MemWorld, device: Device) {
    if is_there(world, device) {
        let _ = world.sync(device);
    }
}

/// Pulls a device, or puts it back.
pub fn set_pulled(world: &mut MemWorld, device: Device, is_pulled: bool) {
    if !is_there(world, device) {
        return;
    }
    if is_pulled {
        world.pull(device);
    } else {
        world.put_back(device);
    }
}

/// Lets the nth next call on a device fail, counted from 1. False where that isn't possible.
pub fn fail(world: &mut MemWorld, device: Device, nth: u64) -> bool {
    nth > 0 && is_there(world, device) && world.fail(device, nth).is_ok()
}

/// A device that doesn't answer any more fails at so many calls.
const LONG: u64 = 64;

/// From its nth call on a device doesn't answer.
pub fn silence(world: &mut MemWorld, device: Device, nth: u64) -> bool {
    for later in 0..LONG {
        if !fail(world, device, nth.wrapping_add(later)) {
            return false;
        }
    }
    true
}

/// Makes a call on each device.
fn sync_all(world: &mut MemWorld) {
    for place in 0..DEVICES {
        sync(world, device_at(place));
    }
}

/// All devices answer again, but for those that were pulled.
pub fn wake(world: &mut MemWorld) {
    for _ in 0..3 * LONG {
        sync_all(world);
    }
}
