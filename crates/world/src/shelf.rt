// A shelf of devices.
ghost use Rattle.std.specs.Prelude.{◌≡◌, ◌+◌, length, slice_range, OnOk};
ghost use Rattle.world.specs.Shelf.{Shelved, Has, IsOf, IsSame, ReadCounts, WriteCounts, WasWritten, WasSynced, OthersStay, Elapses, IsShelf};
ghost use Rattle.world.specs.Streams.{IsPreorder};

use crate::Failed;
use pur_base::Device;

/// A range of a device's bytes.
#[derive(Clone, Copy, PartialEq, Eq)]
pub struct Span {
    pub start: u64,
    pub size: u64,
}

/// A shelf of 11 to 24 drives of 64 to 4,096 units each, and two NVRAM devices.
/// On a drive places and lengths are multiples of 512 bytes; NVRAM takes any range.
pub trait Shelf {
    /// What the devices hold, and what a stop leaves of them.
    ghost shelf: { Self → Shelved };

    /// Nothing but the shelf has changed.
    ghost shelf_rest: { Self → Self → Type 0 };

    /// The number of drives.
    fn drives(&self) -> u8
        ensures { result ≡ (shelf self.now).drives };

    /// The units of each drive.
    fn units(&self) -> u16
        ensures { result ≡ (shelf self.now).units };

    /// Reads from a place on. A failure is counted, and tells nothing of what is in the buffer then.
    fn read(&mut self, device: Device, at: u64, into: &mut [u8]) -> Result<(), Failed>
        requires { Has (shelf self.old) device at (length into.old) }
        ensures bytes { OnOk result ((shelf self.old).honest → into.new ≡ slice_range ((shelf self.old).disk device).bytes at (at + length into.old)) }
        ensures device { (shelf self.old).honest → IsSame ((shelf self.old).disk device) ((shelf self.new).disk device) }
        ensures counts { ReadCounts result ((shelf self.old).disk device) ((shelf self.new).disk device) }
        ensures others { OthersStay device (shelf self.old) (shelf self.new) }
        ensures time { Elapses (shelf self.old) (shelf self.new) }
        ensures rest { shelf_rest self.old self.new };

    /// Writes from a place on. Until a sync, a stop may leave any bytes in the range. So it may where the write failed.
    fn write(&mut self, device: Device, at: u64, from: &[u8]) -> Result<(), Failed>
        requires { Has (shelf self.old) device at (length from.now) }
        ensures device { (shelf self.old).honest → WasWritten result (shelf self.new).lapsed at from.now ((shelf self.old).disk device) ((shelf self.new).disk device) }
        ensures counts { WriteCounts result ((shelf self.old).disk device) ((shelf self.new).disk device) }
        ensures others { OthersStay device (shelf self.old) (shelf self.new) }
        ensures time { Elapses (shelf self.old) (shelf self.new) }
        ensures rest { shelf_rest self.old self.new };

    /// Makes all that was written last. After it, a stop leaves what a read gives.
    fn sync(&mut self, device: Device) -> Result<(), Failed>
        requires { IsOf (shelf self.old) device }
        ensures device { (shelf self.old).honest → WasSynced result ((shelf self.old).disk device) ((shelf self.new).disk device) }
        ensures counts { WriteCounts result ((shelf self.old).disk device) ((shelf self.new).disk device) }
        ensures others { OthersStay device (shelf self.old) (shelf self.new) }
        ensures time { Elapses (shelf self.old) (shelf self.new) }
        ensures rest { shelf_rest self.old self.new };

    ghost is_shelf: { (s : Self) → IsShelf (shelf s) };

    ghost shelf_rest_stays: { IsPreorder shelf_rest };
}
