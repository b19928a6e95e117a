// What was said is stored.
ghost use Rattle.std.specs.Prelude.{◌≡◌, ◌⊎◌, ◌+◌, [], length, drop, slice_index, true, false, IfOk, OnOk};
ghost use Rattle.pur_base.specs.declared.device.Device.{Device};
ghost use Rattle.pur_base.specs.declared.device.Device.TheVariants.{Nv};
ghost use Rattle.world.specs.Shelf.{Has, Continues, Leaves};
ghost use Rattle.world.specs.Writes.{OneRange, ChangesOnly};
ghost use Rattle.world_clients.specs.Said.{IsToldBy, StoredByte, StoredWhenSaid, EachIsStoredWhenSaid, CountsOne};

use crate::adapt::{give_byte, take_byte};
use pur_base::{Device, NvId};
use world::{Failed, World, write_synced};

/// Stores a byte of the input, and then says so. False at the end of the input.
pub fn acknowledge<W: World>(world: &mut W, device: Device, at: u64) -> Result<bool, Failed>
    requires { Has (W.shelf world.old) device at 1 }
    ensures continues { Continues (W.shelf world.old) (W.shelf world.new) }
    ensures honest { IsToldBy (W.shelf world.old) (W.source world.old) (W.sink world.old) → IsToldBy (W.shelf world.new) (W.source world.new) (W.sink world.new) }
    ensures writes { (W.shelf world.old).honest → (d : Device) → ChangesOnly (OneRange device at 1 d) ((W.shelf world.old).disk d) ((W.shelf world.new).disk d) }
    ensures stored { IsToldBy (W.shelf world.old) (W.source world.old) (W.sink world.old) → IfOk result (λ more. more ≡ true →
        StoredByte ((W.shelf world.new).disk device) at (slice_index (W.source world.old).bytes 0)
        × ((W.source world.new).bytes ≡ drop 1 (W.source world.old).bytes)
        × (length (W.shelf world.new).output ≡ length (W.shelf world.old).output + 1)) }
    ensures ended { IsToldBy (W.shelf world.old) (W.source world.old) (W.sink world.old) → IfOk result (λ more. more ≡ false → ((W.source world.old).bytes ≡ []) × ((W.source world.new).bytes ≡ [])) }
    ensures counts { CountsOne result (W.source world.old).faults ((W.shelf world.old).disk device).write_faults (W.sink world.old).faults
        (W.source world.new).faults ((W.shelf world.new).disk device).write_faults (W.sink world.new).faults }
    // A stop at a moment at which there was more output than before leaves the byte on the device.
    ensures said { IsToldBy (W.shelf world.old) (W.source world.old) (W.sink world.old) → Leaves (W.shelf world.old) (W.shelf world.new)
        (StoredWhenSaid (W.shelf world.old) device at (slice_index (W.source world.old).bytes 0)) }
{
    let mut byte = [0];
    if !take_byte(world, &mut byte)? {
        return Ok(false);
    }
    write_synced(world, device, at, &byte)?;
    give_byte(world, b'k')?;
    Ok(true)
}

/// Stores n bytes of the input, each of them before it says so.
pub fn session<W: World>(world: &mut W, nvram: NvId, at: u64, n: u64) -> Result<(), Failed>
    requires { Has (W.shelf world.old) (Nv nvram) at n }
    ensures continues { Continues (W.shelf world.old) (W.shelf world.new) }
    ensures said_all { IsToldBy (W.shelf world.old) (W.source world.old) (W.sink world.old) → ((W.shelf world.old).disk (Nv nvram)).dirty ≡ [] →
        OnOk result (((W.source world.new).bytes ≡ []) ⊎ (length (W.shelf world.new).output ≡ length (W.shelf world.old).output + n)) }
    ensures counts { CountsOne result (W.source world.old).faults ((W.shelf world.old).disk (Nv nvram)).write_faults (W.sink world.old).faults
        (W.source world.new).faults ((W.shelf world.new).disk (Nv nvram)).write_faults (W.sink world.new).faults }
    // A stop at any moment leaves each byte that was said by then.
    ensures said { IsToldBy (W.shelf world.old) (W.source world.old) (W.sink world.old) → ((W.shelf world.old).disk (Nv nvram)).dirty ≡ [] → Leaves (W.shelf world.old) (W.shelf world.new)
        (EachIsStoredWhenSaid (W.shelf world.old) (Nv nvram) at (W.source world.old).bytes) }
{
    let device = Device::Nv(nvram);
    for i in 0..n {
        if !acknowledge(world, device, at + i)? {
            return Ok(());
        }
    }
    Ok(())
}
