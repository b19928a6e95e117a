// The shelf of a world in memory.
use crate::MemWorld;
use crate::several::{read_in, sync_in, write_in};
use pur_base::Device;
use world::{Failed, Shelf};

impl Shelf for MemWorld {
    ghost use Rattle.std.specs.Prelude.{◌≡◌, ◌⊎◌, ◌+◌, true, length, slice_range, IsErr, OnOk, OnErr};
    ghost use Rattle.world.specs.Shelf.{WasWritten, WasSynced, IsSame, ReadCounts, WriteCounts, OthersStay, Elapses, Has, IsOf};
    ghost use Rattle.world_mem.specs.Past.{shelved, StreamsStay, will_fail_on};
    ghost use Rattle.world_mem.specs.Laws.{is_shelf, streams_stay};

    ghost shelf = { shelved };

    ghost shelf_rest = { StreamsStay };

    ghost is_shelf = { is_shelf };

    ghost shelf_rest_stays = { streams_stay };

    fn drives(&self) -> u8 {
        self.drives.len() as u8
    }

    fn units(&self) -> u16 {
        self.units
    }

    fn read(&mut self, device: Device, at: u64, into: &mut [u8]) -> Result<(), Failed>
        requires { Has (shelved self.old) device at (length into.old) }
        ensures bytes { OnOk result ((shelved self.old).honest → into.new ≡ slice_range ((shelved self.old).disk device).bytes at (at + length into.old)) }
        ensures device { (shelved self.old).honest → IsSame ((shelved self.old).disk device) ((shelved self.new).disk device) }
        ensures counts { ReadCounts result ((shelved self.old).disk device) ((shelved self.new).disk device) }
        ensures others { OthersStay device (shelved self.old) (shelved self.new) }
        ensures time { Elapses (shelved self.old) (shelved self.new) }
        ensures rest { StreamsStay self.old self.new }
        // It fails where it is told to, and else only where its record finds no memory.
        ensures only { OnErr result ((will_fail_on self.old device ≡ true) ⊎ (shelved self.new).lapsed) }
        ensures told { will_fail_on self.old device ≡ true → IsErr result }
    {
        match device {
            Device::Drive(d) => read_in(
                &mut self.drives,
                d.0 as usize,
                &mut self.calls,
                &mut self.starved,
                device,
                at as usize,
                into,
            ),
            Device::Nv(n) => read_in(
                &mut self.nvram,
                n.0 as usize,
                &mut self.calls,
                &mut self.starved,
                device,
                at as usize,
                into,
            ),
        }
    }

    fn write(&mut self, device: Device, at: u64, from: &[u8]) -> Result<(), Failed>
        requires { Has (shelved self.old) device at (length from.now) }
        ensures device { (shelved self.old).honest → WasWritten result (shelved self.new).lapsed at from.now ((shelved self.old).disk device) ((shelved self.new).disk device) }
        ensures counts { WriteCounts result ((shelved self.old).disk device) ((shelved self.new).disk device) }
        ensures others { OthersStay device (shelved self.old) (shelved self.new) }
        ensures time { Elapses (shelved self.old) (shelved self.new) }
        ensures rest { StreamsStay self.old self.new }
        // It fails where it is told to, and else only where its record finds no memory.
        ensures only { OnErr result ((will_fail_on self.old device ≡ true) ⊎ (shelved self.new).lapsed) }
        ensures told { will_fail_on self.old device ≡ true → IsErr result }
    {
        match device {
            Device::Drive(d) => write_in(
                self.alloc,
                &mut self.drives,
                d.0 as usize,
                &mut self.calls,
                &mut self.starved,
                device,
                at as usize,
                from,
            ),
            Device::Nv(n) => write_in(
                self.alloc,
                &mut self.nvram,
                n.0 as usize,
                &mut self.calls,
                &mut self.starved,
                device,
                at as usize,
                from,
            ),
        }
    }

    fn sync(&mut self, device: Device) -> Result<(), Failed>
        requires { IsOf (shelved self.old) device }
        ensures device { (shelved self.old).honest → WasSynced result ((shelved self.old).disk device) ((shelved self.new).disk device) }
        ensures counts { WriteCounts result ((shelved self.old).disk device) ((shelved self.new).disk device) }
        ensures others { OthersStay device (shelved self.old) (shelved self.new) }
        ensures time { Elapses (shelved self.old) (shelved self.new) }
        ensures rest { StreamsStay self.old self.new }
        // It fails where it is told to, and else only where its record finds no memory.
        ensures only { OnErr result ((will_fail_on self.old device ≡ true) ⊎ (shelved self.new).lapsed) }
        ensures told { will_fail_on self.old device ≡ true → IsErr result }
    {
        match device {
            Device::Drive(d) => sync_in(
                self.alloc,
                &mut self.drives,
                d.0 as usize,
                &mut self.calls,
                &mut self.starved,
                device,
            ),
            Device::Nv(n) => sync_in(
                self.alloc,
                &mut self.nvram,
                n.0 as usize,
                &mut self.calls,
                &mut self.starved,
                device,
            ),
        }
    }
}
