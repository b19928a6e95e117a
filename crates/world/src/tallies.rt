// How often the calls on each device of a shelf failed.
ghost use Rattle.std.specs.Prelude.{◌≡◌, ◌≢◌, true, false};
ghost use Rattle.pur_base.specs.declared.device.Device.{Device};
ghost use Rattle.world.specs.Counts.{Rises, capped};
ghost use Rattle.world.specs.Tally.{tally_in, IsTallied};

use pur_base::{Device, NVRAM_DEVICES, SLOTS_MAX};

const DRIVES: usize = SLOTS_MAX as usize;

const NVRAM: usize = NVRAM_DEVICES as usize;

/// How often the calls on a device failed, and how often its writes and syncs did.
#[derive(Clone, Copy, Drop)]
pub struct Tally {
    faults: u64,
    write_faults: u64,
}

/// The tallies of all devices that a shelf may have, for a shelf that keeps nothing else. Counts end at 2^64 - 1.
#[derive(Drop)]
pub struct Tallies {
    drives: [Tally; DRIVES],
    nvram: [Tally; NVRAM],
}

impl Tally {
    fn count(&mut self, writes: bool)
        ensures faults { Rises (capped self.old.faults) (capped self.new.faults) }
        ensures write_faults { writes ≡ true → Rises (capped self.old.write_faults) (capped self.new.write_faults) }
        ensures stays { writes ≡ false → self.new.write_faults ≡ self.old.write_faults }
    {
        self.faults = self.faults.saturating_add(1);
        if writes {
            self.write_faults = self.write_faults.saturating_add(1);
        }
    }
}

fn count(drives: &mut [Tally], nvram: &mut [Tally], device: Device, writes: bool)
    requires { IsTallied drives.old nvram.old device }
    ensures faults { Rises (capped (tally_in drives.old nvram.old device).faults) (capped (tally_in drives.new nvram.new device).faults) }
    ensures write_faults { writes ≡ true → Rises (capped (tally_in drives.old nvram.old device).write_faults) (capped (tally_in drives.new nvram.new device).write_faults) }
    ensures stays { writes ≡ false → (tally_in drives.new nvram.new device).write_faults ≡ (tally_in drives.old nvram.old device).write_faults }
    ensures others { (d : Device) → d ≢ device → tally_in drives.new nvram.new d ≡ tally_in drives.old nvram.old d }
{
    match device {
        Device::Drive(d) => drives[d.0 as usize].count(writes),
        Device::Nv(n) => nvram[n.0 as usize].count(writes),
    }
}

impl Tallies {
    ghost use Rattle.world.specs.Tally.{none};
    ghost use Rattle.world.specs.Tallies.{tally_of, faults_of, write_faults_of, MayHave};

    /// No call has failed.
    pub fn new() -> Tallies
        ensures { (d : Device) → tally_of result d ≡ none }
    {
        let none = Tally {
            faults: 0,
            write_faults: 0,
        };
        Tallies {
            drives: [none; DRIVES],
            nvram: [none; NVRAM],
        }
    }

    /// How often a call on the device failed.
    pub fn faults(&self, device: Device) -> u64
        requires { MayHave device }
        ensures { result ≡ (tally_of self.now device).faults }
    {
        match device {
            Device::Drive(d) => self.drives[d.0 as usize].faults,
            Device::Nv(n) => self.nvram[n.0 as usize].faults,
        }
    }

    /// How often a write or a sync of the device failed.
    pub fn write_faults(&self, device: Device) -> u64
        requires { MayHave device }
        ensures { result ≡ (tally_of self.now device).write_faults }
    {
        match device {
            Device::Drive(d) => self.drives[d.0 as usize].write_faults,
            Device::Nv(n) => self.nvram[n.0 as usize].write_faults,
        }
    }

    /// Counts a read that failed.
    pub fn count_read(&mut self, device: Device)
        requires { MayHave device }
        ensures faults { Rises (faults_of self.old device) (faults_of self.new device) }
        ensures stays { write_faults_of self.new device ≡ write_faults_of self.old device }
        ensures others { (d : Device) → d ≢ device → tally_of self.new d ≡ tally_of self.old d }
    {
        count(&mut self.drives, &mut self.nvram, device, false);
    }

    /// Counts a write or a sync that failed.
    pub fn count_write(&mut self, device: Device)
        requires { MayHave device }
        ensures faults { Rises (faults_of self.old device) (faults_of self.new device) }
        ensures write_faults { Rises (write_faults_of self.old device) (write_faults_of self.new device) }
        ensures others { (d : Device) → d ≢ device → tally_of self.new d ≡ tally_of self.old d }
    {
        count(&mut self.drives, &mut self.nvram, device, true);
    }
}
