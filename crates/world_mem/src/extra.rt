// The failures that a fuse adds.
ghost use Rattle.std.specs.Prelude.{◌≡◌, ◌≢◌, ◌^◌, ◌-◌, ◌≤◌, true, false, length};
ghost use Rattle.pur_base.specs.declared.device.Device.{Device};
ghost use Rattle.world.specs.Counts.{Rises};
ghost use Rattle.world_mem.specs.Fuse.{extra_of, IsListed};

use pur_base::Device;

/// How often calls on a device failed since the fuse blew.
#[derive(Clone, Copy)]
pub struct Extra {
    pub(crate) faults: u64,
    pub(crate) write_faults: u64,
}

impl Extra {
    fn count(&mut self, writes: bool)
        ensures faults { Rises self.old.faults self.new.faults }
        ensures write_faults { writes ≡ true → Rises self.old.write_faults self.new.write_faults }
        ensures stays { writes ≡ false → self.new.write_faults ≡ self.old.write_faults }
    {
        self.faults = self.faults.saturating_add(1);
        if writes {
            self.write_faults = self.write_faults.saturating_add(1);
        }
    }
}

/// Counts a failure of one device.
pub(crate) fn count(drives: &mut [Extra], nvram: &mut [Extra], device: Device, writes: bool)
    requires { IsListed drives.old nvram.old device }
    ensures faults { Rises (extra_of drives.old nvram.old device).faults (extra_of drives.new nvram.new device).faults }
    ensures write_faults { writes ≡ true → Rises (extra_of drives.old nvram.old device).write_faults (extra_of drives.new nvram.new device).write_faults }
    ensures stays { writes ≡ false → (extra_of drives.new nvram.new device).write_faults ≡ (extra_of drives.old nvram.old device).write_faults }
    ensures others { (d : Device) → d ≢ device → extra_of drives.new nvram.new d ≡ extra_of drives.old nvram.old d }
{
    match device {
        Device::Drive(d) => drives[d.0 as usize].count(writes),
        Device::Nv(n) => nvram[n.0 as usize].count(writes),
    }
}
