// Which calls are to fail.
ghost use Rattle.std.specs.Prelude.{◌≡◌, ◌≢◌, ◌<◌, ◌≤◌, ℕ, [], length, false, true, OnOk, OnErr};
ghost use Rattle.world_mem.specs.Parts.{disk_of, disks_of, disk_at, bytes_at, made_on, made_at, plan_of, plans_of, plan_at, naming, nth_call, pulling, IsBlank};

use crate::MemWorld;
use crate::part::Part;
use pur_base::{Device, NoMemory};

fn set_pulled(parts: &mut Vec<Part>, k: usize, pulled: bool)
    requires { k < length parts.old.items }
    ensures plan { plan_at (plans_of parts.new.items) k ≡ pulling (plan_at (plans_of parts.old.items) k) pulled }
    ensures others { (j : ℕ) → j ≢ k → plan_at (plans_of parts.new.items) j ≡ plan_at (plans_of parts.old.items) j }
    ensures disks { disks_of parts.new.items ≡ disks_of parts.old.items }
    ensures len { length parts.new.items ≡ length parts.old.items }
{
    parts[k].set_pulled(pulled);
}

fn name(parts: &mut Vec<Part>, k: usize, nth: u64) -> Result<(), NoMemory>
    requires inside { k < length parts.old.items }
    requires counted { 1 ≤ nth }
    ensures ok { OnOk result (plan_at (plans_of parts.new.items) k ≡ naming (plan_at (plans_of parts.old.items) k) (nth_call (made_at parts.old.items k) nth)) }
    ensures err { OnErr result (plan_at (plans_of parts.new.items) k ≡ plan_at (plans_of parts.old.items) k) }
    ensures others { (j : ℕ) → j ≢ k → plan_at (plans_of parts.new.items) j ≡ plan_at (plans_of parts.old.items) j }
    ensures disks { disks_of parts.new.items ≡ disks_of parts.old.items }
    ensures len { length parts.new.items ≡ length parts.old.items }
{
    parts[k].name(nth)
}

fn blank(parts: &mut Vec<Part>, k: usize)
    requires { k < length parts.old.items }
    ensures blank { IsBlank (length (bytes_at parts.old.items k)) (disk_at (disks_of parts.new.items) k) }
    ensures counts { ((disk_at (disks_of parts.new.items) k).faults ≡ (disk_at (disks_of parts.old.items) k).faults) × ((disk_at (disks_of parts.new.items) k).write_faults ≡ (disk_at (disks_of parts.old.items) k).write_faults) }
    ensures plan { plan_at (plans_of parts.new.items) k ≡ pulling (plan_at (plans_of parts.old.items) k) false }
    ensures other_disks { (j : ℕ) → j ≢ k → disk_at (disks_of parts.new.items) j ≡ disk_at (disks_of parts.old.items) j }
    ensures others { (j : ℕ) → j ≢ k → plan_at (plans_of parts.new.items) j ≡ plan_at (plans_of parts.old.items) j }
    ensures len { length parts.new.items ≡ length parts.old.items }
    ensures size { (j : ℕ) → length (bytes_at parts.new.items j) ≡ length (bytes_at parts.old.items j) }
{
    parts[k].blank();
}

impl MemWorld {
    ghost use Rattle.pur_base.specs.declared.device.Device.{Device};
    ghost use Rattle.world.specs.Shelf.{IsOf, OthersStay, size_of};
    ghost use Rattle.world_mem.specs.Past.{shelved, plan_on, calls_on, SameWorld, SamePlans, BeginsAnew};

    /// From now on each call on the device fails.
    pub fn pull(&mut self, device: Device)
        requires { IsOf (shelved self.old) device }
        ensures plan { plan_on self.new device ≡ pulling (plan_on self.old device) true }
        ensures others { (d : Device) → d ≢ device → plan_on self.new d ≡ plan_on self.old d }
        ensures same { SameWorld self.old self.new }
    {
        match device {
            Device::Drive(d) => set_pulled(&mut self.drives, d.0 as usize, true),
            Device::Nv(n) => set_pulled(&mut self.nvram, n.0 as usize, true),
        }
    }

    /// The device is there again with the bytes that it had.
    pub fn put_back(&mut self, device: Device)
        requires { IsOf (shelved self.old) device }
        ensures plan { plan_on self.new device ≡ pulling (plan_on self.old device) false }
        ensures others { (d : Device) → d ≢ device → plan_on self.new d ≡ plan_on self.old d }
        ensures same { SameWorld self.old self.new }
    {
        match device {
            Device::Drive(d) => set_pulled(&mut self.drives, d.0 as usize, false),
            Device::Nv(n) => set_pulled(&mut self.nvram, n.0 as usize, false),
        }
    }

    /// The device is there again with zero bytes. What went before is forgotten: nothing is claimed of a stop before this.
    pub fn put_blank(&mut self, device: Device)
        requires { IsOf (shelved self.old) device }
        ensures blank { IsBlank (size_of (shelved self.old) device) ((shelved self.new).disk device) }
        ensures counts { (((shelved self.new).disk device).faults ≡ ((shelved self.old).disk device).faults) × (((shelved self.new).disk device).write_faults ≡ ((shelved self.old).disk device).write_faults) }
        ensures plan { plan_on self.new device ≡ pulling (plan_on self.old device) false }
        ensures other_disks { OthersStay device (shelved self.old) (shelved self.new) }
        ensures others { (d : Device) → d ≢ device → plan_on self.new d ≡ plan_on self.old d }
        ensures anew { BeginsAnew self.old self.new }
    {
        self.calls.clear();
        match device {
            Device::Drive(d) => blank(&mut self.drives, d.0 as usize),
            Device::Nv(n) => blank(&mut self.nvram, n.0 as usize),
        }
    }

    /// The nth next call on the device fails, counted from 1.
    pub fn fail(&mut self, device: Device, nth: u64) -> Result<(), NoMemory>
        requires there { IsOf (shelved self.old) device }
        requires counted { 1 ≤ nth }
        ensures ok { OnOk result (plan_on self.new device ≡ naming (plan_on self.old device) (nth_call (calls_on self.old device) nth)) }
        ensures err { OnErr result (plan_on self.new device ≡ plan_on self.old device) }
        ensures others { (d : Device) → d ≢ device → plan_on self.new d ≡ plan_on self.old d }
        ensures same { SameWorld self.old self.new }
    {
        match device {
            Device::Drive(d) => name(&mut self.drives, d.0 as usize, nth),
            Device::Nv(n) => name(&mut self.nvram, n.0 as usize, nth),
        }
    }
}
