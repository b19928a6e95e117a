// The shelf of a world over files.
ghost use Rattle.std.specs.Prelude.{◌≡◌, ◌≤◌, length};
ghost use Rattle.pur_base.specs.declared.limits.TheConstants.{SLOTS_MIN, SLOTS_MAX, UNITS_MIN, UNITS_MAX, NVRAM_DEVICES};

use crate::opening::{NoShelf, open_drives, open_locked, open_nvram, read_shape};
use pur_base::Device;
use std::fs::File;
use std::io::{Stdin, Stdout};
use std::os::unix::fs::FileExt;
use world::{Failed, Shelf, Tallies};

/// The files of the folder `shelf` in the current folder, and the standard input and output.
/// A file that is absent or has another length is a device whose calls fail.
#[derive(Drop)]
pub struct Files {
    /// `shelf.txt`, locked for as long as it is open.
    pub(crate) lock: File,
    pub(crate) drives: u8,
    pub(crate) units: u16,
    pub(crate) drive_files: Vec<Option<File>>,
    pub(crate) nvram_files: Vec<Option<File>>,
    pub(crate) tallies: Tallies,
    pub(crate) stdin: Stdin,
    pub(crate) source_faults: u64,
    pub(crate) stdout: Stdout,
    pub(crate) sink_faults: u64,
    ghost drives_in: { (SLOTS_MIN ≤ drives) × (drives ≤ SLOTS_MAX) },
    ghost units_in: { (UNITS_MIN ≤ units) × (units ≤ UNITS_MAX) },
    ghost drives_all: { length drive_files.items ≡ drives },
    ghost nvram_all: { length nvram_files.items ≡ NVRAM_DEVICES },
}

impl Files {
    ghost use Rattle.std.specs.Prelude.{IfOk};
    ghost use Rattle.pur_base.specs.declared.device.Device.{Device};
    ghost use Rattle.world.specs.Shelf.{IsOf};
    ghost use Rattle.world.specs.Tally.{none};
    ghost use Rattle.world.specs.Tallies.{tally_of};
    ghost use Rattle.world.specs.Untold.{untold};

    /// Opens the files for reads and writes, and truncates none of them. No other program, nor another call here, opens them while
    /// these are open: it gets `InUse` before it touches a device.
    pub fn open(rt: &HostRuntime) -> Result<Files, NoShelf>
        ensures faults { IfOk result (λ files. (d : Device) → tally_of files.tallies d ≡ none) }
        ensures streams { IfOk result (λ files. (files.source_faults ≡ 0) × (files.sink_faults ≡ 0)) }
    {
        let lock = open_locked(rt)?;
        let Some(shape) = read_shape(&lock) else {
            return Err(NoShelf::BadText);
        };
        Ok(Files {
            lock,
            drives: shape.slots,
            units: shape.units,
            drive_files: open_drives(rt, shape)?,
            nvram_files: open_nvram(rt)?,
            tallies: Tallies::new(),
            stdin: rt.stdin(),
            source_faults: 0,
            stdout: rt.stdout(),
            sink_faults: 0,
        })
    }

    /// How often a call on the device failed.
    pub fn faults(&self, device: Device) -> u64
        requires { IsOf (untold self.now.drives self.now.units self.now.tallies) device }
        ensures { result ≡ (tally_of self.now.tallies device).faults }
    {
        self.tallies.faults(device)
    }

    /// How often a write or a sync of the device failed.
    pub fn write_faults(&self, device: Device) -> u64
        requires { IsOf (untold self.now.drives self.now.units self.now.tallies) device }
        ensures { result ≡ (tally_of self.now.tallies device).write_faults }
    {
        self.tallies.write_faults(device)
    }

    fn file(&self, device: Device) -> Option<&File>
        requires { IsOf (untold self.now.drives self.now.units self.now.tallies) device }
    {
        match device {
            Device::Drive(d) => self.drive_files[d.0 as usize].as_ref(),
            Device::Nv(n) => self.nvram_files[n.0 as usize].as_ref(),
        }
    }
}

impl Shelf for Files {
    ghost use Rattle.world.specs.Untold.{untold, untold_shelf};
    ghost use Rattle.world_file.specs.Rests.{StreamsStay, streams_stay};

    ghost shelf = { λ f. untold f.drives f.units f.tallies };

    ghost shelf_rest = { StreamsStay };

    ghost is_shelf = { λ f. untold_shelf f.drives f.units f.tallies f.drives_in f.units_in };

    ghost shelf_rest_stays = { streams_stay };

    fn drives(&self) -> u8 {
        self.drives
    }

    fn units(&self) -> u16 {
        self.units
    }

    fn read(&mut self, device: Device, at: u64, into: &mut [u8]) -> Result<(), Failed> {
        let is_done = match self.file(device) {
            Some(file) => file.read_exact_at(into, at).is_ok(),
            None => false,
        };
        if !is_done {
            self.tallies.count_read(device);
            return Err(Failed);
        }
        Ok(())
    }

    fn write(&mut self, device: Device, at: u64, from: &[u8]) -> Result<(), Failed> {
        let is_done = match self.file(device) {
            Some(file) => file.write_all_at(from, at).is_ok(),
            None => false,
        };
        if !is_done {
            self.tallies.count_write(device);
            return Err(Failed);
        }
        Ok(())
    }

    fn sync(&mut self, device: Device) -> Result<(), Failed> {
        let is_done = match self.file(device) {
            Some(file) => file.sync_data().is_ok(),
            None => false,
        };
        if !is_done {
            self.tallies.count_write(device);
            return Err(Failed);
        }
        Ok(())
    }
}
