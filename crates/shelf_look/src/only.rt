// A shelf that is only read.
ghost use Rattle.std.specs.Prelude.{◌≡◌, ◌≤◌};
ghost use Rattle.pur_base.specs.declared.limits.TheConstants.{SLOTS_MIN, SLOTS_MAX, UNITS_MIN, UNITS_MAX};

use pur_base::Device;
use world::{Failed, Shelf, Tallies};

/// A shelf of which reads alone are passed on. It tells no contents, and counts its own calls that fail.
#[derive(Drop)]
pub struct ReadOnly<S: Shelf> {
    inner: S,
    drives: u8,
    units: u16,
    tallies: Tallies,
    ghost drives_in: { (SLOTS_MIN ≤ drives) × (drives ≤ SLOTS_MAX) },
    ghost units_in: { (UNITS_MIN ≤ units) × (units ≤ UNITS_MAX) },
    ghost drives_are: { (S.shelf inner).drives ≡ drives },
    ghost units_are: { (S.shelf inner).units ≡ units },
}

impl<S: Shelf> ReadOnly<S> {
    /// The shelf, for reads alone.
    pub fn new(inner: S) -> ReadOnly<S>
        ensures { result.inner ≡ inner }
    {
        let drives = inner.drives();
        let units = inner.units();
        ReadOnly {
            inner,
            drives,
            units,
            tallies: Tallies::new(),
        }
    }

    /// The shelf within.
    pub fn inner(&self) -> &S
        ensures { result.now ≡ self.now.inner }
    {
        &self.inner
    }
}

impl<S: Shelf> Shelf for ReadOnly<S> {
    ghost use Rattle.world.specs.Untold.{untold, untold_shelf};
    ghost use Rattle.shelf_look.specs.Reads.{IsOnlyRead};
    ghost use Rattle.shelf_look.specs.ReadsLaws.{only_read_stays};

    ghost shelf = { λ r. untold r.drives r.units r.tallies };

    ghost shelf_rest = { λ a b. IsOnlyRead S.shelf S.shelf_rest a.inner b.inner };

    ghost is_shelf = { λ r. untold_shelf r.drives r.units r.tallies r.drives_in r.units_in };

    ghost shelf_rest_stays = { only_read_stays S.shelf S.shelf_rest S.is_shelf S.shelf_rest_stays (λ r. r.inner) };

    fn drives(&self) -> u8 {
        self.drives
    }

    fn units(&self) -> u16 {
        self.units
    }

    fn read(&mut self, device: Device, at: u64, into: &mut [u8]) -> Result<(), Failed> {
        match self.inner.read(device, at, into) {
            Ok(()) => Ok(()),
            Err(failed) => {
                self.tallies.count_read(device);
                Err(failed)
            }
        }
    }

    fn write(&mut self, device: Device, _at: u64, _from: &[u8]) -> Result<(), Failed> {
        self.tallies.count_write(device);
        Err(Failed)
    }

    fn sync(&mut self, device: Device) -> Result<(), Failed> {
        self.tallies.count_write(device);
        Err(Failed)
    }
}
