// A shelf that tells no contents, as one over files.
ghost use Rattle.std.specs.Prelude.{◌≤◌};
ghost use Rattle.pur_base.specs.declared.limits.TheConstants.{SLOTS_MIN, SLOTS_MAX, UNITS_MIN, UNITS_MAX};

use pur_base::Device;
use world::{Failed, Shelf, Tallies};

/// A shelf that keeps nothing: a read gives what it likes, and no write lasts. It meets the trait, since it tells no contents.
#[derive(Drop)]
pub struct Blind {
    drives: u8,
    units: u16,
    is_bad: bool,
    tallies: Tallies,
    ghost drives_in: { (SLOTS_MIN ≤ drives) × (drives ≤ SLOTS_MAX) },
    ghost units_in: { (UNITS_MIN ≤ units) × (units ≤ UNITS_MAX) },
}

impl Blind {
    ghost use Rattle.std.specs.Prelude.{◌≡◌};
    ghost use Rattle.pur_base.specs.declared.device.Device.{Device};
    ghost use Rattle.world.specs.Tally.{none};
    ghost use Rattle.world.specs.Tallies.{tally_of};

    /// A shelf whose calls all fail where it is bad.
    pub fn new(drives: u8, units: u16, is_bad: bool) -> Blind
        requires drives { (SLOTS_MIN ≤ drives) × (drives ≤ SLOTS_MAX) }
        requires units { (UNITS_MIN ≤ units) × (units ≤ UNITS_MAX) }
        ensures shape { (result.drives ≡ drives) × (result.units ≡ units) × (result.is_bad ≡ is_bad) }
        ensures sound { (d : Device) → tally_of result.tallies d ≡ none }
    {
        Blind {
            drives,
            units,
            is_bad,
            tallies: Tallies::new(),
        }
    }
}

impl Shelf for Blind {
    ghost use Rattle.world.specs.Untold.{untold, untold_shelf};

    ghost shelf = { λ f. untold f.drives f.units f.tallies };

    ghost shelf_rest = { λ a b. Unit {0} };

    ghost is_shelf = { λ f. untold_shelf f.drives f.units f.tallies f.drives_in f.units_in };

    ghost shelf_rest_stays = { record { reflexive = λ f. tt; transitive = λ a b c ab bc. tt } };

    fn drives(&self) -> u8 {
        self.drives
    }

    fn units(&self) -> u16 {
        self.units
    }

    fn read(&mut self, device: Device, at: u64, into: &mut [u8]) -> Result<(), Failed> {
        if self.is_bad {
            self.tallies.count_read(device);
            return Err(Failed);
        }
        into.fill((at & 7) as u8);
        Ok(())
    }

    fn write(&mut self, device: Device, at: u64, from: &[u8]) -> Result<(), Failed> {
        if self.is_bad || from.len() as u64 > at {
            self.tallies.count_write(device);
            return Err(Failed);
        }
        Ok(())
    }

    fn sync(&mut self, device: Device) -> Result<(), Failed> {
        if self.is_bad {
            self.tallies.count_write(device);
            return Err(Failed);
        }
        Ok(())
    }
}
