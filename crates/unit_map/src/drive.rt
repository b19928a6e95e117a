ghost use Rattle.std.specs.Prelude.{◌≡◌, ◌≤◌};
ghost use Rattle.unit_map.specs.Map.{share, offer};

use crate::free_units::FreeUnits;
use pur_base::UNITS_MAX;

/// A drive: whether it counts as a member, and which of its units are free.
#[derive(Drop)]
pub struct Drive {
    pub member: bool,
    pub free: FreeUnits,
}

impl Drive {
    /// The units that it gives to so many groups: a member gives one at most to each.
    pub fn share(&self, groups: u32) -> u32
        ensures share { result ≡ share groups self.now }
        ensures limit { result ≤ UNITS_MAX }
    {
        if self.member {
            groups.min(u32::from(self.free.count()))
        } else {
            0
        }
    }

    /// The free units by which it is chosen: none where it is no member, or is chosen already.
    pub fn offer(&self, chosen: bool) -> u16
        ensures { result ≡ offer chosen self.now }
    {
        if self.member && !chosen {
            self.free.count()
        } else {
            0
        }
    }
}
