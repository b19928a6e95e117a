// The slots of the boot region.
ghost use Rattle.std.specs.Prelude.{◌≡◌};
ghost use Rattle.boot_codec.specs.Region.{gate_place, body_place};
ghost use Rattle.boot_region.specs.Slots.{slot_in};

use pur_base::{SECTOR_BYTES, UNIT_BYTES};

/// A slot of the boot region. Records of even generations go to slot A.
#[derive(Clone, Copy, PartialEq, Eq)]
pub enum Slot {
    A,
    B,
}

impl Slot {
    /// Where the slot's gate stands on a drive.
    pub fn gate(self) -> u64
        ensures { result ≡ gate_place (slot_in self) }
    {
        match self {
            Slot::A => 0,
            Slot::B => SECTOR_BYTES as u64,
        }
    }

    /// Where its body stands.
    pub fn body(self) -> u64
        ensures { result ≡ body_place (slot_in self) }
    {
        match self {
            Slot::A => UNIT_BYTES as u64,
            Slot::B => 2 * UNIT_BYTES as u64,
        }
    }
}
