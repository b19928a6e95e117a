ghost use Rattle.std.specs.Prelude.{◌≡◌, length};
ghost use Rattle.pur_base.specs.Sectors.{filled};

use crate::limits::SECTOR_BYTES;
use std::marker::Model;

/// A sector of 512 bytes. Contracts see it as the list of its bytes.
#[derive(Clone, Copy, Drop)]
pub struct Sector {
    bytes: [u8; SECTOR_BYTES],
}

impl Model for Sector {
    ghost use Rattle.std.specs.Prelude.{List, ℕ};

    ghost Value = { List ℕ };

    ghost view = { λ s. s.bytes };

    ghost inverse = { λ bytes. record { bytes = bytes } };
}

impl Sector {
    /// The sector of these bytes.
    pub fn new(bytes: [u8; SECTOR_BYTES]) -> Sector
        ensures { result ≡ bytes }
    {
        Sector { bytes }
    }

    /// The sector that is full of that byte.
    #[tactic(auto, unfolding(crate::specs::Sectors::filled))]
    pub fn filled(byte: u8) -> Sector
        ensures { result ≡ filled byte }
    {
        Sector {
            bytes: [byte; SECTOR_BYTES],
        }
    }

    /// The bytes of the sector.
    pub fn as_bytes(&self) -> &[u8]
        ensures bytes { result.now ≡ self.now }
        ensures len { length self.now ≡ 512 }
    {
        &self.bytes
    }
}

/// The default sector is full of zeros.
impl Default for Sector {
    fn default() -> Sector {
        Sector::filled(0)
    }
}
