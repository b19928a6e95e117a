// What is read back.
ghost use Rattle.std.specs.Prelude.{◌≤◌, length};
ghost use Rattle.pur_base.specs.declared.limits.TheConstants.{SECTOR_BYTES};
ghost use Rattle.log_codec.specs.declared.limits.TheConstants.{SLOT_BYTES};

use log_codec::Head;
use pur_base::SECTOR_BYTES;

/// A logged command as a device shows it.
#[derive(Drop)]
pub struct Logged {
    pub head: Head,
    /// The bytes of the head, and of the sectors behind it.
    pub(crate) bytes: Vec<u8>,
    ghost has_head: { SECTOR_BYTES ≤ length bytes.items },
    ghost fits: { length bytes.items ≤ SLOT_BYTES },
}

impl Logged {
    ghost use Rattle.std.specs.Prelude.{◌≡◌, ◌*◌, ℕ};
    ghost use Rattle.std.specs.List.{concat};
    ghost use Rattle.pur_base.specs.declared.limits.TheConstants.{REQUEST_SECTORS};
    ghost use Rattle.pur_base.specs.Commands.{Command};
    ghost use Rattle.log_codec.specs.Log.{HasSpelling};
    ghost use Rattle.nvram_log.specs.Logged.{IsReadAs};

    /// The bytes of its sectors, one behind another.
    pub fn sectors(&self) -> &[u8]
        ensures few { length result.now ≤ SECTOR_BYTES * REQUEST_SECTORS }
        ensures text { (number : ℕ) (c : Command) → HasSpelling number c → IsReadAs self.now number c
            → (result.now ≡ concat c.sectors) × (length result.now ≡ SECTOR_BYTES * length c.sectors) }
    {
        &self.bytes[SECTOR_BYTES..]
    }
}
