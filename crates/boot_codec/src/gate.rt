ghost use Rattle.std.specs.Prelude.{◌≡◌, ◌<◌, length, slice_index, IsTrue, ◌↔◌};
ghost use Rattle.boot_codec.specs.Gate.{gate_bytes};

use pur_base::{SECTOR_BYTES, Sector};

/// Whether the gate is open, from the bytes of its sector: the first is 1.
pub fn is_open_gate(bytes: &[u8]) -> bool
    requires { 0 < length bytes.now }
    ensures { IsTrue result ↔ (slice_index bytes.now 0 ≡ 1) }
{
    bytes[0] == 1
}

/// The sector of an open or a closed gate: the first byte is 1 or 0, and the others are 0.
#[tactic(auto, unfolding(crate::specs::Gate::gate_bytes))]
pub fn gate_sector(is_open: bool) -> Sector
    ensures { result ≡ gate_bytes is_open }
{
    let mut bytes = [0; SECTOR_BYTES];
    bytes[0] = is_open as u8;
    Sector::new(bytes)
}
