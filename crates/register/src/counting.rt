// Flags of drives are counted.
ghost use Rattle.std.specs.Prelude.{◌≡◌, ◌≤◌};
ghost use Rattle.boot_codec.specs.Record.{set_count};

use boot_codec::DRIVE_FLAGS;

/// How many flags are set.
pub(crate) fn count_set(flags: &[bool; DRIVE_FLAGS]) -> usize
    ensures value { result ≡ set_count flags.now }
    ensures bound { result ≤ 24 }
{
    flags.iter().filter(|flag| **flag).count()
}
