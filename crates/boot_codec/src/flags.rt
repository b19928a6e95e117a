ghost use Rattle.std.specs.Prelude.{◌≡◌, ◌^◌, ◌<◌, ◌≤◌, length};
ghost use Rattle.boot_codec.specs.declared.limits.TheConstants.{DRIVE_FLAGS};
ghost use Rattle.boot_codec.specs.Record.{mask, set_count};
ghost use Rattle.boot_codec.specs.Reading.{flags};

/// The number whose lowest bits are the flags.
pub fn mask_of(flags: &[bool]) -> u32
    requires { length flags.now ≤ DRIVE_FLAGS }
    ensures mask { result ≡ mask flags.now }
    ensures below { result < 2 ^ length flags.now }
{
    match flags {
        [] => 0,
        [first, others @ ..] => *first as u32 + 2 * mask_of(others),
    }
}

/// Sets each flag as the number's bit is.
pub fn set_flags(into: &mut [bool], number: u32)
    ensures { into.new ≡ flags (length into.old) number }
{
    let mut left = number;
    for i in 0..into.len() {
        into[i] = left % 2 == 1;
        left /= 2;
    }
}

/// How many flags are set.
pub fn count_set(flags: &[bool]) -> usize
    ensures { result ≡ set_count flags.now }
{
    flags.iter().filter(|flag| **flag).count()
}
