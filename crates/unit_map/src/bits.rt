ghost use Rattle.std.specs.Prelude.{◌≡◌, ◌<◌};
ghost use Rattle.unit_map.specs.Bits.{has_bit as bit, IsBitChanged, IsLowestBit};

/// Whether the bit at a place is set.
pub fn has_bit(word: u64, at: u16) -> bool
    requires { at < 64 }
    ensures { result ≡ bit word at }
{
    word >> at & 1 == 1
}

/// The word with the bit at a place set.
pub fn with_bit(word: u64, at: u16) -> u64
    requires { at < 64 }
    ensures { IsBitChanged word result at 1 }
{
    word | 1 << at
}

/// The word with the bit at a place cleared.
pub fn without_bit(word: u64, at: u16) -> u64
    requires { at < 64 }
    ensures { IsBitChanged word result at 0 }
{
    word & !(1 << at)
}

/// The place of the lowest bit that is set.
pub fn lowest_bit(word: u64) -> u16
    requires { 0 < word }
    ensures { IsLowestBit word result }
{
    word.trailing_zeros() as u16
}
