ghost use Rattle.std.specs.Prelude.{◌≡◌, ◌↔◌, ◌≤◌, ◌+◌, ◌++◌, length, All, IsTrue};
ghost use Rattle.pur_base.specs.Bytes.{u8, u16, u32, u64, zeros};
ghost use Rattle.pur_base.specs.Places.{place_bytes, places_bytes, FitsBytes};

use crate::limits::SEGMENT_SHARDS;
use crate::place::{Place, Places};

/// The byte in front, and the bytes behind it.
pub fn u8_in(bytes: &[u8]) -> (u8, &[u8])
    requires { 1 ≤ length bytes.now }
    ensures field { bytes.now ≡ u8 result.0 ++ result.1.now }
    ensures rest { length result.1.now + 1 ≡ length bytes.now }
{
    let (front, rest) = bytes.split_at(1);
    (front[0], rest)
}

/// The number of two bytes in front, and the bytes behind it.
pub fn u16_in(bytes: &[u8]) -> (u16, &[u8])
    requires { 2 ≤ length bytes.now }
    ensures field { bytes.now ≡ u16 result.0 ++ result.1.now }
    ensures rest { length result.1.now + 2 ≡ length bytes.now }
{
    let (front, rest) = bytes.split_at(2);
    let number = u16::from_be_bytes([front[0], front[1]]);
    (number, rest)
}

/// The number of four bytes in front, and the bytes behind it.
pub fn u32_in(bytes: &[u8]) -> (u32, &[u8])
    requires { 4 ≤ length bytes.now }
    ensures field { bytes.now ≡ u32 result.0 ++ result.1.now }
    ensures rest { length result.1.now + 4 ≡ length bytes.now }
{
    let (front, rest) = bytes.split_at(4);
    let number = u32::from_be_bytes([front[0], front[1], front[2], front[3]]);
    (number, rest)
}

/// The number of eight bytes in front, and the bytes behind it.
pub fn u64_in(bytes: &[u8]) -> (u64, &[u8])
    requires { 8 ≤ length bytes.now }
    ensures field { bytes.now ≡ u64 result.0 ++ result.1.now }
    ensures rest { length result.1.now + 8 ≡ length bytes.now }
{
    let (front, rest) = bytes.split_at(8);
    let number = u64::from_be_bytes([
        front[0], front[1], front[2], front[3], front[4], front[5], front[6], front[7],
    ]);
    (number, rest)
}

/// The place in front, a slot of one byte and a unit of two, and the bytes behind it.
pub fn place_in(bytes: &[u8]) -> (Place, &[u8])
    requires { 3 ≤ length bytes.now }
    ensures field { bytes.now ≡ place_bytes result.0 ++ result.1.now }
    ensures fits { FitsBytes result.0 }
    ensures rest { length result.1.now + 3 ≡ length bytes.now }
{
    let (slot, rest) = u8_in(bytes);
    let (unit, rest) = u16_in(rest);
    (Place { slot, unit }, rest)
}

/// The nine places of a segment in front, and the bytes behind them.
pub fn places_in(bytes: &[u8]) -> (Places, &[u8])
    requires { 27 ≤ length bytes.now }
    ensures field { bytes.now ≡ places_bytes result.0 ++ result.1.now }
    ensures fits { All FitsBytes result.0 }
    ensures rest { length result.1.now + 27 ≡ length bytes.now }
{
    let mut places = [Place { slot: 0, unit: 0 }; SEGMENT_SHARDS];
    let mut rest = bytes;
    for i in 0..SEGMENT_SHARDS {
        let (place, behind) = place_in(rest);
        places[i] = place;
        rest = behind;
    }
    (places, rest)
}

/// Whether each of the bytes is zero.
pub fn are_zeros(bytes: &[u8]) -> bool
    ensures { IsTrue result ↔ (bytes.now ≡ zeros (length bytes.now)) }
{
    bytes.iter().all(|byte| *byte == 0)
}
