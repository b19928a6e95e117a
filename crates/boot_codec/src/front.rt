ghost use Rattle.std.specs.Prelude.{◌≡◌, length, drop, slice_index};
ghost use Rattle.std.specs.Int.{w16, w32, w64, from_be_bytes};
ghost use Rattle.boot_codec.specs.declared.bad_record.ReadError.TheVariants as errors;
ghost use Rattle.boot_codec.specs.Reading.{fault_at};

use crate::bad_record::{BadRecord, ReadError};
use crate::limits::RECORD_BYTES;

/// The byte at an index, or 0 past the end.
fn byte_at(bytes: &[u8], index: usize) -> u8
    ensures { result ≡ slice_index bytes.now index }
{
    if index < bytes.len() { bytes[index] } else { 0 }
}

/// The byte in front, and the bytes after it.
pub fn u8_at(bytes: &[u8]) -> (u8, &[u8])
    ensures number { result.0 ≡ slice_index bytes.now 0 }
    ensures rest { result.1.now ≡ drop 1 bytes.now }
{
    match bytes {
        [first, rest @ ..] => (*first, rest),
        [] => (0, &[]),
    }
}

/// The number of two bytes of which some are missing, which count as 0.
#[cold]
fn cut_u16(bytes: &[u8]) -> u16
    ensures { result ≡ from_be_bytes w16 bytes.now }
{
    u16::from_be_bytes([byte_at(bytes, 0), byte_at(bytes, 1)])
}

/// The number of two bytes in front, and the bytes after it.
#[tactic(auto, using(crate::proofs::FieldLemmas::front16))]
pub fn u16_at(bytes: &[u8]) -> (u16, &[u8])
    ensures number { result.0 ≡ from_be_bytes w16 bytes.now }
    ensures rest { result.1.now ≡ drop 2 bytes.now }
{
    match bytes.split_first_chunk() {
        Some((front, rest)) => (u16::from_be_bytes(*front), rest),
        None => (cut_u16(bytes), &[]),
    }
}

/// The number of four bytes of which some are missing, which count as 0.
#[cold]
fn cut_u32(bytes: &[u8]) -> u32
    ensures { result ≡ from_be_bytes w32 bytes.now }
{
    u32::from_be_bytes([
        byte_at(bytes, 0),
        byte_at(bytes, 1),
        byte_at(bytes, 2),
        byte_at(bytes, 3),
    ])
}

/// The number of four bytes in front, and the bytes after it.
#[tactic(auto, using(crate::proofs::FieldLemmas::front32))]
pub fn u32_at(bytes: &[u8]) -> (u32, &[u8])
    ensures number { result.0 ≡ from_be_bytes w32 bytes.now }
    ensures rest { result.1.now ≡ drop 4 bytes.now }
{
    match bytes.split_first_chunk() {
        Some((front, rest)) => (u32::from_be_bytes(*front), rest),
        None => (cut_u32(bytes), &[]),
    }
}

/// The number of eight bytes of which some are missing, which count as 0.
#[cold]
fn cut_u64(bytes: &[u8]) -> u64
    ensures { result ≡ from_be_bytes w64 bytes.now }
{
    u64::from_be_bytes([
        byte_at(bytes, 0),
        byte_at(bytes, 1),
        byte_at(bytes, 2),
        byte_at(bytes, 3),
        byte_at(bytes, 4),
        byte_at(bytes, 5),
        byte_at(bytes, 6),
        byte_at(bytes, 7),
    ])
}

/// The number of eight bytes in front, and the bytes after it.
#[tactic(auto, using(crate::proofs::FieldLemmas::front64))]
pub fn u64_at(bytes: &[u8]) -> (u64, &[u8])
    ensures number { result.0 ≡ from_be_bytes w64 bytes.now }
    ensures rest { result.1.now ≡ drop 8 bytes.now }
{
    match bytes.split_first_chunk() {
        Some((front, rest)) => (u64::from_be_bytes(*front), rest),
        None => (cut_u64(bytes), &[]),
    }
}

/// The fault of a field that begins where these bytes do, the last bytes of a record.
pub fn fault_at(bytes: &[u8]) -> ReadError
    ensures { result ≡ errors.Bad (fault_at bytes.now) }
{
    ReadError::Bad(BadRecord {
        place: RECORD_BYTES.saturating_sub(bytes.len()),
        byte: byte_at(bytes, 0),
    })
}
