ghost use Rattle.std.specs.Prelude.{◌≡◌, ◌≤◌, OnOk};
ghost use Rattle.boot_codec.specs.Reading.{Gives, next_number, flushed_number, these, format, slots_of, units_of, opening, drives, nvrams, members, next_numbers};

use crate::bad_record::ReadError;
use crate::flags::{count_set, set_flags};
use crate::front::{fault_at, u8_at, u16_at, u32_at, u64_at};
use crate::limits::{
    DRIVE_FLAGS, FORMAT, MEMBER_DRIVES_MIN, MEMBER_NVRAMS_MIN, NUMBER_LIMIT, NVRAM_FLAGS,
};
use crate::record::{Members, NextNumbers};
use crate::writing::TEXT;
use pur_base::{SLOTS_MAX, SLOTS_MIN, UNITS_MAX, UNITS_MIN};

/// A number from 1 up to below 2^48.
#[tactic(auto, unfolding(crate::specs::Reading::next_number))]
pub fn next_number(bytes: &[u8]) -> Result<(u64, &[u8]), ReadError>
    ensures { Gives (λ x. (x.0, x.1.now)) result (next_number bytes.now) }
{
    let (number, rest) = u64_at(bytes);
    if 1 <= number && number < NUMBER_LIMIT {
        Ok((number, rest))
    } else {
        Err(fault_at(bytes))
    }
}

/// A number below 2^48.
#[tactic(auto, unfolding(crate::specs::Reading::flushed_number))]
pub fn flushed_number(bytes: &[u8]) -> Result<(u64, &[u8]), ReadError>
    ensures { Gives (λ x. (x.0, x.1.now)) result (flushed_number bytes.now) }
{
    let (number, rest) = u64_at(bytes);
    if number < NUMBER_LIMIT {
        Ok((number, rest))
    } else {
        Err(fault_at(bytes))
    }
}

/// What follows these bytes, which stand in front. The first of them that differs fails.
#[tactic(auto, unfolding(crate::specs::Reading::these))]
fn these<'a>(text: &[u8], bytes: &'a [u8]) -> Result<&'a [u8], ReadError>
    ensures { Gives (λ x. (tt, x.now)) result (these text.now bytes.now) }
{
    match text {
        [] => Ok(bytes),
        [first, others @ ..] => {
            let (byte, rest) = u8_at(bytes);
            if byte == *first {
                these(others, rest)
            } else {
                Err(fault_at(bytes))
            }
        }
    }
}

/// The format.
#[tactic(auto, unfolding(crate::specs::Reading::format))]
fn format(bytes: &[u8]) -> Result<&[u8], ReadError>
    ensures { Gives (λ x. (FORMAT, x.now)) result (format bytes.now) }
{
    let (number, rest) = u32_at(bytes);
    if number == FORMAT {
        Ok(rest)
    } else {
        Err(fault_at(bytes))
    }
}

/// The slots, which are the shelf's.
#[tactic(auto, unfolding(crate::specs::Reading::slots_of))]
fn slots_of(bytes: &[u8], slots: u8) -> Result<&[u8], ReadError>
    ensures gives { Gives (λ x. (slots, x.now)) result (slots_of slots bytes.now) }
    ensures slots { OnOk result (slots ≤ SLOTS_MAX) }
{
    let (number, rest) = u16_at(bytes);
    if number == slots as u16 && SLOTS_MIN <= slots && slots <= SLOTS_MAX {
        Ok(rest)
    } else {
        Err(fault_at(bytes))
    }
}

/// The units of each drive, which are the shelf's.
#[tactic(auto, unfolding(crate::specs::Reading::units_of))]
fn units_of(bytes: &[u8], units: u16) -> Result<&[u8], ReadError>
    ensures { Gives (λ x. (units, x.now)) result (units_of units bytes.now) }
{
    let (number, rest) = u16_at(bytes);
    if number == units && UNITS_MIN <= units && units <= UNITS_MAX {
        Ok(rest)
    } else {
        Err(fault_at(bytes))
    }
}

/// The text, the format, and the slots and units of the shelf.
#[tactic(auto, unfolding(crate::specs::Reading::opening))]
pub fn opening(bytes: &[u8], slots: u8, units: u16) -> Result<&[u8], ReadError>
    ensures gives { Gives (λ x. (tt, x.now)) result (opening slots units bytes.now) }
    ensures slots { OnOk result (slots ≤ SLOTS_MAX) }
{
    let rest = these(TEXT, bytes)?;
    let rest = format(rest)?;
    let rest = slots_of(rest, slots)?;
    let rest = units_of(rest, units)?;
    Ok(rest)
}

/// The flags of the member drives, none of them past the slots.
#[tactic(auto, unfolding(crate::specs::Reading::drives))]
fn drives(bytes: &[u8], slots: u8) -> Result<([bool; DRIVE_FLAGS], &[u8]), ReadError>
    requires { slots ≤ SLOTS_MAX }
    ensures { Gives (λ x. (x.0, x.1.now)) result (drives slots bytes.now) }
{
    let (number, rest) = u32_at(bytes);
    let mut drives = [false; DRIVE_FLAGS];
    set_flags(&mut drives, number);
    if number < 1 << slots && MEMBER_DRIVES_MIN <= count_set(&drives) {
        Ok((drives, rest))
    } else {
        Err(fault_at(bytes))
    }
}

/// The flags of the member NVRAM devices.
#[tactic(auto, unfolding(crate::specs::Reading::nvrams))]
fn nvrams(bytes: &[u8]) -> Result<([bool; NVRAM_FLAGS], &[u8]), ReadError>
    ensures { Gives (λ x. (x.0, x.1.now)) result (nvrams bytes.now) }
{
    let (number, rest) = u8_at(bytes);
    let mut nvrams = [false; NVRAM_FLAGS];
    set_flags(&mut nvrams, number as u32);
    if number < 1 << NVRAM_FLAGS && MEMBER_NVRAMS_MIN <= count_set(&nvrams) {
        Ok((nvrams, rest))
    } else {
        Err(fault_at(bytes))
    }
}

/// The members, and the three zeros after them.
#[tactic(auto, unfolding(crate::specs::Reading::members))]
pub fn members(bytes: &[u8], slots: u8) -> Result<(Members, &[u8]), ReadError>
    requires { slots ≤ SLOTS_MAX }
    ensures { Gives (λ x. (x.0, x.1.now)) result (members slots bytes.now) }
{
    let (drives, rest) = drives(bytes, slots)?;
    let (nvrams, rest) = nvrams(rest)?;
    let rest = these(&[0; 3], rest)?;
    Ok((Members { drives, nvrams }, rest))
}

/// The five next numbers.
#[tactic(auto, unfolding(crate::specs::Reading::next_numbers))]
pub fn next_numbers(bytes: &[u8]) -> Result<(NextNumbers, &[u8]), ReadError>
    ensures { Gives (λ x. (x.0, x.1.now)) result (next_numbers bytes.now) }
{
    let (object, rest) = next_number(bytes)?;
    let (medium, rest) = next_number(rest)?;
    let (segment, rest) = next_number(rest)?;
    let (patch_segment, rest) = next_number(rest)?;
    let (sequence, rest) = next_number(rest)?;
    let next = NextNumbers {
        object,
        medium,
        segment,
        patch_segment,
        sequence,
    };
    Ok((next, rest))
}
