ghost use Rattle.std.specs.Prelude.{◌≡◌, ◌<◌, ◌≤◌, ◌+◌, ◌-◌, ◌&&◌, nat_le, nat_lt, length, drop, IfOk, OnOk, IsTrue, Ok};
ghost use Rattle.boot_codec.specs.Parts.{IsBehind, patch_of};
ghost use Rattle.boot_codec.specs.Reading.{Gives, with_front, place_from, places_from, segment, segments, tag_from, facts, segment_count, patch, patches, patch_count, frontier_count, lists};

use crate::bad_record::ReadError;
use crate::front::{fault_at, u8_at, u16_at, u32_at, u64_at};
use crate::limits::{
    FACTS_PER_SEGMENT, HEADER_BYTES, PATCH_SEGMENTS, PATCHES, PLACE_BYTES, PLACES_BYTES,
    RECORD_BYTES, SEGMENT_BYTES, TAG_MAX,
};
use crate::patch::{PatchHead, PatchSegment, Patches};
use pur_base::{BOOT_UNITS, Place, Places, SEGMENT_SHARDS};
use std::alloc::Global;

/// A data unit on that slot or a greater one.
#[tactic(auto, unfolding(crate::specs::Reading::place_from))]
fn place_from(bytes: &[u8], slots: u8, units: u16, least: u8) -> Result<(Place, &[u8]), ReadError>
    ensures gives { Gives (λ x. (x.0, x.1.now)) result (place_from slots units least bytes.now) }
    ensures slot { IfOk result (λ x. x.0.slot < slots) }
{
    let (slot, rest) = u8_at(bytes);
    if slot < least || slots <= slot {
        return Err(fault_at(bytes));
    }
    let (unit, after) = u16_at(rest);
    if unit < BOOT_UNITS || units <= unit {
        return Err(fault_at(rest));
    }
    Ok((Place { slot, unit }, after))
}

/// Nine data units on ascending slots.
fn places(bytes: &[u8], slots: u8, units: u16) -> Result<(Places, &[u8]), ReadError>
    ensures { Gives (λ x. (x.0, x.1.now)) result (places_from slots units 0 SEGMENT_SHARDS bytes.now) }
{
    let mut places = [Place { slot: 0, unit: 0 }; SEGMENT_SHARDS];
    let mut rest = bytes;
    let mut least = 0;
    for shard in 0..SEGMENT_SHARDS {
        let (place, after) = place_from(rest, slots, units, least)?;
        places[shard] = place;
        least = place.slot + 1;
        rest = after;
    }
    Ok((places, rest))
}

/// Whether it is a data unit on that slot or a greater one.
fn is_place_from(place: Place, slots: u8, units: u16, least: u16) -> bool
    ensures { result ≡ ((nat_le least place.slot && nat_lt place.slot slots) && (nat_le BOOT_UNITS place.unit && nat_lt place.unit units)) }
{
    let slot = least <= place.slot as u16 && place.slot < slots;
    let unit = BOOT_UNITS <= place.unit && place.unit < units;
    slot && unit
}

/// Whether nine data units on ascending slots stand there, which it reads then. It looks for no fault.
fn places_at_once(bytes: &[u8], slots: u8, units: u16, into: &mut Places) -> bool
    requires { PLACES_BYTES ≤ length bytes.now }
    ensures { IsTrue result → places_from slots units 0 SEGMENT_SHARDS bytes.now ≡ Ok (into.new, drop PLACES_BYTES bytes.now) }
{
    let mut least = 0;
    let mut lawful = true;
    for shard in 0..SEGMENT_SHARDS {
        let at = PLACE_BYTES * shard;
        let slot = bytes[at];
        let unit = u16::from_be_bytes([bytes[at + 1], bytes[at + 2]]);
        let place = Place { slot, unit };
        lawful &= is_place_from(place, slots, units, least);
        into[shard] = place;
        least = slot as u16 + 1;
    }
    lawful
}

/// Whether a lawful segment stands there, which it reads then. It looks for no fault.
fn segment_at_once(bytes: &[u8], slots: u8, units: u16, into: &mut PatchSegment) -> bool
    requires { SEGMENT_BYTES ≤ length bytes.now }
    ensures { IsTrue result → segment slots units bytes.now ≡ Ok (into.new, drop SEGMENT_BYTES bytes.now) }
{
    let (id, rest) = u64_at(bytes);
    into.id = id;
    places_at_once(rest, slots, units, &mut into.places)
}

/// A segment: any id, and its nine places.
#[tactic(auto, unfolding(crate::specs::Reading::segment))]
fn segment(bytes: &[u8], slots: u8, units: u16) -> Result<(PatchSegment, &[u8]), ReadError>
    ensures { Gives (λ x. (x.0, x.1.now)) result (segment slots units bytes.now) }
{
    let (id, rest) = u64_at(bytes);
    let (places, rest) = places(rest, slots, units)?;
    Ok((PatchSegment { id, places }, rest))
}

/// Reads so many segments behind others, field by field, which finds the first fault.
#[cold]
#[inline(never)]
fn segments_in_turn<'a>(
    count: u16,
    bytes: &'a [u8],
    slots: u8,
    units: u16,
    into: &mut Vec<PatchSegment>,
) -> Result<&'a [u8], ReadError>
    ensures gives { Gives (λ rest. (into.new.items, rest.now)) result (with_front into.old.items (segments slots units count bytes.now)) }
    ensures count { OnOk result (length into.new.items ≡ length into.old.items + count) }
{
    let mut rest = bytes;
    for _ in 0..count {
        let (next, after) = segment(rest, slots, units)?;
        into.push(next)?;
        rest = after;
    }
    Ok(rest)
}

/// Reads so many segments behind others. What it has read stays after a fault.
fn segments<'a>(
    count: u16,
    bytes: &'a [u8],
    slots: u8,
    units: u16,
    into: &mut Vec<PatchSegment>,
) -> Result<&'a [u8], ReadError>
    ensures gives { Gives (λ rest. (into.new.items, rest.now)) result (with_front into.old.items (segments slots units count bytes.now)) }
    ensures count { OnOk result (length into.new.items ≡ length into.old.items + count) }
{
    let mut rest = bytes;
    for i in 0..count {
        let mut next = PatchSegment::default();
        if rest.len() < SEGMENT_BYTES || !segment_at_once(rest, slots, units, &mut next) {
            return segments_in_turn(count - i, rest, slots, units, into);
        }
        into.push(next)?;
        rest = &rest[SEGMENT_BYTES..];
    }
    Ok(rest)
}

/// A tag that is that one or a greater one.
#[tactic(auto, unfolding(crate::specs::Reading::tag_from))]
fn tag_from(bytes: &[u8], least: u8) -> Result<(u8, &[u8]), ReadError>
    ensures { Gives (λ x. (x.0, x.1.now)) result (tag_from least bytes.now) }
{
    let (tag, rest) = u8_at(bytes);
    if least <= tag && tag <= TAG_MAX {
        Ok((tag, rest))
    } else {
        Err(fault_at(bytes))
    }
}

/// The number of a patch's facts.
#[tactic(auto, unfolding(crate::specs::Reading::facts))]
fn facts(bytes: &[u8]) -> Result<(u32, &[u8]), ReadError>
    ensures { Gives (λ x. (x.0, x.1.now)) result (facts bytes.now) }
{
    let (facts, rest) = u32_at(bytes);
    if 1 <= facts {
        Ok((facts, rest))
    } else {
        Err(fault_at(bytes))
    }
}

/// The number of a patch's segments, which the facts need and which have room.
#[tactic(auto, unfolding(crate::specs::Reading::segment_count))]
fn segment_count(bytes: &[u8], facts: u32, room: u16) -> Result<(u16, &[u8]), ReadError>
    ensures gives { Gives (λ x. (x.0, x.1.now)) result (segment_count facts room bytes.now) }
    ensures room { IfOk result (λ x. x.0 ≤ room) }
{
    let (count, rest) = u16_at(bytes);
    if count as u32 == facts.div_ceil(FACTS_PER_SEGMENT) && count <= room {
        Ok((count, rest))
    } else {
        Err(fault_at(bytes))
    }
}

/// Reads a patch of that tag or a greater one, with at most so many segments, which it puts behind others. What it has read of them stays after a fault.
#[tactic(auto, unfolding(crate::specs::Reading::patch))]
fn patch<'a>(
    bytes: &'a [u8],
    slots: u8,
    units: u16,
    least: u8,
    room: u16,
    into: &mut Vec<PatchSegment>,
) -> Result<(PatchHead, &'a [u8]), ReadError>
    ensures gives { Gives (λ x. (patch_of into.new.items x.0, x.1.now)) result (patch slots units least room bytes.now) }
    ensures behind { IfOk result (λ x. IsBehind into.old.items into.new.items x.0) }
    ensures room { IfOk result (λ x. x.0.end - x.0.start ≤ room) }
{
    let (tag, rest) = tag_from(bytes, least)?;
    let (facts, rest) = facts(rest)?;
    let (count, rest) = segment_count(rest, facts, room)?;
    let start = into.len();
    let rest = segments(count, rest, slots, units, into)?;
    let end = into.len();
    let head = PatchHead {
        tag,
        facts,
        start,
        end,
    };
    Ok((head, rest))
}

/// So many patches by ascending tag. A good guess of how many segments they have spares an allocation.
fn patches(
    alloc: Global,
    count: u16,
    guess: usize,
    bytes: &[u8],
    slots: u8,
    units: u16,
) -> Result<(Patches, &[u8]), ReadError>
    ensures { Gives (λ x. (x.0, x.1.now)) result (patches slots units 1 PATCH_SEGMENTS count bytes.now) }
{
    let mut heads = Vec::with_capacity(alloc, count as usize)?;
    let mut segments = Vec::with_capacity(alloc, guess)?;
    let mut rest = bytes;
    let mut least = 1;
    let mut room = PATCH_SEGMENTS;
    for _ in 0..count {
        let (head, after) = patch(rest, slots, units, least, room, &mut segments)?;
        heads.push(head)?;
        rest = after;
        least = head.tag;
        room -= (head.end - head.start) as u16;
    }
    Ok((Patches::from_parts(heads, segments), rest))
}

/// The number of patches.
#[tactic(auto, unfolding(crate::specs::Reading::patch_count))]
fn patch_count(bytes: &[u8]) -> Result<(u16, &[u8]), ReadError>
    ensures { Gives (λ x. (x.0, x.1.now)) result (patch_count bytes.now) }
{
    let (count, rest) = u16_at(bytes);
    if count <= PATCHES {
        Ok((count, rest))
    } else {
        Err(fault_at(bytes))
    }
}

/// The number of frontier units, which is 0.
#[tactic(auto, unfolding(crate::specs::Reading::frontier_count))]
fn frontier_count(bytes: &[u8]) -> Result<&[u8], ReadError>
    ensures { Gives (λ x. (0, x.now)) result (frontier_count bytes.now) }
{
    let (count, rest) = u16_at(bytes);
    if count == 0 {
        Ok(rest)
    } else {
        Err(fault_at(bytes))
    }
}

/// The counts, the length and the patches. The length is judged last.
#[tactic(auto, unfolding(crate::specs::Reading::lists))]
pub fn lists(
    alloc: Global,
    bytes: &[u8],
    slots: u8,
    units: u16,
) -> Result<(Patches, &[u8]), ReadError>
    ensures { Gives (λ x. (x.0, x.1.now)) result (lists slots units bytes.now) }
{
    let (count, rest) = patch_count(bytes)?;
    let field = frontier_count(rest)?;
    let (len, rest) = u32_at(field);
    let listed = (len as usize).saturating_sub(HEADER_BYTES);
    let guess = (listed / SEGMENT_BYTES).min(PATCH_SEGMENTS as usize);
    let (patches, rest) = patches(alloc, count, guess, rest, slots, units)?;
    if len as usize == RECORD_BYTES.saturating_sub(rest.len()) {
        Ok((patches, rest))
    } else {
        Err(fault_at(field))
    }
}
