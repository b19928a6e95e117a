ghost use Rattle.std.specs.Prelude.{◌≡◌, ℕ, ◌+◌, ◌<◌, ◌≤◌, ◌^◌, ◌||◌, false, length, map, IfOk, All, slice_index_or};
ghost use Rattle.table_plan.specs.Places.{flagged_from, has_place, has_places, is_named, is_staged_at, place_of, places_from, place_in};
ghost use Rattle.memory_spec.specs.Placing.{placed_target, repointed};

use pur_base::{AddressFact, Location, NoMemory, SEGMENT_SECTORS, SegmentId, Target};
use std::alloc::Global;

/// The segment of staged sectors: ids of segments begin at 1.
const STAGED: u64 = 0;

/// Flags the staged sector that a target names, if it names one.
fn flag(target: &Target, flags: &mut [bool])
    ensures len { length flags.new ≡ length flags.old }
    ensures flags { (i : ℕ) → i < length flags.old → slice_index_or flags.new i false ≡ (slice_index_or flags.old i false || is_staged_at i target.now) }
{
    if let Target::Stored(at) = target {
        let index = usize::from(at.index);
        if at.segment.0 == STAGED && index < flags.len() {
            flags[index] = true;
        }
    }
}

/// For each of so many staged sectors whether one of the facts names it.
pub fn flags(alloc: Global, facts: &[AddressFact], staged: usize) -> Result<Vec<bool>, NoMemory>
    ensures len { IfOk result (λ v. length v.items ≡ staged) }
    ensures flags { IfOk result (λ v. (i : ℕ) → i < staged → slice_index_or v.items i false ≡ is_named facts.now i) }
{
    let mut flags = vec![in alloc; false; staged]?;
    for fact in facts {
        flag(&fact.target, &mut flags);
    }
    Ok(flags)
}

/// The flagged indices, ascending: the sectors that are placed, in order of staging.
pub fn flagged(alloc: Global, flags: &[bool]) -> Result<Vec<u16>, NoMemory>
    requires { length flags.now ≤ 2 ^ 16 }
    ensures { IfOk result (λ v. v.items ≡ flagged_from 0 flags.now) }
{
    let mut out = Vec::new(alloc);
    for (i, flag) in flags.iter().enumerate() {
        if *flag {
            out.push(i as u16)?;
        }
    }
    Ok(out)
}

/// The place of the n-th sector that is placed: segments are filled one after another.
fn place(first: u64, n: usize) -> Location
    requires { first + n < 2 ^ 64 }
    ensures { result ≡ place_of first n }
{
    let sectors = usize::from(SEGMENT_SECTORS);
    Location {
        segment: SegmentId(first + (n / sectors) as u64),
        index: (n % sectors) as u16,
    }
}

/// For each staged sector where it is placed, if it is flagged: in segments from that id on.
pub fn places(alloc: Global, flags: &[bool], first: u64) -> Result<Vec<Option<Location>>, NoMemory>
    requires { first + length flags.now < 2 ^ 64 }
    ensures { IfOk result (λ v. v.items ≡ places_from first 0 flags.now) }
{
    let mut out = Vec::new(alloc);
    let mut placed: usize = 0;
    for flag in flags {
        if *flag {
            out.push(Some(place(first, placed)))?;
            placed += 1;
        } else {
            out.push(None)?;
        }
    }
    Ok(out)
}

/// The target with a place in a segment where it is a staged sector.
fn placed_target(target: &Target, places: &[Option<Location>]) -> Target
    requires { has_place places.now target.now }
    ensures { result ≡ placed_target (place_in places.now) target.now }
{
    match target {
        Target::Stored(at) => if at.segment.0 == STAGED {
            match places[usize::from(at.index)] {
                Some(to) => Target::Stored(to),
                None => unreachable!(),
            }
        } else {
            *target
        },
        Target::Zero => Target::Zero,
    }
}

/// Each fact with a place in a segment where it names a staged sector; it keeps its number.
pub fn repointed_facts(
    alloc: Global,
    facts: &[AddressFact],
    places: &[Option<Location>],
) -> Result<Vec<AddressFact>, NoMemory>
    requires { All (has_places places.now) facts.now }
    ensures { IfOk result (λ v. v.items ≡ map (repointed (place_in places.now)) facts.now) }
{
    let mut out = Vec::with_capacity(alloc, facts.len())?;
    for fact in facts {
        out.push(AddressFact {
            target: placed_target(&fact.target, places),
            ..*fact
        })?;
    }
    Ok(out)
}
