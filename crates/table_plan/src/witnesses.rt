ghost use Rattle.std.specs.Prelude.{◌≡◌, ◌≢◌, ℕ, ◌+◌, ◌<◌, ◌++◌, Bool, true, false, not, filter, length, slice_index, slice_index_or, AllPairs, IfOk, IfSome, IfNone, None};
ghost use Rattle.std.specs.List.{filter_map};
ghost use Rattle.std.specs.Option.{is_some};
ghost use Rattle.table_plan.specs.Unused.{last_witness, stands_in, witness_or};

use pur_base::{AddressFact, MediumId, NoMemory, Target};
use std::alloc::Global;

/// An address that named a sector of a segment when it was last looked at. It is a hint, which is checked where it is used.
#[derive(Clone, Copy, PartialEq, Eq)]
pub struct Witness {
    pub medium: MediumId,
    pub sector: u32,
}

/// The address of a fact.
pub fn witness_of(fact: &AddressFact) -> Witness
    ensures { (result.medium ≡ fact.now.medium) × (result.sector ≡ fact.now.sector) }
{
    Witness {
        medium: fact.medium,
        sector: fact.sector,
    }
}

/// Where an id stands among ascending ones, or `None` where it isn't one of them.
fn search(ids: &[u64], id: u64) -> Option<usize>
    requires { AllPairs (λ i j. i < j) ids.now }
    ensures some { IfSome result (λ at. (at < length ids.now) × (slice_index ids.now at ≡ id)) }
    ensures none { IfNone result ((i : ℕ) → i < length ids.now → slice_index ids.now i ≢ id) }
{
    let at = ids.partition_point(|other| *other < id);
    if at < ids.len() && ids[at] == id {
        Some(at)
    } else {
        None
    }
}

/// The same. An id below all of them, as most are that are looked for, takes no search.
pub fn place_of(ids: &[u64], id: u64) -> Option<usize>
    requires { AllPairs (λ i j. i < j) ids.now }
    ensures some { IfSome result (λ at. (at < length ids.now) × (slice_index ids.now at ≡ id)) }
    ensures none { IfNone result ((i : ℕ) → i < length ids.now → slice_index ids.now i ≢ id) }
{
    if ids.is_empty() || id < ids[0] {
        None
    } else {
        search(ids, id)
    }
}

/// Whether a sector stands in the segment.
pub fn stands_in(target: &Target, segment: u64) -> bool
    ensures { result ≡ stands_in segment target.now }
{
    match target {
        Target::Stored(at) => at.segment.0 == segment,
        Target::Zero => false,
    }
}

/// Where the segment that a sector stands in is among ascending ids, or `None` where it isn't one of them.
pub fn place_in(target: &Target, ids: &[u64]) -> Option<usize>
    requires { AllPairs (λ i j. i < j) ids.now }
    ensures some { IfSome result (λ at. (at < length ids.now) × (stands_in (slice_index ids.now at) target.now ≡ true)) }
    ensures none { IfNone result ((i : ℕ) → i < length ids.now → stands_in (slice_index ids.now i) target.now ≡ false) }
{
    match target {
        Target::Stored(at) => place_of(ids, at.segment.0),
        Target::Zero => None,
    }
}

/// Those of the ids for which nothing was found.
pub fn unfound(alloc: Global, ids: &[u64], found: &[Option<Witness>]) -> Result<Vec<u64>, NoMemory>
    requires { length found.now ≡ length ids.now }
    ensures { IfOk result (λ v. (p : ℕ → Bool) → ((i : ℕ) → i < length ids.now → is_some (slice_index_or found.now i None) ≡ p (slice_index ids.now i))
        → v.items ≡ filter (λ id. not (p id)) ids.now) }
{
    let mut out = Vec::new(alloc);
    for (i, id) in ids.iter().enumerate() {
        if found[i].is_none() {
            out.push(*id)?;
        }
    }
    Ok(out)
}

/// Puts the address of a fact in the place of the segment that it names, if that is one of as many as there are places, from an id on.
fn note(fact: &AddressFact, first: u64, found: &mut [Option<Witness>])
    ensures { (i : ℕ) → i < length found.old → slice_index_or found.new i None ≡ witness_or (first + i) (slice_index_or found.old i None) fact.now }
{
    if let Target::Stored(at) = fact.target {
        let segment = at.segment.0;
        if first <= segment && segment - first < found.len() as u64 {
            found[(segment - first) as usize] = Some(witness_of(fact));
        }
    }
}

/// Of each of so many segments, from an id on, the last address of these facts that names a sector of it.
pub fn new_witnesses(
    alloc: Global,
    first: u64,
    count: usize,
    facts: &[AddressFact],
) -> Result<Vec<Option<Witness>>, NoMemory>
    ensures len { IfOk result (λ v. length v.items ≡ count) }
    ensures last { IfOk result (λ v. (i : ℕ) → i < count → slice_index_or v.items i None ≡ last_witness (first + i) None facts.now) }
{
    let mut found = vec![in alloc; None; count]?;
    for fact in facts {
        note(fact, first, &mut found);
    }
    Ok(found)
}

/// These witnesses, and those that were found behind them.
pub fn with_found(
    alloc: Global,
    witnesses: &[Witness],
    found: &[Option<Witness>],
) -> Result<Vec<Witness>, NoMemory>
    ensures { IfOk result (λ v. v.items ≡ witnesses.now ++ filter_map (λ o. o) found.now) }
{
    let mut out = Vec::from_slice(alloc, witnesses)?;
    for witness in found {
        if let Some(witness) = witness {
            out.push(*witness)?;
        }
    }
    Ok(out)
}
