ghost use Rattle.std.specs.Prelude.{◌≡◌, ◌-◌, ◌^◌, ◌<◌, length, min, IfOk, true, filter};
ghost use Rattle.pur_base.specs.Visible.{is_within};
ghost use Rattle.elision.specs.Ranges.{AreApart};
ghost use Rattle.pyramid.specs.Layers.{facts_of};
ghost use Rattle.elision.specs.Merging.{stays};
ghost use Rattle.pyramid.specs.Shown.{IsShown};
ghost use Rattle.pur_base.specs.Says.{Ascends};
ghost use Rattle.table_soundness.specs.Newest.{newer_one, woven, AreNewest, IsBehind};
ghost use Rattle.table_soundness.specs.Held.{newest_facts};

use elision::is_within;
use pur_base::{Fact, NoMemory};
use pyramid::Patch;
use std::alloc::Global;

/// How many facts the patches have, or the greatest number where they had more.
pub fn count_of<F: Fact + Drop>(patches: &[Patch<F>]) -> usize
    ensures { result ≡ min (length (facts_of patches.now)) (2 ^ 64 - 1) }
{
    let mut count: usize = 0;
    for patch in patches {
        count = count.saturating_add(patch.facts().len());
    }
    count
}

/// The newer of two facts; of one number the first.
fn newer_one<F: Fact>(first: &F, second: &F) -> F
    ensures { result ≡ newer_one F.number first.now second.now }
{
    if first.seq().0 < second.seq().0 {
        *second
    } else {
        *first
    }
}

/// Two lists of facts as one by ascending key, of each key the newer fact.
fn woven<F: Fact + Drop>(alloc: Global, older: &[F], newer: &[F]) -> Result<Vec<F>, NoMemory>
    ensures { IfOk result (λ v. v.items ≡ woven F.key F.number older.now newer.now) }
{
    let mut out = Vec::with_capacity(alloc, older.len().saturating_add(newer.len()))?;
    let mut i = 0;
    let mut j = 0;
    while i < older.len() && j < newer.len() {
        let x = older[i];
        let y = newer[j];
        if x.key() < y.key() {
            out.push(x)?;
            i += 1;
        } else if y.key() < x.key() {
            out.push(y)?;
            j += 1;
        } else {
            out.push(newer_one(&x, &y))?;
            i += 1;
            j += 1;
        }
    }
    out.extend_from_slice(&older[i..])?;
    out.extend_from_slice(&newer[j..])?;
    Ok(out)
}

/// Whether each of the older facts has a newer one of its key: then the newer list is both as one.
fn are_covered<F: Fact>(older: &[F], newer: &[F]) -> bool
    ensures { result ≡ true → woven F.key F.number older.now newer.now ≡ newer.now }
{
    let mut i = 0;
    let mut j = 0;
    while i < older.len() && j < newer.len() {
        let x = &older[i];
        let y = &newer[j];
        if x.key() == y.key() && x.seq().0 < y.seq().0 {
            i += 1;
        } else if x.key() <= y.key() {
            return false;
        }
        j += 1;
    }
    i == older.len()
}

/// Whether the last key of the first list is below the first one of the second.
fn is_behind<F: Fact>(first: &[F], second: &[F]) -> bool
    ensures { result ≡ true → IsBehind F.key first.now second.now }
{
    match (first.last(), second.first()) {
        (Some(last), Some(next)) => last.key() < next.key(),
        _ => false,
    }
}

/// Whether the facts of the patches, one behind another, ascend by key.
fn are_in_a_row<F: Fact + Drop>(patches: &[Patch<F>]) -> bool
    requires { 0 < length patches.now }
    ensures { result ≡ true → Ascends F.key (facts_of patches.now) }
{
    let mut before = patches[0].facts();
    let mut i = 1;
    while i < patches.len() {
        let facts = patches[i].facts();
        if !is_behind(before, facts) {
            return false;
        }
        before = facts;
        i += 1;
    }
    true
}

/// The facts of the patches, one behind another.
fn joined<F: Fact + Drop>(alloc: Global, patches: &[Patch<F>]) -> Result<Vec<F>, NoMemory>
    ensures { IfOk result (λ v. v.items ≡ facts_of patches.now) }
{
    let mut out = Vec::with_capacity(alloc, count_of(patches))?;
    for patch in patches {
        out.extend_from_slice(patch.facts())?;
    }
    Ok(out)
}

/// The newest facts of some patches: those of one patch, as they stand there, or a list that was made.
#[derive(Drop)]
enum Newest<'a, F: Fact + Drop> {
    Held(&'a [F]),
    Made(Vec<F>),
}

impl<F: Fact + Drop> Newest<'_, F> {
    fn facts(&self) -> &[F]
        ensures { result.now ≡ newest_facts self.now }
    {
        match self {
            Newest::Held(facts) => facts,
            Newest::Made(facts) => facts,
        }
    }
}

/// The newest fact of each key, by ascending key: patches in a row as they stand, and of others that of each half, and both as one.
fn newest_of_each<'a, F: Fact + Drop>(
    alloc: Global,
    patches: &'a [Patch<F>],
) -> Result<Newest<'a, F>, NoMemory>
    requires { 0 < length patches.now }
    ensures { IfOk result (λ n. AreNewest F.key F.number (facts_of patches.now) (newest_facts n)) }
{
    if patches.len() == 1 {
        return Ok(Newest::Held(patches[0].facts()));
    }
    if are_in_a_row(patches) {
        let facts = joined(alloc, patches)?;
        return Ok(Newest::Made(facts));
    }
    let (older, newer) = patches.split_at(patches.len() / 2);
    let older = newest_of_each(alloc, older)?;
    let newer = newest_of_each(alloc, newer)?;
    if are_covered(older.facts(), newer.facts()) {
        return Ok(newer);
    }
    let both = woven(alloc, older.facts(), newer.facts())?;
    Ok(Newest::Made(both))
}

/// Whether a newest fact is visible: it isn't empty, and its id isn't elided.
fn is_visible<F: Fact>(fact: &F, elided: &[(u64, u64)]) -> bool
    requires { AreApart elided.now }
    ensures { result ≡ stays F.key F.empty true (is_within elided.now) fact.now }
{
    !is_within(elided, fact.id()) && !fact.is_empty()
}

/// Those of the facts that are visible.
fn visible_of<F: Fact + Drop>(
    alloc: Global,
    facts: &[F],
    elided: &[(u64, u64)],
) -> Result<Vec<F>, NoMemory>
    requires { AreApart elided.now }
    ensures { IfOk result (λ v. v.items ≡ filter (stays F.key F.empty true (is_within elided.now)) facts.now) }
{
    let mut out = Vec::with_capacity(alloc, facts.len())?;
    for fact in facts {
        if is_visible(fact, elided) {
            out.push(*fact)?;
        }
    }
    Ok(out)
}

/// The visible facts of a table, by ascending key, whatever numbers they have.
pub fn shown<F: Fact + Drop>(
    alloc: Global,
    patches: &[Patch<F>],
    elided: &[(u64, u64)],
) -> Result<Vec<F>, NoMemory>
    requires { AreApart elided.now }
    ensures { IfOk result (λ v. IsShown F.key F.number F.empty (facts_of patches.now) (is_within elided.now) v.items) }
{
    if patches.is_empty() {
        return Ok(Vec::new(alloc));
    }
    match newest_of_each(alloc, patches)? {
        Newest::Held(facts) => visible_of(alloc, facts, elided),
        Newest::Made(mut facts) => {
            facts.retain(|fact| is_visible(fact, elided));
            Ok(facts)
        }
    }
}
