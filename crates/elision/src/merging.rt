ghost use Rattle.std.specs.Prelude.{◌≡◌, ◌++◌, ◌∷◌, ℕ, IfOk, filter, length, ◌≤◌, ◌<◌, ◌+◌, true, false, slice_index_or, drop};
ghost use Rattle.pur_base.specs.Visible.{is_within};
ghost use Rattle.elision.specs.Ranges.{AreApart};
ghost use Rattle.elision.specs.Merging.{lasts, merged, stays};

use crate::search::is_within;
use pur_base::{Fact, NoMemory};
use std::alloc::Global;

/// Whether a merge keeps a fact that is the newest of its key.
fn stays<F: Fact>(fact: &F, oldest: bool, elided: &[(u64, u64)]) -> bool
    requires { AreApart elided.now }
    ensures { result ≡ stays F.key F.empty oldest (is_within elided.now) fact.now }
{
    !is_within(elided, fact.id()) && !(oldest && fact.is_empty())
}

/// Puts those facts behind the others that a merge keeps.
fn push_kept<F: Fact + Drop>(
    out: &mut Vec<F>,
    facts: &[F],
    oldest: bool,
    elided: &[(u64, u64)],
) -> Result<(), NoMemory>
    requires { AreApart elided.now }
    ensures { IfOk result (λ _. out.new.items ≡ out.old.items ++ filter (stays F.key F.empty oldest (is_within elided.now)) facts.now) }
{
    for fact in facts {
        if stays(fact, oldest, elided) {
            out.push(*fact)?;
        }
    }
    Ok(())
}

/// Both patches as one, without what a merge need not keep.
pub fn merge_facts<F: Fact + Drop>(
    alloc: Global,
    older: &[F],
    newer: &[F],
    oldest: bool,
    elided: &[(u64, u64)],
) -> Result<Vec<F>, NoMemory>
    requires { AreApart elided.now }
    ensures { IfOk result (λ v. v.items ≡ filter (stays F.key F.empty oldest (is_within elided.now)) (merged F.key older.now newer.now)) }
{
    let mut out = Vec::with_capacity(alloc, older.len().saturating_add(newer.len()))?;
    let mut i = 0;
    let mut j = 0;
    while i < older.len() && j < newer.len() {
        let x = older[i];
        let y = newer[j];
        if x.key() < y.key() {
            push_kept(&mut out, &[x], oldest, elided)?;
            i += 1;
        } else {
            if !(y.key() < x.key()) {
                i += 1;
            }
            push_kept(&mut out, &[y], oldest, elided)?;
            j += 1;
        }
    }
    push_kept(&mut out, &older[i..], oldest, elided)?;
    push_kept(&mut out, &newer[j..], oldest, elided)?;
    Ok(out)
}

/// The last fact of each key, of facts in order.
pub fn newest_of_each<F: Fact + Drop>(alloc: Global, facts: &[F]) -> Result<Vec<F>, NoMemory>
    ensures { IfOk result (λ v. v.items ≡ lasts F.key facts.now) }
{
    let mut out = Vec::with_capacity(alloc, facts.len())?;
    // Those from here on are the last of their keys, and not yet there.
    let mut start = 0;
    for i in 0..facts.len() {
        if !is_last(facts, i) {
            out.extend_from_slice(&facts[start..i])?;
            start = i + 1;
        }
    }
    out.extend_from_slice(&facts[start..])?;
    Ok(out)
}

/// Whether the next fact has another key, or there is none.
fn is_last<F: Fact>(facts: &[F], i: usize) -> bool
    requires within { i < length facts.now }
    ensures yes { result ≡ true → (x : F) → x ≡ slice_index_or facts.now i x → lasts F.key (drop i facts.now) ≡ x ∷ lasts F.key (drop (i + 1) facts.now) }
    ensures no { result ≡ false → lasts F.key (drop i facts.now) ≡ lasts F.key (drop (i + 1) facts.now) }
{
    if i + 1 < facts.len() {
        facts[i].key() < facts[i + 1].key()
    } else {
        true
    }
}
