ghost use Rattle.std.specs.Prelude.{◌≡◌, ◌⊎◌, ◌++◌, ◌≤◌, Contains};
ghost use Rattle.pyramid.specs.Layers.{facts_of, IsOrdered};

use crate::patch::Patch;
use crate::search::{end_of, start_of};
use pur_base::Fact;

/// The greatest key of a fact between the two, or the first of them where there is none.
fn last_key<F: Fact>(facts: &[F], from: u128, to: u128) -> u128
    requires ordered { IsOrdered F.key F.number facts.now }
    requires order { from ≤ to }
    ensures from { from ≤ result }
    ensures to { result ≤ to }
    ensures there { (result ≡ from) ⊎ ((f : F) × Contains facts.now f × (F.key f ≡ result)) }
    ensures last { (f : F) → Contains facts.now f → F.key f ≤ to → F.key f ≤ result }
{
    let end = end_of(facts, to);
    if end == 0 {
        return from;
    }
    let key = facts[end - 1].key();
    if key < from { from } else { key }
}

/// The least key of a fact between the two, or the last of them where there is none.
fn first_key<F: Fact>(facts: &[F], from: u128, to: u128) -> u128
    requires ordered { IsOrdered F.key F.number facts.now }
    requires order { from ≤ to }
    ensures from { from ≤ result }
    ensures to { result ≤ to }
    ensures there { (result ≡ to) ⊎ ((f : F) × Contains facts.now f × (F.key f ≡ result)) }
    ensures first { (f : F) → Contains facts.now f → from ≤ F.key f → result ≤ F.key f }
{
    let start = start_of(facts, from);
    if start == facts.len() {
        return to;
    }
    let key = facts[start].key();
    if to < key { to } else { key }
}

/// The greatest key of a fact of the table between the two, or the first of them where there is none.
pub fn last_key_of_all<F: Fact + Drop>(
    patches: &[Patch<F>],
    unflushed: &[F],
    from: u128,
    to: u128,
) -> u128
    requires ordered { IsOrdered F.key F.number unflushed.now }
    requires order { from ≤ to }
    ensures from { from ≤ result }
    ensures to { result ≤ to }
    ensures there { (result ≡ from) ⊎ ((f : F) × Contains (facts_of patches.now ++ unflushed.now) f × (F.key f ≡ result)) }
    ensures last { (f : F) → Contains (facts_of patches.now ++ unflushed.now) f → F.key f ≤ to → F.key f ≤ result }
{
    let mut key = last_key(unflushed, from, to);
    for patch in patches {
        key = last_key(patch.facts(), key, to);
    }
    key
}

/// The least key of a fact of the table between the two, or the last of them where there is none.
pub fn first_key_of_all<F: Fact + Drop>(
    patches: &[Patch<F>],
    unflushed: &[F],
    from: u128,
    to: u128,
) -> u128
    requires ordered { IsOrdered F.key F.number unflushed.now }
    requires order { from ≤ to }
    ensures from { from ≤ result }
    ensures to { result ≤ to }
    ensures there { (result ≡ to) ⊎ ((f : F) × Contains (facts_of patches.now ++ unflushed.now) f × (F.key f ≡ result)) }
    ensures first { (f : F) → Contains (facts_of patches.now ++ unflushed.now) f → from ≤ F.key f → result ≤ F.key f }
{
    let mut key = first_key(unflushed, from, to);
    for patch in patches {
        key = first_key(patch.facts(), from, key);
    }
    key
}
