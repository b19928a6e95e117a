ghost use Rattle.std.specs.Prelude.{◌≡◌, ℕ, ◌+◌, ◌<◌, ◌≤◌, [], List, true, false, None, Contains, IfNone, IfSome, length};
ghost use Rattle.pur_base.specs.Says.{Ascends};
ghost use Rattle.pyramid.specs.Layers.{facts_of, newest_of, IsOrdered, Rises};
ghost use Rattle.pyramid.specs.Runs.{IsNewestRun, NoneHasRun};

use crate::patch::Patch;
use crate::search::start_of;
use pur_base::Fact;

/// Whether one of so many keys has a fact, from the first one on.
pub fn has_any<F: Fact>(facts: &[F], from: u128, len: usize) -> bool
    requires { IsOrdered F.key F.number facts.now }
    ensures there { result ≡ true → (f : F) × Contains facts.now f × (from ≤ F.key f) × (F.key f < from + len) }
    ensures absent { result ≡ false → (i : ℕ) → i < len → newest_of F.key F.number (from + i) facts.now ≡ None }
{
    let start = start_of(facts, from);
    start < facts.len() && facts[start].key() - from < len as u128
}

/// The facts of so many keys, from the first one on, if each has one.
pub fn run_in<F: Fact>(facts: &[F], from: u128, len: usize) -> Option<&[F]>
    requires ascends { Ascends F.key facts.now }
    requires some { 0 < len }
    ensures some { IfSome result (λ run. IsNewestRun F.key F.number facts.now from len run.now) }
    ensures none { IfNone result ((run : List F) → IsNewestRun F.key F.number facts.now from len run → ⊥) }
{
    let start = start_of(facts, from);
    if facts.len() - start < len {
        return None;
    }
    let run = &facts[start..start + len];
    if run[len - 1].key() - from == (len - 1) as u128 {
        Some(run)
    } else {
        None
    }
}

/// The newest facts of so many keys, from the first one on, as they lie in one of the patches, if one has them all.
pub fn run_flushed<F: Fact + Drop>(patches: &[Patch<F>], from: u128, len: usize) -> Option<&[F]>
    requires rises { Rises F.number patches.now [] }
    requires some { 0 < len }
    ensures some { IfSome result (λ run. IsNewestRun F.key F.number (facts_of patches.now) from len run.now) }
    ensures none { IfNone result (NoneHasRun F.key F.number patches.now (facts_of patches.now) from len) }
{
    let mut left = patches.len();
    while left > 0 {
        left -= 1;
        let patch = &patches[left];
        if patch.has_any(from, len) {
            return patch.run(from, len);
        }
    }
    None
}
