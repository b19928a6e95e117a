ghost use Rattle.std.specs.Prelude.{◌≡◌, ℕ, ◌≤◌, ◌++◌, ◌∷◌, [], List, All, IfSome, IfNone};
ghost use Rattle.pyramid.specs.Layers.{Rises};
ghost use Rattle.pyramid.specs.Loading.{IsPast};
ghost use Rattle.table_soundness.specs.Numbers.{EndAt, RiseTo};

use pur_base::Fact;
use pyramid::Patch;

/// The least number above those of some facts, and of one more.
pub fn past_one<F: Fact>(fact: &F, past: u128) -> u128
    ensures { (facts : List F) → IsPast F.number facts past → IsPast F.number (facts ++ fact.now ∷ []) result }
{
    let next = u128::from(fact.seq().0) + 1;
    if past < next { next } else { past }
}

/// The least number above those of some facts, and of more, or `None` where one of these isn't above the others.
fn past_more<F: Fact>(more: &[F], past: u128) -> Option<u128>
    ensures end { IfSome result (EndAt F.number past more.now) }
    ensures not_above { IfNone result (All (λ f. past ≤ F.number f) more.now → ⊥) }
{
    let mut end = past;
    for fact in more {
        if u128::from(fact.seq().0) < past {
            return None;
        }
        end = past_one(fact, end);
    }
    Some(end)
}

/// The least number above those of all facts of the patches, or `None` where numbers don't rise from patch to patch.
pub fn past_all<F: Fact + Drop>(patches: &[Patch<F>]) -> Option<u128>
    ensures some { IfSome result (RiseTo F.number patches.now) }
    ensures none { IfNone result (Rises F.number patches.now [] → ⊥) }
{
    let mut past = 0;
    for patch in patches {
        match past_more(patch.facts(), past) {
            Some(end) => past = end,
            None => return None,
        }
    }
    Some(past)
}
