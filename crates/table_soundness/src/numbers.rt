ghost use Rattle.std.specs.Prelude.{◌≡◌, ◌≢◌, ℕ, ◌<◌, ◌++◌, ◌↔◌, [], List, IsTrue, OnOk, IfOk, All, AllPairs, map};
ghost use Rattle.std.specs.List.Sorted.{IsPermutation};
ghost use Rattle.pyramid.specs.Layers.{facts_of, Rises};
ghost use Rattle.table_soundness.specs.Numbers.{AreNumbersSound};

use crate::distinct::are_distinct;
use crate::rising::past_all;
use pur_base::{Fact, NoMemory};
use pyramid::Patch;
use std::alloc::Global;

/// Puts the numbers of facts behind the others.
fn push_numbers<F: Fact>(numbers: &mut Vec<u64>, facts: &[F]) -> Result<(), NoMemory>
    ensures { OnOk result (numbers.new.items ≡ numbers.old.items ++ map F.number facts.now) }
{
    numbers.reserve(facts.len())?;
    for fact in facts {
        numbers.push(fact.seq().0)?;
    }
    Ok(())
}

/// Puts the numbers of all facts of the patches behind the others.
pub fn push_all_numbers<F: Fact + Drop>(
    numbers: &mut Vec<u64>,
    patches: &[Patch<F>],
) -> Result<(), NoMemory>
    ensures { OnOk result (numbers.new.items ≡ numbers.old.items ++ map F.number (facts_of patches.now)) }
{
    for patch in patches {
        push_numbers(numbers, patch.facts())?;
    }
    Ok(())
}

/// Whether each number of the patches is below the next one, and numbers rise from patch to patch.
pub fn are_in_order<F: Fact + Drop>(patches: &[Patch<F>], next: u64) -> bool
    ensures { IsTrue result ↔ (All (λ f. F.number f < next) (facts_of patches.now) × Rises F.number patches.now []) }
{
    match past_all(patches) {
        Some(past) => past <= u128::from(next),
        None => false,
    }
}

/// Whether the numbers of a table are sound, of which the earlier tables have those. Its own are put to them, in some order.
pub fn are_numbers_sound<F: Fact + Drop>(
    alloc: Global,
    numbers: &mut Vec<u64>,
    patches: &[Patch<F>],
    next: u64,
) -> Result<bool, NoMemory>
    ensures sound { IfOk result (λ b. IsTrue b ↔ AreNumbersSound F.number next numbers.old.items patches.now) }
    ensures numbers { OnOk result (IsPermutation (numbers.old.items ++ map F.number (facts_of patches.now)) numbers.new.items) }
{
    push_all_numbers(numbers, patches)?;
    let distinct = are_distinct(alloc, numbers);
    Ok(distinct && are_in_order(patches, next))
}
