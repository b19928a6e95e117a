ghost use Rattle.std.specs.Prelude.{◌≡◌, ℕ, ◌<◌, ◌≤◌, [], filter, length, slice_index_or, IfOk};
ghost use Rattle.pyramid.specs.Layers.{facts_of, is_between, IsOrdered, Rises};
ghost use Rattle.pyramid.specs.Merging.{IsSpan};
ghost use Rattle.elision.specs.Merging.{merged};

use crate::patch::Patch;
use crate::search::{end_of, start_of};
use elision::merge_facts;
use pur_base::{Fact, NoMemory};
use std::alloc::Global;

/// The facts of the keys from the first to the last.
pub fn span<F: Fact>(facts: &[F], from: u128, to: u128) -> &[F]
    requires { IsOrdered F.key F.number facts.now }
    ensures { result.now ≡ filter (λ f. is_between from to (F.key f)) facts.now }
{
    let start = start_of(facts, from);
    let end = end_of(facts, to).max(start);
    &facts[start..end]
}

/// What was found, and facts of a newer patch, of which those of the same keys take the others' place.
fn with_newer<F: Fact + Drop>(alloc: Global, found: Vec<F>, newer: &[F]) -> Result<Vec<F>, NoMemory>
    ensures { IfOk result (λ v. v.items ≡ merged F.key found.items newer.now) }
{
    if newer.is_empty() {
        return Ok(found);
    }
    merge_facts(alloc, &found, newer, false, &[])
}

/// The newest facts in patches of the keys from the first to the last.
pub fn gathered<F: Fact + Drop>(
    alloc: Global,
    patches: &[Patch<F>],
    from: u128,
    to: u128,
) -> Result<Vec<F>, NoMemory>
    requires { Rises F.number patches.now [] }
    ensures { IfOk result (λ v. IsSpan F.key F.number from to (facts_of patches.now) v.items) }
{
    let mut found = Vec::new(alloc);
    for patch in patches {
        found = with_newer(alloc, found, span(patch.facts(), from, to))?;
    }
    Ok(found)
}
