ghost use Rattle.std.specs.Prelude.{◌≡◌, ◌↔◌, IsTrue, IfOk, All};
ghost use Rattle.pur_base.specs.declared.facts.AnyFact.TheVariants as any;
ghost use Rattle.fact_codec.specs.Fact.{IsFact};
ghost use Rattle.array_spec.specs.Sound.{next_id, AreElisionsSound};
ghost use Rattle.pyramid.specs.Layers.{facts_of};
ghost use Rattle.table_soundness.specs.Elisions.{AreElisionsRight, IsBelow};

use crate::nesting::are_nested;
use crate::spans::{are_grown, sorted_spans};
use boot_codec::NextNumbers;
use pur_base::{ElisionFact, NoMemory, Table};
use pyramid::Patch;
use std::alloc::Global;

/// The next id of a table: the ids of addresses are mediums.
fn next_id(next: &NextNumbers, table: Table) -> u64
    ensures { result ≡ next_id next.now table }
{
    match table {
        Table::Object => next.object,
        Table::Medium => next.medium,
        Table::Address => next.medium,
        Table::Segment => next.segment,
        Table::Elision => 0,
    }
}

/// Whether the last id of each elision is below the next one of its table.
fn are_below(next: &NextNumbers, facts: &[ElisionFact]) -> bool
    ensures { IsTrue result ↔ All (IsBelow next.now) facts.now }
{
    for fact in facts {
        if fact.last >= next_id(next, fact.table) {
            return false;
        }
    }
    true
}

/// The same of all elisions.
fn are_all_below(next: &NextNumbers, patches: &[Patch<ElisionFact>]) -> bool
    ensures { IsTrue result ↔ All (IsBelow next.now) (facts_of patches.now) }
{
    for patch in patches {
        if !are_below(next, patch.facts()) {
            return false;
        }
    }
    true
}

/// Whether each two elisions grow and fit together.
fn are_spans_sound(alloc: Global, patches: &[Patch<ElisionFact>]) -> Result<bool, NoMemory>
    requires { All (λ f. IsFact (any.Elision f)) (facts_of patches.now) }
    ensures { IfOk result (λ b. IsTrue b ↔ AreElisionsSound (facts_of patches.now)) }
{
    let spans = sorted_spans(alloc, patches)?;
    if !are_grown(&spans) {
        return Ok(false);
    }
    are_nested(alloc, &spans)
}

/// Whether the elisions are sound.
pub fn are_elisions_sound(
    alloc: Global,
    next: &NextNumbers,
    patches: &[Patch<ElisionFact>],
) -> Result<bool, NoMemory>
    requires { All (λ f. IsFact (any.Elision f)) (facts_of patches.now) }
    ensures { IfOk result (λ b. IsTrue b ↔ AreElisionsRight next.now (facts_of patches.now)) }
{
    if !are_all_below(next, patches) {
        return Ok(false);
    }
    are_spans_sound(alloc, patches)
}
