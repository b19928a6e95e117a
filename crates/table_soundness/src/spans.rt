ghost use Rattle.std.specs.Prelude.{◌≡◌, ◌↔◌, ◌≤◌, ◌++◌, IsTrue, OnOk, IfOk, All, AllPairs, map};
ghost use Rattle.std.specs.List.Sorted.{IsNonDecreasingBy, IsPermutation};
ghost use Rattle.std.specs.Ordering.{nat_cmp};
ghost use Rattle.pyramid.specs.Layers.{facts_of};
ghost use Rattle.table_soundness.specs.Spans.{span_of, rank, BothGrow, Follows, IsSpan};

use pur_base::{ElisionFact, NoMemory};
use pyramid::Patch;
use std::alloc::Global;
use std::cmp::Ordering;

/// How many places of the line the ids of a table have: no id of one table touches one of another.
const TABLE_PLACES: u128 = 1 << 65;

/// An elision as a span of a line, on which the ids of each table have places of their own.
#[derive(Clone, Copy, Drop)]
pub struct Span {
    pub start: u128,
    /// The last place of it.
    pub end: u128,
    /// The sequence number.
    pub number: u64,
}

/// The span of an elision.
fn span_of(fact: &ElisionFact) -> Span
    ensures { result ≡ span_of fact.now }
{
    let base = u128::from(fact.table.tag()) * TABLE_PLACES;
    Span {
        start: base + u128::from(fact.first),
        end: base + u128::from(fact.last),
        number: fact.seq.0,
    }
}

/// Puts the spans of elisions behind the others.
fn push_spans(spans: &mut Vec<Span>, facts: &[ElisionFact]) -> Result<(), NoMemory>
    ensures { OnOk result (spans.new.items ≡ spans.old.items ++ map span_of facts.now) }
{
    for fact in facts {
        spans.push(span_of(fact))?;
    }
    Ok(())
}

/// The spans of all elisions.
fn spans_of(alloc: Global, patches: &[Patch<ElisionFact>]) -> Result<Vec<Span>, NoMemory>
    ensures { IfOk result (λ v. v.items ≡ map span_of (facts_of patches.now)) }
{
    let mut spans = Vec::new(alloc);
    for patch in patches {
        push_spans(&mut spans, patch.facts())?;
    }
    Ok(spans)
}

/// By start; of one start by end, the farthest first; of one end by number, the newest first.
fn order(s: &Span, t: &Span) -> Ordering
    ensures { result ≡ nat_cmp (rank s.now) (rank t.now) }
{
    let first_end = s.end;
    let second_end = t.end;
    let first_number = s.number;
    let second_number = t.number;
    s.start.cmp(&t.start).then(
        second_end
            .cmp(&first_end)
            .then(second_number.cmp(&first_number)),
    )
}

/// The spans of all elisions in that order.
pub fn sorted_spans(alloc: Global, patches: &[Patch<ElisionFact>]) -> Result<Vec<Span>, NoMemory>
    ensures permutation { IfOk result (λ v. IsPermutation (map span_of (facts_of patches.now)) v.items) }
    ensures sorted { IfOk result (λ v. IsNonDecreasingBy rank v.items) }
{
    let mut spans = spans_of(alloc, patches)?;
    spans.sort_unstable_by(|s, t| order(s, t));
    Ok(spans)
}

/// Whether the second span isn't newer than the first, where both begin at one place.
fn follows(s: &Span, t: &Span) -> bool
    ensures { IsTrue result ↔ Follows s.now t.now }
{
    s.start != t.start || t.number <= s.number
}

/// Whether of two spans that begin at one place the newer reaches at least as far.
pub fn are_grown(spans: &[Span]) -> bool
    requires sorted { IsNonDecreasingBy rank spans.now }
    requires spans { All IsSpan spans.now }
    ensures { IsTrue result ↔ AllPairs BothGrow spans.now }
{
    let mut i = 1;
    while i < spans.len() {
        if !follows(&spans[i - 1], &spans[i]) {
            return false;
        }
        i += 1;
    }
    true
}
