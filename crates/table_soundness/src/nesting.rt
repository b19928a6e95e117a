ghost use Rattle.std.specs.Prelude.{◌≡◌, ◌↔◌, ℕ, ◌+◌, ◌-◌, ◌<◌, ◌≤◌, false, length, slice_index, IsTrue, IfOk, All, AllPairs};
ghost use Rattle.std.specs.List.Sorted.{IsNonDecreasingBy};
ghost use Rattle.table_soundness.specs.Spans.{rank, FitSpans, IsPut, IsRefused, IsSpan};

use crate::spans::Span;
use pur_base::NoMemory;
use std::alloc::Global;

/// Whether what ends there neither reaches nor touches what begins there.
fn is_ended(end: u128, start: u128) -> bool
    ensures { IsTrue result ↔ (end + 1 < start) }
{
    end < start && 1 < start - end
}

/// How many of the ends aren't ended where a span begins.
fn still_open(ends: &[u128], start: u128) -> usize
    ensures within { result ≤ length ends.now }
    ensures ended { (i : ℕ) → result ≤ i → i < length ends.now → slice_index ends.now i + 1 < start }
    ensures last { 0 < result → start ≤ slice_index ends.now (result - 1) + 1 }
{
    let mut len = ends.len();
    while len > 0 {
        if !is_ended(ends[len - 1], start) {
            return len;
        }
        len -= 1;
    }
    0
}

/// Closes the spans that are ended where the next one begins, and opens that one within the last that is left, if there is one.
/// It answers `false` where the next one passes the end of that.
fn put_span(ends: &mut Vec<u128>, span: &Span) -> Result<bool, NoMemory>
    ensures put { IfOk result (λ b. IsTrue b → IsPut span.now ends.old.items ends.new.items) }
    ensures refused { IfOk result (λ b. b ≡ false → IsRefused span.now ends.old.items) }
{
    let open = still_open(ends, span.start);
    if open > 0 && ends[open - 1] < span.end {
        return Ok(false);
    }
    ends.truncate(open);
    ends.push(span.end)?;
    Ok(true)
}

/// Whether each two of the spans, which are in order, lie apart or in one another.
pub fn are_nested(alloc: Global, spans: &[Span]) -> Result<bool, NoMemory>
    requires sorted { IsNonDecreasingBy rank spans.now }
    requires spans { All IsSpan spans.now }
    ensures { IfOk result (λ b. IsTrue b ↔ AllPairs FitSpans spans.now) }
{
    let mut ends = Vec::new(alloc);
    for span in spans {
        if !put_span(&mut ends, span)? {
            return Ok(false);
        }
    }
    Ok(true)
}
