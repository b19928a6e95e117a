ghost use Rattle.std.specs.Prelude.{◌≡◌, ◌≢◌, ◌↔◌, ◌++◌, ◌∷◌, [], ℕ, ◌<◌, ◌≤◌, IsTrue, List, Contains, IfOk, IfSome, IfNone, length, slice_index_or};
ghost use Rattle.std.specs.List.Sorted.{IsNonDecreasingBy};
ghost use Rattle.pur_base.specs.declared.ids.MediumId.{MediumId};
ghost use Rattle.pur_base.specs.declared.facts.MediumFact.{MediumFact};
ghost use Rattle.medium_table.specs.Marks.{medium_of, AreMarks, IsFirst};

use crate::table::Range;
use pur_base::{MediumId, NoMemory};
use std::alloc::Global;

/// How many ranges have smaller mediums.
fn ranges_below(ranges: &[Range], medium: MediumId) -> usize
    requires { IsNonDecreasingBy medium_of ranges.now }
    ensures within { result ≤ length ranges.now }
    ensures below { (i : ℕ) (d : MediumFact) → i < result → (slice_index_or ranges.now i d).medium.0 < medium.0 }
    ensures above { (i : ℕ) (d : MediumFact) → result ≤ i → i < length ranges.now → medium.0 ≤ (slice_index_or ranges.now i d).medium.0 }
{
    ranges.partition_point(|range| range.medium.0 < medium.0)
}

/// The place of a medium's first range, or `None` where it has none.
fn first_of(ranges: &[Range], medium: MediumId) -> Option<usize>
    requires { IsNonDecreasingBy medium_of ranges.now }
    ensures found { IfSome result (IsFirst ranges.now medium.0) }
    ensures absent { IfNone result ((r : MediumFact) → Contains ranges.now r → r.medium.0 ≢ medium.0) }
{
    let place = ranges_below(ranges, medium);
    if place < ranges.len() && ranges[place].medium.0 == medium.0 {
        Some(place)
    } else {
        None
    }
}

/// Marks a medium, if it has ranges.
pub fn mark(ranges: &[Range], marks: &mut [bool], medium: MediumId)
    requires rise { IsNonDecreasingBy medium_of ranges.now }
    requires each { length marks.old ≡ length ranges.now }
    ensures each { length marks.new ≡ length ranges.now }
    ensures marked { (found : List MediumId) → AreMarks ranges.now marks.old found → AreMarks ranges.now marks.new (found ++ medium ∷ []) }
{
    match first_of(ranges, medium) {
        Some(place) => marks[place] = true,
        None => {}
    }
}

/// Whether a medium that has ranges is marked.
pub fn is_marked(ranges: &[Range], marks: &[bool], medium: MediumId) -> bool
    requires rise { IsNonDecreasingBy medium_of ranges.now }
    requires each { length marks.now ≡ length ranges.now }
    ensures { (found : List MediumId) (r : MediumFact) → AreMarks ranges.now marks.now found → Contains ranges.now r → r.medium ≡ medium
        → IsTrue result ↔ Contains found medium }
{
    match first_of(ranges, medium) {
        Some(place) => marks[place],
        None => false,
    }
}

/// Marks of these mediums: a place for each range.
pub fn marks_of(
    alloc: Global,
    ranges: &[Range],
    mediums: &[MediumId],
) -> Result<Vec<bool>, NoMemory>
    requires { IsNonDecreasingBy medium_of ranges.now }
    ensures each { IfOk result (λ v. length v.items ≡ length ranges.now) }
    ensures marked { IfOk result (λ v. AreMarks ranges.now v.items mediums.now) }
{
    let mut marks = vec![in alloc; false; ranges.len()]?;
    for medium in mediums {
        mark(ranges, &mut marks, *medium);
    }
    Ok(marks)
}
