ghost use Rattle.std.specs.Prelude.{◌≡◌, ◌↔◌, ◌<◌, All, Contains, IfOk, OnOk, length};
ghost use Rattle.std.specs.List.Sorted.{IsNonDecreasingBy};
ghost use Rattle.pur_base.specs.declared.ids.MediumId.{MediumId};
ghost use Rattle.pur_base.specs.declared.facts.MediumFact.{MediumFact};
ghost use Rattle.pur_base.specs.Says.{Ascends};
ghost use Rattle.pur_base.specs.Visible.{is_within};
ghost use Rattle.elision.specs.Ranges.{AreApart};
ghost use Rattle.pyramid.specs.Layers.{facts_in};
ghost use Rattle.medium_table.specs.Marks.{medium_of, AreMarks};
ghost use Rattle.medium_table.specs.Reaching.{id_of_medium, AreDescending, IsReached, IsVisible};

use crate::ids::put_in_order;
use crate::marks::{is_marked, mark, marks_of};
use crate::table::{MediumTable, Range};
use pur_base::{MediumId, NoMemory};
use std::alloc::Global;

/// Adds what the ranges lead to, in no order that is promised. They go by ascending mediums and lead to smaller ones, so one pass from behind
/// meets each range when all those that lead to its medium are through.
fn follow(ranges: &[Range], marks: &mut [bool], found: &mut Vec<MediumId>) -> Result<(), NoMemory>
    requires rise { IsNonDecreasingBy medium_of ranges.now }
    requires down { All (λ r. r.target.0 < r.medium.0) ranges.now }
    requires each { length marks.old ≡ length ranges.now }
    requires marked { AreMarks ranges.now marks.old found.old.items }
    ensures kept { OnOk result ((m : MediumId) → Contains found.old.items m → Contains found.new.items m) }
    ensures closed { OnOk result ((r : MediumFact) → Contains ranges.now r → Contains found.new.items r.medium → Contains found.new.items r.target) }
    ensures sound { OnOk result ((m : MediumId) → Contains found.new.items m → IsReached (Contains ranges.now) found.old.items m) }
{
    let mut i = ranges.len();
    while i > 0 {
        i -= 1;
        let range = ranges[i];
        if is_marked(ranges, marks, range.medium) {
            found.push(range.target)?;
            mark(ranges, marks, range.target);
        }
    }
    Ok(())
}

/// The mediums that these lead to by the ranges, themselves among them, by ascending id.
fn reached(alloc: Global, ranges: &[Range], from: &[MediumId]) -> Result<Vec<MediumId>, NoMemory>
    requires rise { IsNonDecreasingBy medium_of ranges.now }
    requires down { All (λ r. r.target.0 < r.medium.0) ranges.now }
    ensures ascends { IfOk result (λ v. Ascends id_of_medium v.items) }
    ensures mediums { IfOk result (λ v. (m : MediumId) → Contains v.items m ↔ IsReached (Contains ranges.now) from.now m) }
{
    let mut marks = marks_of(alloc, ranges, from)?;
    let mut found = Vec::from_slice(alloc, from)?;
    follow(ranges, &mut marks, &mut found)?;
    put_in_order(&mut found);
    Ok(found)
}

impl MediumTable {
    /// The mediums that these lead to by visible ranges, themselves among them, by ascending id.
    pub fn reachable(
        &self,
        alloc: Global,
        from: &[MediumId],
        elided: &[(u64, u64)],
    ) -> Result<Vec<MediumId>, NoMemory>
        requires apart { AreApart elided.now }
        requires descending { AreDescending (facts_in self.now.facts) (is_within elided.now) }
        ensures ascends { IfOk result (λ v. Ascends id_of_medium v.items) }
        ensures mediums { IfOk result (λ v. (m : MediumId) → Contains v.items m ↔ IsReached (IsVisible (facts_in self.now.facts) (is_within elided.now)) from.now m) }
    {
        let ranges = self.facts.range(alloc, 0, u128::MAX, elided)?;
        reached(alloc, &ranges, from)
    }
}
