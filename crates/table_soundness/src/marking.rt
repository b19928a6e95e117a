ghost use Rattle.std.specs.Prelude.{◌≡◌, ℕ, ◌≤◌, ◌++◌, ◌∷◌, [], List, IsTrue, IfSome, length, map};
ghost use Rattle.pur_base.specs.declared.request.Table.{Table};
ghost use Rattle.pyramid.specs.Layers.{facts_of};
ghost use Rattle.table_soundness.specs.Faults.{AreNumbersOf};
ghost use Rattle.table_soundness.specs.Numbers.{AreMarked, AreNumbersSound, EndAt};

use crate::distinct::MARKS_FOR_EACH;
use crate::rising::past_one;
use crate::shown::count_of;
use loaded_tables::LoadedTables;
use pur_base::Fact;
use pyramid::Patch;
use std::alloc::Global;

/// Marks a fact's number, where it isn't below `past`, there is a mark for it, and that doesn't stand yet.
fn mark_one<F: Fact>(marks: &mut [bool], fact: &F, past: u128) -> bool
    ensures above { IsTrue result → past ≤ F.number fact.now }
    ensures marked { IsTrue result → (numbers : List ℕ) → AreMarked numbers marks.old → AreMarked (numbers ++ F.number fact.now ∷ []) marks.new }
{
    let number = fact.seq().0;
    if past <= u128::from(number) && number < marks.len() as u64 && !marks[number as usize] {
        marks[number as usize] = true;
        true
    } else {
        false
    }
}

/// Marks the numbers of a patch's facts, and gives the least number above those of all facts so far, or `None` where one can't be marked.
fn mark_more<F: Fact>(marks: &mut [bool], more: &[F], past: u128) -> Option<u128>
    ensures end { IfSome result (EndAt F.number past more.now) }
    ensures marked { IfSome result (λ _. (numbers : List ℕ) → AreMarked numbers marks.old → AreMarked (numbers ++ map F.number more.now) marks.new) }
{
    let mut end = past;
    for fact in more {
        if !mark_one(marks, fact, past) {
            return None;
        }
        end = past_one(fact, end);
    }
    Some(end)
}

/// Marks the numbers of all facts of a table's patches, and tells whether they are sound beside those that are marked.
fn mark_all<F: Fact + Drop>(marks: &mut [bool], patches: &[Patch<F>]) -> bool
    ensures { IsTrue result → (numbers : List ℕ) → AreMarked numbers marks.old
        → AreNumbersSound F.number (length marks.old) numbers patches.now × AreMarked (numbers ++ map F.number (facts_of patches.now)) marks.new }
{
    let mut past = 0;
    for patch in patches {
        match mark_more(marks, patch.facts(), past) {
            Some(end) => past = end,
            None => return false,
        }
    }
    true
}

/// Whether all five are so.
fn are_all(objects: bool, mediums: bool, addresses: bool, segments: bool, elisions: bool) -> bool
    ensures { IsTrue result → IsTrue objects × IsTrue mediums × IsTrue addresses × IsTrue segments × IsTrue elisions }
{
    objects && mediums && addresses && segments && elisions
}

/// Marks the numbers of all tables, one behind another, and tells whether they are sound.
fn mark_tables(marks: &mut [bool], tables: &LoadedTables) -> bool
    ensures { IsTrue result → (t : Table) → AreNumbersOf (length marks.old) tables.now t }
{
    let objects = mark_all(marks, &tables.objects);
    let mediums = mark_all(marks, &tables.mediums);
    let addresses = mark_all(marks, &tables.addresses);
    let segments = mark_all(marks, &tables.segments);
    let elisions = mark_all(marks, &tables.elisions);
    are_all(objects, mediums, addresses, segments, elisions)
}

/// How many facts the tables have.
fn count_all(tables: &LoadedTables) -> usize {
    count_of(&tables.objects)
        .saturating_add(count_of(&tables.mediums))
        .saturating_add(count_of(&tables.addresses))
        .saturating_add(count_of(&tables.segments))
        .saturating_add(count_of(&tables.elisions))
}

/// Whether each number is below the next one, no two facts have one, and they rise from patch to patch, found in one pass over all facts.
/// Where it answers `false` nothing is told: there may be too few facts for a mark of each number, or no memory for the marks.
pub fn are_marked_sound(alloc: Global, next: u64, tables: &LoadedTables) -> bool
    ensures { IsTrue result → (t : Table) → AreNumbersOf next tables.now t }
{
    if next <= count_all(tables).saturating_mul(MARKS_FOR_EACH) as u64 {
        match vec![in alloc; false; next as usize] {
            Ok(mut marks) => mark_tables(&mut marks, tables),
            Err(_) => false,
        }
    } else {
        false
    }
}
