ghost use Rattle.std.specs.Prelude.{◌≡◌, ◌≢◌, ◌⊎◌, ◌↔◌, ◌+◌, ◌<◌, ◌≤◌, ◌^◌, ℕ, Bool, true, [], length, All, Contains, IfNone, IfOk, IfSome, IsTrue, OnOk};
ghost use Rattle.pur_base.specs.Visible.{is_within};
ghost use Rattle.pur_base.specs.declared.request.Table.{Table};
ghost use Rattle.memory_spec.specs.Prelude.{IsElisionOf};
ghost use Rattle.elision.specs.Ranges.{AreApart, ranges_of};
ghost use Rattle.table_plan.specs.Eliding.{medium_items, segment_items, AreElisionsOf};

use elision::Elided;
use pur_base::{ElisionFact, NoMemory, Seq, Table};
use std::alloc::Global;

/// Elides the ids of a table that others elide.
fn copy_table(from: &Elided, table: Table, to: &mut Elided) -> Result<(), NoMemory>
    requires { table ≢ Table.Elision }
    ensures ids { OnOk result ((id : ℕ) → IsTrue (is_within (ranges_of to.new table) id) ↔ (IsTrue (is_within (ranges_of to.old table) id) ⊎ IsTrue (is_within (ranges_of from.now table) id))) }
    ensures others { (t : Table) → t ≢ table → ranges_of to.new t ≡ ranges_of to.old t }
{
    for range in from.ranges(table) {
        to.elide_range(table, range.0, range.1)?;
    }
    Ok(())
}

/// The same elided ids once more.
pub fn copied(alloc: Global, from: &Elided) -> Result<Elided, NoMemory>
    ensures { IfOk result (λ e. (t : Table) → t ≢ Table.Elision → (id : ℕ) → IsTrue (is_within (ranges_of e t) id) ↔ IsTrue (is_within (ranges_of from.now t) id)) }
{
    let mut elided = Elided::new(alloc);
    copy_table(from, Table::Object, &mut elided)?;
    copy_table(from, Table::Medium, &mut elided)?;
    copy_table(from, Table::Address, &mut elided)?;
    copy_table(from, Table::Segment, &mut elided)?;
    Ok(elided)
}

/// The range that has an id.
fn range_of(ranges: &[(u64, u64)], id: u64) -> (u64, u64)
    requires apart { AreApart ranges.now }
    requires there { is_within ranges.now id ≡ true }
    ensures there { Contains ranges.now result }
    ensures has { (result.0 ≤ id) × (id ≤ result.1) }
{
    let begun = ranges.partition_point(|range| range.0 <= id);
    ranges[begun - 1]
}

/// The elision of an id that is elided: its range is the one of its table's elided ids that has it, which the id makes with those that it overlaps or touches.
pub fn elision_of(elided: &Elided, table: Table, id: u64, seq: Seq) -> ElisionFact
    requires table { table ≢ Table.Elision }
    requires there { is_within (ranges_of elided.now table) id ≡ true }
    ensures { (before : ℕ → Bool) → ((i : ℕ) → IsTrue (is_within (ranges_of elided.now table) i) ↔ (IsTrue (before i) ⊎ (i ≡ id))) → IsElisionOf table (λ i. IsTrue (before i)) seq.0 id result }
{
    let (first, last) = range_of(elided.ranges(table), id);
    ElisionFact {
        first,
        table,
        last,
        seq,
    }
}

/// Elides items one behind another, and gives the elision of each. Numbers rise from that one.
pub fn elide_all(
    alloc: Global,
    elided: &mut Elided,
    items: &[(Table, u64)],
    number: u64,
) -> Result<Vec<ElisionFact>, NoMemory>
    requires numbers { number + length items.now < 2 ^ 64 }
    requires tables { All (λ item. item.0 ≢ Table.Elision) items.now }
    ensures facts { IfOk result (λ v. AreElisionsOf (λ t i. IsTrue (is_within (ranges_of elided.old t) i)) number items.now v.items) }
    ensures ids { OnOk result ((t : Table) (i : ℕ) → IsTrue (is_within (ranges_of elided.new t) i) ↔ (IsTrue (is_within (ranges_of elided.old t) i) ⊎ Contains items.now (t, i))) }
    ensures others { (t : Table) → ((id : ℕ) → ¬ (Contains items.now (t, id))) → ranges_of elided.new t ≡ ranges_of elided.old t }
{
    let mut facts = Vec::with_capacity(alloc, items.len())?;
    for (i, item) in items.iter().enumerate() {
        elided.elide(item.0, item.1)?;
        facts.push(elision_of(elided, item.0, item.1, Seq(number + i as u64)))?;
    }
    Ok(facts)
}

/// Of each medium the item of its ranges, and behind it that of its addresses.
pub fn medium_items(alloc: Global, ids: &[u64]) -> Result<Vec<(Table, u64)>, NoMemory>
    ensures items { IfOk result (λ v. v.items ≡ medium_items ids.now) }
    ensures tables { IfOk result (λ v. All (λ item. item.0 ≢ Table.Elision) v.items) }
{
    let mut items = Vec::new(alloc);
    for id in ids {
        items.push((Table::Medium, *id))?;
        items.push((Table::Address, *id))?;
    }
    Ok(items)
}

/// The item of each segment.
pub fn segment_items(alloc: Global, ids: &[u64]) -> Result<Vec<(Table, u64)>, NoMemory>
    ensures items { IfOk result (λ v. v.items ≡ segment_items ids.now) }
    ensures tables { IfOk result (λ v. All (λ item. item.0 ≢ Table.Elision) v.items) }
{
    let mut items = Vec::with_capacity(alloc, ids.len())?;
    for id in ids {
        items.push((Table::Segment, *id))?;
    }
    Ok(items)
}
