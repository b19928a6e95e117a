ghost use Rattle.std.specs.Prelude.{◌≡◌, [], IfSome};

use pur_base::{Place, SEGMENT_SHARDS, SegmentFact, SegmentId, Seq};
use pyramid::Pyramid;
use segment_table::SegmentTable;
use std::alloc::Global;

fn segment() -> SegmentFact {
    SegmentFact {
        segment: SegmentId(3),
        places: [Place { slot: 2, unit: 7 }; SEGMENT_SHARDS],
        placed: 840,
        seq: Seq(10),
    }
}

fn empty_table(alloc: Global) -> Option<SegmentTable>
    ensures facts { IfSome result (λ t. (t.facts.patches ≡ []) × (t.facts.unflushed ≡ [])) }
    ensures visible { IfSome result (λ t. t.visible ≡ []) }
{
    let Ok(facts) = Pyramid::new(alloc, 4) else {
        return None;
    };
    match SegmentTable::from_facts(alloc, facts, &[]) {
        Ok(table) => Some(table),
        Err(_) => None,
    }
}

/// Puts the segment into an empty table, with room for it.
fn adds(table: &mut SegmentTable) -> bool
    requires facts { (table.old.facts.patches ≡ []) × (table.old.facts.unflushed ≡ []) }
    requires visible { table.old.visible ≡ [] }
{
    table.reserve(1).is_ok() && table.add(segment()).is_ok()
}

/// The same, where room is reserved for its fact alone.
fn adds_with_room_for_one_fact(table: &mut SegmentTable) -> bool
    requires facts { (table.old.facts.patches ≡ []) × (table.old.facts.unflushed ≡ []) }
    requires visible { table.old.visible ≡ [] }
{
    table.reserve_facts(1).is_ok() && table.add(segment()).is_ok()
}

/// Whether a flush leaves one patch.
fn flushes(table: &mut SegmentTable, alloc: Global) -> bool {
    let Ok(patch) = table.flushed(alloc) else {
        return false;
    };
    table.put_flushed(patch);
    table.facts().patches().len() == 1
}

/// Whether the segment is visible, and no other.
fn has_the_segment(table: &SegmentTable) -> bool {
    table.all().len() == 1
        && table.places(SegmentId(3)) == Some(segment().places)
        && table.nth(0).is_some()
}

/// Whether it is there no longer once its id is elided.
fn removes(table: &mut SegmentTable) -> bool {
    table.remove_elided(&[(1, 3)]);
    table.places(SegmentId(3)).is_none()
}

fn is_found_until_elided(alloc: Global) -> bool {
    let Some(mut table) = empty_table(alloc) else {
        return false;
    };
    adds(&mut table) && flushes(&mut table, alloc) && has_the_segment(&table) && removes(&mut table)
}

/// Whether so many segments are visible and so many facts are unflushed, once the facts from that number on are taken back.
fn leaves_behind(table: &mut SegmentTable, seq: Seq, segments: usize, facts: usize) -> bool {
    table.take_back(seq);
    table.all().len() == segments && table.facts().unflushed().len() == facts
}

fn is_taken_back(alloc: Global) -> bool {
    let Some(mut table) = empty_table(alloc) else {
        return false;
    };
    adds_with_room_for_one_fact(&mut table)
        && leaves_behind(&mut table, Seq(11), 1, 1)
        && leaves_behind(&mut table, Seq(10), 0, 0)
}

#[test]
fn each_holds(rt: HostRuntime) {
    assert!(rt; is_found_until_elided(rt.alloc()) && is_taken_back(rt.alloc()));
}
