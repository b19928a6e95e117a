ghost use Rattle.std.specs.Prelude.{◌≡◌, []};

use elision::Elided;
use loaded_tables::stored_ids;
use pur_base::{ElisionFact, Seq, Table};
use pyramid::Pyramid;
use std::alloc::Global;

/// Elides these ids of mediums, each by itself.
fn elide_all(elided: &mut Elided, ids: &[u64]) -> bool {
    for id in ids {
        if elided.elide(Table::Medium, *id).is_err() {
            return false;
        }
    }
    true
}

/// Elides a range of ids of a table other than that of elisions.
fn elide_range(elided: &mut Elided, table: Table, first: u64, last: u64) -> bool {
    if first > last || matches!(table, Table::Elision) {
        return false;
    }
    elided.elide_range(table, first, last).is_ok()
}

/// Whether the elided mediums are those of these ranges.
fn has_ranges(elided: &Elided, ranges: &[(u64, u64)]) -> bool {
    *elided.ranges(Table::Medium) == *ranges
}

/// Whether an id of a table is elided.
fn has(elided: &Elided, table: Table, id: u64) -> bool {
    elided.is_elided(table, id)
}

/// Whether ids and ranges of mediums that touch are one range.
fn touching_are_joined(elided: &mut Elided) -> bool {
    elide_all(elided, &[3, 7, 5, 4, 9])
        && has_ranges(elided, &[(3, 5), (7, 7), (9, 9)])
        && elided.ranges(Table::Elision).is_empty()
        && elide_range(elided, Table::Medium, 6, 8)
        && has_ranges(elided, &[(3, 9)])
        && !has(elided, Table::Medium, 2)
        && has(elided, Table::Medium, 3)
        && has(elided, Table::Medium, 9)
        && !has(elided, Table::Medium, 10)
}

/// Whether the ids 20 to 30 of addresses are elided, and of no other table.
fn addresses_alone_are_elided(elided: &mut Elided) -> bool {
    elide_range(elided, Table::Address, 20, 30)
        && has(elided, Table::Address, 25)
        && !has(elided, Table::Address, 31)
        && !has(elided, Table::Object, 25)
}

fn each_table_has_ranges_of_its_own(alloc: Global) -> bool {
    let mut elided = Elided::new(alloc);
    touching_are_joined(&mut elided) && addresses_alone_are_elided(&mut elided)
}

/// An elision of an object.
const ELISION: ElisionFact = ElisionFact {
    first: 9,
    table: Table::Object,
    last: 9,
    seq: Seq(3),
};

/// Whether no elision is stored.
fn stores_none(alloc: Global, elisions: &Pyramid<ElisionFact>) -> bool
    requires { elisions.now.patches ≡ [] }
{
    match stored_ids(alloc, elisions) {
        Ok(ids) => ids.is_none(),
        Err(_) => false,
    }
}

/// Whether ids are looked for, and that of the object is not among them.
fn stores_no_object(alloc: Global, elisions: &Pyramid<ElisionFact>) -> bool
    requires { elisions.now.patches ≡ [] }
{
    match stored_ids(alloc, elisions) {
        Ok(Some(ids)) => !has(&ids, Table::Object, 9),
        _ => false,
    }
}

fn unflushed_is_not_stored(alloc: Global) -> bool {
    let Ok(mut elisions) = Pyramid::new(alloc, 1) else {
        return false;
    };
    stores_none(alloc, &elisions)
        && elisions.insert(ELISION).is_ok()
        && stores_no_object(alloc, &elisions)
}

#[test]
fn each_holds(rt: HostRuntime) {
    assert!(rt;
        each_table_has_ranges_of_its_own(rt.alloc()) && unflushed_is_not_stored(rt.alloc())
    );
}
