ghost use Rattle.std.specs.Prelude.{◌<◌, [], All};
ghost use Rattle.pur_base.specs.Visible.{is_within};
ghost use Rattle.elision.specs.Ranges.{AreApart};
ghost use Rattle.pyramid.specs.Layers.{facts_in};
ghost use Rattle.medium_table.specs.Ranges.{AreDisjoint};
ghost use Rattle.medium_table.specs.Reaching.{AreDescending};

use elision::Elided;
use medium_table::{MediumTable, Range, unreached};
use pur_base::{MediumId, Seq, Table};
use std::alloc::Global;

const RANGE: Range = Range {
    medium: MediumId(7),
    start: 4,
    end: 8,
    target: MediumId(2),
    target_start: 20,
    seq: Seq(10),
};

const REST: Range = Range {
    medium: MediumId(7),
    start: 6,
    end: 8,
    target: MediumId(2),
    target_start: 22,
    seq: Seq(12),
};

/// Whether the range is over its sectors, and not over the one behind them.
fn is_over_its_sectors(table: &MediumTable) -> bool
    requires { AreDisjoint (facts_in table.now.facts) (is_within []) 7 }
{
    table.step(MediumId(7), 7, &[]) == Some(RANGE) && table.step(MediumId(7), 8, &[]).is_none()
}

/// Whether the range is the next one from before its start, and not from behind it. An elided medium has no lowest range.
fn is_next(table: &MediumTable) -> bool {
    table.lowest(MediumId(7), &[(7, 7)]).is_none()
        && table.next(MediumId(7), 3, &[]) == Some(RANGE)
        && table.next(MediumId(7), 5, &[]).is_none()
}

/// Whether mediums are reached by ranges.
fn is_reached(alloc: Global, table: &MediumTable) -> bool
    requires { AreDescending (facts_in table.now.facts) (is_within []) }
{
    match table.reachable(alloc, &[MediumId(9), MediumId(7)], &[]) {
        Ok(reached) => {
            *reached.as_slice() == *[MediumId(2), MediumId(7), MediumId(9)].as_slice()
        }
        Err(_) => false,
    }
}

/// Whether the range, which is the lowest one, loses its front.
fn loses_its_front(table: &mut MediumTable) -> bool
    requires { All (λ f. f.seq.0 < 11) (facts_in table.old.facts) }
{
    table.lowest(MediumId(7), &[]) == Some(RANGE)
        && table.cut_front(MediumId(7), 6, Seq(11), &[]).is_ok()
        && table.lowest(MediumId(7), &[]) == Some(REST)
}

fn range_is_found_and_cut(alloc: Global) -> bool {
    let Ok(mut table) = MediumTable::new(alloc, 4) else {
        return false;
    };
    let Ok(()) = table.over(&[RANGE]) else {
        return false;
    };
    is_over_its_sectors(&table)
        && is_next(&table)
        && is_reached(alloc, &table)
        && loses_its_front(&mut table)
}

/// Whether these are the lowest mediums beside elided ones, and beside 1 and 5, which are reached.
fn are_unreached(alloc: Global, elided: &[(u64, u64)], next: u64, most: usize, ids: &[u64]) -> bool
    requires { AreApart elided.now }
{
    match unreached(alloc, elided, &[MediumId(1), MediumId(5)], next, most) {
        Ok(found) => *found.as_slice() == *ids,
        Err(_) => false,
    }
}

fn unreached_are_found(alloc: Global) -> bool {
    let mut elided = Elided::new(alloc);
    elided.elide_range(Table::Medium, 2, 3).is_ok()
        && elided.elide_range(Table::Medium, 8, u64::MAX).is_ok()
        && are_unreached(alloc, elided.ranges(Table::Medium), 100, 9, &[4, 6, 7])
        && are_unreached(alloc, elided.ranges(Table::Medium), 7, 9, &[4, 6])
        && are_unreached(alloc, elided.ranges(Table::Medium), 100, 1, &[4])
}

#[test]
fn ranges_and_unreached_mediums_are_found(rt: HostRuntime) {
    assert!(rt; range_is_found_and_cut(rt.alloc()) && unreached_are_found(rt.alloc()));
}
