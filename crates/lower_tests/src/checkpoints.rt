ghost use Rattle.std.specs.Prelude.{◌≡◌, length};

use elision::Elided;
use pur_base::{
    AddressFact, ElisionFact, Location, MediumId, Place, SEGMENT_SHARDS, SegmentFact, SegmentId,
    Seq, Table, Target,
};
use std::alloc::Global;
use table_plan::{
    Witness, copied, elide_all, flagged, flags, medium_items, new_segments, new_witnesses,
    place_of, places, segment_items, segments_for, unfound, with_found,
};

fn fact(sector: u32, segment: u64, index: u16) -> AddressFact {
    AddressFact {
        medium: MediumId(1),
        sector,
        target: Target::Stored(Location {
            segment: SegmentId(segment),
            index,
        }),
        seq: Seq(9),
    }
}

/// Whether the first and the third of four sectors are flagged.
fn are_flagged(alloc: Global, flags: &[bool]) -> bool
    requires { length flags.now ≡ 4 }
{
    match flagged(alloc, flags) {
        Ok(order) => order.len() == 2 && order[1] == 2,
        Err(_) => false,
    }
}

/// Whether all four sectors are looked at, and the second has no place.
fn are_placed(alloc: Global, flags: &[bool]) -> bool
    requires { length flags.now ≡ 4 }
{
    match places(alloc, flags, 7) {
        Ok(places) => places.len() == 4 && places[1].is_none(),
        Err(_) => false,
    }
}

fn named_are_placed(alloc: Global) -> bool {
    let facts = [fact(0, 0, 2), fact(1, 3, 1), fact(2, 0, 0)];
    match flags(alloc, &facts, 4) {
        Ok(flags) => flags.len() == 4 && are_flagged(alloc, &flags) && are_placed(alloc, &flags),
        Err(_) => false,
    }
}

/// Whether the first of two segments is full, and the second has one sector and the next id and number.
fn is_first_full(segments: &[SegmentFact]) -> bool {
    match segments {
        [first, second] => {
            first.placed == 840 && second.placed == 1 && second.segment.0 == 6 && second.seq.0 == 21
        }
        _ => false,
    }
}

fn all_but_last_are_full(alloc: Global) -> bool {
    let units = [Place { slot: 1, unit: 3 }; SEGMENT_SHARDS];
    match new_segments(alloc, 5, 20, 841, &[units, units]) {
        Ok(segments) => segments_for(841) == 2 && is_first_full(&segments),
        Err(_) => false,
    }
}

fn id_is_found() -> bool {
    let ids = [5, 7, 8];
    place_of(&ids, 5) == Some(0)
        && place_of(&ids, 8) == Some(2)
        && place_of(&ids, 4).is_none()
        && place_of(&ids, 6).is_none()
        && place_of(&ids, 9).is_none()
        && place_of(&[], 9).is_none()
}

/// The last address of the second of three new segments.
const WITNESS: Witness = Witness {
    medium: MediumId(1),
    sector: 2,
};

const OTHER: Witness = Witness {
    medium: MediumId(3),
    sector: 9,
};

/// Whether the segments without a witness are the first and the third.
fn leave_two(alloc: Global, found: &[Option<Witness>]) -> bool
    requires { length found.now ≡ 3 }
{
    match unfound(alloc, &[5, 6, 7], found) {
        Ok(ids) => *ids.as_slice() == *[5, 7].as_slice(),
        Err(_) => false,
    }
}

/// Whether the witness that was found stands behind those from before.
fn join_the_other(alloc: Global, found: &[Option<Witness>]) -> bool {
    match with_found(alloc, &[OTHER], found) {
        Ok(all) => *all.as_slice() == *[OTHER, WITNESS].as_slice(),
        Err(_) => false,
    }
}

fn witnesses_are_last(alloc: Global) -> bool {
    let facts = [fact(0, 6, 2), fact(1, 4, 1), fact(2, 6, 0), fact(3, 8, 0)];
    match new_witnesses(alloc, 5, 3, &facts) {
        Ok(found) => {
            *found.as_slice() == *[None, Some(WITNESS), None].as_slice()
                && leave_two(alloc, &found)
                && join_the_other(alloc, &found)
        }
        Err(_) => false,
    }
}

/// Whether a fact elides these ids.
fn elides(fact: &ElisionFact, first: u64, last: u64) -> bool {
    fact.first == first && fact.last == last
}

/// Whether this is what is elided after each of four segments.
fn are_joined(facts: &[ElisionFact]) -> bool {
    match facts {
        [first, second, third, fourth] => {
            elides(first, 1, 3)
                && elides(second, 5, 5)
                && elides(third, 5, 6)
                && elides(fourth, 5, 9)
                && fourth.seq.0 == 43
        }
        _ => false,
    }
}

fn elides_four(alloc: Global, elided: &mut Elided) -> bool {
    let Ok(items) = segment_items(alloc, &[3, 5, 6, 7]) else {
        return false;
    };
    match elide_all(alloc, elided, &items, 40) {
        Ok(facts) => are_joined(&facts),
        Err(_) => false,
    }
}

/// Whether the ranges of a medium are elided, beside those of one before it, and then its addresses.
fn are_both(facts: &[ElisionFact]) -> bool {
    match facts {
        [ranges, addresses] => {
            ranges.table == Table::Medium
                && elides(ranges, 4, 5)
                && addresses.table == Table::Address
                && elides(addresses, 5, 5)
                && addresses.seq.0 == 39
        }
        _ => false,
    }
}

fn elides_a_medium(alloc: Global, elided: &mut Elided) -> bool {
    let Ok(items) = medium_items(alloc, &[5]) else {
        return false;
    };
    match elide_all(alloc, elided, &items, 38) {
        Ok(facts) => are_both(&facts),
        Err(_) => false,
    }
}

/// Whether a medium and four segments are elided in a copy, beside what was.
fn elides_in_a_copy(alloc: Global, old: &Elided) -> bool {
    match copied(alloc, old) {
        Ok(mut elided) => {
            elides_a_medium(alloc, &mut elided)
                && elides_four(alloc, &mut elided)
                && *elided.ranges(Table::Segment) == *[(1, 3), (5, 9)].as_slice()
                && *elided.ranges(Table::Medium) == *[(4, 5)].as_slice()
        }
        Err(_) => false,
    }
}

fn neighbours_are_joined(alloc: Global) -> bool {
    let mut old = Elided::new(alloc);
    old.elide_range(Table::Segment, 1, 2).is_ok()
        && old.elide_range(Table::Segment, 8, 9).is_ok()
        && old.elide(Table::Medium, 4).is_ok()
        && elides_in_a_copy(alloc, &old)
        && !old.is_elided(Table::Segment, 3)
}

/// The first of these that doesn't hold, or nothing.
fn broken(alloc: Global) -> &'static str {
    if !named_are_placed(alloc) {
        return "sectors that facts name are placed in order of staging";
    }
    if !all_but_last_are_full(alloc) {
        return "all segments but the last are full";
    }
    if !id_is_found() {
        return "an id stands among others or doesnt";
    }
    if !witnesses_are_last(alloc) {
        return "witnesses are the last addresses of new segments";
    }
    if !neighbours_are_joined(alloc) {
        return "what is elided joins its neighbours";
    }
    ""
}

#[test]
fn each_holds(rt: HostRuntime) {
    let broken = broken(rt.alloc());
    assert!(rt; broken.is_empty(), "{broken}");
}
