use address_table::AddressTable;
use pur_base::{AddressFact, Location, MediumId, SegmentId, Seq, Target};
use std::alloc::Global;

const HERE: Location = Location {
    segment: SegmentId(5),
    index: 9,
};

const FIRST: AddressFact = AddressFact {
    medium: MediumId(3),
    sector: 7,
    target: Target::Stored(HERE),
    seq: Seq(1),
};

const ZERO: AddressFact = AddressFact {
    medium: MediumId(3),
    sector: 8,
    target: Target::Zero,
    seq: Seq(2),
};

fn stand(table: &AddressTable) -> bool {
    table.at(MediumId(3), 7, &[]) == Some(Target::Stored(HERE))
        && table.at(MediumId(3), 8, &[]) == Some(Target::Zero)
        && table.at(MediumId(3), 7, &[(2, 4)]).is_none()
}

fn span(table: &AddressTable) -> bool {
    let mut out = [None; 4];
    table.span(MediumId(3), 6, &[], &mut out);
    out == [None, Some(FIRST), Some(ZERO), None]
}

fn facts_stand(alloc: Global) -> bool {
    let Ok(mut table) = AddressTable::new(alloc) else {
        return false;
    };
    table.put_run(&[FIRST, ZERO]).is_ok() && stand(&table) && span(&table)
}

/// Whether the first fact alone points to its segment.
fn points(alloc: Global, table: &AddressTable) -> bool {
    match table.pointing_to(alloc, SegmentId(5), &[]) {
        Ok(found) => *found.as_slice() == *[FIRST].as_slice(),
        Err(_) => false,
    }
}

/// Whether no fact is left once it is taken back.
fn takes_back(table: &mut AddressTable) -> bool {
    table.take_back(Seq(1));
    table.facts.unflushed().len() == 0
}

fn segment_is_pointed_to(alloc: Global) -> bool {
    let Ok(mut table) = AddressTable::new(alloc) else {
        return false;
    };
    table.put(FIRST).is_ok() && points(alloc, &table) && takes_back(&mut table)
}

#[test]
fn each_holds(rt: HostRuntime) {
    assert!(rt; facts_stand(rt.alloc()) && segment_is_pointed_to(rt.alloc()));
}
