use fact_codec::{BadFact, FACT_BYTES, may_follow, read_address, read_fact, write_fact};
use pur_base::{
    AddressFact, AnyFact, ElisionFact, Location, MediumFact, MediumId, Name, ObjectFact, ObjectId,
    ObjectKind, Place, SegmentFact, SegmentId, Seq, Table, Target,
};

type Bytes = [u8; FACT_BYTES];

// A volume named `a` of 8 sectors: object 1 reads as medium 1.
const VOLUME: Bytes = [
    1, 1, 1, 0, 0, 0, 0, 8, // object, volume, a name of one byte, 8 sectors
    0, 0, 0, 0, 0, 0, 0, 1, // object 1
    0, 0, 0, 0, 0, 0, 0, 0, //
    0, 0, 0, 0, 0, 0, 0, 1, // sequence number 1
    0, 0, 0, 0, 0, 0, 0, 1, // medium 1
    97, 0, 0, 0, 0, 0, 0, 0, // a
    0, 0, 0, 0, 0, 0, 0, 0, //
    0, 0, 0, 0, 0, 0, 0, 0, //
];

// A snapshot with the longest name, the greatest size and the greatest numbers.
const SNAPSHOT: Bytes = [
    1, 2, 24, 0, 0, 16, 0, 0, // object, snapshot, a name of 24 bytes, 1,048,576 sectors
    0, 0, 255, 255, 255, 255, 255, 255, // object 2^48 - 1
    0, 0, 0, 0, 0, 0, 0, 0, //
    0, 0, 255, 255, 255, 255, 255, 254, // sequence number 2^48 - 2
    255, 255, 255, 255, 255, 255, 255, 253, // medium 2^64 - 3
    97, 98, 99, 100, 101, 102, 103, 104, // abcdefgh
    105, 106, 107, 108, 109, 110, 111, 112, // ijklmnop
    113, 114, 115, 116, 117, 45, 95, 46, // qrstu-_.
];

// Sectors 256 to 1,048,575 of medium 772 read as those of medium 771 from 256 on.
const RANGE: Bytes = [
    2, 0, 0, 0, 0, 0, 0, 0, // medium
    0, 0, 0, 0, 0, 0, 3, 4, // medium 772
    0, 0, 0, 0, 0, 0, 1, 0, // start 256
    0, 0, 0, 0, 0, 0, 5, 6, // sequence number 1286
    0, 0, 0, 0, 0, 16, 0, 0, // end 1,048,576
    0, 0, 0, 0, 0, 0, 3, 3, // target 771
    0, 0, 0, 0, 0, 0, 1, 0, // target start 256
    0, 0, 0, 0, 0, 0, 0, 0, //
];

// No range of medium 772 begins at 256.
const EMPTY_RANGE: Bytes = [
    2, 0, 0, 0, 0, 0, 0, 0, // medium
    0, 0, 0, 0, 0, 0, 3, 4, // medium 772
    0, 0, 0, 0, 0, 0, 1, 0, // start 256
    0, 0, 0, 0, 0, 0, 5, 7, // sequence number 1287
    0, 0, 0, 0, 0, 0, 1, 0, // end 256
    0, 0, 0, 0, 0, 0, 0, 0, //
    0, 0, 0, 0, 0, 0, 0, 0, //
    0, 0, 0, 0, 0, 0, 0, 0, //
];

// The last sector of medium 9 is the last one of segment 258.
const STORED: Bytes = [
    3, 1, 0, 0, 0, 0, 0, 0, // address, stored
    0, 0, 0, 0, 0, 0, 0, 9, // medium 9
    0, 0, 0, 0, 0, 15, 255, 255, // sector 1,048,575
    0, 0, 0, 0, 0, 1, 2, 3, // sequence number 66,051
    0, 0, 0, 0, 0, 0, 1, 2, // segment 258
    3, 71, 0, 0, 0, 0, 0, 0, // index 839
    0, 0, 0, 0, 0, 0, 0, 0, //
    0, 0, 0, 0, 0, 0, 0, 0, //
];

// Sector 3 of medium 9 reads as zeros.
const ZERO: Bytes = [
    3, 2, 0, 0, 0, 0, 0, 0, // address, zero
    0, 0, 0, 0, 0, 0, 0, 9, // medium 9
    0, 0, 0, 0, 0, 0, 0, 3, // sector 3
    0, 0, 0, 0, 0, 1, 2, 4, // sequence number 66,052
    0, 0, 0, 0, 0, 0, 0, 0, //
    0, 0, 0, 0, 0, 0, 0, 0, //
    0, 0, 0, 0, 0, 0, 0, 0, //
    0, 0, 0, 0, 0, 0, 0, 0, //
];

// A full segment.
const SEGMENT: Bytes = [
    4, 0, 0, 0, 0, 0, 0, 0, // segment
    0, 0, 0, 0, 0, 0, 1, 2, // segment 258
    0, 0, 0, 0, 0, 0, 0, 0, //
    0, 0, 0, 0, 0, 0, 0, 7, // sequence number 7
    0, 0, 3, 1, 15, 255, 2, 0, // units 0.3, 1.4095, 2.5,
    5, 3, 2, 88, 4, 0, 7, 6, // 3.600, 4.7,
    0, 8, 7, 0, 9, 20, 0, 10, // 6.8, 7.9, 20.10
    23, 0, 11, 3, 72, 0, 0, 0, // and 23.11; 840 sectors placed
];

// All addresses of the mediums 3 to 258 are elided.
const ELISION: Bytes = [
    5, 0, 0, 0, 0, 0, 0, 0, // elision
    0, 0, 0, 0, 0, 0, 0, 3, // first 3
    0, 0, 0, 0, 0, 0, 0, 3, // addresses
    0, 0, 0, 0, 0, 0, 0, 8, // sequence number 8
    0, 0, 0, 0, 0, 0, 1, 2, // last 258
    0, 0, 0, 0, 0, 0, 0, 0, //
    0, 0, 0, 0, 0, 0, 0, 0, //
    0, 0, 0, 0, 0, 0, 0, 0, //
];

// Whether the bytes spell the fact, whose spelling is these bytes again, and an address only if it is one.
fn stands(bytes: &Bytes, fact: AnyFact) -> bool {
    let address = match fact {
        AnyFact::Address(address) => Ok(address),
        _ => Err(BadFact),
    };
    read_address(bytes) == address
        && match read_fact(bytes) {
            Ok(read) => read == fact && write_fact(&read) == *bytes,
            Err(_) => false,
        }
}

// The bytes with a field in place of what stood there.
fn changed(bytes: &Bytes, at: usize, field: &[u8]) -> Bytes {
    let mut bytes = *bytes;
    for (index, new) in field.iter().enumerate() {
        let place = at.wrapping_add(index);
        if place < FACT_BYTES {
            bytes[place] = *new;
        }
    }
    bytes
}

fn is_volume() -> bool {
    let Ok(name) = Name::read(b"a") else {
        return false;
    };
    let volume = ObjectFact {
        object: ObjectId(1),
        kind: ObjectKind::Volume,
        sectors: 8,
        medium: MediumId(1),
        name,
        seq: Seq(1),
    };
    stands(&VOLUME, AnyFact::Object(volume))
}

fn is_snapshot() -> bool {
    let Ok(name) = Name::read(b"abcdefghijklmnopqrstu-_.") else {
        return false;
    };
    let snapshot = ObjectFact {
        object: ObjectId((1 << 48) - 1),
        kind: ObjectKind::Snapshot,
        sectors: 1_048_576,
        medium: MediumId(u64::MAX - 2),
        name,
        seq: Seq((1 << 48) - 2),
    };
    stands(&SNAPSHOT, AnyFact::Object(snapshot))
}

const RANGE_BY_HAND: MediumFact = MediumFact {
    medium: MediumId(772),
    start: 256,
    end: 1_048_576,
    target: MediumId(771),
    target_start: 256,
    seq: Seq(1286),
};

const EMPTY_BY_HAND: MediumFact = MediumFact {
    medium: MediumId(772),
    start: 256,
    end: 256,
    target: MediumId(0),
    target_start: 0,
    seq: Seq(1287),
};

const STORED_BY_HAND: AddressFact = AddressFact {
    medium: MediumId(9),
    sector: 1_048_575,
    target: Target::Stored(Location {
        segment: SegmentId(258),
        index: 839,
    }),
    seq: Seq(66_051),
};

const ZERO_BY_HAND: AddressFact = AddressFact {
    medium: MediumId(9),
    sector: 3,
    target: Target::Zero,
    seq: Seq(66_052),
};

const SEGMENT_BY_HAND: SegmentFact = SegmentFact {
    segment: SegmentId(258),
    places: [
        Place { slot: 0, unit: 3 },
        Place {
            slot: 1,
            unit: 4095,
        },
        Place { slot: 2, unit: 5 },
        Place { slot: 3, unit: 600 },
        Place { slot: 4, unit: 7 },
        Place { slot: 6, unit: 8 },
        Place { slot: 7, unit: 9 },
        Place { slot: 20, unit: 10 },
        Place { slot: 23, unit: 11 },
    ],
    placed: 840,
    seq: Seq(7),
};

const ELISION_BY_HAND: ElisionFact = ElisionFact {
    first: 3,
    table: Table::Address,
    last: 258,
    seq: Seq(8),
};

fn others_stand() -> bool {
    stands(&RANGE, AnyFact::Medium(RANGE_BY_HAND))
        && stands(&EMPTY_RANGE, AnyFact::Medium(EMPTY_BY_HAND))
        && stands(&STORED, AnyFact::Address(STORED_BY_HAND))
        && stands(&ZERO, AnyFact::Address(ZERO_BY_HAND))
        && stands(&SEGMENT, AnyFact::Segment(SEGMENT_BY_HAND))
        && stands(&ELISION, AnyFact::Elision(ELISION_BY_HAND))
}

// Bytes that are no fact's with a field in place of what stands there: the place, how many bytes, and the field as a number.
type Row = (usize, usize, u64);

const NO_VOLUME: [Row; 18] = [
    (0, 1, 0), // tag 0
    (0, 1, 6), // tag 6
    (1, 1, 0), // kind 0 of an object
    (1, 1, 3), // kind 3 of an object
    (2, 1, 0), // a name of no byte
    (2, 1, 2), // a zero in the name
    (40, 1, 65), // a capital in the name
    (41, 1, 97), // a byte behind the name
    (63, 1, 1), // the last byte behind the name
    (3, 1, 1), // byte 3
    (4, 4, 0), // 0 sectors
    (4, 4, 1_048_577), // 1,048,577 sectors
    (8, 8, 0), // object 0
    (9, 1, 1), // object 2^48
    (23, 1, 1), // a second number of an object
    (24, 8, 0), // sequence number 0
    (25, 1, 1), // sequence number 2^48
    (32, 8, 0), // medium 0 of an object
];

// A name of 25 bytes.
const NO_SNAPSHOT: Row = (2, 1, 25);

const NO_RANGE: [Row; 8] = [
    (1, 1, 1), // a kind of a range
    (2, 1, 1), // a name of a range
    (7, 1, 1), // sectors of a range
    (32, 8, 255), // the end below the start
    (47, 1, 4), // the medium as its target
    (55, 1, 1), // a target past the greatest size
    (56, 1, 1), // zeros of a range
    (63, 1, 1), // the last byte of a range
];

// The end past the greatest size, and a target start by which the target isn't.
const END_PAST_SIZE: [u8; 24] = [
    0, 0, 0, 0, 0, 16, 0, 1, 0, 0, 0, 0, 0, 0, 3, 3, 0, 0, 0, 0, 0, 0, 0, 255,
];

const NO_EMPTY_RANGE: [Row; 2] = [
    (47, 1, 1), // a target of an empty range
    (55, 1, 1), // a target start of an empty range
];

const NO_STORED: [Row; 14] = [
    (0, 1, 2), // another table's tag
    (1, 1, 0), // kind 0 of an address
    (1, 1, 3), // kind 3 of an address
    (2, 1, 1), // a name of an address
    (7, 1, 1), // sectors of an address
    (9, 1, 1), // medium 2^48
    (32, 8, 0), // segment 0
    (20, 4, 1_048_576), // sector 1,048,576
    (19, 5, 4_294_967_296), // sector 2^32
    (40, 2, 840), // index 840
    (42, 1, 1), // zeros of a stored address
    (47, 1, 1), // more of them
    (55, 1, 1), // and more
    (63, 1, 1), // the last byte of a stored address
];

const NO_ZERO: [Row; 4] = [
    (1, 1, 1), // segment 0 of a stored address
    (39, 1, 1), // a segment of a zero address
    (41, 1, 1), // an index of a zero address
    (63, 1, 1), // the last byte of a zero address
];

const NO_SEGMENT: [Row; 6] = [
    (1, 1, 1), // a kind of a segment
    (23, 1, 1), // a second number of a segment
    (59, 2, 0), // 0 sectors placed
    (59, 2, 841), // 841 sectors placed
    (61, 1, 1), // zeros of a segment
    (63, 1, 1), // the last byte of a segment
];

const NO_ELISION: [Row; 7] = [
    (1, 1, 1), // a kind of an elision
    (23, 1, 5), // elisions elided
    (23, 1, 0), // table 0 elided
    (22, 1, 1), // table 259 elided
    (38, 2, 2), // the last id below the first
    (40, 1, 1), // zeros of an elision
    (63, 1, 1), // the last byte of an elision
];

fn is_refused(bytes: &Bytes) -> bool {
    read_fact(bytes) == Err(BadFact) && read_address(bytes) == Err(BadFact)
}

// Whether the bytes are refused with this field in them.
fn is_refused_with(bytes: &Bytes, (at, count, value): Row) -> bool {
    let field = value.to_be_bytes();
    count <= 8 && is_refused(&changed(bytes, at, &field[8 - count..]))
}

// Whether they are with each of the fields by itself.
fn are_refused(bytes: &Bytes, rows: &[Row]) -> bool {
    for row in rows {
        if !is_refused_with(bytes, *row) {
            return false;
        }
    }
    true
}

fn objects_and_ranges_are_refused() -> bool {
    are_refused(&VOLUME, &NO_VOLUME)
        && is_refused_with(&SNAPSHOT, NO_SNAPSHOT)
        && are_refused(&RANGE, &NO_RANGE)
        && is_refused(&changed(&RANGE, 32, &END_PAST_SIZE))
        && are_refused(&EMPTY_RANGE, &NO_EMPTY_RANGE)
}

fn others_are_refused() -> bool {
    are_refused(&STORED, &NO_STORED)
        && are_refused(&ZERO, &NO_ZERO)
        && are_refused(&SEGMENT, &NO_SEGMENT)
        && are_refused(&ELISION, &NO_ELISION)
        // Nothing but zeros.
        && is_refused(&[0; FACT_BYTES])
}

// Whether the second fact may stand behind the first in a patch, by their bytes.
fn ascends(earlier: &Bytes, later: &Bytes) -> Option<bool> {
    match (read_fact(earlier), read_fact(later)) {
        (Ok(earlier), Ok(later)) => Some(may_follow(&earlier, &later)),
        _ => None,
    }
}

fn patch_ascends() -> bool {
    // by the second number
    ascends(&ZERO, &STORED) == Some(true)
        // back
        && ascends(&STORED, &ZERO) == Some(false)
        // the id counts first
        && ascends(&STORED, &changed(&ZERO, 15, &[10])) == Some(true)
        // a fact behind itself
        && ascends(&ZERO, &ZERO) == Some(false)
        // another table
        && ascends(&ZERO, &RANGE) == Some(false)
}

/// The first of these that doesn't hold, or nothing.
fn broken() -> &'static str {
    if !is_volume() || !is_snapshot() {
        return "objects by hand";
    }
    if !others_stand() {
        return "facts of other tables by hand";
    }
    if !objects_and_ranges_are_refused() {
        return "refuses what is no fact";
    }
    if !others_are_refused() {
        return "refuses more that is no fact";
    }
    if !patch_ascends() {
        return "a patch ascends";
    }
    ""
}

#[test]
fn each_holds(rt: HostRuntime) {
    let broken = broken();
    assert!(rt; broken.is_empty(), "{broken}");
}
