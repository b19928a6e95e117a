ghost use Rattle.std.specs.Prelude.{◌≤◌};

use log_codec::{Head, is_command, read_head, write_head};
use pur_base::{Name, Request, SECTOR_BYTES, Sector};

// A head as it stands in a sector, by its fields from the kind to the second LBA, and the two names with the zeros behind them.
struct Row {
    fields: [u8; 24],
    first: [u8; 24],
    second: [u8; 24],
}

// The word, and the number 258.
const FRONT: [u8; 16] = [80, 85, 82, 78, 86, 76, 79, 71, 0, 0, 0, 0, 0, 0, 1, 2];

const NO_NAME: [u8; 24] = [0; 24];

const VM_1: [u8; 24] = *b"vm-1\0\0\0\0\0\0\0\0\0\0\0\0\0\0\0\0\0\0\0\0";

const S: [u8; 24] = *b"s\0\0\0\0\0\0\0\0\0\0\0\0\0\0\0\0\0\0\0\0\0\0\0";

// the create of vm-1 with 8 sectors
const CREATE: Row = Row {
    fields: [
        1, 4, 0, 0, // the kind, the names' lengths, a fill's byte
        0, 0, 0, 8, // the count
        0, 0, 0, 0, 0, 0, 0, 0, // the LBA
        0, 0, 0, 0, 0, 0, 0, 0, // the target's LBA
    ],
    first: VM_1,
    second: NO_NAME,
};

// 64 sectors at 772 of vm-1
const WRITE: Row = Row {
    fields: [
        2, 4, 0, 0, // the kind, the names' lengths, a fill's byte
        0, 0, 0, 64, // the count
        0, 0, 0, 0, 0, 0, 3, 4, // the LBA
        0, 0, 0, 0, 0, 0, 0, 0, // the target's LBA
    ],
    first: VM_1,
    second: NO_NAME,
};

// 1 sector at 7 of vm-1 with the byte 65
const FILL: Row = Row {
    fields: [
        3, 4, 0, 65, // the kind, the names' lengths, a fill's byte
        0, 0, 0, 1, // the count
        0, 0, 0, 0, 0, 0, 0, 7, // the LBA
        0, 0, 0, 0, 0, 0, 0, 0, // the target's LBA
    ],
    first: VM_1,
    second: NO_NAME,
};

// 2 sectors at 256 of vm-1
const ZERO: Row = Row {
    fields: [
        4, 4, 0, 0, // the kind, the names' lengths, a fill's byte
        0, 0, 0, 2, // the count
        0, 0, 0, 0, 0, 0, 1, 0, // the LBA
        0, 0, 0, 0, 0, 0, 0, 0, // the target's LBA
    ],
    first: VM_1,
    second: NO_NAME,
};

// s of vm-1
const SNAPSHOT: Row = Row {
    fields: [
        5, 4, 1, 0, // the kind, the names' lengths, a fill's byte
        0, 0, 0, 0, // the count
        0, 0, 0, 0, 0, 0, 0, 0, // the LBA
        0, 0, 0, 0, 0, 0, 0, 0, // the target's LBA
    ],
    first: VM_1,
    second: S,
};

// vm-1 of s
const CLONE: Row = Row {
    fields: [
        6, 1, 4, 0, // the kind, the names' lengths, a fill's byte
        0, 0, 0, 0, // the count
        0, 0, 0, 0, 0, 0, 0, 0, // the LBA
        0, 0, 0, 0, 0, 0, 0, 0, // the target's LBA
    ],
    first: S,
    second: VM_1,
};

// 66051 sectors from 5 of vm-1 to 6 of s
const COPY: Row = Row {
    fields: [
        7, 4, 1, 0, // the kind, the names' lengths, a fill's byte
        0, 1, 2, 3, // the count
        0, 0, 0, 0, 0, 0, 0, 5, // the LBA
        0, 0, 0, 0, 0, 0, 0, 6, // the target's LBA
    ],
    first: VM_1,
    second: S,
};

// vm-1
const DESTROY: Row = Row {
    fields: [
        8, 4, 0, 0, // the kind, the names' lengths, a fill's byte
        0, 0, 0, 0, // the count
        0, 0, 0, 0, 0, 0, 0, 0, // the LBA
        0, 0, 0, 0, 0, 0, 0, 0, // the target's LBA
    ],
    first: VM_1,
    second: NO_NAME,
};

fn put(bytes: &mut [u8; SECTOR_BYTES], at: usize, field: &[u8; 24])
    requires { at ≤ 100 }
{
    bytes[at..at + 24].copy_from_slice(field);
}

// The bytes of the row's sector.
fn bytes_of(row: &Row) -> [u8; SECTOR_BYTES] {
    let mut bytes = [0; SECTOR_BYTES];
    bytes[..16].copy_from_slice(&FRONT);
    put(&mut bytes, 16, &row.fields);
    put(&mut bytes, 40, &row.first);
    put(&mut bytes, 64, &row.second);
    bytes
}

// Whether the head is lawful, and is written as this sector.
fn writes(head: &Head, sector: &Sector) -> bool {
    is_command(&head.command) && write_head(head).as_bytes() == sector.as_bytes()
}

// Whether a head of number 258 is read from the sector, and is written so again.
fn reads(sector: &Sector) -> bool {
    match read_head(sector) {
        Ok(head) => head.number == 258 && writes(&head, sector),
        Err(_) => false,
    }
}

// Whether the command's head stands as in the row, and is read from there.
fn stands(command: Request, row: &Row) -> bool {
    let sector = Sector::new(bytes_of(row));
    let head = Head {
        number: 258,
        command,
    };
    writes(&head, &sector) && reads(&sector)
}

fn of_one_name_stand(name: Name) -> bool {
    let create = Request::Create { name, sectors: 8 };
    let write = Request::Write {
        name,
        lba: 772,
        count: 64,
    };
    let fill = Request::Fill {
        name,
        lba: 7,
        count: 1,
        byte: 65,
    };
    let zero = Request::Zero {
        name,
        lba: 256,
        count: 2,
    };
    stands(create, &CREATE)
        && stands(write, &WRITE)
        && stands(fill, &FILL)
        && stands(zero, &ZERO)
        && stands(Request::Destroy { name }, &DESTROY)
}

fn of_two_names_stand(name: Name, other: Name) -> bool {
    let snapshot = Request::Snapshot { name, new: other };
    let clone = Request::Clone {
        name: other,
        new: name,
    };
    let copy = Request::Copy {
        name,
        lba: 5,
        to: other,
        to_lba: 6,
        count: 66_051,
    };
    stands(snapshot, &SNAPSHOT) && stands(clone, &CLONE) && stands(copy, &COPY)
}

fn heads_stand() -> bool {
    match (Name::read(b"vm-1"), Name::read(b"s")) {
        (Ok(name), Ok(other)) => of_one_name_stand(name) && of_two_names_stand(name, other),
        _ => false,
    }
}

// `fill a 7 1 65` under number 1, as the document of formats has it.
const EXAMPLE: [u8; 41] = [
    0x50, 0x55, 0x52, 0x4E, 0x56, 0x4C, 0x4F, 0x47, 0x00, 0x00, 0x00, 0x00, 0x00, 0x00, 0x00, 0x01,
    0x03, 0x01, 0x00, 0x41, 0x00, 0x00, 0x00, 0x01, 0x00, 0x00, 0x00, 0x00, 0x00, 0x00, 0x00, 0x07,
    0x00, 0x00, 0x00, 0x00, 0x00, 0x00, 0x00, 0x00, 0x61,
];

fn example_stands() -> bool {
    let mut bytes = [0; SECTOR_BYTES];
    bytes[..41].copy_from_slice(&EXAMPLE);
    let Ok(name) = Name::read(b"a") else {
        return false;
    };
    let command = Request::Fill {
        name,
        lba: 7,
        count: 1,
        byte: 65,
    };
    writes(&Head { number: 1, command }, &Sector::new(bytes))
}

// Whether the command is that of the row of a copy.
fn is_the_copy(command: &Request) -> bool {
    match command {
        Request::Copy {
            name,
            lba,
            to,
            to_lba,
            count,
        } => {
            let names = name.as_bytes() == b"vm-1".as_slice() && to.as_bytes() == b"s".as_slice();
            names && *lba == 5 && *to_lba == 6 && *count == 66_051
        }
        _ => false,
    }
}

fn copy_is_read() -> bool {
    match read_head(&Sector::new(bytes_of(&COPY))) {
        Ok(head) => is_the_copy(&head.command),
        Err(_) => false,
    }
}

// What is changed in a row: the place and the byte.
type Change = (usize, u8);

const NO_WRITE: [Change; 14] = [
    (0, 81), // another word
    (16, 8), // a write as a destroy
    (17, 0), // no first name
    (17, 25), // a first name of 25 bytes
    (17, 5), // a name with a zero
    (40, 86), // a name with a capital
    (44, 97), // a byte behind the first name
    (64, 115), // a second name without a length
    (19, 65), // a fill byte of a write
    (23, 0), // count 0 of a write
    (23, 65), // count 65 of a write
    (22, 1), // count 320 of a write
    (88, 1), // a byte behind the fields
    (511, 1), // a byte at the end
];

const NO_DESTROY: [Change; 2] = [
    (16, 0), // kind 0
    (16, 9), // kind 9
];

const NO_SNAPSHOT: [Change; 3] = [
    (65, 97), // a byte behind the second name
    (18, 25), // a second name of 25 bytes
    (23, 1), // a count of a snapshot
];

const NO_FILL: [Change; 2] = [
    (23, 0), // count 0 of a fill
    (39, 1), // a second LBA of a fill
];

// Whether the row's sector is refused with all of these bytes changed.
fn is_refused(row: &Row, changes: &[Change]) -> bool {
    let mut bytes = bytes_of(row);
    for (at, byte) in changes {
        if *at >= SECTOR_BYTES {
            return false;
        }
        bytes[*at] = *byte;
    }
    read_head(&Sector::new(bytes)).is_err()
}

// Whether it is with each of them by itself.
fn are_refused(row: &Row, changes: &[Change]) -> bool {
    for change in changes {
        if !is_refused(row, &[*change]) {
            return false;
        }
    }
    true
}

fn all_are_refused() -> bool {
    are_refused(&WRITE, &NO_WRITE)
        && are_refused(&DESTROY, &NO_DESTROY)
        && are_refused(&SNAPSHOT, &NO_SNAPSHOT)
        && are_refused(&FILL, &NO_FILL)
        // count 65 of a zero
        && is_refused(&ZERO, &[(23, 65)])
        // an LBA of a create
        && is_refused(&CREATE, &[(31, 1)])
        // a fill byte of a clone
        && is_refused(&CLONE, &[(19, 1)])
        // no second name
        && is_refused(&SNAPSHOT, &[(18, 0), (64, 0)])
        // a second name of a write
        && is_refused(&WRITE, &[(18, 1), (64, 115)])
        // count 0 of a copy
        && is_refused(&COPY, &[(21, 0), (22, 0), (23, 0)])
}

#[test]
fn each_holds(rt: HostRuntime) {
    assert!(rt; heads_stand() && example_stands() && copy_is_read() && all_are_refused());
}
