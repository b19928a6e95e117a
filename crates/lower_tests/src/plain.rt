use array_model::{Held, Plain, PlainReply, plain_step, refusal_of};
use pur_base::{Name, Refusal, Request, Sector};
use std::alloc::Global;

/// Whether this is answered to a request without data that is in force.
fn answers(plain: &mut Plain, request: &Request, want: PlainReply) -> bool {
    if !request.is_in_force() || request.data_sectors() != 0 {
        return false;
    }
    match plain_step(plain, request, &[]) {
        Ok(reply) => reply == want,
        Err(_) => false,
    }
}

/// Whether a request is refused with this cause, and is told to be beforehand.
fn refuses(plain: &mut Plain, request: &Request, why: Refusal) -> bool {
    if !request.is_in_force() || refusal_of(plain, request) != Some(why) {
        return false;
    }
    answers(plain, request, PlainReply::Refused(why))
}

/// Whether a request of each form is answered.
fn creates_fills_and_reads(plain: &mut Plain) -> bool {
    let Ok(name) = Name::read(b"a") else {
        return false;
    };
    let (sectors, lba, count, byte) = (8, 7, 1, 65);
    let fill = Request::Fill {
        name,
        lba,
        count,
        byte,
    };
    let place = Held {
        object: 0,
        lba: 7,
        count: 1,
    };
    answers(plain, &Request::Create { name, sectors }, PlainReply::Done)
        && answers(plain, &fill, PlainReply::Done)
        && answers(
            plain,
            &Request::Read { name, lba, count },
            PlainReply::Data(place),
        )
}

fn all_are_answered(alloc: Global) -> bool {
    let mut plain = Plain::new(alloc);
    creates_fills_and_reads(&mut plain)
}

/// The names that stand below: the volume `a`, and what is made of it.
#[derive(Drop)]
struct Names {
    a: Name,
    s: Name,
}

fn two_names() -> Option<Names> {
    match (Name::read(b"a"), Name::read(b"s")) {
        (Ok(a), Ok(s)) => Some(Names { a, s }),
        _ => None,
    }
}

fn create(plain: &mut Plain, name: Name, sectors: u64) -> bool {
    answers(plain, &Request::Create { name, sectors }, PlainReply::Done)
}

fn fill(plain: &mut Plain, name: Name, lba: u64, count: u8, byte: u8) -> bool {
    let fill = Request::Fill {
        name,
        lba,
        count,
        byte,
    };
    answers(plain, &fill, PlainReply::Done)
}

/// A volume of 8 sectors, whose sector i is full of i.
fn counts(plain: &mut Plain, name: Name) -> bool {
    if !create(plain, name, 8) {
        return false;
    }
    for byte in 1..8 {
        if !fill(plain, name, u64::from(byte), 1, byte) {
            return false;
        }
    }
    true
}

/// Whether as many sectors are full of one byte each.
fn are_full_of(sectors: &[Sector], bytes: &[u8; 8]) -> bool {
    for (sector, byte) in sectors.iter().zip(bytes) {
        if sector.as_bytes() != Sector::filled(*byte).as_bytes() {
            return false;
        }
    }
    sectors.len() == 8
}

/// Whether the first 8 sectors of that name are full of one byte each.
fn reads(plain: &mut Plain, name: Name, bytes: &[u8; 8]) -> bool {
    match plain.readable(&name, 0, 8) {
        Ok(place) => are_full_of(plain.held(&place), bytes),
        Err(_) => false,
    }
}

fn copy(name: Name, lba: u64, to: Name, to_lba: u64, count: u64) -> Request {
    Request::Copy {
        name,
        lba,
        to,
        to_lba,
        count,
    }
}

const COUNTED: [u8; 8] = [0, 1, 2, 3, 4, 5, 6, 7];

/// Whether a snapshot keeps what was there when the volume is overwritten.
fn snapshot_stays(plain: &mut Plain, names: &Names) -> bool {
    let snapshot = Request::Snapshot {
        name: names.a,
        new: names.s,
    };
    counts(plain, names.a)
        && answers(plain, &snapshot, PlainReply::Done)
        && fill(plain, names.a, 0, 8, 9)
        && reads(plain, names.a, &[9; 8])
        && reads(plain, names.s, &COUNTED)
}

/// Whether a clone takes writes, and its source stays.
fn clone_is_written(plain: &mut Plain, names: &Names) -> bool {
    let clone = Request::Clone {
        name: names.a,
        new: names.s,
    };
    counts(plain, names.a)
        && answers(plain, &clone, PlainReply::Done)
        && fill(plain, names.s, 1, 2, 9)
        && reads(plain, names.s, &[0, 9, 9, 3, 4, 5, 6, 7])
        && reads(plain, names.a, &COUNTED)
}

/// Whether a copy over a part of what is copied reads as what stood there before, to behind and to the front.
fn copies_overlap(plain: &mut Plain, names: &Names) -> bool {
    let (a, s) = (names.a, names.s);
    counts(plain, a)
        && answers(plain, &copy(a, 0, a, 2, 6), PlainReply::Done)
        && reads(plain, a, &[0, 1, 0, 1, 2, 3, 4, 5])
        && counts(plain, s)
        && answers(plain, &copy(s, 2, s, 0, 6), PlainReply::Done)
        && reads(plain, s, &[2, 3, 4, 5, 6, 7, 6, 7])
}

/// Whether a copy to another volume leaves its source, whichever of the two is older.
fn copies_across(plain: &mut Plain, names: &Names) -> bool {
    let (a, s) = (names.a, names.s);
    counts(plain, a)
        && create(plain, s, 8)
        && answers(plain, &copy(a, 1, s, 4, 3), PlainReply::Done)
        && reads(plain, s, &[0, 0, 0, 0, 1, 2, 3, 0])
        && reads(plain, a, &COUNTED)
        && answers(plain, &copy(s, 5, a, 0, 2), PlainReply::Done)
        && reads(plain, a, &[2, 3, 2, 3, 4, 5, 6, 7])
}

/// Whether a snapshot and a clone are refused where their source isn't there, and where their own name is.
fn derived_is_refused(plain: &mut Plain, names: &Names) -> bool {
    let (name, new) = (names.s, names.a);
    create(plain, names.a, 8)
        && refuses(plain, &Request::Snapshot { name, new }, Refusal::Unknown)
        && refuses(plain, &Request::Clone { name, new }, Refusal::Unknown)
        && refuses(plain, &Request::Snapshot { name: new, new }, Refusal::Taken)
        && refuses(plain, &Request::Clone { name: new, new }, Refusal::Taken)
}

/// Whether a copy is refused to and from what isn't there, over a snapshot, and past the end of either.
fn copy_is_refused(plain: &mut Plain, names: &Names) -> bool {
    let (a, s) = (names.a, names.s);
    let snapshot = Request::Snapshot { name: a, new: s };
    create(plain, a, 8)
        && refuses(plain, &copy(a, 0, s, 0, 9), Refusal::Unknown)
        && refuses(plain, &copy(s, 0, a, 0, 9), Refusal::Unknown)
        && answers(plain, &snapshot, PlainReply::Done)
        && refuses(plain, &copy(a, 0, s, 0, 9), Refusal::ReadOnly)
        && refuses(plain, &copy(s, 1, a, 0, 8), Refusal::Range)
        && refuses(plain, &copy(s, 0, a, 1, 8), Refusal::Range)
        && answers(plain, &copy(s, 0, a, 0, 8), PlainReply::Done)
}

/// Which case doesn't hold, each over an empty array, or nothing.
fn broken(alloc: Global) -> &'static str {
    let Some(names) = two_names() else {
        return "names";
    };
    if !snapshot_stays(&mut Plain::new(alloc), &names) {
        return "a snapshot stays";
    }
    if !clone_is_written(&mut Plain::new(alloc), &names) {
        return "a clone is written";
    }
    if !copies_overlap(&mut Plain::new(alloc), &names) {
        return "a copy over itself";
    }
    if !copies_across(&mut Plain::new(alloc), &names) {
        return "a copy to another volume";
    }
    if !derived_is_refused(&mut Plain::new(alloc), &names) {
        return "a snapshot or a clone is refused";
    }
    if !copy_is_refused(&mut Plain::new(alloc), &names) {
        return "a copy is refused";
    }
    if !all_are_answered(alloc) {
        return "a request of each form";
    }
    ""
}

#[test]
fn each_holds(rt: HostRuntime) {
    let broken = broken(rt.alloc());
    assert!(rt; broken.is_empty(), "{broken}");
}
