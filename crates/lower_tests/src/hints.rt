ghost use Rattle.std.specs.Prelude.{◌≡◌, ⊤, slice_get};

use dedup_index::{Fnv, Hint, Index, hash};
use pur_base::{Location, Lost, ReadBack, Sector, SegmentId};
use std::alloc::Global;

/// Every sector has the hint 0.
struct Zero;

impl Hint for Zero {
    ghost hint = { λ _. 0 };

    fn of(_sector: &Sector) -> u64 {
        0
    }

    fn of_four(sectors: [&Sector; 4]) -> [u64; 4] {
        let [a, b, c, d] = sectors;
        [Zero::of(a), Zero::of(b), Zero::of(c), Zero::of(d)]
    }
}

/// Sectors by their index alone. One that isn't there is lost.
#[derive(Drop)]
struct Sectors {
    sectors: Vec<Sector>,
}

impl ReadBack for Sectors {
    ghost reads = { λ s at read t. (t ≡ s) × (read ≡ slice_get s.sectors.items at.index) };

    ghost cause = { λ _ _ _. ⊤ };

    fn read_back(&mut self, at: Location, into: &mut Sector) -> Result<(), Lost> {
        match self.sectors.get(at.index as usize) {
            Some(sector) => {
                *into = *sector;
                Ok(())
            }
            None => Err(Lost {
                drives: [false; 24],
            }),
        }
    }
}

fn place(segment: u64, index: u16) -> Location {
    let segment = SegmentId(segment);
    Location { segment, index }
}

/// Where a sector full of that byte is found.
fn found<H: Hint>(index: &mut Index<H>, byte: u8, from: &mut Sectors) -> Option<Location> {
    index.find(&Sector::filled(byte), &mut Sector::default(), from)
}

/// The same by a hint that is known already.
fn found_by<H: Hint>(
    index: &mut Index<H>,
    hint: u64,
    byte: u8,
    from: &mut Sectors,
) -> Option<Location> {
    index.find_by(hint, &Sector::filled(byte), &mut Sector::default(), from)
}

/// Whether a sector is noted that wasn't found before.
fn notes_new(index: &mut Index<Zero>, byte: u8, from: &mut Sectors) -> bool {
    if found(index, byte, from).is_some() {
        return false;
    }
    let sector = Sector::filled(byte);
    index.note(&sector, place(1, byte as u16)).is_ok() && from.sectors.push(sector).is_ok()
}

/// Whether 64 sectors are, and make one hint.
fn notes_all(index: &mut Index<Zero>, from: &mut Sectors) -> bool {
    for byte in 0..64u8 {
        if !notes_new(index, byte, from) {
            return false;
        }
    }
    index.len() == 1
}

fn forget<H: Hint>(index: &mut Index<H>, segment: u64) {
    index.forget(SegmentId(segment));
}

/// Whether the last of them is found, and the first isn't, until their segment is forgotten.
fn finds_last(index: &mut Index<Zero>, from: &mut Sectors) -> bool {
    if found(index, 63, from) != Some(place(1, 63)) || found(index, 0, from).is_some() {
        return false;
    }
    forget(index, 1);
    found(index, 63, from).is_none() && index.is_empty()
}

fn bytes_tell_apart(alloc: Global) -> bool {
    let mut from = Sectors {
        sectors: Vec::new(alloc),
    };
    let Ok(mut index) = Index::<Zero>::new(alloc) else {
        return false;
    };
    notes_all(&mut index, &mut from) && finds_last(&mut index, &mut from)
}

/// Whether of sectors full of 7 and of 8, which are noted, the first one stands and is found, and the second one is lost.
fn finds_one_of_two(index: &mut Index<Fnv>, from: &mut Sectors) -> bool {
    let sector = Sector::filled(7);
    let other = Sector::filled(8);
    let [hint, absent, ..] = Fnv::of_four([&sector, &other, &sector, &other]);
    index.note_by(hint, place(1, 1)).is_ok()
        && index.note_by(absent, place(2, 2)).is_ok()
        && found_by(index, hint, 7, from) == Some(place(1, 1))
        && found_by(index, absent, 8, from).is_none()
}

/// Whether that one is found, and is the only one, once the segment of the other is forgotten.
fn finds_the_other_forgotten(index: &mut Index<Fnv>, from: &mut Sectors) -> bool {
    forget(index, 2);
    found(index, 7, from) == Some(place(1, 1)) && index.len() == 1
}

fn lost_are_not_found(alloc: Global) -> bool {
    let Ok(sectors) = Vec::from_elem(alloc, Sector::filled(7), 2) else {
        return false;
    };
    let mut from = Sectors { sectors };
    let Ok(mut index) = Index::<Fnv>::new(alloc) else {
        return false;
    };
    finds_one_of_two(&mut index, &mut from) && finds_the_other_forgotten(&mut index, &mut from)
}

/// Texts and their hashes, as they were published.
const HASHES: [(&str, u64); 3] = [
    ("", 0xcbf29ce484222325),
    ("a", 0xaf63dc4c8601ec8c),
    ("foobar", 0x85944171f73967e8),
];

fn published_are_hashed() -> bool {
    for (text, want) in &HASHES {
        if hash(text.as_bytes()) != *want {
            return false;
        }
    }
    true
}

#[test]
fn each_holds(rt: HostRuntime) {
    assert!(rt;
        bytes_tell_apart(rt.alloc()) && lost_are_not_found(rt.alloc()) && published_are_hashed()
    );
}
