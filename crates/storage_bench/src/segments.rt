// A segment is written and read.

use parity72::{DATA_SHARDS, SHARD_BYTES, SHARDS};
use pur_base::{Lost, Place, Places, SegmentId};
use segment_codec::{Header, STRIPES, SegmentKind};
use segment_io::{Open, RUN_ROOM, StripeData, are_places, read_sectors};
use world::{Failed, Shelf};

const PLACES: Places = [
    Place { slot: 0, unit: 3 },
    Place { slot: 1, unit: 3 },
    Place { slot: 2, unit: 3 },
    Place { slot: 3, unit: 3 },
    Place { slot: 4, unit: 3 },
    Place { slot: 5, unit: 3 },
    Place { slot: 6, unit: 3 },
    Place { slot: 7, unit: 3 },
    Place { slot: 8, unit: 3 },
];

const HEADER: Header = Header {
    segment: SegmentId(1),
    generation: 1,
    kind: SegmentKind::Data,
    shard: 0,
    placed: 56,
    tag: 0,
    part: 0,
    parts: 0,
    facts: 0,
    places: PLACES,
};

static STRIPE: StripeData = [[7; SHARD_BYTES]; DATA_SHARDS];

/// The stripes of a whole segment.
static RUN: [StripeData; STRIPES as usize] = [[[7; SHARD_BYTES]; DATA_SHARDS]; STRIPES as usize];

/// Room for a run of them.
pub type Room = [[u8; SHARD_BYTES]; RUN_ROOM * STRIPES as usize];

const NONE: [bool; 0] = [];

/// Drives 1 and 5.
const TWO: [bool; 6] = [false, true, false, false, false, true];

fn write_segment<S: Shelf>(shelf: &mut S) -> Result<(), Failed> {
    let mut open = Open::new(SegmentId(1), SegmentKind::Data, PLACES);
    if !are_places(shelf, &PLACES) {
        return Err(Failed);
    }
    open.append_stripe(&STRIPE, shelf);
    if !are_places(shelf, &PLACES) {
        return Err(Failed);
    }
    let (_closed, lost) = open.close(&HEADER, shelf);
    none_of(&lost)
}

fn none_of(lost: &Lost) -> Result<(), Failed> {
    if lost.drives == [false; 24] {
        Ok(())
    } else {
        Err(Failed)
    }
}

fn write_run<S: Shelf>(shelf: &mut S, room: &mut Room) -> Result<(), Failed> {
    let mut open = Open::new(SegmentId(1), SegmentKind::Data, PLACES);
    if !are_places(shelf, &PLACES) {
        return Err(Failed);
    }
    let lost = open.append_stripes(&RUN, room, shelf);
    none_of(&lost)
}

fn write_one_by_one<S: Shelf>(shelf: &mut S) -> Result<(), Failed> {
    let mut open = Open::new(SegmentId(1), SegmentKind::Data, PLACES);
    for stripe in &RUN {
        let may_go_on = open.stripes() < STRIPES && are_places(shelf, open.places());
        if !may_go_on {
            return Err(Failed);
        }
        open.append_stripe(stripe, shelf);
    }
    none_of(&open.lost())
}

fn read_stripe<S: Shelf>(shelf: &mut S, missing: &[bool]) -> Result<(), Failed> {
    let mut shards = [[0; SHARD_BYTES]; SHARDS];
    let mut run = [0; 28_672];
    if !are_places(shelf, &PLACES) {
        return Err(Failed);
    }
    match read_sectors(shelf, &PLACES, 0, missing, &mut shards, &mut run) {
        Ok(()) if run[0] == 7 && run[28_671] == 7 => Ok(()),
        _ => Err(Failed),
    }
}

/// Room for the run, of zeros.
pub fn room() -> Room {
    [[0; SHARD_BYTES]; RUN_ROOM * STRIPES as usize]
}

/// Does what a byte asks of a segment.
pub fn obey<S: Shelf>(shelf: &mut S, asked: u8, room: &mut Room) -> Result<(), Failed> {
    match asked {
        b'w' => write_segment(shelf),
        b'r' => write_run(shelf, room),
        b'o' => write_one_by_one(shelf),
        b's' => read_stripe(shelf, &NONE),
        _ => read_stripe(shelf, &TWO),
    }
}
