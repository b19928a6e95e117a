ghost use Rattle.std.specs.Prelude.{◌≡◌, ◌+◌, ◌≤◌, length, IsTrue};
ghost use Rattle.boot_codec.specs.Record.{patch_segments};
ghost use Rattle.boot_codec.specs.declared.limits.TheConstants.{PATCH_SEGMENTS};

use array_memory::Counts;
use boot_codec::{Patch, PatchSegment, Patches, Segments};
use pur_base::{Place, Places, SEGMENT_SHARDS, Table};
use record_tables::{NextPatches, Pair, joined_patches, next_patches, pair_of, segments_of};
use std::alloc::Global;

const COUNTS: Counts = Counts {
    objects: 1,
    mediums: 0,
    addresses: 6721,
    segments: 2,
    elisions: 0,
};

fn places(unit: u16) -> Places {
    let mut all = [Place { slot: 0, unit }; SEGMENT_SHARDS];
    for shard in 0..SEGMENT_SHARDS {
        all[shard].slot = shard as u8;
    }
    all
}

fn segment(id: u64, unit: u16) -> PatchSegment {
    PatchSegment {
        id,
        places: places(unit),
    }
}

fn push(patches: &mut Patches, tag: u8, facts: u32, segments: &[PatchSegment]) -> bool
    ensures { IsTrue result → patch_segments patches.new ≡ patch_segments patches.old + length segments.now }
{
    let patch = Patch {
        tag,
        facts,
        segments: Segments::new(segments),
    };
    match patches.push(&patch) {
        Ok(()) => true,
        Err(_) => false,
    }
}

/// Of two tables.
fn push_three(patches: &mut Patches) -> bool {
    let segments = [segment(7, 3)];
    push(patches, 2, 5, &segments)
        && push(patches, 3, 5, &segments)
        && push(patches, 3, 5, &segments)
}

/// Of three tables, the third patch of two segments.
fn push_five(patches: &mut Patches) -> bool
    ensures { IsTrue result → patch_segments patches.new ≡ patch_segments patches.old + 6 }
{
    push(patches, 2, 5, &[segment(7, 3)])
        && push(patches, 3, 6, &[segment(8, 4)])
        && push(patches, 3, 6721, &[segment(9, 5), segment(10, 6)])
        && push(patches, 3, 7, &[segment(11, 7)])
        && push(patches, 5, 8, &[segment(12, 8)])
}

/// Whether a patch has this tag and so many facts.
fn is_patch(patches: &Patches, index: usize, tag: u8, facts: u32) -> bool {
    if index >= patches.len() {
        return false;
    }
    let patch = patches.at(index);
    patch.tag == tag && patch.facts == facts
}

/// Whether the patches have these tags, and so many facts each.
fn stand(patches: &Patches, expected: &[(u8, u32)]) -> bool {
    for (index, (tag, facts)) in expected.iter().enumerate() {
        if !is_patch(patches, index, *tag, *facts) {
            return false;
        }
    }
    patches.len() == expected.len()
}

/// Whether that patch has two segments, of which this is the second.
fn ends_with(patches: &Patches, index: usize, second: &PatchSegment) -> bool {
    if index >= patches.len() {
        return false;
    }
    match patches.at(index).segments.as_slice() {
        [_, last] => *last == *second,
        _ => false,
    }
}

/// Whether new patches were added, so that these stand, of which one has that second segment.
fn are_next(
    next: &NextPatches,
    added: usize,
    expected: &[(u8, u32)],
    (index, second): (usize, PatchSegment),
) -> bool {
    next.added.len() == added && stand(&next.all, expected) && ends_with(&next.all, index, &second)
}

const NEXT: [(u8, u32); 6] = [(1, 1), (2, 5), (3, 5), (3, 5), (3, 6721), (4, 2)];

/// Whether the patches of those counts stand behind the old ones of their tables.
fn stand_behind(alloc: Global, was: &Patches) -> bool {
    let units = [places(4), places(5), places(6), places(7)];
    if segments_of(&COUNTS) != 4 {
        return false;
    }
    match next_patches(alloc, was, &COUNTS, 20, &units) {
        Ok(next) => are_next(&next, 3, &NEXT, (4, segment(22, 6))),
        Err(_) => false,
    }
}

fn new_stand_behind_old(alloc: Global) -> bool {
    let mut was = Patches::new(alloc);
    push_three(&mut was) && stand_behind(alloc, &was)
}

/// A pair in three segments.
const fn pair_at(place: usize) -> Option<Pair> {
    Some(Pair { place, segments: 3 })
}

fn are_paired(patches: &Patches) -> bool
    requires { patch_segments patches.now ≤ PATCH_SEGMENTS }
{
    pair_of(patches, Table::Address, 0) == pair_at(1)
        && pair_of(patches, Table::Address, 1) == pair_at(2)
        && pair_of(patches, Table::Address, 2).is_none()
        && pair_of(patches, Table::Address, u64::MAX).is_none()
        && pair_of(patches, Table::Medium, 0).is_none()
        && pair_of(patches, Table::Segment, 0).is_none()
}

/// Whether the third patch and the fourth stand as one.
fn joins(alloc: Global, was: &Patches) -> bool
    requires { length was.now ≡ 5 }
{
    let units = [places(9), places(10)];
    let expected = [(2, 5), (3, 6), (3, 6725), (5, 8)];
    match joined_patches(alloc, was, 2, Table::Address, 6725, 20, &units) {
        Ok(next) => are_next(&next, 1, &expected, (2, segment(21, 10))),
        Err(_) => false,
    }
}

/// Whether the second patch and the third have no fact between them any more.
fn joins_to_none(alloc: Global, was: &Patches) -> bool
    requires { length was.now ≡ 5 }
{
    match joined_patches(alloc, was, 1, Table::Address, 0, 20, &[]) {
        Ok(next) => { next.added.len() == 0 && next.all.len() == 3 && is_patch(&next.all, 1, 3, 7) }
        Err(_) => false,
    }
}

fn one_stands_for_two(alloc: Global) -> bool {
    let mut was = Patches::new(alloc);
    push_five(&mut was)
        && was.len() == 5
        && are_paired(&was)
        && joins(alloc, &was)
        && joins_to_none(alloc, &was)
}

#[test]
fn each_holds(rt: HostRuntime) {
    assert!(rt; new_stand_behind_old(rt.alloc()) && one_stands_for_two(rt.alloc()));
}
