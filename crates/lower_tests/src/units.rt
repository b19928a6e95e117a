ghost use Rattle.std.specs.Prelude.{◌≡◌, ◌<◌, length, IfSome};

use pur_base::{Place, Places, SEGMENT_SHARDS};
use std::alloc::Global;
use unit_map::UnitMap;

const FIRST: [(u8, u16); SEGMENT_SHARDS] = [
    (0, 3),
    (1, 3),
    (2, 3),
    (3, 3),
    (4, 3),
    (5, 3),
    (6, 3),
    (7, 3),
    (8, 3),
];

const SECOND: [(u8, u16); SEGMENT_SHARDS] = [
    (0, 4),
    (1, 4),
    (2, 4),
    (3, 4),
    (4, 4),
    (5, 4),
    (6, 4),
    (9, 3),
    (10, 3),
];

fn places_of(places: [(u8, u16); SEGMENT_SHARDS]) -> Places {
    let mut all = [Place { slot: 0, unit: 0 }; SEGMENT_SHARDS];
    for shard in 0..SEGMENT_SHARDS {
        let (slot, unit) = places[shard];
        all[shard] = Place { slot, unit };
    }
    all
}

/// A map of eleven drives.
fn map_of_eleven(alloc: Global) -> Option<UnitMap>
    ensures { IfSome result (λ map. length map ≡ 11) }
{
    match UnitMap::new(alloc, 11, 64) {
        Ok(map) => Some(map),
        Err(_) => None,
    }
}

/// The group that is taken next. What is proved of it stays here, and so below.
fn taken(map: &mut UnitMap) -> Option<Places> {
    map.take()
}

fn takes(map: &mut UnitMap, places: [(u8, u16); SEGMENT_SHARDS]) -> bool {
    taken(map) == Some(places_of(places))
}

fn has_groups(map: &UnitMap, groups: u32) -> bool {
    map.groups() == groups
}

fn takes_in_order(alloc: Global) -> bool {
    let Some(mut map) = map_of_eleven(alloc) else {
        return false;
    };
    map.free(10) == 61
        && has_groups(&map, 74)
        && takes(&mut map, FIRST)
        && has_groups(&map, 73)
        && takes(&mut map, SECOND)
        && taken(&mut map).is_some()
        && taken(&mut map).is_some()
        && has_groups(&map, 70)
}

/// Takes a group and gives it back.
fn give_back(map: &mut UnitMap) -> bool {
    match map.take() {
        Some(places) => {
            map.give_back(&places);
            true
        }
        None => false,
    }
}

fn given_back_is_taken(alloc: Global) -> bool {
    let Some(mut map) = map_of_eleven(alloc) else {
        return false;
    };
    give_back(&mut map) && has_groups(&map, 74) && takes(&mut map, FIRST)
}

/// Whether so many groups are left once a drive is a member or isn't.
fn leaves(map: &mut UnitMap, drive: u8, member: bool, groups: u32) -> bool
    requires { drive < length map.old }
    ensures { length map.new ≡ length map.old }
{
    map.set_member(drive, member);
    map.groups() == groups
}

fn members_alone_are_taken(alloc: Global) -> bool {
    let Some(mut map) = map_of_eleven(alloc) else {
        return false;
    };
    // Fewer members leave fewer groups, and eight of them none.
    leaves(&mut map, 0, false, 67)
        && leaves(&mut map, 10, false, 61)
        && leaves(&mut map, 9, false, 0)
        && map.take().is_none()
        && leaves(&mut map, 0, true, 61)
        && takes(&mut map, FIRST)
}

/// Whether a unit that was free is marked used, by which so many are free on its drive.
fn marks(map: &mut UnitMap, place: &Place, left: u16) -> bool
    requires { place.now.slot < length map.old }
{
    if !map.is_free(place) {
        return false;
    }
    map.mark_used(place);
    !map.is_free(place) && map.free(place.slot) == left
}

fn marked_is_used(alloc: Global) -> bool {
    let Some(mut map) = map_of_eleven(alloc) else {
        return false;
    };
    marks(&mut map, &Place { slot: 4, unit: 3 }, 60) && has_groups(&map, 74)
}

#[test]
fn each_holds(rt: HostRuntime) {
    assert!(rt;
        takes_in_order(rt.alloc())
            && given_back_is_taken(rt.alloc())
            && members_alone_are_taken(rt.alloc())
            && marked_is_used(rt.alloc())
    );
}
