use pur_base::NvId;
use std::alloc::Global;
use world_clients::{Blind, session, write_members};
use world_mem::MemWorld;

/// Stores and says each byte of the input. What is proved of it stays here.
fn say(world: &mut MemWorld) -> bool {
    session(world, NvId(0), 7, 5).is_ok()
}

fn says_each(alloc: Global) -> bool {
    let Ok(input) = b"abc".to_vec(alloc) else {
        return false;
    };
    let Ok(mut world) = MemWorld::new(alloc, 11, 64, input) else {
        return false;
    };
    say(&mut world) && world.output() == b"kkk".as_slice()
}

/// Which of five members are left behind a write, over a world whose calls fail or don't.
fn left(fails: bool) -> [bool; 5] {
    let mut members = [true; 5];
    let mut world = Blind::new(11, 64, fails);
    write_members(&mut world, &mut members, 1024, &[9; 512]);
    members
}

fn failing_are_dropped() -> bool {
    left(false) == [true; 5] && left(true) == [false; 5]
}

#[test]
fn each_holds(rt: HostRuntime) {
    assert!(rt; says_each(rt.alloc()) && failing_are_dropped());
}
