use pur_base::{Device, DriveId, NvId};
use std::alloc::Global;
use world::{Failed, Shelf, Sink, Source};
use world_mem::{Choice, Fused, MemWorld};

const NVRAM: Device = Device::Nv(NvId(0));

/// Counts up from some byte.
#[derive(Drop)]
struct Upward(u8);

impl Choice for Upward {
    fn byte(&mut self) -> u8 {
        let byte = self.0;
        self.0 = byte.wrapping_add(1);
        byte
    }
}

fn fed_world(alloc: Global) -> Option<MemWorld> {
    match b"abcdefg".to_vec(alloc) {
        Ok(input) => MemWorld::new(alloc, 11, 64, input).ok(),
        Err(_) => None,
    }
}

/// Whether a write of these three bytes is done.
fn writes<S: Shelf>(shelf: &mut S, at: u16, from: &[u8; 3]) -> bool {
    shelf.write(NVRAM, u64::from(at), from).is_ok()
}

/// Whether a sync is done.
fn syncs<S: Shelf>(shelf: &mut S) -> bool {
    shelf.sync(NVRAM).is_ok()
}

fn read_nvram<S: Shelf>(shelf: &mut S, at: u16) -> Result<[u8; 3], Failed> {
    let mut bytes = [0; 3];
    match shelf.read(NVRAM, u64::from(at), &mut bytes) {
        Ok(()) => Ok(bytes),
        Err(failed) => Err(failed),
    }
}

fn read_drive<S: Shelf>(shelf: &mut S, drive: u8, sector: u8) -> Result<[u8; 512], Failed> {
    let mut bytes = [0; 512];
    if drive >= shelf.drives() || shelf.units() < 64 {
        return Err(Failed);
    }
    let at = u64::from(sector) * 512;
    match shelf.read(Device::Drive(DriveId(drive)), at, &mut bytes) {
        Ok(()) => Ok(bytes),
        Err(failed) => Err(failed),
    }
}

/// Whether these three bytes are read.
fn reads<S: Shelf>(shelf: &mut S, at: u16, bytes: [u8; 3]) -> bool {
    read_nvram(shelf, at) == Ok(bytes)
}

/// What a stop leaves, if the dirty bytes count up from 100.
fn stopped(alloc: Global, world: &MemWorld) -> Option<MemWorld> {
    world.stopped(alloc, &mut Upward(100)).ok()
}

/// Leaves three bytes synced, and four written over the last of them and behind.
fn write_dirty(world: &mut MemWorld) -> bool {
    writes(world, 7, &[1, 2, 3])
        && syncs(world)
        && writes(world, 9, &[4, 5, 6])
        && writes(world, 10, &[7, 8, 9])
}

/// Whether a stop leaves the four as chosen, and the others as they were.
fn stop_tears(alloc: Global, world: &MemWorld) -> bool {
    let Some(mut torn) = stopped(alloc, world) else {
        return false;
    };
    reads(&mut torn, 7, [1, 2, 100])
        && reads(&mut torn, 10, [101, 102, 103])
        && reads(&mut torn, 13, [0, 0, 0])
}

/// Whether a stop leaves what was written.
fn stop_leaves(alloc: Global, world: &MemWorld) -> bool {
    let Some(mut whole) = stopped(alloc, world) else {
        return false;
    };
    reads(&mut whole, 9, [4, 7, 8])
}

fn dirty_are_chosen(alloc: Global) -> bool {
    let Some(mut world) = fed_world(alloc) else {
        return false;
    };
    write_dirty(&mut world)
        && reads(&mut world, 9, [4, 7, 8])
        && stop_tears(alloc, &world)
        && syncs(&mut world)
        && stop_leaves(alloc, &world)
}

/// Whether the second call from now on fails alone: a write, which leaves what stood there.
fn fails_once(world: &mut MemWorld) -> bool {
    world.fail(NVRAM, 2).is_ok()
        && reads(world, 0, [1, 2, 3])
        && !writes(world, 0, &[9, 9, 9])
        && reads(world, 0, [1, 2, 3])
}

/// Whether a pulled device fails, and no other.
fn fails_pulled(world: &mut MemWorld) -> bool {
    world.pull(NVRAM);
    read_nvram(world, 0).is_err() && !syncs(world) && read_drive(world, 3, 200) == Ok([0; 512])
}

/// Whether it serves again when it is put back.
fn serves_again(world: &mut MemWorld) -> bool {
    world.put_back(NVRAM);
    reads(world, 0, [1, 2, 3]) && world.calls().len() >= 7
}

/// Whether a blank one in its place reads as zeros, by the first call of a new record.
fn serves_blank(world: &mut MemWorld) -> bool {
    world.put_blank(NVRAM);
    reads(world, 0, [0; 3]) && world.calls().len() == 1
}

/// Whether the calls are forgotten, and memory never lacked.
fn forgets(world: &mut MemWorld) -> bool {
    world.forget();
    world.calls().is_empty() && !world.starved()
}

fn calls_fail(alloc: Global) -> bool {
    let Some(mut world) = fed_world(alloc) else {
        return false;
    };
    writes(&mut world, 0, &[1, 2, 3])
        && fails_once(&mut world)
        && fails_pulled(&mut world)
        && serves_again(&mut world)
        && serves_blank(&mut world)
        && forgets(&mut world)
}

/// How many bytes a take gives, or `None` where it fails.
fn taken(world: &mut MemWorld) -> Option<usize> {
    world.take(&mut [0; 4]).ok()
}

/// Whether the first four bytes are taken at once.
fn takes_four(world: &mut MemWorld) -> bool {
    let mut into = [0; 4];
    world.take(&mut into) == Ok(4) && into == *b"abcd"
}

/// Whether the others come in pieces of two, and a take fails between them.
fn takes_pieces(world: &mut MemWorld) -> bool {
    world.set_piece(2);
    world.fail_take(2).is_ok()
        && taken(world) == Some(2)
        && taken(world).is_none()
        && taken(world) == Some(1)
        && taken(world) == Some(0)
}

/// Whether more input is taken behind its end.
fn takes_more(world: &mut MemWorld) -> bool {
    world.feed(b"hi").is_ok() && taken(world) == Some(2)
}

/// How many of three bytes a give passes on, or `None` where it fails.
fn given(world: &mut MemWorld) -> Option<usize> {
    world.give(b"xyz").ok()
}

/// Whether a give fails, and the next one passes on two of three bytes.
fn gives_two(world: &mut MemWorld) -> bool {
    world.fail_give(1).is_ok() && given(world).is_none() && given(world) == Some(2)
}

fn come_in_pieces(alloc: Global) -> bool {
    let Some(mut world) = fed_world(alloc) else {
        return false;
    };
    takes_four(&mut world)
        && takes_pieces(&mut world)
        && takes_more(&mut world)
        && gives_two(&mut world)
        && world.output() == b"xy".as_slice()
}

/// How much of one byte passes the fuse, or `None` where none does.
fn passed(fused: &mut Fused<MemWorld>) -> Option<usize> {
    fused.give(b"k").ok()
}

/// Whether a write and a sync pass the fuse, and an output behind them.
fn passes_two(fused: &mut Fused<MemWorld>) -> bool {
    let both = writes(fused, 0, &[1, 2, 3]) && syncs(fused);
    fused.forget();
    both && !fused.blown() && passed(fused) == Some(1)
}

/// Whether the next call blows it, behind which no output passes.
fn blows(fused: &mut Fused<MemWorld>) -> bool {
    !writes(fused, 0, &[4, 5, 6]) && fused.blown() && passed(fused).is_none()
}

fn fuse_cuts_off(alloc: Global) -> bool {
    let Some(world) = fed_world(alloc) else {
        return false;
    };
    let mut fused = Fused::new(world, 2);
    let is_cut_off = passes_two(&mut fused)
        && blows(&mut fused)
        && fused.inner().output() == b"k".as_slice();
    let mut world = fused.into_inner();
    is_cut_off && reads(&mut world, 0, [1, 2, 3])
}

/// The first of these that doesn't hold, or nothing.
fn broken(alloc: Global) -> &'static str {
    if !dirty_are_chosen(alloc) {
        return "a stop chooses dirty bytes alone";
    }
    if !calls_fail(alloc) {
        return "calls fail as told";
    }
    if !come_in_pieces(alloc) {
        return "input and output come in pieces";
    }
    if !fuse_cuts_off(alloc) {
        return "a fuse cuts off";
    }
    ""
}

#[test]
fn each_holds(rt: HostRuntime) {
    let broken = broken(rt.alloc());
    assert!(rt; broken.is_empty(), "{broken}");
}
