// What a loop did is taken back.
use crate::devices::{DEVICES, device_at, put, set_pulled, wake};
use crate::stage::Stage;
use std::alloc::Global;
use world::Source;
use world_mem::{Call, MemWorld, What};

/// Takes back one of the calls that are kept, where it is a write.
fn undo(alloc: Global, world: &mut MemWorld, number: usize) -> bool {
    let Some(Call::On(device, What::Write(at, was))) = world.calls().get(number) else {
        return true;
    };
    let (device, at) = (*device, *at);
    match was.to_vec(alloc) {
        Ok(bytes) => put(world, device, at as u64, &bytes),
        Err(_) => false,
    }
}

/// Takes back all calls that are kept.
fn undo_all(alloc: Global, world: &mut MemWorld) -> bool {
    for number in (0..world.calls().len()).rev() {
        if !undo(alloc, world, number) {
            return false;
        }
    }
    true
}

/// Takes what is left of the input.
fn take_rest(world: &mut MemWorld) {
    let mut bytes = [0; 4096];
    for _ in 0..u64::MAX {
        match world.take(&mut bytes) {
            Ok(0) | Err(_) => return,
            Ok(_) => {}
        }
    }
}

/// Puts all devices back.
fn put_all_back(world: &mut MemWorld) {
    for place in 0..DEVICES {
        set_pulled(world, device_at(place), false);
    }
}

impl Stage {
    /// The devices hold what they held before the calls that are kept, all of them answer, and there is no input left.
    pub fn take_back(&mut self) -> bool {
        put_all_back(&mut self.world);
        wake(&mut self.world);
        take_rest(&mut self.world);
        let is_undone = undo_all(self.alloc, &mut self.world);
        self.world.forget();
        is_undone || self.tell("it can't be taken back")
    }
}
