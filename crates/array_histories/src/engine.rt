// The calls of the engine, without what they promise.
use crate::text::Text;
use array_server::{init, serve};
use pur_base::Status;
use std::alloc::Global;
use world::World;
use world_mem::MemWorld;

/// Makes an array.
pub fn init_on<W: World>(alloc: Global, world: &mut W) -> Status {
    init(alloc, world)
}

/// Lets a session happen.
pub fn serve_on<W: World>(alloc: Global, world: &mut W) -> Status {
    serve(alloc, world)
}

/// One of both.
pub fn work_on<W: World>(alloc: Global, is_making: bool, world: &mut W) -> Status {
    if is_making {
        init_on(alloc, world)
    } else {
        serve_on(alloc, world)
    }
}

/// A session with this input, the calls before which are forgotten. False where memory is wanting.
pub fn play(alloc: Global, world: &mut MemWorld, input: Text) -> bool {
    let Ok(input) = input.end() else {
        return false;
    };
    world.forget();
    let is_fed = world.feed(&input).is_ok();
    serve_on(alloc, world);
    is_fed
}
