// A new array.
ghost use Rattle.std.specs.Prelude.{◌≡◌, ◌↔◌, []};
ghost use Rattle.world.specs.Shelf.{Continues, OutputOnly};
ghost use Rattle.world.specs.Streams.{SameStream};
ghost use Rattle.session_spec.specs.Ends.{RisesIf, is_sink};
ghost use Rattle.session_spec.specs.Making.{Makes};
ghost use Rattle.array_server.specs.Made.{InitsOn, IsInitEnd, IsMadeEnd, IsMadeOutput};

use array_engine::give;
use pur_base::{Reply, Status};
use request_codec::ReplyWriter;
use shelf_init::{InitFault, blank_stay_blank};
use std::alloc::Global;
use world::World;

/// Says that the array was made.
fn say_made<W: World>(writer: &mut ReplyWriter, world: &mut W) -> Status
    requires { writer.old ≡ [] }
    ensures status { IsMadeEnd result }
    ensures output { (W.sink world.old).honest → IsMadeOutput result (W.sink world.old).bytes (W.sink world.new).bytes }
    ensures source { SameStream (W.source world.old) (W.source world.new) }
    ensures sink { RisesIf (is_sink result) (W.sink world.old).faults (W.sink world.new).faults }
    ensures honest_sink { (W.sink world.old).honest ↔ (W.sink world.new).honest }
    ensures output_only { OutputOnly (W.shelf world.old) (W.shelf world.new) }
{
    match give(writer, &Reply::Done, &[], world) {
        Ok(()) => Status::Done,
        Err(_) => Status::Sink,
    }
}

/// Makes a new, empty array on blank devices, and then gives the line `ok`.
///
/// Ends with `Done`, `Sink` where the line isn't given whole, `NotBlank` where a record is in force on the devices already, which then stay as they are,
/// `Halted` where a call on a device failed, and `Memory`, before any call, where memory is wanting. Nothing is taken from the source.
pub fn init<W: World>(alloc: Global, world: &mut W) -> Status
    // Where it halts, and only there, a call on a device failed. For want of memory no device is called.
    ensures ended { IsInitEnd result (W.shelf world.old) (W.shelf world.new) }
    ensures output { (W.sink world.old).honest → IsMadeOutput result (W.sink world.old).bytes (W.sink world.new).bytes }
    ensures source { SameStream (W.source world.old) (W.source world.new) }
    ensures sink { RisesIf (is_sink result) (W.sink world.old).faults (W.sink world.new).faults }
    ensures honest_sink { (W.sink world.old).honest ↔ (W.sink world.new).honest }
    ensures continues { Continues (W.shelf world.old) (W.shelf world.new) }
    // No record was in force where it's made, and where one is nothing is written. Wherever it's stopped, no array is lost, and a new one stands once it is told.
    ensures inits { (W.shelf world.old).honest → InitsOn result (W.shelf world.old) (W.shelf world.new) }
    // All of that, with what is given.
    ensures makes { (W.shelf world.old).honest → (W.sink world.old).honest → Makes (W.shelf world.old) (W.shelf world.new) (W.sink world.old) (W.sink world.new) result }
{
    let Ok(mut writer) = ReplyWriter::new(alloc) else {
        blank_stay_blank(world);
        return Status::Memory;
    };
    match shelf_init::init(alloc, world) {
        Ok(()) => say_made(&mut writer, world),
        Err(InitFault::Memory(_)) => Status::Memory,
        Err(InitFault::Device) => Status::Halted,
        Err(InitFault::NotBlank) => Status::NotBlank,
    }
}
