// The requests from a source are answered on a sink.
ghost use Rattle.std.specs.Prelude.{◌≡◌, ◌↔◌, [], false, Bool};
ghost use Rattle.world.specs.Losing.{geometry_of};
ghost use Rattle.world.specs.Shelf.{Continues};
ghost use Rattle.session_spec.specs.Ends.{RisesIf, is_source, is_sink};
ghost use Rattle.session_spec.specs.Faring.{Point};
ghost use Rattle.array_engine.specs.Engines.{IsOf};
ghost use Rattle.array_server.specs.Sessions.{BeginsAt, IsServedFrom, IsSessionEnd, end_of};

use array_engine::Engine;
use pur_base::Status;
use request_codec::{Item, Reader, ReplyWriter};
use std::alloc::Global;
use world::World;

/// How a session ends whose input is answered to its end.
fn ended(halted: bool) -> Status
    ensures { result ≡ end_of halted }
{
    if halted { Status::Halted } else { Status::Done }
}

/// Answers every item that the reader reads, each before the next is taken, and tells why it stopped: `Done` at the end of the input, or `Halted` where
/// a logged request was answered `no device` by then, `Cut` where the input ends inside a write's data, `InputLimit` where 2^40 bytes were taken and
/// another came, and `Source` or `Sink` at once where a call of the source or the sink failed.
pub(crate) fn answer_all<W: World>(
    alloc: Global,
    reader: &mut Reader,
    writer: &mut ReplyWriter,
    engine: &mut Engine,
    world: &mut W,
) -> Status
    requires pending { reader.old.ahead.pending ≡ [] }
    requires taken { reader.old.ahead.taken ≡ 0 }
    requires begun { reader.old.ahead.ended ≡ false }
    requires empty { writer.old ≡ [] }
    requires is_of { IsOf (geometry_of (W.shelf world.old)) engine.old }
    // Wherever it begins: the replies, each with its cause, and what they leave, with what segments hold or without.
    ensures served { (W.shelf world.old).honest → (W.source world.old).honest → (W.sink world.old).honest → ¬ (W.shelf world.new).lapsed
        → (told : Bool) (first : Point) → BeginsAt told (W.shelf world.old) engine.old first
        → IsServedFrom told (W.shelf world.old) (W.shelf world.new) engine.old (W.source world.old).bytes (W.source world.new).bytes result first }
    ensures status { IsSessionEnd result }
    ensures source { RisesIf (is_source result) (W.source world.old).faults (W.source world.new).faults }
    ensures sink { RisesIf (is_sink result) (W.sink world.old).faults (W.sink world.new).faults }
    ensures honest_source { (W.source world.old).honest ↔ (W.source world.new).honest }
    ensures honest_sink { (W.sink world.old).honest ↔ (W.sink world.new).honest }
    ensures continues { Continues (W.shelf world.old) (W.shelf world.new) }
{
    'items: loop {
        let Ok(item) = reader.next(world) else {
            return Status::Source;
        };
        match item {
            Item::End => return ended(engine.is_halted()),
            Item::Limit => return Status::InputLimit,
            _ => {}
        }
        let said = engine.respond(alloc, &item, reader.sectors(), world);
        match engine.give(&said, writer, world) {
            Ok(()) => {}
            Err(_) => return Status::Sink,
        }
        match item {
            Item::Cut => return Status::Cut,
            _ => {}
        }
    }
}
