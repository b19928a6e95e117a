// A session: the array is opened, and requests from a source are answered on a sink.
ghost use Rattle.std.specs.Prelude.{◌≡◌, ◌↔◌, [], false, IfOk};
ghost use Rattle.world.specs.Shelf.{Continues};
ghost use Rattle.world.specs.Streams.{SameStream};
ghost use Rattle.takeover.specs.Opened.{status_of};
ghost use Rattle.session_spec.specs.Ends.{RisesIf, is_source, is_sink};
ghost use Rattle.session_spec.specs.Headline.{Survives};
ghost use Rattle.array_server.specs.Serving.{IsNeverOpened, IsServeStatus};

use crate::answering::answer_all;
use array_engine::{Engine, ReadBuffers};
use pur_base::{NoMemory, Status};
use request_codec::{Reader, ReplyWriter};
use std::alloc::Global;
use takeover::{OpenFault, recover};
use world::World;

/// What a session takes memory for before a device is called.
#[derive(Drop)]
struct Buffers {
    reader: Reader,
    writer: ReplyWriter,
    sectors: ReadBuffers,
}

impl Buffers {
    /// Nothing is taken, nothing is to be given.
    fn new(alloc: Global) -> Result<Buffers, NoMemory>
        ensures pending { IfOk result (λ b. b.reader.ahead.pending ≡ []) }
        ensures taken { IfOk result (λ b. b.reader.ahead.taken ≡ 0) }
        ensures begun { IfOk result (λ b. b.reader.ahead.ended ≡ false) }
        ensures empty { IfOk result (λ b. b.writer ≡ []) }
    {
        let reader = Reader::new(alloc)?;
        let writer = ReplyWriter::new(alloc)?;
        let sectors = ReadBuffers::new(alloc)?;
        Ok(Buffers {
            reader,
            writer,
            sectors,
        })
    }
}

/// How a session ends that doesn't begin.
fn status_for(fault: &OpenFault) -> Status
    ensures { result ≡ status_of fault.now }
{
    match fault {
        OpenFault::Memory(_) => Status::Memory,
        OpenFault::TooFew(_) | OpenFault::BothLost => Status::Halted,
        _ => Status::NoArray,
    }
}

/// Opens the array that the devices hold, and answers the requests of the source on the sink, each before the next is taken.
///
/// Where the array isn't opened nothing is taken or given, and it ends with `NoArray`, `Halted` where too few devices are left, or `Memory`.
/// Else it ends with `Done` at the end of the input, or `Halted` where a logged request was answered `no device` by then, `Cut` where the input ends inside
/// a write's data, `InputLimit` where 2^40 bytes were taken and another came, and `Source` or `Sink` at once where a call of the source or
/// the sink failed.
pub fn serve<W: World>(alloc: Global, world: &mut W) -> Status
    // What it does to the arrays for which the devices stand, whatever fails and wherever it's stopped.
    ensures survives { (W.shelf world.old).honest → (W.source world.old).honest → (W.sink world.old).honest
        → Survives (W.shelf world.old) (W.shelf world.new) (W.source world.old) (W.source world.new) (W.sink world.old) (W.sink world.new) result }
    // Whatever the devices tell: how it ends, and that where it isn't opened for want of memory, or for no array, nothing is taken or given.
    ensures status { IsServeStatus result }
    ensures untouched { IsNeverOpened result → SameStream (W.source world.old) (W.source world.new) × SameStream (W.sink world.old) (W.sink world.new) }
    ensures source { RisesIf (is_source result) (W.source world.old).faults (W.source world.new).faults }
    ensures sink { RisesIf (is_sink result) (W.sink world.old).faults (W.sink world.new).faults }
    ensures honest_source { (W.source world.old).honest ↔ (W.source world.new).honest }
    ensures honest_sink { (W.sink world.old).honest ↔ (W.sink world.new).honest }
    ensures continues { Continues (W.shelf world.old) (W.shelf world.new) }
{
    let Ok(buffers) = Buffers::new(alloc) else {
        return Status::Memory;
    };
    let Buffers {
        mut reader,
        mut writer,
        sectors,
    } = buffers;
    match recover(alloc, world) {
        Ok(array) => answer_all(
            alloc,
            &mut reader,
            &mut writer,
            &mut Engine::new(alloc, array, sectors),
            world,
        ),
        Err(fault) => status_for(&fault),
    }
}
