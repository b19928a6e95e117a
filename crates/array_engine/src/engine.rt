// The array that is served: each item is answered by it.
ghost use Rattle.std.specs.Prelude.{◌≡◌, ◌<◌, ◌≤◌, ℕ, true, false, None, Bool, List, length, not, slice_index_or};
ghost use Rattle.pur_base.specs.Devices.{Geometry};
ghost use Rattle.pur_base.specs.Grammar.{Asked, is_in_force, data_count};
ghost use Rattle.pur_base.specs.Commands.{IsLogged};
ghost use Rattle.pur_base.specs.declared.limits.TheConstants.{REQUEST_SECTORS};
ghost use Rattle.pur_base.specs.declared.request.Request.TheVariants.{Read};
ghost use Rattle.world.specs.Losing.{geometry_of};
ghost use Rattle.world.specs.Shelf.{Continues, LeavesOnly, IsCountedBy};
ghost use Rattle.register.specs.Standing.{Content, array_of};
ghost use Rattle.session_spec.specs.Faring.{Point};
ghost use Rattle.array_core.specs.Ready.{IsArrayOf, IsReady};
ghost use Rattle.array_checkpoint.specs.Room.{IsRoomOf};
ghost use Rattle.pur_base.specs.Plain.{refusal as refusal_of};
ghost use Rattle.command_spec.specs.Lawful.{IsLawful};
ghost use Rattle.volume_ops.specs.OfArray.{HasItsObject, OfArray};
ghost use Rattle.command_spec.specs.Asked.{IsAllowed};
ghost use Rattle.request_codec.specs.Items.{HasData, IsSpelled, item_read};
ghost use Rattle.request_codec.specs.Spelled.{IsSpelledRequest};
ghost use Rattle.array_engine.specs.Answering.{IsAnswered};
ghost use Rattle.array_engine.specs.Replying.{said_of, said_of_flattening, said_of_read, ends_lost};
ghost use Rattle.array_engine.specs.Saying.{HasReply};

use crate::appending::append;
use crate::buffers::ReadBuffers;
use crate::flushing::flush;
use crate::said::Said;
use crate::status::numbers_of;
use array_checkpoint::Room;
use array_core::Array;
use boot_codec::DRIVE_FLAGS;
use medium_flattener::{Flattened, flatten};
use pur_base::{Name, Refusal, Request, Sector};
use pyramid_jobs::merge;
use request_codec::Item;
use segment_writer::WriteRoom;
use std::alloc::Global;
use target_io::ReadFault;
use volume_ops::refusal;
use world::Shelf;

/// The array that is served, what room its record and tables leave, and whether a `no device` was answered to a logged request.
#[derive(Drop)]
pub struct Engine {
    pub(crate) array: Array,
    pub(crate) room: Room,
    pub(crate) halted: bool,
    pub(crate) buffers: ReadBuffers,
    /// Room in which segments are put together.
    pub(crate) writing: WriteRoom,
}

/// Of each slot: the record isn't in force on its drive.
fn missing_of(drives: &[bool; DRIVE_FLAGS]) -> [bool; DRIVE_FLAGS]
    ensures { (slot : ℕ) → slot < DRIVE_FLAGS → slice_index_or result slot false ≡ not (slice_index_or drives.now slot false) }
{
    let mut missing = [false; DRIVE_FLAGS];
    for slot in 0..DRIVE_FLAGS {
        missing[slot] = !drives[slot];
    }
    missing
}

/// Whether a step ended for more failed devices than are borne.
fn is_lost<T>(done: &Result<T, Refusal>) -> bool
    ensures { result ≡ ends_lost done.now }
{
    matches!(done, Err(Refusal::Device))
}

/// What is answered to a logged request, a checkpoint or a merge, by how it ended.
fn said_to(done: &Result<(), Refusal>) -> Said
    ensures { result ≡ said_of done.now }
{
    match done {
        Ok(()) => Said::Done,
        Err(why) => Said::Refused(*why),
    }
}

/// What is answered to a flattening, by how it ended.
fn said_to_flattening(done: &Result<Flattened, Refusal>) -> Said
    ensures { result ≡ said_of_flattening done.now }
{
    match done {
        Ok(Flattened::Done) => Said::Done,
        Ok(Flattened::Left) => Said::Left,
        Ok(Flattened::Idle) => Said::Idle,
        Err(why) => Said::Refused(*why),
    }
}

/// What is answered to a read, by how it ended.
fn said_to_read(done: &Result<(), ReadFault>, count: u8) -> Said
    ensures { result ≡ said_of_read count done.now }
{
    match done {
        Ok(()) => Said::Data(count),
        Err(ReadFault::Refused(why)) => Said::Refused(*why),
        Err(ReadFault::Lost) => Said::Refused(Refusal::Device),
    }
}

impl Engine {
    ghost use Rattle.array_engine.specs.Engines.{IsAt, IsAnsweredAt, IsKeptBy, IsOf};

    /// Of an array that was opened.
    pub fn new(alloc: Global, array: Array, buffers: ReadBuffers) -> Engine
        requires { (shelf : Geometry) × IsArrayOf shelf array }
        ensures array { result.array ≡ array }
        ensures room { IsRoomOf array result.room }
        ensures awake { result.halted ≡ false }
    {
        let room = Room::of(&array);
        Engine {
            array,
            room,
            halted: false,
            buffers,
            writing: WriteRoom::new(alloc),
        }
    }

    /// Whether a `no device` was answered to a logged request.
    pub fn is_halted(&self) -> bool
        ensures { result ≡ self.now.halted }
    {
        self.halted
    }

    /// Reads sectors of an object into the buffer. Where three drives are each missing or failed, `no device` is answered, and nothing changes.
    fn read<S: Shelf>(&mut self, name: &Name, lba: u64, count: u8, shelf: &mut S) -> Said
        requires is_of { IsArrayOf (geometry_of (S.shelf shelf.old)) self.old.array }
        requires room { IsRoomOf self.old.array self.old.room }
        requires awake { self.old.halted ≡ false }
        requires few { count ≤ REQUEST_SECTORS }
        requires accepted { OfArray self.old.array.memory.memory (λ array. refusal_of array (Read name.now lba count) ≡ None) }
        ensures continues { Continues (S.shelf shelf.old) (S.shelf shelf.new) }
        ensures rest { S.shelf_rest shelf.old shelf.new }
        ensures is_of { IsOf (geometry_of (S.shelf shelf.new)) self.new }
        ensures moments { (S.shelf shelf.old).honest → LeavesOnly (S.shelf shelf.old) (S.shelf shelf.new) (IsCountedBy (S.shelf shelf.old)) }
        ensures there { HasReply self.new.buffers.reply.items self.new.buffers.start result }
        // The answer and its cause, and where the engine stands then. What segments hold is told of honest devices alone.
        ensures answers { (sectors : List (List ℕ)) (told : Bool) (from : Point) → (told ≡ true → (S.shelf shelf.old).honest) → IsAt told (S.shelf shelf.old) self.old from
            → IsAnsweredAt told (S.shelf shelf.old) (S.shelf shelf.new) self.old self.new (Asked (Read name.now lba count) sectors) result from }
        // At every moment a session can go on.
        ensures kept { (S.shelf shelf.old).honest → (sectors : List (List ℕ)) (held : Content) → IsReady (S.shelf shelf.old) self.old.array held
            → LeavesOnly (S.shelf shelf.old) (S.shelf shelf.new) (IsKeptBy (S.shelf shelf.old) self.old.array (array_of held) (Asked (Read name.now lba count) sectors)) }
    {
        let missing = missing_of(self.array.register.drives());
        let done = self
            .buffers
            .read(&self.array.memory, name, lba, count, &missing, shelf);
        said_to_read(&done, count)
    }

    /// Does a request that is logged, which the array accepts.
    fn apply<S: Shelf>(
        &mut self,
        alloc: Global,
        request: &Request,
        sectors: &[Sector],
        shelf: &mut S,
    ) -> Said
        requires is_of { IsArrayOf (geometry_of (S.shelf shelf.old)) self.old.array }
        requires room { IsRoomOf self.old.array self.old.room }
        requires awake { self.old.halted ≡ false }
        requires logged { IsLogged request.now }
        requires spelled { IsSpelledRequest request.now }
        requires written { length sectors.now ≡ data_count request.now }
        requires accepted { OfArray self.old.array.memory.memory (λ array. refusal_of array request.now ≡ None) }
        requires allowed { IsAllowed self.old.array.memory.objects request.now }
        ensures continues { Continues (S.shelf shelf.old) (S.shelf shelf.new) }
        ensures rest { S.shelf_rest shelf.old shelf.new }
        ensures is_of { IsOf (geometry_of (S.shelf shelf.new)) self.new }
        ensures moments { (S.shelf shelf.old).honest → LeavesOnly (S.shelf shelf.old) (S.shelf shelf.new) (IsCountedBy (S.shelf shelf.old)) }
        ensures there { HasReply self.new.buffers.reply.items self.new.buffers.start result }
        // The answer and its cause, and where the engine stands then. What segments hold is told of honest devices alone.
        ensures answers { (told : Bool) (from : Point) → (told ≡ true → (S.shelf shelf.old).honest) → IsAt told (S.shelf shelf.old) self.old from
            → IsAnsweredAt told (S.shelf shelf.old) (S.shelf shelf.new) self.old self.new (Asked request.now sectors.now) result from }
        // At every moment a session can go on.
        ensures kept { (S.shelf shelf.old).honest → (held : Content) → IsReady (S.shelf shelf.old) self.old.array held
            → LeavesOnly (S.shelf shelf.old) (S.shelf shelf.new) (IsKeptBy (S.shelf shelf.old) self.old.array (array_of held) (Asked request.now sectors.now)) }
    {
        let done = append(
            alloc,
            &mut self.array,
            &mut self.room,
            &mut self.writing,
            request,
            sectors,
            shelf,
        );
        self.halted = is_lost(&done);
        said_to(&done)
    }

    /// Answers a request that the array accepts.
    fn answer_accepted<S: Shelf>(
        &mut self,
        alloc: Global,
        request: &Request,
        sectors: &[Sector],
        shelf: &mut S,
    ) -> Said
        requires is_of { IsArrayOf (geometry_of (S.shelf shelf.old)) self.old.array }
        requires room { IsRoomOf self.old.array self.old.room }
        requires awake { self.old.halted ≡ false }
        requires in_force { is_in_force request.now ≡ true }
        requires spelled { IsSpelledRequest request.now }
        requires written { length sectors.now ≡ data_count request.now }
        requires accepted { OfArray self.old.array.memory.memory (λ array. refusal_of array request.now ≡ None) }
        requires allowed { IsLawful request.now → IsAllowed self.old.array.memory.objects request.now }
        requires there { HasItsObject self.old.array.memory.objects request.now }
        ensures continues { Continues (S.shelf shelf.old) (S.shelf shelf.new) }
        ensures rest { S.shelf_rest shelf.old shelf.new }
        ensures is_of { IsOf (geometry_of (S.shelf shelf.new)) self.new }
        ensures moments { (S.shelf shelf.old).honest → LeavesOnly (S.shelf shelf.old) (S.shelf shelf.new) (IsCountedBy (S.shelf shelf.old)) }
        ensures there { HasReply self.new.buffers.reply.items self.new.buffers.start result }
        // The answer and its cause, and where the engine stands then. What segments hold is told of honest devices alone.
        ensures answers { (told : Bool) (from : Point) → (told ≡ true → (S.shelf shelf.old).honest) → IsAt told (S.shelf shelf.old) self.old from
            → IsAnsweredAt told (S.shelf shelf.old) (S.shelf shelf.new) self.old self.new (Asked request.now sectors.now) result from }
        // At every moment a session can go on.
        ensures kept { (S.shelf shelf.old).honest → (held : Content) → IsReady (S.shelf shelf.old) self.old.array held
            → LeavesOnly (S.shelf shelf.old) (S.shelf shelf.new) (IsKeptBy (S.shelf shelf.old) self.old.array (array_of held) (Asked request.now sectors.now)) }
    {
        match request {
            Request::Read { name, lba, count } => self.read(name, *lba, *count, shelf),
            Request::List => Said::Names,
            Request::Status => Said::Numbers(numbers_of(&self.array, &self.room)),
            Request::Checkpoint => {
                let done = flush(
                    alloc,
                    &mut self.array,
                    &mut self.room,
                    &mut self.writing,
                    shelf,
                );
                self.halted = is_lost(&done);
                said_to(&done)
            }
            Request::Merge { table, index } => {
                let done = merge(
                    alloc,
                    &mut self.array,
                    &mut self.room,
                    &mut self.writing,
                    *table,
                    *index,
                    shelf,
                );
                self.halted = is_lost(&done);
                said_to(&done)
            }
            Request::Flatten { name } => {
                let done = flatten(
                    alloc,
                    &mut self.array,
                    &mut self.room,
                    &mut self.writing,
                    name,
                    shelf,
                );
                self.halted = is_lost(&done);
                said_to_flattening(&done)
            }
            _ => self.apply(alloc, request, sectors, shelf),
        }
    }

    /// Answers a request.
    fn answer<S: Shelf>(
        &mut self,
        alloc: Global,
        request: &Request,
        sectors: &[Sector],
        shelf: &mut S,
    ) -> Said
        requires is_of { IsOf (geometry_of (S.shelf shelf.old)) self.old }
        requires in_force { is_in_force request.now ≡ true }
        requires spelled { IsSpelledRequest request.now }
        requires written { length sectors.now ≡ data_count request.now }
        ensures continues { Continues (S.shelf shelf.old) (S.shelf shelf.new) }
        ensures rest { S.shelf_rest shelf.old shelf.new }
        ensures is_of { IsOf (geometry_of (S.shelf shelf.new)) self.new }
        ensures moments { (S.shelf shelf.old).honest → LeavesOnly (S.shelf shelf.old) (S.shelf shelf.new) (IsCountedBy (S.shelf shelf.old)) }
        ensures there { HasReply self.new.buffers.reply.items self.new.buffers.start result }
        // A halted engine makes no call.
        ensures untouched { self.old.halted ≡ true → (shelf.new ≡ shelf.old) × (self.new ≡ self.old) }
        // The answer and its cause, and where the engine stands then. What segments hold is told of honest devices alone.
        ensures answers { (told : Bool) (from : Point) → (told ≡ true → (S.shelf shelf.old).honest) → IsAt told (S.shelf shelf.old) self.old from
            → IsAnsweredAt told (S.shelf shelf.old) (S.shelf shelf.new) self.old self.new (Asked request.now sectors.now) result from }
        // At every moment a session can go on.
        ensures kept { (S.shelf shelf.old).honest → self.old.halted ≡ false → (held : Content) → IsReady (S.shelf shelf.old) self.old.array held
            → LeavesOnly (S.shelf shelf.old) (S.shelf shelf.new) (IsKeptBy (S.shelf shelf.old) self.old.array (array_of held) (Asked request.now sectors.now)) }
    {
        if self.halted {
            return Said::Refused(Refusal::Halted);
        }
        match refusal(&self.array.memory, request) {
            Some(why) => Said::Refused(why),
            None => self.answer_accepted(alloc, request, sectors, shelf),
        }
    }

    /// Answers an item. A halted engine answers `no halted` to each request, and the others as ever, with no call on a device.
    /// After a device fault of a logged request, which halts it, the request is undecided.
    pub fn respond<S: Shelf>(
        &mut self,
        alloc: Global,
        item: &Item,
        sectors: &[Sector],
        shelf: &mut S,
    ) -> Said
        requires is_of { IsOf (geometry_of (S.shelf shelf.old)) self.old }
        requires item { IsAnswered item.now }
        requires written { HasData item.now sectors.now }
        requires spelled { IsSpelled item.now }
        ensures continues { Continues (S.shelf shelf.old) (S.shelf shelf.new) }
        ensures rest { S.shelf_rest shelf.old shelf.new }
        ensures is_of { IsOf (geometry_of (S.shelf shelf.new)) self.new }
        ensures moments { (S.shelf shelf.old).honest → LeavesOnly (S.shelf shelf.old) (S.shelf shelf.new) (IsCountedBy (S.shelf shelf.old)) }
        ensures there { HasReply self.new.buffers.reply.items self.new.buffers.start result }
        // A halted engine makes no call.
        ensures untouched { self.old.halted ≡ true → (shelf.new ≡ shelf.old) × (self.new ≡ self.old) }
        // The answer and its cause, and where the engine stands then. What segments hold is told of honest devices alone.
        ensures answers { (told : Bool) (from : Point) → (told ≡ true → (S.shelf shelf.old).honest) → IsAt told (S.shelf shelf.old) self.old from
            → IsAnsweredAt told (S.shelf shelf.old) (S.shelf shelf.new) self.old self.new (item_read item.now sectors.now) result from }
        // At every moment a session can go on.
        ensures kept { (S.shelf shelf.old).honest → self.old.halted ≡ false → (held : Content) → IsReady (S.shelf shelf.old) self.old.array held
            → LeavesOnly (S.shelf shelf.old) (S.shelf shelf.new) (IsKeptBy (S.shelf shelf.old) self.old.array (array_of held) (item_read item.now sectors.now)) }
    {
        match item {
            Item::Request(request) => self.answer(alloc, request, sectors, shelf),
            Item::Syntax => Said::Refused(Refusal::Syntax),
            Item::Cut => Said::Refused(Refusal::Cut),
            Item::Limit | Item::End => unreachable!(),
        }
    }
}
