// A logged request is done, behind a checkpoint where the log is full.
ghost use Rattle.std.specs.Prelude.{◌≡◌, ◌<◌, true, ◌∷◌, [], length, OnOk, IfErr};
ghost use Rattle.pur_base.specs.Grammar.{data_count};
ghost use Rattle.pur_base.specs.declared.reply.Refusal.TheVariants.{Device};
ghost use Rattle.log_codec.specs.Head.{IsCommand};
ghost use Rattle.log_codec.specs.declared.limits.TheConstants.{LOG_SLOTS};
ghost use Rattle.world.specs.Losing.{geometry_of};
ghost use Rattle.world.specs.Shelf.{Continues, LeavesOnly, IsCountedBy};
ghost use Rattle.command_spec.specs.Asked.{IsAllowed};
ghost use Rattle.command_spec.specs.Lawful.{IsLawful};
ghost use Rattle.array_core.specs.Ready.{IsArrayOf};
ghost use Rattle.array_core.specs.Going.{by_faults};
ghost use Rattle.array_core.specs.Goes.{Goes, Halts};
ghost use Rattle.array_core.specs.Performing.{HasLogged, HasNumbers};
ghost use Rattle.array_checkpoint.specs.Prepared.{IsLike};
ghost use Rattle.array_checkpoint.specs.Room.{IsRoomOf};
ghost use Rattle.array_engine.specs.Appending.{IsAppended, IsAppendFault};

use array_checkpoint::{Room, check_request, checkpoint};
use array_core::{Array, perform};
use pur_base::{Refusal, Request, Sector};
use segment_writer::WriteRoom;
use std::alloc::Global;
use world::Shelf;

/// Does a logged request for which a slot of the log is free. Room is counted again where a record was stored.
fn perform_counted<S: Shelf>(
    array: &mut Array,
    room: &mut Room,
    request: &Request,
    sectors: &[Sector],
    shelf: &mut S,
) -> Result<(), Refusal>
    requires is_of { IsArrayOf (geometry_of (S.shelf shelf.old)) array.old }
    requires room { IsRoomOf array.old room.old }
    requires numbers { HasNumbers array.old }
    requires slot { array.old.log.count < LOG_SLOTS }
    requires command { IsCommand request.now }
    requires lawful { IsLawful request.now }
    requires written { length sectors.now ≡ data_count request.now }
    requires allowed { IsAllowed array.old.memory.objects request.now }
    ensures continues { Continues (S.shelf shelf.old) (S.shelf shelf.new) }
    ensures rest { S.shelf_rest shelf.old shelf.new }
    ensures moments { (S.shelf shelf.old).honest → LeavesOnly (S.shelf shelf.old) (S.shelf shelf.new) (IsCountedBy (S.shelf shelf.old)) }
    ensures counted { OnOk result (IsRoomOf array.new room.new) }
    ensures logged { OnOk result (HasLogged (S.shelf shelf.old) (S.shelf shelf.new) array.old array.new request.now) }
    // The array has gone on by the command, or is to halt.
    ensures goes { OnOk result (Goes by_faults (S.shelf shelf.old) (S.shelf shelf.new) array.old array.new (record { request = request.now; sectors = sectors.now } ∷ [])) }
    ensures halts { IfErr result (λ e. (e ≡ Device) × Halts by_faults (S.shelf shelf.old) (S.shelf shelf.new) array.old (record { request = request.now; sectors = sectors.now } ∷ [])) }
{
    let before = array.register.record().generation;
    perform(array, request, sectors, shelf)?;
    if array.register.record().generation != before {
        *room = Room::of(array);
    }
    Ok(())
}

/// Does a logged request, which the array accepts, where there is room for it: at once where a slot of the log is free, and else behind a checkpoint.
/// After `Device` more devices failed than are borne: it is undecided, and the array is to halt. After any other cause nothing has changed but room in memory:
/// `Limit`, `Spent` or `Space`, as `check_request` tells them, or `Memory`, which a checkpoint wants.
pub(crate) fn append<S: Shelf>(
    alloc: Global,
    array: &mut Array,
    room: &mut Room,
    writing: &mut WriteRoom,
    request: &Request,
    sectors: &[Sector],
    shelf: &mut S,
) -> Result<(), Refusal>
    requires is_of { IsArrayOf (geometry_of (S.shelf shelf.old)) array.old }
    requires room { IsRoomOf array.old room.old }
    requires command { IsCommand request.now }
    requires lawful { IsLawful request.now }
    requires written { length sectors.now ≡ data_count request.now }
    requires allowed { IsAllowed array.old.memory.objects request.now }
    ensures continues { Continues (S.shelf shelf.old) (S.shelf shelf.new) }
    ensures rest { S.shelf_rest shelf.old shelf.new }
    ensures moments { (S.shelf shelf.old).honest → LeavesOnly (S.shelf shelf.old) (S.shelf shelf.new) (IsCountedBy (S.shelf shelf.old)) }
    ensures counted { OnOk result (IsRoomOf array.new room.new) }
    ensures done { OnOk result (IsAppended (S.shelf shelf.old) (S.shelf shelf.new) array.old array.new (record { request = request.now; sectors = sectors.now })) }
    ensures goes { OnOk result (Goes by_faults (S.shelf shelf.old) (S.shelf shelf.new) array.old array.new (record { request = request.now; sectors = sectors.now } ∷ [])) }
    ensures fault { IfErr result (λ e. IsAppendFault (S.shelf shelf.old) (S.shelf shelf.new) array.old (IsLike array.old array.new × (room.new ≡ room.old) × (shelf.new ≡ shelf.old)) (record { request = request.now; sectors = sectors.now }) e) }
{
    check_request(array, room, request)?;
    if array.log.free_slots() > 0 {
        return perform_counted(array, room, request, sectors, shelf);
    }
    checkpoint(alloc, array, writing, shelf)?;
    *room = Room::of(array);
    perform_counted(array, room, request, sectors, shelf)
}
