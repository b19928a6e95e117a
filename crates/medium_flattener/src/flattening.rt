// A medium is flattened.
ghost use Rattle.std.specs.Prelude.{◌≡◌, ◌+◌, ◌≤◌, [], Contains, IfErr, IfNone, IfOk, IfSome, OnErr, OnOk};
ghost use Rattle.pur_base.specs.declared.facts.ObjectFact.{ObjectFact};
ghost use Rattle.world.specs.Losing.{geometry_of};
ghost use Rattle.world.specs.Shelf.{Continues, LeavesOnly, IsCountedBy};
ghost use Rattle.command_spec.specs.Flattening.{FrontPasses, HasNoRange};
ghost use Rattle.array_memory.specs.Plan.{with_patch_rooms};
ghost use Rattle.array_core.specs.Ready.{IsArrayOf};
ghost use Rattle.array_core.specs.Going.{by_faults};
ghost use Rattle.array_core.specs.Goes.{Goes};
ghost use Rattle.array_core.specs.declared.array.TheConstants.{BACKGROUND_FACTS};
ghost use Rattle.array_checkpoint.specs.Made as made;
ghost use Rattle.array_checkpoint.specs.Prepared.{IsLike};
ghost use Rattle.array_checkpoint.specs.Room.{IsRoomOf};
ghost use Rattle.medium_flattener.specs.Front.{IsFrontOf, facts_of};
ghost use Rattle.medium_flattener.specs.Made.{HasRoom, IsClearedFor, IsFaultOf, IsFlatOf, reply_of};

use crate::front::{Front, front_of, medium_of};
use crate::taking::take;
use array_checkpoint::{Room, check, checkpoint};
use array_core::{Array, BACKGROUND_FACTS, taking_in_goes_on};
use pur_base::{MediumId, Name, Refusal};
use segment_writer::WriteRoom;
use session_spec::{FLATTEN_GROUPS, LIMITED_SEGMENTS};
use std::alloc::Global;
use world::Shelf;

/// What a flattening has done.
#[derive(Clone, Copy, PartialEq, Eq)]
pub enum Flattened {
    /// The front of the lowest range was taken in, and the medium has no range any more.
    Done,
    /// So it was, and the medium has one.
    Left,
    /// There was no range.
    Idle,
}

/// What of an object's medium is flattened next, behind a checkpoint where the facts that came in without a command would be more than may be.
fn front_with_room<S: Shelf>(
    alloc: Global,
    array: &mut Array,
    room: &mut Room,
    writing: &mut WriteRoom,
    medium: MediumId,
    shelf: &mut S,
) -> Result<Option<Front>, Refusal>
    requires is_of { IsArrayOf (geometry_of (S.shelf shelf.old)) array.old }
    requires room { IsRoomOf array.old room.old }
    requires may { HasRoom array.old }
    requires of_object { (x : ObjectFact) × Contains array.old.memory.objects x × (x.medium.0 ≡ medium.0) }
    ensures continues { Continues (S.shelf shelf.old) (S.shelf shelf.new) }
    ensures rest { S.shelf_rest shelf.old shelf.new }
    ensures moments { (S.shelf shelf.old).honest → LeavesOnly (S.shelf shelf.old) (S.shelf shelf.new) (IsCountedBy (S.shelf shelf.old)) }
    ensures goes { OnOk result (Goes by_faults (S.shelf shelf.old) (S.shelf shelf.new) array.old array.new []) }
    ensures cleared { OnOk result (IsClearedFor (geometry_of (S.shelf shelf.old)) medium.0 array.old array.new) }
    ensures room { OnOk result (IsRoomOf array.new room.new) }
    ensures some { IfOk result (λ f. IfSome f (IsFrontOf array.new.memory.memory medium.0)) }
    ensures none { IfOk result (λ f. IfNone f (HasNoRange array.new.memory.memory medium.0)) }
    ensures fits { IfOk result (λ f. IfSome f (λ x. array.new.background.facts + facts_of x ≤ BACKGROUND_FACTS)) }
    ensures passes { OnErr result (FrontPasses medium.0 array.old.memory.memory array.old.background.facts) }
    ensures fault { IfErr result (λ e. made.IsFaultOf (S.shelf shelf.old) (S.shelf shelf.new) array.old (IsLike array.old array.new × (room.new ≡ room.old) × (shelf.new ≡ shelf.old)) e) }
    ensures kept { OnErr result (array.new.memory ≡ with_patch_rooms array.old.memory array.new.memory) }
{
    let front = front_of(&array.memory, medium);
    let facts = match &front {
        Some(front) => front.facts(),
        None => 0,
    };
    if array.background.facts + facts <= BACKGROUND_FACTS {
        taking_in_goes_on(shelf);
        return Ok(front);
    }
    checkpoint(alloc, array, writing, shelf)?;
    *room = Room::of(array);
    Ok(front_of(&array.memory, medium))
}

/// Takes the first sectors of the lowest range of an object's medium, 64 at most: each to which an address is owed gets one, and the range then begins behind them, or is gone.
/// Where the facts that came in without a command would be more than 2,048 a checkpoint comes first. The array reads as before, and the log is as it was, or empty behind a checkpoint. `room` is what the array leaves, and `writing` room that is lent and used again.
/// After `Device` more devices failed in the checkpoint than are borne, and the array is to halt. After any other cause nothing has changed but room in memory: `Limit` where the record's patches have 480 segments or more,
/// `Spent` where too few numbers are left, `Space` where there are free units for fewer than 16 segments, `Memory` where that is wanted for the checkpoint.
pub fn flatten<S: Shelf>(
    alloc: Global,
    array: &mut Array,
    room: &mut Room,
    writing: &mut WriteRoom,
    name: &Name,
    shelf: &mut S,
) -> Result<Flattened, Refusal>
    requires is_of { IsArrayOf (geometry_of (S.shelf shelf.old)) array.old }
    requires room { IsRoomOf array.old room.old }
    requires there { (x : ObjectFact) × Contains array.old.memory.objects x × (x.name ≡ name.now) }
    ensures continues { Continues (S.shelf shelf.old) (S.shelf shelf.new) }
    ensures rest { S.shelf_rest shelf.old shelf.new }
    ensures moments { (S.shelf shelf.old).honest → LeavesOnly (S.shelf shelf.old) (S.shelf shelf.new) (IsCountedBy (S.shelf shelf.old)) }
    // The array has gone on as the same one.
    ensures goes { OnOk result (Goes by_faults (S.shelf shelf.old) (S.shelf shelf.new) array.old array.new []) }
    ensures made { IfOk result (λ f. HasRoom array.old × IsFlatOf (geometry_of (S.shelf shelf.old)) name.now (reply_of f) array.old array.new) }
    ensures room { OnOk result (IsRoomOf array.new room.new) }
    ensures fault { IfErr result (λ e. IsFaultOf name.now (S.shelf shelf.old) (S.shelf shelf.new) array.old (IsLike array.old array.new × (room.new ≡ room.old) × (shelf.new ≡ shelf.old)) e) }
    ensures kept { OnErr result (array.new.memory ≡ with_patch_rooms array.old.memory array.new.memory) }
{
    check(array, room, LIMITED_SEGMENTS, FLATTEN_GROUPS)?;
    let medium = medium_of(&array.memory, name);
    let front = front_with_room(alloc, array, room, writing, medium, shelf)?;
    taking_in_goes_on(shelf);
    Ok(take(array, medium, &front))
}
