// What is left for more commands, beside slots of the log.
ghost use Rattle.std.specs.Prelude.{◌≡◌, ◌≤◌, OnOk, IfErr};
ghost use Rattle.pur_base.specs.Devices.{Geometry};
ghost use Rattle.boot_codec.specs.Record.{patch_segments};
ghost use Rattle.boot_codec.specs.declared.limits.TheConstants.{PATCH_SEGMENTS};
ghost use Rattle.memory_spec.specs.Numbers.{are_used_up, is_used_up};
ghost use Rattle.array_core.specs.Ready.{IsArrayOf, is_spent};
ghost use Rattle.array_checkpoint.specs.Room.{IsDoFault, IsFlushRoomFault, IsRemovalFault, IsRoomFault, IsRoomFaultOf, IsRoomOf, MayAdd, MayDo, MayFlush, MayRemove, MayTake};

use crate::limits::{CHECKPOINT_GROUPS, SEGMENTS_END};
use array_core::Array;
use boot_codec::{NUMBER_LIMIT, NextNumbers, Patches};
use free_space::groups_left;
use pur_base::{Refusal, Request};
use session_spec::{ADDING_GROUPS, LIMITED_SEGMENTS};

/// From this number on no command is taken, so that room is left for the records of later takeovers and for work in the background.
const NUMBER_END: u64 = NUMBER_LIMIT - 0x100_0000;

/// What an array's record and its tables leave. It changes with the record alone.
#[derive(Clone, Copy, PartialEq, Eq)]
pub struct Room {
    /// How many segments the patches of the record have.
    pub patch_segments: usize,
    /// For how many more segments the members have free units.
    pub groups: u32,
}

/// How many segments the patches have.
fn segments_of(patches: &Patches) -> usize
    requires { patch_segments patches.now ≤ PATCH_SEGMENTS }
    ensures { result ≡ patch_segments patches.now }
{
    let mut count = 0;
    for index in 0..patches.len() {
        let patch = patches.at(index);
        count += patch.segments.as_slice().len();
    }
    count
}

impl Room {
    /// What the array's record and its tables leave. It takes no memory.
    pub fn of(array: &Array) -> Room
        requires { (shelf : Geometry) × IsArrayOf shelf array.now }
        ensures { IsRoomOf array.now result }
    {
        let record = array.register.record();
        Room {
            patch_segments: segments_of(&record.patches),
            groups: groups_left(record, array.memory.segments()),
        }
    }
}

/// Whether too few numbers are left from there on.
fn is_used_up(n: u64) -> bool
    ensures { result ≡ is_used_up n }
{
    NUMBER_END <= n
}

/// Whether too few ids or sequence numbers are left.
fn are_used_up(next: &NextNumbers) -> bool
    ensures { result ≡ are_used_up next.now }
{
    is_used_up(next.object)
        || is_used_up(next.medium)
        || is_used_up(next.segment)
        || is_used_up(next.patch_segment)
        || is_used_up(next.sequence)
}

/// Whether too few numbers are left for one more command, or a step in the background: a generation, a number of commands, an id or a sequence number is 2^48 - 2^24 or higher.
pub fn is_spent(array: &Array) -> bool
    ensures { result ≡ is_spent array.now }
{
    let record = array.register.record();
    is_used_up(record.generation) || is_used_up(record.flushed) || are_used_up(&array.memory.next())
}

/// Whether the record's patches have fewer segments than the limit, numbers are left, and there are free units for as many segments as the floor, where so much room was counted.
/// The first that isn't so is told: `Limit`, `Spent` or `Space`.
pub fn check(array: &Array, room: &Room, limit: usize, floor: u32) -> Result<(), Refusal>
    requires { IsRoomOf array.now room.now }
    ensures ok { OnOk result (MayTake limit floor array.now) }
    ensures err { IfErr result (λ e. IsRoomFaultOf limit floor array.now e) }
{
    if room.patch_segments >= limit {
        return Err(Refusal::Limit);
    }
    if is_spent(array) {
        return Err(Refusal::Spent);
    }
    if room.groups < floor {
        return Err(Refusal::Space);
    }
    Ok(())
}

/// Whether one more command may be added, but for a slot of the log, where so much room was counted. The first that is so is told: `Limit` where the record's patches have too many segments,
/// `Spent` where too few numbers are left, `Space` where there are free units for too few segments.
fn check_room(array: &Array, room: &Room) -> Result<(), Refusal>
    requires { IsRoomOf array.now room.now }
    ensures ok { OnOk result (MayAdd array.now) }
    ensures err { IfErr result (λ e. IsRoomFault array.now e) }
{
    check(array, room, LIMITED_SEGMENTS, ADDING_GROUPS)
}

/// Whether a logged request that adds nothing may be done: where a slot of the log is free it takes numbers alone, and else what a checkpoint takes.
fn check_removal(array: &Array, room: &Room) -> Result<(), Refusal>
    requires { IsRoomOf array.now room.now }
    ensures ok { OnOk result (MayRemove array.now) }
    ensures err { IfErr result (λ e. IsRemovalFault array.now e) }
{
    if array.log.free_slots() == 0 {
        return check_checkpoint(array, room);
    }
    if is_spent(array) {
        return Err(Refusal::Spent);
    }
    Ok(())
}

/// Whether a logged request may be done, where so much room was counted. The causes are told in the same order.
pub fn check_request(array: &Array, room: &Room, request: &Request) -> Result<(), Refusal>
    requires { IsRoomOf array.now room.now }
    ensures ok { OnOk result (MayDo request.now array.now) }
    ensures err { IfErr result (λ e. IsDoFault request.now array.now e) }
{
    if request.is_removal() {
        check_removal(array, room)
    } else {
        check_room(array, room)
    }
}

/// Whether a checkpoint that is asked for may be made, where so much room was counted. The same causes are told.
pub fn check_checkpoint(array: &Array, room: &Room) -> Result<(), Refusal>
    requires { IsRoomOf array.now room.now }
    ensures ok { OnOk result (MayFlush array.now) }
    ensures err { IfErr result (λ e. IsFlushRoomFault array.now e) }
{
    check(array, room, SEGMENTS_END, CHECKPOINT_GROUPS)
}
