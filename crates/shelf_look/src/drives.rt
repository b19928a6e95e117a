// What each drive showed.
ghost use Rattle.std.specs.Prelude.{◌≡◌, ◌<◌, ◌≤◌, length};
ghost use Rattle.shelf_look.specs.Looking.{AreStates, state_at, state_of};

use crate::record::RecordSeen;
use boot_codec::DRIVE_FLAGS;

/// What a drive showed of the record in force.
#[derive(Clone, Copy)]
pub enum DriveState {
    /// The record names it, and it holds the record.
    Holding,
    /// The record names it, and it shows another one or none.
    Other,
    /// The record doesn't name it.
    LeftOut,
    /// It didn't answer: it is absent, or has another length, or a call on it failed.
    Silent,
}

/// What a drive showed that the record names or doesn't, that holds it or doesn't, and that answered or didn't.
fn state_of(is_named: bool, is_holding: bool, has_answered: bool) -> DriveState
    ensures { result ≡ state_of is_named is_holding has_answered }
{
    if !has_answered {
        DriveState::Silent
    } else if !is_named {
        DriveState::LeftOut
    } else if is_holding {
        DriveState::Holding
    } else {
        DriveState::Other
    }
}

/// What the drive of a slot showed. Where there is no record, each shows another one or none.
#[tactic(auto, unfolding(crate::specs::Looking::state_at))]
fn state_at(seen: &Option<RecordSeen>, answered: &[bool], slot: usize) -> DriveState
    requires { (slot < DRIVE_FLAGS) × (slot < length answered.now) }
    ensures { result ≡ state_at seen.now answered.now slot }
{
    match seen {
        Some(record) => state_of(
            record.members.drives[slot],
            record.holding[slot],
            answered[slot],
        ),
        None => state_of(true, false, answered[slot]),
    }
}

/// What each drive showed, where these answered.
pub fn states_of(seen: &Option<RecordSeen>, answered: &[bool]) -> [DriveState; DRIVE_FLAGS]
    requires { length answered.now ≤ DRIVE_FLAGS }
    ensures { AreStates seen.now answered.now result }
{
    let mut states = [DriveState::Silent; DRIVE_FLAGS];
    for slot in 0..answered.len() {
        states[slot] = state_at(seen, answered, slot);
    }
    states
}
