// The gates of slots, on each member.
ghost use Rattle.std.specs.Prelude.{◌≡◌, ℕ, ◌+◌, ◌<◌, ◌≤◌, length, replicate};
ghost use Rattle.pur_base.specs.declared.limits.TheConstants.{NVRAM_DEVICES};
ghost use Rattle.pur_base.specs.Devices.{nvram};
ghost use Rattle.log_codec.specs.declared.limits.TheConstants.{LOG_SLOTS};
ghost use Rattle.world.specs.Shelf.{Written};
ghost use Rattle.world.specs.Ran.{Ran};
ghost use Rattle.nvram_log.specs.Members.{IsMember, OnRange, Outcome, IsOnMember};

use crate::members::write_members;
use log_codec::LOG_SLOTS;
use world::Shelf;

/// The gate of a slot that counts.
pub const OPEN: u8 = 1;

/// The gate of a slot that doesn't count.
pub const CLOSED: u8 = 0;

/// Writes the gates of `count` slots from `first` on, and syncs, on each member. One that fails is no longer a member.
pub fn write_gates<S: Shelf>(
    shelf: &mut S,
    members: &mut [bool],
    first: usize,
    count: usize,
    gate: u8,
)
    requires members { length members.old ≡ NVRAM_DEVICES }
    requires slots { first + count ≤ LOG_SLOTS }
    ensures outcome { (n : ℕ) → n < NVRAM_DEVICES
        → Outcome (S.shelf shelf.old).honest (IsMember members.old n) (IsMember members.new n)
        (Written first (replicate count gate) ((S.shelf shelf.old).disk (nvram n)).bytes ((S.shelf shelf.new).disk (nvram n)).bytes)
        ((S.shelf shelf.old).disk (nvram n)) ((S.shelf shelf.new).disk (nvram n)) }
    ensures ran { Ran S.shelf S.shelf_rest (IsOnMember members.old) (OnRange members.old first count) shelf.old shelf.new }
{
    let gates = [gate; LOG_SLOTS];
    write_members(shelf, members, first as u64, &gates[..count]);
}
