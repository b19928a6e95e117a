// The log is cleared once what it holds is stored elsewhere.
ghost use Rattle.std.specs.Prelude.{◌≡◌, ℕ, ◌+◌, ◌<◌, ◌≤◌, List, [], length, OnOk, OnErr};
ghost use Rattle.pur_base.specs.Commands.{Command};
ghost use Rattle.pur_base.specs.declared.limits.TheConstants.{NVRAM_DEVICES};
ghost use Rattle.log_codec.specs.declared.limits.TheConstants.{LOG_SLOTS};
ghost use Rattle.world.specs.Shelf.{LeavesOnly};
ghost use Rattle.world.specs.Ran.{Ran};
ghost use Rattle.nvram_log.specs.Members.{IsSome, LosesOnlyFailed, OnMembers, OnRange, IsOnMember};
ghost use Rattle.nvram_log.specs.Held.{HoldsOn, LeavesBetween};

use crate::gates::{CLOSED, write_gates};
use crate::members::has_any;
use crate::{BothLost, NvLog};
use world::Shelf;

/// Closes the gates of the first slots, where there are any. A member that fails is dropped.
fn close<S: Shelf>(shelf: &mut S, members: &mut [bool], count: usize)
    requires members { length members.old ≡ NVRAM_DEVICES }
    requires slots { count ≤ LOG_SLOTS }
    ensures ran { Ran S.shelf S.shelf_rest (IsOnMember members.old) (OnRange members.old 0 count) shelf.old shelf.new }
    ensures members { LosesOnlyFailed (S.shelf shelf.old) (S.shelf shelf.new) members.old members.new }
    ensures holds { (S.shelf shelf.old).honest → (flushed : ℕ) (commands : List Command) → length commands ≡ count
        → HoldsOn (S.shelf shelf.old) members.old flushed commands → HoldsOn (S.shelf shelf.new) members.new (flushed + count) [] }
{
    if count == 0 {
        return;
    }
    write_gates(shelf, members, 0, count, CLOSED);
}

impl NvLog {
    ghost use Rattle.nvram_log.specs.Held.{Keeps};

    /// Empties the log: its commands count as flushed. A member that fails is dropped, and where none is left the log stays as it is in memory.
    pub fn clear<S: Shelf>(&mut self, shelf: &mut S) -> Result<(), BothLost>
        ensures ran { Ran S.shelf S.shelf_rest (IsOnMember self.old.members) (OnMembers self.old.members) shelf.old shelf.new }
        ensures members { LosesOnlyFailed (S.shelf shelf.old) (S.shelf shelf.new) self.old.members self.new.members }
        ensures ok { OnOk result ((self.new.flushed ≡ self.old.flushed + self.old.count) × (self.new.count ≡ 0) × IsSome self.new.members) }
        ensures err { OnErr result ((self.new.flushed ≡ self.old.flushed) × (self.new.count ≡ self.old.count) × (IsSome self.new.members → ⊥)) }
        ensures keeps { OnOk result (Keeps self.new []) }
        ensures kept { OnErr result ((commands : List Command) → Keeps self.old commands → Keeps self.new commands) }
        ensures holds { (S.shelf shelf.old).honest → OnOk result ((commands : List Command) → Keeps self.old commands
            → HoldsOn (S.shelf shelf.old) self.old.members self.old.flushed commands → HoldsOn (S.shelf shelf.new) self.new.members self.new.flushed []) }
        // At every moment each device shows some of the commands and no others, and none that would follow on them.
        ensures any_moment { (S.shelf shelf.old).honest → (commands : List Command) → Keeps self.old commands
            → HoldsOn (S.shelf shelf.old) self.old.members self.old.flushed commands
            → LeavesOnly (S.shelf shelf.old) (S.shelf shelf.new) (LeavesBetween self.old.members self.old.flushed [] commands) }
        ensures none_later { (S.shelf shelf.old).honest → (commands : List Command) → Keeps self.old commands
            → HoldsOn (S.shelf shelf.old) self.old.members self.old.flushed commands
            → LeavesOnly (S.shelf shelf.old) (S.shelf shelf.new) (LeavesBetween self.old.members (self.old.flushed + length commands) [] []) }
    {
        close(shelf, &mut self.members, self.count);
        if !has_any(&self.members) {
            return Err(BothLost);
        }
        self.flushed += self.count as u64;
        self.count = 0;
        Ok(())
    }
}
