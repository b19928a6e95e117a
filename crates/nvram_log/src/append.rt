// A record is appended.
ghost use Rattle.std.specs.Prelude.{◌≡◌, ℕ, ◌+◌, ◌^◌, ◌<◌, ◌≤◌, ◌++◌, ◌∷◌, [], List, length, OnOk, OnErr};
ghost use Rattle.pur_base.specs.Commands.{Command};
ghost use Rattle.pur_base.specs.declared.limits.TheConstants.{NVRAM_DEVICES, REQUEST_SECTORS};
ghost use Rattle.log_codec.specs.declared.limits.TheConstants.{LOG_SLOTS, SLOT_BYTES};
ghost use Rattle.log_codec.specs.Log.{HasSpelling, Spells};
ghost use Rattle.world.specs.Shelf.{LeavesOnly};
ghost use Rattle.world.specs.Ran.{Ran};
ghost use Rattle.nvram_log.specs.Members.{IsSome, LosesOnlyFailed, OnMembers, IsOnMember};
ghost use Rattle.nvram_log.specs.Records.{IsRecord, command_of};
ghost use Rattle.nvram_log.specs.Held.{HoldsOn, LeavesBetween};

use crate::gates::{OPEN, write_gates};
use crate::log::SLOT;
use crate::members::{has_any, write_members};
use crate::staging::stage;
use crate::{BothLost, NvLog, Record};
use log_codec::SLOTS_START;
use pur_base::SECTOR_BYTES;
use world::Shelf;

/// Stores the record that the slot in memory spells in the first free slot: its head and sectors first, then its gate. A member that fails is dropped.
fn store<S: Shelf>(shelf: &mut S, members: &mut [bool], slot: &[u8], first: usize, sectors: usize)
    requires members { length members.old ≡ NVRAM_DEVICES }
    requires slot { length slot.now ≡ SLOT_BYTES }
    requires room { first < LOG_SLOTS }
    requires sectors { sectors ≤ REQUEST_SECTORS }
    ensures ran { Ran S.shelf S.shelf_rest (IsOnMember members.old) (OnMembers members.old) shelf.old shelf.new }
    ensures members { LosesOnlyFailed (S.shelf shelf.old) (S.shelf shelf.new) members.old members.new }
    ensures holds { (S.shelf shelf.old).honest → (flushed : ℕ) (commands : List Command) (c : Command) → length commands ≡ first → length c.sectors ≡ sectors → Spells slot.now (flushed + 1 + first) c
        → HoldsOn (S.shelf shelf.old) members.old flushed commands → HoldsOn (S.shelf shelf.new) members.new flushed (commands ++ c ∷ []) }
    ensures any_moment { (S.shelf shelf.old).honest → (flushed : ℕ) (commands : List Command) (c : Command) → length commands ≡ first → length c.sectors ≡ sectors → Spells slot.now (flushed + 1 + first) c
        → HoldsOn (S.shelf shelf.old) members.old flushed commands
        → LeavesOnly (S.shelf shelf.old) (S.shelf shelf.new) (LeavesBetween members.old flushed commands (commands ++ c ∷ [])) }
{
    let at = SLOTS_START + (SLOT * first) as u64;
    write_members(shelf, members, at, &slot[..SECTOR_BYTES * (1 + sectors)]);
    write_gates(shelf, members, first, 1, OPEN);
}

impl NvLog {
    ghost use Rattle.nvram_log.specs.Held.{Keeps};

    /// Appends a record, on each member. A member that fails is dropped, and where none is left the log counts what it counted. It takes no memory.
    pub fn append<S: Shelf>(&mut self, logged: &Record, shelf: &mut S) -> Result<(), BothLost>
        requires room { self.old.count < LOG_SLOTS }
        requires numbers { self.old.flushed + self.old.count + 1 < 2 ^ 64 }
        requires lawful { IsRecord logged.now }
        ensures ran { Ran S.shelf S.shelf_rest (IsOnMember self.old.members) (OnMembers self.old.members) shelf.old shelf.new }
        ensures members { LosesOnlyFailed (S.shelf shelf.old) (S.shelf shelf.new) self.old.members self.new.members }
        ensures flushed { self.new.flushed ≡ self.old.flushed }
        ensures ok { OnOk result ((self.new.count ≡ self.old.count + 1) × IsSome self.new.members) }
        ensures err { OnErr result ((self.new.count ≡ self.old.count) × (IsSome self.new.members → ⊥)) }
        ensures keeps { OnOk result ((commands : List Command) → Keeps self.old commands → Keeps self.new (commands ++ command_of logged.now ∷ [])) }
        ensures kept { OnErr result ((commands : List Command) → Keeps self.old commands → Keeps self.new commands) }
        ensures holds { (S.shelf shelf.old).honest → OnOk result ((commands : List Command) → Keeps self.old commands
            → HoldsOn (S.shelf shelf.old) self.old.members self.old.flushed commands
            → HoldsOn (S.shelf shelf.new) self.new.members self.new.flushed (commands ++ command_of logged.now ∷ [])) }
        // Whatever the result, the record is spelled under its number.
        ensures spelled { HasSpelling (self.old.flushed + 1 + self.old.count) (command_of logged.now) }
        // At every moment each device shows the commands, and of the new ones at most this one.
        ensures any_moment { (S.shelf shelf.old).honest → (commands : List Command) → Keeps self.old commands
            → HoldsOn (S.shelf shelf.old) self.old.members self.old.flushed commands
            → LeavesOnly (S.shelf shelf.old) (S.shelf shelf.new) (LeavesBetween self.old.members self.old.flushed commands (commands ++ command_of logged.now ∷ [])) }
    {
        let number = self.flushed + 1 + self.count as u64;
        stage(&mut self.slot, number, logged);
        store(
            shelf,
            &mut self.members,
            &self.slot,
            self.count,
            logged.sectors.len(),
        );
        if !has_any(&self.members) {
            return Err(BothLost);
        }
        self.count += 1;
        Ok(())
    }
}
