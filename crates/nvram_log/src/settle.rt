// The log is settled on the devices.
ghost use Rattle.std.specs.Prelude.{◌≡◌, ℕ, ◌+◌, ◌*◌, ◌<◌, ◌≤◌, List, [], length, take, true, false, not, OnOk, OnErr};
ghost use Rattle.pur_base.specs.Commands.{Command};
ghost use Rattle.pur_base.specs.Devices.{nvram};
ghost use Rattle.pur_base.specs.declared.limits.TheConstants.{NVRAM_DEVICES};
ghost use Rattle.log_codec.specs.declared.limits.TheConstants.{LOG_SLOTS, SLOT_BYTES};
ghost use Rattle.world.specs.Shelf.{LeavesOnly, MayLeave, WriteCounts};
ghost use Rattle.world.specs.Ran.{Only, Ran};
ghost use Rattle.nvram_log.specs.Slots.{IsLog};
ghost use Rattle.nvram_log.specs.Members.{IsFlagged, IsMember, IsSome, LosesOnlyFailed, OnMembers, IsOnMember};
ghost use Rattle.nvram_log.specs.Held.{HoldsOn};
ghost use Rattle.nvram_log.specs.Settling.{OnDevice, IsToSettle, SettlesBy, AreToSettle, SettleBy};

use crate::gates::{CLOSED, OPEN};
use crate::log::DEVICES;
use crate::members::has_any;
use crate::mending::{write_some_gates, write_some_slots};
use crate::seen::{Flags, SeenSlots};
use crate::{BothLost, Logged, NvLog};
use pur_base::NvId;
use world::{Failed, Shelf};

// Whether some slot has a flag.
fn has_flag(flags: &Flags) -> bool
    ensures { result ≡ false → (i : ℕ) → ¬ (IsFlagged flags.now i) }
{
    flags.contains(&true)
}

// Settles the log of so many commands on a device: closes the gates that don't count, copies the slots that it lacks, and opens their gates. Each is synced before the next.
fn settle_on<S: Shelf>(
    shelf: &mut S,
    device: NvId,
    seen: &SeenSlots,
    records: &[Logged],
    count: usize,
) -> Result<(), Failed>
    requires device { device.0 < NVRAM_DEVICES }
    ensures ran { Ran S.shelf S.shelf_rest (Only (nvram device.0)) (OnDevice (nvram device.0)) shelf.old shelf.new }
    ensures counts { WriteCounts result ((S.shelf shelf.old).disk (nvram device.0)) ((S.shelf shelf.new).disk (nvram device.0)) }
    ensures settled { (S.shelf shelf.old).honest → OnOk result ((flushed : ℕ) (commands : List Command) → length commands ≡ count
        → IsToSettle ((S.shelf shelf.old).disk (nvram device.0)).bytes flushed seen.now records.now commands → IsLog ((S.shelf shelf.new).disk (nvram device.0)).bytes flushed commands) }
    ensures clean { (S.shelf shelf.old).honest → OnOk result (((S.shelf shelf.new).disk (nvram device.0)).dirty ≡ []) }
    ensures any_moment { (S.shelf shelf.old).honest → (flushed : ℕ) (commands : List Command) → length commands ≡ count
        → IsToSettle ((S.shelf shelf.old).disk (nvram device.0)).bytes flushed seen.now records.now commands
        → LeavesOnly (S.shelf shelf.old) (S.shelf shelf.new) (λ stop. SettlesBy ((S.shelf shelf.old).disk (nvram device.0)) flushed commands (stop.image (nvram device.0))) }
    // So it does later, as long as nothing more is written to the device.
    ensures later { (S.shelf shelf.old).honest → (flushed : ℕ) (commands : List Command) → length commands ≡ count
        → IsToSettle ((S.shelf shelf.old).disk (nvram device.0)).bytes flushed seen.now records.now commands
        → (bytes : List ℕ) → MayLeave ((S.shelf shelf.new).disk (nvram device.0)) bytes → SettlesBy ((S.shelf shelf.old).disk (nvram device.0)) flushed commands bytes }
{
    let closing = seen.closing(count);
    let lacking = seen.lacking(count);
    write_some_gates(shelf, device, &closing, CLOSED)?;
    if !has_flag(&lacking) {
        return Ok(());
    }
    write_some_slots(shelf, device, &lacking, records)?;
    write_some_gates(shelf, device, &lacking, OPEN)
}

// Settles it on each member. A device that fails is no longer a member.
fn settle_each<S: Shelf>(
    shelf: &mut S,
    members: &mut [bool],
    seen: &[SeenSlots; DEVICES],
    records: &[Logged],
    count: usize,
)
    requires members { length members.old ≡ NVRAM_DEVICES }
    ensures ran { Ran S.shelf S.shelf_rest (IsOnMember members.old) (OnMembers members.old) shelf.old shelf.new }
    ensures members { LosesOnlyFailed (S.shelf shelf.old) (S.shelf shelf.new) members.old members.new }
    ensures clean { (S.shelf shelf.old).honest → (n : ℕ) → n < 2 → IsMember members.new n → ((S.shelf shelf.new).disk (nvram n)).dirty ≡ [] }
    ensures holds { (S.shelf shelf.old).honest → (flushed : ℕ) (commands : List Command) → length commands ≡ count
        → AreToSettle (S.shelf shelf.old) members.old flushed seen.now records.now commands → HoldsOn (S.shelf shelf.new) members.new flushed commands }
    ensures any_moment { (S.shelf shelf.old).honest → (flushed : ℕ) (commands : List Command) → length commands ≡ count
        → AreToSettle (S.shelf shelf.old) members.old flushed seen.now records.now commands
        → LeavesOnly (S.shelf shelf.old) (S.shelf shelf.new) (SettleBy (S.shelf shelf.old) members.old flushed commands) }
{
    for device in 0..members.len() {
        if members[device] {
            let answer = settle_on(shelf, NvId(device as u8), &seen[device], records, count);
            members[device] = answer.is_ok();
        }
    }
}

impl NvLog {
    ghost use Rattle.nvram_log.specs.Held.{HasRead};
    ghost use Rattle.nvram_log.specs.Settling.{AreAsSeen, Agree};

    /// Settles the log that was read, cut to its first commands: each member then holds them, and shows no other. A member that fails is dropped, and where none is left the log stays as it is in memory. It takes no memory.
    pub fn settle<S: Shelf>(&mut self, count: usize, shelf: &mut S) -> Result<(), BothLost>
        requires { count ≤ self.old.count }
        ensures ran { Ran S.shelf S.shelf_rest (IsOnMember self.old.members) (OnMembers self.old.members) shelf.old shelf.new }
        ensures members { LosesOnlyFailed (S.shelf shelf.old) (S.shelf shelf.new) self.old.members self.new.members }
        ensures clean { (S.shelf shelf.old).honest → (n : ℕ) → n < 2 → IsMember self.new.members n → ((S.shelf shelf.new).disk (nvram n)).dirty ≡ [] }
        ensures flushed { self.new.flushed ≡ self.old.flushed }
        ensures ok { OnOk result ((self.new.count ≡ count) × IsSome self.new.members) }
        ensures err { OnErr result ((self.new.count ≡ self.old.count) × (IsSome self.new.members → ⊥)) }
        ensures keeps { OnOk result ((commands : List Command) → HasRead self.old commands → HasRead self.new (take count commands)) }
        ensures kept { OnErr result ((commands : List Command) → HasRead self.old commands → HasRead self.new commands) }
        ensures holds { (S.shelf shelf.old).honest → OnOk result ((commands : List Command) → HasRead self.old commands
            → AreAsSeen (S.shelf shelf.old) self.old → Agree (S.shelf shelf.old) self.old.members self.old.flushed (take count commands)
            → HoldsOn (S.shelf shelf.new) self.new.members self.new.flushed (take count commands)) }
        // At every moment each device shows what it might have shown before, and of these commands.
        ensures any_moment { (S.shelf shelf.old).honest → (commands : List Command) → HasRead self.old commands
            → AreAsSeen (S.shelf shelf.old) self.old → Agree (S.shelf shelf.old) self.old.members self.old.flushed (take count commands)
            → LeavesOnly (S.shelf shelf.old) (S.shelf shelf.new) (SettleBy (S.shelf shelf.old) self.old.members self.old.flushed (take count commands)) }
    {
        settle_each(shelf, &mut self.members, &self.seen, &self.records, count);
        if !has_any(&self.members) {
            return Err(BothLost);
        }
        self.count = count;
        Ok(())
    }
}
