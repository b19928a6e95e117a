// The log is opened.
ghost use Rattle.std.specs.Prelude.{◌≡◌, ℕ, ◌<◌, ◌≤◌, List, [], length, IfOk, IfErr};
ghost use Rattle.pur_base.specs.Commands.{Command};
ghost use Rattle.pur_base.specs.declared.device.Device.{Device};
ghost use Rattle.pur_base.specs.Devices.{Conditions, nvram};
ghost use Rattle.pur_base.specs.Plain.{Array};
ghost use Rattle.pur_base.specs.declared.facts.AnyFact.{AnyFact};
ghost use Rattle.pur_base.specs.declared.limits.TheConstants.{REQUEST_SECTORS};
ghost use Rattle.world.specs.Ran.{Ran};
ghost use Rattle.memory_spec.specs.Whole.{AreLayered};
ghost use Rattle.boot_region.specs.declared.loading.Loaded.{Loaded};
ghost use Rattle.nvram_log.specs.Held.{HasRead, shown_by};
ghost use Rattle.nvram_log.specs.Members.{IsMember, IsNvram, OnMembers};
ghost use Rattle.nvram_log.specs.Read.{AllFailed, IsReadFrom, OnNothing};
ghost use Rattle.nvram_log.specs.Settling.{AreAsSeen};
ghost use Rattle.takeover.specs.Found.{IsFoundOn};
ghost use Rattle.takeover.specs.LogOpen.{IsLogFault, LeavesSome};
ghost use Rattle.takeover.specs.Replay.{IsReplayed, log_fault_of};
ghost use Rattle.takeover.specs.Replayed.{IsReplayedFrom};
ghost use Rattle.takeover.specs.Steps.{IsLogLeft, OpensLog, StaysClean};
ghost use Rattle.takeover.specs.Tables.{HasTables};
ghost use Rattle.takeover.specs.declared.log.LogFault.TheVariants as faults;

use crate::replay::replay;
use array_memory::Memory;
use nvram_log::{BothLost, NvLog, ReadFault, sync_members};
use pur_base::{NoMemory, REQUEST_SECTORS, Sector};
use std::alloc::Global;
use world::Shelf;

/// The NVRAM devices of a shelf.
const DEVICES: usize = 2;

/// The log of the array, and memory in which its commands are done.
#[derive(Drop)]
pub struct OpenedLog {
    pub log: NvLog,
    pub memory: Memory,
}

/// Why the log wasn't opened.
#[derive(Clone, Copy, PartialEq, Eq, Drop)]
pub enum LogFault {
    Memory(NoMemory),
    /// No NVRAM device is left.
    BothLost,
}

impl From<NoMemory> for LogFault {
    ghost from_gives = { λ e r. r ≡ faults.Memory e };

    fn from(error: NoMemory) -> LogFault {
        LogFault::Memory(error)
    }
}

impl From<ReadFault> for LogFault {
    ghost from_gives = { λ e r. r ≡ log_fault_of e };

    fn from(error: ReadFault) -> LogFault {
        match error {
            ReadFault::NoMemory => LogFault::Memory(NoMemory),
            ReadFault::BothLost => LogFault::BothLost,
        }
    }
}

impl From<BothLost> for LogFault {
    ghost from_gives = { λ e r. r ≡ faults.BothLost };

    fn from(_error: BothLost) -> LogFault {
        LogFault::BothLost
    }
}

/// Memory in which the commands of a log are done, up to the first that is refused, and how many there are before it.
#[derive(Drop)]
struct Replayed {
    memory: Memory,
    count: usize,
}

/// Applies the commands of the log to memory.
fn replay_log(alloc: Global, log: &NvLog, mut memory: Memory) -> Result<Replayed, NoMemory>
    requires { (commands : List Command) × HasRead log.now commands }
    ensures within { IfOk result (λ made. made.count ≤ log.now.count) }
    ensures ok { IfOk result (λ made. (commands : List Command) → HasRead log.now commands → IsReplayed memory commands made.count made.memory) }
    ensures layered { IfOk result (λ made. AreLayered made.memory.memory.tables) }
{
    let mut room = sector_room(alloc)?;
    let count = replay(&mut memory, log, &mut room)?;
    memory.layered();
    Ok(Replayed { memory, count })
}

/// Room for the sectors of a command.
fn sector_room(alloc: Global) -> Result<Vec<Sector>, NoMemory>
    ensures { IfOk result (λ room. length room.items ≡ REQUEST_SECTORS) }
{
    Ok(Vec::from_elem(alloc, Sector::filled(0), REQUEST_SECTORS as usize)?)
}

/// Reads the log of the members once they are synced: what is read is what a stop leaves.
fn read_synced<S: Shelf>(
    alloc: Global,
    shelf: &mut S,
    nvrams: [bool; DEVICES],
    flushed: u64,
) -> Result<NvLog, ReadFault>
    ensures ran { Ran S.shelf S.shelf_rest IsNvram OnNothing shelf.old shelf.new }
    ensures flushed { IfOk result (λ log. log.flushed ≡ flushed) }
    ensures members { IfOk result (λ log. LeavesSome (S.shelf shelf.old) (S.shelf shelf.new) nvrams log.members) }
    ensures log { IfOk result (λ log. IsReadFrom (S.shelf shelf.old).honest (shown_by (S.shelf shelf.new) log.members) log) }
    ensures seen { (S.shelf shelf.old).honest → IfOk result (λ log. AreAsSeen (S.shelf shelf.new) log) }
    ensures clean { (S.shelf shelf.old).honest → IfOk result (λ log. (n : ℕ) → n < 2 → IsMember log.members n → ((S.shelf shelf.new).disk (nvram n)).dirty ≡ []) }
    ensures still_clean { (S.shelf shelf.old).honest → (d : Device) → ((S.shelf shelf.old).disk d).dirty ≡ [] → ((S.shelf shelf.new).disk d).dirty ≡ [] }
    ensures err { IfErr result (λ fault. AllFailed fault (S.shelf shelf.old) (S.shelf shelf.new) nvrams) }
{
    let mut members = nvrams;
    sync_members(shelf, &mut members);
    NvLog::read(alloc, shelf, members, flushed)
}

/// Reads the log of the members, applies its commands to memory, and settles it on the devices: it ends before the first command that the array refuses.
pub fn open_log<S: Shelf>(
    alloc: Global,
    shelf: &mut S,
    nvrams: [bool; DEVICES],
    flushed: u64,
    memory: Memory,
) -> Result<OpenedLog, LogFault>
    ensures ran { Ran S.shelf S.shelf_rest IsNvram (OnMembers nvrams) shelf.old shelf.new }
    // Memory has done the commands that are left of the log.
    ensures left { IfOk result (IsLogLeft nvrams flushed memory) }
    // On the devices that are left no write or sync failed.
    ensures unlost { IfOk result (λ opened. (n : ℕ) → n < 2 → IsMember opened.log.members n → ((S.shelf shelf.new).disk (nvram n)).write_faults ≡ ((S.shelf shelf.old).disk (nvram n)).write_faults) }
    ensures err { IfErr result (λ fault. IsLogFault fault (S.shelf shelf.old) (S.shelf shelf.new) nvrams) }
    // The log is what the devices showed, from each array that memory read as.
    ensures replayed { (S.shelf shelf.old).honest → IfOk result (IsReplayedFrom (S.shelf shelf.old) (S.shelf shelf.new) nvrams flushed memory) }
    ensures clean { (S.shelf shelf.old).honest → StaysClean (S.shelf shelf.old) (S.shelf shelf.new) }
    // At every moment the devices stand for the arrays for which they stood, and the log is opened for these.
    ensures opens { (S.shelf shelf.old).honest → (x : Loaded) (missing : Conditions) (arrays : List Array) (patches : List (List AnyFact)) (base : Array) → x.record.members.nvrams ≡ nvrams → x.record.flushed ≡ flushed
        → IsFoundOn (S.shelf shelf.old) x missing arrays → HasTables (S.shelf shelf.old) x memory patches base → OpensLog (S.shelf shelf.old) (S.shelf shelf.new) x missing arrays patches base result }
{
    let mut log = read_synced(alloc, shelf, nvrams, flushed)?;
    let made = replay_log(alloc, &log, memory)?;
    log.settle(made.count, shelf)?;
    Ok(OpenedLog {
        log,
        memory: made.memory,
    })
}
