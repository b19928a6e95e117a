// The commands of a log are applied to memory.
ghost use Rattle.std.specs.Prelude.{◌≡◌, ◌↔◌, ℕ, ◌+◌, ◌*◌, ◌≤◌, List, length, IsTrue, IfOk, OnOk};
ghost use Rattle.pur_base.specs.Bytes.{bytes_at};
ghost use Rattle.std.specs.List.{AllByRecursion, concat};
ghost use Rattle.pur_base.specs.Bytes.{IsBytesOf};
ghost use Rattle.pur_base.specs.Commands.{Command, Accepts};
ghost use Rattle.pur_base.specs.Plain.{Array};
ghost use Rattle.log_codec.specs.Log.{HasSpelling};
ghost use Rattle.nvram_log.specs.Held.{HasRead};
ghost use Rattle.nvram_log.specs.Logged.{IsReadAs};
ghost use Rattle.command_spec.specs.Asked.{AreLeft, IsAllowed};
ghost use Rattle.command_spec.specs.Lawful.{IsLawful};
ghost use Rattle.memory_spec.specs.Memory.{Contents, ReadsAs};
ghost use Rattle.takeover.specs.Replay.{IsApplied, IsDone, IsReplayed};

use array_memory::Memory;
use boot_codec::{NUMBER_LIMIT, NextNumbers};
use nvram_log::{Logged, NvLog};
use pur_base::{NoMemory, REQUEST_SECTORS, SECTOR_BYTES, Sector};
use volume_ops::refusal;

/// The i-th of the sectors that stand one behind another.
fn sector_at(bytes: &[u8], i: usize) -> Sector
    requires { SECTOR_BYTES * (i + 1) ≤ length bytes.now }
    ensures { result ≡ bytes_at (SECTOR_BYTES * i) SECTOR_BYTES bytes.now }
{
    let from = SECTOR_BYTES * i;
    let mut sector = [0; SECTOR_BYTES];
    sector.copy_from_slice(&bytes[from..from + SECTOR_BYTES]);
    Sector::new(sector)
}

/// Copies sectors that stand one behind another.
fn copy_sectors(bytes: &[u8], into: &mut [Sector])
    requires { length bytes.now ≡ SECTOR_BYTES * length into.old }
    ensures { (sectors : List (List ℕ)) → length sectors ≡ length into.old → AllByRecursion (IsBytesOf SECTOR_BYTES) sectors → bytes.now ≡ concat sectors → into.new ≡ sectors }
{
    for i in 0..into.len() {
        into[i] = sector_at(bytes, i);
    }
}

/// Whether ids and sequence numbers are left for any one request.
fn are_left(next: &NextNumbers) -> bool
    ensures { IsTrue result ↔ AreLeft next.now }
{
    next.object < NUMBER_LIMIT - 1
        && next.medium < NUMBER_LIMIT - 2
        && next.sequence < NUMBER_LIMIT - REQUEST_SECTORS as u64
}

/// Applies a command of the log, its sectors copied into the room. Whether the array that memory reads as accepts it.
/// `NoMemory` is also where no numbers are left: a request is refused long before.
fn apply(memory: &mut Memory, logged: &Logged, room: &mut [Sector]) -> Result<bool, NoMemory>
    requires room { length room.old ≡ REQUEST_SECTORS }
    requires read { (number : ℕ) × (c : Command) × HasSpelling number c × IsReadAs logged.now number c }
    ensures room { length room.new ≡ length room.old }
    ensures ok { IfOk result (λ accepted. (number : ℕ) (c : Command) → HasSpelling number c → IsReadAs logged.now number c → IsApplied memory.old c accepted memory.new) }
{
    let request = &logged.head.command;
    if refusal(memory, request).is_some() {
        return Ok(false);
    }
    if !are_left(&memory.next()) {
        return Err(NoMemory);
    }
    do_accepted(memory, logged, room)?;
    Ok(true)
}

/// Does a command that memory allows.
fn do_accepted(memory: &mut Memory, logged: &Logged, room: &mut [Sector]) -> Result<(), NoMemory>
    requires room { length room.old ≡ REQUEST_SECTORS }
    requires read { (number : ℕ) × (c : Command) × HasSpelling number c × IsReadAs logged.now number c }
    requires lawful { IsLawful logged.now.head.command }
    requires allowed { IsAllowed memory.old.objects logged.now.head.command }
    requires numbers { AreLeft memory.old.memory.next }
    ensures room { length room.new ≡ length room.old }
    ensures done { OnOk result ((number : ℕ) (c : Command) → HasSpelling number c → IsReadAs logged.now number c
        → ((contents : Contents) (a : Array) → ReadsAs contents memory.old.memory a → Accepts a c) → IsDone memory.old c memory.new) }
{
    let request = &logged.head.command;
    memory.kept();
    memory.prepare(request)?;
    let count = request.data_sectors() as usize;
    copy_sectors(logged.sectors(), &mut room[..count]);
    memory.apply(request, &room[..count]);
    memory.kept();
    Ok(())
}

/// Applies the commands of the log to memory, up to the first that the array refuses. How many it accepts before.
pub fn replay(memory: &mut Memory, log: &NvLog, room: &mut [Sector]) -> Result<usize, NoMemory>
    requires room { length room.old ≡ REQUEST_SECTORS }
    requires read { (commands : List Command) × HasRead log.now commands }
    ensures within { IfOk result (λ count. count ≤ log.now.count) }
    ensures ok { IfOk result (λ count. (commands : List Command) → HasRead log.now commands → IsReplayed memory.old commands count memory.new) }
{
    for i in 0..log.count() {
        let Some(logged) = log.record_at(i) else {
            unreachable!()
        };
        if !apply(memory, logged, room)? {
            return Ok(i);
        }
    }
    Ok(log.count())
}
