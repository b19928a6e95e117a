// A command is performed.
ghost use Rattle.std.specs.Prelude.{◌≡◌, ◌<◌, ◌∷◌, [], ℕ, length, OnOk, OnErr};
ghost use Rattle.pur_base.specs.Commands.{after};
ghost use Rattle.pur_base.specs.Grammar.{data_count};
ghost use Rattle.pur_base.specs.Plain as plain;
ghost use Rattle.pur_base.specs.Visible.{segment};
ghost use Rattle.log_codec.specs.Head.{IsCommand};
ghost use Rattle.log_codec.specs.declared.limits.TheConstants.{LOG_SLOTS};
ghost use Rattle.world.specs.Losing.{geometry_of};
ghost use Rattle.world.specs.Shelf.{Continues, LeavesOnly, IsCountedBy};
ghost use Rattle.array_spec.specs.Held.{named_sound};
ghost use Rattle.register.specs.Standing.{Content};
ghost use Rattle.memory_spec.specs.Memory.{Contents, ReadsAs};
ghost use Rattle.memory_spec.specs.Tables.{facts};
ghost use Rattle.command_spec.specs.Asked.{AreLeft, IsAllowed, IsPrepared};
ghost use Rattle.command_spec.specs.Done.{HasDone};
ghost use Rattle.command_spec.specs.Lawful.{IsLawful};
ghost use Rattle.memory_spec.specs.Whole.{AreLayered};
ghost use Rattle.array_core.specs.Ready.{IsArrayOf, IsReady};
ghost use Rattle.array_core.specs.Going.{by_faults};
ghost use Rattle.array_core.specs.Goes.{Goes, Halts};
ghost use Rattle.array_core.specs.Performing.{HasLogged, HasNumbers, StandsOnceBack, without_or_with};

use crate::Array;
use crate::commit::commit;
use array_memory::Memory;
use nvram_log::BothLost;
use pur_base::{Refusal, Request, Sector};
use register::StoreFault;
use world::Shelf;

/// Why a command wasn't performed.
#[derive(Clone, Copy, PartialEq, Eq, Drop)]
pub enum PerformFault {
    /// More devices failed than are borne: the command is undecided, and the array is to halt.
    Device,
}

impl From<BothLost> for PerformFault {
    ghost use Rattle.array_core.specs.declared.performing.PerformFault.TheVariants as faults;

    ghost from_gives = { λ e r. r ≡ faults.Device };

    fn from(_error: BothLost) -> PerformFault {
        PerformFault::Device
    }
}

impl From<StoreFault> for PerformFault {
    ghost use Rattle.array_core.specs.declared.performing.PerformFault.TheVariants as faults;

    ghost from_gives = { λ e r. r ≡ faults.Device };

    fn from(_error: StoreFault) -> PerformFault {
        PerformFault::Device
    }
}

impl From<PerformFault> for Refusal {
    ghost use Rattle.pur_base.specs.declared.reply.Refusal.TheVariants as refusals;

    ghost from_gives = { λ e r. r ≡ refusals.Device };

    fn from(_error: PerformFault) -> Refusal {
        Refusal::Device
    }
}

/// Applies a request in memory, where there is room for it.
fn apply(memory: &mut Memory, request: &Request, sectors: &[Sector])
    requires allowed { IsAllowed memory.old.objects request.now }
    requires numbers { AreLeft memory.old.memory.next }
    requires prepared { IsPrepared memory.old request.now }
    requires sectors { length sectors.now ≡ data_count request.now }
    ensures done { HasDone memory.old memory.new request.now sectors.now }
    ensures reads { (contents : Contents) (a : plain.Array) → ReadsAs contents memory.old.memory a → ReadsAs contents memory.new.memory (after a (record { request = request.now; sectors = sectors.now })) }
    ensures layered { AreLayered memory.new.memory.tables }
    ensures segments { (id : ℕ) → segment (facts memory.new.memory.tables) id ≡ segment (facts memory.old.memory.tables) id }
{
    memory.kept();
    memory.apply(request, sectors);
    memory.kept();
    memory.layered();
}

/// Does a logged request, which the array accepts and for which a slot of the log is free: it is appended to the log on each member, where a member fails a record without it is stored,
/// and then it is applied in memory. After `Device` the command is undecided, and memory is as it was. It takes no memory.
pub fn perform<S: Shelf>(
    array: &mut Array,
    request: &Request,
    sectors: &[Sector],
    shelf: &mut S,
) -> Result<(), PerformFault>
    requires is_of { IsArrayOf (geometry_of (S.shelf shelf.old)) array.old }
    requires numbers { HasNumbers array.old }
    requires slot { array.old.log.count < LOG_SLOTS }
    requires command { IsCommand request.now }
    requires lawful { IsLawful request.now }
    requires written { length sectors.now ≡ data_count request.now }
    requires allowed { IsAllowed array.old.memory.objects request.now }
    ensures continues { Continues (S.shelf shelf.old) (S.shelf shelf.new) }
    ensures rest { S.shelf_rest shelf.old shelf.new }
    ensures moments { (S.shelf shelf.old).honest → LeavesOnly (S.shelf shelf.old) (S.shelf shelf.new) (IsCountedBy (S.shelf shelf.old)) }
    // The array has gone on by the command. Or it is to halt, and the command is undecided.
    ensures goes { OnOk result (Goes by_faults (S.shelf shelf.old) (S.shelf shelf.new) array.old array.new (record { request = request.now; sectors = sectors.now } ∷ [])) }
    ensures halts { OnErr result (Halts by_faults (S.shelf shelf.old) (S.shelf shelf.new) array.old (record { request = request.now; sectors = sectors.now } ∷ [])) }
    ensures unapplied { OnErr result (array.new.memory ≡ array.old.memory) }
    // After the command: its number given, its slot taken, and a record stored only where a device lost a write.
    ensures logged { OnOk result (HasLogged (S.shelf shelf.old) (S.shelf shelf.new) array.old array.new request.now) }
    // Whatever fails, more than is borne too: at every moment the devices stand for these arrays once they answer again with what they hold.
    ensures outlasts { (S.shelf shelf.old).honest → (held : Content) → IsReady (S.shelf shelf.old) array.old held
        → LeavesOnly (S.shelf shelf.old) (S.shelf shelf.new) (StandsOnceBack (S.shelf shelf.old) (named_sound array.old.register.record) (without_or_with held (record { request = request.now; sectors = sectors.now }))) }
{
    array.memory.kept();
    commit(array, request, sectors, shelf)?;
    apply(&mut array.memory, request, sectors);
    Ok(())
}
