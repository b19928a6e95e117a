ghost use Rattle.std.specs.Prelude.{◌≡◌};
ghost use Rattle.table_loading.specs.Faults.{fault_in, fault_of};
ghost use Rattle.table_loading.specs.declared.fault.TablesFault.TheVariants as faults;

use patch_io::PatchFault;
use pur_base::{Lost, NoMemory, Table};
use table_soundness::SoundFault;

/// Why tables weren't loaded.
#[derive(Clone, Copy, PartialEq, Eq, Drop)]
pub enum TablesFault {
    /// No facts of that table stand as one of its patches.
    BadPatch(Table),
    /// The first table that fails where all are judged.
    Unsound(Table),
    /// Three of the nine drives of a segment are missing or failed.
    Lost(Lost),
    Memory(NoMemory),
}

impl From<NoMemory> for TablesFault {
    ghost from_gives = { λ e f. f ≡ faults.Memory e };

    fn from(error: NoMemory) -> TablesFault {
        TablesFault::Memory(error)
    }
}

impl From<SoundFault> for TablesFault {
    ghost from_gives = { λ e f. f ≡ fault_of e };

    fn from(error: SoundFault) -> TablesFault {
        match error {
            SoundFault::Unsound(table) => TablesFault::Unsound(table),
            SoundFault::Memory(none) => TablesFault::Memory(none),
        }
    }
}

/// Why a patch of that table wasn't loaded.
pub fn fault_in(table: Table, fault: PatchFault) -> TablesFault
    ensures { result ≡ fault_in table fault }
{
    match fault {
        PatchFault::Bad => TablesFault::BadPatch(table),
        PatchFault::Lost(lost) => TablesFault::Lost(lost),
        PatchFault::Memory(none) => TablesFault::Memory(none),
    }
}
