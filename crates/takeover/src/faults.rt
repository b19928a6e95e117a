// Why an array isn't opened.
ghost use Rattle.std.specs.Prelude.{◌≡◌, ◌<◌, ◌&&◌, ℕ, not};
ghost use Rattle.segment_io.specs.Lost.{is_in};
ghost use Rattle.takeover.specs.Faults.{fault_of, fault_of_log, fault_of_store, IsFaultOfTables};
ghost use Rattle.takeover.specs.declared.faults.OpenFault.TheVariants as open_fault;

use crate::LogFault;
use boot_codec::{BadRecord, DRIVE_FLAGS};
use boot_region::LoadFault;
use pur_base::{NoMemory, Table};
use register::StoreFault;
use table_loading::TablesFault;

/// Why an array wasn't opened.
#[derive(Clone, Copy, PartialEq, Eq, Drop)]
pub enum OpenFault {
    Memory(NoMemory),
    /// No record is shown by more than half of all drives.
    NoArray,
    BadRecord(BadRecord),
    /// More than two drives of the shelf are missing from these.
    TooFew([bool; DRIVE_FLAGS]),
    /// No facts of that table stand as a patch that the record names.
    BadPatch(Table),
    /// The tables of the record aren't sound: that one is at fault.
    Unsound(Table),
    /// No NVRAM device is left.
    BothLost,
    /// The generation of the record is 2^48 - 8 or higher: no room is left for later ones.
    Spent,
}

impl From<LoadFault> for OpenFault {
    ghost from_gives = { λ e r. r ≡ fault_of e };

    fn from(error: LoadFault) -> OpenFault {
        match error {
            LoadFault::Memory(none) => OpenFault::Memory(none),
            LoadFault::NoArray => OpenFault::NoArray,
            LoadFault::BadRecord(bad) => OpenFault::BadRecord(bad),
            LoadFault::Spent => OpenFault::Spent,
            LoadFault::TooFew(drives) => OpenFault::TooFew(drives),
        }
    }
}

impl From<NoMemory> for OpenFault {
    ghost from_gives = { λ e r. r ≡ open_fault.Memory e };

    fn from(error: NoMemory) -> OpenFault {
        OpenFault::Memory(error)
    }
}

impl From<LogFault> for OpenFault {
    ghost from_gives = { λ e r. r ≡ fault_of_log e };

    fn from(error: LogFault) -> OpenFault {
        match error {
            LogFault::Memory(none) => OpenFault::Memory(none),
            LogFault::BothLost => OpenFault::BothLost,
        }
    }
}

impl From<StoreFault> for OpenFault {
    ghost from_gives = { λ e r. r ≡ fault_of_store e };

    fn from(error: StoreFault) -> OpenFault {
        match error {
            StoreFault::Spent => OpenFault::Spent,
            StoreFault::TooFew(drives) => OpenFault::TooFew(drives),
        }
    }
}

/// The drives that are left without those that are lost.
fn left_of(drives: &[bool; DRIVE_FLAGS], lost: &[bool; DRIVE_FLAGS]) -> [bool; DRIVE_FLAGS]
    ensures { (slot : ℕ) → slot < DRIVE_FLAGS → is_in result slot ≡ (is_in drives.now slot && not (is_in lost.now slot)) }
{
    let mut left = *drives;
    for slot in 0..DRIVE_FLAGS {
        if lost[slot] {
            left[slot] = false;
        }
    }
    left
}

/// The fault of tables that weren't loaded from these drives.
pub(crate) fn fault_of_tables(fault: TablesFault, drives: &[bool; DRIVE_FLAGS]) -> OpenFault
    ensures { IsFaultOfTables fault result }
{
    match fault {
        TablesFault::BadPatch(table) => OpenFault::BadPatch(table),
        TablesFault::Unsound(table) => OpenFault::Unsound(table),
        TablesFault::Lost(lost) => OpenFault::TooFew(left_of(drives, &lost.drives)),
        TablesFault::Memory(none) => OpenFault::Memory(none),
    }
}
