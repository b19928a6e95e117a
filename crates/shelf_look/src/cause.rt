// Why an array can't be opened.
ghost use Rattle.std.specs.Prelude.{◌≡◌};
ghost use Rattle.shelf_look.specs.Causes.{cause_of, cause_of_log, cause_of_tables, status_of};
ghost use Rattle.shelf_look.specs.declared.cause.Cause.TheVariants as causes;

use boot_region::LoadFault;
use nvram_log::ReadFault;
use pur_base::{NoMemory, Status};
use table_loading::TablesFault;

/// Why an opening would end before it serves.
#[derive(Clone, Copy)]
pub enum Cause {
    Memory(NoMemory),
    /// No record is in force, or the one that is can't be used.
    Record(LoadFault),
    /// Its tables aren't read from the drives that hold it, or aren't sound.
    Tables(TablesFault),
    /// No NVRAM device that it names answers.
    BothLost,
}

impl From<NoMemory> for Cause {
    ghost from_gives = { λ e r. r ≡ causes.Memory e };

    fn from(error: NoMemory) -> Cause {
        Cause::Memory(error)
    }
}

impl From<LoadFault> for Cause {
    ghost from_gives = { λ e r. r ≡ cause_of e };

    fn from(error: LoadFault) -> Cause {
        match error {
            LoadFault::Memory(none) => Cause::Memory(none),
            fault => Cause::Record(fault),
        }
    }
}

impl From<TablesFault> for Cause {
    ghost from_gives = { λ e r. r ≡ cause_of_tables e };

    fn from(error: TablesFault) -> Cause {
        match error {
            TablesFault::Memory(none) => Cause::Memory(none),
            fault => Cause::Tables(fault),
        }
    }
}

impl From<ReadFault> for Cause {
    ghost from_gives = { λ e r. r ≡ cause_of_log e };

    fn from(error: ReadFault) -> Cause {
        match error {
            ReadFault::NoMemory => Cause::Memory(NoMemory),
            ReadFault::BothLost => Cause::BothLost,
        }
    }
}

impl Cause {
    /// The status with which an opening would end.
    pub fn status(&self) -> Status
        ensures { result ≡ status_of self.now }
    {
        match self {
            Cause::Memory(_) => Status::Memory,
            Cause::Record(LoadFault::TooFew(_)) => Status::Halted,
            Cause::Tables(TablesFault::Lost(_)) => Status::Halted,
            Cause::BothLost => Status::Halted,
            _ => Status::NoArray,
        }
    }
}
