ghost use Rattle.std.specs.Prelude.{◌≡◌};
ghost use Rattle.table_soundness.specs.declared.fault.SoundFault.TheVariants as faults;

use pur_base::{NoMemory, Table};

/// Why tables aren't sound, or that it can't be told.
#[derive(Clone, Copy, PartialEq, Eq, Drop)]
pub enum SoundFault {
    /// The first table that fails, in the order in which they are judged.
    Unsound(Table),
    Memory(NoMemory),
}

impl From<NoMemory> for SoundFault {
    ghost from_gives = { λ e f. f ≡ faults.Memory e };

    fn from(error: NoMemory) -> SoundFault {
        SoundFault::Memory(error)
    }
}
