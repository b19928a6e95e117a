//! The tables of an array in memory, the plain array that they read as, what commands, checkpoints and merges make of them, and what stored ones read as once they are loaded.
//! There is no code: each public function here promises, as its contract, a law of these definitions.
#![tactic(auto)]

mod checkpoints;
mod loaded;

ghost use Rattle.memory_spec.specs.Adding.{OverwriteReads, CreateReads, SameReads, MovedReads};
ghost use Rattle.memory_spec.specs.Examples.{TwoVolumesRead};
ghost use Rattle.memory_spec.specs.Laws.{VolumesOwn, PuttingReads, CreatingReads};
ghost use Rattle.memory_spec.specs.Reading.{EntriesRead, SectorsRead, ReadsAsOne};

pub use checkpoints::{
    checkpoints_hold, eliding_keeps_memory, flushes_keep_memory, patches_are_memory,
    placing_keeps_memory, what_was_written_stands,
};
pub use loaded::{held_tables_read, sound_tables_read};

/// What facts say decides what they read as.
pub fn laws_of_readings()
    ensures same { SameReads }
    ensures moved { MovedReads }
    ensures overwrite { OverwriteReads }
    ensures create { CreateReads }
{}

/// Commands keep memory sound, and it reads as the array after them.
pub fn laws_of_commands()
    ensures own { VolumesOwn }
    ensures put { PuttingReads }
    ensures created { CreatingReads }
{}

/// The visible objects are the array's entries, what a place reads as is the array's sector, and there is one such array.
pub fn laws_of_entries()
    ensures entries { EntriesRead }
    ensures sectors { SectorsRead }
    ensures one { ReadsAsOne }
{}

/// A small memory is sound, and reads as its two volumes.
pub fn small_example()
    ensures { TwoVolumesRead }
{}
