//! What an array's memory keeps beside its tables, what it has room for, and what commands make of it: what is asked of each, the facts that it adds, and that memory then reads as the array after it.
//! But for the amounts of room there is no code: laws promise, as their contracts, what holds of these definitions.
#![tactic(auto)]

mod amounts;
mod limits;

ghost use Rattle.command_spec.specs.Laws.{SnapshotReads, CloneReads, CopyReads};
ghost use Rattle.command_spec.specs.Removing.{RemovalReads};
ghost use Rattle.command_spec.specs.Flattening.{FlatteningIsSound, FlatteningReads};

pub use amounts::{Amounts, NOTHING, taken};
pub use limits::{BACKGROUND_FACTS, ELIDED_MEDIUMS, ELIDED_SEGMENTS, LOG_ROOM, STAGED_SECTORS};

/// Snapshots, clones and copies keep memory sound, and it reads as the array after them.
pub fn laws_of_mediums()
    ensures snapshot { SnapshotReads }
    ensures cloned { CloneReads }
    ensures copied { CopyReads }
{}

/// So do destructions.
pub fn laws_of_removal()
    ensures { RemovalReads }
{}

/// A flattening changes no reading.
pub fn laws_of_flattening()
    ensures sound { FlatteningIsSound }
    ensures reads { FlatteningReads }
{}
