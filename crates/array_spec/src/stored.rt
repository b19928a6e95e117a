// What stands on the devices once tables are stored, and what a store and a checkpoint change of it.
ghost use Rattle.array_spec.specs.StoredLaws.{OnePatches, OneBase, RecordIsRead, NextHolds, DataIsHeld, FreeIsUnused, FreeWritesKeep, CheckpointFollows, MergeFollows};

/// What the tables of a record hold is one, in each view.
pub fn one_array_is_held()
    ensures patches { OnePatches }
    ensures base { OneBase }
{}

/// A record whose tables stand is read into what its log leads to, and so is a later one of the same tables.
pub fn a_stored_record_is_read()
    ensures read { RecordIsRead }
    ensures next { NextHolds }
    ensures stored { DataIsHeld }
{}

/// Writes in units that the tables leave free change nothing.
pub fn free_writes()
    ensures unused { FreeIsUnused }
    ensures keep { FreeWritesKeep }
{}

/// The record of a checkpoint follows on from the one that is in force.
pub fn a_checkpoint_follows()
    ensures { CheckpointFollows }
{}

/// So does the record of a merge.
pub fn a_merge_follows()
    ensures { MergeFollows }
{}
