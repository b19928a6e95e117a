// That what stands on the drives of an array reads, once it is loaded, as one plain array.
ghost use Rattle.memory_spec.specs.LoadedLaws.{SoundTablesRead, StoredTablesRead, HeldTablesRead};

/// Sound tables read as an array, whatever segments hold.
pub fn sound_tables_read()
    ensures { SoundTablesRead }
{}

/// Tables that stand on the drives read as the array that they hold there, and so do those that hold whichever two of the shelf are missing.
pub fn held_tables_read()
    ensures stored { StoredTablesRead }
    ensures held { HeldTablesRead }
{}
