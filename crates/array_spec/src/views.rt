// What a view of the devices gives.
ghost use Rattle.array_spec.specs.Laws.{OneIsDecided, OneIsEffective, RecordsAreSpelledApart, HeldIsGiven, OpeningGives, OpeningStillGives, ClosingGivesNoMore, ClosingStillGives, ReadsOne, LogIsBetween};

/// Of the votes of a slot at most one body has more than half.
pub fn one_body_is_decided()
    ensures { OneIsDecided }
{}

/// A view gives one record at most.
pub fn one_record_is_effective()
    ensures { OneIsEffective }
{}

/// Two lawful records of a shelf are spelled differently.
pub fn records_are_spelled_apart()
    ensures { RecordsAreSpelledApart }
{}

/// A record that stands on each drive that is not missing is given in each view, whatever the missing devices show.
pub fn a_held_record_is_given()
    ensures { HeldIsGiven }
{}

/// Gates of a slot that are opened over one record: that record may be given then, or one that might have been before, and some record is.
pub fn opening_gates()
    ensures gives { OpeningGives }
    ensures some { OpeningStillGives }
{}

/// Gates of a slot that are closed, and bodies written behind them, while a record of the other slot is decided: nothing may be given that could not be before, and some record is.
pub fn closing_gates()
    ensures gives { ClosingGivesNoMore }
    ensures some { ClosingStillGives }
{}

/// A sector of a medium reads as one target, where the tables are sound.
pub fn a_sector_reads_as_one_target()
    ensures { ReadsOne }
{}

/// The log is between what the sound NVRAM devices show and what any shows.
pub fn the_log_is_between()
    ensures { LogIsBetween }
{}
