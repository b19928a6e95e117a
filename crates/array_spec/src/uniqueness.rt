// What is read is one.
ghost use Rattle.array_spec.specs.Laws.{OneCommand, OneFact, OneLog, OneSector};

/// Bytes spell one fact.
pub fn one_fact_is_spelled()
    ensures { OneFact }
{}

/// A slot of the log spells one command under a number.
pub fn one_command_is_spelled()
    ensures { OneCommand }
{}

/// One sector stands at an index of a segment, in each view.
pub fn one_sector_stands()
    ensures { OneSector }
{}

/// A view has one log over a base.
pub fn one_log_stands()
    ensures { OneLog }
{}
