// What the map tells. There is no code: each function promises, as its contract, a law of these definitions.
ghost use Rattle.free_space.specs.Laws.{FreeInTheTables, GroupsOfTheTables, TakenUnitsAreFree, TakenUnitsAreUsed};

/// A unit is free in the map exactly where no segment uses it.
pub fn free_units()
    ensures { FreeInTheTables }
{}

/// The map has room for as many groups of nine units as the members' free units.
pub fn groups()
    ensures { GroupsOfTheTables }
{}

/// Units that are taken of the map are free ones of members, and used afterwards.
pub fn taken_units()
    ensures free { TakenUnitsAreFree }
    ensures used { TakenUnitsAreUsed }
{}
