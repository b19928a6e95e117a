// What the devices stand for, as devices go missing and come back.
ghost use Rattle.array_spec.specs.Unflushed.{UnflushedHoldsNothing, UnflushedIsRead};
ghost use Rattle.array_spec.specs.Laws.{StandingMeans, MoreMayGoMissing, MarksAreFree, MarksMayClear, ShownStands, HeldStands};

/// What the devices stand for, each view means.
pub fn each_view_means()
    ensures { StandingMeans }
{}

/// More devices may go missing, as far as can be borne.
pub fn more_may_go_missing()
    ensures { MoreMayGoMissing }
{}

/// A missing device that no record names may show anything.
pub fn marks_are_free()
    ensures { MarksAreFree }
{}

/// A device that was left out is so no longer, and still missing: it shows no more than before.
pub fn marks_may_clear()
    ensures { MarksMayClear }
{}

/// What the devices are found with later is what they may show, as a missing one that has turned blank.
pub fn missing_devices_may_turn_blank()
    ensures { ShownStands }
{}

/// Once a record is held and read into the arrays, the devices stand for them.
pub fn a_held_record_stands()
    ensures { HeldStands }
{}

/// A record without patches is read into the arrays that its log leads to from nothing, and holds nothing itself.
pub fn an_unflushed_array_is_read()
    ensures read { UnflushedIsRead }
    ensures nothing { UnflushedHoldsNothing }
{}
