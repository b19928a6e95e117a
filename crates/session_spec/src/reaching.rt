// How a point is reached.
ghost use Rattle.session_spec.specs.Reaching.{OutputIsBounded, OutputCounts, CountsStay, PointIsReached};

use world::Shelf;

/// The counts at a reply are told by the stops from there on, over whatever calls follow: so a run's points are reached.
pub fn points_are_reached<S: Shelf>(_at: &S, _before: &S, _after: &S)
    ensures bounded { OutputIsBounded (S.shelf _before.now) (S.shelf _after.now) }
    ensures counts { OutputCounts (S.shelf _before.now) (S.shelf _after.now) }
    ensures stay { CountsStay (S.shelf _at.now) (S.shelf _before.now) (S.shelf _after.now) }
    ensures reached { PointIsReached (S.shelf _at.now) (S.shelf _after.now) }
{}
