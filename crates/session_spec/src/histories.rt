// An array is made, and one session follows another.
ghost use Rattle.session_spec.specs.History.{HistoriesHold};

use world::Shelf;

/// However many sessions follow the making of an array, each one enters with arrays to which those before it lead.
pub fn histories_hold<S: Shelf>(_shelf: &S)
    ensures { HistoriesHold S.shelf }
{}
