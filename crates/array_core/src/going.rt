// While a checkpoint writes, a session can go on, and so it can once a step in the background took something into memory.
ghost use Rattle.array_core.specs.Meanwhile.{FreeWritesGoOn};
ghost use Rattle.array_core.specs.TakingIn.{TakingInGoesOn};

use world::Shelf;

/// While units are written that the tables of an open array leave free, a session can go on with it at every moment, as long as what has lost writes by then is borne.
pub fn free_writes_go_on<S: Shelf>(_start: &S, _now: &S)
    ensures { FreeWritesGoOn (S.shelf _start.now) (S.shelf _now.now) }
{}

/// What a step in the background takes into memory leaves the same array, and a stop forgets it.
pub fn taking_in_goes_on<S: Shelf>(_shelf: &S)
    ensures { TakingInGoesOn (S.shelf _shelf.now) }
{}
