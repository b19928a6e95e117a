// One session after another.
ghost use Rattle.session_spec.specs.Chain.{StopsChain, EndsChain, GoesOnAtOnce, ServedFollows, UnopenedFollows, NothingDone, MayWantMemory};

use world::{Shelf, World};

/// What a session leaves at any moment, and at its end, is what the next one asks for.
pub fn sessions_chain<S: Shelf>(_ended: &S, _next: &S)
    ensures stops { StopsChain (S.shelf _next.now) }
    ensures ends { EndsChain (S.shelf _ended.now) (S.shelf _next.now) }
    ensures at_once { GoesOnAtOnce (S.shelf _ended.now) }
{}

/// After a session that was stopped at any moment the next one enters, with the arrays that may stand there.
pub fn sessions_follow<S: Shelf>(_old: &S, _new: &S, _next: &S)
    ensures served { ServedFollows (S.shelf _old.now) (S.shelf _new.now) (S.shelf _next.now) }
    ensures unopened { UnopenedFollows (S.shelf _old.now) (S.shelf _new.now) (S.shelf _next.now) }
{}

/// Where nothing was done the devices still stand for the arrays.
pub fn nothing_is_lost_untouched<S: Shelf>(_shelf: &S)
    ensures { NothingDone (S.shelf _shelf.now) }
{}

/// A session that wants memory before it has done anything keeps the headline.
pub fn memory_may_be_wanted<W: World>(_world: &W)
    ensures { MayWantMemory (W.shelf _world.now) (W.source _world.now) (W.sink _world.now) }
{}
