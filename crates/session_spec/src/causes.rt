// Claims and their causes.
ghost use Rattle.std.specs.Prelude.{ℕ};
ghost use Rattle.session_spec.specs.Chain.{FaresRun, LeavesAfter, ElidedStays, ClaimsHaveCauses, HaltsHaveCauses, AwakeIsBorne, AwakeEndsAreBorne, HaltedEndsHaveCauses, UnopenedEndsHaveCauses, TakeoverKeeps, TakeoverBears};

use world::Shelf;

/// The replies that the devices fare by are lawful ones, and what may stand at a stop is what the acknowledged items leave, or one item more.
pub fn replies_are_lawful<S: Shelf>(_shelf: &S)
    ensures runs { (since : ℕ) → FaresRun ((S.shelf _shelf.now).left_since since) }
    ensures after { (since : ℕ) → LeavesAfter ((S.shelf _shelf.now).left_since since) }
{}

/// What a stored record elides stays elided: no answer, and no later record, has a fact of it.
pub fn elided_stays<S: Shelf>(_shelf: &S)
    ensures { (since : ℕ) → ElidedStays ((S.shelf _shelf.now).left_since since) }
{}

/// While requests are served a device leaves the record only where a write or a sync on it failed, none joins it, and an array is halted just where more is missing than can be borne.
pub fn claims_have_causes<S: Shelf>(_shelf: &S)
    ensures claims { (since : ℕ) → ClaimsHaveCauses ((S.shelf _shelf.now).left_since since) }
    ensures halts { (since : ℕ) → HaltsHaveCauses ((S.shelf _shelf.now).left_since since) }
    ensures awake { (since : ℕ) → AwakeIsBorne ((S.shelf _shelf.now).left_since since) }
{}

/// A session that was opened ends halted only where more is missing at its last reply than can be borne, and not halted only where no more is; where what failed in its opening is borne it stays unopened for want of memory alone.
pub fn ends_have_causes<S: Shelf>(_old: &S, _new: &S)
    ensures halted { HaltedEndsHaveCauses (S.shelf _old.now) (S.shelf _new.now) }
    ensures awake { AwakeEndsAreBorne (S.shelf _old.now) (S.shelf _new.now) }
    ensures unopened { UnopenedEndsHaveCauses (S.shelf _old.now) (S.shelf _new.now) }
{}

/// A takeover that is done forgets no device that was sound, and what could be borne in it can be borne after it.
pub fn takeovers_keep()
    ensures keeps { TakeoverKeeps }
    ensures bears { TakeoverBears }
{}
