// What the steps between two stores leave of an array that is open: writes in units that its tables leave free, and writes of its log.
// There is no code: each public function here promises, as its contract, a law of these definitions.
ghost use Rattle.array_core.specs.Laws.{FreeWritesStand, FreeWritesKeep, FreeWritesLeave, FreeWritesMayStore, PlansStand, LogWritesStand, LogWritesKeep, LogWritesLeave};

use world::Shelf;

/// While units are written that the tables leave free, the devices stand for the array at every moment. Once they are synced it is open as before,
/// and where drives were lost meanwhile, it stands on the others, and the next record may be stored without them.
pub fn free_writes<S: Shelf>(_old: &S, _new: &S)
    ensures stand { FreeWritesStand (S.shelf _old.now) (S.shelf _new.now) }
    ensures keep { FreeWritesKeep (S.shelf _old.now) (S.shelf _new.now) }
    ensures leave { FreeWritesLeave (S.shelf _old.now) (S.shelf _new.now) }
    ensures may_store { FreeWritesMayStore (S.shelf _old.now) (S.shelf _new.now) }
{}

/// Tables that were written there and synced may be stored.
pub fn written_tables<S: Shelf>(_shelf: &S)
    ensures { PlansStand (S.shelf _shelf.now) }
{}

/// While the log is written on the NVRAM devices, the devices stand for the arrays to which it may lead at every moment. Then the array is open with the log
/// that they show, and where some of them were lost meanwhile, it stands with the log on the others.
pub fn log_writes<S: Shelf>(_old: &S, _new: &S)
    ensures stand { LogWritesStand (S.shelf _old.now) (S.shelf _new.now) }
    ensures keep { LogWritesKeep (S.shelf _old.now) (S.shelf _new.now) }
    ensures leave { LogWritesLeave (S.shelf _old.now) (S.shelf _new.now) }
{}
