// What holds of devices before the making calls any of them. There is no code: the contract is a law.
ghost use Rattle.shelf_init.specs.Laws.{StayBlank};

use world::Shelf;

/// Devices that give no record give none while they aren't called.
pub fn blank_stay_blank<S: Shelf>(_shelf: &S)
    ensures { StayBlank (S.shelf _shelf.now) }
{}
