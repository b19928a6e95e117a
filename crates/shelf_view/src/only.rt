// A view of a shelf of which reads alone are passed on.
ghost use Rattle.shelf_look.specs.Reads.{AreOnlyRead};

use pur_base::NoMemory;
use shelf_look::{Asked, ReadOnly, There, Told, view};
use std::alloc::Global;
use world::Shelf;

/// What is told of the shelf within. Whatever fails, it is not written or synced, and no count of its failed writes rises.
pub fn view_only<S: Shelf>(
    alloc: Global,
    shelf: &mut ReadOnly<S>,
    there: &There,
    asked: Asked,
) -> Result<Told, NoMemory>
    ensures { AreOnlyRead (S.shelf shelf.old.inner) (S.shelf shelf.new.inner) }
{
    view(alloc, shelf, there, asked)
}
