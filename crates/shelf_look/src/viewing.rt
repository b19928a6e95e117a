// A view of a shelf.
ghost use Rattle.std.specs.Prelude.{◌≡◌, IfOk};
ghost use Rattle.pur_base.specs.declared.device.Device.{Device};
ghost use Rattle.world.specs.Ran.{Ran};
ghost use Rattle.world.specs.Shelf.{IsSame};
ghost use Rattle.nvram_log.specs.Read.{OnNothing};
ghost use Rattle.shelf_look.specs.Opening.{IsAny};
ghost use Rattle.shelf_look.specs.Looking.{end_of};
ghost use Rattle.shelf_look.specs.Viewing.{IsTold};

use crate::json::json_of;
use crate::words::words_of;
use crate::{Looked, look};
use boot_codec::{DRIVE_FLAGS, NVRAM_FLAGS};
use pur_base::{NoMemory, Status};
use std::alloc::Global;
use world::Shelf;

/// What is to be told.
#[derive(Clone, Copy)]
pub struct Asked {
    /// As one JSON object.
    pub json: bool,
    /// Each object too.
    pub objects: bool,
}

/// What is told of a shelf, and the status with which an opening would end.
#[derive(Drop)]
pub struct Told {
    pub text: String,
    pub status: Status,
}

/// Which devices are there with the length that they are to have, as far as the caller knows.
#[derive(Clone, Copy)]
pub struct There {
    pub drives: [bool; DRIVE_FLAGS],
    pub nvrams: [bool; NVRAM_FLAGS],
}

impl There {
    /// All of them.
    pub const ALL: There = There {
        drives: [true; DRIVE_FLAGS],
        nvrams: [true; NVRAM_FLAGS],
    };
}

/// What is told of a look.
fn told_of(alloc: Global, looked: &Looked, there: &There, asked: Asked) -> Result<Told, NoMemory>
    ensures { IfOk result (λ t. t.status ≡ end_of looked.now) }
{
    let text = if asked.json {
        json_of(alloc, looked, there)
    } else {
        words_of(alloc, looked, there, asked.objects)
    };
    Ok(Told {
        text: text?,
        status: looked.status(),
    })
}

/// Looks at a shelf and tells what it shows. It makes no write and no sync, whatever fails, and fails itself for want of memory alone.
/// Of a device that doesn't answer it tells by `there` whether it is absent or failed.
pub fn view<S: Shelf>(
    alloc: Global,
    shelf: &mut S,
    there: &There,
    asked: Asked,
) -> Result<Told, NoMemory>
    // No byte changes or gets dirty on any device, and a stop at any moment leaves each as it was.
    ensures same { (S.shelf shelf.old).honest → (d : Device) → IsSame ((S.shelf shelf.old).disk d) ((S.shelf shelf.new).disk d) }
    ensures ran { Ran S.shelf S.shelf_rest IsAny OnNothing shelf.old shelf.new }
    // The status is that of an opening of what the devices show.
    ensures told { (S.shelf shelf.old).honest → IfOk result (IsTold (S.shelf shelf.old) (S.shelf shelf.new)) }
{
    let looked = look(alloc, shelf)?;
    told_of(alloc, &looked, there, asked)
}
