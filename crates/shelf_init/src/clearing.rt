// The logs of the NVRAM devices are emptied.
ghost use Rattle.std.specs.Prelude.{OnOk};
ghost use Rattle.world.specs.Ran.{Ran};
ghost use Rattle.shelf_init.specs.Blank.{IsNvram, HasNoCommand, OnLogGates};
ghost use Rattle.session_spec.specs.Making.{AreClean};
ghost use Rattle.shelf_init.specs.Counted.{TellsFailed};

use log_codec::LOG_SLOTS;
use pur_base::{Device, NVRAM_DEVICES, NvId};
use world::{Failed, Shelf, write_synced};

/// Closes the gates of the log on both NVRAM devices, and syncs. The first call that fails ends it.
pub fn clear_nvram<S: Shelf>(shelf: &mut S) -> Result<(), Failed>
    ensures ran { Ran S.shelf S.shelf_rest IsNvram OnLogGates shelf.old shelf.new }
    ensures cleared { (S.shelf shelf.old).honest → OnOk result (HasNoCommand (S.shelf shelf.new)) }
    ensures clean { (S.shelf shelf.old).honest → OnOk result (AreClean (S.shelf shelf.old) → AreClean (S.shelf shelf.new)) }
    ensures counts { TellsFailed result (S.shelf shelf.old) (S.shelf shelf.new) }
{
    let closed = [0; LOG_SLOTS];
    for device in 0..NVRAM_DEVICES {
        write_synced(shelf, Device::Nv(NvId(device)), 0, &closed)?;
    }
    Ok(())
}
