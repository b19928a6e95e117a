// New segments are written whole.
ghost use Rattle.std.specs.Prelude.{◌≡◌, ◌+◌, ◌*◌, ◌≤◌, length, OnOk, OnErr};
ghost use Rattle.segment_codec.specs.declared.position.TheConstants.{STRIPES};
ghost use Rattle.world.specs.Ran.{Ran};
ghost use Rattle.world.specs.Shelf.{LeavesOnly};
ghost use Rattle.segment_io.specs.declared.open.TheConstants.{RUN_ROOM};
ghost use Rattle.segment_io.specs.Lost.{LosesOnly};
ghost use Rattle.segment_writer.specs.Layout.{units_of, MayBeHeaded, HaveStripes, IsOnSome, OnSome, StaysClean, ComesInTurn, HasWritten};

use crate::appending::append_all;
use crate::content::Filled;
use crate::drives::drives_of;
use crate::heading::write_all_headers;
use parity72::SHARD_BYTES;
use pur_base::{Lost, NoMemory};
use segment_io::{StripeData, sync_drives};
use std::alloc::Global;
use world::Shelf;

/// Writes new segments: the stripes of all, which are synced, and then the headers of all, which are synced. All memory is taken before the first write.
/// The buffers are lent and may be used again: 15 stripes, and 45 write units. A drive on which a call fails is lost.
pub(crate) fn write_all<N: Filled, S: Shelf>(
    alloc: Global,
    shelf: &mut S,
    new: &N,
    stripes: &mut [StripeData],
    room: &mut [[u8; SHARD_BYTES]],
    lost: &mut Lost,
) -> Result<(), NoMemory>
    requires may_fill { N.may_head new.now × N.may_fill new.now }
    requires headed { MayBeHeaded (S.shelf shelf.old) (N.layout new.now) }
    requires have_stripes { HaveStripes (N.layout new.now) (N.stripe_count new.now) }
    requires stripes { STRIPES ≤ length stripes.old }
    requires room { RUN_ROOM * STRIPES ≤ length room.old }
    ensures ran { Ran S.shelf S.shelf_rest (IsOnSome (N.layout new.now).count (units_of (N.layout new.now))) (OnSome (N.layout new.now).count (units_of (N.layout new.now)) 0 (STRIPES + 1)) shelf.old shelf.new }
    ensures lost { LosesOnly (S.shelf shelf.old) (S.shelf shelf.new) lost.old.drives lost.new.drives }
    // What stands, and on which drives nothing is dirty.
    ensures written { (S.shelf shelf.old).honest → OnOk result (HasWritten (S.shelf shelf.new) (N.layout new.now) lost.new.drives (N.stripe_count new.now) (N.holds new.now)) }
    ensures clean { (S.shelf shelf.old).honest → OnOk result (StaysClean lost.new.drives (S.shelf shelf.old) (S.shelf shelf.new)) }
    // At every moment no header is there yet, or all that the stripes are to hold stands.
    ensures in_turn { (S.shelf shelf.old).honest → LeavesOnly (S.shelf shelf.old) (S.shelf shelf.new) (ComesInTurn (S.shelf shelf.old) (N.layout new.now) lost.new.drives (N.stripe_count new.now) (N.holds new.now)) }
    ensures err { OnErr result ((shelf.new ≡ shelf.old) × (lost.new ≡ lost.old)) }
{
    let Ok(mut opened) = Vec::with_capacity(alloc, new.count()) else {
        return Err(NoMemory);
    };
    let drives = drives_of(new);
    append_all(shelf, new, stripes, room, &mut opened, lost);
    sync_drives(shelf, &drives, lost);
    write_all_headers(shelf, new, &mut opened, lost);
    sync_drives(shelf, &drives, lost);
    Ok(())
}
