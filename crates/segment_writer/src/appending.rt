// The stripes of new segments are appended to them.
ghost use Rattle.std.specs.Prelude.{◌≡◌, ◌*◌, ◌<◌, ◌≤◌, [], length};
ghost use Rattle.std.specs.Vec.{vec_capacity};
ghost use Rattle.segment_codec.specs.declared.position.TheConstants.{STRIPES};
ghost use Rattle.world.specs.Ran.{Ran};
ghost use Rattle.segment_io.specs.declared.open.TheConstants.{RUN_ROOM};
ghost use Rattle.segment_io.specs.Places.{IsOnPlace, OnUnits};
ghost use Rattle.segment_io.specs.Lost.{LosesOnly};
ghost use Rattle.segment_io.specs.Stripes.{bytes_of};
ghost use Rattle.segment_writer.specs.Layout.{units_of, MayBeHeaded, HaveStripes, IsOnSome, OnSome, HoldsSegment, HoldAll, IsOpenOf, AreAllOpen};

use crate::content::Filled;
use parity72::SHARD_BYTES;
use pur_base::Lost;
use segment_io::{Open, StripeData};
use world::Shelf;

// Opens the segment of that number and appends its stripes. Each unit is written with one call.
fn append_segment<N: Filled, S: Shelf>(
    shelf: &mut S,
    new: &N,
    number: usize,
    stripes: &mut [StripeData],
    room: &mut [[u8; SHARD_BYTES]],
    lost: &mut Lost,
) -> Open
    requires may_fill { N.may_head new.now × N.may_fill new.now }
    requires headed { MayBeHeaded (S.shelf shelf.old) (N.layout new.now) }
    requires have_stripes { HaveStripes (N.layout new.now) (N.stripe_count new.now) }
    requires number { number < (N.layout new.now).count }
    requires stripes { STRIPES ≤ length stripes.old }
    requires room { RUN_ROOM * STRIPES ≤ length room.old }
    ensures ran { Ran S.shelf S.shelf_rest (IsOnPlace (units_of (N.layout new.now) number)) (OnUnits (units_of (N.layout new.now) number) 1 STRIPES) shelf.old shelf.new }
    ensures lost { LosesOnly (S.shelf shelf.old) (S.shelf shelf.new) lost.old.drives lost.new.drives }
    ensures opened { IsOpenOf ((N.layout new.now).header number) lost.new.drives result }
    ensures stand { (S.shelf shelf.old).honest → HoldsSegment (bytes_of (S.shelf shelf.new)) (units_of (N.layout new.now) number) lost.new.drives (N.stripe_count new.now number) (N.holds new.now number) }
{
    let header = new.header(number);
    let count = new.fill(number, stripes);
    let mut opened = Open::new(header.segment, header.kind, header.places);
    opened.lose(lost);
    *lost = opened.append_stripes(&stripes[..count], room, shelf);
    opened
}

/// Appends the stripes of new segments to them. They aren't synced, and have no headers yet. The open segments are put into the list, which has the room for them.
/// The buffers are lent and may be used again: 15 stripes, and 45 write units. A drive on which a write fails is lost for all segments.
pub(crate) fn append_all<N: Filled, S: Shelf>(
    shelf: &mut S,
    new: &N,
    stripes: &mut [StripeData],
    room: &mut [[u8; SHARD_BYTES]],
    opened: &mut Vec<Open>,
    lost: &mut Lost,
)
    requires may_fill { N.may_head new.now × N.may_fill new.now }
    requires headed { MayBeHeaded (S.shelf shelf.old) (N.layout new.now) }
    requires have_stripes { HaveStripes (N.layout new.now) (N.stripe_count new.now) }
    requires none { opened.old.items ≡ [] }
    requires capacity { (N.layout new.now).count ≤ vec_capacity opened.old }
    requires stripes { STRIPES ≤ length stripes.old }
    requires room { RUN_ROOM * STRIPES ≤ length room.old }
    ensures ran { Ran S.shelf S.shelf_rest (IsOnSome (N.layout new.now).count (units_of (N.layout new.now))) (OnSome (N.layout new.now).count (units_of (N.layout new.now)) 1 STRIPES) shelf.old shelf.new }
    ensures lost { LosesOnly (S.shelf shelf.old) (S.shelf shelf.new) lost.old.drives lost.new.drives }
    ensures opened { AreAllOpen (N.layout new.now) lost.new.drives opened.new.items }
    ensures stand { (S.shelf shelf.old).honest → HoldAll (bytes_of (S.shelf shelf.new)) (N.layout new.now) lost.new.drives (N.stripe_count new.now) (N.holds new.now) }
{
    for number in 0..new.count() {
        let next = append_segment(shelf, new, number, stripes, room, lost);
        match opened.push(next) {
            Ok(()) => {}
            Err(_) => unreachable!(),
        }
    }
}
