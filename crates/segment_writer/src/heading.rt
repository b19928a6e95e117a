// The headers of new segments are written.
ghost use Rattle.std.specs.Prelude.{◌≡◌, ℕ, [], List};
ghost use Rattle.world.specs.Ran.{Ran};
ghost use Rattle.segment_io.specs.Headers.{MayBeWritten};
ghost use Rattle.segment_io.specs.Places.{ArePlaces, IsOnPlace, OnUnits};
ghost use Rattle.segment_io.specs.Lost.{LosesOnly};
ghost use Rattle.segment_io.specs.Stripes.{bytes_of, HoldsStripe};
ghost use Rattle.segment_writer.specs.Layout.{units_of, MayBeHeaded, IsOnSome, OnSome, HoldsHeader, HoldAllHeaders, StripesStay, IsOpenOf, AreAllOpen};

use crate::content::Headed;
use pur_base::Lost;
use segment_codec::Header;
use segment_io::Open;
use world::Shelf;

// Writes the header of an open segment into its units. It isn't synced.
fn write_header<S: Shelf>(shelf: &mut S, header: &Header, mut opened: Open, lost: &mut Lost)
    requires places { ArePlaces (S.shelf shelf.old) header.now.places }
    requires written { MayBeWritten header.now }
    requires opened { IsOpenOf header.now lost.old.drives opened }
    ensures ran { Ran S.shelf S.shelf_rest (IsOnPlace header.now.places) (OnUnits header.now.places 0 1) shelf.old shelf.new }
    ensures lost { LosesOnly (S.shelf shelf.old) (S.shelf shelf.new) lost.old.drives lost.new.drives }
    ensures header { (S.shelf shelf.old).honest → HoldsHeader (bytes_of (S.shelf shelf.new)) header.now lost.new.drives }
    ensures kept { (S.shelf shelf.old).honest → (stripe : ℕ) (shards : List (List ℕ)) → HoldsStripe (bytes_of (S.shelf shelf.old)) header.now.places lost.old.drives stripe shards
        → HoldsStripe (bytes_of (S.shelf shelf.new)) header.now.places lost.new.drives stripe shards }
{
    opened.lose(lost);
    let (_closed, now) = opened.write_headers(header, shelf);
    *lost = now;
}

/// Writes the header of each open segment into its units, the last one first. They aren't synced.
/// It asks for stripes that were synced, on each drive that isn't lost. A drive on which a write fails is lost for all segments.
pub(crate) fn write_all_headers<N: Headed, S: Shelf>(
    shelf: &mut S,
    new: &N,
    opened: &mut Vec<Open>,
    lost: &mut Lost,
)
    requires may_head { N.may_head new.now }
    requires headed { MayBeHeaded (S.shelf shelf.old) (N.layout new.now) }
    requires opened { AreAllOpen (N.layout new.now) lost.old.drives opened.old.items }
    ensures ran { Ran S.shelf S.shelf_rest (IsOnSome (N.layout new.now).count (units_of (N.layout new.now))) (OnSome (N.layout new.now).count (units_of (N.layout new.now)) 0 1) shelf.old shelf.new }
    ensures lost { LosesOnly (S.shelf shelf.old) (S.shelf shelf.new) lost.old.drives lost.new.drives }
    ensures none { opened.new.items ≡ [] }
    ensures headers { (S.shelf shelf.old).honest → HoldAllHeaders (bytes_of (S.shelf shelf.new)) (N.layout new.now) lost.new.drives }
    // The stripes stand as they did.
    ensures kept { (S.shelf shelf.old).honest → StripesStay (S.shelf shelf.old) (S.shelf shelf.new) (N.layout new.now) lost.old.drives lost.new.drives }
{
    while let Some(next) = opened.pop() {
        let header = new.header(opened.len());
        write_header(shelf, &header, next, lost);
    }
}
