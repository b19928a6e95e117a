// Sectors are read.
ghost use Rattle.std.specs.Prelude.{◌≡◌, ℕ, ◌<◌, List, IfOk, IfErr};
ghost use Rattle.pur_base.specs.declared.limits.TheConstants.{SEGMENT_SECTORS, SEGMENT_SHARDS};
ghost use Rattle.pur_base.specs.Devices.{View};
ghost use Rattle.segment_codec.specs.Stripes.{SectorStands};
ghost use Rattle.world.specs.Ran.{Ran};
ghost use Rattle.segment_io.specs.Places.{ArePlaces, IsOnPlace};
ghost use Rattle.segment_io.specs.Lost.{is_in, NoByte};
ghost use Rattle.segment_io.specs.Reads.{is_unknown, is_missing_in, OnlyLooks, AreLost, ShowsAnswering};

use crate::gathering::{StripeBuffer, read_part, read_stripe};
use parity72::SHARDS;
use pur_base::{Lost, Places, SECTOR_BYTES, Sector};
use segment_codec::Position;
use world::Shelf;

// Whether the drive of a slot is in the set.
fn is_member(drives: &[bool], slot: u8) -> bool
    ensures { result ≡ is_in drives.now slot }
{
    let at = slot as usize;
    at < drives.len() && drives[at]
}

/// Which shards are on missing drives.
pub fn missing_shards(places: &Places, missing: &[bool]) -> [bool; SHARDS]
    ensures { (shard : ℕ) → shard < SEGMENT_SHARDS → is_unknown result shard ≡ is_missing_in missing.now places.now shard }
{
    let mut unknown = [false; SHARDS];
    for shard in 0..SHARDS {
        unknown[shard] = is_member(missing, places[shard].slot);
    }
    unknown
}

/// Reads the sector of that index of a segment. The set of the missing drives is given by slot.
/// It is read from its drive alone; only where that is missing or fails, the other shards of its stripe are read, and it is recovered.
/// `Lost` comes only where three of the nine drives are each missing or failed in this call, and names them. No drive is missing for it.
pub fn read_sector<S: Shelf>(
    shelf: &mut S,
    places: &Places,
    index: u16,
    missing: &[bool],
    shards: &mut StripeBuffer,
) -> Result<Sector, Lost>
    requires places { ArePlaces (S.shelf shelf.old) places.now }
    requires index { index < SEGMENT_SECTORS }
    // What stands at the index in each view that shows the drives that answered.
    ensures sector { (S.shelf shelf.old).honest → IfOk result (λ sector. (view : View) (bytes : List ℕ)
        → ShowsAnswering (S.shelf shelf.old) (S.shelf shelf.new) places.now missing.now view → SectorStands view places.now index bytes → sector ≡ bytes) }
    ensures lost { IfErr result (λ lost. AreLost (S.shelf shelf.old) (S.shelf shelf.new) places.now (is_missing_in missing.now places.now) lost.drives) }
    ensures looks { OnlyLooks (S.shelf shelf.old) (S.shelf shelf.new) }
    ensures ran { Ran S.shelf S.shelf_rest (IsOnPlace places.now) NoByte shelf.old shelf.new }
{
    let position = Position::of(index);
    let shard = position.shard as usize;
    let from = SECTOR_BYTES * position.eighth as usize;
    let mut unknown = missing_shards(places, missing);
    let mut sector = [0; SECTOR_BYTES];
    let place = places[shard];
    let was_unknown = unknown[shard];
    let is_unknown = read_part(
        shelf,
        place,
        position.stripe + 1,
        from,
        &mut sector,
        was_unknown,
    );
    if !is_unknown {
        return Ok(Sector::new(sector));
    }
    unknown[shard] = true;
    read_stripe(shelf, places, position.stripe, &mut unknown, shards)?;
    let bytes = &shards[shard];
    sector.copy_from_slice(&bytes[from..from + SECTOR_BYTES]);
    Ok(Sector::new(sector))
}
