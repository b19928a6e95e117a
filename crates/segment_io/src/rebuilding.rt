// A shard is rebuilt on its drive.
ghost use Rattle.std.specs.Prelude.{◌≡◌, ℕ, ◌+◌, ◌*◌, ◌<◌, ◌≤◌, [], true, List, IfErr, OnOk};
ghost use Rattle.pur_base.specs.declared.limits.TheConstants.{SEGMENT_SHARDS};
ghost use Rattle.pur_base.specs.Devices.{View};
ghost use Rattle.parity72.specs.Parity.{shard_of};
ghost use Rattle.segment_codec.specs.declared.position.TheConstants.{WRITE_UNIT_BYTES, STRIPES};
ghost use Rattle.segment_codec.specs.Stripes.{StripeStands};
ghost use Rattle.world.specs.Ran.{Ran};
ghost use Rattle.world.specs.Writes.{OneRange};
ghost use Rattle.segment_io.specs.Places.{ArePlaces, place_of, drive_of, write_unit_at, IsOnPlace};
ghost use Rattle.segment_io.specs.Stripes.{bytes_of, unit_in};
ghost use Rattle.segment_io.specs.Reads.{is_unknown, IsOn, ShowsPresent};
ghost use Rattle.segment_io.specs.Rebuilds.{is_wanted, IsFaultOf, OthersAreSame, Rebuilds, AreRebuilt};

use crate::gathering::{StripeBuffer, read_stripe};
use crate::reading::missing_shards;
use parity72::SHARDS;
use pur_base::{Device, DriveId, Lost, Places, UNIT_BYTES};
use segment_codec::WRITE_UNIT_BYTES;
use world::Shelf;

/// Why a shard is not rebuilt.
#[derive(Clone, Copy, PartialEq, Eq)]
pub enum RebuildFault {
    /// Three of the nine drives are lost, the shard's own among them.
    Lost(Lost),
    /// A write or a sync of the shard's own drive failed.
    Target,
}

// Rebuilds the shard in one stripe. It isn't synced.
fn rebuild_stripe<S: Shelf>(
    shelf: &mut S,
    places: &Places,
    shard: u8,
    stripe: u8,
    unknown: &mut [bool; SHARDS],
    shards: &mut StripeBuffer,
) -> Result<(), RebuildFault>
    requires places { ArePlaces (S.shelf shelf.old) places.now }
    requires shard { shard < SEGMENT_SHARDS }
    requires stripe { stripe < STRIPES }
    requires wanted { is_unknown unknown.old shard ≡ true }
    ensures run { Rebuilds (S.shelf shelf.old) (S.shelf shelf.new) places.now shard (stripe + 1) 1 (is_unknown unknown.old) unknown.new }
    ensures rebuilt { (S.shelf shelf.old).honest → OnOk result ((whole : List (List ℕ)) → IsOn (S.shelf shelf.old) (S.shelf shelf.new) places.now unknown.old stripe whole
        → unit_in (bytes_of (S.shelf shelf.new)) places.now (stripe + 1) shard ≡ shard_of whole shard) }
    ensures fault { IfErr result (λ fault. IsFaultOf (S.shelf shelf.old) (S.shelf shelf.new) places.now (is_unknown unknown.old) shard fault) }
    ensures rest { S.shelf_rest shelf.old shelf.new }
{
    if let Err(lost) = read_stripe(shelf, places, stripe, unknown, shards) {
        return Err(RebuildFault::Lost(lost));
    }
    let place = places[shard as usize];
    let at = UNIT_BYTES as u64 * place.unit as u64 + WRITE_UNIT_BYTES as u64 * (stripe as u64 + 1);
    let bytes = &shards[shard as usize];
    let answer = shelf.write(Device::Drive(DriveId(place.slot)), at, bytes);
    if answer.is_err() {
        return Err(RebuildFault::Target);
    }
    Ok(())
}

// Rebuilds the shard in the first stripes. They aren't synced.
fn rebuild_stripes<S: Shelf>(
    shelf: &mut S,
    places: &Places,
    shard: u8,
    stripes: u8,
    unknown: &mut [bool; SHARDS],
    shards: &mut StripeBuffer,
) -> Result<(), RebuildFault>
    requires places { ArePlaces (S.shelf shelf.old) places.now }
    requires shard { shard < SEGMENT_SHARDS }
    requires stripes { stripes ≤ STRIPES }
    requires wanted { is_unknown unknown.old shard ≡ true }
    ensures run { Rebuilds (S.shelf shelf.old) (S.shelf shelf.new) places.now shard 1 stripes (is_unknown unknown.old) unknown.new }
    ensures rebuilt { (S.shelf shelf.old).honest → OnOk result (AreRebuilt (S.shelf shelf.old) (S.shelf shelf.new) places.now shard (is_unknown unknown.old) stripes) }
    ensures fault { IfErr result (λ fault. IsFaultOf (S.shelf shelf.old) (S.shelf shelf.new) places.now (is_unknown unknown.old) shard fault) }
    ensures rest { S.shelf_rest shelf.old shelf.new }
{
    for stripe in 0..stripes {
        rebuild_stripe(shelf, places, shard, stripe, unknown, shards)?;
    }
    Ok(())
}

/// Writes a shard of each of the first `stripes` stripes anew on its drive, from the others, and syncs it. The header isn't written.
/// The set of the missing drives is given by slot; the shard's own is taken as one of them.
pub fn rebuild_shard<S: Shelf>(
    shelf: &mut S,
    places: &Places,
    shard: u8,
    stripes: u8,
    missing: &[bool],
    shards: &mut StripeBuffer,
) -> Result<(), RebuildFault>
    requires places { ArePlaces (S.shelf shelf.old) places.now }
    requires shard { shard < SEGMENT_SHARDS }
    requires stripes { stripes ≤ STRIPES }
    // What stands in each stripe by the other drives.
    ensures rebuilt { (S.shelf shelf.old).honest → OnOk result ((view : View) (stripe : ℕ) (whole : List (List ℕ)) → stripe < stripes → ShowsPresent (S.shelf shelf.old) places.now missing.now view
        → StripeStands view places.now stripe whole → unit_in (bytes_of (S.shelf shelf.new)) places.now (stripe + 1) shard ≡ shard_of whole shard) }
    ensures clean { (S.shelf shelf.old).honest → OnOk result (((S.shelf shelf.new).disk (drive_of places.now shard)).dirty ≡ []) }
    ensures fault { IfErr result (λ fault. IsFaultOf (S.shelf shelf.old) (S.shelf shelf.new) places.now (is_wanted shard missing.now places.now) shard fault) }
    ensures same { (S.shelf shelf.old).honest → OthersAreSame (drive_of places.now shard) (S.shelf shelf.old) (S.shelf shelf.new) }
    ensures ran { Ran S.shelf S.shelf_rest (IsOnPlace places.now) (OneRange (drive_of places.now shard) (write_unit_at (place_of places.now shard) 1) (WRITE_UNIT_BYTES * stripes)) shelf.old shelf.new }
{
    let mut unknown = missing_shards(places, missing);
    unknown[shard as usize] = true;
    rebuild_stripes(shelf, places, shard, stripes, &mut unknown, shards)?;
    let slot = places[shard as usize].slot;
    let answer = shelf.sync(Device::Drive(DriveId(slot)));
    if answer.is_err() {
        return Err(RebuildFault::Target);
    }
    Ok(())
}
