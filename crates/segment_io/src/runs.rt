// Runs of sectors are read.
ghost use Rattle.std.specs.Prelude.{◌≡◌, ℕ, ◌+◌, ◌*◌, ◌%◌, ◌<◌, ◌≤◌, true, false, List, length, IfErr, OnOk};
ghost use Rattle.pur_base.specs.declared.limits.TheConstants.{SECTOR_BYTES, SEGMENT_SECTORS, SEGMENT_SHARDS};
ghost use Rattle.pur_base.specs.Bytes.{bytes_at};
ghost use Rattle.pur_base.specs.Devices.{View};
ghost use Rattle.segment_codec.specs.Stripes.{IsShownAt, SectorStands};
ghost use Rattle.segment_codec.specs.declared.position.TheConstants.{WRITE_UNIT_BYTES, DATA_SHARDS, STRIPES};
ghost use Rattle.world.specs.Ran.{Ran};
ghost use Rattle.segment_io.specs.Places.{ArePlaces, IsOnPlace};
ghost use Rattle.segment_io.specs.Lost.{NoByte};
ghost use Rattle.segment_io.specs.Reads.{is_unknown, is_missing_in, OnlyLooks, Tried, AreLost, ShowsNoOther, ShowsPresent};
ghost use Rattle.segment_io.specs.Runs.{IsDataFrom, IsReadFrom};

use crate::gathering::{StripeBuffer, read_part, read_stripe};
use crate::reading::missing_shards;
use parity72::SHARDS;
use pur_base::{Lost, Places, SECTOR_BYTES};
use segment_codec::{STRIPE_SECTORS, WRITE_UNIT_BYTES};
use world::Shelf;

/// The bytes of a stripe's data.
const STRIPE_BYTES: usize = SECTOR_BYTES * STRIPE_SECTORS as usize;

// Copies a part of the stripe's data.
fn copy_data(shards: &StripeBuffer, offset: usize, into: &mut [u8])
    requires { offset + length into.old ≤ WRITE_UNIT_BYTES * DATA_SHARDS }
    ensures { IsDataFrom shards.now offset (length into.old) into.new }
{
    let mut done = 0;
    while done < into.len() {
        let shard = (offset + done) / WRITE_UNIT_BYTES;
        let within = (offset + done) % WRITE_UNIT_BYTES;
        let size = (WRITE_UNIT_BYTES - within).min(into.len() - done);
        let bytes = &shards[shard];
        into[done..done + size].copy_from_slice(&bytes[within..within + size]);
        done += size;
    }
}

// Reads a part of the stripe's data from the drives on which it stands, with one call for each shard. Gives whether all of it is known.
fn read_directly<S: Shelf>(
    shelf: &mut S,
    places: &Places,
    stripe: u8,
    offset: usize,
    unknown: &mut [bool; SHARDS],
    into: &mut [u8],
) -> bool
    requires places { ArePlaces (S.shelf shelf.old) places.now }
    requires stripe { stripe < STRIPES }
    requires fits { offset + length into.old ≤ WRITE_UNIT_BYTES * DATA_SHARDS }
    requires aligned { (offset % SECTOR_BYTES ≡ 0) × (length into.old % SECTOR_BYTES ≡ 0) }
    ensures read { (S.shelf shelf.old).honest → result ≡ true → IsReadFrom (S.shelf shelf.old) (S.shelf shelf.new) places.now (is_unknown unknown.old) stripe offset (length into.old) into.new }
    ensures some { result ≡ false → (shard : ℕ) × (shard < SEGMENT_SHARDS) × (is_unknown unknown.new shard ≡ true) }
    ensures tried { Tried (S.shelf shelf.old) (S.shelf shelf.new) places.now (is_unknown unknown.old) unknown.new }
    ensures looks { OnlyLooks (S.shelf shelf.old) (S.shelf shelf.new) }
    ensures ran { Ran S.shelf S.shelf_rest (IsOnPlace places.now) NoByte shelf.old shelf.new }
{
    let mut done = 0;
    while done < into.len() {
        let shard = (offset + done) / WRITE_UNIT_BYTES;
        let within = (offset + done) % WRITE_UNIT_BYTES;
        let size = (WRITE_UNIT_BYTES - within).min(into.len() - done);
        let was_unknown = unknown[shard];
        let place = places[shard];
        let part = &mut into[done..done + size];
        let is_unknown = read_part(shelf, place, stripe + 1, within, part, was_unknown);
        unknown[shard] = is_unknown;
        if is_unknown {
            return false;
        }
        done += size;
    }
    true
}

/// Reads a part of a stripe's data, from `offset` bytes on: from the drives on which it stands, or where one of these is unknown or fails, from the whole stripe.
fn read_in_stripe<S: Shelf>(
    shelf: &mut S,
    places: &Places,
    stripe: u8,
    offset: usize,
    unknown: &mut [bool; SHARDS],
    shards: &mut StripeBuffer,
    into: &mut [u8],
) -> Result<(), Lost>
    requires places { ArePlaces (S.shelf shelf.old) places.now }
    requires stripe { stripe < STRIPES }
    requires fits { offset + length into.old ≤ WRITE_UNIT_BYTES * DATA_SHARDS }
    requires aligned { (offset % SECTOR_BYTES ≡ 0) × (length into.old % SECTOR_BYTES ≡ 0) }
    ensures read { (S.shelf shelf.old).honest → OnOk result (IsReadFrom (S.shelf shelf.old) (S.shelf shelf.new) places.now (is_unknown unknown.old) stripe offset (length into.old) into.new) }
    ensures tried { Tried (S.shelf shelf.old) (S.shelf shelf.new) places.now (is_unknown unknown.old) unknown.new }
    ensures lost { IfErr result (λ lost. AreLost (S.shelf shelf.old) (S.shelf shelf.new) places.now (is_unknown unknown.old) lost.drives) }
    ensures looks { OnlyLooks (S.shelf shelf.old) (S.shelf shelf.new) }
    ensures ran { Ran S.shelf S.shelf_rest (IsOnPlace places.now) NoByte shelf.old shelf.new }
{
    if read_directly(shelf, places, stripe, offset, unknown, into) {
        return Ok(());
    }
    read_stripe(shelf, places, stripe, unknown, shards)?;
    copy_data(shards, offset, into);
    Ok(())
}

/// Reads a run of sectors of a segment, from that index on, one behind another into the buffer. The set of the missing drives is given by slot.
/// Where no drive is missing or fails, that is one call for each shard of each stripe that the run touches. A stripe that it can't read so is read whole, and the lost shards are recovered.
/// `Lost` comes only where three of the nine drives are each missing or failed in this call, and names them. No drive is missing for it.
pub fn read_sectors<S: Shelf>(
    shelf: &mut S,
    places: &Places,
    index: u16,
    missing: &[bool],
    shards: &mut StripeBuffer,
    into: &mut [u8],
) -> Result<(), Lost>
    requires places { ArePlaces (S.shelf shelf.old) places.now }
    requires whole { length into.old % SECTOR_BYTES ≡ 0 }
    requires run { SECTOR_BYTES * index + length into.old ≤ SECTOR_BYTES * SEGMENT_SECTORS }
    // What stands at each index in each view that shows the drives that aren't missing.
    ensures sectors { (S.shelf shelf.old).honest → OnOk result ((view : View) (j : ℕ) (bytes : List ℕ) → SECTOR_BYTES * j + SECTOR_BYTES ≤ length into.old
        → ShowsPresent (S.shelf shelf.old) places.now missing.now view → SectorStands view places.now (index + j) bytes → bytes_at (SECTOR_BYTES * j) SECTOR_BYTES into.new ≡ bytes) }
    // What each view shows of the drives that aren't missing and of which no call failed, whether the stripes stand or not.
    ensures shown { (S.shelf shelf.old).honest → OnOk result ((view : View) (j : ℕ) → SECTOR_BYTES * j + SECTOR_BYTES ≤ length into.old
        → ShowsNoOther (S.shelf shelf.old) (S.shelf shelf.new) places.now missing.now view → IsShownAt view places.now (index + j) (bytes_at (SECTOR_BYTES * j) SECTOR_BYTES into.new)) }
    ensures lost { IfErr result (λ lost. AreLost (S.shelf shelf.old) (S.shelf shelf.new) places.now (is_missing_in missing.now places.now) lost.drives) }
    ensures looks { OnlyLooks (S.shelf shelf.old) (S.shelf shelf.new) }
    ensures ran { Ran S.shelf S.shelf_rest (IsOnPlace places.now) NoByte shelf.old shelf.new }
{
    let start = SECTOR_BYTES * index as usize;
    let mut unknown = missing_shards(places, missing);
    let mut done = 0;
    while done < into.len() {
        let stripe = ((start + done) / STRIPE_BYTES) as u8;
        let offset = (start + done) % STRIPE_BYTES;
        let size = (STRIPE_BYTES - offset).min(into.len() - done);
        let part = &mut into[done..done + size];
        read_in_stripe(shelf, places, stripe, offset, &mut unknown, shards, part)?;
        done += size;
    }
    Ok(())
}
