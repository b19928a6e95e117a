// The shards of a stripe are read, and the lost ones recovered.
ghost use Rattle.std.specs.Prelude.{◌≡◌, ◌≢◌, ℕ, ◌+◌, ◌*◌, ◌%◌, ◌<◌, ◌≤◌, List, length, All, AllPairs, IfSome, IfNone, IfErr, OnOk, true};
ghost use Rattle.pur_base.specs.Bytes.{bytes_at};
ghost use Rattle.pur_base.specs.declared.limits.TheConstants.{SECTOR_BYTES, SEGMENT_SHARDS, SLOTS_MAX};
ghost use Rattle.pur_base.specs.Devices.{drive};
ghost use Rattle.parity72.specs.Parity.{shard_of};
ghost use Rattle.segment_codec.specs.declared.position.TheConstants.{WRITE_UNIT_BYTES, STRIPES};
ghost use Rattle.world.specs.Ran.{Only, Ran};
ghost use Rattle.segment_io.specs.Places.{IsPlace, ArePlaces, place_of, drive_of, write_unit_at, IsOnPlace};
ghost use Rattle.segment_io.specs.Lost.{is_in, NoByte};
ghost use Rattle.segment_io.specs.Stripes.{bytes_of, unit_in};
ghost use Rattle.segment_io.specs.Reads.{is_unknown, OnlyLooks, PartRead, Tried, ThreeUnknown, AreUnknown, AreShown, IsOn, AreLost};

use crate::open::SLOTS;
use arrayvec::ArrayVec;
use parity72::{SHARD_BYTES, SHARDS, recover};
use pur_base::{Device, DriveId, Lost, Place, Places, UNIT_BYTES};
use segment_codec::WRITE_UNIT_BYTES;
use world::Shelf;

/// Room for the nine shards of a stripe, which is lent to calls that read.
pub type StripeBuffer = [[u8; SHARD_BYTES]; SHARDS];

/// Reads a part of a write unit, unless it is unknown already. Gives whether it is unknown now.
pub fn read_part<S: Shelf>(
    shelf: &mut S,
    place: Place,
    n: u8,
    offset: usize,
    into: &mut [u8],
    unknown: bool,
) -> bool
    requires place { IsPlace (S.shelf shelf.old) place }
    requires n { n ≤ STRIPES }
    requires fits { offset + length into.old ≤ WRITE_UNIT_BYTES }
    requires aligned { (offset % SECTOR_BYTES ≡ 0) × (length into.old % SECTOR_BYTES ≡ 0) }
    ensures read { PartRead (S.shelf shelf.old).honest unknown result (bytes_at (write_unit_at place n + offset) (length into.old) ((S.shelf shelf.old).disk (drive place.slot)).bytes) into.new
        ((S.shelf shelf.old).disk (drive place.slot)) ((S.shelf shelf.new).disk (drive place.slot)) }
    ensures looks { OnlyLooks (S.shelf shelf.old) (S.shelf shelf.new) }
    ensures ran { Ran S.shelf S.shelf_rest (Only (drive place.slot)) NoByte shelf.old shelf.new }
{
    if unknown {
        return true;
    }
    let at = UNIT_BYTES as u64 * place.unit as u64
        + WRITE_UNIT_BYTES as u64 * n as u64
        + offset as u64;
    let answer = shelf.read(Device::Drive(DriveId(place.slot)), at, into);
    answer.is_err()
}

// Reads each shard of a stripe that isn't unknown. Where a read fails, the shard is unknown.
fn gather<S: Shelf>(
    shelf: &mut S,
    places: &Places,
    stripe: u8,
    unknown: &mut [bool; SHARDS],
    shards: &mut StripeBuffer,
)
    requires places { ArePlaces (S.shelf shelf.old) places.now }
    requires stripe { stripe < STRIPES }
    ensures read { (shard : ℕ) → shard < SEGMENT_SHARDS → PartRead (S.shelf shelf.old).honest (is_unknown unknown.old shard) (is_unknown unknown.new shard)
        (unit_in (bytes_of (S.shelf shelf.old)) places.now (stripe + 1) shard) (shard_of shards.new shard)
        ((S.shelf shelf.old).disk (drive_of places.now shard)) ((S.shelf shelf.new).disk (drive_of places.now shard)) }
    ensures looks { OnlyLooks (S.shelf shelf.old) (S.shelf shelf.new) }
    ensures ran { Ran S.shelf S.shelf_rest (IsOnPlace places.now) NoByte shelf.old shelf.new }
{
    for shard in 0..SHARDS {
        let is_unknown = unknown[shard];
        let into = &mut shards[shard];
        unknown[shard] = read_part(shelf, places[shard], stripe + 1, 0, into, is_unknown);
    }
}

// The numbers of the unknown shards, where they are two at most.
fn at_most_two(unknown: &[bool; SHARDS]) -> Option<ArrayVec<u8, 2>>
    ensures within { IfSome result (λ numbers. All (λ i. i < SEGMENT_SHARDS) numbers.items) }
    ensures distinct { IfSome result (λ numbers. AllPairs (λ i j. i ≢ j) numbers.items) }
    ensures all { IfSome result (λ numbers. AreUnknown unknown.now numbers.items) }
    ensures three { IfNone result (ThreeUnknown unknown.now) }
{
    let mut numbers = ArrayVec::new();
    for shard in 0..SHARDS {
        if !unknown[shard] {
            continue;
        }
        if numbers.is_full() {
            return None;
        }
        numbers.push(shard as u8);
    }
    Some(numbers)
}

// The drives of the unknown shards.
fn drives_of(places: &Places, unknown: &[bool; SHARDS]) -> Lost
    requires ascending { (first second : ℕ) → first < second → second < SEGMENT_SHARDS → (place_of places.now first).slot < (place_of places.now second).slot }
    requires within { (shard : ℕ) → shard < SEGMENT_SHARDS → (place_of places.now shard).slot < SLOTS_MAX }
    ensures each { (shard : ℕ) → shard < SEGMENT_SHARDS → is_in result.drives (place_of places.now shard).slot ≡ is_unknown unknown.now shard }
    ensures no_other { (slot : ℕ) → is_in result.drives slot ≡ true → (shard : ℕ) × (shard < SEGMENT_SHARDS) × (slot ≡ (place_of places.now shard).slot) }
{
    let mut drives = [false; SLOTS];
    for shard in 0..SHARDS {
        drives[places[shard].slot as usize] = unknown[shard];
    }
    Lost { drives }
}

/// Reads a stripe: its shards, of which those that are unknown or whose read fails are recovered. `Lost` comes only where these are three.
pub fn read_stripe<S: Shelf>(
    shelf: &mut S,
    places: &Places,
    stripe: u8,
    unknown: &mut [bool; SHARDS],
    shards: &mut StripeBuffer,
) -> Result<(), Lost>
    requires places { ArePlaces (S.shelf shelf.old) places.now }
    requires stripe { stripe < STRIPES }
    ensures read { (S.shelf shelf.old).honest → OnOk result ((whole : List (List ℕ)) → IsOn (S.shelf shelf.old) (S.shelf shelf.new) places.now unknown.old stripe whole → shards.new ≡ whole) }
    ensures shown { (S.shelf shelf.old).honest → OnOk result (AreShown (S.shelf shelf.old) (S.shelf shelf.new) places.now (is_unknown unknown.old) stripe shards.new) }
    ensures tried { Tried (S.shelf shelf.old) (S.shelf shelf.new) places.now (is_unknown unknown.old) unknown.new }
    ensures lost { IfErr result (λ lost. AreLost (S.shelf shelf.old) (S.shelf shelf.new) places.now (is_unknown unknown.old) lost.drives) }
    ensures looks { OnlyLooks (S.shelf shelf.old) (S.shelf shelf.new) }
    ensures ran { Ran S.shelf S.shelf_rest (IsOnPlace places.now) NoByte shelf.old shelf.new }
{
    gather(shelf, places, stripe, unknown, shards);
    let Some(numbers) = at_most_two(unknown) else {
        return Err(drives_of(places, unknown));
    };
    recover(shards, &numbers);
    Ok(())
}
