// Segments are closed: their stripes are synced, and then their headers written and synced.
ghost use Rattle.std.specs.Prelude.{◌≡◌, ◌⊎◌, ◌↔◌, ℕ, ◌+◌, ◌<◌, ◌≤◌, [], true, false, Bool, List};
ghost use Rattle.pur_base.specs.declared.device.Device.{Device};
ghost use Rattle.pur_base.specs.declared.limits.TheConstants.{SEGMENT_SHARDS, SLOTS_MAX};
ghost use Rattle.pur_base.specs.Devices.{View};
ghost use Rattle.segment_codec.specs.declared.position.TheConstants.{STRIPES};
ghost use Rattle.segment_codec.specs.Position.{stripe_of};
ghost use Rattle.segment_codec.specs.Stripes.{SectorStands, sector_in};
ghost use Rattle.world.specs.Ran.{Ran};
ghost use Rattle.world.specs.Shelf.{Stop, MayStop, LeavesOnly};
ghost use Rattle.segment_io.specs.Places.{ArePlaces, OnUnits, place_of, IsOnPlace};
ghost use Rattle.segment_io.specs.Lost.{is_in, LosesOnly, NoByte, IsOnSlot};
ghost use Rattle.segment_io.specs.Stripes.{bytes_of, UnitsHold, HoldsStripe};
ghost use Rattle.segment_io.specs.Headers.{MayBeWritten, header_unit, AreDrivesOf, AreSynced, HeadersComeLast};
ghost use Rattle.segment_io.specs.Views.{ShowsMost};

use crate::open::{Open, SLOTS};
use crate::units::{sync_drive, write_units};
use parity72::SHARDS;
use pur_base::{Front, Lost, Places, SegmentId};
use segment_codec::{Header, WRITE_UNIT_BYTES, write_header};
use world::Shelf;

/// A segment that has its headers: no call writes its stripes or its headers again.
#[derive(Drop)]
pub struct Closed {
    pub(crate) id: SegmentId,
    pub(crate) places: Places,
    pub(crate) stripes: u8,
}

impl Closed {
    /// The segment's id.
    pub fn id(&self) -> SegmentId
        ensures { result ≡ self.now.id }
    {
        self.id
    }

    /// The segment's units, by shard.
    pub fn places(&self) -> &Places
        ensures { result.now ≡ self.now.places }
    {
        &self.places
    }

    /// How many stripes it has.
    pub fn stripes(&self) -> u8
        ensures { result ≡ self.now.stripes }
    {
        self.stripes
    }
}

// The header's write unit, as the unit of a shard has it.
#[tactic(auto, unfolding(crate::specs::Headers::header_unit))]
fn spell_header(header: &Header, shard: u8) -> [u8; WRITE_UNIT_BYTES]
    requires header { MayBeWritten header.now }
    requires shard { shard < SEGMENT_SHARDS }
    ensures { result ≡ header_unit header.now shard }
{
    let sector = write_header(&Header { shard, ..*header });
    let mut front = Front::<WRITE_UNIT_BYTES>::new();
    front.put(sector.as_bytes());
    front.into_bytes()
}

// Writes the header into each of the nine units, unless its drive is lost.
fn write_each_header<S: Shelf>(shelf: &mut S, places: &Places, header: &Header, lost: &mut Lost)
    requires places { ArePlaces (S.shelf shelf.old) places.now }
    requires header { MayBeWritten header.now }
    ensures lost { LosesOnly (S.shelf shelf.old) (S.shelf shelf.new) lost.old.drives lost.new.drives }
    ensures written { (S.shelf shelf.old).honest → UnitsHold (bytes_of (S.shelf shelf.new)) places.now lost.new.drives 0 (header_unit header.now) }
    ensures ran { Ran S.shelf S.shelf_rest (IsOnPlace places.now) (OnUnits places.now 0 1) shelf.old shelf.new }
{
    for shard in 0..SHARDS {
        let unit = spell_header(header, shard as u8);
        write_units(shelf, places[shard], 0, &unit, lost);
    }
}

/// Syncs each drive of the set, given by slot, unless it is lost. One on which that fails is lost.
/// Segments that are closed together share a sync of their stripes and one of their headers.
pub fn sync_drives<S: Shelf>(shelf: &mut S, drives: &[bool], lost: &mut Lost)
    requires { (slot : ℕ) → is_in drives.now slot ≡ true → slot < (S.shelf shelf.old).drives }
    ensures lost { LosesOnly (S.shelf shelf.old) (S.shelf shelf.new) lost.old.drives lost.new.drives }
    ensures clean { (S.shelf shelf.old).honest → AreSynced (S.shelf shelf.new) drives.now lost.new.drives }
    ensures bytes { (S.shelf shelf.old).honest → (device : Device) → ((S.shelf shelf.new).disk device).bytes ≡ ((S.shelf shelf.old).disk device).bytes }
    ensures ran { Ran S.shelf S.shelf_rest (IsOnSlot drives.now) NoByte shelf.old shelf.new }
{
    for slot in 0..drives.len() {
        if !drives[slot] {
            continue;
        }
        sync_drive(shelf, slot as u8, lost);
    }
}

// Adds the drives of one set to another.
fn join(lost: &mut Lost, more: &Lost)
    ensures { (slot : ℕ) → (is_in lost.new.drives slot ≡ true) ↔ ((is_in lost.old.drives slot ≡ true) ⊎ (is_in more.now.drives slot ≡ true)) }
{
    for slot in 0..SLOTS {
        lost.drives[slot] |= more.drives[slot];
    }
}

impl Open {
    /// The set of the drives of the segment's nine units, by slot.
    pub fn drives(&self) -> [bool; SLOTS]
        requires { (shard : ℕ) → shard < SEGMENT_SHARDS → (place_of self.now.places shard).slot < SLOTS_MAX }
        ensures { AreDrivesOf self.now.places result }
    {
        let mut drives = [false; SLOTS];
        for shard in 0..SHARDS {
            drives[self.places[shard].slot as usize] = true;
        }
        drives
    }

    /// Takes these drives, given by slot, as lost too, as where they failed under another segment.
    pub fn lose(&mut self, lost: &Lost)
        ensures same { (self.new.id ≡ self.old.id) × (self.new.kind ≡ self.old.kind) × (self.new.places ≡ self.old.places) × (self.new.stripes ≡ self.old.stripes) }
        ensures lost { (slot : ℕ) → (is_in self.new.lost.drives slot ≡ true) ↔ ((is_in self.old.lost.drives slot ≡ true) ⊎ (is_in lost.now.drives slot ≡ true)) }
    {
        join(&mut self.lost, lost);
    }

    /// Closes the segment: writes the header, each time with the shard of the unit, into write unit 0 of each unit. It isn't synced.
    /// It asks for stripes that were synced, on each drive that isn't lost. Gives the drives that were lost so far.
    pub fn write_headers<S: Shelf>(self, header: &Header, shelf: &mut S) -> (Closed, Lost)
        requires places { ArePlaces (S.shelf shelf.old) self.places }
        requires header { MayBeWritten header.now }
        requires same { (header.now.segment ≡ self.id) × (header.now.kind ≡ self.kind) × (header.now.places ≡ self.places) }
        requires some { 0 < self.stripes }
        ensures closed { (result.0.id ≡ self.id) × (result.0.places ≡ self.places) × (result.0.stripes ≡ self.stripes) }
        ensures lost { LosesOnly (S.shelf shelf.old) (S.shelf shelf.new) self.lost.drives result.1.drives }
        ensures headers { (S.shelf shelf.old).honest → UnitsHold (bytes_of (S.shelf shelf.new)) self.places result.1.drives 0 (header_unit header.now) }
        ensures kept { (S.shelf shelf.old).honest → (stripe : ℕ) (shards : List (List ℕ)) → HoldsStripe (bytes_of (S.shelf shelf.old)) self.places self.lost.drives stripe shards
            → HoldsStripe (bytes_of (S.shelf shelf.new)) self.places result.1.drives stripe shards }
        ensures ran { Ran S.shelf S.shelf_rest (IsOnPlace self.places) (OnUnits self.places 0 1) shelf.old shelf.new }
    {
        let mut lost = self.lost;
        write_each_header(shelf, &self.places, header, &mut lost);
        let closed = Closed {
            id: self.id,
            places: self.places,
            stripes: self.stripes,
        };
        (closed, lost)
    }

    /// Closes the segment: syncs its stripes, and then writes the headers and syncs them. A drive on which a call fails is lost.
    /// Gives the drives that were lost so far. Segments that are closed together take `sync_drives`, `write_headers` for each of them, and `sync_drives`.
    pub fn close<S: Shelf>(mut self, header: &Header, shelf: &mut S) -> (Closed, Lost)
        requires places { ArePlaces (S.shelf shelf.old) self.places }
        requires header { MayBeWritten header.now }
        requires same { (header.now.segment ≡ self.id) × (header.now.kind ≡ self.kind) × (header.now.places ≡ self.places) }
        requires some { 0 < self.stripes }
        ensures closed { (result.0.id ≡ self.id) × (result.0.places ≡ self.places) × (result.0.stripes ≡ self.stripes) }
        ensures lost { LosesOnly (S.shelf shelf.old) (S.shelf shelf.new) self.lost.drives result.1.drives }
        ensures headers { (S.shelf shelf.old).honest → UnitsHold (bytes_of (S.shelf shelf.new)) self.places result.1.drives 0 (header_unit header.now) }
        ensures kept { (S.shelf shelf.old).honest → (stripe : ℕ) (shards : List (List ℕ)) → HoldsStripe (bytes_of (S.shelf shelf.old)) self.places self.lost.drives stripe shards
            → HoldsStripe (bytes_of (S.shelf shelf.new)) self.places result.1.drives stripe shards }
        ensures synced { (S.shelf shelf.old).honest → (drives : List Bool) → AreDrivesOf self.places drives → AreSynced (S.shelf shelf.new) drives result.1.drives }
        // After it, whatever stop comes and whichever two of the drives are missing, the sectors of each stripe stand.
        ensures reads { (S.shelf shelf.old).honest → (stop : Stop) (view : View) (index : ℕ) (shards : List (List ℕ)) → MayStop (S.shelf shelf.new) stop → ShowsMost stop.image self.places result.1.drives view
            → stripe_of index < STRIPES → HoldsStripe (bytes_of (S.shelf shelf.old)) self.places self.lost.drives (stripe_of index) shards → SectorStands view self.places index (sector_in shards index) }
        // At every moment no header is there yet, or the stripes are there whole.
        ensures in_turn { (S.shelf shelf.old).honest → LeavesOnly (S.shelf shelf.old) (S.shelf shelf.new) (HeadersComeLast (S.shelf shelf.old) self.places self.stripes result.1.drives) }
        ensures ran { Ran S.shelf S.shelf_rest (IsOnPlace self.places) (OnUnits self.places 0 1) shelf.old shelf.new }
    {
        let drives = self.drives();
        sync_drives(shelf, &drives, &mut self.lost);
        let (closed, mut lost) = self.write_headers(header, shelf);
        sync_drives(shelf, &drives, &mut lost);
        (closed, lost)
    }
}
