// Segments that are written.
ghost use Rattle.std.specs.Prelude.{◌≡◌, ℕ, ◌+◌, ◌*◌, ◌<◌, ◌≤◌, false, List, length};
ghost use Rattle.segment_codec.specs.declared.position.TheConstants.{STRIPES};
ghost use Rattle.world.specs.Ran.{Ran};
ghost use Rattle.segment_io.specs.Places.{ArePlaces, OnUnits, IsOnPlace};
ghost use Rattle.segment_io.specs.Lost.{is_in, LosesOnly};
ghost use Rattle.segment_io.specs.Stripes.{bytes_of, HoldsStripe, IsStripeOf, stripe_in};

use crate::appending::{encode_run, write_run};
use parity72::{DATA_SHARDS, SHARD_BYTES};
use pur_base::{Lost, Places, SLOTS_MAX, SegmentId};
use segment_codec::SegmentKind;
use std::slice::from_ref;
use world::Shelf;

/// The slots that a set of drives tells of.
pub const SLOTS: usize = SLOTS_MAX as usize;

/// The data of a stripe: seven shards of 4096 bytes.
pub type StripeData = [[u8; SHARD_BYTES]; DATA_SHARDS];

/// The write units of room that a run of stripes wants for each of its stripes.
pub const RUN_ROOM: usize = 3;

/// A segment to which stripes may be appended.
#[derive(Drop)]
pub struct Open {
    pub(crate) id: SegmentId,
    pub(crate) kind: SegmentKind,
    pub(crate) places: Places,
    /// How many stripes were appended.
    pub(crate) stripes: u8,
    /// The drives that were lost so far.
    pub(crate) lost: Lost,
    ghost bound: { stripes ≤ STRIPES },
}

impl Open {
    /// A segment on nine units, without stripes.
    pub fn new(id: SegmentId, kind: SegmentKind, places: Places) -> Open
        ensures id { result.id ≡ id }
        ensures kind { result.kind ≡ kind }
        ensures places { result.places ≡ places }
        ensures stripes { result.stripes ≡ 0 }
        ensures lost { (slot : ℕ) → is_in result.lost.drives slot ≡ false }
    {
        Open {
            id,
            kind,
            places,
            stripes: 0,
            lost: Lost {
                drives: [false; SLOTS],
            },
        }
    }

    /// The segment's units, by shard.
    pub fn places(&self) -> &Places
        ensures { result.now ≡ self.now.places }
    {
        &self.places
    }

    /// How many stripes were appended.
    pub fn stripes(&self) -> u8
        ensures { result ≡ self.now.stripes }
    {
        self.stripes
    }

    /// The drives that were lost so far.
    pub fn lost(&self) -> Lost
        ensures { result ≡ self.now.lost }
    {
        self.lost
    }

    /// Appends a stripe: its seven shards of data with P and Q go into the next write unit of each unit, and aren't synced.
    /// A drive on which the write fails is lost. Gives the drives that were lost so far.
    pub fn append_stripe<S: Shelf>(&mut self, stripe: &StripeData, shelf: &mut S) -> Lost
        requires places { ArePlaces (S.shelf shelf.old) self.old.places }
        requires room { self.old.stripes < STRIPES }
        ensures result { result ≡ self.new.lost }
        ensures lost { LosesOnly (S.shelf shelf.old) (S.shelf shelf.new) self.old.lost.drives self.new.lost.drives }
        ensures same { (self.new.id ≡ self.old.id) × (self.new.kind ≡ self.old.kind) × (self.new.places ≡ self.old.places) }
        ensures stripes { self.new.stripes ≡ self.old.stripes + 1 }
        ensures stands { (S.shelf shelf.old).honest → (shards : List (List ℕ)) × IsStripeOf stripe.now shards × HoldsStripe (bytes_of (S.shelf shelf.new)) self.new.places self.new.lost.drives self.old.stripes shards }
        // The stripes before it stand as they did.
        ensures kept { (S.shelf shelf.old).honest → (earlier : ℕ) (shards : List (List ℕ)) → earlier < self.old.stripes
            → HoldsStripe (bytes_of (S.shelf shelf.old)) self.old.places self.old.lost.drives earlier shards → HoldsStripe (bytes_of (S.shelf shelf.new)) self.new.places self.new.lost.drives earlier shards }
        ensures ran { Ran S.shelf S.shelf_rest (IsOnPlace self.old.places) (OnUnits self.old.places (self.old.stripes + 1) 1) shelf.old shelf.new }
    {
        let mut room = [[0; SHARD_BYTES]; RUN_ROOM];
        self.append_stripes(from_ref(stripe), &mut room, shelf)
    }

    /// Appends stripes that follow each other, as that many calls of `append_stripe` would, but with one write for each unit, nine in all.
    /// The room is lent and may be used again: three write units for each of the stripes, of which a segment has 15 at most.
    /// A drive on which the write fails is lost. Gives the drives that were lost so far.
    pub fn append_stripes<S: Shelf>(
        &mut self,
        stripes: &[StripeData],
        room: &mut [[u8; SHARD_BYTES]],
        shelf: &mut S,
    ) -> Lost
        requires places { ArePlaces (S.shelf shelf.old) self.old.places }
        requires fits { self.old.stripes + length stripes.now ≤ STRIPES }
        requires room { RUN_ROOM * length stripes.now ≤ length room.old }
        ensures result { result ≡ self.new.lost }
        ensures lost { LosesOnly (S.shelf shelf.old) (S.shelf shelf.new) self.old.lost.drives self.new.lost.drives }
        ensures same { (self.new.id ≡ self.old.id) × (self.new.kind ≡ self.old.kind) × (self.new.places ≡ self.old.places) }
        ensures stripes { self.new.stripes ≡ self.old.stripes + length stripes.now }
        ensures stand { (S.shelf shelf.old).honest → (number : ℕ) → number < length stripes.now
            → (shards : List (List ℕ)) × IsStripeOf (stripe_in stripes.now number) shards × HoldsStripe (bytes_of (S.shelf shelf.new)) self.new.places self.new.lost.drives (self.old.stripes + number) shards }
        // The stripes before them stand as they did.
        ensures kept { (S.shelf shelf.old).honest → (earlier : ℕ) (shards : List (List ℕ)) → earlier < self.old.stripes
            → HoldsStripe (bytes_of (S.shelf shelf.old)) self.old.places self.old.lost.drives earlier shards → HoldsStripe (bytes_of (S.shelf shelf.new)) self.new.places self.new.lost.drives earlier shards }
        ensures ran { Ran S.shelf S.shelf_rest (IsOnPlace self.old.places) (OnUnits self.old.places (self.old.stripes + 1) (length stripes.now)) shelf.old shelf.new }
    {
        let count = stripes.len();
        let (run, parities) = room.split_at_mut(count);
        let (p, q) = parities.split_at_mut(count);
        encode_run(stripes, p, q);
        write_run(
            shelf,
            &self.places,
            self.stripes,
            stripes,
            run,
            p,
            q,
            &mut self.lost,
        );
        self.stripes += count as u8;
        self.lost
    }
}
