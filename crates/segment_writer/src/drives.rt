// The drives of new segments.
ghost use Rattle.std.specs.Prelude.{◌≡◌, ◌⊎◌, ℕ, ◌<◌, true, length};
ghost use Rattle.pur_base.specs.declared.limits.TheConstants.{SEGMENT_SHARDS, SLOTS_MAX};
ghost use Rattle.segment_io.specs.Places.{place_of};
ghost use Rattle.segment_io.specs.Lost.{is_in};
ghost use Rattle.segment_writer.specs.Layout.{units_of, AreDrivesOfAll};

use crate::content::Headed;
use parity72::SHARDS;
use pur_base::{Places, SLOTS_MAX};

/// The slots that a set of drives tells of.
pub(crate) const SLOTS: usize = SLOTS_MAX as usize;

// Adds the drives of a segment's nine units to a set.
fn mark_segment(places: &Places, drives: &mut [bool; SLOTS])
    requires { (shard : ℕ) → shard < SEGMENT_SHARDS → (place_of places.now shard).slot < SLOTS_MAX }
    ensures each { (shard : ℕ) → shard < SEGMENT_SHARDS → is_in drives.new (place_of places.now shard).slot ≡ true }
    ensures stays { (slot : ℕ) → is_in drives.old slot ≡ true → is_in drives.new slot ≡ true }
    ensures no_other { (slot : ℕ) → is_in drives.new slot ≡ true → (is_in drives.old slot ≡ true) ⊎ ((shard : ℕ) × (shard < SEGMENT_SHARDS) × (slot ≡ (place_of places.now shard).slot)) }
{
    for shard in 0..SHARDS {
        drives[places[shard].slot as usize] = true;
    }
}

/// The set of the drives of all units of new segments, by slot: those that `sync_drives` is to sync.
pub(crate) fn drives_of<N: Headed>(new: &N) -> [bool; SLOTS]
    requires may_head { N.may_head new.now }
    requires slots { (number shard : ℕ) → number < (N.layout new.now).count → shard < SEGMENT_SHARDS → (place_of (units_of (N.layout new.now) number) shard).slot < SLOTS_MAX }
    ensures { AreDrivesOfAll (N.layout new.now).count (units_of (N.layout new.now)) result }
{
    let mut drives = [false; SLOTS];
    for number in 0..new.count() {
        let header = new.header(number);
        mark_segment(&header.places, &mut drives);
    }
    drives
}
