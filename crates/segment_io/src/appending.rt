// Runs of stripes that follow each other are written.
ghost use Rattle.std.specs.Prelude.{◌≡◌, ℕ, ◌+◌, ◌*◌, ◌<◌, ◌≤◌, length};
ghost use Rattle.pur_base.specs.declared.limits.TheConstants.{SEGMENT_SHARDS};
ghost use Rattle.parity72.specs.Parity.{IsCodeword, shard_of};
ghost use Rattle.segment_codec.specs.declared.position.TheConstants.{WRITE_UNIT_BYTES, STRIPES};
ghost use Rattle.world.specs.Ran.{Ran};
ghost use Rattle.segment_io.specs.Places.{ArePlaces, OnUnits, IsOnPlace};
ghost use Rattle.segment_io.specs.Lost.{LosesOnly};
ghost use Rattle.segment_io.specs.Stripes.{bytes_of, shards_in, IsRunOf, IsGathered, RunHolds};

use crate::open::StripeData;
use crate::units::write_units;
use parity72::{DATA_SHARDS, SHARD_BYTES, SHARDS, encode};
use pur_base::{Lost, Places};
use world::Shelf;

/// Computes P and Q of each stripe of a run.
pub fn encode_run(stripes: &[StripeData], p: &mut [[u8; SHARD_BYTES]], q: &mut [[u8; SHARD_BYTES]])
    requires room { (length stripes.now ≤ length p.old) × (length stripes.now ≤ length q.old) }
    ensures { (number : ℕ) → number < length stripes.now → IsCodeword (shards_in stripes.now p.new q.new number) }
{
    for number in 0..stripes.len() {
        encode(&stripes[number], &mut p[number], &mut q[number]);
    }
}

// Gathers a shard of data of each stripe of a run. In a run of one stripe it stands where it is.
fn gather_shard(stripes: &[StripeData], shard: usize, run: &mut [[u8; SHARD_BYTES]])
    requires { length stripes.now ≤ length run.old }
    ensures { IsGathered stripes.now shard run.new }
{
    if stripes.len() == 1 {
        return;
    }
    if shard >= DATA_SHARDS {
        return;
    }
    for number in 0..stripes.len() {
        run[number].copy_from_slice(&stripes[number][shard]);
    }
}

// The bytes of a shard of a run: of the stripes' data, their P or their Q.
fn run_of_shard<'a>(
    stripes: &'a [StripeData],
    run: &'a [[u8; SHARD_BYTES]],
    p: &'a [[u8; SHARD_BYTES]],
    q: &'a [[u8; SHARD_BYTES]],
    shard: usize,
) -> &'a [u8]
    requires shard { shard < SEGMENT_SHARDS }
    requires gathered { IsGathered stripes.now shard run.now }
    requires room { (length stripes.now ≤ length run.now) × (length stripes.now ≤ length p.now) × (length stripes.now ≤ length q.now) }
    ensures size { length result.now ≡ WRITE_UNIT_BYTES * length stripes.now }
    ensures units { IsRunOf (λ number. shard_of (shards_in stripes.now p.now q.now number) shard) (length stripes.now) result.now }
{
    let count = stripes.len();
    if shard == DATA_SHARDS {
        return p[..count].as_flattened();
    }
    if shard > DATA_SHARDS {
        return q[..count].as_flattened();
    }
    if count == 1 {
        return &stripes[0][shard];
    }
    run[..count].as_flattened()
}

/// Writes the shards of a run of stripes with one write each, on its drive unless that is lost.
pub fn write_run<S: Shelf>(
    shelf: &mut S,
    places: &Places,
    number: u8,
    stripes: &[StripeData],
    run: &mut [[u8; SHARD_BYTES]],
    p: &[[u8; SHARD_BYTES]],
    q: &[[u8; SHARD_BYTES]],
    lost: &mut Lost,
)
    requires places { ArePlaces (S.shelf shelf.old) places.now }
    requires fits { number + length stripes.now ≤ STRIPES }
    requires room { (length stripes.now ≤ length run.old) × (length stripes.now ≤ length p.now) × (length stripes.now ≤ length q.now) }
    ensures lost { LosesOnly (S.shelf shelf.old) (S.shelf shelf.new) lost.old.drives lost.new.drives }
    ensures written { (S.shelf shelf.old).honest → RunHolds (bytes_of (S.shelf shelf.new)) places.now lost.new.drives (number + 1) (length stripes.now) (λ k. shard_of (shards_in stripes.now p.now q.now k)) }
    ensures ran { Ran S.shelf S.shelf_rest (IsOnPlace places.now) (OnUnits places.now (number + 1) (length stripes.now)) shelf.old shelf.new }
{
    for shard in 0..SHARDS {
        gather_shard(stripes, shard, run);
        let bytes = run_of_shard(stripes, run, p, q, shard);
        write_units(shelf, places[shard], number + 1, bytes, lost);
    }
}
