// Stripes are filled with sectors.
ghost use Rattle.std.specs.Prelude.{◌≡◌, ◌≢◌, ℕ, ◌<◌, ◌≤◌, length};
ghost use Rattle.pur_base.specs.Sectors.{filled};
ghost use Rattle.segment_codec.specs.declared.position.TheConstants.{SHARD_SECTORS, STRIPE_SECTORS, STRIPES};
ghost use Rattle.segment_io.specs.Stripes.{stripe_in};
ghost use Rattle.segment_writer.specs.DataPlacing.{AreIndicesOf};
ghost use Rattle.segment_writer.specs.DataFilling.{sector_of_shard, sector_of_stripe, IsSectorOf, HoldsSectors};

use parity72::SHARD_BYTES;
use pur_base::{SECTOR_BYTES, Sector};
use segment_codec::{SHARD_SECTORS, STRIPE_SECTORS};
use segment_io::StripeData;

// The sector at that place of a segment, or behind the last one the sector of zeros.
fn sector_at<'a>(staged: &'a [Sector], order: &[u16], place: usize, zeros: &'a Sector) -> &'a Sector
    requires order { AreIndicesOf staged.now order.now }
    requires zeros { zeros.now ≡ filled 0 }
    ensures { IsSectorOf staged.now order.now place result.now }
{
    if place >= order.len() {
        return zeros;
    }
    &staged[order[place] as usize]
}

// Puts a sector in its place in a shard.
fn put_in_shard(shard: &mut [u8; SHARD_BYTES], number: usize, sector: &Sector)
    requires { number < SHARD_SECTORS }
    ensures here { sector_of_shard shard.new number ≡ sector.now }
    ensures others { (other : ℕ) → other < SHARD_SECTORS → other ≢ number → sector_of_shard shard.new other ≡ sector_of_shard shard.old other }
{
    let at = SECTOR_BYTES * number;
    shard[at..at + SECTOR_BYTES].copy_from_slice(sector.as_bytes());
}

// Puts a sector in its place in a stripe.
fn put_sector(stripe: &mut StripeData, number: usize, sector: &Sector)
    requires { number < STRIPE_SECTORS }
    ensures here { sector_of_stripe stripe.new number ≡ sector.now }
    ensures others { (other : ℕ) → other < STRIPE_SECTORS → other ≢ number → sector_of_stripe stripe.new other ≡ sector_of_stripe stripe.old other }
{
    let shard = &mut stripe[number / SHARD_SECTORS as usize];
    put_in_shard(shard, number % SHARD_SECTORS as usize, sector);
}

// Fills the stripe of that number. The sector of zeros is lent.
fn fill_stripe(
    staged: &[Sector],
    order: &[u16],
    number: usize,
    zeros: &Sector,
    stripe: &mut StripeData,
)
    requires order { AreIndicesOf staged.now order.now }
    requires number { number < STRIPES }
    requires zeros { zeros.now ≡ filled 0 }
    ensures { HoldsSectors staged.now order.now number stripe.new }
{
    for place in 0..STRIPE_SECTORS as usize {
        let sector = sector_at(
            staged,
            order,
            STRIPE_SECTORS as usize * number + place,
            zeros,
        );
        put_sector(stripe, place, sector);
    }
}

/// Fills the first stripes of a segment with the staged sectors of these indices, and with zeros behind the last one. Each sector is copied once.
pub fn fill_stripes(staged: &[Sector], order: &[u16], stripes: &mut [StripeData])
    requires order { AreIndicesOf staged.now order.now }
    requires count { length stripes.old ≤ STRIPES }
    ensures { (number : ℕ) → number < length stripes.old → HoldsSectors staged.now order.now number (stripe_in stripes.new number) }
{
    let zeros = Sector::filled(0);
    for number in 0..stripes.len() {
        fill_stripe(staged, order, number, &zeros, &mut stripes[number]);
    }
}
